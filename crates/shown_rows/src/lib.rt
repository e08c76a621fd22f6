//! The rows that a show prints of a board: its pins, RAM sections, buffers and wires.
#![tactic(auto)]

mod buffers;
mod objects;
mod pins;
mod sections;
mod shown;
mod text;
mod wires;
mod words;

pub use shown::{Exchange, ShownBoard, Words};
pub use text::shown_text;
