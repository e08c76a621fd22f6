//! The converter block of the reference chip, by times: two units, each with the round begun last, the levels
//! of the analog inputs and the trigger inputs. What a register reads is computed when it is read, so that a
//! tick of any length is one addition.

mod block;
mod converter;
pub mod laws;
mod round;

pub use block::ConverterBlock;
