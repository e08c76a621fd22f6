//! That the checker's machine of all modules is the drivers'. Nothing here runs.

mod laws;

pub use laws::the_checkers_machine_is_the_drivers;
