//! The drivers under one's own program: a configuration, then a line at a time, each answered at once. Standard input and
//! standard output; nothing goes to standard error.
#![tactic(auto)]

use live_modules::AllModules;
use live_session::{End, converse};
use mcal_base::{StdSink, StdSource};
use std::process::ExitCode;

fn main(rt: HostRuntime) -> ExitCode {
    let input = StdSource::new(rt.stdin());
    let mut out = StdSink::new(rt.stdout());
    let status = match converse::<_, _, AllModules>(rt.alloc(), input, &mut out) {
        End::Over => 0,
        End::ReadFault => 2,
        End::WriteFault => 3,
        End::NoMemory => 4,
        End::TooLong => 5,
        End::Configuration => 6,
        End::NoSeparator => 7,
    };
    ExitCode::from(status)
}
