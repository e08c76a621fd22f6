use crate::lines::place_of;

/// What a line asks for that is no directive of the script language.
#[derive(Clone, Copy)]
pub(crate) enum Command {
    /// One step of the top frame, which is printed.
    Step,
    /// Steps of the top frame until a callback is called, an error is reported, or the frame ends.
    Next,
    /// The next move of the top frame.
    Peek,
    /// The board is switched off and on.
    PowerOn,
    /// What may be asked for.
    Help,
}

/// A line without blanks at its ends and without a comment.
fn bare(line: &[u8]) -> &[u8] {
    let end = place_of(b'#', line).unwrap_or(line.len());
    line[..end].trim_ascii()
}

/// The command that a line is, if it is one.
pub(crate) fn command_of(line: &[u8]) -> Option<Command> {
    let bare = bare(line);
    if bare == b"step".as_slice() {
        Some(Command::Step)
    } else if bare == b"next".as_slice() {
        Some(Command::Next)
    } else if bare == b"peek".as_slice() {
        Some(Command::Peek)
    } else if bare == b"power on".as_slice() {
        Some(Command::PowerOn)
    } else if bare == b"help".as_slice() {
        Some(Command::Help)
    } else {
        None
    }
}

/// What `help` prints.
pub(crate) const HELP: &str = "\
# call L SERVICE ARGUMENTS   begins a call at level L
# enter LINE                 begins the handler of an interrupt line
# step                       makes one step of the top frame, and prints it
# next                       makes steps until a callback, an error, or the frame's end
# next do .., next serve ..  begins, and makes steps as next does
# run N, upto X, finish      as in a script; do and serve begin and finish
# peek                       prints the next move
# tick N, level PIN V, analog INPUT V, trigger INPUT, miso UNIT W .., spifault UNIT,
# fill CHANNEL W .., detach, reset power, reset watchdog, show pins|wire|buffers|ram
# power on                   switches the board off and on
# After each answer stands a line '> FRAMES', then 'at' and the top frame's level,
# 'masked' where the mask is closed, and 'pending' with the lines that are.
";
