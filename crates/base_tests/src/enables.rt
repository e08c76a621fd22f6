ghost use Rattle.std.specs.Prelude.{length, ◌^◌, ◌<◌};

use crate::line::{Line, numbers};
use irq_control::{Held, Irq};

/// Whether the controller does as a word with its numbers says: it enables and disables lines, closes and opens the
/// mask, and a line is pending or isn't with these flags.
fn follows(irq: &mut Irq, word: &str, numbers: [u32; 4]) -> bool {
    let [first, second, third, _] = numbers;
    match word {
        "enable" => irq.set(first),
        "disable" => irq.clear(first),
        "mask" => irq.mask(),
        "unmask" => irq.unmask(),
        "masked" => return irq.masked() == (first == 1),
        "pending" => return irq.pending(first, second) == (third == 1),
        _ => return false,
    }
    true
}

/// Whether a cause, by its number, is printed so: 0 for the mask, and 1 for frames that are open.
fn is_cause(word: &str, behind: &str) -> bool {
    let Some((number, cause)) = behind.split_once(' ') else {
        return false;
    };
    let printed = if number == "0" {
        Held::Masked.text()
    } else {
        Held::Frames.text()
    };
    word == "cause" && cause == printed
}

/// The number of the first line that the controller doesn't follow, from 1, and 0 where it follows all.
pub fn first_wrong(lines: &[Line<'_>]) -> usize
    requires { length lines.now < 2 ^ 20 }
{
    let mut irq = Irq::new();
    for (place, line) in lines.iter().enumerate() {
        match line {
            Line::Word(word, behind)
                if is_cause(word, behind) || follows(&mut irq, word, numbers(behind)) => {}
            _ => return place + 1,
        }
    }
    0
}
