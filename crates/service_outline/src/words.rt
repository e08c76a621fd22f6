ghost use Rattle.std.specs.Prelude.{◌≡◌, ◌≤◌, length};

use mcal_base::Words;

/// The same numbers, as those of an answer: for a body that keeps them, where its frame ends.
pub fn copied(numbers: &[u32]) -> Words
    requires { length numbers.now ≤ 64 }
    ensures { result ≡ numbers.now }
{
    let mut copy = Words::new();
    for number in numbers {
        copy.push(*number);
    }
    copy
}
