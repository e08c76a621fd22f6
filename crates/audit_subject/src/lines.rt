ghost use Rattle.std.specs.Prelude.{◌≡◌, ◌<◌, ◌≤◌, ◌&&◌, ℕ, false, not, true};
ghost use Rattle.mcal_base.specs.Bits.{has_bit};
ghost use Rattle.run_model.specs.World.{World};
ghost use Rattle.audit_base.specs.Outside.{IsWorld};
ghost use Rattle.audit_subject.specs.Lines.{lines_where};

use audit_base::{Outside, Part};
use audit_frames::has_bit;

/// Whether no line from this one on, of 64, is one of a mask.
fn ends_before(asked: u64, line: u32) -> bool
    requires { line < 64 }
    ensures { result ≡ true → (l : ℕ) → line ≤ l → has_bit asked l ≡ false }
{
    asked >> line == 0
}

/// Whether a line is one of a mask and may not be served.
fn is_unready<P: Part>(part: &P, outside: &Outside, asked: u64, line: u32) -> bool
    ensures { (w : World) (s : P.State) → P.fits part.now outside.now → IsWorld outside.now w → P.stands part.now s →
        result ≡ (has_bit asked line && not ((P.member (P.table part.now)).machine.ready w s line)) }
{
    has_bit(asked, line) && !part.ready(outside, line)
}

/// The lines of a mask that may not be served.
pub fn unready<P: Part>(part: &P, outside: &Outside, asked: u64) -> u64
    ensures { (w : World) (s : P.State) → P.fits part.now outside.now → IsWorld outside.now w → P.stands part.now s →
        result ≡ lines_where asked (λ l. not ((P.member (P.table part.now)).machine.ready w s l)) }
{
    if asked == 0 {
        return 0;
    }
    let mut found = 0;
    for line in 0..64 {
        if ends_before(asked, line) {
            return found;
        }
        if is_unready(part, outside, asked, line) {
            found |= 1 << line;
        }
    }
    found
}

/// Whether a line is one of a mask of which no unit may start or abort.
fn is_calm<P: Part>(part: &P, outside: &Outside, asked: u64, line: u32) -> bool
    ensures { (w : World) (s : P.State) → P.fits part.now outside.now → IsWorld outside.now w → P.stands part.now s →
        result ≡ (has_bit asked line && not ((P.member (P.table part.now)).machine.line_waits w s line)) }
{
    has_bit(asked, line) && !part.line_waits(outside, line)
}

/// The lines of a mask of which no unit may start or abort.
pub fn calm<P: Part>(part: &P, outside: &Outside, asked: u64) -> u64
    ensures { (w : World) (s : P.State) → P.fits part.now outside.now → IsWorld outside.now w → P.stands part.now s →
        result ≡ lines_where asked (λ l. not ((P.member (P.table part.now)).machine.line_waits w s l)) }
{
    if asked == 0 {
        return 0;
    }
    let mut found = 0;
    for line in 0..64 {
        if ends_before(asked, line) {
            return found;
        }
        if is_calm(part, outside, asked, line) {
            found |= 1 << line;
        }
    }
    found
}
