ghost use Rattle.std.specs.Prelude.{◌≡◌};
ghost use Rattle.step_runner.specs.Union.{union_of};
ghost use Rattle.driver_examples.specs.three.Cell.{cell};
ghost use Rattle.service_outline.specs.guests.Guest.{guest_of};
ghost use Rattle.driver_examples.specs.guest.Visitor.{visitor};

use crate::guest::visitor::Visitor;
use crate::three::Cell;
use service_outline::guests::Hosted;
use step_runner::Union;

/// Two cells as one driver, with a visitor.
pub type House = Hosted<Union<Cell, Cell>, Visitor>;

/// Cells of the words 0 and 1, with a visitor in the second.
pub fn house() -> House
    ensures fits { (guest_of (union_of (cell result.host.first.word) (cell result.host.second.word)) (visitor result.guest.word)).fits }
    ensures words { (result.host.first.word ≡ 0) × (result.host.second.word ≡ 1) }
{
    Hosted {
        host: Union {
            first: Cell { word: 0 },
            second: Cell { word: 1 },
        },
        guest: Visitor { word: 1 },
    }
}
