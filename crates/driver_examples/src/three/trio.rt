ghost use Rattle.std.specs.Prelude.{◌≡◌};
ghost use Rattle.step_runner.specs.Union.{union_of};
ghost use Rattle.driver_examples.specs.three.Cell.{cell};

use crate::three::cell::Cell;
use step_runner::{Module, Union};

/// Three cells as one driver.
pub type Three = Union<Cell, Union<Cell, Cell>>;

/// Cells of the words 0, 1 and 2.
pub fn three() -> Three
    ensures fits { (union_of (cell result.first.word) (union_of (cell result.second.first.word) (cell result.second.second.word))).fits }
    ensures words { (result.first.word ≡ 0) × (result.second.first.word ≡ 1) × (result.second.second.word ≡ 2) }
{
    Union {
        first: Cell { word: 0 },
        second: Union {
            first: Cell { word: 1 },
            second: Cell { word: 2 },
        },
    }
}
