ghost use Rattle.std.specs.Prelude.{◌≡◌, IfOk, slice_index_or};
ghost use Rattle.spi_machine.specs.Numbered.{with_item};
ghost use Rattle.audit_serial.specs.Grown.{IsGrown};

use std::alloc::{AllocError, Global};

/// What stands at first at each place of a list by number.
pub(crate) trait Blank: Drop {
    ghost blank: { Self };

    /// Such an item.
    fn blank(alloc: Global) -> Self
        ensures { result ≡ blank };
}

/// The item of a number, and the first one where none was stored.
pub(crate) fn item<T: Copy>(items: &[T], number: usize, first: T) -> T
    ensures { result ≡ slice_index_or items.now number first }
{
    if number < items.len() {
        items[number]
    } else {
        first
    }
}

/// An item is stored by its number.
pub(crate) fn set_item<T: Copy>(
    items: &mut Vec<T>,
    number: usize,
    first: T,
    item: T,
) -> Result<(), AllocError>
    ensures { IfOk result (λ _. items.new.items ≡ with_item first items.old.items number item) }
{
    'grows: while items.len() <= number {
        items.push(first)?;
    }
    items[number] = item;
    Ok(())
}

/// A list has an item of a number.
pub(crate) fn grow<T: Blank>(
    alloc: Global,
    items: &mut Vec<T>,
    number: usize,
) -> Result<(), AllocError>
    ensures { IfOk result (λ _. IsGrown T.blank items.old.items items.new.items number) }
{
    'grows: while items.len() <= number {
        items.push(T::blank(alloc))?;
    }
    Ok(())
}

/// An item takes the place of its number.
pub(crate) fn put<T: Blank>(
    alloc: Global,
    items: &mut Vec<T>,
    number: usize,
    item: T,
) -> Result<(), AllocError>
    ensures { IfOk result (λ _. items.new.items ≡ with_item T.blank items.old.items number item) }
{
    grow(alloc, items, number)?;
    items[number] = item;
    Ok(())
}
