//! The bench behind a handle.

ghost use Rattle.std.specs.Prelude.{◌≡◌};
ghost use Rattle.mcal_c.specs.Lending.{HandleLends};
ghost use types.Logic.{sem};

use crate::handle::{Bench, Handle, Opaque};

/// The bench, while the handle is lent.
pub(crate) fn lent(handle: &mut Handle) -> &mut Bench
    ensures* writes_back { sem 𝓛 (HandleLends handle.entry result) }
    ensures value { result.now ≡ handle.old.value }
{
    unsafe { &mut *(handle.at as *mut Bench) }
}

/// The same place, as C sees it.
pub(crate) fn opaque(at: *mut Bench) -> *mut Opaque
    ensures { result ≡ at }
{
    at as *mut Opaque
}
