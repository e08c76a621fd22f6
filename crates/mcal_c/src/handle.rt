//! What C holds.

ghost use Rattle.mcal_c.specs.declared.handle.Bench.{Bench};
ghost use Rattle.std.specs.declared.alloc.Global.{Global};

use live_modules::AllModules;
use live_session::Session;
use std::marker::Model;

/// A session, where the power is on, and what is told where it isn't.
#[derive(Drop)]
pub struct Bench {
    pub(crate) session: Option<Session<AllModules>>,
    pub(crate) told: String,
}

/// What C sees in place of the bench's type.
#[repr(C)]
#[derive(Drop)]
pub struct Opaque {
    none: u8,
}

/// A bench that C holds.
#[repr(C)]
pub struct Handle {
    pub(crate) at: *mut Opaque,
    pub(crate) ghost value: { Bench },
    pub(crate) ghost alloc: { Global },
}

impl Model for Handle {
    ghost use Rattle.mcal_c.specs.contracts.handle.Bench.{the_row};
    ghost use Rattle.std_alloc.specs.Box.Ownership.{box_owns};
    ghost use Rattle.std.specs.contracts.impls.GlobalAllocator.TheImpl.{ghosts};

    ghost also_owns = { λ h. box_owns (ghosts.dealloc_token h.alloc) the_row h.at h.value };
}
