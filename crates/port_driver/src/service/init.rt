use crate::driver::PortDriver;
use crate::words::STATE;
use crate::writes::Side;
use mcal_base::Move;
use service_outline::{Body, BodyTaken, Epilogue, Objects, acts_with, nothing};

/// The writes of `Port_Init`, with the mask open: levels and modes before directions, so that a pin drives nothing but
/// its configured level.
#[derive(Clone, Copy)]
pub struct Setup {
    /// The driver.
    pub driver: PortDriver,
}

impl Objects for Setup {
    type After = InitDone;

    ghost use Rattle.port_driver.specs.laws.Init.{setup_count, setup_move, setup_after};

    ghost count_of = { setup_count };

    ghost move_at = { setup_move };

    ghost after_of = { setup_after };

    fn count(&self) -> u16 {
        8 + self.driver.configured()
    }

    fn at(&self, object: u16) -> Move {
        let modes_end = 4 + self.driver.configured();
        if object < 4 {
            self.driver.half_write(Side::Levels, object)
        } else if object < modes_end {
            self.driver.mode_write(object - 4)
        } else {
            self.driver.half_write(Side::Directions, object - modes_end)
        }
    }

    fn after(&self) -> InitDone {
        InitDone::Store
    }
}

/// What follows, in a window.
#[derive(Clone, Copy)]
pub enum InitDone {
    /// It acts, and the module is initialised.
    Store,
}

impl Body for InitDone {
    ghost use Rattle.port_driver.specs.laws.Init.{done_work, done_takes};

    ghost work_of = { done_work };

    ghost takes = { done_takes };

    fn next(&self) -> Move {
        match *self {
            InitDone::Store => Move::Store(STATE, 1),
        }
    }

    fn took(&mut self, _value: u32) -> BodyTaken {
        match *self {
            InitDone::Store => acts_with(nothing(), Epilogue::Nothing),
        }
    }
}
