use crate::driver::PortDriver;
use crate::writes::Side;
use mcal_base::Move;
use service_outline::{Body, BodyTaken, Epilogue, acts_with, goes, nothing};

/// `Port_RefreshPortDirection`, from the load of the state word on.
#[derive(Clone, Copy)]
pub enum RefreshBody {
    /// It makes this one of its four writes, and acts at the last one.
    Write(PortDriver, u16),
}

impl Body for RefreshBody {
    ghost use Rattle.port_driver.specs.laws.Refresh.{refresh_work, refresh_takes};

    ghost work_of = { refresh_work };

    ghost takes = { refresh_takes };

    fn next(&self) -> Move {
        match *self {
            RefreshBody::Write(driver, write) => driver.half_write(Side::Fixed, write),
        }
    }

    fn took(&mut self, _value: u32) -> BodyTaken {
        match self {
            RefreshBody::Write(_, write) if *write < 3 => {
                *write += 1;
                goes()
            }
            RefreshBody::Write(..) => acts_with(nothing(), Epilogue::Nothing),
        }
    }
}
