ghost use Rattle.std.specs.Prelude.{List, Option, Some, None, ◌≡◌, ◌∷◌, ◌++◌, [], OnOk, drop, slice_get, option_to_list};
ghost use Rattle.bench_report.specs.Report as spec;

use mcal_base::{Order, Service};
use std::alloc::{AllocError, Global};
use std::marker::Model;

/// What a frame was begun for.
#[derive(Clone, Copy)]
pub enum Purpose {
    /// A call of a service.
    Call(Service),
    /// The handler of a line.
    Handler(u32),
}

/// What a directive begins a frame for.
pub fn purpose_of(order: &Order) -> Option<Purpose>
    ensures { result ≡ spec.purpose_of order.now }
{
    match order {
        Order::Call(_, request) | Order::Do(_, request) => Some(Purpose::Call(request.service)),
        Order::Enter(line) | Order::Serve(line) => Some(Purpose::Handler(*line)),
        _ => None,
    }
}

/// What the frames under way were begun for, the topmost first.
#[derive(Drop)]
pub(crate) struct Frames {
    purposes: Vec<Purpose>,
}

impl Model for Frames {
    ghost use Rattle.std.specs.Prelude.{List, reverse};
    ghost use Rattle.bench_report.specs.declared.frames.Purpose.{Purpose};

    ghost Value = { List Purpose };

    ghost view = { λ f. reverse f.purposes.items };
}

impl Frames {
    /// No frames.
    pub(crate) fn new(alloc: Global) -> Frames
        ensures { result ≡ [] }
    {
        Frames {
            purposes: Vec::new(alloc),
        }
    }

    /// One more frame, where the purpose is known.
    pub(crate) fn begin(&mut self, purpose: Option<Purpose>) -> Result<(), AllocError>
        ensures { OnOk result (self.new ≡ option_to_list purpose ++ self.old) }
    {
        if let Some(purpose) = purpose {
            self.purposes.push(purpose)?;
        }
        Ok(())
    }

    /// Takes the topmost frame off.
    pub(crate) fn end(&mut self) -> Option<Purpose>
        ensures top { result ≡ slice_get self.old 0 }
        ensures rest { self.new ≡ drop 1 self.old }
    {
        self.purposes.pop()
    }

    /// Takes all frames off.
    pub(crate) fn clear(&mut self)
        ensures { self.new ≡ [] }
    {
        self.purposes.clear();
    }
}
