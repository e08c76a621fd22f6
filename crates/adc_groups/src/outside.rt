ghost use Rattle.std.specs.Prelude.{◌≡◌};
ghost use Rattle.adc_groups.specs.laws.services.BodySteps as spec;

use crate::body::Place;
use crate::service::entered;
use crate::service::read::reading;
use crate::window::Window;
use crate::words::{STATE, rounds_of};
use adc_machine::AdcTable;
use mcal_base::{Move, Notice, NoticeKind, Reg};
use word_shapes::streams::{Bank, Copying, limited};

/// A round that is taken from a unit.
#[derive(Clone, Copy)]
pub struct Taken {
    /// The unit.
    pub unit: u8,
    /// The group whose round it is.
    pub group: u8,
    /// The bank that the round is put into.
    pub bank: Bank,
}

/// An aborted round that is suspended.
#[derive(Clone, Copy)]
pub struct Suspended {
    /// The unit.
    pub unit: u8,
    /// The group whose round it is.
    pub group: u8,
    /// How many values are kept.
    pub kept: u8,
}

/// What comes after values were copied.
#[derive(Clone, Copy)]
pub enum Copied {
    /// They are in their bank: the round is served.
    Serves(Taken),
    /// They are in the user's buffer: the group's notification, where it is on.
    Tells(u8, u8, bool),
    /// They are kept.
    Keeps(Suspended),
}

/// What a frame does while the mask is open.
#[derive(Clone, Copy)]
pub enum Outside {
    /// It copies values.
    Copies(Copying, Copied),
    /// It reads how many inputs of an aborted round have ended.
    Counts(Suspended),
    /// It begins to read the newest round of a group, from this bank.
    Reads(u8, Bank),
    /// It gives the notification of a group, of this unit.
    Notes(u8, u8),
    /// It closes the mask for a window.
    Closes(Window),
}

impl Outside {
    /// Its next move.
    pub fn next(&self) -> Move
        ensures { result ≡ spec.outside_move self.now }
    {
        match self {
            Outside::Copies(copying, _) => copying.next(),
            Outside::Counts(round) => Move::Read(Reg::ConverterDone(u32::from(round.unit))),
            Outside::Notes(group, _) => Move::Note(Notice {
                kind: NoticeKind::AdcNotification,
                id: u32::from(*group),
            }),
            Outside::Reads(..) => Move::Load(STATE),
            Outside::Closes(_) => Move::Mask,
        }
    }

    /// Where the frame goes on after the move, which gave this.
    pub fn after(self, table: &AdcTable, value: u32) -> Place
        ensures { result ≡ spec.outside_left table.now self value }
    {
        match self {
            Outside::Copies(copying, copied) => match copying.after(value) {
                Some(next) => Place::Out(Outside::Copies(next, copied)),
                None => Place::Out(copied.follows()),
            },
            Outside::Counts(round) => Place::Out(keeps(table, round, value)),
            Outside::Reads(group, bank) => Place::Reads(reading(table, group, bank)),
            Outside::Notes(_, unit) => Place::Out(Outside::Closes(Window::Begin(unit))),
            Outside::Closes(window) => entered(window),
        }
    }
}

impl Copied {
    /// What comes after the values were copied.
    pub fn follows(self) -> Outside
        ensures { result ≡ spec.after_copies self }
    {
        match self {
            Copied::Serves(taken) => Outside::Closes(Window::Serve(taken)),
            Copied::Tells(unit, group, true) => Outside::Notes(group, unit),
            Copied::Tells(unit, _, false) => Outside::Closes(Window::Begin(unit)),
            Copied::Keeps(round) => Outside::Closes(Window::Keep(round)),
        }
    }
}

/// So many inputs of an aborted round have ended: their values are kept after those that were kept before, for all inputs at most.
fn keeps(table: &AdcTable, round: Suspended, ended: u32) -> Outside
    ensures { result ≡ spec.keeps table.now round ended }
{
    let rounds = rounds_of(table, round.group);
    let inputs = table.input_count(round.group);
    let count = limited(ended, inputs - limited(u32::from(round.kept), inputs));
    let what = word_shapes::streams::Copied::Ended(rounds, round.unit, count, round.kept);
    let all = Suspended {
        kept: limited(u32::from(round.kept) + u32::from(count), 32),
        ..round
    };
    match Copying::of(what) {
        Some(copying) => Outside::Copies(copying, Copied::Keeps(all)),
        None => Outside::Closes(Window::Keep(all)),
    }
}
