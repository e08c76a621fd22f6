ghost use Rattle.std.specs.Prelude.{◌≡◌, ◌<◌, ℕ, true, nat_lt, length, option_map, None, is_some};
ghost use Rattle.mcal_base.specs.Bits.{has_bit};
ghost use Rattle.run_model.specs.Frame.{Origin, Called, Entered};
ghost use Rattle.run_model.specs.Legal.{has_line};
ghost use Rattle.run_model.specs.Machine.{Starts};
ghost use Rattle.run_model.specs.Moment.{Setting};
ghost use Rattle.run_model.specs.World.{World};
ghost use Rattle.audit_base.specs.Outside.{IsWorld};
ghost use Rattle.audit_frames.specs.StandsFor.{halves_of, kind_at};
ghost use Rattle.audit_frames.specs.Told.{is_of_kind};
ghost use Rattle.audit_subject.specs.Product.{member_of};

use audit_base::{Outside, Part};
use audit_frames::Counter;
use mcal_base::{ModuleName, Move, Unit};
use run_model::Class;

/// A module as a checker asks it: its machine, and what the frames of its calls and lines are judged by.
pub trait Subject: Part {
    /// What a run of the module is over.
    ghost setting: { Self.Table → Setting Self.State Self.Call };

    /// The class of a call.
    fn class(&self, call: &Self::Call) -> Class
        ensures { result ≡ (setting (Self.table self.now)).class_of call.now };

    /// The level of a line.
    fn level(&self, line: u32) -> u32
        ensures { result ≡ (setting (Self.table self.now)).level_of line };

    /// The module of a line's handler.
    fn owner(&self, line: u32) -> ModuleName
        ensures { result ≡ (setting (Self.table self.now)).owner_of line };

    /// The most steps of a call's frame.
    fn call_steps(&self, call: &Self::Call) -> u32
        ensures { result ≡ (setting (Self.table self.now)).steps_of (Called call.now) };

    /// The most steps of the frame of a line's handler.
    fn line_steps(&self, line: u32) -> u32
        ensures { result ≡ (setting (Self.table self.now)).steps_of (Entered line) };

    /// The counter that a call reads in halves, where it reads one.
    fn counter(&self, call: &Self::Call) -> Option<Counter>
        ensures { (setting (Self.table self.now)).halves call.now ≡ option_map halves_of result };

    /// The lines that a call may poll, as a mask.
    fn polled(&self, call: &Self::Call) -> u64
        ensures { (w : World) (s : Self.State) (l : ℕ) → has_line ((Self.member (Self.table self.now)).machine.polls w s call.now) l ≡ true → has_bit result l ≡ true };

    /// A bit for each kind of write that a call owes where it finds no error.
    fn duties(&self, call: &Self::Call) -> u64
        ensures { (i : ℕ) → has_bit result i ≡ nat_lt i (length ((setting (Self.table self.now)).must call.now)) };

    /// The kinds of these that a move is of.
    fn settles(&self, call: &Self::Call, made: &Move) -> u64
        ensures { (i : ℕ) → i < length ((setting (Self.table self.now)).must call.now) → has_bit result i ≡ is_of_kind (kind_at ((setting (Self.table self.now)).must call.now) i) made.now };

    /// Whether a call's frame may make a move of its module's own.
    fn call_may(&self, call: &Self::Call, made: &Move) -> bool
        ensures { result ≡ (setting (Self.table self.now)).may (Called call.now) made.now };

    /// Whether the frame of a line's handler may.
    fn line_may(&self, line: u32, made: &Move) -> bool
        ensures { result ≡ (setting (Self.table self.now)).may (Entered line) made.now };

    /// Whether a unit may start for no call, whatever word comes in.
    fn starts_uncalled(&self, outside: &Outside, unit: Unit) -> bool
        ensures { (w : World) (s : Self.State) (received : ℕ) → Self.fits self.now outside.now → IsWorld outside.now w → Self.stands self.now s → result ≡ is_some ((Self.member (Self.table self.now)).machine.happens w s (Starts unit None received)) };

    /// Whether there is a source array of this channel.
    fn fills(&self, channel: u32) -> bool
        ensures { result ≡ (setting (Self.table self.now)).fills channel };

    /// Whether the machine has it in use.
    fn in_use(&self, channel: u32) -> bool
        ensures { (w : World) (s : Self.State) → Self.stands self.now s → result ≡ (setting (Self.table self.now)).in_use w s channel };

    /// The machine of the run is its machine, and the lines that are used are those of its configured objects.
    ghost member_is: { (t : Self.Table) → member_of (setting t) ≡ Self.member t };

    /// A window has at most 32 moves.
    ghost windows: { (t : Self.Table) (o : Origin Self.Call) → (setting t).window_of o ≡ 32 };
}
