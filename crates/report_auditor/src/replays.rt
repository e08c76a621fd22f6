ghost use Rattle.std.specs.Prelude.{◌≡◌, ◌∷◌, List};
ghost use Rattle.chip_model.specs.Chip.{value_of};
ghost use Rattle.mcal_base.specs.Reach.{CanApply};
ghost use Rattle.run_model.specs.Frame as frame;
ghost use Rattle.report_auditor.specs.Auditing.{Replayed, StillSeen};
ghost use Rattle.report_auditor.specs.Seeing as spec;
ghost use Rattle.audit_whole.specs.Touching.{by_event};

use crate::auditor::Auditor;
use crate::seen::by_event;
use audit_whole::{Touched, Whole};
use mcal_base::{Event, Move};

impl<P: Whole> Auditor<P> {
    /// What an event of the newest frame touches.
    fn touched_by(&self, event: Event) -> Touched
        ensures { (x : frame.Origin P.Call) (xs : List (frame.Origin P.Call)) → self.now.origins ≡ x ∷ xs → result ≡ by_event (P.setting (P.table self.now.parts)) x event }
    {
        match self.origins.as_slice().first() {
            Some(origin) => by_event(&self.parts, origin, event),
            None => Touched::Nothing,
        }
    }

    /// What an event of the newest frame touches, where one stands at a move.
    fn touched_if_told(&self, event: Option<Event>) -> Option<Touched>
        ensures { (x : frame.Origin P.Call) (xs : List (frame.Origin P.Call)) → self.now.origins ≡ x ∷ xs → result ≡ spec.touched_if_told (P.setting (P.table self.now.parts)) x event }
    {
        match event {
            Some(event) => Some(self.touched_by(event)),
            None => None,
        }
    }

    /// The chip makes a move of the newest frame, at which an event may stand that the machines were told. Answers what it
    /// gives. What was seen and isn't touched stays known.
    pub fn replays(&mut self, made: &Move, event: Option<Event>, received: u32) -> u32
        requires there { CanApply made.now }
        ensures value { result ≡ value_of self.old.chip made.now }
        ensures moved { Replayed self.old self.new made.now received }
        ensures seen { (t : P.Table) → P.table self.old.parts ≡ t → StillSeen P.agrees P.setting t self.old self.new made.now received event }
    {
        let told = self.touched_if_told(event);
        self.seen.steps(made, told);
        self.bus.replay(made, received)
    }
}
