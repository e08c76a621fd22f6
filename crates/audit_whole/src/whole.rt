ghost use Rattle.std.specs.Prelude.{◌≡◌, ◌<◌, ◌||◌, ℕ, Bool, IfOk, List, Some, false, map, string_bytes, true};
ghost use Rattle.std.specs.Bool.{OnTrue};
ghost use Rattle.bench_report.specs.Shown.{rows_text};
ghost use Rattle.bench_report.specs.Showing.{Showing};
ghost use Rattle.chip_model.specs.Chip.{Chip, chip_after, happened};
ghost use Rattle.mcal_base.specs.declared.directive.Order.{Order};
ghost use Rattle.mcal_base.specs.declared.directive.Order.TheVariants.{Tick};
ghost use Rattle.mcal_base.specs.declared.directive.Request.{Request};
ghost use Rattle.mcal_base.specs.declared.moves.Event.{Event};
ghost use Rattle.mcal_base.specs.declared.moves.Move.{Move};
ghost use Rattle.mcal_base.specs.declared.moves.Unit.{Unit};
ghost use Rattle.mcal_base.specs.declared.service.Service.{Service};
ghost use Rattle.mcal_base.specs.declared.moves.Move.TheVariants.{Read};
ghost use Rattle.mcal_base.specs.declared.register.Reg.TheVariants.{SerialWait};
ghost use Rattle.run_model.specs.Frame as frame;
ghost use Rattle.run_model.specs.Machine.{Moves};
ghost use Rattle.run_model.specs.World.{World, world_after};
ghost use Rattle.audit_base.specs.Outside.{IsWorld};
ghost use Rattle.audit_frames.specs.Decides.{Decides};
ghost use Rattle.audit_subject.specs.Origins.{origin_of};
ghost use Rattle.audit_whole.specs.Touching as touching;
ghost use Rattle.audit_whole.specs.Whole.{is_serial_line};
ghost use Rattle.audit_whole.specs.declared.aspects.Aspect.{Aspect};
ghost use Rattle.audit_whole.specs.declared.aspects.Aspect.TheVariants.{Arrays, Outputs, Pins, Ram, Results, Stamps};

use crate::aspects::Aspect;
use audit_base::Outside;
use audit_subject::{Origin, Subject};
use chip_model::Bus;
use mcal_base::{Notice, Request, Shown};
use std::alloc::{AllocError, Global};

/// The modules of a bench, with what a checker of its reports asks of all of them together.
pub trait Whole: Subject + Drop {
    /// What they are configured by.
    type Configuration;

    /// What they keep of it.
    ghost table_of: { Self.Configuration → Self.Table };

    /// It is within the limits of a configuration.
    ghost within: { Self → Type 0 };

    /// A configuration is one that a bench runs with.
    ghost valid: { Self.Configuration → Type 0 };

    /// The services that they have, and the call that a request asks for.
    ghost has_service: { Service → Bool };

    ghost call_of: { Request → Self.Call };

    /// What their states show.
    ghost showing: { Self.Configuration → Showing Self.State };

    /// What chip and machines agree in, part by part.
    ghost agrees: { Aspect → Self.Table → Chip → World → Self.State → Type 0 };

    /// The call that a request asks for.
    fn call(&self, request: &Request) -> Self::Call
        requires { has_service request.now.service ≡ true }
        ensures { result ≡ call_of request.now };

    /// Whether those outputs and user arrays are theirs that are so wherever the mask is open, over frames that were begun for
    /// these, the newest first.
    fn agrees_open(&self, outside: &Outside, bus: &Bus, origins: &[Origin<Self::Call>]) -> bool
        ensures { (w : World) (s : Self.State) → Self.fits self.now outside.now → IsWorld outside.now w → Self.stands self.now s →
            Decides result ((Self.setting (Self.table self.now)).unmasked bus.now w s (map origin_of origins.now)) };

    /// Whether pins, RAM and user arrays are theirs, with no frame under way.
    fn agrees_at_rest(&self, outside: &Outside, bus: &Bus) -> bool
        requires { within self.now }
        ensures { (w : World) (s : Self.State) → Self.fits self.now outside.now → IsWorld outside.now w → Self.stands self.now s →
            Decides result ((Self.setting (Self.table self.now)).rest bus.now w s) };

    /// Whether chip and machines were seen to agree in one aspect.
    fn agrees_in(&self, aspect: Aspect, outside: &Outside, bus: &Bus) -> bool
        requires { within self.now }
        ensures { (w : World) (s : Self.State) → Self.fits self.now outside.now → IsWorld outside.now w → Self.stands self.now s →
            OnTrue result (agrees aspect (Self.table self.now) bus.now w s) };

    /// Whether the user arrays of the object that a notice names are theirs, at a notice of a frame that was begun for this.
    fn agrees_at(&self, bus: &Bus, origin: &Origin<Self::Call>, notice: Notice) -> bool
        requires { within self.now }
        ensures { (s : Self.State) → Self.stands self.now s →
            Decides result ((Self.setting (Self.table self.now)).shows (origin_of origin.now) notice bus.now s) };

    /// The lines that a show prints at a script line.
    fn shown(
        &self,
        alloc: Global,
        configuration: &Self::Configuration,
        outside: &Outside,
        line: u32,
        what: Shown,
    ) -> Result<String, AllocError>
        requires table { Self.table self.now ≡ table_of configuration.now }
        requires valid { valid configuration.now }
        ensures { (w : World) (s : Self.State) → IsWorld outside.now w → Self.stands self.now s →
            IfOk result (λ text. string_bytes text ≡ rows_text line (showing configuration.now w s what)) };

    /// With the same kept of it, it stays within its limits.
    ghost stays: { (m n : Self) → Self.table n ≡ Self.table m → within m → within n };

    /// A line that is due, and one that a configured object uses, is one of the 32 of a chip.
    ghost due_bounded: { (m : Self) (w : World) (s : Self.State) (l : ℕ) → Self.stands m s → (Self.member (Self.table m)).machine.due w s l ≡ true → l < 32 };

    ghost used_lines: { (m : Self) (l : ℕ) → (Self.member (Self.table m)).lines l ≡ true → l < 32 };

    /// A line that is due is one that a configured object uses, or a serial unit's.
    ghost asked_lines: { (m : Self) (w : World) (s : Self.State) (l : ℕ) → Self.stands m s → (Self.member (Self.table m)).machine.due w s l ≡ true → ((Self.member (Self.table m)).lines l || is_serial_line l) ≡ true };

    /// Units that may neither start nor abort stay so through ticks.
    ghost ticked: { (t : Self.Table) (w : World) (s : Self.State) (n : ℕ) (u : Unit) → (Self.setting t).machine.startable w s u ≡ false →
        (Self.setting t).machine.startable (world_after w ((Self.setting t).machine.rate s) (Tick n)) (frame.state_by s ((Self.setting t).machine.happens w s (Moves (Tick n)))) u ≡ false };

    /// A frame waits for a serial unit that is there.
    ghost waits: { (t : Self.Table) (origin : frame.Origin Self.Call) (unit : ℕ) → (Self.setting t).may origin (Read (SerialWait unit)) ≡ true → unit < 2 };

    /// The call that a request asks for is one of the service that it names.
    ghost serves: { (t : Self.Table) (r : Request) → has_service r.service ≡ true → (Self.member t).machine.service_of (call_of r) ≡ r.service };

    /// A channel that has a source array is one of 16.
    ghost filled: { (m : Self) (c : ℕ) → within m → (Self.setting (Self.table m)).fills c ≡ true → c < 16 };

    /// With three aspects that is so which has to be wherever the mask is open, whatever frames are under way; with five that which
    /// has to be with none.
    ghost opens: { (t : Self.Table) (chip : Chip) (w : World) (s : Self.State) (xs : List (frame.Origin Self.Call)) → agrees Outputs t chip w s → agrees Pins t chip w s → agrees Arrays t chip w s → (Self.setting t).unmasked chip w s xs };

    ghost rests: { (t : Self.Table) (chip : Chip) (w : World) (s : Self.State) → agrees Ram t chip w s → agrees Pins t chip w s → agrees Stamps t chip w s → agrees Results t chip w s → agrees Arrays t chip w s → (Self.setting t).rest chip w s };

    /// A move, an event and the hardware leave each aspect that they don't touch.
    ghost kept_by_move: { (a : Aspect) (t : Self.Table) (chip : Chip) (w : World) (s : Self.State) (made : Move) (received : ℕ) → touching.is_touched a (touching.by_move made) ≡ false → agrees a t chip w s → agrees a t (chip_after chip made received) w s };

    ghost kept_by_event: { (a : Aspect) (t : Self.Table) (chip : Chip) (w : World) (s : Self.State) (o : frame.Open Self.Call) (made : Move) (received : ℕ) (e : Event) → touching.is_touched a (touching.by_event (Self.setting t) o.origin e) ≡ false → agrees a t chip w s →
        agrees a t chip w (frame.state_after (Self.setting t).machine w s o made received (Some e)) };

    ghost kept_by_order: { (a : Aspect) (t : Self.Table) (chip : Chip) (w : World) (s : Self.State) (order : Order) → touching.is_touched a (touching.by_order order) ≡ false → agrees a t chip w s →
        agrees a t (happened chip order) (world_after w ((Self.setting t).machine.rate s) order) (frame.state_by s ((Self.setting t).machine.happens w s (Moves order))) };
}
