//! What holds of the machine of the pins, whatever the configuration and the state.

ghost use Rattle.std.specs.Prelude.{◌≡◌, ◌≢◌, ◌↔◌, ◌%◌, ℕ, true, false, not, Bool, List, [], Option, Some, None, IsSome};
ghost use Rattle.std.specs.List.{Contains};
ghost use Rattle.mcal_base.specs.Bits.{has_bit};
ghost use Rattle.mcal_base.specs.declared.config.port.PortPin.{PortPin};
ghost use Rattle.mcal_base.specs.declared.config.port.PortPinDirection.{PortPinDirection};
ghost use Rattle.mcal_base.specs.declared.config.port.PortPinDirection.TheVariants.{In, Out};
ghost use Rattle.mcal_base.specs.declared.config.port.PortPinMode.{PortPinMode};
ghost use Rattle.mcal_base.specs.declared.config.port.PortPinMode.TheVariants.{Pwm};
ghost use Rattle.mcal_base.specs.declared.directive.Reason.{Reason};
ghost use Rattle.mcal_base.specs.declared.error_name.ErrorName.TheVariants.{PortUninit, PortDirectionUnchangeable, PortModeUnchangeable};
ghost use Rattle.run_model.specs.World.{World};
ghost use Rattle.run_model.specs.Machine.{Happening, Acts, Restarts, Outcome, ErrorLeaves, outcome, tells_nothing, no_answer};
ghost use Rattle.module_machines.specs.port.Checks.{has_mode};
ghost use Rattle.module_machines.specs.port.Machine.{PortState, Put, Inverted, first_state, names_pin, pin_at, with_change, level_at, port_machine};
ghost use Rattle.module_machines.specs.port.Runs.{Occurrence, state_after, after_all, leaves_latches, is_init};
ghost use Rattle.module_machines.specs.port.Table.{pin_of, taken, is_among, FitsPort};
ghost use Rattle.module_machines.specs.declared.port.call.Call.{Call};
ghost use Rattle.module_machines.specs.declared.port.call.Call.TheVariants.{Init, RefreshPortDirection};
ghost use Rattle.module_machines.specs.declared.port.call.Call.TheVariants as calls;
ghost use Rattle.module_machines.specs.declared.port.call.PinCall.{PinCall};
ghost use Rattle.module_machines.specs.declared.port.call.PinCall.TheVariants.{SetPinDirection, SetPinMode};
ghost use Rattle.module_machines.specs.declared.port.table.Pin.{Pin};
ghost use Rattle.module_machines.specs.declared.port.table.PortTable.{PortTable};

/// A call may always act. One that finds an error leaves the module as it was and gives no notice.
pub fn acts_of_calls()
    ensures allowed { (d : PortTable) (w : World) (s : PortState) (call : Call) (times : ℕ → ℕ)
        → IsSome ((port_machine d).happens w s (Acts call times)) }
    ensures error { (d : PortTable) (w : World) (s : PortState) (call : Call) (times : ℕ → ℕ) (out : Outcome PortState)
        → (port_machine d).happens w s (Acts call times) ≡ Some out → ErrorLeaves s out }
{}

/// A reset is always allowed, and leaves the module as at power on: uninitialised, with all pins in and their latches
/// low.
pub fn reset_at_any_time()
    ensures reset { (d : PortTable) (w : World) (s : PortState) (reason : Reason)
        → (port_machine d).happens w s (Restarts reason) ≡ Some (outcome first_state tells_nothing) }
    ensures uninitialised { first_state.initialised ≡ false }
    ensures directions { (p : ℕ) → (pin_at first_state p).direction ≡ In }
    ensures latches { (p : ℕ) → (pin_at first_state p).latch ≡ false }
{}

/// No line of the module is ready or due, whether it is initialised or not.
pub fn no_line_is_ready()
    ensures ready { (d : PortTable) (w : World) (s : PortState) (line : ℕ) → (port_machine d).ready w s line ≡ false }
    ensures due { (d : PortTable) (w : World) (s : PortState) (line : ℕ) → (port_machine d).due w s line ≡ false }
{}

/// `Port_Init`, the second one too, sets direction, mode and latch of each configured pin, changes nothing of another
/// one, and is never refused.
pub fn init_sets_configured_pins()
    ensures configured { (d : PortTable) (w : World) (s : PortState) (p : ℕ) (k : Pin) (times : ℕ → ℕ)
        → pin_of d p ≡ Some k
        → pin_at (state_after d w s (Acts Init times)) p
        ≡ record { direction = k.direction; mode = k.initial_mode; latch = k.level_high } }
    ensures others { (d : PortTable) (w : World) (s : PortState) (p : ℕ) (times : ℕ → ℕ)
        → pin_of d p ≡ None → pin_at (state_after d w s (Acts Init times)) p ≡ pin_at s p }
    ensures initialised { (d : PortTable) (w : World) (s : PortState) (times : ℕ → ℕ)
        → (state_after d w s (Acts Init times)).initialised ≡ true }
{}

/// A refresh gives each pin whose direction isn't changeable its configured direction, and leaves the others.
pub fn refresh_restores_directions()
    ensures fixed { (d : PortTable) (w : World) (s : PortState) (p : ℕ) (k : Pin) (times : ℕ → ℕ)
        → s.initialised ≡ true → pin_of d p ≡ Some k → k.direction_changeable ≡ false
        → pin_at (state_after d w s (Acts RefreshPortDirection times)) p ≡ record (pin_at s p) { direction = k.direction } }
    ensures changeable { (d : PortTable) (w : World) (s : PortState) (p : ℕ) (k : Pin) (times : ℕ → ℕ)
        → pin_of d p ≡ Some k → k.direction_changeable ≡ true
        → pin_at (state_after d w s (Acts RefreshPortDirection times)) p ≡ pin_at s p }
    ensures others { (d : PortTable) (w : World) (s : PortState) (p : ℕ) (times : ℕ → ℕ)
        → pin_of d p ≡ None → pin_at (state_after d w s (Acts RefreshPortDirection times)) p ≡ pin_at s p }
{}

/// A direction or a mode that may not change is refused, and nothing changes.
pub fn refused_changes()
    ensures direction { (d : PortTable) (w : World) (s : PortState) (p : ℕ) (k : Pin) (asked : PortPinDirection) (times : ℕ → ℕ)
        → s.initialised ≡ true → pin_of d p ≡ Some k → k.direction_changeable ≡ false
        → (port_machine d).happens w s (Acts (calls.Pin p (SetPinDirection asked)) times)
        ≡ Some (outcome s (record { answer = no_answer; error = Some PortDirectionUnchangeable; notices = [] })) }
    ensures mode { (d : PortTable) (w : World) (s : PortState) (p : ℕ) (k : Pin) (asked : Option PortPinMode) (times : ℕ → ℕ)
        → s.initialised ≡ true → pin_of d p ≡ Some k → has_mode (Some k) asked ≡ true → k.mode_changeable ≡ false
        → (port_machine d).happens w s (Acts (calls.Pin p (SetPinMode asked)) times)
        ≡ Some (outcome s (record { answer = no_answer; error = Some PortModeUnchangeable; notices = [] })) }
{}

/// A direction that may change is changed, and nothing of another pin.
pub fn direction_of_a_pin()
    ensures itself { (d : PortTable) (w : World) (s : PortState) (p : ℕ) (k : Pin) (asked : PortPinDirection) (times : ℕ → ℕ)
        → s.initialised ≡ true → pin_of d p ≡ Some k → k.direction_changeable ≡ true
        → pin_at (state_after d w s (Acts (calls.Pin p (SetPinDirection asked)) times)) p ≡ record (pin_at s p) { direction = asked } }
    ensures others { (d : PortTable) (w : World) (s : PortState) (p q : ℕ) (call : PinCall) (times : ℕ → ℕ)
        → q ≢ p → pin_at (state_after d w s (Acts (calls.Pin p call) times)) q ≡ pin_at s q }
{}

/// A mode that may change becomes the one that is asked for, where the pin may have it.
pub fn mode_of_a_pin()
    ensures { (d : PortTable) (w : World) (s : PortState) (p : ℕ) (k : Pin) (asked : PortPinMode) (times : ℕ → ℕ)
        → s.initialised ≡ true → pin_of d p ≡ Some k → k.mode_changeable ≡ true → is_among k.modes asked ≡ true
        → pin_at (state_after d w s (Acts (calls.Pin p (SetPinMode (Some asked))) times)) p ≡ record (pin_at s p) { mode = asked } }
{}

/// The modes that a pin may have are those that its configuration lists.
pub fn modes_of_a_pin()
    ensures { (x : PortPin) (m : PortPinMode) → (is_among (taken x).modes m ≡ true) ↔ Contains x.modes m }
{}

/// Of all calls `Port_Init` alone changes a latch, and beside it only a reset does.
pub fn latches_change_at_init()
    ensures { (d : PortTable) (w : World) (s : PortState) (h : Happening Call) (p : ℕ)
        → leaves_latches h ≡ true → (pin_at (state_after d w s h) p).latch ≡ (pin_at s p).latch }
{}

/// A word that is put to a port makes the latch of each of its pins that is out and whose bit of the mask is one its bit
/// of the levels, and changes nothing else of any pin. A latch that is inverted becomes the other level where its pin is
/// out, and nothing else of any pin changes.
pub fn latches_that_a_guest_changes()
    ensures put { (s : PortState) (q word p : ℕ) → names_pin q word p ≡ true → (pin_at s p).direction ≡ Out
        → pin_at (with_change s (Put q word)) p ≡ record (pin_at s p) { latch = has_bit word (p % 8) } }
    ensures put_inward { (s : PortState) (q word p : ℕ) → (pin_at s p).direction ≡ In
        → pin_at (with_change s (Put q word)) p ≡ pin_at s p }
    ensures put_elsewhere { (s : PortState) (q word p : ℕ) → names_pin q word p ≡ false
        → pin_at (with_change s (Put q word)) p ≡ pin_at s p }
    ensures inverted { (s : PortState) (p : ℕ) → (pin_at s p).direction ≡ Out
        → pin_at (with_change s (Inverted p)) p ≡ record (pin_at s p) { latch = not (pin_at s p).latch } }
    ensures inverted_inward { (s : PortState) (q p : ℕ) → (pin_at s p).direction ≡ In
        → pin_at (with_change s (Inverted q)) p ≡ pin_at s p }
    ensures inverted_elsewhere { (s : PortState) (q p : ℕ) → q ≢ p → pin_at (with_change s (Inverted q)) p ≡ pin_at s p }
{}

/// A pin that is in has the outside level. One that is out has the output of the pulse channel that names it, where its
/// mode is that of the pulse outputs, and else its latch.
pub fn levels_of_pins()
    ensures inward { (w : World) (s : PortState) (p : ℕ) (pulse : Option Bool)
        → (pin_at s p).direction ≡ In → level_at w s p pulse ≡ w.levels p }
    ensures pulsed { (w : World) (s : PortState) (p : ℕ) (output : Bool)
        → (pin_at s p).direction ≡ Out → (pin_at s p).mode ≡ Pwm → level_at w s p (Some output) ≡ output }
    ensures unnamed { (w : World) (s : PortState) (p : ℕ)
        → (pin_at s p).direction ≡ Out → level_at w s p None ≡ (pin_at s p).latch }
    ensures latched { (w : World) (s : PortState) (p : ℕ) (output : Bool)
        → (pin_at s p).direction ≡ Out → (pin_at s p).mode ≢ Pwm → level_at w s p (Some output) ≡ (pin_at s p).latch }
{}

/// Before the module is initialised each call but `Port_Init` is refused for that.
pub fn refused_while_uninitialised()
    ensures { (d : PortTable) (w : World) (s : PortState) (call : Call) (times : ℕ → ℕ)
        → s.initialised ≡ false → is_init call ≡ false
        → (port_machine d).happens w s (Acts call times)
        ≡ Some (outcome s (record { answer = no_answer; error = Some PortUninit; notices = [] })) }
{}

/// Where the configuration is as it has to be, each configured pin of an initialised module has, at any time, its
/// configured direction and its initial mode where these may not change, and always one of its modes.
pub fn configured_pins_in_every_run()
    ensures direction { (d : PortTable) (xs : List Occurrence) (p : ℕ) (k : Pin)
        → FitsPort d → (after_all d first_state xs).initialised ≡ true → pin_of d p ≡ Some k
        → k.direction_changeable ≡ false → (pin_at (after_all d first_state xs) p).direction ≡ k.direction }
    ensures mode { (d : PortTable) (xs : List Occurrence) (p : ℕ) (k : Pin)
        → FitsPort d → (after_all d first_state xs).initialised ≡ true → pin_of d p ≡ Some k
        → k.mode_changeable ≡ false → (pin_at (after_all d first_state xs) p).mode ≡ k.initial_mode }
    ensures among { (d : PortTable) (xs : List Occurrence) (p : ℕ) (k : Pin)
        → FitsPort d → (after_all d first_state xs).initialised ≡ true → pin_of d p ≡ Some k
        → is_among k.modes (pin_at (after_all d first_state xs) p).mode ≡ true }
{}
