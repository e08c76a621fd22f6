//! What the pins' machine tells and shows in small runs, and which of its calls may begin over which.

ghost use Rattle.std.specs.Prelude.{◌≡◌, true, false, [], ◌∷◌, Some, None};
ghost use Rattle.irq_control.specs.declared.held.Held.TheVariants.{Reentry};
ghost use Rattle.mcal_base.specs.declared.config.port.PortPinDirection.TheVariants.{In};
ghost use Rattle.mcal_base.specs.declared.error_name.ErrorName.TheVariants.{PortUninit, PortParamPin, PortDirectionUnchangeable, PortParamInvalidMode, PortModeUnchangeable};
ghost use Rattle.run_model.specs.Causes.{call_cause};
ghost use Rattle.module_machines.specs.port.Classes.{class_of};
ghost use Rattle.module_machines.specs.declared.port.call.Call.TheVariants.{Init, RefreshPortDirection, Pin};
ghost use Rattle.module_machines.specs.declared.port.call.PinCall.TheVariants.{SetPinDirection, SetPinMode};
ghost use Rattle.worked_examples.specs.Told.{silence, refused};
ghost use Rattle.worked_examples.specs.PortRuns.{pin_board, told_on, levels, tag_of, direction_run, mode_run, refused_run};

/// Before `Port_Init` a pin is in and shows the outside level, and after it its configured level. As an input it shows
/// the outside level again, which a refresh leaves as it may change. As an output it shows its configured level, and
/// so it does after a second `Port_Init`; a reset makes it an input.
pub fn direction_of_a_pin()
    ensures { levels pin_board direction_run 3 None
        ≡ true ∷ false ∷ true ∷ false ∷ false ∷ true ∷ false ∷ true ∷ false ∷ true ∷ false ∷ [] }
{}

/// A pin that is out shows the output of the pulse channel that names it in the mode of the pulse outputs alone, and
/// its configured level in another mode, or where no channel names it.
pub fn mode_of_a_pin()
    ensures low { levels pin_board mode_run 40 (Some false) ≡ false ∷ true ∷ false ∷ [] }
    ensures high { levels pin_board mode_run 40 (Some true) ≡ true ∷ true ∷ true ∷ [] }
    ensures unnamed { levels pin_board mode_run 40 None ≡ true ∷ true ∷ true ∷ [] }
{}

/// Of the errors of a service the first that holds is found: the module is uninitialised, the pin isn't configured, the
/// direction may not change, the mode is none of the pin's, the mode may not change.
pub fn calls_that_are_refused()
    ensures { told_on pin_board refused_run
        ≡ refused PortUninit ∷ refused PortUninit ∷ refused PortUninit ∷ silence
        ∷ refused PortParamPin ∷ refused PortDirectionUnchangeable ∷ refused PortParamPin
        ∷ refused PortParamInvalidMode ∷ refused PortParamInvalidMode ∷ refused PortModeUnchangeable ∷ [] }
{}

/// Over a call about a pin none about the same pin begins and one about another pin does; a call about all pins begins
/// over none of the module, and none begins over it.
pub fn calls_over_calls()
    ensures same { call_cause false (tag_of (Pin 3 (SetPinDirection In)) ∷ []) false (class_of (Pin 3 (SetPinMode None))) 1 ≡ Some Reentry }
    ensures other { call_cause false (tag_of (Pin 3 (SetPinDirection In)) ∷ []) false (class_of (Pin 40 (SetPinMode None))) 1 ≡ None }
    ensures all { call_cause false (tag_of (Pin 3 (SetPinDirection In)) ∷ []) false (class_of RefreshPortDirection) 1 ≡ Some Reentry }
    ensures init { call_cause false (tag_of Init ∷ []) false (class_of (Pin 3 (SetPinDirection In))) 1 ≡ Some Reentry }
{}
