//! What holds of the machine of clock, RAM and resets, whatever the configuration and the state.

ghost use Rattle.std.specs.Prelude.{◌≡◌, ◌≢◌, ℕ, ◌+◌, ◌<◌, ◌≤◌, true, false, List, [], Some, None, IsSome};
ghost use Rattle.std.specs.List.{list_all};
ghost use Rattle.mcal_base.specs.declared.answer_name.AnswerName.TheVariants.{ENotOk, McuPllLocked, McuPllUnlocked};
ghost use Rattle.mcal_base.specs.declared.directive.Reason.{Reason};
ghost use Rattle.mcal_base.specs.declared.directive.Reason.TheVariants.{PowerOn};
ghost use Rattle.mcal_base.specs.declared.error_name.ErrorName.TheVariants.{McuUninit, McuPllNotLocked};
ghost use Rattle.run_model.specs.World.{World};
ghost use Rattle.run_model.specs.Machine.{Happening, Acts, Restarts, Outcome, ErrorLeaves, outcome, tells_nothing, named};
ghost use Rattle.module_machines.specs.mcu.Checks.{answer_refused};
ghost use Rattle.module_machines.specs.mcu.Machine.{McuState, after_reset, first_state, ram_at, is_locked, reason_name, mcu_machine};
ghost use Rattle.module_machines.specs.mcu.Runs.{Moment, state_after, answer_of, after, after_all, leaves_pll, leaves_clock, is_no_reset, leaves_ram, is_init, is_reset, asks_reset_of};
ghost use Rattle.module_machines.specs.mcu.Table.{multiplier_of, section_of, is_within, FitsMcu};
ghost use Rattle.module_machines.specs.declared.mcu.call.Call.{Call};
ghost use Rattle.module_machines.specs.declared.mcu.call.Call.TheVariants.{Init, InitRamSection, Clock, GetPllStatus, GetResetReason, PerformReset};
ghost use Rattle.module_machines.specs.declared.mcu.call.ClockCall.TheVariants.{InitClock, DistributePllClock};
ghost use Rattle.module_machines.specs.declared.mcu.table.McuTable.{McuTable};
ghost use Rattle.module_machines.specs.declared.mcu.table.Section.{Section};

/// A call may always act. One that finds an error leaves the module as it was and gives no notice.
pub fn acts_of_calls()
    ensures allowed { (d : McuTable) (w : World) (s : McuState) (call : Call) (times : ℕ → ℕ)
        → IsSome ((mcu_machine d).happens w s (Acts call times)) }
    ensures error { (d : McuTable) (w : World) (s : McuState) (call : Call) (times : ℕ → ℕ) (out : Outcome McuState)
        → (mcu_machine d).happens w s (Acts call times) ≡ Some out → ErrorLeaves s out }
{}

/// A reset is always allowed. It leaves the module uninitialised, with the rate 1, the PLL not started and all RAM
/// words 0, and keeps its reason; power on is a reset for that reason.
pub fn reset_at_any_time()
    ensures reset { (d : McuTable) (w : World) (s : McuState) (reason : Reason)
        → (mcu_machine d).happens w s (Restarts reason) ≡ Some (outcome (after_reset reason) tells_nothing) }
    ensures uninitialised { (reason : Reason) → (after_reset reason).initialised ≡ false }
    ensures rate { (reason : Reason) → (after_reset reason).rate ≡ 1 }
    ensures pll { (reason : Reason) → (after_reset reason).pll ≡ None }
    ensures ram { (reason : Reason) (k : ℕ) → ram_at (after_reset reason) k ≡ 0 }
    ensures reason { (reason : Reason) → (after_reset reason).reason ≡ reason }
    ensures power_on { first_state ≡ after_reset PowerOn }
{}

/// No line of the module is ready or due, whether it is initialised or not.
pub fn no_line_is_ready()
    ensures ready { (d : McuTable) (w : World) (s : McuState) (line : ℕ) → (mcu_machine d).ready w s line ≡ false }
    ensures due { (d : McuTable) (w : World) (s : McuState) (line : ℕ) → (mcu_machine d).due w s line ≡ false }
{}

/// A PLL that was started is unlocked up to 99 ticks of the oscillator later, and locked from the hundredth on,
/// whatever happens meanwhile but another start or a reset. An initialised module answers so.
pub fn locked_after_a_hundred_ticks()
    ensures before { (d : McuTable) (m : Moment) (n k : ℕ) (times : ℕ → ℕ) (hs : List (Happening Call))
        → m.state.initialised ≡ true → multiplier_of d n ≡ Some k → list_all leaves_pll hs ≡ true
        → let end = after_all d (after d m (Acts (Clock (InitClock n)) times)) hs in
        end.world.osc < m.world.osc + 100
        → answer_of d end GetPllStatus ≡ Some (named McuPllUnlocked) }
    ensures from { (d : McuTable) (m : Moment) (n k : ℕ) (times : ℕ → ℕ) (hs : List (Happening Call))
        → m.state.initialised ≡ true → multiplier_of d n ≡ Some k → list_all leaves_pll hs ≡ true
        → let end = after_all d (after d m (Acts (Clock (InitClock n)) times)) hs in
        m.world.osc + 100 ≤ end.world.osc
        → answer_of d end GetPllStatus ≡ Some (named McuPllLocked) }
{}

/// The rate is 1 from the start of a PLL on, and from its distribution on it is the multiplier of the setting that
/// the PLL was started with.
pub fn rate_of_the_setting()
    ensures started { (d : McuTable) (w : World) (s : McuState) (n k : ℕ) (times : ℕ → ℕ)
        → s.initialised ≡ true → multiplier_of d n ≡ Some k
        → (mcu_machine d).rate (state_after d w s (Acts (Clock (InitClock n)) times)) ≡ 1 }
    ensures distributed { (d : McuTable) (m : Moment) (n k : ℕ) (times : ℕ → ℕ) (hs : List (Happening Call))
        → m.state.initialised ≡ true → multiplier_of d n ≡ Some k → list_all leaves_pll hs ≡ true
        → let there = after_all d (after d m (Acts (Clock (InitClock n)) times)) hs in
        m.world.osc + 100 ≤ there.world.osc
        → (mcu_machine d).rate (after d there (Acts (Clock DistributePllClock) times)).state ≡ k }
{}

/// Of all calls `Mcu_InitClock` and `Mcu_DistributePllClock` alone change the rate and the PLL, and beside them only a
/// reset does.
pub fn clock_changes_by_its_calls()
    ensures rate { (d : McuTable) (w : World) (s : McuState) (h : Happening Call)
        → leaves_clock h ≡ true → (mcu_machine d).rate (state_after d w s h) ≡ (mcu_machine d).rate s }
    ensures pll { (d : McuTable) (w : World) (s : McuState) (h : Happening Call)
        → leaves_clock h ≡ true → (state_after d w s h).pll ≡ s.pll }
{}

/// Distributing a clock whose PLL isn't locked changes nothing, and answers that it isn't done.
pub fn distributed_before_the_lock()
    ensures { (d : McuTable) (w : World) (s : McuState) (times : ℕ → ℕ)
        → s.initialised ≡ true → is_locked w s.pll ≡ false
        → (mcu_machine d).happens w s (Acts (Clock DistributePllClock) times)
        ≡ Some (outcome s (record { answer = named ENotOk; error = Some McuPllNotLocked; notices = [] })) }
{}

/// A section that is initialised has its default value in each of its words, and every other word, the clock and the
/// reason are as they were.
pub fn section_is_filled()
    ensures inside { (d : McuTable) (w : World) (s : McuState) (n k : ℕ) (x : Section) (times : ℕ → ℕ)
        → s.initialised ≡ true → section_of d n ≡ Some x → x.base ≤ k → k < x.base + x.size
        → ram_at (state_after d w s (Acts (InitRamSection n) times)) k ≡ x.default_value }
    ensures below { (d : McuTable) (w : World) (s : McuState) (n k : ℕ) (x : Section) (times : ℕ → ℕ)
        → section_of d n ≡ Some x → k < x.base
        → ram_at (state_after d w s (Acts (InitRamSection n) times)) k ≡ ram_at s k }
    ensures above { (d : McuTable) (w : World) (s : McuState) (n k : ℕ) (x : Section) (times : ℕ → ℕ)
        → section_of d n ≡ Some x → x.base + x.size ≤ k
        → ram_at (state_after d w s (Acts (InitRamSection n) times)) k ≡ ram_at s k }
    ensures others { (d : McuTable) (w : World) (s : McuState) (n : ℕ) (times : ℕ → ℕ)
        → let t = state_after d w s (Acts (InitRamSection n) times) in
        (t.rate ≡ s.rate) × (t.pll ≡ s.pll) × (t.reason ≡ s.reason) }
{}

/// `Mcu_Init`, the second one too, leaves clock, RAM and reason, and is never refused.
pub fn init_leaves_clock_and_ram()
    ensures { (d : McuTable) (w : World) (s : McuState) (times : ℕ → ℕ)
        → (mcu_machine d).happens w s (Acts Init times)
        ≡ Some (outcome (record s { initialised = true }) tells_nothing) }
{}

/// A call that asks for a reset changes nothing itself, with an error or without.
pub fn asking_for_a_reset_changes_nothing()
    ensures { (d : McuTable) (w : World) (s : McuState) (times : ℕ → ℕ)
        → state_after d w s (Acts PerformReset times) ≡ s }
{}

/// Before the module is initialised each call but `Mcu_Init` is refused for that, with its own answer.
pub fn refused_while_uninitialised()
    ensures { (d : McuTable) (w : World) (s : McuState) (call : Call) (times : ℕ → ℕ)
        → s.initialised ≡ false → is_init call ≡ false
        → (mcu_machine d).happens w s (Acts call times)
        ≡ Some (outcome s (record { answer = answer_refused call; error = Some McuUninit; notices = [] })) }
{}

/// `Mcu_PerformReset` asks for a reset exactly where the module is initialised, and no other call does.
pub fn reset_is_asked_for()
    ensures itself { (d : McuTable) (w : World) (s : McuState) → asks_reset_of d w s PerformReset ≡ s.initialised }
    ensures others { (d : McuTable) (w : World) (s : McuState) (call : Call)
        → is_reset call ≡ false → asks_reset_of d w s call ≡ false }
{}

/// The reason that an initialised module answers is that of the last reset, whatever has happened since.
pub fn reason_of_the_last_reset()
    ensures { (d : McuTable) (m : Moment) (reason : Reason) (hs : List (Happening Call))
        → list_all is_no_reset hs ≡ true
        → let end = after_all d (after d m (Restarts reason)) hs in
        end.state.initialised ≡ true → answer_of d end GetResetReason ≡ Some (named (reason_name reason)) }
{}

/// Of all calls `Mcu_InitRamSection` alone changes a RAM word, and beside it only a reset does.
pub fn ram_changes_by_sections()
    ensures { (d : McuTable) (w : World) (s : McuState) (h : Happening Call) (k : ℕ)
        → leaves_ram h ≡ true → ram_at (state_after d w s h) k ≡ ram_at s k }
{}

/// Where the configuration is as it has to be, filling a section leaves the words of every other one.
pub fn sections_are_apart()
    ensures { (d : McuTable) (w : World) (s : McuState) (m n k : ℕ) (x y : Section) (times : ℕ → ℕ)
        → FitsMcu d → section_of d m ≡ Some x → section_of d n ≡ Some y → m ≢ n → is_within x k ≡ true
        → ram_at (state_after d w s (Acts (InitRamSection n) times)) k ≡ ram_at s k }
{}

/// Where the configuration is as it has to be, the rate is from 1 to 16 at any time.
pub fn rate_within_its_limits()
    ensures { (d : McuTable) (w : World) (hs : List (Happening Call))
        → FitsMcu d
        → let end = after_all d (record { world = w; state = first_state }) hs in
        (0 < (mcu_machine d).rate end.state) × ((mcu_machine d).rate end.state ≤ 16) }
{}
