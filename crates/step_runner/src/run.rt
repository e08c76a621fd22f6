ghost use Rattle.std.specs.Prelude.{◌≡◌, ◌<◌, ◌&&◌, ℕ, List, [], ◌∷◌, ◌++◌, length, map, vec_len, OnOk, Some, None, is_some};
ghost use Rattle.chip_model.specs.Chip.{Chip, hung, expiry_of, is_masked, is_pending, happened, CanHappen, reset_chip};
ghost use Rattle.run_model.specs.Causes.{call_cause, line_cause};
ghost use Rattle.mcal_base.specs.declared.directive.Order.TheVariants.{Fill, Tick};
ghost use Rattle.mcal_base.specs.declared.directive.Reason.TheVariants.{Watchdog};
ghost use Rattle.run_model.specs.Legal.{hardware_held};
ghost use Rattle.run_model.specs.Moment.{Transition, Begins, Enters, Happens, Resets, call_tag, line_tag, start_moment, after_all};
ghost use Rattle.step_runner.specs.Driver.{EndsBefore};
ghost use Rattle.step_runner.specs.Stands.{Stands, done, step_done, FuelFalls};
ghost use Rattle.step_runner.specs.Kept.{tags_under, top_is_noted, cause_of, beginning, put_by, enter_by, fill_by, written_by, CanStep, IsStill, IsLooked, TakesStep, hung_for, StepCalls};

use crate::{Module, Stack};
use chip_model::Bus;
use irq_control::Held;
use mcal_base::{Directive, Order, Reason};
use run_model::{Stepped, Tag};
use serial_devices::SerialDevice;

/// Begins a call at a level, unless a cause holds it; a held one changes nothing.
pub fn begin<M: Module>(
    stack: &mut Stack<M>,
    driver: &M,
    bus: &Bus,
    call: M::Call,
    level: u32,
) -> Result<(), Held>
    ensures cause { cause_of result ≡ call_cause (is_masked bus.now) (tags_under stack.old.frames)
        (top_is_noted stack.old.frames) ((M.spec driver.now).setting.class_of call) level }
    ensures stack { let frame = (M.spec driver.now).frame_of call in
        let tag = call_tag (M.spec driver.now).setting call level in
        stack.new ≡ put_by result (beginning frame tag) stack.old }
    ensures stands { (first : Chip) (h : List (Transition M.Call)) → (M.spec driver.now).fits → (M.spec driver.now).can_call call →
        Stands (M.spec driver.now) first bus.now stack.old.frames h →
        Stands (M.spec driver.now) first bus.now stack.new.frames (h ++ done result (Begins call level)) }
{
    let class = driver.class(&call);
    stack.call_held(bus.masked(), &class, level)?;
    let tag = Tag {
        level,
        owner: class.module,
        class: Some(class),
    };
    stack.put_call(driver, &call, tag);
    Ok(())
}

/// Begins the handler of a line, unless a cause holds it; a held one changes nothing.
/// A line without a handler is never pending.
pub fn enter<M: Module>(stack: &mut Stack<M>, driver: &M, bus: &Bus, line: u32) -> Result<(), Held>
    ensures cause { let level = (M.spec driver.now).setting.level_of line in
        let is_due = is_some ((M.spec driver.now).handler_of line) && is_pending bus.now line in
        cause_of result ≡ line_cause (is_masked bus.now) (tags_under stack.old.frames) level is_due }
    ensures stack { let tag = line_tag (M.spec driver.now).setting line in
        stack.new ≡ enter_by result ((M.spec driver.now).handler_of line) tag stack.old }
    ensures stands { (first : Chip) (h : List (Transition M.Call)) → (M.spec driver.now).fits →
        Stands (M.spec driver.now) first bus.now stack.old.frames h →
        Stands (M.spec driver.now) first bus.now stack.new.frames (h ++ done result (Enters line)) }
{
    let level = driver.level(line);
    let is_pending = driver.serves(line) && bus.pending(line);
    stack.line_held(bus.masked(), level, is_pending)?;
    let tag = Tag {
        level,
        owner: driver.owner(line),
        class: None,
    };
    stack.put_handler(driver, line, tag);
    Ok(())
}

/// Makes the move of the top frame, hands its value to the frame, and takes the frame off where it ended.
/// It is held as empty exactly where no frame is there.
pub fn step<M: Module>(
    stack: &mut Stack<M>,
    bus: &mut Bus,
    rack: &mut Vec<Box<dyn SerialDevice>>,
) -> Result<Stepped, Held>
    requires few { stack.old.steps < 4294967295 }
    requires there { CanStep M.Frame.move_of stack.old.frames }
    requires still { IsStill M.Frame.move_of stack.old.frames bus.old }
    ensures step { TakesStep M.Frame.move_of M.Frame.left M.Frame.gave
        stack.old.frames stack.old.steps (hung_for stack.old.frames (vec_len rack.old) bus.old) stack.new bus.new result }
    // The units have this rack's devices in a step. One that begins a word under a device's select calls it, and no other
    // step calls one.
    ensures count { vec_len rack.new ≡ vec_len rack.old }
    ensures hung { OnOk result (bus.new.devices ≡ vec_len rack.new) }
    ensures calls { StepCalls (hung (vec_len rack.old) bus.old) result (map (λ d. line d) rack.old.items) (map (λ d. line d) rack.new.items) }
    ensures stands { (driver : M) (first : Chip) (h : List (Transition M.Call)) → vec_len rack.old ≡ bus.old.devices → (M.spec driver).fits →
        let setting = (M.spec driver).setting in
        (after_all setting (start_moment setting first) h).steps < 4294967295 →
        Stands (M.spec driver) first bus.old stack.old.frames h →
        Stands (M.spec driver) first bus.new stack.new.frames (h ++ step_done result) }
    ensures shortens { (driver : M) (first : Chip) (h : List (Transition M.Call)) → vec_len rack.old ≡ bus.old.devices → (M.spec driver).fits →
        let setting = (M.spec driver).setting in
        (after_all setting (start_moment setting first) h).steps < 4294967295 →
        Stands (M.spec driver) first bus.old stack.old.frames h →
        FuelFalls (M.spec driver).fuel stack.old.frames stack.new.frames result }
{
    let mut stepped = Stepped::blank();
    stack.look(&mut stepped);
    step_into(stack, bus, rack, &mut stepped)?;
    Ok(stepped)
}

/// As `step`, of the move that `Stack::look` has written to the step, which holds no answer.
#[inline(always)]
pub fn step_into<M: Module>(
    stack: &mut Stack<M>,
    bus: &mut Bus,
    rack: &mut Vec<Box<dyn SerialDevice>>,
    stepped: &mut Stepped,
) -> Result<(), Held>
    requires few { stack.old.steps < 4294967295 }
    requires there { CanStep M.Frame.move_of stack.old.frames }
    requires still { IsStill M.Frame.move_of stack.old.frames bus.old }
    requires free { stepped.old.ended ≡ None }
    requires looked { IsLooked M.Frame.move_of stack.old.frames stepped.old.made }
    ensures step { TakesStep M.Frame.move_of M.Frame.left M.Frame.gave
        stack.old.frames stack.old.steps (hung_for stack.old.frames (vec_len rack.old) bus.old) stack.new bus.new (written_by result stepped.new) }
    ensures count { vec_len rack.new ≡ vec_len rack.old }
    ensures hung { OnOk result (bus.new.devices ≡ vec_len rack.new) }
    ensures calls { StepCalls (hung (vec_len rack.old) bus.old) (written_by result stepped.new) (map (λ d. line d) rack.old.items) (map (λ d. line d) rack.new.items) }
    ensures stands { (driver : M) (first : Chip) (h : List (Transition M.Call)) → vec_len rack.old ≡ bus.old.devices → (M.spec driver).fits →
        let setting = (M.spec driver).setting in
        (after_all setting (start_moment setting first) h).steps < 4294967295 →
        Stands (M.spec driver) first bus.old stack.old.frames h →
        Stands (M.spec driver) first bus.new stack.new.frames (h ++ step_done (written_by result stepped.new)) }
    ensures shortens { (driver : M) (first : Chip) (h : List (Transition M.Call)) → vec_len rack.old ≡ bus.old.devices → (M.spec driver).fits →
        let setting = (M.spec driver).setting in
        (after_all setting (start_moment setting first) h).steps < 4294967295 →
        Stands (M.spec driver) first bus.old stack.old.frames h →
        FuelFalls (M.spec driver).fuel stack.old.frames stack.new.frames (written_by result stepped.new) }
{
    stack.step_top(bus, rack, stepped)
}

/// Why a fill is held: there is no such array, or the mask is closed, or the array is used or read.
fn fill_cause(used: Option<bool>, masked: bool, read: bool) -> Option<Held>
    ensures { result ≡ fill_by used masked read }
{
    match used {
        None => Some(Held::Unknown),
        Some(used) if masked || used || read => Some(Held::Busy),
        Some(_) => None,
    }
}

/// Why a fill of a serial channel's source array is held, if it is; one that isn't may happen.
pub fn fill_held<M: Module>(stack: &Stack<M>, driver: &M, bus: &Bus, channel: u32) -> Option<Held>
    ensures cause { (first : Chip) (h : List (Transition M.Call)) (words : List ℕ) → (M.spec driver.now).fits →
        Stands (M.spec driver.now) first bus.now stack.now.frames h →
        let setting = (M.spec driver.now).setting in
        result ≡ hardware_held setting (after_all setting (start_moment setting first) h) (Fill channel words) }
    ensures free { (first : Chip) (h : List (Transition M.Call)) (words : List ℕ) → (M.spec driver.now).fits →
        Stands (M.spec driver.now) first bus.now stack.now.frames h →
        result ≡ None → CanHappen bus.now (Fill channel words) }
{
    let used = driver.source_use(bus, channel);
    fill_cause(used, bus.masked(), stack.is_read(channel))
}

/// A hardware event of the script. Ticks end before the watchdog's time does.
pub fn hardware<M: Module>(stack: &Stack<M>, bus: &mut Bus, happening: &Directive)
    requires { CanHappen bus.old happening.now.order }
    ensures chip { bus.new ≡ happened bus.old happening.now.order }
    ensures stands { (driver : M) (first : Chip) (h : List (Transition M.Call)) → (M.spec driver).fits →
        let setting = (M.spec driver).setting in
        hardware_held setting (after_all setting (start_moment setting first) h) happening.now.order ≡ None →
        EndsBefore happening.now.order (expiry_of bus.old) →
        Stands (M.spec driver) first bus.old stack.now.frames h →
        Stands (M.spec driver) first bus.new stack.now.frames (h ++ Happens happening.now.order ∷ []) }
{
    let _frames = stack;
    bus.hardware(happening);
}

/// Resets the chip and drops every frame, and answers how many they were.
pub fn reset<M: Module>(stack: &mut Stack<M>, bus: &mut Bus, reason: Reason) -> u32
    ensures dropped { result ≡ length stack.old.frames }
    ensures stack { stack.new ≡ record stack.old { frames = [] } }
    ensures chip { bus.new ≡ reset_chip bus.old reason }
    ensures stands { (driver : M) (first : Chip) (h : List (Transition M.Call)) → (M.spec driver).fits →
        Stands (M.spec driver) first bus.old stack.old.frames h →
        Stands (M.spec driver) first bus.new stack.new.frames (h ++ Resets reason ∷ []) }
{
    bus.reset(reason);
    stack.clear()
}

/// So many ticks, with which the watchdog's time ends: it resets the chip and drops every frame. Answers how many they were.
pub fn run_out<M: Module>(stack: &mut Stack<M>, bus: &mut Bus, ticks: u32) -> u32
    requires can { CanHappen bus.old (Tick ticks) }
    requires ends { expiry_of bus.old ≡ Some ticks }
    ensures dropped { result ≡ length stack.old.frames }
    ensures stack { stack.new ≡ record stack.old { frames = [] } }
    ensures chip { bus.new ≡ reset_chip (happened bus.old (Tick ticks)) Watchdog }
    ensures stands { (driver : M) (first : Chip) (h : List (Transition M.Call)) → (M.spec driver).fits →
        Stands (M.spec driver) first bus.old stack.old.frames h →
        Stands (M.spec driver) first bus.new stack.new.frames (h ++ Happens (Tick ticks) ∷ Resets Watchdog ∷ []) }
{
    bus.hardware(&Directive {
        line: 0,
        order: Order::Tick(ticks),
    });
    bus.reset(Reason::Watchdog);
    stack.clear()
}
