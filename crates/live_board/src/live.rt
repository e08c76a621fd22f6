ghost use Rattle.std.specs.Prelude.{◌≡◌, ◌<◌, ◌≤◌, ◌-◌, ◌&&◌, is_some, List, [], ◌∷◌, length, map, vec_len, IfNone, IfOk, OnErr, OnOk, Ok, Err, Some, None, true};
ghost use Rattle.chip_model.specs.Chip.{CanHappen, Chip, hung, power_on, is_masked, is_pending, expiry_of, happened, reset_chip, ticked};
ghost use Rattle.chip_model.specs.Devices.{CallsRight};
ghost use Rattle.mcal_base.specs.Layout.{WithinLimits};
ghost use Rattle.mcal_base.specs.declared.directive.Order.TheVariants.{Detach, Tick};
ghost use Rattle.mcal_base.specs.declared.directive.Reason.TheVariants.{Watchdog};
ghost use Rattle.run_model.specs.Causes.{call_cause, line_cause};
ghost use Rattle.run_model.specs.Legal.{hardware_held};
ghost use Rattle.run_model.specs.Moment.{Transition, Begins, Enters, Steps, Happens, Resets, after_all, start_moment};
ghost use Rattle.script_runner.specs.Standing.{filled_by, left_within, words_by};
ghost use Rattle.step_runner.specs.Driver.{EndsBefore};
ghost use Rattle.step_runner.specs.Kept.{cause_of, tags_under, top_is_noted, upcoming_of, IsLooked, IsStill, TakesStep};
ghost use Rattle.step_runner.specs.Stands.{Stands, done};
ghost use Rattle.live_board.specs.Lives.{GoesOn, IsBeside, StepsOn, dropped_by, dropped_in, held_by, is_gift, is_outside, is_setting, ticks_by, wait_by, wait_of};
ghost use Rattle.live_board.specs.declared.outside.Refusal.TheVariants.{Spent};

use crate::outside::{MOST_TICKS, Refusal};
use chip_model::Bus;
use irq_control::Held;
use mcal_base::{Config, Directive, Move, NoMemory, Order, Reason, Request, Service};
use run_model::Stepped;
use script_runner::Caller;
use serial_devices::SerialDevice;
use std::alloc::Global;
use std::marker::Model;
use step_runner::{Stack, begin, enter, fill_held, hardware, reset, run_out, step_into};

/// A driver on the chip, with the frames under way. It takes memory at its beginning alone.
#[derive(Drop)]
pub struct Live<M: Caller> {
    driver: M,
    stack: Stack<M>,
    bus: Bus,
    /// The ticks that may still go by.
    left: u64,
    /// The words that may still be given to come in.
    room: usize,
    /// The devices that hang on the serial units.
    devices: usize,
}

impl<M: Caller> Model for Live<M> {
    ghost use Rattle.live_board.specs.Lives.{LiveRun, IsLive};

    ghost Value = { LiveRun M M.Frame };

    ghost view = { λ l. record { driver = l.driver; chip = l.bus; kept = l.stack; left = l.left; room = l.room; devices = l.devices } };

    ghost invariant = { λ l. IsLive (M.spec l.driver) l.bus l.stack l.left l.room l.devices };
}

impl<M: Caller> Live<M> {
    /// A chip at power on, with room for so many words that come in, and with so many devices.
    pub fn new(
        alloc: Global,
        driver: M,
        config: &Config,
        room: usize,
        devices: usize,
    ) -> Result<Live<M>, NoMemory>
        requires fits { (M.spec driver).fits }
        requires config { WithinLimits config.now }
        requires wired { (M.spec driver).wired (hung devices (power_on config.now room)) }
        ensures driver { IfOk result (λ live. live.driver ≡ driver) }
        ensures stands { let first = hung devices (power_on config.now room) in
            IfOk result (λ live. Stands (M.spec driver) first live.chip live.kept.frames []) }
        ensures counts { IfOk result (λ live. (live.left ≡ MOST_TICKS) × (live.room ≡ room) × (live.devices ≡ devices)) }
    {
        let stack = Stack::new(alloc)?;
        let mut bus = Bus::new(alloc, config, room)?;
        bus.hang(devices);
        Ok(Live {
            driver,
            stack,
            bus,
            left: MOST_TICKS,
            room,
            devices,
        })
    }

    /// Whether a service is one of the driver's.
    pub fn has(&self, service: Service) -> bool
        ensures { result ≡ M.has_service self.now.driver service }
    {
        self.driver.has(service)
    }

    /// The level of a line.
    pub fn level(&self, line: u32) -> u32
        ensures fits { (M.spec self.now.driver).fits }
        ensures level { result ≡ (M.spec self.now.driver).setting.level_of line }
    {
        self.driver.level(line)
    }

    /// Begins a call at a level, unless a cause holds it.
    pub fn begin(&mut self, level: u32, request: &Request) -> Result<(), Held>
        requires has { M.has_service self.old.driver request.now.service ≡ true }
        ensures driver { self.new.driver ≡ self.old.driver }
        ensures beside { IsBeside self.old self.new }
        ensures cause { let class = (M.spec self.old.driver).setting.class_of (M.call_of self.old.driver request.now) in
            cause_of result ≡ call_cause (is_masked self.old.chip) (tags_under self.old.kept.frames) (top_is_noted self.old.kept.frames) class level }
        ensures goes { let deed = Begins (M.call_of self.old.driver request.now) level in
            GoesOn (M.spec self.old.driver) self.old self.new (done result deed) }
    {
        let call = self.driver.call(request);
        begin(&mut self.stack, &self.driver, &self.bus, call, level)
    }

    /// Begins the handler of a line, unless a cause holds it.
    pub fn enter(&mut self, line: u32) -> Result<(), Held>
        ensures driver { self.new.driver ≡ self.old.driver }
        ensures beside { IsBeside self.old self.new }
        ensures cause { let d = M.spec self.old.driver in
            cause_of result ≡ line_cause (is_masked self.old.chip) (tags_under self.old.kept.frames) (d.setting.level_of line) (is_some (d.handler_of line) && is_pending self.old.chip line) }
        ensures goes { GoesOn (M.spec self.old.driver) self.old self.new (done result (Enters line)) }
    {
        enter(&mut self.stack, &self.driver, &self.bus, line)
    }

    /// The time that is left for the watchdog, where it ends within so many ticks.
    fn left_of(&self, ticks: u32) -> Option<u32>
        ensures { result ≡ left_within ticks (expiry_of self.now.chip) }
    {
        match self.bus.expiry() {
            Some(left) if left <= u64::from(ticks) => Some(left as u32),
            _ => None,
        }
    }

    /// Ticks in which the watchdog's time doesn't end.
    fn tick_on(&mut self, ticks: u32)
        requires time { ticks ≤ self.old.left }
        requires early { EndsBefore (Tick ticks) (expiry_of self.old.chip) }
        ensures driver { self.new.driver ≡ self.old.driver }
        ensures beside { IsBeside self.old self.new }
        ensures chip { self.new.chip ≡ happened self.old.chip (Tick ticks) }
        ensures kept { self.new.kept ≡ self.old.kept }
        ensures goes { GoesOn (M.spec self.old.driver) self.old self.new (Happens (Tick ticks) ∷ []) }
    {
        let happening = Directive {
            line: 0,
            order: Order::Tick(ticks),
        };
        hardware(&self.stack, &mut self.bus, &happening);
        self.left -= ticks as u64;
    }

    /// Ticks to the end of the watchdog's time, which resets the chip and drops every frame. Answers how many they were.
    fn run_down(&mut self, ticks: u32) -> u32
        requires time { ticks ≤ self.old.left }
        requires ends { expiry_of self.old.chip ≡ Some ticks }
        ensures driver { self.new.driver ≡ self.old.driver }
        ensures beside { IsBeside self.old self.new }
        ensures chip { self.new.chip ≡ reset_chip (happened self.old.chip (Tick ticks)) Watchdog }
        ensures frames { self.new.kept.frames ≡ [] }
        ensures left { self.new.left ≡ self.old.left - ticks }
        ensures dropped { result ≡ length self.old.kept.frames }
        ensures goes { GoesOn (M.spec self.old.driver) self.old self.new (Happens (Tick ticks) ∷ Resets Watchdog ∷ []) }
    {
        let dropped = run_out(&mut self.stack, &mut self.bus, ticks);
        self.left -= ticks as u64;
        dropped
    }

    /// So many ticks, through the end of the watchdog's time where it ends in them: then the chip is reset, and it is
    /// answered how many frames were dropped.
    pub fn tick(&mut self, ticks: u32) -> Result<Option<u32>, Refusal>
        ensures driver { self.new.driver ≡ self.old.driver }
        ensures fits { (M.spec self.old.driver).fits }
        ensures beside { IsBeside self.old self.new }
        ensures spent { OnErr result ((self.old.left < ticks) × (self.new ≡ self.old)) }
        ensures ended { IfOk result (λ dropped. dropped ≡ dropped_by (left_within ticks (expiry_of self.old.chip)) (length self.old.kept.frames)) }
        ensures goes { OnOk result (GoesOn (M.spec self.old.driver) self.old self.new (ticks_by ticks (left_within ticks (expiry_of self.old.chip)))) }
    {
        if u64::from(ticks) > self.left {
            return Err(Refusal::Spent);
        }
        match self.left_of(ticks) {
            Some(left) => {
                let dropped = self.run_down(left);
                if left < ticks {
                    self.tick_on(ticks - left);
                }
                Ok(Some(dropped))
            }
            None => {
                self.tick_on(ticks);
                Ok(None)
            }
        }
    }

    /// The next move of the top frame, where there is a frame.
    pub fn upcoming(&self) -> Option<Move>
        ensures { result ≡ upcoming_of M.Frame.move_of self.now.kept.frames }
    {
        if self.stack.depth() == 0 {
            return None;
        }
        let mut stepped = Stepped::blank();
        self.stack.look(&mut stepped);
        Some(stepped.made)
    }

    /// The ticks that the next step waits for, whose move is looked up in the step that will be made.
    fn due(&self, stepped: &mut Stepped) -> u32
        ensures wait { result ≡ wait_of M.Frame.move_of self.now.kept.frames self.now.chip }
        ensures over { IsStill M.Frame.move_of self.now.kept.frames (ticked self.now.chip result) }
        ensures looked { IsLooked M.Frame.move_of self.now.kept.frames stepped.new.made }
        ensures rest { stepped.new ≡ record stepped.old { made = stepped.new.made } }
    {
        if self.stack.depth() == 0 {
            return 0;
        }
        self.stack.look(stepped);
        self.bus.stall(&stepped.made) as u32
    }

    /// The ticks that the next step waits for.
    pub fn stall(&self) -> u32
        ensures { result ≡ wait_of M.Frame.move_of self.now.kept.frames self.now.chip }
    {
        let mut stepped = Stepped::blank();
        self.due(&mut stepped)
    }

    /// Ticks until the next step waits for no word; its move is looked up in the step that will be made. Where the watchdog's
    /// time ends in them the chip is reset, no frame is left, and it is answered how many there were.
    pub fn wait(&mut self, stepped: &mut Stepped) -> Result<Option<u32>, Refusal>
        ensures driver { self.new.driver ≡ self.old.driver }
        ensures fits { (M.spec self.old.driver).fits }
        ensures beside { IsBeside self.old self.new }
        ensures spent { let ticks = wait_of M.Frame.move_of self.old.kept.frames self.old.chip in
            OnErr result ((ticks < 4294967296) × (self.old.left < ticks) × (self.new ≡ self.old)) }
        ensures ended { let ticks = wait_of M.Frame.move_of self.old.kept.frames self.old.chip in
            IfOk result (λ dropped. dropped ≡ dropped_in ticks (left_within ticks (expiry_of self.old.chip)) (length self.old.kept.frames)) }
        ensures kept { IfOk result (λ dropped. IfNone dropped (self.new.kept ≡ self.old.kept)) }
        ensures rest { stepped.new ≡ record stepped.old { made = stepped.new.made } }
        ensures still { OnOk result (IsStill M.Frame.move_of self.new.kept.frames self.new.chip) }
        ensures looked { OnOk result (IsLooked M.Frame.move_of self.new.kept.frames stepped.new.made) }
        ensures goes { let ticks = wait_of M.Frame.move_of self.old.kept.frames self.old.chip in
            OnOk result (GoesOn (M.spec self.old.driver) self.old self.new (wait_by ticks (left_within ticks (expiry_of self.old.chip)))) }
    {
        let ticks = self.due(stepped);
        if u64::from(ticks) > self.left {
            return Err(Refusal::Spent);
        }
        if ticks == 0 {
            return Ok(None);
        }
        match self.left_of(ticks) {
            Some(left) => Ok(Some(self.run_down(left))),
            None => {
                self.tick_on(ticks);
                Ok(None)
            }
        }
    }

    /// Makes one step of the top frame, which waits for no word. It is held as empty where there is no frame.
    pub fn step(
        &mut self,
        rack: &mut Vec<Box<dyn SerialDevice>>,
        stepped: &mut Stepped,
    ) -> Result<(), Refusal>
        requires still { IsStill M.Frame.move_of self.old.kept.frames self.old.chip }
        requires free { stepped.old.ended ≡ None }
        ensures driver { self.new.driver ≡ self.old.driver }
        ensures devices { self.new.devices ≡ self.old.devices }
        ensures count { vec_len rack.new ≡ vec_len rack.old }
        ensures few { OnOk result (self.old.kept.steps < 4294967295) }
        ensures spent { 0 < length self.old.kept.frames → vec_len rack.old ≡ self.old.devices → OnErr result ((result ≡ Err Spent) × (4294967295 ≤ self.old.kept.steps)) }
        ensures held { OnErr result (self.new ≡ self.old) }
        ensures step { OnOk result (TakesStep M.Frame.move_of M.Frame.left M.Frame.gave self.old.kept.frames self.old.kept.steps
            self.old.chip self.new.kept self.new.chip (Ok stepped.new)) }
        ensures calls { OnOk result (CallsRight self.old.chip stepped.new.made stepped.new.received (map (λ d. line d) rack.old.items) (map (λ d. line d) rack.new.items)) }
        ensures goes { OnOk result (StepsOn (M.spec self.old.driver) self.old self.new (Steps stepped.new ∷ [])) }
    {
        let _ticks = self.due(stepped);
        self.step_on(rack, stepped)
    }

    /// As `step`, of the move that `wait` has looked up in the step that will be made.
    #[inline(always)]
    pub fn step_on(
        &mut self,
        rack: &mut Vec<Box<dyn SerialDevice>>,
        stepped: &mut Stepped,
    ) -> Result<(), Refusal>
        requires still { IsStill M.Frame.move_of self.old.kept.frames self.old.chip }
        requires free { stepped.old.ended ≡ None }
        requires looked { IsLooked M.Frame.move_of self.old.kept.frames stepped.old.made }
        ensures driver { self.new.driver ≡ self.old.driver }
        ensures devices { self.new.devices ≡ self.old.devices }
        ensures count { vec_len rack.new ≡ vec_len rack.old }
        ensures few { OnOk result (self.old.kept.steps < 4294967295) }
        ensures spent { 0 < length self.old.kept.frames → vec_len rack.old ≡ self.old.devices → OnErr result ((result ≡ Err Spent) × (4294967295 ≤ self.old.kept.steps)) }
        ensures held { OnErr result (self.new ≡ self.old) }
        ensures step { OnOk result (TakesStep M.Frame.move_of M.Frame.left M.Frame.gave self.old.kept.frames self.old.kept.steps
            self.old.chip self.new.kept self.new.chip (Ok stepped.new)) }
        ensures calls { OnOk result (CallsRight self.old.chip stepped.new.made stepped.new.received (map (λ d. line d) rack.old.items) (map (λ d. line d) rack.new.items)) }
        ensures goes { OnOk result (StepsOn (M.spec self.old.driver) self.old self.new (Steps stepped.new ∷ [])) }
    {
        if self.stack.depth() == 0 {
            return Err(Refusal::Held(Held::Empty));
        }
        if self.stack.steps() == u32::MAX {
            return Err(Refusal::Spent);
        }
        if rack.len() != self.devices {
            return Err(Refusal::Held(Held::Unknown));
        }
        match step_into(&mut self.stack, &mut self.bus, rack, stepped) {
            Ok(()) => Ok(()),
            Err(_) => unreachable!(),
        }
    }

    /// Fills a serial channel's source array, unless a cause holds it.
    fn fill(&mut self, happening: &Directive, channel: u32) -> Result<(), Refusal>
        requires fill { filled_by happening.now.order ≡ Some channel }
        ensures driver { self.new.driver ≡ self.old.driver }
        ensures beside { IsBeside self.old self.new }
        ensures held { OnErr result (self.new ≡ self.old) }
        ensures spent { result ≡ Err Spent → self.old.room < words_by happening.now.order }
        ensures cause { (first : Chip) (h : List (Transition M.Call)) → Stands (M.spec self.old.driver) first self.old.chip self.old.kept.frames h →
            let setting = (M.spec self.old.driver).setting in
            hardware_held setting (after_all setting (start_moment setting first) h) happening.now.order ≡ held_by result }
        ensures goes { OnOk result (GoesOn (M.spec self.old.driver) self.old self.new (Happens happening.now.order ∷ [])) }
    {
        match fill_held(&self.stack, &self.driver, &self.bus, channel) {
            Some(cause) => Err(Refusal::Held(cause)),
            None => {
                hardware(&self.stack, &mut self.bus, happening);
                Ok(())
            }
        }
    }

    /// Gives words to come in on a serial unit, as far as there is room for them.
    fn give(&mut self, happening: &Directive, words: usize) -> Result<(), Refusal>
        requires gives { is_gift happening.now.order ≡ true }
        requires words { words ≡ words_by happening.now.order }
        ensures driver { self.new.driver ≡ self.old.driver }
        ensures beside { IsBeside self.old self.new }
        ensures held { OnErr result ((self.old.room < words) × (self.new ≡ self.old)) }
        ensures free { held_by result ≡ None }
        ensures goes { OnOk result (GoesOn (M.spec self.old.driver) self.old self.new (Happens happening.now.order ∷ [])) }
    {
        if words > self.room {
            return Err(Refusal::Spent);
        }
        hardware(&self.stack, &mut self.bus, happening);
        self.room -= words;
        Ok(())
    }

    /// A hardware event that nothing holds, and that is given nothing.
    fn set(&mut self, happening: &Directive)
        requires sets { is_setting happening.now.order ≡ true }
        ensures driver { self.new.driver ≡ self.old.driver }
        ensures beside { IsBeside self.old self.new }
        ensures goes { GoesOn (M.spec self.old.driver) self.old self.new (Happens happening.now.order ∷ []) }
    {
        hardware(&self.stack, &mut self.bus, happening);
    }

    /// Moves the hardware, in no time and with the devices as they are, unless a cause holds it. Of an order that does
    /// something else it is held as unknown.
    pub fn happen(&mut self, happening: &Directive) -> Result<(), Refusal>
        ensures driver { self.new.driver ≡ self.old.driver }
        ensures beside { IsBeside self.old self.new }
        ensures held { OnErr result (self.new ≡ self.old) }
        ensures spent { result ≡ Err Spent → self.old.room < words_by happening.now.order }
        ensures cause { (first : Chip) (h : List (Transition M.Call)) → Stands (M.spec self.old.driver) first self.old.chip self.old.kept.frames h →
            is_outside happening.now.order ≡ true → let setting = (M.spec self.old.driver).setting in
            hardware_held setting (after_all setting (start_moment setting first) h) happening.now.order ≡ held_by result }
        ensures goes { OnOk result (GoesOn (M.spec self.old.driver) self.old self.new (Happens happening.now.order ∷ [])) }
    {
        match &happening.order {
            Order::Fill(channel, _) => self.fill(happening, *channel),
            Order::Miso(unit, words) => {
                if *unit < 2 {
                    self.give(happening, words.len())
                } else {
                    Err(Refusal::Held(Held::Unknown))
                }
            }
            Order::Level(..) | Order::Analog(..) | Order::Trigger(_) | Order::SpiFault(_) => {
                self.set(happening);
                Ok(())
            }
            Order::Call(..)
            | Order::Do(..)
            | Order::Enter(_)
            | Order::Serve(_)
            | Order::Run(_)
            | Order::Upto(_)
            | Order::Finish
            | Order::Tick(_)
            | Order::Detach
            | Order::Reset(_)
            | Order::Show(_) => Err(Refusal::Held(Held::Unknown)),
        }
    }

    /// One device fewer hangs on the serial units: the last of the rack, which is dropped by whoever has it. It is held as
    /// unknown where there is none.
    pub fn detach(&mut self) -> Result<(), Held>
        ensures driver { self.new.driver ≡ self.old.driver }
        ensures steps { self.new.kept.steps ≡ self.old.kept.steps }
        ensures held { OnErr result (self.new ≡ self.old) }
        ensures cause { (first : Chip) (h : List (Transition M.Call)) → Stands (M.spec self.old.driver) first self.old.chip self.old.kept.frames h →
            let setting = (M.spec self.old.driver).setting in
            hardware_held setting (after_all setting (start_moment setting first) h) Detach ≡ cause_of result }
        ensures fewer { OnOk result (self.new.devices ≡ self.old.devices - 1) }
        ensures goes { OnOk result (GoesOn (M.spec self.old.driver) self.old self.new (Happens Detach ∷ [])) }
    {
        if self.devices == 0 {
            return Err(Held::Unknown);
        }
        self.count_off();
        Ok(())
    }

    /// One device fewer hangs on the serial units.
    fn count_off(&mut self)
        requires { 0 < self.old.devices }
        ensures driver { self.new.driver ≡ self.old.driver }
        ensures steps { self.new.kept.steps ≡ self.old.kept.steps }
        ensures fewer { self.new.devices ≡ self.old.devices - 1 }
        ensures goes { GoesOn (M.spec self.old.driver) self.old self.new (Happens Detach ∷ []) }
    {
        let happening = Directive {
            line: 0,
            order: Order::Detach,
        };
        hardware(&self.stack, &mut self.bus, &happening);
        self.devices -= 1;
    }

    /// Resets the chip, and answers how many frames were dropped.
    pub fn reset(&mut self, reason: Reason) -> u32
        ensures driver { self.new.driver ≡ self.old.driver }
        ensures beside { IsBeside self.old self.new }
        ensures dropped { result ≡ length self.old.kept.frames }
        ensures goes { GoesOn (M.spec self.old.driver) self.old self.new (Resets reason ∷ []) }
    {
        reset(&mut self.stack, &mut self.bus, reason)
    }

    /// How many frames are under way.
    pub fn depth(&self) -> u32
        ensures fits { (M.spec self.now.driver).fits }
        ensures depth { result ≡ length self.now.kept.frames }
    {
        self.stack.depth()
    }

    /// The driver.
    pub fn driver(&self) -> &M
        ensures { result.now ≡ self.now.driver }
    {
        &self.driver
    }

    /// The chip.
    pub fn bus(&self) -> &Bus
        ensures { result.now ≡ self.now.chip }
    {
        &self.bus
    }
}
