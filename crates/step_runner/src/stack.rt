ghost use Rattle.std.specs.Prelude.{◌≡◌, ◌<◌, [], ◌∷◌, not, length, map, vec_len, IfOk, OnOk, None, Some, is_some, reverse, true};
ghost use Rattle.std.specs.List.{list_all, list_any};
ghost use Rattle.std.specs.Bool.{OnFalse};
ghost use Rattle.run_model.specs.Causes.{reads_source, blocks, may_reenter, call_level_allows, line_level_allows, call_cause, line_cause, is_full};
ghost use Rattle.chip_model.specs.Chip.{Chip, hung, value_of, chip_after};
ghost use Rattle.chip_model.specs.Devices.{ComesIn, CallsRight};
ghost use Rattle.mcal_base.specs.Reach.{CanApply};
ghost use Rattle.step_runner.specs.Driver.{stepped as step_of};
ghost use Rattle.step_runner.specs.Stands.{IsFirst, Stands};
ghost use Rattle.step_runner.specs.Kept.{kept_empty, is_read, tags_under, top_is_noted, cause_of, beginning, handled, moved, written_by, CanStep, IsLooked, TakesStep, hung_for, StepCalls};

use crate::Module;
use chip_model::Bus;
use irq_control::Held;
use mcal_base::{Move, NoMemory, Routine};
use run_model::{Class, MOST_FRAMES, Stepped, Tag, is_blocked, reads_source};
use serial_devices::SerialDevice;
use std::alloc::Global;
use std::marker::Model;

/// A frame under way, as the stack keeps it.
#[derive(Drop)]
pub struct Under<F: Drop> {
    /// The frame.
    pub frame: F,
    /// Its level, its module and the class of a call.
    pub tag: Tag,
    /// Whether its last move was a notice.
    pub noted: bool,
}

/// The frames under way, at most eight, and the number of steps that were made. A frame that ended leaves its place, where
/// the next one is made.
#[derive(Drop)]
pub struct Stack<M: Module> {
    places: Vec<Under<M::Frame>>,
    count: usize,
    steps: u32,
}

impl<M: Module> Model for Stack<M> {
    ghost use Rattle.std.specs.Prelude.{◌≤◌, reverse, take, vec_len, vec_capacity};
    ghost use Rattle.step_runner.specs.Kept.{Kept};

    ghost Value = { Kept M.Frame };

    ghost view = { λ s. record { frames = reverse (take s.count s.places.items); steps = s.steps } };

    ghost invariant = { λ s. (s.count ≤ vec_len s.places) × (vec_len s.places ≤ 8) × (8 ≤ vec_capacity s.places) };
}

/// Whether one of these frames is of a call that does.
fn one_reads<F: Drop>(channel: u32, frames: &[Under<F>]) -> bool
    ensures { result ≡ list_any (λ u. reads_source channel u.tag.class) frames.now }
{
    frames.iter().any(|u| reads_source(channel, u.tag.class))
}

/// Whether a call may begin over each of these frames.
fn none_blocks<F: Drop>(class: &Class, frames: &[Under<F>]) -> bool
    ensures { result ≡ list_all (λ u. not (blocks class.now u.tag)) frames.now }
{
    frames.iter().all(|u| !is_blocked(class, &u.tag))
}

/// A frame makes the move that was looked up and takes what that gave, and the step is written to the place of the move, which
/// holds no answer.
fn move_frame<F: Routine + Drop>(
    top: &mut Under<F>,
    bus: &mut Bus,
    rack: &mut Vec<Box<dyn SerialDevice>>,
    stepped: &mut Stepped,
)
    requires there { CanApply (F.move_of top.old.frame) }
    requires free { stepped.old.ended ≡ None }
    requires looked { stepped.old.made ≡ F.move_of top.old.frame }
    ensures top { let made = F.move_of top.old.frame in
        top.new ≡ moved top.old (F.left top.old.frame (value_of bus.old made)) made }
    ensures comes { ComesIn (hung (vec_len rack.old) bus.old) (F.move_of top.old.frame) stepped.new.received }
    ensures chip { bus.new ≡ chip_after (hung (vec_len rack.old) bus.old) (F.move_of top.old.frame) stepped.new.received }
    ensures step { let made = F.move_of top.old.frame in
        let value = value_of bus.old made in
        stepped.new ≡ step_of made value stepped.new.received (F.gave top.old.frame value) }
    ensures count { vec_len rack.new ≡ vec_len rack.old }
    ensures calls { CallsRight (hung (vec_len rack.old) bus.old) stepped.new.made stepped.new.received (map (λ d. line d) rack.old.items) (map (λ d. line d) rack.new.items) }
{
    let applied = bus.apply(&stepped.made, rack);
    stepped.value = applied.value;
    stepped.received = applied.received;
    top.noted = matches!(stepped.made, Move::Note(_));
    stepped.event = top.frame.took_into(stepped.value, &mut stepped.ended);
}

/// Begins a call where an earlier frame stood.
fn write_call<M: Module>(driver: &M, call: &M::Call, tag: Tag, place: &mut Under<M::Frame>)
    ensures { place.new ≡ beginning ((M.spec driver.now).frame_of call.now) tag }
{
    driver.frame_into(call, &mut place.frame);
    place.tag = tag;
    place.noted = false;
}

/// Begins the handler of a line where an earlier frame stood.
fn write_handler<M: Module>(driver: &M, line: u32, tag: Tag, place: &mut Under<M::Frame>)
    requires { is_some ((M.spec driver.now).handler_of line) ≡ true }
    ensures frame { (M.spec driver.now).handler_of line ≡ Some place.new.frame }
    ensures begins { place.new ≡ beginning place.new.frame tag }
{
    driver.handler_into(line, &mut place.frame);
    place.tag = tag;
    place.noted = false;
}

impl<M: Module> Stack<M> {
    /// An empty stack. It takes the room of eight frames, and no later call takes memory.
    pub fn new(alloc: Global) -> Result<Stack<M>, NoMemory>
        ensures empty { IfOk result (λ s. s ≡ kept_empty) }
        ensures stands { (driver : M) (first : Chip) → (M.spec driver).fits →
            IsFirst first → (M.spec driver).wired first →
            IfOk result (λ s. Stands (M.spec driver) first first s.frames []) }
    {
        let places = Vec::with_capacity(alloc, MOST_FRAMES as usize).map_err(|_| NoMemory)?;
        Ok(Stack {
            places,
            count: 0,
            steps: 0,
        })
    }

    /// The number of frames.
    pub fn depth(&self) -> u32
        ensures { result ≡ length self.now.frames }
    {
        self.count as u32
    }

    /// Looks up the move that the top frame makes next, and writes it to the step that will be made.
    #[inline(always)]
    pub fn look(&self, stepped: &mut Stepped)
        ensures looked { IsLooked M.Frame.move_of self.now.frames stepped.new.made }
        ensures rest { stepped.new ≡ record stepped.old { made = stepped.new.made } }
    {
        if self.count > 0 {
            stepped.made = self.places[self.count - 1].frame.next();
        }
    }

    /// The number of steps that were made.
    pub fn steps(&self) -> u32
        ensures { result ≡ self.now.steps }
    {
        self.steps
    }

    /// Drops all frames, and answers how many they were.
    pub fn clear(&mut self) -> u32
        ensures dropped { result ≡ length self.old.frames }
        ensures left { self.new ≡ record self.old { frames = [] } }
    {
        let dropped = self.depth();
        self.count = 0;
        dropped
    }

    /// The frames as they lie, the oldest first.
    fn lying(&self) -> &[Under<M::Frame>]
        ensures { reverse result.now ≡ self.now.frames }
    {
        &self.places[..self.count]
    }

    /// Whether reentry allows a call.
    fn may_reenter(&self, class: &Class) -> bool
        ensures { result ≡ may_reenter class.now (tags_under self.now.frames) }
    {
        none_blocks(class, self.lying())
    }

    /// Whether a call of this level may begin over the top frame.
    fn call_level_allows(&self, level: u32) -> bool
        ensures { result ≡ call_level_allows (tags_under self.now.frames) (top_is_noted self.now.frames) level }
    {
        match self.lying().last() {
            None => true,
            Some(top) => top.tag.level < level || top.noted && level == top.tag.level,
        }
    }

    /// Whether the handler of a line of this level may begin over the top frame.
    fn line_level_allows(&self, level: u32) -> bool
        ensures { result ≡ line_level_allows (tags_under self.now.frames) level }
    {
        match self.lying().last() {
            None => true,
            Some(top) => top.tag.level < level,
        }
    }

    fn is_full(&self) -> bool
        ensures tags { result ≡ is_full (tags_under self.now.frames) }
        ensures room { OnFalse result (length self.now.frames < 8) }
    {
        self.depth() >= MOST_FRAMES
    }

    /// The first cause that holds a call, if there is one.
    pub(crate) fn call_held(&self, is_masked: bool, class: &Class, level: u32) -> Result<(), Held>
        ensures cause { cause_of result ≡ call_cause is_masked (tags_under self.now.frames) (top_is_noted self.now.frames)
            class.now level }
        ensures room { OnOk result (length self.now.frames < 8) }
    {
        if is_masked {
            return Err(Held::Masked);
        }
        if !self.call_level_allows(level) {
            return Err(Held::Level);
        }
        if !self.may_reenter(class) {
            return Err(Held::Reentry);
        }
        if self.is_full() {
            return Err(Held::Full);
        }
        Ok(())
    }

    /// The first cause that holds the handler of a line, if there is one.
    pub(crate) fn line_held(
        &self,
        is_masked: bool,
        level: u32,
        is_pending: bool,
    ) -> Result<(), Held>
        ensures cause { cause_of result ≡ line_cause is_masked (tags_under self.now.frames) level is_pending }
        ensures room { OnOk result (length self.now.frames < 8) }
        ensures due { OnOk result (is_pending ≡ true) }
    {
        if is_masked {
            return Err(Held::Masked);
        }
        if !self.line_level_allows(level) {
            return Err(Held::Level);
        }
        if !is_pending {
            return Err(Held::Idle);
        }
        if self.is_full() {
            return Err(Held::Full);
        }
        Ok(())
    }

    /// Whether a call under way reads the source array of a serial channel.
    pub(crate) fn is_read(&self, channel: u32) -> bool
        ensures { result ≡ is_read channel self.now.frames }
    {
        one_reads(channel, self.lying())
    }

    /// Puts a frame on.
    pub(crate) fn put(&mut self, frame: M::Frame, tag: Tag)
        requires { length self.old.frames < 8 }
        ensures { self.new ≡ record self.old { frames = beginning frame tag ∷ self.old.frames } }
    {
        let under = Under {
            frame,
            tag,
            noted: false,
        };
        if self.count < self.places.len() {
            self.places[self.count] = under;
        } else {
            self.places.push_reserved(under);
        }
        self.count += 1;
    }

    /// Puts the frame of a call on. It is made where an earlier frame stood, if one did.
    pub(crate) fn put_call(&mut self, driver: &M, call: &M::Call, tag: Tag)
        requires { length self.old.frames < 8 }
        ensures { let frame = (M.spec driver.now).frame_of call.now in
            self.new ≡ record self.old { frames = beginning frame tag ∷ self.old.frames } }
    {
        if self.count < self.places.len() {
            write_call(driver, call, tag, &mut self.places[self.count]);
            self.count += 1;
        } else {
            self.put_first(driver, call, tag);
        }
    }

    /// Puts the frame of a call on where none stood yet.
    fn put_first(&mut self, driver: &M, call: &M::Call, tag: Tag)
        requires { length self.old.frames < 8 }
        ensures { let frame = (M.spec driver.now).frame_of call.now in
            self.new ≡ record self.old { frames = beginning frame tag ∷ self.old.frames } }
    {
        self.put(driver.frame(call), tag);
    }

    /// Puts the frame of the handler of a line on. It is made where an earlier frame stood, if one did.
    pub(crate) fn put_handler(&mut self, driver: &M, line: u32, tag: Tag)
        requires room { length self.old.frames < 8 }
        requires there { is_some ((M.spec driver.now).handler_of line) ≡ true }
        ensures { self.new ≡ handled ((M.spec driver.now).handler_of line) tag self.old }
    {
        if self.count < self.places.len() {
            write_handler(driver, line, tag, &mut self.places[self.count]);
            self.count += 1;
        } else {
            self.put_first_handler(driver, line, tag);
        }
    }

    /// Puts the frame of the handler of a line on where none stood yet.
    fn put_first_handler(&mut self, driver: &M, line: u32, tag: Tag)
        requires { length self.old.frames < 8 }
        ensures { self.new ≡ handled ((M.spec driver.now).handler_of line) tag self.old }
    {
        if let Some(frame) = driver.handler(line) {
            self.put(frame, tag);
        }
    }

    /// Lets the top frame make the move that was looked up and take the value, where it stands. It is taken off where it ended.
    #[inline(always)]
    pub(crate) fn step_top(
        &mut self,
        bus: &mut Bus,
        rack: &mut Vec<Box<dyn SerialDevice>>,
        stepped: &mut Stepped,
    ) -> Result<(), Held>
        requires few { self.old.steps < 4294967295 }
        requires there { CanStep M.Frame.move_of self.old.frames }
        requires free { stepped.old.ended ≡ None }
        requires looked { IsLooked M.Frame.move_of self.old.frames stepped.old.made }
        ensures step { TakesStep M.Frame.move_of M.Frame.left M.Frame.gave
            self.old.frames self.old.steps (hung_for self.old.frames (vec_len rack.old) bus.old) self.new bus.new (written_by result stepped.new) }
        ensures count { vec_len rack.new ≡ vec_len rack.old }
        ensures calls { StepCalls (hung (vec_len rack.old) bus.old) (written_by result stepped.new) (map (λ d. line d) rack.old.items) (map (λ d. line d) rack.new.items) }
    {
        let count = self.count;
        if count == 0 {
            return Err(Held::Empty);
        }
        move_frame(&mut self.places[count - 1], bus, rack, stepped);
        self.steps += 1;
        if stepped.ended.is_some() {
            self.count = count - 1;
        }
        Ok(())
    }
}
