ghost use Rattle.std.specs.Prelude.{◌≡◌, OnOk};
ghost use Rattle.trace_reader.specs.Reading.{Ends};
ghost use Rattle.trace_forms.specs.kinds.Sums.{sum_up};
ghost use Rattle.trace_drawing.specs.signs.Drawing as spec;

use crate::signs::moments::Moment;
use bench_report::Purpose;
use mcal_base::{Move, Reason, Service};
use std::alloc::{AllocError, Global};
use std::marker::Model;
use trace_forms::kinds::{Asked, Ending, Frame, Sign, What};
use trace_reader::{Mark, Step, Told, TraceFault};

/// Whether a chip has the line that is served, if one is.
fn is_on_chip(mark: Option<Mark>) -> bool
    ensures { result ≡ spec.is_on_chip mark }
{
    match mark {
        Some(Mark::Serve(line)) => line < 32,
        _ => true,
    }
}

/// Whether a frame was begun for a call of a service.
fn is_call_of(service: Service, purpose: Purpose) -> bool
    ensures { result ≡ spec.is_call_of service purpose }
{
    match purpose {
        Purpose::Call(own) => own.text().as_bytes() == service.text().as_bytes(),
        Purpose::Handler(_) => false,
    }
}

/// Whether a frame was begun for the handler of a line.
fn is_handler_of(line: u32, purpose: Purpose) -> bool
    ensures { result ≡ spec.is_handler_of line purpose }
{
    match purpose {
        Purpose::Call(_) => false,
        Purpose::Handler(own) => own == line,
    }
}

/// The level of a call that is asked for.
fn level_of(asked: Asked) -> u32
    ensures { result ≡ spec.level_of asked }
{
    match asked {
        Asked::Frame(_, level, _) => level,
        _ => 0,
    }
}

/// The signs of a trace so far, and where it stands behind them.
#[derive(Drop)]
pub struct Drawing {
    signs: Vec<Sign>,
    frames: Vec<Frame>,
    steps: usize,
    ticks: u64,
    since: Option<usize>,
    fresh: bool,
}

impl Model for Drawing {
    ghost use Rattle.trace_drawing.specs.signs.Drawing as spec;

    ghost Value = { spec.Drawing };

    ghost view = { λ d. record {
      signs = d.signs.items;
      frames = d.frames.items;
      steps = d.steps;
      ticks = d.ticks;
      since = d.since;
      fresh = d.fresh;
    } };
}

impl Drawing {
    /// Nothing is drawn yet.
    fn blank(alloc: Global) -> Drawing
        ensures { result ≡ spec.blank }
    {
        Drawing {
            signs: Vec::new(alloc),
            frames: Vec::new(alloc),
            steps: 0,
            ticks: 0,
            since: None,
            fresh: false,
        }
    }

    /// The signs.
    pub fn signs(&self) -> &[Sign]
        ensures { result.now ≡ self.now.signs }
    {
        self.signs.as_slice()
    }

    /// How many steps were made.
    pub fn steps(&self) -> usize
        ensures { result ≡ self.now.steps }
    {
        self.steps
    }

    /// Adds a sign.
    fn put(&mut self, number: u32, what: What) -> Result<(), AllocError>
        ensures { OnOk result (self.new ≡ spec.put self.old number what) }
    {
        let sign = Sign {
            step: self.steps,
            number,
            depth: self.frames.len(),
            closed: self.since.is_some(),
            what,
        };
        self.signs.push(sign)?;
        Ok(())
    }

    /// Adds that a directive is obeyed, at its first line.
    fn turn(&mut self, moment: &Moment) -> Result<(), AllocError>
        ensures { OnOk result (self.new ≡ spec.turned self.old moment.now) }
    {
        if moment.first {
            self.put(moment.number, What::Turn(moment.asked))
        } else {
            Ok(())
        }
    }

    /// So many ticks pass: how many passed in all.
    fn pass(&mut self, ticks: u32) -> u64
        ensures all { result ≡ sum_up self.old.ticks ticks }
        ensures passed { self.new ≡ spec.with_ticks self.old ticks }
    {
        self.ticks = self.ticks.saturating_add(ticks as u64);
        self.ticks
    }

    /// Adds the ticks of a directive.
    fn tick(&mut self, moment: &Moment) -> Result<(), AllocError>
        ensures { OnOk result (self.new ≡ spec.ticked self.old moment.now) }
    {
        if moment.ticks == 0 {
            return Ok(());
        }
        let all = self.pass(moment.ticks);
        self.put(moment.number, What::Ticked(moment.ticks, all))
    }

    /// Adds the frame of a directive.
    fn begin(&mut self, moment: &Moment) -> Result<(), AllocError>
        ensures { OnOk result (self.new ≡ spec.begun self.old moment.now.number (spec.level_of moment.now.asked) moment.now.begins) }
    {
        let Some(purpose) = moment.begins else {
            return Ok(());
        };
        let frame = Frame {
            purpose,
            level: level_of(moment.asked),
            number: moment.number,
            depth: self.frames.len() + 1,
            from: self.steps,
        };
        self.frames.insert(0, frame)?;
        self.put(moment.number, What::Begins(frame))
    }

    /// Adds what the first line of a directive shows of it.
    fn enter(&mut self, moment: &Moment) -> Result<(), AllocError>
        ensures { OnOk result (self.new ≡ spec.entered self.old moment.now) }
    {
        self.turn(moment)?;
        self.tick(moment)?;
        self.begin(moment)
    }

    /// Adds that the mask is open, if it was closed.
    fn shut(&mut self, number: u32) -> Result<(), AllocError>
        ensures { OnOk result (self.new ≡ spec.shut self.old number) }
    {
        match self.since {
            Some(step) => {
                self.put(number, What::Window(step))?;
                self.since = None;
                Ok(())
            }
            None => Ok(()),
        }
    }

    /// Adds that the topmost frame is gone, if there is one.
    fn end(&mut self, number: u32, ending: Ending) -> Result<(), AllocError>
        ensures { OnOk result (self.new ≡ spec.ended self.old number ending) }
    {
        match self.frames.as_slice() {
            [frame, ..] => {
                let frame = *frame;
                self.put(number, What::Gone(frame, ending))?;
                self.frames.remove(0);
                Ok(())
            }
            [] => Ok(()),
        }
    }

    /// Adds that all frames are gone.
    fn end_all(&mut self, number: u32, ending: Ending) -> Result<(), AllocError>
        ensures { OnOk result (self.new ≡ spec.all_ended self.old number ending) }
    {
        while !self.frames.is_empty() {
            self.end(number, ending)?;
        }
        Ok(())
    }

    /// Closes the mask before the sign of a step that does.
    fn close(&mut self, made: Move)
        ensures { self.new ≡ spec.before_step self.old made }
    {
        if let Move::Mask = made {
            self.since = Some(self.since.unwrap_or(self.steps));
        }
    }

    /// Opens the mask behind a step that does.
    fn open(&mut self, number: u32, made: Move) -> Result<(), AllocError>
        ensures { OnOk result (self.new ≡ spec.behind_step self.old number made) }
    {
        match made {
            Move::Unmask => self.shut(number),
            _ => Ok(()),
        }
    }

    /// Adds a step.
    fn step(&mut self, number: u32, step: Step) -> Result<(), AllocError>
        ensures { OnOk result (self.new ≡ spec.stepped self.old number step) }
    {
        let fresh = self.fresh;
        self.close(step.made);
        self.put(number, What::Stepped(step, fresh))?;
        self.steps = self.steps.saturating_add(1);
        self.fresh = false;
        self.open(number, step.made)
    }

    /// Adds the wait of a step.
    fn wait(&mut self, number: u32, ticks: u32) -> Result<(), AllocError>
        ensures { OnOk result (self.new ≡ spec.told self.old number (Told.Waited ticks)) }
    {
        let all = self.pass(ticks);
        self.put(number, What::Waited(ticks, all))
    }

    /// Adds a reset.
    fn reset(&mut self, number: u32, reason: Reason, dropped: u32) -> Result<(), AllocError>
        ensures { OnOk result (self.new ≡ spec.told self.old number (Told.Reset reason dropped)) }
    {
        self.fresh = true;
        self.put(number, What::Reset(reason, dropped))?;
        self.end_all(number, Ending::Dropped)?;
        self.shut(number)
    }

    /// Adds what a line tells.
    fn tell(&mut self, number: u32, told: Told) -> Result<(), AllocError>
        ensures { OnOk result (self.new ≡ spec.told self.old number told) }
    {
        match told {
            Told::Held(cause) => {
                self.fresh = true;
                self.put(number, What::Held(cause))
            }
            Told::Step(step) => self.step(number, step),
            Told::Waited(ticks) => self.wait(number, ticks),
            Told::Noted(notice) => self.put(number, What::Noted(notice)),
            Told::Erred(error) => self.put(number, What::Erred(error)),
            Told::Returned(_, reply) => self.end(number, Ending::Returned(reply)),
            Told::Left(_) => self.end(number, Ending::Left),
            Told::Reset(reason, dropped) => self.reset(number, reason, dropped),
            Told::Shown => self.put(number, What::Shown),
            Told::Done => self.put(number, What::Done),
        }
    }

    /// The topmost frame, where it made a step.
    fn top(&self) -> Option<Purpose>
        ensures { result ≡ spec.top_of self.now.steps self.now.frames }
    {
        match self.frames.as_slice() {
            [frame, ..] if frame.from < self.steps => Some(frame.purpose),
            _ => None,
        }
    }

    /// Whether a step can stand here.
    fn fits_step(&self, step: Step) -> bool
        ensures { result ≡ spec.fits_frames self.now (Told.Step step) }
    {
        let depth = step.depth as usize;
        depth == self.frames.len() && depth > 0 && is_on_chip(step.mark)
    }

    /// Whether a line can tell this of the frames that are here.
    fn fits_frames(&self, told: Told) -> bool
        ensures { result ≡ spec.fits_frames self.now told }
    {
        match told {
            Told::Step(step) => self.fits_step(step),
            Told::Returned(service, _) => match self.top() {
                Some(purpose) => is_call_of(service, purpose),
                None => false,
            },
            Told::Left(line) => match self.top() {
                Some(purpose) => is_handler_of(line, purpose),
                None => false,
            },
            Told::Reset(_, dropped) => dropped as usize == self.frames.len(),
            _ => true,
        }
    }

    /// Whether a line can tell this here.
    fn fits(&self, told: Told) -> bool
        ensures { result ≡ spec.fits self.now told }
    {
        self.frames.len() <= 8 && self.fits_frames(told)
    }

    /// Adds what is under way where the trace ends.
    fn complete(&mut self) -> Result<(), AllocError>
        ensures { OnOk result (self.new ≡ spec.completed self.old) }
    {
        self.end_all(0, Ending::Open)?;
        self.shut(0)
    }
}

/// The signs of a trace; else the first line that can't stand where it does.
pub fn drawing_of(alloc: Global, moments: &[Moment]) -> Result<Drawing, TraceFault>
    ensures { Ends (λ d. d) result (spec.drawing_of moments.now) }
{
    let mut drawing = Drawing::blank(alloc);
    let mut place: usize = 0;
    let mut rest = moments;
    while let [moment, later @ ..] = rest {
        drawing.enter(moment)?;
        if !drawing.fits(moment.told) {
            return Err(TraceFault::Line(place + 1));
        }
        drawing.tell(moment.number, moment.told)?;
        place += 1;
        rest = later;
    }
    drawing.complete()?;
    Ok(drawing)
}
