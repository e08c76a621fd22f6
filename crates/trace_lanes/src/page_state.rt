ghost use Rattle.std.specs.Prelude.{◌≡◌, ◌<◌};
ghost use Rattle.trace_lanes.specs.PageState as spec;

use crate::board::MOST_PLACE;
use crate::rows::{ROWS, Row};
use bench_report::Purpose;
use irq_control::Held;
use mcal_base::{Move, Reg};
use trace_forms::kinds::{Asked, Frame, Sign, What, may_begin};
use trace_reader::Step;

/// A frame that was asked for waits: since which place, how many steps were made, and how many ticks passed.
#[derive(Clone, Copy)]
pub(crate) struct Wait {
    /// Since which place.
    pub(crate) x: usize,
    /// How many steps came before.
    pub(crate) step: usize,
    /// How many ticks had passed.
    pub(crate) ticks: u64,
}

/// A value of a row that stands since a place.
#[derive(Clone, Copy)]
pub(crate) struct Level {
    /// The row.
    pub(crate) row: Row,
    /// Since which place.
    pub(crate) x: usize,
    /// The value.
    pub(crate) value: u32,
    /// Whether the row had another value before.
    pub(crate) changed: bool,
    /// The sign that set it.
    pub(crate) sign: Sign,
}

/// A value that a sign sets in a row.
#[derive(Clone, Copy)]
pub(crate) struct Setting {
    /// The row.
    pub(crate) row: Row,
    /// The value.
    pub(crate) value: u32,
}

/// A place in a row.
#[derive(Clone, Copy)]
pub(crate) struct RowPoint {
    /// The row.
    pub(crate) row: Row,
    /// The place.
    pub(crate) x: usize,
}

/// Where a run stands on the page before a sign.
#[derive(Clone, Copy)]
pub(crate) struct PageState {
    /// The place of the sign.
    pub(crate) x: usize,
    /// How many plain steps were made in a row.
    pub(crate) plain: usize,
    /// How many ticks passed.
    pub(crate) ticks: u64,
    /// What the directive asks for.
    pub(crate) asked: Asked,
    /// Of each depth of frames, where the last one began.
    pub(crate) frames: [RowPoint; 9],
    /// Of each row, the frame that waits.
    pub(crate) waits: [Option<Wait>; ROWS],
    /// Where the mask was closed.
    pub(crate) shut: Option<RowPoint>,
    /// Of each row, the value that stands.
    pub(crate) levels: [Option<Level>; ROWS],
}

/// The row of the frames of a purpose, at the level of a call.
pub(crate) fn row_of(purpose: Purpose, level: u32) -> Row
    ensures { result ≡ spec.row_of purpose level }
{
    match purpose {
        Purpose::Call(_) => Row::Level(level),
        Purpose::Handler(line) => Row::Handler(line),
    }
}

/// Whether nothing but a move is seen of a step, and it leaves the mask.
fn is_plain(step: Step) -> bool
    ensures { result ≡ spec.is_plain step }
{
    match step.made {
        Move::Mask | Move::Unmask => false,
        _ => step.mark.is_none(),
    }
}

/// The value of a pulse output that a step writes or reads.
fn pulse_of(made: Move, value: u32) -> Option<Setting>
    ensures { result ≡ spec.pulse_of made value }
{
    match made {
        Move::Write(Reg::PulsePeriod(output), period) => Some(Setting {
            row: Row::Period(output),
            value: period,
        }),
        Move::Write(Reg::PulseDuty(output), duty) => Some(Setting {
            row: Row::Duty(output),
            value: duty,
        }),
        Move::Read(Reg::PulseOut(output)) => Some(Setting {
            row: Row::Output(output),
            value,
        }),
        _ => None,
    }
}

/// The value that a sign sets in a row, if it does.
pub(crate) fn setting_of(what: What) -> Option<Setting>
    ensures { result ≡ spec.setting_of what }
{
    match what {
        What::Turn(Asked::Pin(pin, level)) => Some(Setting {
            row: Row::Pin(pin),
            value: if level { 1 } else { 0 },
        }),
        What::Turn(Asked::Analog(input, value)) => Some(Setting {
            row: Row::Analog(input),
            value,
        }),
        What::Stepped(step, _) => pulse_of(step.made, step.value),
        _ => None,
    }
}

impl PageState {
    /// Where a run begins.
    pub(crate) fn first() -> PageState
        ensures { result ≡ spec.first }
    {
        PageState {
            x: 130,
            plain: 0,
            ticks: 0,
            asked: Asked::Nothing,
            frames: [RowPoint {
                row: Row::Title,
                x: 130,
            }; 9],
            waits: [None; ROWS],
            shut: None,
            levels: [None; ROWS],
        }
    }

    /// How wide a sign is.
    pub(crate) fn breadth(&self, what: What) -> usize
        ensures { result ≡ spec.breadth self.now what }
    {
        match what {
            What::Stepped(step, _) => {
                if is_plain(step) && self.plain >= 12 {
                    1
                } else {
                    9
                }
            }
            What::Ticked(_, _) | What::Waited(_, _) => 54,
            _ => 0,
        }
    }

    /// Where the topmost of so many frames began.
    pub(crate) fn frame(&self, depth: usize) -> RowPoint
        ensures { result ≡ spec.frame_at self.now depth }
    {
        self.frames[depth.min(8)]
    }

    /// The frame that waits in a row, if one does.
    pub(crate) fn wait(&self, row: Row) -> Option<Wait>
        ensures { result ≡ spec.wait_in self.now row }
    {
        self.waits[row.slot()]
    }

    /// The value that stands in a row, if one does.
    pub(crate) fn level(&self, row: Row) -> Option<Level>
        ensures { result ≡ spec.level_in self.now row }
    {
        self.levels[row.slot()]
    }

    /// A frame begins: it is the last one of its depth, and waits no more.
    fn begin(&mut self, frame: Frame)
        ensures { self.new ≡ spec.begun self.old frame }
    {
        let row = row_of(frame.purpose, frame.level);
        self.frames[frame.depth.min(8)] = RowPoint { row, x: self.x };
        self.waits[row.slot()] = None;
    }

    /// A frame that was asked for waits, if it may begin later, and none does in its row.
    fn hold(&mut self, step: usize, cause: Held)
        ensures { self.new ≡ spec.held self.old step cause self.old.asked }
    {
        let Asked::Frame(purpose, level, _) = self.asked else {
            return;
        };
        let slot = row_of(purpose, level).slot();
        if may_begin(cause) && self.waits[slot].is_none() {
            self.waits[slot] = Some(Wait {
                x: self.x,
                step,
                ticks: self.ticks,
            });
        }
    }

    /// A move may close the mask.
    fn close(&mut self, depth: usize, made: Move)
        ensures { self.new ≡ spec.closed self.old depth made }
    {
        if let Move::Mask = made {
            let place = RowPoint {
                row: self.frame(depth).row,
                x: self.x,
            };
            self.shut = Some(self.shut.unwrap_or(place));
        }
    }

    /// A sign may set a value in a row.
    fn set(&mut self, sign: &Sign)
        ensures { self.new ≡ spec.set_in self.old sign.now (spec.setting_of sign.now.what) }
    {
        let Some(setting) = setting_of(sign.what) else {
            return;
        };
        let slot = setting.row.slot();
        let changed = match self.levels[slot] {
            Some(level) if level.value == setting.value => return,
            Some(_) => true,
            None => false,
        };
        self.levels[slot] = Some(Level {
            row: setting.row,
            x: self.x,
            value: setting.value,
            changed,
            sign: *sign,
        });
    }

    /// What a sign changes, beside the place.
    fn note(&mut self, sign: &Sign)
        ensures { self.new ≡ spec.noted self.old sign.now sign.now.what }
    {
        match sign.what {
            What::Turn(asked) => self.asked = asked,
            What::Ticked(_, all) | What::Waited(_, all) => self.ticks = all,
            What::Begins(frame) => self.begin(frame),
            What::Stepped(step, _) => self.close(sign.depth, step.made),
            What::Held(cause) => self.hold(sign.step, cause),
            What::Window(_) => self.shut = None,
            What::Reset(_, _) => self.waits = [None; ROWS],
            _ => {}
        }
    }

    /// The run goes on behind a sign.
    fn pass(&mut self, what: What)
        ensures { self.new ≡ spec.passed self.old what }
    {
        self.x = self.x.saturating_add(self.breadth(what)).min(MOST_PLACE);
        self.plain = match what {
            What::Stepped(step, _) if is_plain(step) => self.plain.saturating_add(1),
            _ => 0,
        };
    }

    /// The run goes on behind a sign that is drawn.
    #[tactic(auto, unfolding(crate::specs::PageState::behind))]
    pub(crate) fn advance(&mut self, sign: &Sign)
        ensures { self.new ≡ spec.behind self.old sign.now }
    {
        self.set(sign);
        self.note(sign);
        self.pass(sign.what);
    }
}
