ghost use Rattle.std.specs.Option.{option_eq};
ghost use Rattle.std.specs.Prelude.{◌≡◌, ◌≤◌, Some, length, nat_eq};
ghost use Rattle.std.specs.Bool.{OnTrue};
ghost use Rattle.run_model.specs.World.{World};
ghost use Rattle.audit_base.specs.Outside.{IsWorld};
ghost use Rattle.audit_frames.specs.Decides.{Decides};
ghost use Rattle.report_auditor.specs.Auditing.{HasTime};

use crate::seen::Seen;
use audit_base::Outside;
use audit_frames::Frames;
use audit_subject::Origin;
use audit_whole::Whole;
use bench_report::Tally;
use chip_model::Bus;
use std::alloc::Global;
use std::marker::Model;

/// How many happenings are told at most, and how many ticks of either time go by, before a last one of 32 bits. A report that
/// fits an input has fewer of both.
const MOST_TOLD: u32 = 0xffff_fffe;

const MOST_TICKS: u64 = 1 << 62;

/// A moment of a run, as its report tells it: the chip, the machines, what stands outside, and the frames under way.
#[derive(Drop)]
pub struct Auditor<P: Whole> {
    pub alloc: Global,
    pub bus: Bus,
    pub parts: P,
    pub outside: Outside,
    // How many serial devices there are.
    pub devices: usize,
    pub frames: Frames,
    // What each frame was begun for, the newest first.
    pub origins: Vec<Origin<P::Call>>,
    // What the lines so far count.
    pub tally: Tally,
    // What is known of the moment.
    pub seen: Seen,
}

impl<P: Whole> Model for Auditor<P> {
    ghost use Rattle.std.specs.Prelude.{map};
    ghost use Rattle.audit_subject.specs.Origins.{origin_of};
    ghost use Rattle.report_auditor.specs.Auditing.{Auditing};

    ghost Value = { Auditing P P.Call };

    ghost view = { λ a. record { chip = a.bus; parts = a.parts; outside = a.outside; devices = a.devices; frames = a.frames; origins = map origin_of a.origins.items; tally = a.tally; seen = a.seen } };
}

/// Whether the same is left of a time, where it runs.
pub(crate) fn same_left(one: Option<u64>, other: Option<u64>) -> bool
    ensures { result ≡ option_eq nat_eq one other }
{
    one == other
}

impl<P: Whole> Auditor<P> {
    /// How many frames are under way.
    pub fn depth(&self) -> u32
        requires few { length self.now.frames ≤ 8 }
        ensures { result ≡ length self.now.frames }
    {
        self.frames.depth() as u32
    }

    /// Whether the watchdog's time has ended, so that nothing but its reset may come.
    pub fn is_over(&self) -> bool
        ensures { (w : World) (s : P.State) → IsWorld self.now.outside w → P.stands self.now.parts s →
            Decides result ((P.member (P.table self.now.parts)).machine.expires w s ≡ Some 0) }
    {
        same_left(self.parts.expires(&self.outside), Some(0))
    }

    /// Whether one more happening can be told, and the times have room for ticks of 32 bits.
    pub fn has_time(&self) -> bool
        ensures { OnTrue result (HasTime self.now.outside) }
    {
        if MOST_TOLD <= self.outside.told {
            return false;
        }
        if MOST_TICKS <= self.outside.osc {
            return false;
        }
        self.outside.time < MOST_TICKS
    }
}
