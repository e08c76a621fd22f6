ghost use Rattle.std.specs.Prelude.{◌≡◌};
ghost use Rattle.std.specs.Bool.{OnTrue};
ghost use Rattle.mcal_base.specs.Reach.{CanApply};
ghost use Rattle.mcal_base.specs.There.{is_there, names_there};

use crate::WORDS;
use crate::moves::Move;
use crate::register::Reg;

impl Reg {
    /// Whether the chip has the register of this number: 8 channels of a kind, 2 units, 64 pins, 512 RAM words.
    pub fn is_there(&self) -> bool
        ensures { result ≡ is_there self.now }
    {
        match *self {
            Reg::TimerTarget(channel)
            | Reg::TimerPrescaler(channel)
            | Reg::TimerLow(channel)
            | Reg::TimerHigh(channel)
            | Reg::PulsePeriod(channel)
            | Reg::PulseDuty(channel)
            | Reg::PulsePolarity(channel)
            | Reg::PulseCommit(channel)
            | Reg::PulseIdle(channel)
            | Reg::PulseOut(channel)
            | Reg::CaptureCondition(channel)
            | Reg::CaptureMode(channel)
            | Reg::CaptureCountLow(channel)
            | Reg::CaptureCountHigh(channel)
            | Reg::CaptureZero(channel)
            | Reg::CaptureTimeLow(channel)
            | Reg::CaptureTimeHigh(channel)
            | Reg::CaptureInfo(channel)
            | Reg::CapturePop(channel)
            | Reg::CaptureFlush(channel) => channel < 8,
            Reg::ConverterList(unit, place) => unit < 2 && place < 8,
            Reg::ConverterResult(unit, place) => unit < 2 && place < 32,
            Reg::ConverterGo(unit)
            | Reg::ConverterState(unit)
            | Reg::ConverterDone(unit)
            | Reg::ConverterAbort(unit)
            | Reg::ConverterAck(unit)
            | Reg::SerialSelect(unit)
            | Reg::SerialWidth(unit)
            | Reg::SerialData(unit)
            | Reg::SerialReceived(unit)
            | Reg::SerialState(unit)
            | Reg::SerialWait(unit)
            | Reg::SerialAck(unit) => unit < 2,
            Reg::PinDirectionSet(half)
            | Reg::PinDirectionClear(half)
            | Reg::PinOutSet(half)
            | Reg::PinOutClear(half) => half < 2,
            Reg::PinMode(pin) | Reg::PinFlip(pin) => pin < 64,
            Reg::PortPut(port) | Reg::PortLevels(port) => port < 8,
            Reg::Ram(word) => word < 512,
            Reg::EnableSet
            | Reg::EnableClear
            | Reg::TimerOneShot
            | Reg::TimerGateSet
            | Reg::TimerGateClear
            | Reg::TimerRun
            | Reg::TimerFlags
            | Reg::TimerZero
            | Reg::PulseEdges
            | Reg::PulseFlags
            | Reg::CaptureGateSet
            | Reg::CaptureGateClear
            | Reg::TriggerSet
            | Reg::TriggerClear
            | Reg::TriggerFlags
            | Reg::ClockPll
            | Reg::ClockLock
            | Reg::ClockRate
            | Reg::ResetReason
            | Reg::ResetRequest
            | Reg::WatchdogLoad => true,
        }
    }
}

impl Move {
    /// Whether the register or the driver word that the move names is there.
    pub fn is_there(&self) -> bool
        ensures is { result ≡ names_there self.now }
        ensures can { OnTrue result (CanApply self.now) }
    {
        match *self {
            Move::Read(reg) | Move::Write(reg, _) => reg.is_there(),
            Move::Load(number) | Move::Store(number, _) => number < WORDS,
            _ => true,
        }
    }
}
