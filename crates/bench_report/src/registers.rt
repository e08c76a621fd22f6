ghost use Rattle.std.specs.Prelude.{◌≡◌, Some};
ghost use Rattle.bench_report.specs.Registers as spec;

use mcal_base::Reg;
use std::fmt;

/// What a register's name is put together from. A letter isn't a text, since the proof of a function grows with the
/// square of how many texts stand in it.
#[derive(Clone, Copy)]
enum Parts {
    /// A name without a number.
    Plain(&'static str),
    /// Letters and a number.
    Ending(&'static str, u32),
    /// A letter, a number and letters.
    Numbered(char, u32, &'static str),
    /// A letter and a number, letters and a number.
    Placed(char, u8, &'static str, u8),
}

/// The parts of a register's name.
fn parts_of(reg: Reg) -> Parts
    ensures { spec.parts_text result ≡ spec.register_text reg }
{
    match reg {
        Reg::EnableSet => Parts::Plain("IE.SET"),
        Reg::EnableClear => Parts::Plain("IE.CLR"),
        Reg::TimerTarget(channel) => Parts::Numbered('T', channel, ".TARGET"),
        Reg::TimerPrescaler(channel) => Parts::Numbered('T', channel, ".PRE"),
        Reg::TimerOneShot => Parts::Plain("T.ONESHOT"),
        Reg::TimerGateSet => Parts::Plain("T.GATESET"),
        Reg::TimerGateClear => Parts::Plain("T.GATECLR"),
        Reg::TimerRun => Parts::Plain("T.RUN"),
        Reg::TimerFlags => Parts::Plain("T.FLAGS"),
        Reg::TimerZero => Parts::Plain("T.ZERO"),
        Reg::TimerLow(channel) => Parts::Numbered('T', channel, ".LOW"),
        Reg::TimerHigh(channel) => Parts::Numbered('T', channel, ".HIGH"),
        Reg::PulsePeriod(channel) => Parts::Numbered('P', channel, ".PERIOD"),
        Reg::PulseDuty(channel) => Parts::Numbered('P', channel, ".DUTY"),
        Reg::PulsePolarity(channel) => Parts::Numbered('P', channel, ".POL"),
        Reg::PulseCommit(channel) => Parts::Numbered('P', channel, ".COMMIT"),
        Reg::PulseIdle(channel) => Parts::Numbered('P', channel, ".IDLE"),
        Reg::PulseOut(channel) => Parts::Numbered('P', channel, ".OUT"),
        Reg::PulseEdges => Parts::Plain("P.EDGES"),
        Reg::PulseFlags => Parts::Plain("P.FLAGS"),
        Reg::CaptureCondition(channel) => Parts::Numbered('C', channel, ".COND"),
        Reg::CaptureMode(channel) => Parts::Numbered('C', channel, ".MODE"),
        Reg::CaptureGateSet => Parts::Plain("C.GATESET"),
        Reg::CaptureGateClear => Parts::Plain("C.GATECLR"),
        Reg::CaptureCountLow(channel) => Parts::Numbered('C', channel, ".COUNTLOW"),
        Reg::CaptureCountHigh(channel) => Parts::Numbered('C', channel, ".COUNTHIGH"),
        Reg::CaptureZero(channel) => Parts::Numbered('C', channel, ".ZERO"),
        Reg::CaptureTimeLow(channel) => Parts::Numbered('C', channel, ".TIMELOW"),
        Reg::CaptureTimeHigh(channel) => Parts::Numbered('C', channel, ".TIMEHIGH"),
        Reg::CaptureInfo(channel) => Parts::Numbered('C', channel, ".INFO"),
        Reg::CapturePop(channel) => Parts::Numbered('C', channel, ".POP"),
        Reg::CaptureFlush(channel) => Parts::Numbered('C', channel, ".FLUSH"),
        Reg::ConverterList(unit, place) => Parts::Placed('A', unit, ".LIST", place),
        Reg::ConverterGo(unit) => Parts::Numbered('A', unit, ".GO"),
        Reg::ConverterState(unit) => Parts::Numbered('A', unit, ".STATE"),
        Reg::ConverterResult(unit, place) => Parts::Placed('A', unit, ".RESULT", place),
        Reg::ConverterDone(unit) => Parts::Numbered('A', unit, ".DONE"),
        Reg::ConverterAbort(unit) => Parts::Numbered('A', unit, ".ABORT"),
        Reg::ConverterAck(unit) => Parts::Numbered('A', unit, ".ACK"),
        Reg::TriggerSet => Parts::Plain("A.TRIGSET"),
        Reg::TriggerClear => Parts::Plain("A.TRIGCLR"),
        Reg::TriggerFlags => Parts::Plain("A.TRIGFLAGS"),
        Reg::SerialSelect(unit) => Parts::Numbered('S', unit, ".SELECT"),
        Reg::SerialWidth(unit) => Parts::Numbered('S', unit, ".WIDTH"),
        Reg::SerialData(unit) => Parts::Numbered('S', unit, ".DATA"),
        Reg::SerialReceived(unit) => Parts::Numbered('S', unit, ".RX"),
        Reg::SerialState(unit) => Parts::Numbered('S', unit, ".STATE"),
        Reg::SerialWait(unit) => Parts::Numbered('S', unit, ".WAIT"),
        Reg::SerialAck(unit) => Parts::Numbered('S', unit, ".ACK"),
        Reg::PinDirectionSet(half) => Parts::Ending("D.DIRSET", half),
        Reg::PinDirectionClear(half) => Parts::Ending("D.DIRCLR", half),
        Reg::PinOutSet(half) => Parts::Ending("D.OUTSET", half),
        Reg::PinOutClear(half) => Parts::Ending("D.OUTCLR", half),
        Reg::PinMode(pin) => Parts::Numbered('D', pin, ".MODE"),
        Reg::PortPut(port) => Parts::Numbered('Q', port, ".PUT"),
        Reg::PortLevels(port) => Parts::Numbered('Q', port, ".IN"),
        Reg::PinFlip(pin) => Parts::Numbered('F', pin, ".FLIP"),
        Reg::ClockPll => Parts::Plain("M.PLL"),
        Reg::ClockLock => Parts::Plain("M.LOCK"),
        Reg::ClockRate => Parts::Plain("M.RATE"),
        Reg::ResetReason => Parts::Plain("M.REASON"),
        Reg::ResetRequest => Parts::Plain("M.RESET"),
        Reg::WatchdogLoad => Parts::Plain("W.LOAD"),
        Reg::Ram(word) => Parts::Ending("R", word),
    }
}

/// A register by the name that the chip gives it.
#[derive(Clone, Copy)]
pub struct RegisterName(pub Reg);

impl fmt::Display for RegisterName {
    ghost output = { λ r. Some (spec.register_text r.0) };

    fn fmt<W: fmt::Write>(&self, f: &mut fmt::Formatter<W>) -> fmt::Result {
        match parts_of(self.0) {
            Parts::Plain(name) => f.write_str(name),
            Parts::Ending(letters, number) => write!(f, "{letters}{number}"),
            Parts::Numbered(letter, number, name) => write!(f, "{letter}{number}{name}"),
            Parts::Placed(letter, unit, name, place) => write!(f, "{letter}{unit}{name}{place}"),
        }
    }
}
