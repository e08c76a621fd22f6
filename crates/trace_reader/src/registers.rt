ghost use Rattle.std.specs.Prelude.{◌≡◌, map, option_map};
ghost use Rattle.std.specs.List.{find};
ghost use Rattle.trace_reader.specs.Registers as spec;

use mcal_base::Reg;

/// A register by what its name is put together from. A letter isn't a text, since the proof of a function grows with the
/// square of how many texts stand in it.
#[derive(Clone, Copy)]
enum Row {
    /// Letters before a number, or alone, and the register.
    Letters(&'static str, Reg),
    /// A letter before a number, the letters after it, and the register.
    Named(u8, &'static str, Reg),
}

impl Row {
    /// Whether these letters stand before its number and after it.
    fn has(&self, letter: &[u8], name: &[u8]) -> bool
        ensures { result ≡ spec.is_spelled letter.now name.now (spec.row_of self.now) }
    {
        match self {
            Row::Letters(own, _) => "".as_bytes() == name && own.as_bytes() == letter,
            Row::Named(own, own_name, _) => {
                let own: &[u8] = &[*own];
                own_name.as_bytes() == name && own == letter
            }
        }
    }

    /// Its register.
    fn register(self) -> Reg
        ensures { result ≡ (spec.row_of self).reg }
    {
        match self {
            Row::Letters(_, register) | Row::Named(_, _, register) => register,
        }
    }
}

/// The first row with these letters.
fn found(rows: &[Row], letter: &[u8], name: &[u8]) -> Option<Row>
    ensures { option_map spec.row_of result ≡ find (spec.is_spelled letter.now name.now) (map spec.row_of rows.now) }
{
    for row in rows {
        if row.has(letter, name) {
            return Some(*row);
        }
    }
    None
}

/// The first of some registers with these letters.
fn chosen(rows: &[Row], letter: &[u8], name: &[u8]) -> Option<Reg>
    ensures { result ≡ spec.chosen (map spec.row_of rows.now) letter.now name.now }
{
    match found(rows, letter, name) {
        Some(row) => Some(row.register()),
        None => None,
    }
}

/// A register of the enable bits or of a timer, by these letters.
fn timer(letter: &[u8], number: u32, name: &[u8]) -> Option<Reg>
    ensures { result ≡ spec.chosen (spec.timers number) letter.now name.now }
{
    let rows = [
        Row::Letters("IE.SET", Reg::EnableSet),
        Row::Letters("IE.CLR", Reg::EnableClear),
        Row::Named(b'T', ".TARGET", Reg::TimerTarget(number)),
        Row::Named(b'T', ".PRE", Reg::TimerPrescaler(number)),
        Row::Letters("T.ONESHOT", Reg::TimerOneShot),
        Row::Letters("T.GATESET", Reg::TimerGateSet),
        Row::Letters("T.GATECLR", Reg::TimerGateClear),
        Row::Letters("T.RUN", Reg::TimerRun),
        Row::Letters("T.FLAGS", Reg::TimerFlags),
        Row::Letters("T.ZERO", Reg::TimerZero),
        Row::Named(b'T', ".LOW", Reg::TimerLow(number)),
        Row::Named(b'T', ".HIGH", Reg::TimerHigh(number)),
    ];
    chosen(&rows, letter, name)
}

/// A register of a pulse output, by these letters.
fn pulse(letter: &[u8], number: u32, name: &[u8]) -> Option<Reg>
    ensures { result ≡ spec.chosen (spec.pulses number) letter.now name.now }
{
    let rows = [
        Row::Named(b'P', ".PERIOD", Reg::PulsePeriod(number)),
        Row::Named(b'P', ".DUTY", Reg::PulseDuty(number)),
        Row::Named(b'P', ".POL", Reg::PulsePolarity(number)),
        Row::Named(b'P', ".COMMIT", Reg::PulseCommit(number)),
        Row::Named(b'P', ".IDLE", Reg::PulseIdle(number)),
        Row::Named(b'P', ".OUT", Reg::PulseOut(number)),
        Row::Letters("P.EDGES", Reg::PulseEdges),
        Row::Letters("P.FLAGS", Reg::PulseFlags),
    ];
    chosen(&rows, letter, name)
}

/// A register of a capture channel, by these letters.
fn capture(letter: &[u8], number: u32, name: &[u8]) -> Option<Reg>
    ensures { result ≡ spec.chosen (spec.captures number) letter.now name.now }
{
    let rows = [
        Row::Named(b'C', ".COND", Reg::CaptureCondition(number)),
        Row::Named(b'C', ".MODE", Reg::CaptureMode(number)),
        Row::Letters("C.GATESET", Reg::CaptureGateSet),
        Row::Letters("C.GATECLR", Reg::CaptureGateClear),
        Row::Named(b'C', ".COUNTLOW", Reg::CaptureCountLow(number)),
        Row::Named(b'C', ".COUNTHIGH", Reg::CaptureCountHigh(number)),
        Row::Named(b'C', ".ZERO", Reg::CaptureZero(number)),
        Row::Named(b'C', ".TIMELOW", Reg::CaptureTimeLow(number)),
        Row::Named(b'C', ".TIMEHIGH", Reg::CaptureTimeHigh(number)),
        Row::Named(b'C', ".INFO", Reg::CaptureInfo(number)),
        Row::Named(b'C', ".POP", Reg::CapturePop(number)),
        Row::Named(b'C', ".FLUSH", Reg::CaptureFlush(number)),
    ];
    chosen(&rows, letter, name)
}

/// A register of a converter or of triggers, by these letters and numbers.
fn converter(letter: &[u8], first: u32, name: &[u8], second: u32) -> Option<Reg>
    ensures { result ≡ spec.chosen (spec.converters first second) letter.now name.now }
{
    let unit = first.min(255) as u8;
    let place = second.min(255) as u8;
    let rows = [
        Row::Named(b'A', ".LIST", Reg::ConverterList(unit, place)),
        Row::Named(b'A', ".GO", Reg::ConverterGo(first)),
        Row::Named(b'A', ".STATE", Reg::ConverterState(first)),
        Row::Named(b'A', ".RESULT", Reg::ConverterResult(unit, place)),
        Row::Named(b'A', ".DONE", Reg::ConverterDone(first)),
        Row::Named(b'A', ".ABORT", Reg::ConverterAbort(first)),
        Row::Named(b'A', ".ACK", Reg::ConverterAck(first)),
        Row::Letters("A.TRIGSET", Reg::TriggerSet),
        Row::Letters("A.TRIGCLR", Reg::TriggerClear),
        Row::Letters("A.TRIGFLAGS", Reg::TriggerFlags),
    ];
    chosen(&rows, letter, name)
}

/// A register of a serial unit, by these letters.
fn serial(letter: &[u8], number: u32, name: &[u8]) -> Option<Reg>
    ensures { result ≡ spec.chosen (spec.serials number) letter.now name.now }
{
    let rows = [
        Row::Named(b'S', ".SELECT", Reg::SerialSelect(number)),
        Row::Named(b'S', ".WIDTH", Reg::SerialWidth(number)),
        Row::Named(b'S', ".DATA", Reg::SerialData(number)),
        Row::Named(b'S', ".RX", Reg::SerialReceived(number)),
        Row::Named(b'S', ".STATE", Reg::SerialState(number)),
        Row::Named(b'S', ".WAIT", Reg::SerialWait(number)),
        Row::Named(b'S', ".ACK", Reg::SerialAck(number)),
    ];
    chosen(&rows, letter, name)
}

/// A register of the pins, by these letters.
fn pin(letter: &[u8], number: u32, name: &[u8]) -> Option<Reg>
    ensures { result ≡ spec.chosen (spec.pins number) letter.now name.now }
{
    let rows = [
        Row::Letters("D.DIRSET", Reg::PinDirectionSet(number)),
        Row::Letters("D.DIRCLR", Reg::PinDirectionClear(number)),
        Row::Letters("D.OUTSET", Reg::PinOutSet(number)),
        Row::Letters("D.OUTCLR", Reg::PinOutClear(number)),
        Row::Named(b'D', ".MODE", Reg::PinMode(number)),
        Row::Named(b'Q', ".PUT", Reg::PortPut(number)),
        Row::Named(b'Q', ".IN", Reg::PortLevels(number)),
        Row::Named(b'F', ".FLIP", Reg::PinFlip(number)),
    ];
    chosen(&rows, letter, name)
}

/// A register of the clock, of resets, of the watchdog or of RAM, by these letters.
fn clock(letter: &[u8], number: u32, name: &[u8]) -> Option<Reg>
    ensures { result ≡ spec.chosen (spec.clocks number) letter.now name.now }
{
    let rows = [
        Row::Letters("M.PLL", Reg::ClockPll),
        Row::Letters("M.LOCK", Reg::ClockLock),
        Row::Letters("M.RATE", Reg::ClockRate),
        Row::Letters("M.REASON", Reg::ResetReason),
        Row::Letters("M.RESET", Reg::ResetRequest),
        Row::Letters("W.LOAD", Reg::WatchdogLoad),
        Row::Letters("R", Reg::Ram(number)),
    ];
    chosen(&rows, letter, name)
}

/// The register with these letters and numbers.
pub(crate) fn register_of(letter: &[u8], first: u32, name: &[u8], second: u32) -> Option<Reg>
    ensures { result ≡ spec.chosen (spec.rows first second) letter.now name.now }
{
    timer(letter, first, name)
        .or(pulse(letter, first, name))
        .or(capture(letter, first, name))
        .or(converter(letter, first, name, second))
        .or(serial(letter, first, name))
        .or(pin(letter, first, name))
        .or(clock(letter, first, name))
}
