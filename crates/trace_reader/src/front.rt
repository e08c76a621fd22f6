ghost use Rattle.std.specs.Prelude.{◌≡◌, ◌++◌, ◌<◌, IfSome, [], ◌∷◌, codes, decimal};
ghost use Rattle.trace_reader.specs.Scan as spec;

use mcal_base::Reg;

/// What is behind a word, where a text begins with it.
pub(crate) fn behind<'t>(text: &'t [u8], word: &str) -> Option<&'t [u8]>
    ensures { IfSome result (λ rest. text.now ≡ word.now ++ rest.now) }
{
    text.strip_prefix(word.as_bytes())
}

/// The number that further digits make of one, and what is behind them, where it has 32 bits.
fn more_digits(first: u64, text: &[u8]) -> Option<(u32, &[u8])>
    requires { (0 < first) × (first < 10) }
    ensures { IfSome result (λ p. spec.IsFirst (decimal first ++ text.now) p.0 p.1.now) }
{
    let mut number = first;
    let mut rest = text;
    while let [byte, behind @ ..] = rest {
        if !byte.is_ascii_digit() {
            break;
        }
        number = number * 10 + (*byte - b'0') as u64;
        if number > u32::MAX as u64 {
            return None;
        }
        rest = behind;
    }
    Some((number as u32, rest))
}

/// The number that a digit and what is behind it begin with, as it is printed, and what is behind that.
fn number_behind(digit: u8, text: &[u8]) -> Option<(u32, &[u8])>
    ensures { IfSome result (λ p. spec.IsFirst (digit ∷ text.now) p.0 p.1.now) }
{
    if digit == b'0' {
        return Some((0, text));
    }
    if digit.is_ascii_digit() {
        return more_digits((digit - b'0') as u64, text);
    }
    None
}

/// The number of 32 bits with which a text begins, as it is printed, and what is behind it.
pub(crate) fn first_number(text: &[u8]) -> Option<(u32, &[u8])>
    ensures { IfSome result (λ p. spec.IsFirst text.now p.0 p.1.now) }
{
    match text {
        [] => None,
        [digit, rest @ ..] => number_behind(*digit, rest),
    }
}

/// A name with which a register's text goes on, and the register.
#[derive(Clone, Copy)]
struct Named(&'static str, Reg);

/// The register of the first name with which a text begins, and what is behind that.
fn first_named<'t>(names: &[Named], text: &'t [u8]) -> Option<(Reg, &'t [u8])>
    ensures { IfSome result (λ p. spec.IsNamed names.now text.now p.0 p.1.now) }
{
    for name in names {
        if let Some(rest) = behind(text, name.0) {
            return Some((name.1, rest));
        }
    }
    None
}

/// What stands behind the `T` of a timer's register.
fn timer(text: &[u8]) -> Option<(Reg, &[u8])>
    ensures { IfSome result (λ p. spec.Spells (codes "T") text.now p.0 p.1.now) }
{
    match first_number(text) {
        Some((n, rest)) => first_named(
            &[
                Named(".LOW", Reg::TimerLow(n)),
                Named(".HIGH", Reg::TimerHigh(n)),
                Named(".TARGET", Reg::TimerTarget(n)),
                Named(".PRE", Reg::TimerPrescaler(n)),
            ],
            rest,
        ),
        None => first_named(
            &[
                Named(".RUN", Reg::TimerRun),
                Named(".FLAGS", Reg::TimerFlags),
                Named(".GATESET", Reg::TimerGateSet),
                Named(".GATECLR", Reg::TimerGateClear),
                Named(".ONESHOT", Reg::TimerOneShot),
                Named(".ZERO", Reg::TimerZero),
            ],
            text,
        ),
    }
}

/// What stands behind the `P` of a pulse output's register.
fn pulse(text: &[u8]) -> Option<(Reg, &[u8])>
    ensures { IfSome result (λ p. spec.Spells (codes "P") text.now p.0 p.1.now) }
{
    match first_number(text) {
        Some((n, rest)) => first_named(
            &[
                Named(".PERIOD", Reg::PulsePeriod(n)),
                Named(".DUTY", Reg::PulseDuty(n)),
                Named(".POL", Reg::PulsePolarity(n)),
                Named(".COMMIT", Reg::PulseCommit(n)),
                Named(".IDLE", Reg::PulseIdle(n)),
                Named(".OUT", Reg::PulseOut(n)),
            ],
            rest,
        ),
        None => first_named(
            &[
                Named(".EDGES", Reg::PulseEdges),
                Named(".FLAGS", Reg::PulseFlags),
            ],
            text,
        ),
    }
}

/// What stands behind the `C` of a capture channel's register.
fn capture(text: &[u8]) -> Option<(Reg, &[u8])>
    ensures { IfSome result (λ p. spec.Spells (codes "C") text.now p.0 p.1.now) }
{
    match first_number(text) {
        Some((n, rest)) => first_named(
            &[
                Named(".COND", Reg::CaptureCondition(n)),
                Named(".MODE", Reg::CaptureMode(n)),
                Named(".COUNTLOW", Reg::CaptureCountLow(n)),
                Named(".COUNTHIGH", Reg::CaptureCountHigh(n)),
                Named(".ZERO", Reg::CaptureZero(n)),
                Named(".TIMELOW", Reg::CaptureTimeLow(n)),
                Named(".TIMEHIGH", Reg::CaptureTimeHigh(n)),
                Named(".INFO", Reg::CaptureInfo(n)),
                Named(".POP", Reg::CapturePop(n)),
                Named(".FLUSH", Reg::CaptureFlush(n)),
            ],
            rest,
        ),
        None => first_named(
            &[
                Named(".GATESET", Reg::CaptureGateSet),
                Named(".GATECLR", Reg::CaptureGateClear),
            ],
            text,
        ),
    }
}

/// A place in a list or a result of a converter.
fn placed(text: &[u8]) -> Option<(u8, &[u8])>
    ensures text { IfSome result (λ p. text.now ≡ decimal p.0 ++ p.1.now) }
    ensures small { IfSome result (λ p. p.0 < 256) }
{
    match first_number(text) {
        Some((place, rest)) if place < 256 => Some((place as u8, rest)),
        _ => None,
    }
}

/// What stands behind the `A` and the number of a converter's result.
fn result_of(unit: u8, text: &[u8]) -> Option<(Reg, &[u8])>
    ensures { IfSome result (λ p. spec.Spells (codes "A" ++ decimal unit) text.now p.0 p.1.now) }
{
    let rest = behind(text, ".RESULT")?;
    let (place, rest) = placed(rest)?;
    Some((Reg::ConverterResult(unit, place), rest))
}

/// What stands behind the `A` and the number of a place in a converter's list.
fn list_of(unit: u8, text: &[u8]) -> Option<(Reg, &[u8])>
    ensures { IfSome result (λ p. spec.Spells (codes "A" ++ decimal unit) text.now p.0 p.1.now) }
{
    let rest = behind(text, ".LIST")?;
    let (place, rest) = placed(rest)?;
    Some((Reg::ConverterList(unit, place), rest))
}

/// What stands behind the `A` and the number of a converter's register that has a place.
fn placed_of(unit: u32, text: &[u8]) -> Option<(Reg, &[u8])>
    ensures { IfSome result (λ p. spec.Spells (codes "A" ++ decimal unit) text.now p.0 p.1.now) }
{
    if unit < 256 {
        result_of(unit as u8, text).or(list_of(unit as u8, text))
    } else {
        None
    }
}

/// What stands behind the `A` and the number of a converter's register.
fn converter_of(unit: u32, text: &[u8]) -> Option<(Reg, &[u8])>
    ensures { IfSome result (λ p. spec.Spells (codes "A" ++ decimal unit) text.now p.0 p.1.now) }
{
    match first_named(
        &[
            Named(".GO", Reg::ConverterGo(unit)),
            Named(".STATE", Reg::ConverterState(unit)),
            Named(".DONE", Reg::ConverterDone(unit)),
            Named(".ABORT", Reg::ConverterAbort(unit)),
            Named(".ACK", Reg::ConverterAck(unit)),
        ],
        text,
    ) {
        Some(found) => Some(found),
        None => placed_of(unit, text),
    }
}

/// What stands behind the `A` of a converter's register.
fn converter(text: &[u8]) -> Option<(Reg, &[u8])>
    ensures { IfSome result (λ p. spec.Spells (codes "A") text.now p.0 p.1.now) }
{
    match first_number(text) {
        Some((unit, rest)) => converter_of(unit, rest),
        None => first_named(
            &[
                Named(".TRIGSET", Reg::TriggerSet),
                Named(".TRIGCLR", Reg::TriggerClear),
                Named(".TRIGFLAGS", Reg::TriggerFlags),
            ],
            text,
        ),
    }
}

/// What stands behind the `S` of a serial unit's register.
fn serial(text: &[u8]) -> Option<(Reg, &[u8])>
    ensures { IfSome result (λ p. spec.Spells (codes "S") text.now p.0 p.1.now) }
{
    let (n, rest) = first_number(text)?;
    first_named(
        &[
            Named(".DATA", Reg::SerialData(n)),
            Named(".RX", Reg::SerialReceived(n)),
            Named(".WAIT", Reg::SerialWait(n)),
            Named(".STATE", Reg::SerialState(n)),
            Named(".ACK", Reg::SerialAck(n)),
            Named(".SELECT", Reg::SerialSelect(n)),
            Named(".WIDTH", Reg::SerialWidth(n)),
        ],
        rest,
    )
}

/// What stands behind the `D` of the register that raises pins of a half.
fn out_set(text: &[u8]) -> Option<(Reg, &[u8])>
    ensures { IfSome result (λ p. spec.Spells (codes "D") text.now p.0 p.1.now) }
{
    let rest = behind(text, ".OUTSET")?;
    let (half, rest) = first_number(rest)?;
    Some((Reg::PinOutSet(half), rest))
}

/// What stands behind the `D` of the register that lowers pins of a half.
fn out_clear(text: &[u8]) -> Option<(Reg, &[u8])>
    ensures { IfSome result (λ p. spec.Spells (codes "D") text.now p.0 p.1.now) }
{
    let rest = behind(text, ".OUTCLR")?;
    let (half, rest) = first_number(rest)?;
    Some((Reg::PinOutClear(half), rest))
}

/// What stands behind the `D` of the register that makes outputs of pins of a half.
fn direction_set(text: &[u8]) -> Option<(Reg, &[u8])>
    ensures { IfSome result (λ p. spec.Spells (codes "D") text.now p.0 p.1.now) }
{
    let rest = behind(text, ".DIRSET")?;
    let (half, rest) = first_number(rest)?;
    Some((Reg::PinDirectionSet(half), rest))
}

/// What stands behind the `D` of the register that makes inputs of pins of a half.
fn direction_clear(text: &[u8]) -> Option<(Reg, &[u8])>
    ensures { IfSome result (λ p. spec.Spells (codes "D") text.now p.0 p.1.now) }
{
    let rest = behind(text, ".DIRCLR")?;
    let (half, rest) = first_number(rest)?;
    Some((Reg::PinDirectionClear(half), rest))
}

/// What stands behind the `D` of a register of pins.
fn pin(text: &[u8]) -> Option<(Reg, &[u8])>
    ensures { IfSome result (λ p. spec.Spells (codes "D") text.now p.0 p.1.now) }
{
    match first_number(text) {
        Some((p, rest)) => first_named(&[Named(".MODE", Reg::PinMode(p))], rest),
        None => out_set(text)
            .or(out_clear(text))
            .or(direction_set(text))
            .or(direction_clear(text)),
    }
}

/// What stands behind the `Q` of a port's register.
fn port(text: &[u8]) -> Option<(Reg, &[u8])>
    ensures { IfSome result (λ p. spec.Spells (codes "Q") text.now p.0 p.1.now) }
{
    let (q, rest) = first_number(text)?;
    first_named(
        &[
            Named(".PUT", Reg::PortPut(q)),
            Named(".IN", Reg::PortLevels(q)),
        ],
        rest,
    )
}

/// What stands behind the `F` of a flip.
fn flip(text: &[u8]) -> Option<(Reg, &[u8])>
    ensures { IfSome result (λ p. spec.Spells (codes "F") text.now p.0 p.1.now) }
{
    let (p, rest) = first_number(text)?;
    first_named(&[Named(".FLIP", Reg::PinFlip(p))], rest)
}

/// What stands behind the `R` of a word of RAM.
fn ram(text: &[u8]) -> Option<(Reg, &[u8])>
    ensures { IfSome result (λ p. spec.Spells (codes "R") text.now p.0 p.1.now) }
{
    let (word, rest) = first_number(text)?;
    Some((Reg::Ram(word), rest))
}

/// What stands behind the `I` of a register of the enable bits.
fn enable(text: &[u8]) -> Option<(Reg, &[u8])>
    ensures { IfSome result (λ p. spec.Spells (codes "I") text.now p.0 p.1.now) }
{
    first_named(
        &[
            Named("E.SET", Reg::EnableSet),
            Named("E.CLR", Reg::EnableClear),
        ],
        text,
    )
}

/// What stands behind the `M` of a register of the clock or of resets.
fn clock(text: &[u8]) -> Option<(Reg, &[u8])>
    ensures { IfSome result (λ p. spec.Spells (codes "M") text.now p.0 p.1.now) }
{
    first_named(
        &[
            Named(".PLL", Reg::ClockPll),
            Named(".LOCK", Reg::ClockLock),
            Named(".RATE", Reg::ClockRate),
            Named(".REASON", Reg::ResetReason),
            Named(".RESET", Reg::ResetRequest),
        ],
        text,
    )
}

/// What stands behind the `W` of the watchdog's register.
fn watchdog(text: &[u8]) -> Option<(Reg, &[u8])>
    ensures { IfSome result (λ p. spec.Spells (codes "W") text.now p.0 p.1.now) }
{
    first_named(&[Named(".LOAD", Reg::WatchdogLoad)], text)
}

/// The register that a letter and what is behind it begin with, and what is behind that.
fn register_behind(letter: u8, text: &[u8]) -> Option<(Reg, &[u8])>
    ensures { IfSome result (λ p. spec.Spells (letter ∷ []) text.now p.0 p.1.now) }
{
    match letter {
        b'T' => timer(text),
        b'P' => pulse(text),
        b'C' => capture(text),
        b'A' => converter(text),
        b'S' => serial(text),
        b'D' => pin(text),
        b'Q' => port(text),
        b'F' => flip(text),
        b'R' => ram(text),
        b'I' => enable(text),
        b'M' => clock(text),
        b'W' => watchdog(text),
        _ => None,
    }
}

/// The register with which a text begins, and what is behind it.
pub(crate) fn first_register(text: &[u8]) -> Option<(Reg, &[u8])>
    ensures { IfSome result (λ p. spec.Spells [] text.now p.0 p.1.now) }
{
    match text {
        [] => None,
        [letter, rest @ ..] => register_behind(*letter, rest),
    }
}
