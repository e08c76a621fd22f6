/// A register of the reference chip, with the number of its channel, unit, pin or word where it has one.
/// The two registers of a converter unit that stand in rows have the unit and the place in the row, in
/// small types, so that a journal's item stays within 64 bytes.
#[derive(Clone, Copy)]
pub enum Reg {
    /// `IE.SET`: ones enable lines.
    EnableSet,
    /// `IE.CLR`: ones disable lines.
    EnableClear,

    /// `T<c>.TARGET`: the target.
    TimerTarget(u32),
    /// `T<c>.PRE`: the prescaler.
    TimerPrescaler(u32),
    /// `T.ONESHOT`: the one-shot bits.
    TimerOneShot,
    /// `T.GATESET`: ones start counters from 0.
    TimerGateSet,
    /// `T.GATECLR`: ones stop counters.
    TimerGateClear,
    /// `T.RUN`: the running bits.
    TimerRun,
    /// `T.FLAGS`: the expiry flags; ones clear.
    TimerFlags,
    /// `T.ZERO`: ones set counters to 0.
    TimerZero,
    /// `T<c>.LOW`: the low half of the counter; a read latches the high half.
    TimerLow(u32),
    /// `T<c>.HIGH`: the latch.
    TimerHigh(u32),

    /// `P<c>.PERIOD`: the waiting period.
    PulsePeriod(u32),
    /// `P<c>.DUTY`: the waiting absolute duty.
    PulseDuty(u32),
    /// `P<c>.POL`: the waiting polarity.
    PulsePolarity(u32),
    /// `P<c>.COMMIT`: a write takes the three waiting values.
    PulseCommit(u32),
    /// `P<c>.IDLE`: a write makes the output idle.
    PulseIdle(u32),
    /// `P<c>.OUT`: the output level.
    PulseOut(u32),
    /// `P.EDGES`: the chosen kinds of edges.
    PulseEdges,
    /// `P.FLAGS`: the edge flags; ones clear.
    PulseFlags,

    /// `C<c>.COND`: the chosen kinds of edges.
    CaptureCondition(u32),
    /// `C<c>.MODE`: queue or count.
    CaptureMode(u32),
    /// `C.GATESET`: ones turn capture on.
    CaptureGateSet,
    /// `C.GATECLR`: ones turn capture off.
    CaptureGateClear,
    /// `C<c>.COUNTLOW`: the low half of the count; a read latches the high half.
    CaptureCountLow(u32),
    /// `C<c>.COUNTHIGH`: the latch.
    CaptureCountHigh(u32),
    /// `C<c>.ZERO`: a write sets the count to 0.
    CaptureZero(u32),
    /// `C<c>.TIMELOW`: the low half of the oldest time; a read latches the high half.
    CaptureTimeLow(u32),
    /// `C<c>.TIMEHIGH`: the latch.
    CaptureTimeHigh(u32),
    /// `C<c>.INFO`: the oldest edge and the number waiting.
    CaptureInfo(u32),
    /// `C<c>.POP`: a write drops the oldest edge.
    CapturePop(u32),
    /// `C<c>.FLUSH`: a write drops all edges.
    CaptureFlush(u32),

    /// `A<u>.LIST0` to `A<u>.LIST7`: the unit and the place; four input numbers.
    ConverterList(u8, u8),
    /// `A<u>.GO`: a write starts a round.
    ConverterGo(u32),
    /// `A<u>.STATE`: idle, running or finished.
    ConverterState(u32),
    /// `A<u>.RESULT0` to `A<u>.RESULT31`: the unit and the place; a result.
    ConverterResult(u8, u8),
    /// `A<u>.DONE`: the inputs that ended in the last round.
    ConverterDone(u32),
    /// `A<u>.ABORT`: a read stops a running round.
    ConverterAbort(u32),
    /// `A<u>.ACK`: a write takes a finished round away.
    ConverterAck(u32),
    /// `A.TRIGSET`: ones turn trigger inputs on.
    TriggerSet,
    /// `A.TRIGCLR`: ones turn trigger inputs off.
    TriggerClear,
    /// `A.TRIGFLAGS`: the flags of pulses; ones clear.
    TriggerFlags,

    /// `S<u>.SELECT`: the place of the selected device plus 1.
    SerialSelect(u32),
    /// `S<u>.WIDTH`: the width of a word.
    SerialWidth(u32),
    /// `S<u>.DATA`: a write starts a word.
    SerialData(u32),
    /// `S<u>.RX`: the received word.
    SerialReceived(u32),
    /// `S<u>.STATE`: busy, done and failed.
    SerialState(u32),
    /// `S<u>.WAIT`: as `S<u>.STATE`, once no word is in transfer.
    SerialWait(u32),
    /// `S<u>.ACK`: a write clears done and failed.
    SerialAck(u32),

    /// `D.DIRSET0`, `D.DIRSET1`: ones make pins of this half outputs.
    PinDirectionSet(u32),
    /// `D.DIRCLR0`, `D.DIRCLR1`: ones make pins of this half inputs.
    PinDirectionClear(u32),
    /// `D.OUTSET0`, `D.OUTSET1`: ones set latches of this half.
    PinOutSet(u32),
    /// `D.OUTCLR0`, `D.OUTCLR1`: ones clear latches of this half.
    PinOutClear(u32),
    /// `D<p>.MODE`: the mode of a pin.
    PinMode(u32),
    /// `Q<q>.PUT`: a write of 256 * M + V sets the latch of each pin of this port that is out and whose bit
    /// of M is one to its bit of V.
    PortPut(u32),
    /// `Q<q>.IN`: the levels of the eight pins of this port.
    PortLevels(u32),
    /// `F<p>.FLIP`: a read inverts the latch of a pin that is out, and gives the pin's level after that.
    PinFlip(u32),

    /// `M.PLL`: a write of a multiplier starts the PLL.
    ClockPll,
    /// `M.LOCK`: 1 when the PLL is locked.
    ClockLock,
    /// `M.RATE`: 1 takes the multiplier as the rate, 0 takes 1.
    ClockRate,
    /// `M.REASON`: why the chip was reset.
    ResetReason,
    /// `M.RESET`: a write resets the chip.
    ResetRequest,
    /// `W.LOAD`: a write ends the watchdog's time so many ticks later, 0 stops it.
    WatchdogLoad,
    /// `R<k>`: a RAM word, 0 to 511.
    Ram(u32),
}
