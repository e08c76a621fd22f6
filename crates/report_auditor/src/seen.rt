ghost use Rattle.std.specs.Prelude.{◌≡◌};
ghost use Rattle.audit_subject.specs.Origins.{origin_of};
ghost use Rattle.report_auditor.specs.Seeing as spec;
ghost use Rattle.audit_whole.specs.Touching as touching;

use audit_subject::{Origin, Subject};
use audit_whole::{Aspect, Touched};
use mcal_base::{Event, ModuleName, Move, Order, Reg, USERS, Unit};

/// What is known of a moment: it was seen, and nothing has touched it since.
#[derive(Clone, Copy)]
pub struct Seen {
    /// The lines that configured objects use, as the bits of a mask. They stay.
    pub used: u64,
    /// The lines that are due, where they are known.
    pub due: Option<u64>,
    /// No unit may start or abort.
    pub units: bool,
    /// Chip and machines agree in the outputs, and so on.
    pub outputs: bool,
    pub pins: bool,
    pub ram: bool,
    pub stamps: bool,
    pub results: bool,
    pub arrays: bool,
}

impl Seen {
    /// Nothing but the lines that are used.
    pub fn nothing(used: u64) -> Seen
        ensures { result ≡ spec.nothing used }
    {
        Seen {
            used,
            due: None,
            units: false,
            outputs: false,
            pins: false,
            ram: false,
            stamps: false,
            results: false,
            arrays: false,
        }
    }

    /// This was touched.
    fn touch(&mut self, touched: Touched)
        ensures { self.new ≡ spec.touched_in touched self.old }
    {
        match touched {
            Touched::Nothing => {}
            Touched::One(Aspect::Outputs) => self.outputs = false,
            Touched::One(Aspect::Pins) => self.pins = false,
            Touched::One(Aspect::Ram) => self.ram = false,
            Touched::One(Aspect::Stamps) => self.stamps = false,
            Touched::One(Aspect::Results) => self.results = false,
            Touched::One(Aspect::Arrays) => self.arrays = false,
            Touched::Words => {
                self.stamps = false;
                self.results = false;
                self.arrays = false;
            }
        }
    }

    /// The machines were told something that touched this.
    fn tell(&mut self, touched: Touched)
        ensures { self.new ≡ spec.told_in touched self.old }
    {
        self.due = None;
        self.units = false;
        self.touch(touched);
    }

    /// The hardware moved.
    pub(crate) fn happens(&mut self, order: &Order)
        ensures { self.new ≡ spec.moved_in order.now self.old }
    {
        let kept = keeps_units(order);
        self.due = None;
        self.units = self.units && kept;
        self.touch(by_order(order));
    }

    /// The chip made a move, at which an event may have stood that touched this.
    pub(crate) fn steps(&mut self, made: &Move, told: Option<Touched>)
        ensures { self.new ≡ spec.stepped_in made.now told self.old }
    {
        self.touch(by_move(made));
        match told {
            None => {}
            Some(touched) => self.tell(touched),
        }
    }

    /// Whether chip and machines are known to agree in an aspect.
    pub(crate) fn knows(&self, aspect: Aspect) -> bool
        ensures { result ≡ spec.saw self.now aspect }
    {
        match aspect {
            Aspect::Outputs => self.outputs,
            Aspect::Pins => self.pins,
            Aspect::Ram => self.ram,
            Aspect::Stamps => self.stamps,
            Aspect::Results => self.results,
            Aspect::Arrays => self.arrays,
        }
    }

    /// Whether that is known which is so wherever the mask is open.
    pub(crate) fn knows_open(&self) -> bool
        ensures { result ≡ spec.is_open_seen self.now }
    {
        self.outputs && self.pins && self.arrays
    }

    /// Whether that is known which is so with no frame under way.
    pub(crate) fn knows_rest(&self) -> bool
        ensures { result ≡ spec.is_rest_seen self.now }
    {
        self.ram && self.pins && self.stamps && self.results && self.arrays
    }
}

/// What a write of a register touches.
fn by_register(register: Reg) -> Touched
    ensures { result ≡ touching.by_register register }
{
    match register {
        Reg::PulsePeriod(_)
        | Reg::PulseDuty(_)
        | Reg::PulsePolarity(_)
        | Reg::PulseCommit(_)
        | Reg::PulseIdle(_)
        | Reg::PulseEdges
        | Reg::PulseFlags => Touched::One(Aspect::Outputs),
        Reg::PinDirectionSet(_)
        | Reg::PinDirectionClear(_)
        | Reg::PinOutSet(_)
        | Reg::PinOutClear(_)
        | Reg::PinMode(_)
        | Reg::PortPut(_) => Touched::One(Aspect::Pins),
        Reg::Ram(_) => Touched::One(Aspect::Ram),
        _ => Touched::Nothing,
    }
}

/// What a store into a driver word touches.
fn by_word(word: u32) -> Touched
    ensures { result ≡ touching.by_word word }
{
    if word < USERS {
        Touched::Nothing
    } else {
        Touched::Words
    }
}

/// What a move touches.
fn by_move(made: &Move) -> Touched
    ensures { result ≡ touching.by_move made.now }
{
    match *made {
        Move::Read(Reg::PinFlip(_)) => Touched::One(Aspect::Pins),
        Move::Write(register, _) => by_register(register),
        Move::Store(word, _) => by_word(word),
        _ => Touched::Nothing,
    }
}

/// What the hardware touches.
fn by_order(order: &Order) -> Touched
    ensures { result ≡ touching.by_order order.now }
{
    match order {
        Order::Tick(_) => Touched::One(Aspect::Outputs),
        Order::Level(_, _) => Touched::One(Aspect::Stamps),
        Order::Trigger(_) => Touched::One(Aspect::Results),
        Order::SpiFault(_) => Touched::One(Aspect::Arrays),
        Order::Fill(_, _) => Touched::Words,
        _ => Touched::Nothing,
    }
}

/// Whether units that may neither start nor abort stay so: through ticks.
fn keeps_units(order: &Order) -> bool
    ensures { result ≡ spec.keeps_units order.now }
{
    matches!(order, Order::Tick(_))
}

/// What the state of a module has a part in.
fn by_module(owner: ModuleName) -> Touched
    ensures { result ≡ touching.by_module owner }
{
    match owner {
        ModuleName::Mcu => Touched::One(Aspect::Ram),
        ModuleName::Port | ModuleName::Dio => Touched::One(Aspect::Pins),
        ModuleName::Pwm => Touched::One(Aspect::Outputs),
        ModuleName::Icu => Touched::One(Aspect::Stamps),
        ModuleName::Adc => Touched::One(Aspect::Results),
        ModuleName::Spi => Touched::One(Aspect::Arrays),
        _ => Touched::Nothing,
    }
}

/// The aspect that a unit's start or abort touches.
fn by_unit(unit: Unit) -> Aspect
    ensures { result ≡ touching.by_unit unit }
{
    match unit {
        Unit::Adc0 | Unit::Adc1 => Aspect::Results,
        Unit::Spi0 | Unit::Spi1 => Aspect::Arrays,
    }
}

/// What an act touches.
fn by_act<S: Subject>(subject: &S, origin: &Origin<S::Call>) -> Touched
    ensures { result ≡ touching.by_act (S.setting (S.table subject.now)) (origin_of origin.now) }
{
    match origin {
        Origin::Call(call) => by_module(subject.class(call).module),
        Origin::Line(_) => Touched::Nothing,
    }
}

/// What an event of a frame touches.
pub(crate) fn by_event<S: Subject>(subject: &S, origin: &Origin<S::Call>, event: Event) -> Touched
    ensures { result ≡ touching.by_event (S.setting (S.table subject.now)) (origin_of origin.now) event }
{
    match event {
        Event::Act => by_act(subject, origin),
        Event::Serve(line) => by_module(subject.owner(line)),
        Event::Abort(unit) => Touched::One(by_unit(unit)),
        Event::Start(unit) => Touched::One(by_unit(unit)),
    }
}
