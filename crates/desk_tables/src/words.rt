/// What stands at a place of a line.
#[derive(Clone, Copy)]
pub enum Operand {
    /// A number of this name, of at most so much.
    Number(&'static str, u32),
    /// A word of this name, one of these.
    Name(&'static str, &'static [&'static str]),
    /// A result buffer: 0, 1 or `null`.
    Buffer,
    /// A service, and behind it what it asks for.
    Service,
    /// 1 to 64 numbers of this name, of at most so much each.
    Several(&'static str, u32),
}

/// The word that a directive begins with, and what stands behind it.
#[derive(Clone, Copy)]
pub struct DirectiveRow(pub &'static str, pub &'static [Operand]);

/// Any number of the language.
pub(crate) const MOST: u32 = 4_294_967_295;

/// A level, and a service.
const ASKED: [Operand; 2] = [Operand::Number("L", 7), Operand::Service];

/// A line.
const LINE: [Operand; 1] = [Operand::Number("LINE", 31)];

/// The directives.
static DIRECTIVES: [DirectiveRow; 17] = [
    DirectiveRow("call", &ASKED),
    DirectiveRow("do", &ASKED),
    DirectiveRow("enter", &LINE),
    DirectiveRow("serve", &LINE),
    DirectiveRow("run", &[Operand::Number("N", MOST)]),
    DirectiveRow(
        "upto",
        &[Operand::Name("move", &["act", "mask", "unmask", "note"])],
    ),
    DirectiveRow("finish", &[]),
    DirectiveRow("tick", &[Operand::Number("N", 1_000_000)]),
    DirectiveRow(
        "level",
        &[Operand::Number("PIN", 63), Operand::Number("V", 1)],
    ),
    DirectiveRow(
        "analog",
        &[Operand::Number("INPUT", 31), Operand::Number("V", 4_095)],
    ),
    DirectiveRow("trigger", &[Operand::Number("INPUT", 3)]),
    DirectiveRow(
        "miso",
        &[Operand::Number("UNIT", 1), Operand::Several("W", 65_535)],
    ),
    DirectiveRow("spifault", &[Operand::Number("UNIT", 1)]),
    DirectiveRow("detach", &[]),
    DirectiveRow(
        "fill",
        &[
            Operand::Number("CHANNEL", MOST),
            Operand::Several("W", MOST),
        ],
    ),
    DirectiveRow("reset", &[Operand::Name("reason", &["power", "watchdog"])]),
    DirectiveRow(
        "show",
        &[Operand::Name("view", &["pins", "wire", "buffers", "ram"])],
    ),
];

/// The directives.
pub fn directives() -> &'static [DirectiveRow] {
    &DIRECTIVES
}
