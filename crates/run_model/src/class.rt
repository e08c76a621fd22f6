use mcal_base::ModuleName;

/// How a call bears other frames of its module.
#[derive(Clone, Copy)]
pub enum Kind {
    /// May not begin while any frame of its module is there.
    Exclusive,
    /// May not begin over an exclusive call of its module, or over a keyed one with the same key.
    Keyed,
    /// May not begin over an exclusive call of its module.
    Guarded,
    /// May always begin.
    Query,
}

/// What a key is: a kind of object, or one of the names that stand for themselves.
#[derive(Clone, Copy)]
pub enum KeyKind {
    /// A RAM section.
    Section,
    /// A pin.
    Pin,
    /// A channel.
    Channel,
    /// A converter group.
    Group,
    /// A serial sequence.
    Sequence,
    /// The clock.
    Clock,
    /// The serial main function.
    Main,
    /// A channel, of which the call reads the user's source array.
    Source,
}

/// A key: what a keyed call is about.
#[derive(Clone, Copy)]
pub struct Key {
    /// What it is.
    pub kind: KeyKind,
    /// The number of the object, 0 for a name that stands for itself.
    pub number: u32,
}

/// The class of a call: with which frames of its module it may nest.
#[derive(Clone, Copy)]
pub struct Class {
    /// How it bears others.
    pub kind: Kind,
    /// The module of the call.
    pub module: ModuleName,
    /// Its key; a keyed call has one, no other has.
    pub key: Option<Key>,
}

/// What the rules of beginning look at of a frame under way: its level and module, and a call's class.
#[derive(Clone, Copy)]
pub struct Tag {
    /// The level, 0 to 7.
    pub level: u32,
    /// The module to which the frame belongs.
    pub owner: ModuleName,
    /// The class of a call; a handler has none.
    pub class: Option<Class>,
}
