//! Why a call or a handler is held, over the tags of the frames under way.

ghost use Rattle.std.specs.Prelude.{◌≡◌};
ghost use Rattle.run_model.specs.Causes.{kind_number, same_key, kind_blocks, class_blocks, blocks, may_reenter, call_level_allows, line_level_allows, is_full, call_cause, line_cause, reads_source};

use crate::{Class, Key, KeyKind, Kind, Tag};
use irq_control::Held;

/// The most frames at once.
pub const MOST_FRAMES: u32 = 8;

/// Why a call of this class is held at this level, over frames with these tags, the newest first. The first says whether the
/// mask is closed, and `noted` whether the top frame's last move was a notice. None where the call may begin.
pub fn call_cause(
    is_masked: bool,
    tags: &[Tag],
    noted: bool,
    class: &Class,
    level: u32,
) -> Option<Held>
    ensures { result ≡ call_cause is_masked tags.now noted class.now level }
{
    if is_masked {
        Some(Held::Masked)
    } else if !call_level_allows(tags, noted, level) {
        Some(Held::Level)
    } else if !may_reenter(class, tags) {
        Some(Held::Reentry)
    } else if is_full(tags) {
        Some(Held::Full)
    } else {
        None
    }
}

/// Why the handler of a line of this level is held, over frames with these tags, the newest first; `is_pending` says whether
/// the line is. None where the handler may begin.
pub fn line_cause(is_masked: bool, tags: &[Tag], level: u32, is_pending: bool) -> Option<Held>
    ensures { result ≡ line_cause is_masked tags.now level is_pending }
{
    if is_masked {
        Some(Held::Masked)
    } else if !line_level_allows(tags, level) {
        Some(Held::Level)
    } else if !is_pending {
        Some(Held::Idle)
    } else if is_full(tags) {
        Some(Held::Full)
    } else {
        None
    }
}

/// Whether a call of this class may not begin over a frame with this tag.
pub fn is_blocked(new: &Class, there: &Tag) -> bool
    ensures { result ≡ blocks new.now there.now }
{
    new.module.number() == there.owner.number() && class_is_blocked(new, there.class)
}

/// Whether a call of this class reads the source array of a serial channel.
pub fn reads_source(channel: u32, class: Option<Class>) -> bool
    ensures { result ≡ reads_source channel class }
{
    match class {
        Some(class) => match class.key {
            Some(key) => matches!(key.kind, KeyKind::Source) && key.number == channel,
            None => false,
        },
        None => false,
    }
}

fn may_reenter(class: &Class, tags: &[Tag]) -> bool
    ensures { result ≡ may_reenter class.now tags.now }
{
    tags.iter().all(|tag| !is_blocked(class, tag))
}

fn call_level_allows(tags: &[Tag], noted: bool, level: u32) -> bool
    ensures { result ≡ call_level_allows tags.now noted level }
{
    match tags.first() {
        None => true,
        Some(top) => top.level < level || noted && level == top.level,
    }
}

fn line_level_allows(tags: &[Tag], level: u32) -> bool
    ensures { result ≡ line_level_allows tags.now level }
{
    match tags.first() {
        None => true,
        Some(top) => top.level < level,
    }
}

fn is_full(tags: &[Tag]) -> bool
    ensures { result ≡ is_full tags.now }
{
    tags.len() >= MOST_FRAMES as usize
}

fn kind_number_of(kind: KeyKind) -> u32
    ensures { result ≡ kind_number kind }
{
    match kind {
        KeyKind::Section => 0,
        KeyKind::Pin => 1,
        KeyKind::Channel | KeyKind::Source => 2,
        KeyKind::Group => 3,
        KeyKind::Sequence => 4,
        KeyKind::Clock => 5,
        KeyKind::Main => 6,
    }
}

/// Whether two calls have the same key.
fn have_same_key(new: Option<Key>, there: Option<Key>) -> bool
    ensures { result ≡ same_key new there }
{
    match (new, there) {
        (Some(new), Some(there)) => {
            kind_number_of(new.kind) == kind_number_of(there.kind) && new.number == there.number
        }
        _ => false,
    }
}

/// Whether a kind of call may not begin over a call of the same module.
fn kind_is_blocked(new: Kind, there: Kind, same: bool) -> bool
    ensures { result ≡ kind_blocks new there same }
{
    match (new, there) {
        (Kind::Exclusive, _) | (Kind::Keyed | Kind::Guarded, Kind::Exclusive) => true,
        (Kind::Keyed, Kind::Keyed) => same,
        _ => false,
    }
}

/// Whether a call may not begin over a call, or over a handler, of the same module.
fn class_is_blocked(new: &Class, there: Option<Class>) -> bool
    ensures { result ≡ class_blocks new.now there }
{
    match there {
        None => matches!(new.kind, Kind::Exclusive),
        Some(there) => kind_is_blocked(new.kind, there.kind, have_same_key(new.key, there.key)),
    }
}
