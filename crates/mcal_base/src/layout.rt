//! Which driver words hold the users' arrays, and which are the modules'.

ghost use Rattle.std.specs.Prelude.{◌≡◌, ◌≤◌, ◌<◌, ◌+◌, ◌*◌, ℕ, true};
ghost use Rattle.mcal_base.specs.Layout.{WithinLimits, length_of, Exists, room_of, start_of, place_of, user_of, own_start, is_own_word, is_users_word, is_word_of};
ghost use Rattle.mcal_base.specs.declared.layout.Array.{Array};
ghost use Rattle.mcal_base.specs.declared.config.whole.Config.{Config};
ghost use Rattle.mcal_base.specs.declared.module_name.ModuleName.{ModuleName};

use crate::WORDS;
use crate::config::whole::Config;

/// The first word of the users' arrays. The results come first: two buffers a group, each with room for 2,048.
pub const USERS: u32 = 73_728;

/// The first word of the stamps, 64 a capture channel.
pub const STAMPS: u32 = 139_264;

/// The first word of the sources, with room for 64 a serial channel.
pub const SOURCES: u32 = 139_776;

/// The first word of the destinations, with room for 64 a serial channel.
pub const DESTINATIONS: u32 = 140_800;

/// An array of the users.
#[derive(Clone, Copy)]
pub enum Array {
    /// The results of a converter group, and the number of the buffer, 0 or 1.
    Round(u32, u32),
    /// The stamps of a capture channel.
    Stamps(u32),
    /// What a serial channel sends.
    Source(u32),
    /// What a serial channel received.
    Destination(u32),
}

/// The driver word that holds a place of an array. The array's object is configured, and the place is one of its places.
pub fn place(_config: &Config, array: Array, index: u32) -> u32
    requires limits { WithinLimits _config.now }
    requires there { index < length_of _config.now array }
    ensures word { result ≡ place_of array index }
    ensures users { USERS ≤ result }
    ensures below { result < WORDS }
    ensures alone { (other : Array) (k : ℕ) → k < length_of _config.now other → place_of other k ≡ result → (other ≡ array) × (k ≡ index) }
{
    start(array) + index
}

/// The word of an array's first place.
fn start(array: Array) -> u32
    requires { Exists array }
    ensures word { result ≡ start_of array }
    ensures room { result + room_of array ≤ WORDS }
{
    match array {
        Array::Round(group, buffer) => USERS + 2_048 * (2 * group + buffer),
        Array::Stamps(channel) => STAMPS + 64 * channel,
        Array::Source(channel) => SOURCES + 64 * channel,
        Array::Destination(channel) => DESTINATIONS + 64 * channel,
    }
}

/// A module's own words stand apart from those of the others and of the users, and no two modules use one array.
pub fn whose_words()
    ensures own { (c : Config) (m : ModuleName) (k : ℕ) → WithinLimits c → is_own_word c m k ≡ true → (own_start m ≤ k) × (k < own_start m + 8192) }
    ensures users { (c : Config) (m : ModuleName) (k : ℕ) → WithinLimits c → is_users_word c m k ≡ true → (USERS ≤ k) × (k < WORDS) }
    ensures places { (c : Config) (a : Array) (k : ℕ) → k < length_of c a → is_users_word c (user_of a) (place_of a k) ≡ true }
    ensures apart { (c : Config) (m n : ModuleName) (k : ℕ) → WithinLimits c → is_word_of c m k ≡ true → is_word_of c n k ≡ true → m ≡ n }
{}
