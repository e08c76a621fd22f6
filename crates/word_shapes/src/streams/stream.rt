ghost use Rattle.std.specs.Prelude.{◌≡◌, ◌≤◌};
ghost use Rattle.word_shapes.specs.streams.Stream as spec;

/// One more round of a stream, where those are counted up to the rounds that its buffer holds.
pub fn one_more(count: u32, samples: u8) -> u32
    ensures { result ≡ spec.one_more count samples }
{
    let most = u32::from(samples);
    if count < most { count + 1 } else { most }
}

/// The place of a stream that comes after this one.
pub fn following(place: u32, samples: u8) -> u32
    ensures { result ≡ spec.following place samples }
{
    if place < 255 && place + 1 < u32::from(samples) {
        place + 1
    } else {
        0
    }
}

/// The place of a stream that comes before this one.
pub fn preceding(place: u32, samples: u8) -> u32
    ensures { result ≡ spec.preceding place samples }
{
    if place > 0 {
        place - 1
    } else if samples > 0 {
        u32::from(samples) - 1
    } else {
        0
    }
}

/// A number that is at most this.
pub fn limited(value: u32, most: u8) -> u8
    ensures is { result ≡ spec.limited value most }
    ensures within { result ≤ most }
{
    if value < u32::from(most) {
        value as u8
    } else {
        most
    }
}
