ghost use Rattle.std.specs.Prelude.{◌≡◌, ◌<◌, ◌≤◌, ◌+◌, ℕ, slice_index_or};
ghost use Rattle.audit_base.specs.Outside.{AreTimes, ArePast};
ghost use Rattle.audit_machines.specs.Happens as spec;
ghost use Rattle.audit_machines.specs.Happens.{AreBefore, times_by};

use module_machines::pwm::PwmTable;

/// One for a configured channel.
fn counted(table: &PwmTable, channel: u32) -> u32
    ensures is { result ≡ spec.counted table.now channel }
    ensures few { result ≤ 1 }
{
    if table.channel(channel).is_some() {
        1
    } else {
        0
    }
}

/// The place of each pulse channel's time among those of the configured channels, in the order of their numbers.
pub(crate) fn places_of(table: &PwmTable) -> [u32; 8]
    ensures { result ≡ spec.places_of table.now }
{
    let one = counted(table, 0);
    let two = one + counted(table, 1);
    let three = two + counted(table, 2);
    let four = three + counted(table, 3);
    let five = four + counted(table, 4);
    let six = five + counted(table, 5);
    [0, one, two, three, four, five, six, six + counted(table, 6)]
}

/// The time at a place, and 0 where there is none.
fn time_at(times: &[u64], place: u32) -> u64
    ensures { result ≡ slice_index_or times.now place 0 }
{
    let place = place as usize;
    if place < times.len() { times[place] } else { 0 }
}

/// The times by channel.
pub(crate) fn by_channel(places: &[u32; 8], times: &[u64]) -> [u64; 8]
    ensures are { AreTimes result (times_by places.now times.now) }
    ensures past { (now : ℕ) → AreBefore now times.now → ArePast result now }
{
    [
        time_at(times, places[0]),
        time_at(times, places[1]),
        time_at(times, places[2]),
        time_at(times, places[3]),
        time_at(times, places[4]),
        time_at(times, places[5]),
        time_at(times, places[6]),
        time_at(times, places[7]),
    ]
}
