ghost use Rattle.std.specs.Prelude.{◌≡◌, ◌<◌, ◌≤◌, ◌-◌, map, take, vec_len};
ghost use Rattle.serial_devices.specs.Lines.{CallsOne, Exchanged, answered};

use crate::device::SerialDevice;
use mcal_base::Failed;

/// The incoming word that says that the device refused the exchange.
const REFUSED: u32 = 65_536;

/// One word to a device. The answer is the word that comes in.
fn exchange_one(device: &mut Box<dyn SerialDevice>, word: u16) -> u32
    ensures most { result ≤ 65536 }
    ensures one { Exchanged (line device.old) (line device.new) word (answered result) }
{
    match device.exchange(word) {
        Ok(answer) => u32::from(answer),
        Err(Failed) => REFUSED,
    }
}

/// One word to the device at this place, and the word that comes in: 65,536 where the device refused the exchange. The
/// other devices stay as they are.
pub fn call(rack: &mut Vec<Box<dyn SerialDevice>>, place: usize, word: u16) -> u32
    requires { place < vec_len rack.old }
    ensures most { result ≤ 65536 }
    ensures count { vec_len rack.new ≡ vec_len rack.old }
    ensures one { CallsOne (map (λ d. line d) rack.old.items) (map (λ d. line d) rack.new.items) place word (answered result) }
{
    exchange_one(&mut rack[place], word)
}

/// Drops the device in the last place, where there is one. The others stay as they are.
pub fn drop_last(rack: &mut Vec<Box<dyn SerialDevice>>)
    ensures count { vec_len rack.new ≡ vec_len rack.old - 1 }
    ensures rest { map (λ d. line d) rack.new.items ≡ take (vec_len rack.old - 1) (map (λ d. line d) rack.old.items) }
{
    let _ = rack.pop();
}
