ghost use Rattle.std.specs.Prelude.{◌≡◌, ◌≤◌};
ghost use Rattle.module_machines.specs.mcu.Bounds as spec;
ghost use Rattle.module_machines.specs.mcu.Table.{FitsMcu, section_of};

use crate::driver::McuDriver;
use module_machines::mcu::Call;

impl McuDriver {
    /// The most steps of a call's frame.
    pub(crate) fn steps_of(&self, call: Call) -> u32
        requires { FitsMcu self.now }
        ensures steps { result ≡ spec.call_steps self.now call }
        ensures few { result ≤ 1216 }
    {
        match call {
            Call::Init => 64 + 48 * self.object_count(),
            Call::InitRamSection(number) => 32 + 2 * self.size(number),
            Call::Clock(_)
            | Call::GetPllStatus
            | Call::GetResetReason
            | Call::PerformReset
            | Call::SetMode(_) => 64,
        }
    }

    /// The words of a section, none where it isn't configured.
    fn size(&self, number: u32) -> u32
        requires { FitsMcu self.now }
        ensures size { result ≡ spec.size_of (section_of self.now number) }
        ensures few { result ≤ 64 }
    {
        match self.section(number) {
            Some(section) => section.size,
            None => 0,
        }
    }

    /// How many objects are configured.
    fn object_count(&self) -> u32
        ensures count { result ≡ spec.object_count self.now }
        ensures few { result ≤ 24 }
    {
        self.counted(0)
            + self.counted(1)
            + self.counted(2)
            + self.counted(3)
            + self.counted(4)
            + self.counted(5)
            + self.counted(6)
            + self.counted(7)
    }

    /// How many of them have this number.
    fn counted(&self, number: u32) -> u32
        ensures count { result ≡ spec.counted self.now number }
        ensures few { result ≤ 3 }
    {
        u32::from(self.multiplier(number).is_some())
            + u32::from(self.has_mode(number))
            + u32::from(self.section(number).is_some())
    }
}
