ghost use Rattle.std.specs.Prelude.{◌≡◌, ℕ, Bool, true};
ghost use Rattle.adc_machine.specs.Table.{table_of};
ghost use Rattle.chip_model.specs.Chip.{Chip, chip_after};
ghost use Rattle.mcal_base.specs.Layout.{WithinLimits};
ghost use Rattle.mcal_base.specs.declared.config.whole.Config.{Config};
ghost use Rattle.mcal_base.specs.declared.moves.Move.{Move};
ghost use Rattle.run_model.specs.World.{World};
ghost use Rattle.spi_machine.specs.State.{SpiState};
ghost use Rattle.spi_machine.specs.declared.table.SpiTable.{SpiTable};
ghost use Rattle.audit_machines.specs.System.{SystemState, Tables};
ghost use Rattle.audit_modules.specs.Agrees.{ArraysStand, HasRoom, OutputsStand, Rests};
ghost use Rattle.audit_modules.specs.Keeps as keeps;

use mcal_base::{Move, Reg, USERS};

/// Whether a read of a register inverts a latch.
fn is_flip(register: Reg) -> bool
    ensures { result ≡ keeps.is_flip register }
{
    matches!(register, Reg::PinFlip(_))
}

/// Whether a move writes no register and inverts no latch.
pub fn keeps_registers(made: &Move) -> bool
    ensures { result ≡ keeps.keeps_registers made.now }
{
    match *made {
        Move::Read(register) => !is_flip(register),
        Move::Write(_, _) => false,
        _ => true,
    }
}

/// Whether a move stores no word of the users' arrays.
pub fn keeps_arrays(made: &Move) -> bool
    ensures { result ≡ keeps.keeps_arrays made.now }
{
    match *made {
        Move::Store(word, _) => word < USERS,
        _ => true,
    }
}

/// What chip and machines agreed in they agree in after a move that writes no register, inverts no latch, and stores no word
/// of the users' arrays, as far as that concerns it: where the machines' state and the world are as before, none has to be
/// compared again.
pub fn moves_keep()
    ensures outputs { (t : Tables SpiTable) (chip : Chip) (w : World) (s : SystemState SpiState) (busy : Bool) (made : Move) (received : ℕ) →
        keeps.keeps_registers made ≡ true → OutputsStand t chip w s busy → OutputsStand t (chip_after chip made received) w s busy }
    ensures arrays { (t : Tables SpiTable) (chip : Chip) (s : SystemState SpiState) (made : Move) (received : ℕ) →
        keeps.keeps_arrays made ≡ true → ArraysStand t chip s → ArraysStand t (chip_after chip made received) s }
    ensures rests { (t : Tables SpiTable) (chip : Chip) (s : SystemState SpiState) (made : Move) (received : ℕ) →
        keeps.keeps_registers made ≡ true → keeps.keeps_arrays made ≡ true → Rests t chip s → Rests t (chip_after chip made received) s }
{}

/// There is room for the results of each group of a configuration that is within the limits.
pub fn results_have_room()
    ensures { (c : Config) → WithinLimits c → HasRoom (table_of c.adc) }
{}
