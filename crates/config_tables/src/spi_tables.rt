ghost use Rattle.std.specs.Prelude.{IfOk, ◌≡◌, Some};
ghost use Rattle.toml.specs.View.{table_view};
ghost use Rattle.config_keys.specs.Checks.{Gives};
ghost use Rattle.config_facts.specs.Valid as valid;
ghost use Rattle.config_tables.specs.Spi as spec;
ghost use Rattle.config_tables.specs.SpiRules as rules_spec;

use crate::faults::FirstFault;
use crate::rows::Element;
use config_keys::{
    ConfigFault, KeyName, Path, SpiBuffer, needed_name, needed_numbers, needed_truth, needed_whole,
    text, whole, whole_or,
};
use mcal_base::{ModuleName, SpiChannel, SpiChannelType, SpiJob, SpiSequence};
use toml::Table;

/// The place of the module's table.
pub const HERE: Path = Path {
    module: ModuleName::Spi,
    key: None,
    element: None,
    inner: None,
    item: None,
};

/// The type of a channel with its number of words, which stands at the key of that type.
fn type_of(table: &Table, at: Path, buffer: SpiBuffer) -> Result<SpiChannelType, ConfigFault>
    ensures gives { Gives result (spec.type_checks (Some buffer) at (table_view table.now)) (spec.type_of buffer (table_view table.now)) }
    ensures valid { IfOk result valid.IsChannelType }
{
    match buffer {
        SpiBuffer::Internal => {
            let words = needed_whole(table, at, KeyName::SpiIbNBuffers, 1, 64)?;
            Ok(SpiChannelType::Internal(words))
        }
        SpiBuffer::External => {
            let words = needed_whole(table, at, KeyName::SpiEbMaxLength, 1, 64)?;
            Ok(SpiChannelType::External(words))
        }
    }
}

/// `SpiChannel`.
pub struct Channels;

impl Element for Channels {
    type Value = SpiChannel;

    ghost shape = { spec.channels };

    ghost id_of = { valid.channel_id };

    ghost is_valid = { valid.IsChannel };

    fn place() -> Path {
        HERE.of_key(KeyName::SpiChannel)
    }

    fn key() -> KeyName {
        KeyName::SpiChannel
    }

    fn id_key() -> Option<KeyName> {
        Some(KeyName::SpiChannelId)
    }

    fn id(value: &SpiChannel) -> Option<u32> {
        Some(value.id)
    }

    #[tactic(auto, unfolding(crate::specs::Spi::channel_checks, crate::specs::Spi::channel_of))]
    fn read(table: &Table, at: Path) -> Result<SpiChannel, ConfigFault> {
        let id = needed_whole(table, at, KeyName::SpiChannelId, 0, 15)?;
        let buffer = needed_name(table, at, KeyName::SpiChannelType)?;
        let data_width = needed_whole(table, at, KeyName::SpiDataWidth, 1, 16)?;
        let default_data = whole_or(table, at, KeyName::SpiDefaultData, 0, 65535, 0)?;
        let channel_type = type_of(table, at, buffer)?;
        Ok(SpiChannel {
            id,
            channel_type,
            data_width,
            default_data,
        })
    }
}

/// `SpiJob`.
pub struct Jobs;

impl Element for Jobs {
    type Value = SpiJob;

    ghost shape = { spec.jobs };

    ghost id_of = { valid.job_id };

    ghost is_valid = { valid.IsJob };

    fn place() -> Path {
        HERE.of_key(KeyName::SpiJob)
    }

    fn key() -> KeyName {
        KeyName::SpiJob
    }

    fn id_key() -> Option<KeyName> {
        Some(KeyName::SpiJobId)
    }

    fn id(value: &SpiJob) -> Option<u32> {
        Some(value.id)
    }

    fn read(table: &Table, at: Path) -> Result<SpiJob, ConfigFault> {
        let mut faults = FirstFault::none();
        let id = faults.keep(needed_whole(table, at, KeyName::SpiJobId, 0, 15));
        let priority = faults.keep(needed_whole(table, at, KeyName::SpiJobPriority, 0, 3));
        let end_notification = faults.keep(text(table, at, KeyName::SpiJobEndNotification));
        let channel_list = faults.keep(needed_numbers(
            table,
            at,
            KeyName::SpiChannelList,
            1,
            0,
            15,
        ));
        let unit = faults.keep(needed_whole(table, at, KeyName::Unit, 0, 1));
        let select = faults.keep(whole(table, at, KeyName::Select, 0, 7));
        faults.finish(SpiJob {
            id,
            priority,
            end_notification,
            channel_list,
            unit,
            select,
        })
    }
}

/// `SpiSequence`.
pub struct Sequences;

impl Element for Sequences {
    type Value = SpiSequence;

    ghost shape = { spec.sequences };

    ghost id_of = { valid.sequence_id };

    ghost is_valid = { valid.IsSequence };

    fn place() -> Path {
        HERE.of_key(KeyName::SpiSequence)
    }

    fn key() -> KeyName {
        KeyName::SpiSequence
    }

    fn id_key() -> Option<KeyName> {
        Some(KeyName::SpiSequenceId)
    }

    fn id(value: &SpiSequence) -> Option<u32> {
        Some(value.id)
    }

    fn read(table: &Table, at: Path) -> Result<SpiSequence, ConfigFault> {
        let mut faults = FirstFault::none();
        let id = faults.keep(needed_whole(table, at, KeyName::SpiSequenceId, 0, 7));
        let interruptible = faults.keep(needed_truth(table, at, KeyName::SpiInterruptibleSequence));
        let job_assignment = faults.keep(needed_numbers(
            table,
            at,
            KeyName::SpiJobAssignment,
            1,
            0,
            15,
        ));
        let end_notification = faults.keep(text(table, at, KeyName::SpiSeqEndNotification));
        faults.finish(SpiSequence {
            id,
            interruptible,
            job_assignment,
            end_notification,
        })
    }
}
