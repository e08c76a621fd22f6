use crate::short::Short;

/// `SpiChannelType`, with what only a channel of that type has.
#[derive(Clone, Copy, Debug)]
pub enum SpiChannelType {
    /// `IB`: an internal channel of `SpiIbNBuffers` words, 1 to 64.
    Internal(u32),
    /// `EB`: an external channel of at most `SpiEbMaxLength` words, 1 to 64.
    External(u32),
}

impl Default for SpiChannelType {
    fn default() -> SpiChannelType {
        SpiChannelType::External(1)
    }
}

/// A serial channel.
#[derive(Debug, Default, Drop)]
pub struct SpiChannel {
    /// `SpiChannelId`, 0 to 15.
    pub id: u32,
    /// `SpiChannelType`, with its number of words.
    pub channel_type: SpiChannelType,
    /// `SpiDataWidth` in bits, 1 to 16.
    pub data_width: u32,
    /// `SpiDefaultData`, 0 to 65,535.
    pub default_data: u32,
}

/// A serial job.
#[derive(Debug, Default, Drop)]
pub struct SpiJob {
    /// `SpiJobId`, 0 to 15.
    pub id: u32,
    /// `SpiJobPriority`, 0 to 3, 3 the highest.
    pub priority: u32,
    /// Whether `SpiJobEndNotification` is given.
    pub end_notification: bool,
    /// `SpiChannelList`: the ids of its channels, in their order.
    pub channel_list: Short<u32, 4>,
    /// `Unit`, 0 or 1.
    pub unit: u32,
    /// `Select`: the place of its device, 0 to 7.
    pub select: Option<u32>,
}

/// A serial sequence.
#[derive(Debug, Default, Drop)]
pub struct SpiSequence {
    /// `SpiSequenceId`, 0 to 7.
    pub id: u32,
    /// `SpiInterruptibleSequence`.
    pub interruptible: bool,
    /// `SpiJobAssignment`: the ids of its jobs, in their order.
    pub job_assignment: Short<u32, 16>,
    /// Whether `SpiSeqEndNotification` is given.
    pub end_notification: bool,
}

/// The table `Spi`.
#[derive(Debug, Default, Drop)]
pub struct SpiConfig {
    /// `SpiDevErrorDetect`.
    pub dev_error_detect: bool,
    /// `Classification`: 2 where state errors are runtime errors, 1 where they are development errors.
    pub classification: u32,
    /// `Levels` of the lines of the two units, each 1 to 7; 1 at first.
    pub levels: Short<u32, 2>,
    /// `SyncUnits`: the units whose sequences are sent by `Spi_SyncTransmit` alone, each 0 or 1; none at first.
    pub sync_units: Short<u32, 2>,
    /// `SpiChannel`.
    pub channels: Short<SpiChannel, 16>,
    /// `SpiJob`.
    pub jobs: Short<SpiJob, 16>,
    /// `SpiSequence`.
    pub sequences: Short<SpiSequence, 8>,
}
