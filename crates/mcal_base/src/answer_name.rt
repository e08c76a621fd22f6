ghost use Rattle.std.specs.Prelude.{◌≡◌};
ghost use Rattle.mcal_base.specs.Names as spec;

/// The named answers of services.
#[derive(Clone, Copy)]
pub enum AnswerName {
    /// `E_OK`
    EOk,
    /// `E_NOT_OK`
    ENotOk,
    /// `MCU_PLL_LOCKED`
    McuPllLocked,
    /// `MCU_PLL_UNLOCKED`
    McuPllUnlocked,
    /// `MCU_PLL_STATUS_UNDEFINED`
    McuPllStatusUndefined,
    /// `MCU_POWER_ON_RESET`
    McuPowerOnReset,
    /// `MCU_WATCHDOG_RESET`
    McuWatchdogReset,
    /// `MCU_SW_RESET`
    McuSwReset,
    /// `MCU_RESET_UNDEFINED`
    McuResetUndefined,
    /// `PWM_HIGH`
    PwmHigh,
    /// `PWM_LOW`
    PwmLow,
    /// `ICU_ACTIVE`
    IcuActive,
    /// `ICU_IDLE`
    IcuIdle,
    /// `ADC_IDLE`
    AdcIdle,
    /// `ADC_BUSY`
    AdcBusy,
    /// `ADC_COMPLETED`
    AdcCompleted,
    /// `ADC_STREAM_COMPLETED`
    AdcStreamCompleted,
    /// `SPI_UNINIT`
    SpiUninit,
    /// `SPI_IDLE`
    SpiIdle,
    /// `SPI_BUSY`
    SpiBusy,
    /// `SPI_JOB_OK`
    SpiJobOk,
    /// `SPI_JOB_PENDING`
    SpiJobPending,
    /// `SPI_JOB_FAILED`
    SpiJobFailed,
    /// `SPI_JOB_QUEUED`
    SpiJobQueued,
    /// `SPI_SEQ_OK`
    SpiSeqOk,
    /// `SPI_SEQ_PENDING`
    SpiSeqPending,
    /// `SPI_SEQ_FAILED`
    SpiSeqFailed,
    /// `SPI_SEQ_CANCELED`
    SpiSeqCanceled,
    /// `STD_HIGH`
    StdHigh,
    /// `STD_LOW`
    StdLow,
}

impl AnswerName {
    /// The answer's name as the standard spells it.
    pub fn text(self) -> &'static str
        ensures { result.now ≡ spec.answer_text self }
    {
        match self {
            AnswerName::EOk => "E_OK",
            AnswerName::ENotOk => "E_NOT_OK",
            AnswerName::McuPllLocked => "MCU_PLL_LOCKED",
            AnswerName::McuPllUnlocked => "MCU_PLL_UNLOCKED",
            AnswerName::McuPllStatusUndefined => "MCU_PLL_STATUS_UNDEFINED",
            AnswerName::McuPowerOnReset => "MCU_POWER_ON_RESET",
            AnswerName::McuWatchdogReset => "MCU_WATCHDOG_RESET",
            AnswerName::McuSwReset => "MCU_SW_RESET",
            AnswerName::McuResetUndefined => "MCU_RESET_UNDEFINED",
            AnswerName::PwmHigh => "PWM_HIGH",
            AnswerName::PwmLow => "PWM_LOW",
            AnswerName::IcuActive => "ICU_ACTIVE",
            AnswerName::IcuIdle => "ICU_IDLE",
            AnswerName::AdcIdle => "ADC_IDLE",
            AnswerName::AdcBusy => "ADC_BUSY",
            AnswerName::AdcCompleted => "ADC_COMPLETED",
            AnswerName::AdcStreamCompleted => "ADC_STREAM_COMPLETED",
            AnswerName::SpiUninit => "SPI_UNINIT",
            AnswerName::SpiIdle => "SPI_IDLE",
            AnswerName::SpiBusy => "SPI_BUSY",
            AnswerName::SpiJobOk => "SPI_JOB_OK",
            AnswerName::SpiJobPending => "SPI_JOB_PENDING",
            AnswerName::SpiJobFailed => "SPI_JOB_FAILED",
            AnswerName::SpiJobQueued => "SPI_JOB_QUEUED",
            AnswerName::SpiSeqOk => "SPI_SEQ_OK",
            AnswerName::SpiSeqPending => "SPI_SEQ_PENDING",
            AnswerName::SpiSeqFailed => "SPI_SEQ_FAILED",
            AnswerName::SpiSeqCanceled => "SPI_SEQ_CANCELED",
            AnswerName::StdHigh => "STD_HIGH",
            AnswerName::StdLow => "STD_LOW",
        }
    }
}
