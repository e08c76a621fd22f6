ghost use Rattle.std.specs.Prelude.{◌≡◌};
ghost use Rattle.mcal_base.specs.Names as spec;

/// The callbacks that drivers call.
#[derive(Clone, Copy)]
pub enum NoticeKind {
    /// `GptNotification`
    GptNotification,
    /// `EcuM_CheckWakeup`
    EcuMCheckWakeup,
    /// `EcuM_SetWakeupEvent`
    EcuMSetWakeupEvent,
    /// `PwmNotification`
    PwmNotification,
    /// `IcuSignalNotification`
    IcuSignalNotification,
    /// `IcuTimestampNotification`
    IcuTimestampNotification,
    /// `AdcNotification`
    AdcNotification,
    /// `SpiJobEndNotification`
    SpiJobEndNotification,
    /// `SpiSeqEndNotification`
    SpiSeqEndNotification,
}

impl NoticeKind {
    /// The callback's name.
    pub fn text(self) -> &'static str
        ensures { result.now ≡ spec.notice_text self }
    {
        match self {
            NoticeKind::GptNotification => "GptNotification",
            NoticeKind::EcuMCheckWakeup => "EcuM_CheckWakeup",
            NoticeKind::EcuMSetWakeupEvent => "EcuM_SetWakeupEvent",
            NoticeKind::PwmNotification => "PwmNotification",
            NoticeKind::IcuSignalNotification => "IcuSignalNotification",
            NoticeKind::IcuTimestampNotification => "IcuTimestampNotification",
            NoticeKind::AdcNotification => "AdcNotification",
            NoticeKind::SpiJobEndNotification => "SpiJobEndNotification",
            NoticeKind::SpiSeqEndNotification => "SpiSeqEndNotification",
        }
    }
}

/// A callback with the object that it speaks of: a channel, a group, a job or a sequence.
#[derive(Clone, Copy)]
pub struct Notice {
    /// Which callback is called.
    pub kind: NoticeKind,
    /// The number of the object.
    pub id: u32,
}
