ghost use Rattle.std.specs.Prelude.{◌≡◌};
ghost use Rattle.module_machines.specs.dio.Checks as spec;

use mcal_base::Service;

/// A call of the driver, with its arguments. Channels, ports and groups are any numbers; of a value to write the lowest
/// eight bits count.
#[derive(Clone, Copy)]
pub enum Call {
    /// `Dio_ReadChannel` of the pin of this number.
    ReadChannel(u32),
    /// `Dio_WriteChannel`: whether the pin's latch is to be high.
    WriteChannel(u32, bool),
    /// `Dio_FlipChannel`
    FlipChannel(u32),
    /// `Dio_ReadPort`
    ReadPort(u32),
    /// `Dio_WritePort` of a value.
    WritePort(u32, u32),
    /// `Dio_ReadChannelGroup`
    ReadChannelGroup(u32),
    /// `Dio_WriteChannelGroup` of a value.
    WriteChannelGroup(u32, u32),
}

impl Call {
    /// The service that is called.
    pub fn service(self) -> Service
        ensures { result ≡ spec.service_of self }
    {
        match self {
            Call::ReadChannel(_) => Service::DioReadChannel,
            Call::WriteChannel(..) => Service::DioWriteChannel,
            Call::FlipChannel(_) => Service::DioFlipChannel,
            Call::ReadPort(_) => Service::DioReadPort,
            Call::WritePort(..) => Service::DioWritePort,
            Call::ReadChannelGroup(_) => Service::DioReadChannelGroup,
            Call::WriteChannelGroup(..) => Service::DioWriteChannelGroup,
        }
    }
}
