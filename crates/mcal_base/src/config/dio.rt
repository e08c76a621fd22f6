use crate::short::Short;

/// A group of adjacent pins of a port.
#[derive(Debug, Default, Drop)]
pub struct DioChannelGroup {
    /// `DioChannelGroupId`, 0 to 7.
    pub id: u32,
    /// `Port`: the port of its pins, 0 to 7. Port q is the pins 8q to 8q + 7.
    pub port: u32,
    /// `DioPortOffset`: the place of its lowest pin in the port, 0 to 7.
    pub offset: u32,
    /// `DioPortMask`: a one for each of its pins, 1 to 255.
    pub mask: u32,
}

/// The table `Dio`.
#[derive(Debug, Default, Drop)]
pub struct DioConfig {
    /// `DioDevErrorDetect`.
    pub dev_error_detect: bool,
    /// `DioChannelGroup`.
    pub groups: Short<DioChannelGroup, 8>,
}
