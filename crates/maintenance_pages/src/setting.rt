// The six settings of document 002's table 4, with their codes.
#[derive(Clone, Copy, PartialEq, Eq)]
pub enum Setting {
    ReceiveId = 0x15,
    TransmitId = 0x16,
    Speed = 0x17,
    Voltage = 0x18,
    WarningLevel = 0x19,
    FaultLevel = 0x20,
}

// A value for each setting, in the order of their codes.
#[derive(Clone, Copy, PartialEq, Eq)]
pub struct Settings {
    pub receive: u32,
    pub transmit: u32,
    pub speed: u32,
    pub voltage: u32,
    pub warning: u32,
    pub fault: u32,
}
