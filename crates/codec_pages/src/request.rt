// What a request of a host asks. The multiplexers are those of the report table.

#[derive(Clone, Copy, PartialEq, Eq)]
pub enum Request {
    ReadIsolationState,
    ReadResistances,
    ReadCapacitances,
    ReadVoltages,
    ReadBattery,
    ReadErrorFlags,
    // One of the words 01 to 0B.
    ReadWord(u8),
    ReadTemperature,
    SetWorkingVoltage(u16),
}
