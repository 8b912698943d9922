// What a report of a device says. Document 01 lists each in its report table.
// Two values, each with its uncertainty in percent. The report says which two they are.
#[derive(Clone, Copy, PartialEq, Eq)]
pub struct Estimates {
    pub status: u8,
    pub first: u16,
    pub first_uncertainty: u8,
    pub second: u16,
    pub second_uncertainty: u8,
}

// A voltage is held wide enough for both kinds: 0 to 65,535 for SIM100, -32,768 to 32,767 for SIM101.
#[derive(Clone, Copy, PartialEq, Eq)]
pub struct Voltages {
    pub status: u8,
    pub vp: i32,
    pub vp_uncertainty: u8,
    pub vn: i32,
    pub vn_uncertainty: u8,
}

// Only Vb is signed for SIM101.
#[derive(Clone, Copy, PartialEq, Eq)]
pub struct Battery {
    pub status: u8,
    pub vb: i32,
    pub vb_uncertainty: u8,
    pub vb_max: u16,
    pub vb_max_uncertainty: u8,
}

// A SIM101 has 16 flags, a SIM100 eight.
#[derive(Clone, Copy, PartialEq, Eq)]
pub struct ErrorFlags {
    pub status: u8,
    pub flags: u16,
}

#[derive(Clone, Copy, PartialEq, Eq)]
pub enum Report {
    // E0: electrical isolation in Ohm/V, and the energy stored in mJ.
    IsolationState(Estimates),
    // E1: Rp and Rn in kOhm.
    Resistances(Estimates),
    // E2: Cp and Cn in nF.
    Capacitances(Estimates),
    // E3: Vp and Vn in V.
    PoleVoltages(Voltages),
    // E4: Vb and Vb max in V.
    BatteryVoltage(Battery),
    // E5
    Errors(ErrorFlags),
    // One of 01 to 0B, and its word: part name, version, serial.
    Word(u8, u32),
    // 80: in thousandths of a degree.
    Temperature(i32),
    // F0: in V.
    WorkingVoltage(u16),
}
