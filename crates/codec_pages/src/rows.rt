// Document 01's report table: the device kinds, its rows, and what is found in it.

#[derive(Clone, Copy, PartialEq, Eq)]
pub enum Kind {
    Sim100,
    Sim101,
}

// A row of the table, named by its first column.
#[derive(Clone, Copy, PartialEq, Eq)]
pub enum Row {
    MuxE0,
    MuxE1,
    MuxE2,
    MuxE3,
    MuxE4,
    MuxE5,
    Mux01To0B,
    Mux80,
    MuxF0,
}

// A row that a multiplexer is listed in, with the lengths of report and request.
#[derive(Clone, Copy, PartialEq, Eq)]
pub struct Listed {
    pub row: Row,
    pub report: u8,
    pub request: u8,
}
