// What a frame says to the monitor.
use crate::setting::Setting;

// The four words of a serial number, by their four bytes, with the multiplexer that each is asked for by.
#[derive(Clone, Copy, PartialEq, Eq)]
pub enum SerialWord {
    First = 0x0B,
    Second = 0x0A,
    Third = 0x09,
    Last = 0x08,
}

#[derive(Clone, Copy, PartialEq, Eq)]
pub enum Message {
    Other,
    Unlock,
    Commit,
    Answer,
    SerialRequest(SerialWord),
    Read(Setting),
    Write(Setting, u32),
}
