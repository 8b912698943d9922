// Frames.

// A frame as it came: any number may stand in any field. Bytes past the length are no part of the frame.
#[derive(Clone, Copy, PartialEq, Eq)]
pub struct Frame {
    pub length: u8,
    pub extended: bool,
    pub identifier: u32,
    pub bytes: [u8; 8],
}

// What a frame carries: how many bytes, and the bytes, zero past them.
#[derive(Clone, Copy, PartialEq, Eq)]
pub struct Body {
    pub length: u8,
    pub bytes: [u8; 8],
}
