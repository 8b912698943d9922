// What a monitor holds, and what an event leaves.
use codec_pages::frame::Frame;
use maintenance_pages::setting::Settings;
use time::Stamp;

// A session: the stamp of the last heard message, and the draft.
#[derive(Clone, Copy)]
pub struct Session {
    pub heard: Stamp,
    pub draft: Settings,
}

// Outside a session a challenge may wait for its answer, since its stamp.
#[derive(Clone, Copy)]
pub enum Phase {
    Outside(Option<Stamp>),
    InSession(Session),
}

#[derive(Clone, Copy)]
pub struct Monitor {
    pub serial: [u8; 16],
    pub rating: u16,
    pub stored: Settings,
    pub start: Stamp,
    pub phase: Phase,
}

// What an event leaves: the monitor, and its reply, if there is one.
#[derive(Clone, Copy)]
pub struct Turn {
    pub monitor: Monitor,
    pub reply: Option<Frame>,
}
