// What an event may leave: the monitor started, or as it goes on, and the reply.
ghost use Rattle.std.specs.Prelude.{◌≡◌};
ghost use Rattle.rules.specs.Rules.{turn, in_phase, started_with, started, ignored, given_up, goes_on, heard};

use codec_pages::frame::Frame;
use maintenance::message::nak_reply;
use maintenance_pages::setting::Settings;
use rules::unit::{Monitor, Phase, Session, Turn};
use time::Stamp;

// Every start leaves it locked, with no draft and nothing pending.
pub(crate) fn start_with(serial: [u8; 16], rating: u16, stored: Settings, at: Stamp) -> Monitor
    ensures { result ≡ started_with serial rating stored at }
{
    Monitor {
        serial,
        rating,
        stored,
        start: at,
        phase: Phase::Outside(None),
    }
}

pub(crate) fn start_again(m: Monitor, stored: Settings, at: Stamp) -> Monitor
    ensures { result ≡ started at stored m }
{
    start_with(m.serial, m.rating, stored, at)
}

// No reply, and nothing changes.
pub(crate) fn ignore(m: Monitor) -> Turn
    ensures { result ≡ ignored m }
{
    Turn {
        monitor: m,
        reply: None,
    }
}

pub(crate) fn move_to(m: Monitor, phase: Phase, reply: Option<Frame>) -> Turn
    ensures { result ≡ turn (in_phase phase m) reply }
{
    Turn {
        monitor: Monitor { phase, ..m },
        reply,
    }
}

// NAK, and nothing is pending.
pub(crate) fn give_up(m: Monitor) -> Turn
    ensures { result ≡ given_up m }
{
    move_to(m, Phase::Outside(None), nak_reply(m.stored.transmit))
}

// A session with this draft; the 2,000 ms run from here.
pub(crate) fn go_on(m: Monitor, draft: Settings, at: Stamp, reply: Option<Frame>) -> Turn
    ensures { result ≡ goes_on at draft reply m }
{
    move_to(m, Phase::InSession(Session { heard: at, draft }), reply)
}
