// The monitor itself, rule by rule. It is given events that are within the limits and in order, and refuses nothing.
ghost use Rattle.std.specs.Prelude.{◌≡◌};
ghost use Rattle.rules.specs.Rules.{woken, heard, met, framed, was_reset, uptime_of};

use crate::outside::Outside;
use crate::session::InSession;
use crate::turn::{ignore, start_again};
use codec_pages::frame::Frame;
use maintenance::message::message_of;
use rules::unit::{Monitor, Phase, Session, Turn};
use time::{Stamp, Ticks};

// The monitor as an event at this stamp finds it: in a session, more than 2,000 ms without a heard message have started it again.
fn wake(m: Monitor, at: Stamp) -> Monitor
    ensures { result ≡ woken at m }
{
    match m.phase {
        Phase::Outside(_) => m,
        Phase::InSession(s) => {
            if at.is_past(s.heard, 2000) {
                return start_again(m, m.stored, Stamp(s.heard.0 + 2000));
            }
            m
        }
    }
}

fn is_heard(m: Monitor, f: Frame) -> bool
    ensures { result ≡ heard f m }
{
    f.extended & (f.identifier == m.stored.receive)
}

// A heard frame, met by a monitor that silence has already had its way with.
fn meet(m: Monitor, at: Stamp, storing: bool, f: Frame) -> Turn
    ensures { result ≡ met at storing f m }
{
    let message = message_of(f);
    let monitor = m;
    match m.phase {
        Phase::Outside(pending) => {
            let outside = Outside {
                monitor,
                pending,
                at,
            };
            outside.meet(message, f)
        }
        Phase::InSession(Session { draft, .. }) => {
            let session = InSession { monitor, draft, at };
            session.meet(message, storing)
        }
    }
}

pub(crate) fn frame(m: Monitor, at: Stamp, storing: bool, f: Frame) -> Turn
    ensures { result ≡ framed at storing f m }
{
    let w = wake(m, at);
    if is_heard(w, f) {
        return meet(w, at, storing, f);
    }
    ignore(w)
}

pub(crate) fn reset(m: Monitor, at: Stamp) -> Turn
    ensures { result ≡ was_reset at m }
{
    ignore(start_again(m, m.stored, at))
}

// The uptime at a stamp: the ticks since the last start, silence counted.
pub(crate) fn uptime(m: Monitor, at: Stamp) -> Ticks
    ensures { result ≡ uptime_of at m }
{
    let w = wake(m, at);
    at.ticks_since(w.start)
}
