// A frame heard outside a session.
ghost use Rattle.std.specs.Prelude.{◌≡◌};
ghost use Rattle.rules.specs.Rules.{unlocked, answered, serial_asked, outside};

use crate::turn::{give_up, go_on, ignore, move_to};
use codec_pages::frame::Frame;
use maintenance::message::{ack_reply, challenge_reply, is_right, serial_reply};
use maintenance_pages::message::{Message, SerialWord};
use rules::unit::{Monitor, Phase, Turn};
use time::Stamp;

// A monitor outside a session, with the stamp of the challenge that waits for its answer, if one does, at the stamp of the frame that it meets.
#[derive(Clone, Copy)]
pub(crate) struct Outside {
    pub monitor: Monitor,
    pub pending: Option<Stamp>,
    pub at: Stamp,
}

impl Outside {
    fn unlock(self) -> Turn
        ensures { result ≡ unlocked self.at self.monitor }
    {
        let m = self.monitor;
        if self.at.is_past(m.start, 10000) {
            return give_up(m);
        }
        let reply = challenge_reply(m.stored.transmit, m.serial);
        move_to(m, Phase::Outside(Some(self.at)), reply)
    }

    fn answer(self, f: Frame) -> Turn
        ensures { result ≡ answered self.pending self.at f self.monitor }
    {
        let m = self.monitor;
        let Some(since) = self.pending else {
            return ignore(m);
        };
        if is_right(m.serial, f) & !self.at.is_past(since, 2000) {
            return go_on(m, m.stored, self.at, ack_reply(m.stored.transmit));
        }
        give_up(m)
    }

    fn serial_request(self, word: SerialWord) -> Turn
        ensures { result ≡ serial_asked word self.monitor }
    {
        let m = self.monitor;
        Turn {
            monitor: m,
            reply: serial_reply(m.stored.transmit, m.serial, word),
        }
    }

    pub(crate) fn meet(self, message: Message, f: Frame) -> Turn
        ensures { result ≡ outside message self.pending self.at f self.monitor }
    {
        match message {
            Message::Unlock => self.unlock(),
            Message::Answer => self.answer(f),
            Message::SerialRequest(word) => self.serial_request(word),
            Message::Read(_) | Message::Write(_, _) | Message::Commit | Message::Other => {
                ignore(self.monitor)
            }
        }
    }
}
