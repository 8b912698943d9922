// A frame heard in a session.
ghost use Rattle.std.specs.Prelude.{◌≡◌};
ghost use Rattle.rules.specs.Rules.{refused, was_read, written, committed, inside};

use crate::turn::{go_on, start_again};
use maintenance::message::{ack_reply, nak_reply, value_reply};
use maintenance::setting::{is_legal, value_of, with_value};
use maintenance_pages::message::Message;
use maintenance_pages::setting::{Setting, Settings};
use rules::unit::{Monitor, Turn};
use time::Stamp;

// A monitor in a session, with its draft, at the stamp of the frame that it meets.
#[derive(Clone, Copy)]
pub(crate) struct InSession {
    pub monitor: Monitor,
    pub draft: Settings,
    pub at: Stamp,
}

impl InSession {
    // NAK, and the session goes on.
    fn refuse(self) -> Turn
        ensures { result ≡ refused self.at self.draft self.monitor }
    {
        let transmit = self.monitor.stored.transmit;
        go_on(self.monitor, self.draft, self.at, nak_reply(transmit))
    }

    fn read(self, setting: Setting) -> Turn
        ensures { result ≡ was_read setting self.at self.draft self.monitor }
    {
        let transmit = self.monitor.stored.transmit;
        let shown = value_reply(transmit, setting, value_of(self.draft, setting));
        go_on(self.monitor, self.draft, self.at, shown)
    }

    fn write(self, setting: Setting, value: u32) -> Turn
        ensures { result ≡ written setting value self.at self.draft self.monitor }
    {
        if !is_legal(self.monitor.rating, setting, value) {
            return self.refuse();
        }
        let draft = with_value(self.draft, setting, value);
        let transmit = self.monitor.stored.transmit;
        go_on(self.monitor, draft, self.at, ack_reply(transmit))
    }

    fn commit(self, storing: bool) -> Turn
        ensures { result ≡ committed storing self.at self.draft self.monitor }
    {
        let m = self.monitor;
        let draft = self.draft;
        let transmit = m.stored.transmit;
        if storing {
            return Turn {
                monitor: start_again(m, draft, self.at),
                reply: ack_reply(transmit),
            };
        }
        Turn {
            monitor: start_again(m, m.stored, self.at),
            reply: nak_reply(transmit),
        }
    }

    pub(crate) fn meet(self, message: Message, storing: bool) -> Turn
        ensures { result ≡ inside message self.draft self.at storing self.monitor }
    {
        match message {
            Message::Read(setting) => self.read(setting),
            Message::Write(setting, value) => self.write(setting, value),
            Message::Commit => self.commit(storing),
            Message::Unlock | Message::Answer | Message::SerialRequest(_) | Message::Other => {
                self.refuse()
            }
        }
    }
}
