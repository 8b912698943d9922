// The monitor on the bench: with the last accepted stamp it gives the refusals. A refused event leaves the bench as it was; a refused power-on
// gives none.
ghost use Rattle.std.specs.Prelude.{◌≡◌, cond, Ok, Err};
ghost use Rattle.refusal.specs.declared.Refusal.TheVariants.{EarlyStamp};
ghost use Rattle.time.specs.Times.{earlier};
ghost use Rattle.rules.specs.Events.{frame_event, reset_event};
ghost use Rattle.monitor.specs.Bench.{powered_on, outcome_of, uptime_asked};

use crate::turn::start_with;
use crate::unit;
use codec_pages::frame::Frame;
use codec_rows::limits::over_limits;
use maintenance::setting::is_accepted;
use maintenance_pages::setting::Settings;
use refusal::Refusal;
use rules::unit::{Monitor, Turn};
use time::{Stamp, Ticks};

#[derive(Clone, Copy)]
pub struct Bench {
    monitor: Monitor,
    last: Stamp,
}

impl Bench {
    pub fn power_on(
        at: Stamp,
        serial: [u8; 16],
        rating: u16,
        settings: Settings,
    ) -> Result<Bench, Refusal>
        ensures { result ≡ powered_on at serial rating settings }
    {
        if !is_accepted(rating, settings) {
            return Err(Refusal::NotLegal);
        }
        Ok(Bench {
            monitor: start_with(serial, rating, settings, at),
            last: at,
        })
    }

    // The six settings that are stored.
    pub fn stored(&self) -> Settings
        ensures { result ≡ self.now.monitor.stored }
    {
        self.monitor.stored
    }

    // Refusal 7.
    fn in_order(&self, at: Stamp) -> Result<(), Refusal>
        ensures { result ≡ cond (earlier at self.now.last) (Err EarlyStamp) (Ok tt) }
    {
        if at.is_earlier(self.last) {
            return Err(Refusal::EarlyStamp);
        }
        Ok(())
    }

    // ---- events: the reply, if there is one

    fn take(&mut self, at: Stamp, turn: Turn) -> Option<Frame>
        ensures monitor { self.new.monitor ≡ turn.monitor }
        ensures last { self.new.last ≡ at }
        ensures reply { result ≡ turn.reply }
    {
        let Turn { monitor, reply } = turn;
        self.monitor = monitor;
        self.last = at;
        reply
    }

    pub fn frame_event(
        &mut self,
        at: Stamp,
        storing: bool,
        f: Frame,
    ) -> Result<Option<Frame>, Refusal>
        ensures answer { result ≡ (outcome_of (frame_event at storing f) self.old).answer }
        ensures bench { self.new ≡ (outcome_of (frame_event at storing f) self.old).bench }
    {
        if over_limits(f) {
            return Err(Refusal::OverLimits);
        }
        self.in_order(at)?;
        let turn = unit::frame(self.monitor, at, storing, f);
        Ok(self.take(at, turn))
    }

    pub fn reset_event(&mut self, at: Stamp) -> Result<Option<Frame>, Refusal>
        ensures answer { result ≡ (outcome_of (reset_event at) self.old).answer }
        ensures bench { self.new ≡ (outcome_of (reset_event at) self.old).bench }
    {
        self.in_order(at)?;
        let turn = unit::reset(self.monitor, at);
        Ok(self.take(at, turn))
    }

    // ---- the uptime question

    pub fn uptime(&self, at: Stamp) -> Result<Ticks, Refusal>
        ensures { result ≡ uptime_asked at self.now }
    {
        self.in_order(at)?;
        Ok(unit::uptime(self.monitor, at))
    }
}
