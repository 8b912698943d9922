// Two units of time, kept apart: milliseconds of the bench and ticks of the uptime. Stamps are compared here, and nothing
// else turns stamps into ticks.
#![tactic(auto)]

ghost use Rattle.std.specs.Prelude.{◌≡◌};
ghost use Rattle.time.specs.Times.{earlier, past_limit, ticks_between};

// A moment on the bench's clock, in milliseconds. An earlier one is less.
#[derive(Clone, Copy, PartialEq, Eq, PartialOrd, Ord, Debug)]
pub struct Stamp(pub u32);

// A span of the uptime, in ticks of ten milliseconds.
#[derive(Clone, Copy, PartialEq, Eq, PartialOrd, Ord, Debug)]
pub struct Ticks(pub u32);

impl Stamp {
    pub fn is_earlier(self, other: Stamp) -> bool
        ensures { result ≡ earlier self other }
    {
        self < other
    }

    // Whether more than so many milliseconds lie between a stamp and this one.
    pub fn is_past(self, since: Stamp, limit: u32) -> bool
        ensures { result ≡ past_limit since limit self }
    {
        u64::from(since.0) + u64::from(limit) < u64::from(self.0)
    }

    // The ticks since a stamp, rounded down: none if that one is later.
    pub fn ticks_since(self, since: Stamp) -> Ticks
        ensures { result ≡ ticks_between since self }
    {
        Ticks(self.0.saturating_sub(since.0) / 10)
    }
}
