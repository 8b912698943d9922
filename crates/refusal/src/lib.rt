// Document 01's list of refusals. A refusal returns the number alone; state and lent memory are unchanged.
#![tactic(auto)]

ghost use Rattle.std.specs.Prelude.{◌≡◌};
ghost use Rattle.refusal.specs.Refusals.{number_of};

#[derive(Clone, Copy, PartialEq, Eq)]
pub enum Refusal {
    // A frame's length is over 8, or its identifier over the limit of its format.
    OverLimits,
    // A report or request is not extended, or not on the expected identifier.
    NotExpected,
    // Length 0, or a multiplexer that is not listed for the device kind.
    NotListed,
    // The wrong length for the multiplexer.
    WrongLength,
    // A SIM100 status byte with bit 4 set, or with bits 1-0 equal to 01.
    WrongStatus,
    // A value to be built does not fit its field, or is such a status byte.
    DoesNotFit,
    // A stamp earlier than the last accepted one, or than power-on.
    EarlyStamp,
    // Power-on settings, rating or log block not legal.
    NotLegal,
    // The length or the trailer of a log is wrong.
    WrongLog,
    // A record of a log is wrong.
    WrongRecord,
    // An order sheet is wrong.
    WrongSheet,
    // The buffer lent for a text is shorter than the text.
    ShortBuffer,
}

// The number that document 01 gives a refusal.
impl From<Refusal> for u8 {
    ghost from_gives = { λ why n. n ≡ number_of why };

    fn from(why: Refusal) -> u8 {
        match why {
            Refusal::OverLimits => 1,
            Refusal::NotExpected => 2,
            Refusal::NotListed => 3,
            Refusal::WrongLength => 4,
            Refusal::WrongStatus => 5,
            Refusal::DoesNotFit => 6,
            Refusal::EarlyStamp => 7,
            Refusal::NotLegal => 8,
            Refusal::WrongLog => 9,
            Refusal::WrongRecord => 10,
            Refusal::WrongSheet => 11,
            Refusal::ShortBuffer => 12,
        }
    }
}
