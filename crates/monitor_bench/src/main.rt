// Programs the fault level a million times, seven events a time, and prints a sum over every reply: bench/events
// times it beside plain C.
#![tactic(auto)]

ghost use Rattle.std.specs.Prelude.{◌≡◌, ◌%◌, ◌*◌, Ok};
ghost use Rattle.rules.specs.Events.{reset_event};
ghost use Rattle.monitor.specs.Bench.{reply_in, outcome_of};
ghost use Rattle.monitor_bench.specs.Sessions.{frame_on, host_frame, said, sum_with, counts, plays, session_from, stamp_at, unit_on_bench};

use codec_pages::frame::Frame;
use door::LastWord;
use maintenance_pages::setting::Settings;
use monitor::bench::Bench;
use refusal::Refusal;
use time::Stamp;
use words::Order;
use words::word::Word;

// The bench, and the sum so far.
#[derive(Clone, Copy)]
struct Run {
    bench: Bench,
    sum: u64,
}

fn on(identifier: u32, length: u8, bytes: [u8; 8]) -> Frame
    ensures { result ≡ frame_on identifier length bytes }
{
    Frame {
        extended: true,
        identifier,
        length,
        bytes,
    }
}

fn host(length: u8, bytes: [u8; 8]) -> Frame
    ensures { result ≡ host_frame length bytes }
{
    on(0x0A100101, length, bytes)
}

// The length of a reply and its bytes 0 and 4, in one word.
fn said(answer: Result<Option<Frame>, Refusal>) -> u32
    ensures { result ≡ said (reply_in answer) }
{
    match answer {
        Ok(Some(f)) => u32::from_bytes(Order::Big, [0, f.length, f.bytes[0], f.bytes[4]]),
        Ok(None) | Err(_) => 0,
    }
}

impl Run {
    fn count(&mut self, answer: Result<Option<Frame>, Refusal>)
        ensures bench { self.new.bench ≡ self.old.bench }
        ensures sum { self.new.sum ≡ sum_with (reply_in answer) self.old.sum }
    {
        self.sum = self.sum % 1099511627776 * 31 + u64::from(said(answer));
    }

    #[tactic(auto, unfolding(crate::specs::Sessions::counts, crate::specs::Sessions::plays))]
    fn play(&mut self, at: u32, frame: Frame)
        ensures { self.new ≡ plays frame (stamp_at at) self.old }
    {
        let answer = self.bench.frame_event(Stamp(at), true, frame);
        self.count(answer);
    }

    #[tactic(auto, unfolding(crate::specs::Sessions::counts))]
    fn reset(&mut self, at: u32)
        ensures { self.new ≡ counts (outcome_of (reset_event (stamp_at at)) self.old.bench) self.old.sum }
    {
        let answer = self.bench.reset_event(Stamp(at));
        self.count(answer);
    }

    // A reset, and a session that writes and reads the fault level and commits it, with a frame of another node in
    // between.
    fn session(&mut self, turn: u32)
        ensures { self.new ≡ session_from (turn % 1000000 * 4000) (turn % 256) self.old }
    {
        let at = turn % 1000000 * 4000;
        let level = (turn % 256) as u8;
        self.reset(at);
        self.play(at + 500, host(3, [0x14, 0x28, 0xD5, 0, 0, 0, 0, 0]));
        self.play(
            at + 1000,
            host(8, [0x14, 0x53, 0x4F, 0x46, 0x50, 0x4D, 0x48, 0x44]),
        );
        self.play(
            at + 1500,
            on(0x0A100102, 3, [0x14, 0x9A, 0x28, 0, 0, 0, 0, 0]),
        );
        self.play(at + 2000, host(5, [0x20, 0, 0, 0, level, 0, 0, 0]));
        self.play(at + 2500, host(1, [0x20, 0, 0, 0, 0, 0, 0, 0]));
        self.play(at + 3000, host(3, [0x14, 0x9A, 0x28, 0, 0, 0, 0, 0]));
    }
}

fn powered() -> Bench
    ensures { Ok result ≡ unit_on_bench }
{
    let defaults = Settings {
        receive: 0x0A100101,
        transmit: 0x0A100100,
        speed: 0x00CA0500,
        voltage: 0,
        warning: 500,
        fault: 100,
    };
    Bench::power_on(
        Stamp(0),
        [0, 1, 2, 3, 4, 5, 6, 7, 8, 9, 10, 11, 12, 13, 14, 15],
        1000,
        defaults,
    )
    .unwrap()
}

// The sum on a line, and the last word by whether it was written.
fn write_sum(sum: u64) -> LastWord {
    let figures = io::print_decimal(1, sum);
    if figures && door::write_first(b"\n", 1).is_ok() {
        return LastWord::Complete;
    }
    LastWord::Cut
}

fn main() {
    let mut run = Run {
        bench: powered(),
        sum: 0,
    };
    for turn in 0..1000000 {
        run.session(turn);
    }
    door::close(write_sum(run.sum));
}
