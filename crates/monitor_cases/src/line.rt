// Answers as lines of text, each put at the end of a line.
#![tactic(auto, using(show::proofs::Adding::added_twice))]

ghost use Rattle.show.specs.Lines.{Adds};
ghost use Rattle.monitor_cases.specs.Lines.{stored_text, no_monitor_text, reply_text, outcome_text, power_on_text, uptime_text, answer_text};

use codec_pages::frame::Frame;
use maintenance::setting::speed_number;
use monitor::bench::Bench;
use refusal::Refusal;
use show::Line;
use time::Ticks;

// The second part of a line, with its end.
pub fn settings(line: &mut Line, b: Bench)
    ensures { Adds line.old (stored_text b) line.new }
{
    let k = b.stored();
    line.text(b" stored ");
    line.hex8(k.receive);
    line.byte(b' ');
    line.hex8(k.transmit);
    line.value(speed_number(k.speed));
    line.value(k.voltage);
    line.value(k.warning);
    line.value(k.fault);
    line.end();
}

// The line where there is no monitor: before the first accepted power-on.
pub fn no_monitor(line: &mut Line)
    ensures { Adds line.old no_monitor_text line.new }
{
    line.text(b"no monitor");
    line.end();
}

fn reply(line: &mut Line, reply: Option<Frame>)
    ensures { Adds line.old (reply_text reply) line.new }
{
    match reply {
        Some(f) => line.frame(f),
        None => line.text(b"no reply"),
    }
}

// The first part of an event's line.
pub fn outcome(line: &mut Line, answer: Result<Option<Frame>, Refusal>)
    ensures { Adds line.old (outcome_text answer) line.new }
{
    match answer {
        Ok(sent) => reply(line, sent),
        Err(why) => line.refused(why),
    }
}

// The first part of a power-on's line.
pub fn power_on(line: &mut Line, answer: Result<Bench, Refusal>)
    ensures { Adds line.old (power_on_text answer) line.new }
{
    match answer {
        Ok(_) => line.text(b"on"),
        Err(why) => line.refused(why),
    }
}

// The first part of an uptime question's line.
pub fn uptime(line: &mut Line, answer: Result<Ticks, Refusal>)
    ensures { Adds line.old (uptime_text answer) line.new }
{
    match answer {
        Ok(ticks) => {
            line.text(b"ticks");
            line.value(ticks.0);
        }
        Err(why) => line.refused(why),
    }
}

// The line of a challenge.
pub fn answer(line: &mut Line, a: [u8; 7])
    ensures { Adds line.old (answer_text a) line.new }
{
    line.text(b"answer");
    line.data(&a);
    line.end();
}
