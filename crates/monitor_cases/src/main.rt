// Plays the runs of a cases file on standard input, a line for each record: docs/MONITOR_CASES.md has both formats.
#![tactic(auto, using(show::proofs::Adding::added_twice))]

ghost use Rattle.std.specs.Prelude.{◌≡◌};
ghost use Rattle.show.specs.Lines.{Adds};
ghost use Rattle.monitor_cases.specs.Monitors.{after_event, after_power_on};
ghost use Rattle.monitor_cases.specs.Cases.{event_of};
ghost use Rattle.monitor_cases.specs.Answers.{question_line, event_line, second, power_on_line};

mod line;
mod record;

use door::LastWord;
use door::turn::{Answers, next_if, read_first, read_further};
use maintenance::message::answer_to;
use monitor::bench::Bench;
use record::{Event, Question};
use refusal::Refusal;
use show::Line;
use std::io::Stdin;
use std::ops::ControlFlow;
use time::Stamp;

fn uptime_question(bench: Option<Bench>, line: &mut Line, at: Stamp)
    ensures { Adds line.old (question_line bench at) line.new }
{
    match bench {
        Some(bench) => {
            line::uptime(line, bench.uptime(at));
            line::settings(line, bench);
        }
        None => line::no_monitor(line),
    }
}

// Where no monitor is on, an event reaches nothing.
fn event(bench: &mut Option<Bench>, line: &mut Line, asked: Event)
    ensures after { bench.new ≡ after_event bench.old (event_of asked) }
    ensures line { Adds line.old (event_line bench.old (event_of asked)) line.new }
{
    match bench {
        Some(bench) => {
            line::outcome(line, asked.put(bench));
            line::settings(line, *bench);
        }
        None => line::no_monitor(line),
    }
}

// The second part of a power-on's line, by the monitor that is on after it.
fn second_part(line: &mut Line, bench: Option<Bench>)
    ensures { Adds line.old (second bench) line.new }
{
    match bench {
        Some(bench) => line::settings(line, bench),
        None => line.end(),
    }
}

// An accepted power-on begins a new monitor; a refused one leaves the one before as it was.
fn power_on(bench: &mut Option<Bench>, line: &mut Line, answer: Result<Bench, Refusal>)
    ensures after { bench.new ≡ after_power_on bench.old answer }
    ensures line { Adds line.old (power_on_line bench.old answer) line.new }
{
    *bench = answer.ok().or(*bench);
    line::power_on(line, answer);
    second_part(line, *bench);
}

// The records on standard input, and the monitor that is on, if one is.
#[derive(Drop)]
struct Records {
    stdin: Stdin,
    bench: Option<Bench>,
}

impl Records {
    // Puts the answer to a question on the line. A power-on goes on past the first twenty bytes.
    fn answer(&mut self, line: &mut Line, asked: Question) -> ControlFlow<LastWord> {
        match asked {
            Question::Event(asked) => event(&mut self.bench, line, asked),
            Question::Uptime(at) => uptime_question(self.bench, line, at),
            Question::PowerOn(first) => {
                let mut rest = [0u8; 28];
                read_further(&mut self.stdin, &mut rest)?;
                power_on(&mut self.bench, line, record::powered_on(first, rest));
            }
            Question::Challenge(challenge) => line::answer(line, answer_to(challenge)),
        }
        ControlFlow::Continue(())
    }
}

impl Answers for Records {
    // A record is read and answered, up to one that asks nothing known.
    fn answer_next(&mut self) -> ControlFlow<LastWord> {
        let mut r = [0u8; 20];
        read_first(&mut self.stdin, &mut r)?;
        let Some(question) = Question::of(r) else {
            return ControlFlow::Break(LastWord::Refused);
        };
        let mut line = Line::empty();
        self.answer(&mut line, question)?;
        next_if(line.write())
    }
}

fn main(rt: HostRuntime) {
    let mut records = Records {
        stdin: rt.stdin(),
        bench: None,
    };
    door::close(records.answer_all());
}
