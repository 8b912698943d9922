// Answers the questions of a cases file on standard input, a line for each: docs/CODEC_CASES.md has both formats.
#![tactic(auto)]

ghost use Rattle.show.specs.Lines.{Adds};
ghost use Rattle.codec_cases.specs.Answers.{answer_line};

mod ask;
mod line;

use ask::{Question, What};
use codec_build::building::build;
use codec_pages::report::Report;
use codec_pages::request::Request;
use codec_read::reading::read;
use door::LastWord;
use door::turn::{Answers, next_if, read_first};
use line::Show;
use show::Line;
use std::io::Stdin;
use std::ops::ControlFlow;

// A question put to the codec, and its answer at the end of a line.
fn answer(line: &mut Line, question: Question)
    ensures { Adds line.old (answer_line question) line.new }
{
    let kind = question.kind;
    let id = question.identifier;
    match question.what {
        What::ReadReport(frame) => read::<Report>(kind, id, frame).show(line),
        What::ReadRequest(frame) => read::<Request>(kind, id, frame).show(line),
        What::BuildReport(report) => build(kind, id, report).show(line),
        What::BuildRequest(request) => build(kind, id, request).show(line),
    }
}

// The questions of a cases file on standard input.
#[derive(Drop)]
struct Questions {
    stdin: Stdin,
}

impl Answers for Questions {
    // A record is read and answered, up to one that asks nothing known.
    fn answer_next(&mut self) -> ControlFlow<LastWord> {
        let mut r = [0u8; 20];
        read_first(&mut self.stdin, &mut r)?;
        let Some(question) = Question::of(r) else {
            return ControlFlow::Break(LastWord::Refused);
        };
        let mut line = Line::empty();
        answer(&mut line, question);
        next_if(line.write())
    }
}

fn main(rt: HostRuntime) {
    let mut questions = Questions { stdin: rt.stdin() };
    door::close(questions.answer_all());
}
