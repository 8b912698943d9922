// Answers as lines of text, each put at the end of a line.
#![tactic(auto, using(show::proofs::Adding::added_twice))]

ghost use Rattle.std.specs.Prelude.{ℕ, List, ◌++◌};
ghost use Rattle.show.specs.Lines.{Adds, frame_text};
ghost use Rattle.codec_cases.specs.Lines.{signed_text, estimates_text, voltages_text, battery_text, flags_text, report_text, request_text, answered_line};

use codec_pages::frame::Frame;
use codec_pages::report::{Battery, ErrorFlags, Estimates, Report, Voltages};
use codec_pages::request::Request;
use refusal::Refusal;
use show::Line;

// What is put at the end of a line as a text.
pub trait Show {
    ghost shown: { Self → List ℕ };

    fn show(self, line: &mut Line)
        ensures { Adds line.old (shown self) line.new };
}

// A number in decimal after one space, with a minus sign before a negative one.
fn signed(line: &mut Line, number: i32)
    ensures { Adds line.old (signed_text number) line.new }
{
    if number < 0 {
        line.text(b" -");
        line.decimal(number.unsigned_abs());
    } else {
        line.value(number as u32);
    }
}

impl Show for Estimates {
    ghost shown = { estimates_text };

    fn show(self, line: &mut Line) {
        line.value(self.status as u32);
        line.value(self.first as u32);
        line.value(self.first_uncertainty as u32);
        line.value(self.second as u32);
        line.value(self.second_uncertainty as u32);
    }
}

impl Show for Voltages {
    ghost shown = { voltages_text };

    fn show(self, line: &mut Line) {
        line.value(self.status as u32);
        signed(line, self.vp);
        line.value(self.vp_uncertainty as u32);
        signed(line, self.vn);
        line.value(self.vn_uncertainty as u32);
    }
}

impl Show for Battery {
    ghost shown = { battery_text };

    fn show(self, line: &mut Line) {
        line.value(self.status as u32);
        signed(line, self.vb);
        line.value(self.vb_uncertainty as u32);
        line.value(self.vb_max as u32);
        line.value(self.vb_max_uncertainty as u32);
    }
}

impl Show for ErrorFlags {
    ghost shown = { flags_text };

    fn show(self, line: &mut Line) {
        line.value(self.status as u32);
        line.value(self.flags as u32);
    }
}

// What stands behind the multiplexer.
fn row<T: Show>(line: &mut Line, mux: &[u8], values: T)
    ensures { Adds line.old (mux.now ++ T.shown values) line.new }
{
    line.text(mux);
    values.show(line);
}

impl Show for Report {
    ghost shown = { report_text };

    fn show(self, line: &mut Line) {
        match self {
            Report::IsolationState(e) => row(line, b"E0", e),
            Report::Resistances(e) => row(line, b"E1", e),
            Report::Capacitances(e) => row(line, b"E2", e),
            Report::PoleVoltages(v) => row(line, b"E3", v),
            Report::BatteryVoltage(b) => row(line, b"E4", b),
            Report::Errors(e) => row(line, b"E5", e),
            Report::Word(mux, word) => {
                line.hex2(mux);
                line.value(word);
            }
            Report::Temperature(z) => {
                line.text(b"80");
                signed(line, z);
            }
            Report::WorkingVoltage(v) => {
                line.text(b"F0");
                line.value(v as u32);
            }
        }
    }
}

impl Show for Request {
    ghost shown = { request_text };

    fn show(self, line: &mut Line) {
        match self {
            Request::ReadIsolationState => line.text(b"E0"),
            Request::ReadResistances => line.text(b"E1"),
            Request::ReadCapacitances => line.text(b"E2"),
            Request::ReadVoltages => line.text(b"E3"),
            Request::ReadBattery => line.text(b"E4"),
            Request::ReadErrorFlags => line.text(b"E5"),
            Request::ReadWord(mux) => line.hex2(mux),
            Request::ReadTemperature => line.text(b"80"),
            Request::SetWorkingVoltage(v) => {
                line.text(b"F0");
                line.value(v as u32);
            }
        }
    }
}

impl Show for Frame {
    ghost shown = { frame_text };

    fn show(self, line: &mut Line) {
        line.frame(self);
    }
}

// A whole line: what was answered, or the refusal.
impl<T: Show> Show for Result<T, Refusal> {
    ghost shown = { answered_line T.shown };

    fn show(self, line: &mut Line) {
        match self {
            Ok(answer) => answer.show(line),
            Err(why) => line.refused(why),
        }
        line.end();
    }
}
