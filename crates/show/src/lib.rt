// A line of an answer, the way the programs that answer cases write one: it is put together first and written at
// once, so that a program knows whether it was written.
#![tactic(auto, using(crate::proofs::Adding::added_twice))]

ghost use Rattle.std.specs.Prelude.{◌≡◌, [], ◌∷◌, ◌%◌};
ghost use Rattle.text.specs.Figures.{figure, hexadecimal, decimal};
ghost use Rattle.show.specs.Lines.{Adds, line_feed, value_text, refused_text, identifier_text, spaced_text, data_text, frame_text, no_line};

use codec_pages::frame::Frame;
use door::{WriteFailed, write_first};
use refusal::Refusal;
use text::{Text, hex_figure};

// The bytes of the line and how many there are. None of the answers is longer than this; of one that was, no byte
// is written.
#[derive(Clone, Copy)]
pub struct Line {
    pub bytes: [u8; 160],
    pub n: usize,
}

#[tactic(auto, unfolding(crate::specs::Lines::added))]
impl Line {
    pub fn empty() -> Line
        ensures { result ≡ no_line }
    {
        Line {
            bytes: [0; 160],
            n: 0,
        }
    }

    pub fn text(&mut self, s: &[u8])
        ensures { Adds self.old s.now self.new }
    {
        let mut text = Text::new(&mut self.bytes, self.n);
        text.bytes(s);
        self.n = text.end();
    }

    pub fn byte(&mut self, b: u8)
        ensures { Adds self.old (b ∷ []) self.new }
    {
        self.text(&[b]);
    }

    // A number of 32 bits in eight digits.
    pub fn hex8(&mut self, word: u32)
        ensures { Adds self.old (hexadecimal 8 word) self.new }
    {
        let mut text = Text::new(&mut self.bytes, self.n);
        text.hex8(word);
        self.n = text.end();
    }

    // A byte in two digits after one space.
    pub fn spaced(&mut self, b: u8)
        ensures { Adds self.old (spaced_text b) self.new }
    {
        let mut text = Text::new(&mut self.bytes, self.n);
        text.spaced_hex2(b);
        self.n = text.end();
    }

    // A number in decimal.
    pub fn decimal(&mut self, number: u32)
        ensures { Adds self.old (decimal number) self.new }
    {
        let mut text = Text::new(&mut self.bytes, self.n);
        text.decimal(number);
        self.n = text.end();
    }
}

impl Line {
    // The last hexadecimal digit of a number.
    fn figure(&mut self, n: u32)
        ensures { Adds self.old (figure (n % 16) ∷ []) self.new }
    {
        self.byte(hex_figure(n));
    }

    // A byte in two digits.
    #[tactic(auto, using(crate::proofs::Adding::added_twice), unfolding(text::specs::Figures::hexadecimal))]
    pub fn hex2(&mut self, b: u8)
        ensures { Adds self.old (hexadecimal 2 b) self.new }
    {
        self.figure(b as u32 / 16);
        self.figure(b as u32);
    }

    // Bytes in two digits each, each after one space.
    #[tactic(auto, using(crate::proofs::Adding::added_twice, crate::proofs::Adding::added_none, std::proofs::lemmas::Grind::common_steps))]
    pub fn data(&mut self, bytes: &[u8])
        ensures { Adds self.old (data_text bytes.now) self.new }
    {
        for b in bytes {
            self.spaced(*b);
        }
    }

    // A number in decimal after one space.
    pub fn value(&mut self, number: u32)
        ensures { Adds self.old (value_text number) self.new }
    {
        self.byte(b' ');
        self.decimal(number);
    }

    pub fn refused(&mut self, why: Refusal)
        ensures { Adds self.old (refused_text why) self.new }
    {
        self.text(b"refused");
        self.value(u32::from(u8::from(why)));
    }

    // Eight digits of an extended identifier. No frame that is sent is standard: three would show that one is.
    #[tactic(auto, using(crate::proofs::Adding::added_twice), unfolding(text::specs::Figures::hexadecimal))]
    fn identifier(&mut self, f: Frame)
        ensures { Adds self.old (identifier_text f) self.new }
    {
        let n = f.identifier;
        if f.extended {
            self.hex8(n);
        } else {
            self.figure(n / 16 / 16);
            self.figure(n / 16);
            self.figure(n);
        }
    }

    // The identifier, the length and all eight bytes, those past the length too.
    pub fn frame(&mut self, f: Frame)
        ensures { Adds self.old (frame_text f) self.new }
    {
        self.identifier(f);
        self.value(f.length as u32);
        self.data(&f.bytes);
    }

    // The end of a line.
    pub fn end(&mut self)
        ensures { Adds self.old line_feed self.new }
    {
        self.byte(b'\n');
    }

    // Writes the line, to its end.
    pub fn write(&self) -> Result<(), WriteFailed> {
        let text = self.bytes.get(..self.n).ok_or(WriteFailed)?;
        write_first(text, text.len())
    }
}
