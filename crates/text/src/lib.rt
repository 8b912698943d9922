// Figures and bytes into a lent buffer, one after another. What does not fit is not written; the place is counted on all the same, so that a text can be
// measured by putting it into a buffer that is too short. Nothing is written into a buffer any other way.
//
// What is put in a loop is compiled into it, so that the place stays in a register there: a method that is called has it in memory.
#![tactic(auto)]

ghost use Rattle.std.specs.Prelude.{◌≡◌, [], ◌∷◌, ◌+◌, ◌/◌, ◌%◌, ◌<◌, ◌≤◌, leb, length};
ghost use Rattle.text.specs.Figures.{figure, hexadecimal, last_figures, decimal as decimalFigures};
ghost use Rattle.text.specs.Put.{last_place};

use refusal::Refusal;

// ---- figures

// The last figure of a number in hexadecimal, looked up. A constant array would be copied at each look.
pub fn hex_figure(n: u32) -> u8
    ensures { result ≡ figure (n % 16) }
{
    match (n % 16) as u8 {
        0 => 48,
        1 => 49,
        2 => 50,
        3 => 51,
        4 => 52,
        5 => 53,
        6 => 54,
        7 => 55,
        8 => 56,
        9 => 57,
        10 => 65,
        11 => 66,
        12 => 67,
        13 => 68,
        14 => 69,
        _ => 70,
    }
}

// All eight figures of a number in hexadecimal.
#[inline(always)]
#[tactic(auto, using(crate::proofs::Figures::by_places))]
fn hex_figures(n: u32) -> [u8; 8]
    ensures { result ≡ hexadecimal 8 n }
{
    [
        hex_figure(n / 0x10000000),
        hex_figure(n / 0x1000000),
        hex_figure(n / 0x100000),
        hex_figure(n / 0x10000),
        hex_figure(n / 0x1000),
        hex_figure(n / 0x100),
        hex_figure(n / 0x10),
        hex_figure(n),
    ]
}

// The last figure of a number in decimal.
fn figure_of(n: u32) -> u8
    ensures { result ≡ 48 + n % 10 }
{
    (48 + n % 10) as u8
}

// ---- texts

// A text in a lent buffer, and the place that it has come to.
#[derive(Drop)]
pub struct Text<'a> {
    out: &'a mut [u8],
    at: usize,
    // a slice has fewer than 2 ^ 64 bytes, and the place is a number of the machine
    ghost room: { length out.now ≤ last_place },
    ghost counted: { at ≤ last_place },
}

impl<'a> Text<'a> {
    ghost use Rattle.text.specs.Puts.{Begins, Puts};
    ghost use Rattle.text.specs.Written.{refused_line};

    // A text that goes on at a place of a buffer.
    pub fn new(out: &'a mut [u8], at: usize) -> Text<'a>
        ensures { Begins out.entry at result }
    {
        Text { out, at }
    }

    // The place after the text.
    pub fn end(&self) -> usize
        ensures { result ≡ self.now.at }
    {
        self.at
    }

    // Whether so many bytes more fit.
    fn has_room(&self, n: usize) -> bool
        ensures { result ≡ leb (self.now.at + n) (length self.now.out.now) }
    {
        n <= self.out.len() && self.at <= self.out.len() - n
    }

    pub fn byte(&mut self, b: u8)
        ensures { Puts self.old (b ∷ []) self.new }
    {
        if self.at < self.out.len() {
            self.out[self.at] = b;
        }
        self.at = self.at.saturating_add(1);
    }

    fn one_by_one(&mut self, text: &[u8])
        ensures { Puts self.old text.now self.new }
    {
        for b in text {
            self.byte(*b);
        }
    }

    // One test of the place for all of them where they fit.
    #[tactic(auto, using(crate::proofs::Put::stored_next))]
    pub fn bytes(&mut self, text: &[u8])
        ensures { Puts self.old text.now self.new }
    {
        let room = self.has_room(text.len());
        if room {
            let at = self.at;
            for (i, b) in text.iter().enumerate() {
                self.out[at + i] = *b;
            }
            self.at += text.len();
        } else {
            self.one_by_one(text);
        }
    }

    // So many bytes at once: one test of the place for all of them where they fit.
    #[inline(always)]
    #[tactic(auto, using(crate::proofs::Put::stored_next))]
    pub fn row<const N: usize>(&mut self, row: [u8; N])
        ensures { Puts self.old row.entry self.new }
    {
        let room = self.has_room(N);
        if room {
            let at = self.at;
            for i in 0..N {
                self.out[at + i] = row[i];
            }
            self.at += N;
        } else {
            self.one_by_one(&row);
        }
    }

    // A byte in two figures after one space.
    #[inline(always)]
    #[tactic(auto, unfolding(crate::specs::Figures::hexadecimal))]
    pub fn spaced_hex2(&mut self, n: u8)
        ensures { Puts self.old (32 ∷ hexadecimal 2 n) self.new }
    {
        self.row([b' ', hex_figure(n as u32 / 16), hex_figure(n as u32)]);
    }

    // In two rows of four: eight figures at once are put together in one word first, and taken out of it again.
    pub fn hex8(&mut self, n: u32)
        ensures { Puts self.old (hexadecimal 8 n) self.new }
    {
        let [a, b, c, d, e, f, g, h] = hex_figures(n);
        self.row([a, b, c, d]);
        self.row([e, f, g, h]);
    }

    // All eight figures after one space.
    #[inline(always)]
    pub fn spaced_hex8(&mut self, n: u32)
        ensures { Puts self.old (32 ∷ hexadecimal 8 n) self.new }
    {
        let [a, b, c, d, e, f, g, h] = hex_figures(n);
        self.row([b' ', a, b, c, d, e, f, g, h]);
    }

    // The last five figures.
    #[inline(always)]
    fn last_five(&mut self, n: u32)
        ensures { Puts self.old (last_figures 5 n) self.new }
    {
        let high = n / 100;
        let low = n % 100;
        self.row([
            figure_of(high / 10 / 10),
            figure_of(high / 10),
            figure_of(high),
            figure_of(low / 10),
            figure_of(low),
        ]);
    }

    // A number of at most five figures.
    #[inline(always)]
    #[tactic(auto, using(crate::proofs::Figures::one_figure, crate::proofs::Figures::two_figures, crate::proofs::Figures::three_figures, crate::proofs::Figures::four_figures, crate::proofs::Figures::five_figures))]
    fn few(&mut self, n: u32)
        requires { n < 100000 }
        ensures { Puts self.old (decimalFigures n) self.new }
    {
        if n < 10 {
            self.byte(figure_of(n));
        } else if n < 100 {
            self.row([figure_of(n / 10), figure_of(n)]);
        } else if n < 1000 {
            self.row([figure_of(n / 10 / 10), figure_of(n / 10), figure_of(n)]);
        } else if n < 10000 {
            self.row([
                figure_of(n / 10 / 10 / 10),
                figure_of(n / 10 / 10),
                figure_of(n / 10),
                figure_of(n),
            ]);
        } else {
            self.last_five(n);
        }
    }

    // A number in decimal: at most five figures, or five more.
    #[inline(always)]
    pub fn decimal(&mut self, n: u32)
        ensures { Puts self.old (decimalFigures n) self.new }
    {
        if n < 100000 {
            self.few(n);
        } else {
            self.few(n / 100000);
            self.last_five(n);
        }
    }

    // A number in decimal after one space. One figure is put with it.
    #[inline(always)]
    #[tactic(auto, using(crate::proofs::Figures::one_figure))]
    pub fn spaced_decimal(&mut self, n: u32)
        ensures { Puts self.old (32 ∷ decimalFigures n) self.new }
    {
        if n > 9 {
            self.byte(b' ');
            self.decimal(n);
        } else {
            self.row([b' ', figure_of(n)]);
        }
    }

    // The line of a refusal.
    pub fn refused_line(&mut self, why: Refusal)
        ensures { Puts self.old (refused_line why) self.new }
    {
        self.bytes(b"refused ");
        self.decimal(u32::from(u8::from(why)));
        self.byte(b'\n');
    }
}
