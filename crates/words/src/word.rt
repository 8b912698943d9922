// Words of 16 and 32 bits: put together from bytes, taken apart again, and read as signed numbers.
ghost use Rattle.std.specs.Prelude.{◌≡◌, ℕ, ℤ, ◌*◌, ◌^◌, ◌<◌, ◌≤◌, true};
ghost use Rattle.words.specs.Signed.{signed_of, pattern_of, holds};
ghost use Rattle.words.specs.Words.{part, word_of, bytes_of};
ghost use Rattle.words.specs.declared.Order.{Order};
ghost use Rattle.std.proofs.Common.{rules, arith};
ghost use Rattle.words.specs.declared.Order.TheVariants.{Big, Little};

use crate::Order;

// A word of N bytes.
pub trait Word<const N: usize>: Copy {
    // The number that it is, unsigned.
    ghost value: { Self → ℕ };

    fn from_bytes(order: Order, bytes: [u8; N]) -> Self
        ensures { value result ≡ word_of order bytes.entry };

    fn to_bytes(self, order: Order) -> [u8; N]
        ensures { result ≡ bytes_of order N (value self) };

    // The number that its bits stand for in two's complement.
    fn signed(self) -> i32
        ensures { result ≡ signed_of (8 * N) (value self) };

    // The last bits of a number, whether they hold it or not.
    fn from_signed(z: i32) -> Self
        ensures { value result ≡ pattern_of (8 * N) z };

    // It has no more bytes than an `i32`.
    ghost few: { N ≤ 4 };

    // Taken apart and put together again a word is the same.
    ghost together: { (order : Order) (w : Self) → value w < 2 ^ (8 * N) → word_of order (bytes_of order N (value w)) ≡ value w };

    // A number that its bits hold comes back from its pattern,
    ghost held: { (z : ℤ) → holds (8 * N) z ≡ true → signed_of (8 * N) (pattern_of (8 * N) z) ≡ z };

    // and a pattern from its number.
    ghost pattern: { (w : Self) → value w < 2 ^ (8 * N) → pattern_of (8 * N) (signed_of (8 * N) (value w)) ≡ value w };
}

impl Word<2> for u16 {
    ghost value = { λ n. n };

    fn from_bytes(order: Order, bytes: [u8; 2]) -> u16
        ensures { result ≡ word_of order bytes }
    {
        match order {
            Order::Big => u16::from_be_bytes(bytes),
            Order::Little => u16::from_le_bytes(bytes),
        }
    }

    fn to_bytes(self, order: Order) -> [u8; 2] {
        match order {
            Order::Big => u16::to_be_bytes(self),
            Order::Little => u16::to_le_bytes(self),
        }
    }

    fn signed(self) -> i32 {
        i32::from(self.cast_signed())
    }

    fn from_signed(z: i32) -> u16 {
        (z.cast_unsigned() % 65536) as u16
    }

    ghost few = { Prim.search rules };

    ghost together = { elim [ Big ↦ Prim.search rules | Little ↦ Prim.search rules ] };

    ghost held = { Prim.search rules };

    ghost pattern = { Prim.search rules };
}

impl Word<4> for u32 {
    ghost value = { λ n. n };

    fn from_bytes(order: Order, bytes: [u8; 4]) -> u32
        ensures { result ≡ word_of order bytes }
    {
        match order {
            Order::Big => u32::from_be_bytes(bytes),
            Order::Little => u32::from_le_bytes(bytes),
        }
    }

    fn to_bytes(self, order: Order) -> [u8; 4] {
        match order {
            Order::Big => u32::to_be_bytes(self),
            Order::Little => u32::to_le_bytes(self),
        }
    }

    fn signed(self) -> i32 {
        self.cast_signed()
    }

    fn from_signed(z: i32) -> u32 {
        z.cast_unsigned()
    }

    ghost few = { Prim.search rules };

    ghost together = { elim [ Big ↦ Prim.search rules | Little ↦ Prim.search rules ] };

    ghost held = { Prim.search rules };

    ghost pattern = { Prim.search rules };
}

// The bytes of a row from a place on. Past its end there is zero.
#[tactic(auto, using(crate::proofs::Words::part_read))]
pub fn part_at<const N: usize>(row: &[u8], place: u8) -> [u8; N]
    ensures { result ≡ part row.now place N }
{
    let mut own = [0; N];
    for (i, byte) in own.iter_mut().enumerate() {
        *byte = row.get(usize::from(place) + i).copied().unwrap_or(0);
    }
    own
}

// The word at a place of a row.
pub fn word_at<W: Word<N>, const N: usize>(order: Order, row: &[u8], place: u8) -> W
    ensures { W.value result ≡ word_of order (part row.now place N) }
{
    W::from_bytes(order, part_at(row, place))
}
