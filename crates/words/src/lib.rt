// Bytes and numbers: words of 16 and 32 bits in either byte order, and two's complement.
#![tactic(auto)]

pub mod word;

// Which byte of a word comes first: the most significant, or the least.
#[derive(Clone, Copy, PartialEq, Eq, Debug)]
pub enum Order {
    Big,
    Little,
}
