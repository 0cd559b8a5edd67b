// "BitWidth and ByteLength remain two sorts of number": each is made by its check alone. In clauses both are their numbers.
#![tactic(auto)]

ghost use Rattle.std.specs.Prelude.{◌≡◌, ℕ, true};
ghost use Rattle.kinds.specs.Kind.{is_bit_width, is_byte_length};
ghost use Rattle.sizes.specs.Checked.{checked};

use std::marker::Model;

const NARROWEST: u32 = 8;

const WIDEST: u32 = 256;

// The M of `int<M>` and `uint<M>`.
#[derive(Clone, Copy, Debug, PartialEq, Eq)]
pub struct BitWidth {
    bits: u32,
}

impl Model for BitWidth {
    ghost Value = { ℕ };

    ghost view = { λ w. w.bits };

    ghost invariant = { λ w. is_bit_width w.bits ≡ true };

    ghost inverse = { λ n. record { bits = n } };
}

impl BitWidth {
    // Bit widths are multiples of 8 from 8 to 256; most are 256.
    #[tactic(auto, using(crate::proofs::Checks::checks))]
    pub fn new(bit_width: u32) -> Option<BitWidth>
        ensures { result ≡ checked is_bit_width bit_width }
    {
        if bit_width == WIDEST {
            return Some(BitWidth { bits: bit_width });
        }
        if matches!(bit_width, NARROWEST..=WIDEST) && bit_width % NARROWEST == 0 {
            Some(BitWidth { bits: bit_width })
        } else {
            None
        }
    }

    pub fn get(self) -> u32
        ensures { (result ≡ self) × (is_bit_width result ≡ true) }
    {
        self.bits
    }
}

const SHORTEST: usize = 1;

const LONGEST: usize = 32;

// The M of `bytes<M>`.
#[derive(Clone, Copy, Debug, PartialEq, Eq)]
pub struct ByteLength {
    octets: usize,
}

impl Model for ByteLength {
    ghost Value = { ℕ };

    ghost view = { λ n. n.octets };

    ghost invariant = { λ n. is_byte_length n.octets ≡ true };

    ghost inverse = { λ n. record { octets = n } };
}

impl ByteLength {
    // Byte lengths go from 1 to 32.
    #[tactic(auto, using(crate::proofs::Checks::checks))]
    pub fn new(len: usize) -> Option<ByteLength>
        ensures { result ≡ checked is_byte_length len }
    {
        if matches!(len, SHORTEST..=LONGEST) {
            Some(ByteLength { octets: len })
        } else {
            None
        }
    }

    pub fn get(self) -> usize
        ensures { (result ≡ self) × (is_byte_length result ≡ true) }
    {
        self.octets
    }
}
