// The state of AES as four columns of 32 bits.
ghost use Rattle.std.specs.Prelude.{◌≡◌};
ghost use Rattle.std.specs.Int.Digits.{number_from_digits};
ghost use Rattle.block.specs.Blocks.{bytes};
ghost use Rattle.aes.specs.Aes.{add};
ghost use Rattle.aes.specs.Words.{state, diagonal as diagonal_of};
ghost use Rattle.aes.specs.Walk.{turned as turned_of};

use block::diblock::Block;
use std::ops::BitXor;

// Column 0 to column 3, each with row 0 in the high byte.
#[derive(Clone, Copy)]
pub struct Columns {
    pub a: u32,
    pub b: u32,
    pub c: u32,
    pub d: u32,
}

impl Columns {
    // With column 1 in the place of column 0.
    pub fn turned(self) -> Columns
        ensures { result ≡ turned_of self }
    {
        let Columns { a, b, c, d } = self;
        Columns {
            a: b,
            b: c,
            c: d,
            d: a,
        }
    }

    // Row 0 of column 0, row 1 of column 1, row 2 of column 2 and row 3 of column 3.
    pub fn diagonal(self) -> [u8; 4]
        ensures { result ≡ diagonal_of self.a self.b self.c self.d }
    {
        [
            self.a.to_be_bytes()[0],
            self.b.to_be_bytes()[1],
            self.c.to_be_bytes()[2],
            self.d.to_be_bytes()[3],
        ]
    }
}

impl From<Block> for Columns {
    ghost from_gives = { λ x s. state s ≡ bytes 16 x };

    fn from(x: Block) -> Columns {
        Columns {
            a: (x >> 96) as u32,
            b: ((x >> 64) & 0xffff_ffff) as u32,
            c: ((x >> 32) & 0xffff_ffff) as u32,
            d: (x & 0xffff_ffff) as u32,
        }
    }
}

impl From<Columns> for Block {
    ghost from_gives = { λ s x. x ≡ number_from_digits 256 (state s) };

    fn from(s: Columns) -> Block {
        ((s.a as u128) << 96) + ((s.b as u128) << 64) + ((s.c as u128) << 32) + s.d as u128
    }
}

// A round key is added.
impl BitXor<Columns> for Columns {
    type Output = Columns;

    ghost bitxor_gives = { λ s k t. state t ≡ add (state s) (state k) };

    fn bitxor(self, key: Columns) -> Columns {
        Columns {
            a: self.a ^ key.a,
            b: self.b ^ key.b,
            c: self.c ^ key.c,
            d: self.d ^ key.d,
        }
    }
}
