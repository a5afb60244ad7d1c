// Blocks and di-blocks in the bytes of a message.
ghost use Rattle.std.specs.Prelude.{◌≡◌, ℕ, ◌+◌, ◌*◌, ◌≤◌, length, drop};
ghost use Rattle.std.specs.Int.Digits.{number_from_digits, AllBelowBase};
ghost use Rattle.block.specs.Blocks.{bytes as bytes_of, block as block_of, add};
ghost use Rattle.block.specs.Places.{at as di_at, put as put_at};

use crate::diblock::{Block, DiBlock};
use std::ops::BitXor;
use std::simd::prelude::*;

// The block that the 16 bytes from `at` on write.
pub fn read_block(m: &[u8], at: usize) -> Block
    requires { at + 16 ≤ length m.now }
    ensures { result ≡ block_of (drop at m.now) }
{
    u128::from_be_bytes(u8x16::from_slice(&m[at..at + 16]).to_array())
}

// Writes a block into a place of 16 bytes.
fn write_block(part: &mut [u8], x: Block)
    requires { length part.old ≡ 16 }
    ensures { part.new ≡ bytes_of 16 x }
{
    part.copy_from_slice(&x.to_be_bytes());
}

impl DiBlock {
    // The di-block at place i of a message, from 0.
    pub fn read(m: &[u8], i: usize) -> DiBlock
        requires { 32 * i + 32 ≤ length m.now }
        ensures { result ≡ di_at m.now i }
    {
        let at = 32 * i;
        DiBlock {
            left: read_block(m, at),
            right: read_block(m, at + 16),
        }
    }

    // Writes the di-block at place i of a message, from 0.
    pub fn write(self, m: &mut [u8], i: usize)
        requires { 32 * i + 32 ≤ length m.old }
        ensures { m.new ≡ put_at m.old i self }
    {
        let at = 32 * i;
        write_block(&mut m[at..at + 16], self.left);
        write_block(&mut m[at + 16..at + 32], self.right);
    }
}

// The sum of two di-blocks.
impl BitXor<DiBlock> for DiBlock {
    type Output = DiBlock;

    ghost bitxor_gives = { λ a b r. r ≡ add a b };

    fn bitxor(self, other: DiBlock) -> DiBlock {
        DiBlock {
            left: self.left ^ other.left,
            right: self.right ^ other.right,
        }
    }
}

// Each byte of a slice is below 256: the loop is there for the proof, and the compiler drops it.
pub fn all_bytes(m: &[u8])
    ensures { AllBelowBase 256 m.now }
{
    for b in m {
        let _seen = *b;
    }
}
