// Blocks as 16 cells of a byte.
ghost use Rattle.std.specs.Prelude.{◌≡◌};
ghost use Rattle.skinny.specs.Skinny.{cells_of, block_of};

use block::diblock::Block;
use cipher::tweak::Tweak;
use std::simd::prelude::*;

// A block's bytes fill the cells row by row. Both types are not ours, so that this is a function and no `From`.
pub fn to_cells(x: Block) -> u8x16
    ensures { result ≡ cells_of x }
{
    u8x16::from_array(x.to_be_bytes())
}

pub fn from_cells(x: u8x16) -> Block
    ensures { result ≡ block_of x }
{
    u128::from_be_bytes(x.to_array())
}

// The head and the body of a tweak, or what the schedule makes of them.
#[derive(Clone, Copy)]
pub struct TweakCells {
    pub head: u8x16,
    pub body: u8x16,
}

impl From<Tweak> for TweakCells {
    ghost from_gives = { λ t c. (c.head ≡ cells_of t.head) × (c.body ≡ cells_of t.body) };

    fn from(t: Tweak) -> TweakCells {
        TweakCells {
            head: to_cells(t.head),
            body: to_cells(t.body),
        }
    }
}
