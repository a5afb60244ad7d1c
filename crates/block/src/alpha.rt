// Multiplication by α: the 128 bits shifted left by one, and 87 hexadecimal added where a 1 falls out.
ghost use Rattle.std.specs.Prelude.{◌≡◌};
ghost use Rattle.block.specs.Alpha.{α, joined};

use crate::diblock::Block;

// A block as its two halves of 64 bits.
#[derive(Clone, Copy)]
struct Words {
    high: u64,
    low: u64,
}

impl From<Block> for Words {
    ghost from_gives = { λ x w. joined w.high w.low ≡ x };

    fn from(x: Block) -> Words {
        Words {
            high: (x >> 64) as u64,
            low: (x & 0xffff_ffff_ffff_ffff) as u64,
        }
    }
}

impl From<Words> for Block {
    ghost from_gives = { λ w x. x ≡ joined w.high w.low };

    fn from(w: Words) -> Block {
        ((w.high as u128) << 64) + w.low as u128
    }
}

// Doubling by shifts and masks on two words.
fn double_words(w: Words) -> Words
    ensures { joined result.high result.low ≡ α (joined w.high w.low) }
{
    Words {
        high: (w.high << 1) | (w.low >> 63),
        low: (w.low << 1) ^ ((w.high >> 63) * 0x87),
    }
}

// The block times α.
pub fn double(x: Block) -> Block
    ensures { result ≡ α x }
{
    double_words(x.into()).into()
}
