use block::diblock::Block;
use cascade::Cascade;
use cipher::bench::BenchCipher;
use skinny::Skinny;

// A cipher that is made from a key.
pub trait Keyed: Sized {
    fn keyed(key: Block) -> Self;
}

impl Keyed for Skinny {
    fn keyed(key: Block) -> Skinny {
        Skinny::new(key)
    }
}

impl Keyed for Cascade {
    fn keyed(key: Block) -> Cascade {
        Cascade::new(key)
    }
}

// The bench cipher has no key.
impl Keyed for BenchCipher {
    fn keyed(_key: Block) -> BenchCipher {
        BenchCipher
    }
}
