ghost use Rattle.cipher.specs.Bench.{bench_sum};
ghost use Rattle.block.proofs.Sums.{fits_xor, xor-twice};

use crate::tweak::Tweak;
use crate::tweakable::TweakableCipher;
use block::diblock::Block;

// A cipher for the test bench: adds the body to the block. It has no key and hides nothing.
#[derive(Clone, Copy)]
pub struct BenchCipher;

impl TweakableCipher for BenchCipher {
    ghost encrypted = { λ _. bench_sum };

    ghost decrypted = { λ _. bench_sum };

    ghost encfits = { λ c head body x p q r. fits_xor body x q r };

    ghost decfits = { λ c head body x p q r. fits_xor body x q r };

    ghost decenc = { λ c head body x p q r. xor-twice body x };

    ghost encdec = { λ c head body x p q r. xor-twice body x };

    fn encrypt(&self, tweak: Tweak, block: Block) -> Block {
        tweak.body ^ block
    }

    fn decrypt(&self, tweak: Tweak, block: Block) -> Block {
        self.encrypt(tweak, block)
    }
}
