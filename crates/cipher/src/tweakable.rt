ghost use Rattle.std.specs.Prelude.{◌≡◌, ℕ};
ghost use Rattle.block.specs.Blocks.{IsBlock};

use crate::tweak::Tweak;
use block::diblock::Block;

// A tweakable cipher: two functions from a head, a body and a block to a block, of which each undoes the other.
pub trait TweakableCipher {
    ghost encrypted: { Self → ℕ → ℕ → ℕ → ℕ };

    ghost decrypted: { Self → ℕ → ℕ → ℕ → ℕ };

    fn encrypt(&self, tweak: Tweak, block: Block) -> Block
        ensures { result ≡ encrypted self.now tweak.head tweak.body block };

    fn decrypt(&self, tweak: Tweak, block: Block) -> Block
        ensures { result ≡ decrypted self.now tweak.head tweak.body block };

    ghost encfits: { (c : Self) (head body x : ℕ) → IsBlock head → IsBlock body → IsBlock x → IsBlock (encrypted c head body x) };

    ghost decfits: { (c : Self) (head body x : ℕ) → IsBlock head → IsBlock body → IsBlock x → IsBlock (decrypted c head body x) };

    ghost decenc: { (c : Self) (head body x : ℕ) → IsBlock head → IsBlock body → IsBlock x → decrypted c head body (encrypted c head body x) ≡ x };

    ghost encdec: { (c : Self) (head body x : ℕ) → IsBlock head → IsBlock body → IsBlock x → encrypted c head body (decrypted c head body x) ≡ x };
}
