#![tactic(auto)]
// The wide-block mode by its definitions, and the law that it takes the byte strings of each admitted length to
// each other, one to one. The code that computes it is the crate `zcz`.
ghost use Rattle.mode.specs.Permutes.{Permutes};

use cipher::tweakable::TweakableCipher;

// For every byte string of an admitted length exactly one message enciphers to it, and deciphering gives that one.
pub fn permutes<C: TweakableCipher>(c: &C)
    ensures { Permutes (C.encrypted c.now) (C.decrypted c.now) }
{
    let _ = c;
}
