// Tweaks by the names of their domains; pairs of blocks encrypted with each other, and back; and the hash. Each name is in the
// end a literal, which is shown to have a number where it stands.
ghost use Rattle.std.specs.Prelude.{◌≡◌, ℕ, ◌+◌, ◌^◌, ◌<◌, true, is_some};
ghost use Rattle.std.specs.Option.{unwrap_or};
ghost use Rattle.cipher.specs.Tweaks.{number_of, head_of, tweaked, tweaked_by};
ghost use Rattle.mode.specs.Mode.{hash as hash_of};
ghost use Rattle.mode.specs.Running.{crossed_by, chained, unchained};

use block::diblock::{Block, DiBlock};
use cipher::domain::domain_number;
use cipher::tweak::Tweak;
use cipher::tweakable::TweakableCipher;

// The tweak under a domain, by its name. Each name that the mode uses has a number.
pub fn tweak(name: &str, index: u32, body: Block) -> Tweak
    requires { is_some (number_of name.now) ≡ true }
    ensures head { result.head ≡ head_of (unwrap_or (number_of name.now) 0) index }
    ensures body { result.body ≡ body }
{
    Tweak::new(domain_number(name).unwrap(), index, body)
}

// Each block encrypted with the other for its body.
pub fn cross<C: TweakableCipher>(c: &C, left: &str, right: &str, n: u32, d: DiBlock) -> DiBlock
    requires left { is_some (number_of left.now) ≡ true }
    requires right { is_some (number_of right.now) ≡ true }
    ensures { result ≡ crossed_by (tweaked_by (C.encrypted c.now)) left.now right.now n d }
{
    DiBlock {
        left: c.encrypt(tweak(left, n, d.right), d.left),
        right: c.encrypt(tweak(right, n, d.left), d.right),
    }
}

// The left block encrypted with the right for its body, and then the right with the new left.
pub fn chain<C: TweakableCipher>(c: &C, first: &str, second: &str, n: u32, d: DiBlock) -> DiBlock
    requires first { is_some (number_of first.now) ≡ true }
    requires second { is_some (number_of second.now) ≡ true }
    ensures { result ≡ chained (tweaked_by (C.encrypted c.now)) first.now second.now n d }
{
    let left = c.encrypt(tweak(first, n, d.right), d.left);
    DiBlock {
        left,
        right: c.encrypt(tweak(second, n, left), d.right),
    }
}

// The chain taken back.
pub fn unchain<C: TweakableCipher>(c: &C, first: &str, second: &str, n: u32, d: DiBlock) -> DiBlock
    requires first { is_some (number_of first.now) ≡ true }
    requires second { is_some (number_of second.now) ≡ true }
    ensures { result ≡ unchained (tweaked_by (C.decrypted c.now)) first.now second.now n d }
{
    let right = c.decrypt(tweak(second, n, d.left), d.right);
    DiBlock {
        left: c.decrypt(tweak(first, n, right), d.left),
        right,
    }
}

// H(i; u, v), two blocks from two.
pub fn hash<C: TweakableCipher>(c: &C, i: u32, d: DiBlock) -> DiBlock
    requires { i < 2 ^ 16 }
    ensures { result ≡ hash_of (tweaked (C.encrypted c.now)) i d }
{
    DiBlock {
        left: c.encrypt(tweak("p", i, d.right), d.left),
        right: c.encrypt(tweak("p", i + 1, d.right), d.left),
    }
}
