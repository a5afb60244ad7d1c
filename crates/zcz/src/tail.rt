// The tail: up to 31 bytes after the last full di-block. An empty one costs no cipher call.
ghost use Rattle.std.specs.Prelude.{◌≡◌, ℕ, ◌+◌, ◌-◌, ◌*◌, ◌^◌, ◌<◌, ◌≤◌, ◌∷◌, ◌++◌, length, take, drop, replicate};
ghost use Rattle.block.specs.Blocks.{write as bytes_of};
ghost use Rattle.cipher.specs.Tweaks.{tweaked};
ghost use Rattle.mode.specs.Parts.{onto, padded as padded_of};
ghost use Rattle.mode.specs.Mode.{hash as hash_of, hash_of_tail as tail_hash_of};

use crate::ends::hash;
use block::diblock::DiBlock;
use cipher::tweakable::TweakableCipher;

// Writes a tail, one byte 80 hexadecimal, and zeros.
fn pad_into(a: &mut [u8], t: &[u8])
    requires room { length a.old ≡ 32 }
    requires short { length t.now < 32 }
    ensures { a.new ≡ t.now ++ (0x80 ∷ replicate (31 - length t.now) 0) }
{
    let r = t.len();
    a[0..r].copy_from_slice(t);
    a[r] = 0x80;
    a[r + 1..32].fill(0);
}

fn padded(t: &[u8]) -> DiBlock
    requires { length t.now < 32 }
    ensures { result ≡ padded_of t.now }
{
    let mut a = [0u8; 32];
    pad_into(&mut a, t);
    DiBlock::read(&a, 0)
}

fn hash_tail<C: TweakableCipher>(c: &C, i: u32, t: &[u8]) -> DiBlock
    requires short { length t.now < 32 }
    requires index { i < 2 ^ 16 }
    ensures { result ≡ tail_hash_of (tweaked (C.encrypted c.now)) i t.now }
{
    if t.is_empty() {
        DiBlock { left: 0, right: 0 }
    } else {
        hash(c, i, padded(t))
    }
}

// What the tail after n + 1 di-blocks adds to the last of them: nothing if it is empty.
pub fn tail_hash<C: TweakableCipher>(c: &C, i: u32, m: &[u8], n: usize) -> DiBlock
    requires full { 32 * n + 32 ≤ length m.now }
    requires short { length m.now < 32 * n + 64 }
    requires index { i < 2 ^ 16 }
    ensures { result ≡ tail_hash_of (tweaked (C.encrypted c.now)) i (drop (32 * n + 32) m.now) }
{
    hash_tail(c, i, &m[32 * n + 32..])
}

fn add_bytes(t: &mut [u8], a: &[u8])
    requires { length t.old ≤ length a.now }
    ensures { t.new ≡ onto t.old a.now }
{
    // By number: after a `zip` with what is lent to be changed, a proof knows only its length.
    for (i, b) in t.iter_mut().enumerate() {
        *b ^= a[i];
    }
}

// Adds the first bytes of H(2; d) to a tail.
fn mask<C: TweakableCipher>(c: &C, t: &mut [u8], d: DiBlock)
    requires { length t.old < 32 }
    ensures { t.new ≡ onto t.old (bytes_of (hash_of (tweaked (C.encrypted c.now)) 2 d)) }
{
    if t.is_empty() {
        return;
    }
    let mut a = [0u8; 32];
    hash(c, 2, d).write(&mut a, 0);
    add_bytes(t, &a);
}

// Adds the first bytes of H(2; d) to the tail after n + 1 di-blocks.
pub fn mask_tail<C: TweakableCipher>(c: &C, m: &mut [u8], n: usize, d: DiBlock)
    requires full { 32 * n + 32 ≤ length m.old }
    requires short { length m.old < 32 * n + 64 }
    ensures { m.new ≡ take (32 * n + 32) m.old ++ onto (drop (32 * n + 32) m.old) (bytes_of (hash_of (tweaked (C.encrypted c.now)) 2 d)) }
{
    mask(c, &mut m[32 * n + 32..], d);
}
