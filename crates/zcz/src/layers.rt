// The layers of the mode, each over the message in place: for every di-block before the last, three cipher calls. The
// message is lent, so its length and the number of di-blocks stand in the contract of each.
ghost use Rattle.std.specs.Prelude.{◌≡◌, ℕ, suc, ◌+◌, ◌*◌, ◌^◌, ◌<◌, ◌≤◌, length};
ghost use Rattle.block.specs.Blocks.{reads};
ghost use Rattle.block.specs.Places.{at as di_at, put as put_at};
ghost use Rattle.cipher.specs.Tweaks.{tweaked};
ghost use Rattle.mode.specs.Mode.{each, mask, masked as masked_of};
ghost use Rattle.mode.specs.Running.{passed, link, then_on};

use crate::direction::Direction;
use crate::ends::tweak;
use crate::sums::Sums;
use block::diblock::{Block, DiBlock};
use cipher::tweakable::TweakableCipher;

// The mask of a di-block, with T and S_j. Masked twice, it is as it was.
fn masked<C: TweakableCipher>(c: &C, t: Block, s: Block, index: u32, d: DiBlock) -> DiBlock
    ensures { result ≡ masked_of (tweaked (C.encrypted c.now)) t s index d }
{
    let z = c.encrypt(tweak("c", index, t), s);
    DiBlock {
        left: d.left ^ z,
        right: (d.right ^ z) ^ s,
    }
}

// S_j for place i, from the one for the place before: a new one at every 128th place.
fn next_link<C: TweakableCipher>(c: &C, s: Block, i: usize) -> Block
    requires { i < 2 ^ 16 }
    ensures { result ≡ link (tweaked (C.encrypted c.now)) i s }
{
    if i % 128 == 0 {
        c.encrypt(tweak("s", 0, (i / 128 + 1) as u128), s)
    } else {
        s
    }
}

// One turn of the first layer, at place i.
fn first_at<C: TweakableCipher, D: Direction>(
    c: &C,
    m: &mut [u8],
    i: usize,
    sums: DiBlock,
) -> DiBlock
    requires room { 32 * i + 32 ≤ length m.old }
    requires few { i < 2 ^ 16 }
    ensures wrote { m.new ≡ put_at m.old i (D.first (C.encrypted c.now) (C.decrypted c.now) (suc i) (di_at m.old i)) }
    ensures sums { result ≡ D.First.more sums (D.first (C.encrypted c.now) (C.decrypted c.now) (suc i) (di_at m.old i)) }
{
    let d = D::first(c, i as u32 + 1, DiBlock::read(m, i));
    d.write(m, i);
    D::First::add(sums, d)
}

// The first layer over the first n di-blocks; the answer is the sums of what it makes.
pub fn first_layer<C: TweakableCipher, D: Direction>(c: &C, m: &mut [u8], n: usize) -> DiBlock
    requires room { 32 * n ≤ length m.old }
    requires few { n < 2 ^ 16 }
    ensures wrote { m.new ≡ passed (D.first (C.encrypted c.now) (C.decrypted c.now)) n m.old }
    ensures sums { result ≡ D.First.star (each (D.first (C.encrypted c.now) (C.decrypted c.now)) 1 (reads n m.old)) }
{
    let mut sums = DiBlock { left: 0, right: 0 };
    // A place's number is its index in the tweak, and of a slice lent out in parts only the length is known afterwards.
    for i in 0..n {
        sums = first_at::<C, D>(c, m, i, sums);
    }
    sums
}

// One turn of the mask and the second layer, at place i, with T and S_j.
fn second_at<C: TweakableCipher, D: Direction>(
    c: &C,
    m: &mut [u8],
    i: usize,
    t: Block,
    s: Block,
    sums: DiBlock,
) -> DiBlock
    requires room { 32 * i + 32 ≤ length m.old }
    requires few { i < 2 ^ 16 }
    ensures wrote { m.new ≡ put_at m.old i (then_on (masked_of (tweaked (C.encrypted c.now)) t s) (D.second (C.encrypted c.now) (C.decrypted c.now)) (suc i) (di_at m.old i)) }
    ensures sums { result ≡ D.Second.more sums (masked_of (tweaked (C.encrypted c.now)) t s (suc i) (di_at m.old i)) }
{
    let k = i as u32 + 1;
    let d = masked(c, t, s, k, DiBlock::read(m, i));
    D::second(c, k, d).write(m, i);
    D::Second::add(sums, d)
}

// The mask and the second layer over the first n di-blocks, with S and T; the answer is the sums of what the mask makes.
pub fn second_layer<C: TweakableCipher, D: Direction>(
    c: &C,
    m: &mut [u8],
    n: usize,
    st: DiBlock,
) -> DiBlock
    requires room { 32 * n ≤ length m.old }
    requires few { n < 2 ^ 16 }
    ensures wrote { m.new ≡ passed (then_on (mask (tweaked (C.encrypted c.now)) st) (D.second (C.encrypted c.now) (C.decrypted c.now))) n m.old }
    ensures sums { result ≡ D.Second.star (each (mask (tweaked (C.encrypted c.now)) st) 1 (reads n m.old)) }
{
    let mut s = st.left;
    let mut sums = DiBlock { left: 0, right: 0 };
    // By number, as the first layer.
    for i in 0..n {
        s = next_link(c, s, i);
        sums = second_at::<C, D>(c, m, i, st.right, s, sums);
    }
    sums
}
