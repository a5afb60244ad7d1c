// The steps put together.
ghost use Rattle.std.specs.Prelude.{◌≡◌, ℕ, ◌-◌, ◌*◌, ◌^◌, ◌<◌, ◌≤◌, ◌++◌, length, drop};
ghost use Rattle.std.specs.Int.Digits.{AllBelowBase};
ghost use Rattle.block.specs.Blocks.{reads, writes};
ghost use Rattle.mode.specs.Permutes.{Message};

use crate::direction::Direction;
use crate::layers::{first_layer, second_layer};
use crate::sums::Sums;
use crate::tail::{mask_tail, tail_hash};
use block::diblock::DiBlock;
use cipher::tweakable::TweakableCipher;

// The course over n di-blocks and the last; the answer is the last one's.
fn core<C: TweakableCipher, D: Direction>(c: &C, m: &mut [u8], n: usize, last: DiBlock) -> DiBlock
    requires room { 32 * n ≤ length m.old }
    requires few { n < 2 ^ 16 - 1 }
    requires bytes { AllBelowBase 256 m.old }
    ensures wrote { m.new ≡ writes (D.core (C.encrypted c.now) (C.decrypted c.now) (reads n m.old) last).0 ++ drop (32 * n) m.old }
    ensures last { result ≡ (D.core (C.encrypted c.now) (C.decrypted c.now) (reads n m.old) last).1 }
{
    let l = n as u32 + 1;
    let first = first_layer::<C, D>(c, m, n);
    let st = D::middle(c, l, last ^ D::First::cross(c, l, first));
    let second = second_layer::<C, D>(c, m, n, st);
    D::finish(c, l, st) ^ D::Second::cross(c, l, second)
}

// The mode on a message of an admitted length, in a direction.
pub fn run<C: TweakableCipher, D: Direction>(c: &C, m: &mut [u8])
    requires { Message m.old }
    ensures { m.new ≡ D.whole (C.encrypted c.now) (C.decrypted c.now) m.old }
{
    let n = m.len() / 32 - 1;
    let last = DiBlock::read(m, n) ^ tail_hash(c, D::BEFORE, m, n);
    let new = core::<C, D>(c, m, n, last);
    mask_tail(c, m, n, last ^ new);
    let h = tail_hash(c, D::AFTER, m, n);
    (new ^ h).write(m, n);
}
