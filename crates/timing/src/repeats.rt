// Steps of a cipher, each on the result of the one before. Each export hands over how the cipher of a key is made, and what its
// step is.
ghost use Rattle.std.specs.Prelude.{◌≡◌, ℕ, ◌≤◌, List, length, if◌then◌else◌, ◌==◌, nat_eq, Some, None, is_some};
ghost use Rattle.block.specs.Blocks.{block as block_of};
ghost use Rattle.timing.specs.Repeats.{iterated, worked, paired, told};
ghost use Rattle.timing.specs.Steps.{Gives, GivesTweaked, GivesBlocks, GivesMessages};

use block::bytes::read_block;
use block::diblock::{Block, DiBlock};
use cipher::tweak::Tweak;
use zcz::refusal::Refusal;

// What C is told, which is a number: 0, or 1 where the call was handed another number of bytes than it takes.
pub fn told(done: Option<()>) -> u8
    ensures { result ≡ told (is_some done) }
{
    u8::from(done.is_none())
}

// The key that stands first in as many bytes as are wanted.
fn key_of(bytes: &[u8], wanted: usize) -> Option<Block>
    requires { 16 ≤ wanted }
    ensures { result ≡ (if nat_eq (length bytes.now) wanted then Some (block_of bytes.now) else None) }
{
    if bytes.len() == wanted {
        Some(read_block(bytes, 0))
    } else {
        None
    }
}

// A step taken n times from a block, each time from where the last one came.
fn repeated<F: Fn(Block) -> Block>(step: F, block: Block, n: usize) -> Block
    requires { F.IsAlwaysCallable step }
    ensures { (f : ℕ → ℕ) → Gives (F.post step) f → result ≡ iterated n f block }
{
    let mut x = block;
    for _i in 0..n {
        x = step(x);
    }
    x
}

// The bytes are a key, a head, a body and a block, of 16 bytes each: the block goes through n steps of the cipher of that key.
pub fn on_tweaked<C: Drop, M: FnOnce(Block) -> C, S: Fn(&C, Tweak, Block) -> Block>(
    work: &mut [u8],
    n: usize,
    make: M,
    step: S,
) -> Option<()>
    requires makes { M.IsAlwaysCallable make }
    requires steps { S.IsAlwaysCallable step }
    ensures answer { is_some result ≡ (length work.old == 64) }
    ensures wrote { (f : ℕ → ℕ → ℕ → ℕ → ℕ) → GivesTweaked (M.post make) (S.post step) f → work.new ≡ worked f n work.old }
{
    let cipher = make(key_of(work, 64)?);
    let head = DiBlock::read(work, 0).right;
    let rest = DiBlock::read(work, 1);
    let tweak = Tweak {
        head,
        body: rest.left,
    };
    let block = repeated(|x| step(&cipher, tweak, x), rest.right, n);
    DiBlock {
        left: rest.left,
        right: block,
    }
    .write(work, 1);
    Some(())
}

// The bytes are a key and a block, of 16 bytes each: the block goes through n steps of the cipher of that key.
pub fn on_block<C: Drop, M: FnOnce(Block) -> C, S: Fn(&C, Block) -> Block>(
    work: &mut [u8],
    n: usize,
    make: M,
    step: S,
) -> Option<()>
    requires makes { M.IsAlwaysCallable make }
    requires steps { S.IsAlwaysCallable step }
    ensures answer { is_some result ≡ (length work.old == 32) }
    ensures wrote { (f : ℕ → ℕ → ℕ) → GivesBlocks (M.post make) (S.post step) f → work.new ≡ paired f n work.old }
{
    let cipher = make(key_of(work, 32)?);
    let pair = DiBlock::read(work, 0);
    let block = repeated(|x| step(&cipher, x), pair.right, n);
    DiBlock {
        left: pair.left,
        right: block,
    }
    .write(work, 0);
    Some(())
}

// The message goes through n steps of the cipher of a key of 16 bytes.
pub fn on_message<C: Drop, M: FnOnce(Block) -> C, S: Fn(&C, &mut [u8]) -> Result<(), Refusal>>(
    key: &[u8],
    message: &mut [u8],
    n: usize,
    make: M,
    step: S,
) -> Option<()>
    requires makes { M.IsAlwaysCallable make }
    requires steps { S.IsAlwaysCallable step }
    ensures answer { is_some result ≡ (length key.now == 16) }
    ensures wrote { (f : ℕ → List ℕ → List ℕ) → GivesMessages (M.post make) (S.post step) f → message.new ≡ (if nat_eq (length key.now) 16 then iterated n (f (block_of key.now)) message.old else message.old) }
{
    let cipher = make(key_of(key, 16)?);
    for _i in 0..n {
        let _ = step(&cipher, message);
    }
    Some(())
}
