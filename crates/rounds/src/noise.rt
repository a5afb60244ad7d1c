// Memories of any bytes.
ghost use Rattle.std.specs.Prelude.{◌≤◌};

use crate::board::{Board, NEW, OLD, is_refused, names_slot};
use crate::check::{Step, Wrong, check};
use crate::keyed::Keyed;
use calls::refusal::Refusal;
use cipher::tweakable::TweakableCipher;
use record::kind::Record;
use record::parameters::ParameterSet;
use record::sheet::Sheet;

// The upper bytes of a linear congruence.
pub fn scramble(memory: &mut [u8], seed: u32) {
    let mut x = seed;
    for b in memory.iter_mut() {
        x = x.wrapping_mul(1664525).wrapping_add(1013904223);
        *b = x.to_be_bytes()[0];
    }
}

// Reads every slot, by its number. Each is read, or its page is refused; the first refusal is answered.
pub fn first_refusal<C: TweakableCipher + Keyed + Drop, R: Record + Drop>(
    board: &Board<C>,
    memory: &[u8],
) -> Result<Option<Refusal>, Wrong> {
    let mut first = None;
    for slot in 0..board.store.geometry().slots() {
        if let Err(refusal) = board.get::<R>(memory, slot)? {
            check(names_slot(refusal, slot), "get of any bytes")?;
            first = first.or(Some(refusal));
        }
    }
    Ok(first)
}

fn opens<C: TweakableCipher + Keyed + Drop, R: Record + Drop, const SIZE: usize>(
    slots: usize,
    page: usize,
    seed: u32,
) -> Step
    requires { SIZE ≤ 262144 }
{
    let mut memory = [0u8; SIZE];
    scramble(&mut memory, seed);
    let before = memory;
    let mut board = Board::<C>::new(OLD, slots, page)?;
    let first = first_refusal::<C, R>(&board, &memory)?;
    check(memory == before, "the memory after get")?;
    let answer = board.change::<R>(&mut memory, NEW)?;
    match first {
        Some(refusal) => {
            check(is_refused(answer, refusal), "change of any bytes")?;
            check(memory == before, "the memory after a refused change")
        }
        None => check(answer.is_ok(), "change where every slot is read"),
    }
}

fn all_opens<C: TweakableCipher + Keyed + Drop, R: Record + Drop>() -> Step {
    for seed in 0..16 {
        opens::<C, R, 512>(8, 64, seed)?;
    }
    opens::<C, R, 4096>(64, 64, 16)?;
    opens::<C, R, 8192>(2, 4096, 17)
}

pub fn noise<C: TweakableCipher + Keyed + Drop>() -> Step {
    all_opens::<C, Sheet>()?;
    all_opens::<C, ParameterSet>()
}
