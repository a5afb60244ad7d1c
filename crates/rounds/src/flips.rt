// Filled memories in which one byte is another. A memory here is an array by a const parameter, and each function with one says
// how long it may be, since no type does.
ghost use Rattle.std.specs.Prelude.{◌≤◌};

use crate::board::{Board, NEW, OLD, is_content, is_refused, names_slot};
use crate::check::{Step, check};
use crate::keyed::Keyed;
use crate::sample::{Pair, Sample, samples};
use cipher::tweakable::TweakableCipher;
use record::kind::Record;
use record::parameters::ParameterSet;
use record::sheet::Sheet;

// Turns one bit of a byte, in turn the lowest to the highest.
fn flip(memory: &mut [u8], place: usize) {
    if let Some(byte) = memory.get_mut(place) {
        *byte ^= 1 << (place % 8);
    }
}

// The slot of the flipped byte no longer holds what it did, and the other slots do. Where its page is refused, so is a
// change of the key, which then leaves memory and key as they were.
fn flipped<C: TweakableCipher + Keyed + Drop, R: Record + Sample + Copy, const SIZE: usize>(
    board: &mut Board<C>,
    memory: &[u8; SIZE],
    pair: &Pair<R>,
    slot: usize,
    place: usize,
) -> Step
    requires { SIZE ≤ 262144 }
{
    let mut broken = *memory;
    flip(&mut broken, place);
    let before = broken;
    let answer = board.get::<R>(&broken, slot)?;
    board.holds_others(&broken, pair, Some(slot), "get of another slot")?;
    if let Err(refusal) = answer {
        check(names_slot(refusal, slot), "get of the flipped slot")?;
        check(
            is_refused(board.change::<R>(&mut broken, NEW)?, refusal),
            "change",
        )?;
        check(broken == before, "the memory after a refused change")?;
        return board.holds_others(&broken, pair, Some(slot), "get after a refused change");
    }
    check(
        !is_content(answer, pair.content(slot)),
        "the content of the flipped slot",
    )
}

// Flips bytes of a filled memory, one at a time: those at the multiples of a number.
fn flips_at<C: TweakableCipher + Keyed + Drop, R: Record + Sample + Copy, const SIZE: usize>(
    slots: usize,
    page: usize,
    every: usize,
) -> Step
    requires { SIZE ≤ 262144 }
{
    let pair = samples::<R>()?;
    let mut memory = [0u8; SIZE];
    let mut board = Board::<C>::new(OLD, slots, page)?;
    board.fill(&mut memory, &pair)?;
    for place in (0..SIZE).step_by(every.max(1)) {
        let slot = place / board.store.geometry().page();
        flipped(&mut board, &memory, &pair, slot, place)?;
    }
    board.holds_others(&memory, &pair, None, "get after all flips")
}

fn all_flips<C: TweakableCipher + Keyed + Drop, R: Record + Sample + Copy>() -> Step {
    flips_at::<C, R, 256>(4, 64, 1)?;
    flips_at::<C, R, 195>(3, 65, 1)?;
    flips_at::<C, R, 12288>(3, 4096, 819)
}

// Of both kinds. `histories`, `noise` and `technician` end alike, since no closure is generic in a kind.
pub fn flips<C: TweakableCipher + Keyed + Drop>() -> Step {
    all_flips::<C, Sheet>()?;
    all_flips::<C, ParameterSet>()
}
