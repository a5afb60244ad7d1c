// Memories under one key that came about by other calls.
ghost use Rattle.std.specs.Prelude.{◌≤◌};

use crate::board::{Board, NEW, OLD};
use crate::check::{Step, check};
use crate::keyed::Keyed;
use crate::noise::scramble;
use crate::sample::{Pair, Sample, samples};
use cipher::tweakable::TweakableCipher;
use record::kind::Record;
use record::parameters::ParameterSet;
use record::sheet::Sheet;

// Fills slots 0 and 1 with detours, from any bytes.
fn detour<C: TweakableCipher + Keyed + Drop, R: Record + Copy>(
    board: &Board<C>,
    memory: &mut [u8],
    pair: &Pair<R>,
) -> Step {
    scramble(memory, 18);
    board.form::<R>(memory)?;
    board.put(memory, 2, &pair.first)?;
    board.put(memory, 1, &pair.first)?;
    board.clear::<R>(memory, 1)?;
    board.put(memory, 0, &pair.second)?;
    board.put(memory, 1, &pair.second)?;
    board.clear::<R>(memory, 2)?;
    board.put(memory, 0, &pair.first)
}

// Equal contents make equal memories, and other contents another memory.
fn meet<C: TweakableCipher + Keyed + Drop, R: Record + Sample + Copy, const SIZE: usize>(
    page: usize,
) -> Step
    requires { SIZE ≤ 262144 }
{
    let pair = samples::<R>()?;
    let mut straight = [0u8; SIZE];
    let mut other = [0u8; SIZE];
    let board = Board::<C>::new(NEW, 3, page)?;
    board.fill(&mut straight, &pair)?;
    detour(&Board::<C>::new(NEW, 3, page)?, &mut other, &pair)?;
    check(straight == other, "another order of calls")?;
    let mut changed = Board::<C>::new(OLD, 3, page)?;
    detour(&changed, &mut other, &pair)?;
    check(changed.change::<R>(&mut other, NEW)?.is_ok(), "change")?;
    check(
        straight == other,
        "calls under another key, and then a change to this one",
    )?;
    changed.put(&mut other, 2, &pair.second)?;
    let same = straight == other;
    check(!same, "a record more")?;
    board.clear::<R>(&mut other, 2)?;
    check(straight == other, "that record cleared by the other store")
}

fn all_meet<C: TweakableCipher + Keyed + Drop, R: Record + Sample + Copy>() -> Step {
    meet::<C, R, 192>(64)?;
    meet::<C, R, 12288>(4096)
}

pub fn histories<C: TweakableCipher + Keyed + Drop>() -> Step {
    all_meet::<C, Sheet>()?;
    all_meet::<C, ParameterSet>()
}
