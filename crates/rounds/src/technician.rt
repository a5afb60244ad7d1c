// The round of a technician: every call once, and the slot read after each.
use crate::board::{Board, NEW, OLD};
use crate::check::{Step, check};
use crate::keyed::Keyed;
use crate::sample::{Sample, samples};
use cipher::tweakable::TweakableCipher;
use record::kind::Record;
use record::parameters::ParameterSet;
use record::sheet::Sheet;

// The slots of a formed memory are empty but for one.
fn others_empty<C: TweakableCipher + Keyed + Drop, R: Record + Sample + Drop>(
    board: &Board<C>,
    memory: &[u8],
    but: usize,
) -> Step {
    for slot in 0..board.store.geometry().slots() {
        if slot != but {
            board.holds::<R>(memory, slot, None, "get of an untouched slot")?;
        }
    }
    Ok(())
}

fn round<C: TweakableCipher + Keyed + Drop, R: Record + Sample + Copy>(
    memory: &mut [u8],
    slots: usize,
    page: usize,
    slot: usize,
) -> Step {
    let pair = samples::<R>()?;
    let mut board = Board::<C>::new(OLD, slots, page)?;
    board.form::<R>(memory)?;
    board.holds::<R>(memory, slot, None, "get after form")?;
    board.put(memory, slot, &pair.first)?;
    board.holds(memory, slot, Some(pair.first), "get after put")?;
    board.put(memory, slot, &pair.second)?;
    board.holds(memory, slot, Some(pair.second), "get after another put")?;
    board.clear::<R>(memory, slot)?;
    board.holds::<R>(memory, slot, None, "get after clear")?;
    board.put(memory, slot, &pair.first)?;
    check(board.change::<R>(memory, NEW)?.is_ok(), "change")?;
    board.holds(memory, slot, Some(pair.first), "get after change")?;
    others_empty::<C, R>(&board, memory, slot)
}

fn rounds<C: TweakableCipher + Keyed + Drop, R: Record + Sample + Copy>() -> Step {
    round::<C, R>(&mut [0u8; 64], 1, 64, 0)?;
    round::<C, R>(&mut [0u8; 512], 8, 64, 3)?;
    round::<C, R>(&mut [0u8; 4096], 64, 64, 63)?;
    round::<C, R>(&mut [0u8; 195], 3, 65, 1)?;
    round::<C, R>(&mut [0u8; 4096], 1, 4096, 0)?;
    round::<C, R>(&mut [0u8; 12288], 3, 4096, 2)
}

pub fn technician<C: TweakableCipher + Keyed + Drop>() -> Step {
    rounds::<C, Sheet>()?;
    rounds::<C, ParameterSet>()
}
