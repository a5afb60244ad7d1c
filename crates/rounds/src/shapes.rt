// Which geometries are made, and the calls on the longest memory.
use crate::board::{Board, NEW, OLD};
use crate::check::{Step, check};
use crate::keyed::Keyed;
use crate::sample::{Sample, samples};
use calls::geometry::Geometry;
use cipher::tweakable::TweakableCipher;
use record::kind::Record;
use record::sheet::Sheet;

fn makes(slots: usize, page: usize, step: &'static str) -> Step {
    check(
        Geometry::new(slots, page).is_ok_and(|g| g.slots() == slots && g.page() == page),
        step,
    )
}

fn refuses(slots: usize, page: usize, step: &'static str) -> Step {
    check(Geometry::new(slots, page).is_err(), step)
}

fn limits() -> Step {
    makes(1, 64, "1 slot of 64 bytes")?;
    makes(64, 64, "64 slots of 64 bytes")?;
    makes(1, 4096, "1 slot of 4096 bytes")?;
    makes(64, 4096, "64 slots of 4096 bytes")?;
    refuses(65, 64, "65 slots of 64 bytes")?;
    refuses(0, 64, "0 slots of 64 bytes")?;
    refuses(1, 63, "1 slot of 63 bytes")?;
    refuses(1, 4097, "1 slot of 4097 bytes")
}

// A filled memory of the longest geometry, before and after a change of the key.
fn longest<C: TweakableCipher + Keyed + Drop, R: Record + Sample + Copy>() -> Step {
    let pair = samples::<R>()?;
    let mut memory = [0u8; 262144];
    let mut board = Board::<C>::new(OLD, 64, 4096)?;
    board.fill(&mut memory, &pair)?;
    board.holds_others(&memory, &pair, None, "get in the longest memory")?;
    check(
        board.change::<R>(&mut memory, NEW)?.is_ok(),
        "change of the longest memory",
    )?;
    board.holds_others(
        &memory,
        &pair,
        None,
        "get after change of the longest memory",
    )
}

pub fn shapes<C: TweakableCipher + Keyed + Drop>() -> Step {
    limits()?;
    longest::<C, Sheet>()
}
