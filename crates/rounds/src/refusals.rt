// Every refusal at its edge, in its order, and what it leaves. The memory has 4 slots of 64 bytes.
ghost use Rattle.std.specs.Prelude.{◌≤◌};

use crate::board::{Board, MARK, NEW, OLD, is_refused};
use crate::check::{Step, check};
use crate::keyed::Keyed;
use crate::sample::{Sample, samples};
use calls::refusal::Refusal;
use cipher::tweakable::TweakableCipher;
use page::fault::{PageFault, SlotFault};
use page::plain::lay_record;
use record::fault::FieldFault;
use record::kind::Record;
use record::parameters::ParameterSet;
use record::sheet::Sheet;
use zcz::encipher;

// Every call on a memory of another length, with a wrong slot and a short buffer too.
fn refuses_memory<C: TweakableCipher + Keyed + Drop, R: Record + Copy>(
    board: &mut Board<C>,
    memory: &mut [u8],
    content: &R,
    working: &mut [u8],
) -> Step {
    let store = &mut board.store;
    let wanted = Refusal::Memory;
    check(
        is_refused(store.form::<R>(memory), wanted),
        "form of another length",
    )?;
    check(
        is_refused(store.put(memory, 3, content), wanted),
        "put in another length",
    )?;
    check(
        is_refused(store.put(memory, 4, content), wanted),
        "put: memory before slot",
    )?;
    check(
        is_refused(store.clear::<R>(memory, 3), wanted),
        "clear in another length",
    )?;
    check(
        is_refused(store.clear::<R>(memory, 4), wanted),
        "clear: memory before slot",
    )?;
    check(
        is_refused(store.get::<R>(memory, 3, working), wanted),
        "get in another length",
    )?;
    check(
        is_refused(store.get::<R>(memory, 4, working), wanted),
        "get: memory before slot",
    )?;
    check(
        is_refused(store.change::<R>(memory, C::keyed(NEW), working), wanted),
        "change of another length",
    )
}

// A memory of another length is refused and left, and so is the buffer, long enough or not.
fn another_length<C: TweakableCipher + Keyed + Drop, R: Record + Copy, const SIZE: usize>(
    board: &mut Board<C>,
    content: &R,
) -> Step
    requires { SIZE ≤ 262144 }
{
    let mut memory = [MARK; SIZE];
    let mut long = [MARK; 80];
    let mut short = [MARK; 63];
    refuses_memory(board, &mut memory, content, &mut long)?;
    refuses_memory(board, &mut memory, content, &mut short)?;
    check(memory == [MARK; SIZE], "a refused memory")?;
    check(
        long == [MARK; 80] && short == [MARK; 63],
        "the buffer after a refused memory",
    )
}

fn memories<C: TweakableCipher + Keyed + Drop, R: Record + Sample + Copy>() -> Step {
    let pair = samples::<R>()?;
    let mut board = Board::<C>::new(OLD, 4, 64)?;
    let mut memory = [MARK; 256];
    board.fill(&mut memory, &pair)?;
    another_length::<C, R, 0>(&mut board, &pair.first)?;
    another_length::<C, R, 255>(&mut board, &pair.first)?;
    another_length::<C, R, 257>(&mut board, &pair.first)?;
    board.holds_others(&memory, &pair, None, "get after a refused memory")
}

// Every call on a slot that is none.
fn refuses_slot<C: TweakableCipher + Keyed + Drop, R: Record + Copy>(
    board: &Board<C>,
    memory: &mut [u8],
    slot: usize,
    content: &R,
) -> Step {
    let mut long = [MARK; 80];
    let mut short = [MARK; 63];
    let store = &board.store;
    let wanted = Refusal::Slot;
    check(
        is_refused(store.put(memory, slot, content), wanted),
        "put into no slot",
    )?;
    check(
        is_refused(store.clear::<R>(memory, slot), wanted),
        "clear of no slot",
    )?;
    check(
        is_refused(store.get::<R>(memory, slot, &mut long), wanted),
        "get of no slot",
    )?;
    check(
        is_refused(store.get::<R>(memory, slot, &mut short), wanted),
        "get: slot before buffer",
    )?;
    check(
        long == [MARK; 80] && short == [MARK; 63],
        "the buffer after a refused slot",
    )
}

fn slots<C: TweakableCipher + Keyed + Drop, R: Record + Sample + Copy>() -> Step {
    let pair = samples::<R>()?;
    let board = Board::<C>::new(OLD, 4, 64)?;
    let mut memory = [MARK; 256];
    board.fill(&mut memory, &pair)?;
    let before = memory;
    refuses_slot(&board, &mut memory, 4, &pair.second)?;
    refuses_slot(&board, &mut memory, 256, &pair.second)?;
    refuses_slot(&board, &mut memory, usize::MAX, &pair.second)?;
    check(memory == before, "the memory after a refused slot")?;
    board.holds_others(&memory, &pair, None, "get after a refused slot")?;
    board.clear::<R>(&mut memory, 3)?;
    board.holds::<R>(&memory, 3, None, "get of the last slot, cleared")?;
    board.put(&mut memory, 3, &pair.second)?;
    board.holds(&memory, 3, Some(pair.second), "get of the last slot")
}

// A buffer shorter than a page is refused and left.
fn refuses_buffer<C: TweakableCipher + Keyed + Drop, R: Record + Copy, const SIZE: usize>(
    board: &mut Board<C>,
    memory: &mut [u8],
) -> Step
    requires { SIZE ≤ 262144 }
{
    let mut working = [MARK; SIZE];
    let got = board.store.get::<R>(memory, 3, &mut working);
    check(is_refused(got, Refusal::Buffer), "get with a short buffer")?;
    let changed = board.store.change::<R>(memory, C::keyed(NEW), &mut working);
    check(
        is_refused(changed, Refusal::Buffer),
        "change with a short buffer",
    )?;
    check(working == [MARK; SIZE], "a refused buffer")
}

// A buffer of just a page's length is enough.
fn takes_buffer<C: TweakableCipher + Keyed + Drop, R: Record + Copy>(
    board: &mut Board<C>,
    memory: &mut [u8],
) -> Step {
    let mut working = [MARK; 64];
    check(
        board.store.get::<R>(memory, 3, &mut working).is_ok(),
        "get with a page's buffer",
    )?;
    check(working == [0; 64], "a page's buffer after get")?;
    let mut working = [MARK; 64];
    let changed = board.store.change::<R>(memory, C::keyed(NEW), &mut working);
    check(changed.is_ok(), "change with a page's buffer")?;
    check(working == [0; 64], "a page's buffer after change")
}

// The buffer is refused before a page.
fn buffers<C: TweakableCipher + Keyed + Drop, R: Record + Sample + Copy>() -> Step {
    let pair = samples::<R>()?;
    let mut board = Board::<C>::new(OLD, 4, 64)?;
    let mut memory = [MARK; 256];
    refuses_buffer::<C, R, 63>(&mut board, &mut memory)?;
    check(memory == [MARK; 256], "any bytes after a refused buffer")?;
    board.fill(&mut memory, &pair)?;
    let before = memory;
    refuses_buffer::<C, R, 63>(&mut board, &mut memory)?;
    refuses_buffer::<C, R, 0>(&mut board, &mut memory)?;
    check(memory == before, "the memory after a refused buffer")?;
    board.holds_others(&memory, &pair, None, "get after a refused buffer")?;
    takes_buffer::<C, R>(&mut board, &mut memory)?;
    board.holds_others(
        &memory,
        &pair,
        None,
        "get after change with a page's buffer",
    )
}

// Writes bytes at a place.
fn write_at(memory: &mut [u8], place: usize, bytes: &[u8]) {
    for (to, from) in memory.iter_mut().skip(place).zip(bytes.iter()) {
        *to = *from;
    }
}

// The page of a slot that holds a record of zeros, which is no record of either kind, under the old key.
fn no_record<C: TweakableCipher + Keyed + Drop, R: Record>(slot: u8, content: &R) -> [u8; 64] {
    let mut page = [0u8; 64];
    lay_record(&mut page, slot, content);
    write_at(&mut page, 16, &[0u8; 48]);
    let _ = encipher(&C::keyed(OLD), &mut page);
    page
}

fn head(slot: u8) -> Refusal {
    Refusal::Page(SlotFault {
        slot,
        fault: PageFault::Head,
    })
}

fn first_field(slot: u8) -> Refusal {
    Refusal::Page(SlotFault {
        slot,
        fault: PageFault::Record(FieldFault { field: 1 }),
    })
}

// The change is refused so, and leaves the memory.
fn refuses_change<C: TweakableCipher + Keyed + Drop, R: Record + Drop>(
    board: &mut Board<C>,
    memory: &mut [u8; 256],
    wanted: Refusal,
) -> Step {
    let before = *memory;
    check(
        is_refused(board.change::<R>(memory, NEW)?, wanted),
        "change of a faulty page",
    )?;
    check(*memory == before, "the memory after a faulty page")
}

// Slot 1 holds no record, and slot 2 the page of slot 1. A change names the lower one, and with that put right the other.
fn pages<C: TweakableCipher + Keyed + Drop, R: Record + Sample + Copy>() -> Step {
    let pair = samples::<R>()?;
    let mut board = Board::<C>::new(OLD, 4, 64)?;
    let mut memory = [0u8; 256];
    board.fill(&mut memory, &pair)?;
    let page = no_record::<C, R>(1, &pair.first);
    write_at(&mut memory, 64, &page);
    write_at(&mut memory, 128, &page);
    check(
        is_refused(board.get::<R>(&memory, 1)?, first_field(1)),
        "get of no record",
    )?;
    check(
        is_refused(board.get::<R>(&memory, 2)?, head(2)),
        "get of another slot's page",
    )?;
    refuses_change::<C, R>(&mut board, &mut memory, first_field(1))?;
    board.put(&mut memory, 1, &pair.second)?;
    refuses_change::<C, R>(&mut board, &mut memory, head(2))?;
    board.clear::<R>(&mut memory, 2)?;
    board.holds_others(&memory, &pair, None, "get after the pages are put right")?;
    check(
        board.change::<R>(&mut memory, NEW)?.is_ok(),
        "change after the pages are put right",
    )?;
    board.holds_others(&memory, &pair, None, "get after that change")
}

// Pages of one kind are none of another.
fn kinds<C: TweakableCipher + Keyed + Drop, R: Record + Sample + Copy, S: Record + Drop>() -> Step {
    let pair = samples::<R>()?;
    let mut board = Board::<C>::new(OLD, 4, 64)?;
    let mut memory = [0u8; 256];
    board.fill(&mut memory, &pair)?;
    check(
        is_refused(board.get::<S>(&memory, 0)?, head(0)),
        "get of another kind",
    )?;
    check(
        is_refused(board.get::<S>(&memory, 2)?, head(2)),
        "get of another kind's empty slot",
    )?;
    refuses_change::<C, S>(&mut board, &mut memory, head(0))?;
    board.holds_others(&memory, &pair, None, "get after the other kind")
}

fn all_refusals<C: TweakableCipher + Keyed + Drop, R: Record + Sample + Copy>() -> Step {
    memories::<C, R>()?;
    slots::<C, R>()?;
    buffers::<C, R>()?;
    pages::<C, R>()
}

pub fn refusals<C: TweakableCipher + Keyed + Drop>() -> Step {
    all_refusals::<C, Sheet>()?;
    all_refusals::<C, ParameterSet>()?;
    kinds::<C, Sheet, ParameterSet>()?;
    kinds::<C, ParameterSet, Sheet>()
}
