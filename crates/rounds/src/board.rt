// A store, whose calls are checked one by one.
use crate::check::{Step, Wrong, check};
use crate::keyed::Keyed;
use crate::sample::{Pair, Sample};
use block::diblock::Block;
use calls::geometry::Geometry;
use calls::refusal::Refusal;
use cipher::tweakable::TweakableCipher;
use record::kind::Record;
use store::store::Store;

pub const OLD: Block = 0x000102030405060708090a0b0c0d0e0f;

pub const NEW: Block = 0xfedcba98765432100123456789abcdef;

// What a working buffer holds before a call, and how many bytes it has: more than the longest page.
pub const MARK: u8 = 0xa5;

pub const WORKING: usize = 4112;

// Whether the first bytes of a buffer, as many as a page has, are zero, and the others as they were.
pub fn is_wiped(working: &[u8], page: usize) -> bool {
    working.iter().take(page).all(|b| *b == 0) && working.iter().skip(page).all(|b| *b == MARK)
}

// Whether a call was refused, and so.
pub fn is_refused<T: Drop>(answer: Result<T, Refusal>, wanted: Refusal) -> bool {
    answer.err() == Some(wanted)
}

// Whether a refusal is that of the slot's page.
pub fn names_slot(refusal: Refusal, slot: usize) -> bool {
    matches!(refusal, Refusal::Page(fault) if usize::from(fault.slot) == slot)
}

// Whether a slot was read, and holds this.
pub fn is_content<R: Sample + Drop>(answer: Result<Option<R>, Refusal>, wanted: Option<R>) -> bool {
    answer.is_ok_and(|found| found == wanted)
}

#[derive(Drop)]
pub struct Board<C> {
    pub store: Store<C>,
}

impl<C: TweakableCipher + Keyed + Drop> Board<C> {
    pub fn new(key: Block, slots: usize, page: usize) -> Result<Board<C>, Wrong> {
        let geometry = Geometry::new(slots, page).map_err(|_| Wrong {
            step: "making a geometry",
        })?;
        Ok(Board {
            store: Store::new(C::keyed(key), geometry),
        })
    }

    pub fn form<R: Record>(&self, memory: &mut [u8]) -> Step {
        check(self.store.form::<R>(memory).is_ok(), "form")
    }

    pub fn put<R: Record>(&self, memory: &mut [u8], slot: usize, content: &R) -> Step {
        check(self.store.put(memory, slot, content).is_ok(), "put")
    }

    pub fn clear<R: Record>(&self, memory: &mut [u8], slot: usize) -> Step {
        check(self.store.clear::<R>(memory, slot).is_ok(), "clear")
    }

    // The inner result is what `get` answers, the outer error a check that failed here: that the buffer's first page is zero and the
    // rest as it was.
    pub fn get<R: Record + Drop>(
        &self,
        memory: &[u8],
        slot: usize,
    ) -> Result<Result<Option<R>, Refusal>, Wrong> {
        let mut working = [MARK; WORKING];
        let answer = self.store.get(memory, slot, &mut working);
        check(
            is_wiped(&working, self.store.geometry().page()),
            "the buffer after get",
        )?;
        Ok(answer)
    }

    // The same of `change` to a key.
    pub fn change<R: Record + Drop>(
        &mut self,
        memory: &mut [u8],
        key: Block,
    ) -> Result<Result<(), Refusal>, Wrong> {
        let mut working = [MARK; WORKING];
        let answer = self.store.change::<R>(memory, C::keyed(key), &mut working);
        check(
            is_wiped(&working, self.store.geometry().page()),
            "the buffer after change",
        )?;
        Ok(answer)
    }

    pub fn holds<R: Record + Sample + Drop>(
        &self,
        memory: &[u8],
        slot: usize,
        content: Option<R>,
        step: &'static str,
    ) -> Step {
        check(is_content(self.get(memory, slot)?, content), step)
    }

    // Forms a memory and fills its slots, two of three. Which record a slot gets goes by its number.
    pub fn fill<R: Record + Copy>(&self, memory: &mut [u8], pair: &Pair<R>) -> Step {
        self.form::<R>(memory)?;
        for slot in 0..self.store.geometry().slots() {
            if let Some(content) = pair.content(slot) {
                self.put(memory, slot, &content)?;
            }
        }
        Ok(())
    }

    // Every slot of a filled memory but one holds what it must.
    pub fn holds_others<R: Record + Sample + Copy>(
        &self,
        memory: &[u8],
        pair: &Pair<R>,
        but: Option<usize>,
        step: &'static str,
    ) -> Step {
        for slot in 0..self.store.geometry().slots() {
            if but != Some(slot) {
                self.holds(memory, slot, pair.content(slot), step)?;
            }
        }
        Ok(())
    }
}
