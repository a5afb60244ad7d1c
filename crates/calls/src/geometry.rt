ghost use Rattle.std.specs.Prelude.{◌≡◌, ◌+◌, ◌*◌, ◌<◌, ◌≤◌};
ghost use Rattle.block.specs.Answers.{answered_as};
ghost use Rattle.calls.specs.Shapes.{numbers, answer};

use shape::GeometryFault;
use std::ops::{Range, RangeBounds};

pub mod shape;

// How many pages a memory has, and how many bytes a page. None exists outside its limits.
#[derive(Clone, Copy)]
pub struct Geometry {
    slots: usize,
    page: usize,
    ghost ok: { (1 ≤ slots) × (slots ≤ 64) × (64 ≤ page) × (page ≤ 4096) },
}

impl Geometry {
    // 1 to 64 slots of 64 to 4,096 bytes.
    pub fn new(slots: usize, page: usize) -> Result<Geometry, GeometryFault>
        ensures { answered_as (λ g. (g.slots, g.page)) numbers result ≡ answer slots page }
    {
        if !(1..=64).contains(&slots) || !(64..=4096).contains(&page) {
            return Err(GeometryFault);
        }
        Ok(Geometry { slots, page })
    }

    pub fn slots(&self) -> usize
        ensures { result ≡ self.now.slots }
    {
        self.slots
    }

    pub fn page(&self) -> usize
        ensures { result ≡ self.now.page }
    {
        self.page
    }

    // How many bytes the memory has.
    pub fn memory(&self) -> usize
        ensures { result ≡ self.now.slots * self.now.page }
    {
        self.slots * self.page
    }

    // Where the page of a slot stands.
    pub fn range(&self, slot: usize) -> Range<usize>
        requires { slot < self.now.slots }
        ensures start { result.start ≡ slot * self.now.page }
        ensures end { result.end ≡ slot * self.now.page + self.now.page }
        ensures within { result.end ≤ self.now.slots * self.now.page }
    {
        let start = slot * self.page;
        start..start + self.page
    }
}
