ghost use Rattle.std.specs.Prelude.{◌≡◌};
ghost use Rattle.calls.specs.declared.refusal.Refusal.{Refusal};

use page::fault::SlotFault;

// Why a call of the store is refused.
#[derive(Clone, Copy, PartialEq, Eq)]
pub enum Refusal {
    // The memory is not of the geometry's length.
    Memory,
    // The slot is none of the geometry's.
    Slot,
    // The working buffer is shorter than a page.
    Buffer,
    // A page is not what a page of its slot must be.
    Page(SlotFault),
}

impl From<SlotFault> for Refusal {
    ghost from_gives = { λ x y. y ≡ Refusal.Page x };

    fn from(fault: SlotFault) -> Refusal {
        Refusal::Page(fault)
    }
}
