// Answers in numbers, as the C interface has them.
ghost use Rattle.std.specs.Prelude.{◌≡◌, ℕ};
ghost use Rattle.c_api.specs.Answers as answers;

use crate::answer::{Answer, Refusal};
use calls::refusal::Refusal as StoreRefusal;
use page::fault::{PageFault, SlotFault};

pub fn yes(found: u32) -> Answer
    ensures { result ≡ answers.yes found }
{
    Answer {
        number: 0,
        slot: 0,
        field: 0,
        found,
    }
}

fn no(number: u32, slot: u32, field: u32) -> Answer
    ensures { result ≡ answers.no number slot field }
{
    Answer {
        number,
        slot,
        field,
        found: 0,
    }
}

impl From<SlotFault> for Answer {
    ghost from_gives = { λ x y. y ≡ answers.page_answer x.slot x.fault };

    fn from(fault: SlotFault) -> Answer {
        let slot = u32::from(fault.slot);
        match fault.fault {
            PageFault::Head => no(6, slot, 0),
            PageFault::Record(fault) => no(7, slot, u32::from(fault.field)),
        }
    }
}

impl From<StoreRefusal> for Answer {
    ghost from_gives = { λ x y. y ≡ answers.store_answer x };

    fn from(refusal: StoreRefusal) -> Answer {
        match refusal {
            StoreRefusal::Memory => no(3, 0, 0),
            StoreRefusal::Slot => no(4, 0, 0),
            StoreRefusal::Buffer => no(5, 0, 0),
            StoreRefusal::Page(fault) => Answer::from(fault),
        }
    }
}

impl From<Refusal> for Answer {
    ghost from_gives = { λ x y. y ≡ answers.refused x };

    fn from(refusal: Refusal) -> Answer {
        match refusal {
            Refusal::Cipher => no(100, 0, 0),
            Refusal::Key => no(101, 0, 0),
            Refusal::Message(_) => no(1, 0, 0),
            Refusal::Geometry(_) => no(2, 0, 0),
            Refusal::Record(fault) => no(8, 0, u32::from(fault.field)),
            Refusal::Store(refusal) => Answer::from(refusal),
        }
    }
}

// As `tell` in `messages`, of another refusal.
pub fn done(res: Result<(), StoreRefusal>) -> Answer
    ensures { result ≡ answers.done res }
{
    match res {
        Ok(()) => yes(0),
        Err(refusal) => Answer::from(refusal),
    }
}
