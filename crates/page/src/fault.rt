ghost use Rattle.std.specs.Prelude.{◌≡◌};
ghost use Rattle.page.specs.declared.fault.PageFault.{PageFault};

use record::fault::FieldFault;

// What is wrong with a page.
#[derive(Clone, Copy, PartialEq, Eq)]
pub enum PageFault {
    // The head is not this slot's, or a byte that must be zero is not.
    Head,
    // The kind refuses the record's bytes.
    Record(FieldFault),
}

impl From<FieldFault> for PageFault {
    ghost from_gives = { λ x y. y ≡ PageFault.Record x };

    fn from(fault: FieldFault) -> PageFault {
        PageFault::Record(fault)
    }
}

// What is wrong with the page of a slot.
#[derive(Clone, Copy, PartialEq, Eq)]
pub struct SlotFault {
    pub slot: u8,
    pub fault: PageFault,
}
