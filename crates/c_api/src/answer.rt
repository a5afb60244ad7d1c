ghost use Rattle.std.specs.Prelude.{◌≡◌};
ghost use Rattle.c_api.specs.declared.answer.Refusal.{Refusal};

use calls::geometry::shape::GeometryFault;
use calls::refusal::Refusal as StoreRefusal;
use record::fault::FieldFault;
use zcz::refusal::Refusal as MessageRefusal;

// What a call answers: 0 where it was accepted, or the refusal's number with its values, and whether a get found a record.
// All four are numbers since C reads them.
#[repr(C)]
#[derive(Clone, Copy)]
pub struct Answer {
    pub number: u32,
    pub slot: u32,
    pub field: u32,
    pub found: u32,
}

// Why a call is refused.
#[derive(Clone, Copy)]
pub enum Refusal {
    // There is no cipher of this selector.
    Cipher,
    // A key is not of 16 bytes.
    Key,
    Message(MessageRefusal),
    Geometry(GeometryFault),
    Record(FieldFault),
    Store(StoreRefusal),
}

impl From<MessageRefusal> for Refusal {
    ghost from_gives = { λ x y. y ≡ Refusal.Message x };

    fn from(refusal: MessageRefusal) -> Refusal {
        Refusal::Message(refusal)
    }
}

impl From<GeometryFault> for Refusal {
    ghost from_gives = { λ x y. y ≡ Refusal.Geometry x };

    fn from(fault: GeometryFault) -> Refusal {
        Refusal::Geometry(fault)
    }
}

impl From<FieldFault> for Refusal {
    ghost from_gives = { λ x y. y ≡ Refusal.Record x };

    fn from(fault: FieldFault) -> Refusal {
        Refusal::Record(fault)
    }
}

impl From<StoreRefusal> for Refusal {
    ghost from_gives = { λ x y. y ≡ Refusal.Store x };

    fn from(refusal: StoreRefusal) -> Refusal {
        Refusal::Store(refusal)
    }
}
