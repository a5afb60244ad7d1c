ghost use Rattle.std.specs.Prelude.{◌≡◌};
ghost use Rattle.session.specs.declared.refusal.Refusal.{Refusal};

use calls::geometry::shape::GeometryFault;
use calls::refusal::Refusal as StoreRefusal;
use record::fault::FieldFault;

// Why a line is refused.
#[derive(Clone, Copy)]
pub enum Refusal {
    // It is no command, or it wants a formed memory and none is formed.
    Line,
    // There is no geometry of these numbers.
    Geometry(GeometryFault),
    // There is no sheet of these fields.
    Sheet(FieldFault),
    // The store refuses.
    Store(StoreRefusal),
}

// Written out, since a derived `From` has no contract.
impl From<GeometryFault> for Refusal {
    ghost from_gives = { λ x y. y ≡ Refusal.Geometry x };

    fn from(fault: GeometryFault) -> Refusal {
        Refusal::Geometry(fault)
    }
}

impl From<FieldFault> for Refusal {
    ghost from_gives = { λ x y. y ≡ Refusal.Sheet x };

    fn from(fault: FieldFault) -> Refusal {
        Refusal::Sheet(fault)
    }
}

impl From<StoreRefusal> for Refusal {
    ghost from_gives = { λ x y. y ≡ Refusal.Store x };

    fn from(refusal: StoreRefusal) -> Refusal {
        Refusal::Store(refusal)
    }
}
