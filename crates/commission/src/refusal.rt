ghost use Rattle.std.specs.Prelude.{◌≡◌};
ghost use Rattle.commission.specs.declared.refusal.Refusal.{Refusal};

use record::fault::FieldFault;
use std::fmt;

// Why a line is refused.
#[derive(Clone, Copy)]
pub enum Refusal {
    // It is not seven numbers with commas between them.
    Line,
    // A number is out of its range or breaks its rule.
    Field(FieldFault),
}

impl From<FieldFault> for Refusal {
    ghost from_gives = { λ x y. y ≡ Refusal.Field x };

    fn from(fault: FieldFault) -> Refusal {
        Refusal::Field(fault)
    }
}

impl fmt::Display for Refusal {
    fn fmt<W: fmt::Write>(&self, f: &mut fmt::Formatter<W>) -> fmt::Result {
        match self {
            Refusal::Line => write!(
                f,
                "9: the line is not seven numbers with commas between them"
            ),
            Refusal::Field(FieldFault { field }) => write!(
                f,
                "8: number {field} is out of its range or breaks its rule"
            ),
        }
    }
}
