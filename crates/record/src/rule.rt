// The rules that the fields of a record keep.
ghost use Rattle.std.specs.Prelude.{◌≡◌, if◌then◌else◌, Ok, Err};
ghost use Rattle.record.specs.Rules.{within};

use crate::fault::FieldFault;
use std::ops::RangeBounds;

pub fn is_within(low: u32, high: u32, x: u32) -> bool
    ensures { result ≡ within low high x }
{
    (low..=high).contains(&x)
}

// A field that breaks its rule is refused by its number.
pub fn require(field: u8, kept: bool) -> Result<(), FieldFault>
    ensures { result ≡ (if kept then Ok tt else Err (record { field = field })) }
{
    if kept {
        Ok(())
    } else {
        Err(FieldFault { field })
    }
}
