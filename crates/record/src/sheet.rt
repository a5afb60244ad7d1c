ghost use Rattle.std.specs.Prelude.{T};
ghost use Rattle.record.specs.Fields.{sound};

use crate::fields::SheetFields;

mod making;

// A commissioning sheet. None exists whose fields are out of range.
#[derive(Clone, Copy, PartialEq, Eq)]
pub struct Sheet {
    fields: SheetFields,
    ghost ok: { T (sound fields) },
}
