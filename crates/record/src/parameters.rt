ghost use Rattle.std.specs.Prelude.{T};
ghost use Rattle.record.specs.Settings.{sound};

use crate::setting::ParameterFields;

mod making;

// A parameter set. None exists whose fields are out of range.
#[derive(Clone, Copy, PartialEq, Eq)]
pub struct ParameterSet {
    fields: ParameterFields,
    ghost ok: { T (sound fields) },
}
