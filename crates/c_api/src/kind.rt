ghost use Rattle.std.specs.Prelude.{◌≡◌, Result};
ghost use Rattle.record.specs.Sheets.{making as sheet_of};
ghost use Rattle.record.specs.Parameters.{making as set_of};
ghost use Rattle.record.specs.declared.fault.FieldFault.{FieldFault};

use record::fault::FieldFault;
use record::fields::SheetFields;
use record::kind::Record;
use record::parameters::ParameterSet;
use record::setting::ParameterFields;
use record::sheet::Sheet;

// A kind of records with its fields as C hands them over, in range or not.
pub trait Kind: Record {
    type Fields: Copy;

    ghost making: { Self.Fields → Result Self FieldFault };

    ghost told: { Self → Self.Fields };

    fn make(fields: Self::Fields) -> Result<Self, FieldFault>
        ensures { result ≡ making fields };

    fn tell(&self) -> Self::Fields
        ensures { result ≡ told self.now };
}

impl Kind for Sheet {
    type Fields = SheetFields;

    ghost making = { sheet_of };

    ghost told = { λ s. s.fields };

    fn make(fields: SheetFields) -> Result<Sheet, FieldFault> {
        Sheet::new(fields)
    }

    fn tell(&self) -> SheetFields {
        self.fields()
    }
}

impl Kind for ParameterSet {
    type Fields = ParameterFields;

    ghost making = { set_of };

    ghost told = { λ s. s.fields };

    fn make(fields: ParameterFields) -> Result<ParameterSet, FieldFault> {
        ParameterSet::new(fields)
    }

    fn tell(&self) -> ParameterFields {
        self.fields()
    }
}
