ghost use Rattle.std.specs.Prelude.{◌≡◌, pos, neg_ℤ, codes, refl};
ghost use Rattle.block.specs.Answers.{answered_as};
ghost use Rattle.record.specs.Makings.{numbers};
ghost use Rattle.record.specs.Rules.{Judged};
ghost use Rattle.record.specs.Settings.{rules, wide as wide_of};
ghost use Rattle.record.specs.Parameters.{making, answer, writing, reading as reading_of};
ghost use Rattle.record.specs.ParameterReading.{under_encoded, read_written, written_read};
ghost use Rattle.std.proofs.Common.{rules as lemmas, arith};

use super::ParameterSet;
use crate::fault::FieldFault;
use crate::kind::Record;
use crate::rule::{is_within, require};
use crate::setting::ParameterFields;
use crate::sixteen::{from_twos, read_sixteen, to_twos, write_sixteens};
use std::ops::RangeBounds;

impl ParameterFields {
    // The four numbers of 16 bits in order.
    fn wide(self) -> [u32; 4]
        ensures { result ≡ wide_of self }
    {
        [self.slope, to_twos(self.shift), self.flow, self.water]
    }

    // The lowest field that breaks its range or rule, if there is one, is refused.
    fn check(&self) -> Result<(), FieldFault>
        ensures { Judged (rules self.now) result }
    {
        require(1, is_within(10, 350, self.slope))?;
        require(2, (-100..=100).contains(&self.shift))?;
        require(3, is_within(200, 650, self.flow))?;
        require(4, is_within(300, self.flow, self.water))?;
        require(5, is_within(0, 3, self.mode))
    }
}

impl ParameterSet {
    // The set of these fields, or which is the lowest wrong one. `Sheet::new` reads the same, of another type: one record
    // generic in its fields would be longer than both.
    pub fn new(fields: ParameterFields) -> Result<ParameterSet, FieldFault>
        ensures value { result ≡ making fields }
        ensures answer { answered_as (λ s. s.fields) numbers result ≡ answer fields }
    {
        fields.check()?;
        Ok(ParameterSet { fields })
    }

    pub fn fields(&self) -> ParameterFields
        ensures { result ≡ self.now.fields }
    {
        self.fields
    }
}

impl Record for ParameterSet {
    const LABEL: [u8; 4] = *b"PARA";

    const WIDTH: usize = 9;

    ghost LABEL = { codes "PARA" };

    ghost WIDTH = { 9 };

    ghost written = { writing };

    ghost reading = { reading_of };

    ghost four = { (refl, Prim.search lemmas) };

    ghost narrow = { (omega arith, omega arith) };

    ghost long = { λ s. (refl, under_encoded s.fields s.ok) };

    ghost readback = { λ s. read_written s };

    ghost writeback = { λ x s long under e. written_read x s long under e };

    fn write(&self, out: &mut [u8]) {
        write_sixteens(out, &self.fields.wide());
        out[8] = self.fields.mode as u8;
    }

    fn read(bytes: &[u8]) -> Result<ParameterSet, FieldFault> {
        ParameterSet::new(ParameterFields {
            slope: read_sixteen(bytes, 0),
            shift: from_twos(read_sixteen(bytes, 1)),
            flow: read_sixteen(bytes, 2),
            water: read_sixteen(bytes, 3),
            mode: bytes[8] as u32,
        })
    }
}
