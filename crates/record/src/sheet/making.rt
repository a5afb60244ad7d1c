ghost use Rattle.std.specs.Prelude.{◌≡◌, codes, refl};
ghost use Rattle.block.specs.Answers.{answered_as};
ghost use Rattle.record.specs.Makings.{numbers};
ghost use Rattle.record.specs.Rules.{Judged};
ghost use Rattle.record.specs.Fields.{rules, list_of, fields_of};
ghost use Rattle.record.specs.Sheets.{making, answer, writing, reading as reading_of};
ghost use Rattle.record.specs.Numbers.{under_sixteens};
ghost use Rattle.record.specs.Reading.{read_written, written_read};
ghost use Rattle.std.proofs.Common.{rules as lemmas, arith};

use super::Sheet;
use crate::fault::FieldFault;
use crate::fields::SheetFields;
use crate::kind::Record;
use crate::rule::{is_within, require};
use crate::sixteen::{read_sixteen, write_sixteens};

// The seven numbers in order.
impl From<SheetFields> for [u32; 7] {
    ghost from_gives = { λ f n. n ≡ list_of f };

    fn from(fields: SheetFields) -> [u32; 7] {
        [
            fields.sensor1,
            fields.sensor2,
            fields.flow,
            fields.returned,
            fields.water,
            fields.room,
            fields.brine,
        ]
    }
}

// The fields of seven numbers in order.
impl From<[u32; 7]> for SheetFields {
    ghost from_gives = { λ n f. f ≡ fields_of n };

    fn from(list: [u32; 7]) -> SheetFields {
        SheetFields {
            sensor1: list[0],
            sensor2: list[1],
            flow: list[2],
            returned: list[3],
            water: list[4],
            room: list[5],
            brine: list[6],
        }
    }
}

impl SheetFields {
    // The lowest field that breaks its range or rule, if there is one, is refused.
    fn check(&self) -> Result<(), FieldFault>
        ensures { Judged (rules self.now) result }
    {
        require(1, is_within(1, 9999, self.sensor1))?;
        require(
            2,
            is_within(1, 9999, self.sensor2) && self.sensor2 != self.sensor1,
        )?;
        require(3, is_within(0, 1000, self.flow))?;
        require(4, is_within(0, 1000, self.returned))?;
        require(5, is_within(0, 1000, self.water))?;
        require(6, is_within(0, 1000, self.room))?;
        require(7, is_within(0, 1000, self.brine))
    }
}

impl Sheet {
    // The sheet of these fields, or which is the lowest wrong one.
    pub fn new(fields: SheetFields) -> Result<Sheet, FieldFault>
        ensures value { result ≡ making fields }
        ensures answer { answered_as (λ s. s.fields) numbers result ≡ answer fields }
    {
        fields.check()?;
        Ok(Sheet { fields })
    }

    pub fn fields(&self) -> SheetFields
        ensures { result ≡ self.now.fields }
    {
        self.fields
    }
}

impl Record for Sheet {
    const LABEL: [u8; 4] = *b"COMM";

    const WIDTH: usize = 14;

    ghost LABEL = { codes "COMM" };

    ghost WIDTH = { 14 };

    ghost written = { writing };

    ghost reading = { reading_of };

    ghost four = { (refl, Prim.search lemmas) };

    ghost narrow = { (omega arith, omega arith) };

    ghost long = { λ s. (refl, under_sixteens (list_of s.fields)) };

    ghost readback = { λ s. read_written s };

    ghost writeback = { λ x s long under e. written_read x s long under e };

    fn write(&self, out: &mut [u8]) {
        write_sixteens(out, &<[u32; 7]>::from(self.fields));
    }

    fn read(bytes: &[u8]) -> Result<Sheet, FieldFault> {
        Sheet::new(SheetFields {
            sensor1: read_sixteen(bytes, 0),
            sensor2: read_sixteen(bytes, 1),
            flow: read_sixteen(bytes, 2),
            returned: read_sixteen(bytes, 3),
            water: read_sixteen(bytes, 4),
            room: read_sixteen(bytes, 5),
            brine: read_sixteen(bytes, 6),
        })
    }
}
