// Records to put into slots.
use crate::check::Wrong;
use record::fault::FieldFault;
use record::fields::SheetFields;
use record::parameters::ParameterSet;
use record::setting::ParameterFields;
use record::sheet::Sheet;

// Two records of a kind that differ.
#[derive(Clone, Copy)]
pub struct Pair<R> {
    pub first: R,
    pub second: R,
}

impl<R: Copy> Pair<R> {
    // What the slots of a filled memory hold: in turn the first record, the second, and nothing.
    pub fn content(&self, slot: usize) -> Option<R> {
        match slot % 3 {
            0 => Some(self.first),
            1 => Some(self.second),
            _ => None,
        }
    }
}

// A kind of records with samples.
pub trait Sample: PartialEq + Sized {
    fn pair() -> Result<Pair<Self>, FieldFault>;
}

pub fn samples<R: Sample>() -> Result<Pair<R>, Wrong> {
    R::pair().map_err(|_| Wrong {
        step: "making the records",
    })
}

impl Sample for Sheet {
    fn pair() -> Result<Pair<Sheet>, FieldFault> {
        let first = Sheet::new(SheetFields {
            sensor1: 17,
            sensor2: 18,
            flow: 350,
            returned: 300,
            water: 480,
            room: 210,
            brine: 55,
        })?;
        let second = Sheet::new(SheetFields {
            sensor1: 9999,
            sensor2: 1,
            flow: 1000,
            returned: 0,
            water: 1000,
            room: 0,
            brine: 1000,
        })?;
        Ok(Pair { first, second })
    }
}

impl Sample for ParameterSet {
    fn pair() -> Result<Pair<ParameterSet>, FieldFault> {
        let first = ParameterSet::new(ParameterFields {
            slope: 120,
            shift: -15,
            flow: 550,
            water: 480,
            mode: 2,
        })?;
        let second = ParameterSet::new(ParameterFields {
            slope: 350,
            shift: 100,
            flow: 650,
            water: 650,
            mode: 3,
        })?;
        Ok(Pair { first, second })
    }
}
