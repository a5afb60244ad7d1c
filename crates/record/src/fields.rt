// The seven numbers of a commissioning sheet, in range or not.
#[repr(C)]
#[derive(Clone, Copy, PartialEq, Eq)]
pub struct SheetFields {
    // The sensors' numbers.
    pub sensor1: u32,
    pub sensor2: u32,
    // Temperatures in tenths of a degree.
    pub flow: u32,
    pub returned: u32,
    pub water: u32,
    pub room: u32,
    pub brine: u32,
}
