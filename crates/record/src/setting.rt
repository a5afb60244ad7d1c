// The five numbers of a parameter set, in range or not.
#[repr(C)]
#[derive(Clone, Copy, PartialEq, Eq)]
pub struct ParameterFields {
    // The heating curve's slope in hundredths, and its shift in tenths of a degree.
    pub slope: u32,
    pub shift: i32,
    // The flow's maximum and the hot water's target in tenths of a degree.
    pub flow: u32,
    pub water: u32,
    // A number in range or not, as C hands it over.
    pub mode: u32,
}
