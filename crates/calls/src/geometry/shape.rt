// Slots or page length outside the limits of a geometry.
#[derive(Clone, Copy, PartialEq, Eq)]
pub struct GeometryFault;
