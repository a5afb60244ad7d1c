// Why a message is refused.
#[derive(Clone, Copy, PartialEq, Eq)]
pub enum Refusal {
    // It is not of 32 to 65,536 bytes.
    Length,
}
