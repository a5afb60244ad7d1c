// A block is 16 bytes, read as a number of 128 bits with the high byte first.
pub type Block = u128;

// Two blocks, side by side.
#[derive(Clone, Copy, PartialEq, Eq)]
pub struct DiBlock {
    pub left: Block,
    pub right: Block,
}
