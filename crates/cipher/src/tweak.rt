ghost use Rattle.std.specs.Prelude.{◌≡◌};
ghost use Rattle.cipher.specs.Tweaks.{head_of};

use block::diblock::Block;

// What a block is encrypted under, beside the key.
#[derive(Clone, Copy)]
pub struct Tweak {
    pub head: Block,
    pub body: Block,
}

impl Tweak {
    // The head has the domain's number in byte 0 and the index in bytes 12 to 15.
    pub fn new(domain: u8, index: u32, body: Block) -> Tweak
        ensures head { result.head ≡ head_of domain index }
        ensures body { result.body ≡ body }
    {
        Tweak {
            head: ((domain as u128) << 120) + index as u128,
            body,
        }
    }
}
