#![tactic(auto)]
// The wide-block mode ZCZ with its extension for messages that end in a partial di-block, written once for all
// tweakable ciphers. It works in place over the caller's bytes.
ghost use Rattle.std.specs.Prelude.{◌≡◌, false, length, MatchResult};
ghost use Rattle.block.specs.Answers.{answered};
ghost use Rattle.mode.specs.Permutes.{admitted, enciphered, deciphered, Message, Permutes};
ghost use Rattle.zcz.specs.declared.refusal.Refusal.TheVariants.{Length};
ghost use Rattle.zcz.specs.Refusals.{numbers, answer};

mod direction;
mod ends;
mod layers;
pub mod refusal;
mod sealing;
mod sums;
mod tail;

use block::bytes::all_bytes;
use cipher::tweakable::TweakableCipher;
use direction::{Deciphering, Enciphering};
use refusal::Refusal;
use sealing::run;
use std::ops::RangeBounds;

const SHORTEST: usize = 32;

const LONGEST: usize = 65536;

// Refuses a message of a length that the mode does not take.
fn admit(message: &[u8]) -> Result<(), Refusal>
    ensures { MatchResult result (λ _. Message message.now) (λ e. (e ≡ Length) × (admitted (length message.now) ≡ false)) }
{
    if !(SHORTEST..=LONGEST).contains(&message.len()) {
        return Err(Refusal::Length);
    }
    all_bytes(message);
    Ok(())
}

// Enciphers a message of 32 to 65,536 bytes in place. One of another length is refused and left as it is.
pub fn encipher<C: TweakableCipher>(c: &C, message: &mut [u8]) -> Result<(), Refusal>
    ensures answer { answered numbers result ≡ answer (length message.old) }
    ensures wrote { message.new ≡ enciphered (C.encrypted c.now) message.old }
    ensures back { deciphered (C.encrypted c.now) (C.decrypted c.now) message.new ≡ message.old }
    ensures permutes { Permutes (C.encrypted c.now) (C.decrypted c.now) }
{
    admit(message)?;
    run::<C, Enciphering>(c, message);
    Ok(())
}

// Deciphers a message of 32 to 65,536 bytes in place. One of another length is refused and left as it is.
pub fn decipher<C: TweakableCipher>(c: &C, message: &mut [u8]) -> Result<(), Refusal>
    ensures answer { answered numbers result ≡ answer (length message.old) }
    ensures wrote { message.new ≡ deciphered (C.encrypted c.now) (C.decrypted c.now) message.old }
    ensures back { enciphered (C.encrypted c.now) message.new ≡ message.old }
    ensures permutes { Permutes (C.encrypted c.now) (C.decrypted c.now) }
{
    admit(message)?;
    run::<C, Deciphering>(c, message);
    Ok(())
}
