// Messages, enciphered and deciphered in place.
ghost use Rattle.std.specs.Prelude.{◌≡◌, List, ℕ};
ghost use Rattle.c_api.specs.Answers.{sent};
ghost use Rattle.c_api.specs.Made.{Passes, Enciphers, Deciphers, CalledWith};
ghost use Rattle.c_api.specs.Ways.{Leads};
ghost use Rattle.ciphers.specs.declared.any.AnyCipher.{AnyCipher};

use crate::answer::{Answer, Refusal};
use crate::open::keyed;
use crate::reply::yes;
use ciphers::any::AnyCipher;
use zcz::refusal::Refusal as MessageRefusal;
use zcz::{decipher, encipher};

fn tell(res: Result<(), MessageRefusal>) -> Answer
    ensures { result ≡ sent res }
{
    match res {
        Ok(()) => yes(0),
        Err(refusal) => Answer::from(Refusal::Message(refusal)),
    }
}

// The message goes through the mode in one way.
fn on_message<F: FnOnce(&AnyCipher, &mut [u8]) -> Result<(), MessageRefusal>>(
    cipher: u32,
    key: &[u8],
    message: &mut [u8],
    way: F,
) -> Answer
    requires { F.IsAlwaysCallable way }
    ensures { (f : AnyCipher → List ℕ → List ℕ) → Leads (F.post way) f → CalledWith cipher key.now (message.new ≡ message.old) (λ c a. Passes f c message.old message.new a) result }
{
    match keyed(cipher, key) {
        Ok(cipher) => tell(way(&cipher, message)),
        Err(refusal) => Answer::from(refusal),
    }
}

#[unsafe(no_mangle)]
pub extern "C" fn dikhelwa_encipher(cipher: u32, key: &[u8], message: &mut [u8]) -> Answer
    ensures { CalledWith cipher key.now (message.new ≡ message.old) (λ c a. Enciphers c message.old message.new a) result }
{
    on_message(cipher, key, message, encipher)
}

#[unsafe(no_mangle)]
pub extern "C" fn dikhelwa_decipher(cipher: u32, key: &[u8], message: &mut [u8]) -> Answer
    ensures { CalledWith cipher key.now (message.new ≡ message.old) (λ c a. Deciphers c message.old message.new a) result }
{
    on_message(cipher, key, message, decipher)
}
