#![tactic(auto)]
// AES-128 of FIPS 197, with its round keys expanded once, by tables of 32-bit words.
ghost use Rattle.std.specs.Prelude.{◌≡◌, map};
ghost use Rattle.aes.specs.Field.{IsInverse};
ghost use Rattle.aes.specs.Aes.{aes_encrypted, aes_decrypted, Inverses, Examples};
ghost use Rattle.aes.specs.Words.{state, keys_of_rounds};
ghost use Rattle.aes.specs.Walk.{inverted_keys};

use block::diblock::Block;
use columns::Columns;
use direction::{Decryption, Encryption};

mod columns;
mod direction;
mod rounds;
mod schedule;
mod tables;

// A key, its round keys, and those that decryption adds.
#[derive(Drop)]
pub struct Aes {
    key: Block,
    forward: [Columns; 11],
    backward: [Columns; 11],
    ghost expanded: { map state forward ≡ keys_of_rounds key },
    ghost inverted: { map state backward ≡ inverted_keys (keys_of_rounds key) },
}

impl Aes {
    // Besides its key, this says of the definitions: encryption and decryption undo each other under every key, the S-box is made
    // from the inverse in the field, and the published examples come out.
    pub fn new(key: Block) -> Aes
        ensures key { result.key ≡ key }
        ensures inverses { Inverses }
        ensures field { IsInverse }
        ensures examples { Examples }
    {
        let forward = schedule::expand(key);
        let backward = schedule::invert(&forward);
        Aes {
            key,
            forward,
            backward,
        }
    }

    // The cipher of FIPS 197.
    pub fn encrypt(&self, block: Block) -> Block
        ensures { result ≡ aes_encrypted self.now.key block }
    {
        rounds::walk::<Encryption>(&self.forward, block)
    }

    // The equivalent inverse cipher, which gives what the inverse cipher of FIPS 197 gives.
    pub fn decrypt(&self, block: Block) -> Block
        ensures { result ≡ aes_decrypted self.now.key block }
    {
        rounds::walk::<Decryption>(&self.backward, block)
    }
}
