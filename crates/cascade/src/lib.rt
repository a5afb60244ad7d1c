#![tactic(auto)]
// A tweakable cipher from AES-128: three encryptions under one key, with the head and the body added in between.
ghost use Rattle.std.specs.Prelude.{◌≡◌};
ghost use Rattle.cascade.specs.Cascade.{cascade_encrypted, cascade_decrypted};
ghost use Rattle.cascade.specs.Undone.{encrypted_fits, decrypted_fits, decrypt_encrypt, encrypt_decrypt};

use aes::Aes;
use block::diblock::Block;
use cipher::tweak::Tweak;
use cipher::tweakable::TweakableCipher;

// AES under the cascade's key.
#[derive(Drop)]
pub struct Cascade {
    aes: Aes,
}

impl Cascade {
    pub fn new(key: Block) -> Cascade
        ensures { result.aes.key ≡ key }
    {
        Cascade { aes: Aes::new(key) }
    }
}

impl TweakableCipher for Cascade {
    ghost encrypted = { λ c head body x. cascade_encrypted c.aes.key head body x };

    ghost decrypted = { λ c head body x. cascade_decrypted c.aes.key head body x };

    ghost encfits = { λ c head body x p q r. encrypted_fits c.aes.key head body x };

    ghost decfits = { λ c head body x p q r. decrypted_fits c.aes.key head body x };

    ghost decenc = { λ c head body x p q r. decrypt_encrypt c.aes.key head body x p q r };

    ghost encdec = { λ c head body x p q r. encrypt_decrypt c.aes.key head body x p q r };

    fn encrypt(&self, tweak: Tweak, block: Block) -> Block {
        self.aes.encrypt(tweak.body ^ self.aes.encrypt(tweak.head ^ self.aes.encrypt(block)))
    }

    // The steps of `encrypt` taken back, in the other order. One function for both would have to be told the order.
    fn decrypt(&self, tweak: Tweak, block: Block) -> Block {
        self.aes.decrypt(tweak.head ^ self.aes.decrypt(tweak.body ^ self.aes.decrypt(block)))
    }
}
