ghost use Rattle.std.specs.Prelude.{◌≡◌};
ghost use Rattle.ciphers.specs.Ciphers.{name_of, encrypts, decrypts, Under};
ghost use Rattle.ciphers.specs.Inverse.{encrypted_fits, decrypted_fits, decrypt_encrypt, encrypt_decrypt};

use crate::name::CipherName;
use block::diblock::Block;
use cascade::Cascade;
use cipher::bench::BenchCipher;
use cipher::tweak::Tweak;
use cipher::tweakable::TweakableCipher;
use skinny::Skinny;

// One of the ciphers, with its key. It is an enum, and each method goes by its cases: only a run says which cipher it is, and the
// library has no heap for an object of the trait.
#[derive(Drop)]
pub enum AnyCipher {
    Skinny(Skinny),
    Cascade(Cascade),
    Bench(BenchCipher),
}

impl AnyCipher {
    // The cipher of a name under a key.
    pub fn new(name: CipherName, key: Block) -> AnyCipher
        ensures { Under name key result }
    {
        match name {
            CipherName::Skinny => AnyCipher::Skinny(Skinny::new(key)),
            CipherName::Cascade => AnyCipher::Cascade(Cascade::new(key)),
            CipherName::Bench => AnyCipher::Bench(BenchCipher),
        }
    }

    pub fn name(&self) -> CipherName
        ensures { result ≡ name_of self.now }
    {
        match self {
            AnyCipher::Skinny(_) => CipherName::Skinny,
            AnyCipher::Cascade(_) => CipherName::Cascade,
            AnyCipher::Bench(_) => CipherName::Bench,
        }
    }
}

impl TweakableCipher for AnyCipher {
    ghost encrypted = { encrypts };

    ghost decrypted = { decrypts };

    ghost encfits = { encrypted_fits };

    ghost decfits = { decrypted_fits };

    ghost decenc = { decrypt_encrypt };

    ghost encdec = { encrypt_decrypt };

    fn encrypt(&self, tweak: Tweak, block: Block) -> Block {
        match self {
            AnyCipher::Skinny(cipher) => cipher.encrypt(tweak, block),
            AnyCipher::Cascade(cipher) => cipher.encrypt(tweak, block),
            AnyCipher::Bench(cipher) => cipher.encrypt(tweak, block),
        }
    }

    fn decrypt(&self, tweak: Tweak, block: Block) -> Block {
        match self {
            AnyCipher::Skinny(cipher) => cipher.decrypt(tweak, block),
            AnyCipher::Cascade(cipher) => cipher.decrypt(tweak, block),
            AnyCipher::Bench(cipher) => cipher.decrypt(tweak, block),
        }
    }
}
