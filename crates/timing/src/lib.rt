#![tactic(auto)]
// What the benchmark times, exported for C: each call is repeated on its own result.
ghost use Rattle.std.specs.Prelude.{◌≡◌, length, if◌then◌else◌, ◌==◌, nat_eq};
ghost use Rattle.block.specs.Blocks.{block as block_of};
ghost use Rattle.aes.specs.Aes.{aes_encrypted, aes_decrypted};
ghost use Rattle.cascade.specs.Cascade.{cascade_encrypted, cascade_decrypted};
ghost use Rattle.skinny.specs.Skinny.{encrypt_block, decrypt_block};
ghost use Rattle.mode.specs.Permutes.{enciphered, deciphered};
ghost use Rattle.timing.specs.Repeats.{iterated, worked, paired, told};

mod repeats;

use aes::Aes;
use cascade::Cascade;
use cipher::tweakable::TweakableCipher;
use repeats::{on_block, on_message, on_tweaked, told};
use skinny::Skinny;
use zcz::{decipher, encipher};

// A key, a head, a body and a block, of 16 bytes each: the block encrypted n times. Answers 1 where there are not 64 bytes.
#[unsafe(no_mangle)]
pub extern "C" fn dikhelwa_skinny_encrypt(work: &mut [u8], n: usize) -> u8
    ensures answer { result ≡ told (length work.old == 64) }
    ensures wrote { work.new ≡ worked encrypt_block n work.old }
{
    told(on_tweaked(
        work,
        n,
        Skinny::new,
        |skinny, tweak, x| skinny.encrypt(tweak, x),
    ))
}

// A key, a head, a body and a block, of 16 bytes each: the block decrypted n times. Answers 1 where there are not 64 bytes.
#[unsafe(no_mangle)]
pub extern "C" fn dikhelwa_skinny_decrypt(work: &mut [u8], n: usize) -> u8
    ensures answer { result ≡ told (length work.old == 64) }
    ensures wrote { work.new ≡ worked decrypt_block n work.old }
{
    told(on_tweaked(
        work,
        n,
        Skinny::new,
        |skinny, tweak, x| skinny.decrypt(tweak, x),
    ))
}

// The message enciphered n times under a key of 16 bytes. Answers 1 where the key has another length.
#[unsafe(no_mangle)]
pub extern "C" fn dikhelwa_skinny_encipher(key: &[u8], message: &mut [u8], n: usize) -> u8
    ensures answer { result ≡ told (length key.now == 16) }
    ensures wrote { message.new ≡ (if nat_eq (length key.now) 16 then iterated n (enciphered (encrypt_block (block_of key.now))) message.old else message.old) }
{
    told(on_message(key, message, n, Skinny::new, encipher))
}

// The message deciphered n times under a key of 16 bytes. Answers 1 where the key has another length.
#[unsafe(no_mangle)]
pub extern "C" fn dikhelwa_skinny_decipher(key: &[u8], message: &mut [u8], n: usize) -> u8
    ensures answer { result ≡ told (length key.now == 16) }
    ensures wrote { message.new ≡ (if nat_eq (length key.now) 16 then iterated n (deciphered (encrypt_block (block_of key.now)) (decrypt_block (block_of key.now))) message.old else message.old) }
{
    told(on_message(key, message, n, Skinny::new, decipher))
}

// A key, a head, a body and a block, of 16 bytes each: the block encrypted n times. Answers 1 where there are not 64 bytes.
#[unsafe(no_mangle)]
pub extern "C" fn dikhelwa_cascade_encrypt(work: &mut [u8], n: usize) -> u8
    ensures answer { result ≡ told (length work.old == 64) }
    ensures wrote { work.new ≡ worked cascade_encrypted n work.old }
{
    told(on_tweaked(
        work,
        n,
        Cascade::new,
        |cascade, tweak, x| cascade.encrypt(tweak, x),
    ))
}

// A key, a head, a body and a block, of 16 bytes each: the block decrypted n times. Answers 1 where there are not 64 bytes.
#[unsafe(no_mangle)]
pub extern "C" fn dikhelwa_cascade_decrypt(work: &mut [u8], n: usize) -> u8
    ensures answer { result ≡ told (length work.old == 64) }
    ensures wrote { work.new ≡ worked cascade_decrypted n work.old }
{
    told(on_tweaked(
        work,
        n,
        Cascade::new,
        |cascade, tweak, x| cascade.decrypt(tweak, x),
    ))
}

// The message enciphered n times under a key of 16 bytes. Answers 1 where the key has another length.
#[unsafe(no_mangle)]
pub extern "C" fn dikhelwa_cascade_encipher(key: &[u8], message: &mut [u8], n: usize) -> u8
    ensures answer { result ≡ told (length key.now == 16) }
    ensures wrote { message.new ≡ (if nat_eq (length key.now) 16 then iterated n (enciphered (cascade_encrypted (block_of key.now))) message.old else message.old) }
{
    told(on_message(key, message, n, Cascade::new, encipher))
}

// The message deciphered n times under a key of 16 bytes. Answers 1 where the key has another length.
#[unsafe(no_mangle)]
pub extern "C" fn dikhelwa_cascade_decipher(key: &[u8], message: &mut [u8], n: usize) -> u8
    ensures answer { result ≡ told (length key.now == 16) }
    ensures wrote { message.new ≡ (if nat_eq (length key.now) 16 then iterated n (deciphered (cascade_encrypted (block_of key.now)) (cascade_decrypted (block_of key.now))) message.old else message.old) }
{
    told(on_message(key, message, n, Cascade::new, decipher))
}

// A key and a block, of 16 bytes each: the block encrypted n times by AES. Answers 1 where there are not 32 bytes.
#[unsafe(no_mangle)]
pub extern "C" fn dikhelwa_aes_encrypt(work: &mut [u8], n: usize) -> u8
    ensures answer { result ≡ told (length work.old == 32) }
    ensures wrote { work.new ≡ paired aes_encrypted n work.old }
{
    told(on_block(work, n, Aes::new, |aes, x| aes.encrypt(x)))
}

// A key and a block, of 16 bytes each: the block decrypted n times by AES. Answers 1 where there are not 32 bytes.
#[unsafe(no_mangle)]
pub extern "C" fn dikhelwa_aes_decrypt(work: &mut [u8], n: usize) -> u8
    ensures answer { result ≡ told (length work.old == 32) }
    ensures wrote { work.new ≡ paired aes_decrypted n work.old }
{
    told(on_block(work, n, Aes::new, |aes, x| aes.decrypt(x)))
}
