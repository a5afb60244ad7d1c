#![tactic(auto)]
// SKINNY-128-384 as a tweakable cipher: 56 rounds on blocks of 16 cells of a byte.
ghost use Rattle.std.specs.Prelude.{◌≡◌};
ghost use Rattle.skinny.specs.Skinny.{cells_of, keys_of_rounds, encrypted_cells, decrypted_cells, encrypt_block, decrypt_block};
ghost use Rattle.skinny.specs.Running.{key_part};
ghost use Rattle.skinny.specs.Pairs.{in_turn};
ghost use Rattle.skinny.specs.Cases.{Cases};
ghost use Rattle.skinny.specs.Inverse.{encrypted_fits, decrypted_fits, decrypt_encrypt, encrypt_decrypt};

mod cells;
mod constants;
mod rounds;
mod sbox;
mod schedule;

use crate::cells::{TweakCells, from_cells, to_cells};
use crate::rounds::{round, unround};
use crate::schedule::{RoundKeys, expand};
use block::diblock::Block;
use cipher::tweak::Tweak;
use cipher::tweakable::TweakableCipher;
use std::simd::prelude::*;

// The cipher under a key, with the key's part of the schedule.
#[derive(Drop)]
pub struct Skinny {
    key: Block,
    keys: [RoundKeys; 28],
    ghost ok: { in_turn keys ≡ key_part 56 0 (cells_of key) },
}

impl Skinny {
    // The key's part of the schedule is made here, once for all blocks. Besides the key, this says that worked cases come
    // out of the definitions.
    pub fn new(key: Block) -> Skinny
        ensures key { result.key ≡ key }
        ensures cases { Cases }
    {
        Skinny {
            key,
            keys: expand(to_cells(key)),
        }
    }

    // Two rounds a turn, with the tweak's part of the schedule beside them.
    fn encrypt_cells(&self, tweak: TweakCells, block: u8x16) -> u8x16
        ensures { result ≡ encrypted_cells tweak.head tweak.body (cells_of self.now.key) block }
    {
        let mut later = tweak;
        let mut state = block;
        for keys in &self.keys {
            let sums = keys.under(&mut later);
            state = round(sums.odd, round(sums.even, state));
        }
        state
    }

    // What each round adds under a tweak.
    fn round_keys(&self, tweak: TweakCells) -> [RoundKeys; 28]
        ensures { in_turn result ≡ keys_of_rounds 56 0 tweak.head tweak.body (cells_of self.now.key) }
    {
        let mut sums = self.keys;
        let mut later = tweak;
        for keys in sums.iter_mut() {
            *keys = keys.under(&mut later);
        }
        sums
    }

    // The rounds back, from the last one.
    fn decrypt_cells(&self, tweak: TweakCells, block: u8x16) -> u8x16
        ensures { result ≡ decrypted_cells tweak.head tweak.body (cells_of self.now.key) block }
    {
        let all = self.round_keys(tweak);
        let mut state = block;
        for sums in all.iter().rev() {
            state = unround(sums.even, unround(sums.odd, state));
        }
        state
    }
}

impl TweakableCipher for Skinny {
    ghost encrypted = { λ c head body x. encrypt_block c.key head body x };

    ghost decrypted = { λ c head body x. decrypt_block c.key head body x };

    ghost encfits = { λ c head body x p q r. encrypted_fits c.key head body x };

    ghost decfits = { λ c head body x p q r. decrypted_fits c.key head body x };

    ghost decenc = { λ c head body x p q r. decrypt_encrypt c.key head body x r };

    ghost encdec = { λ c head body x p q r. encrypt_decrypt c.key head body x r };

    fn encrypt(&self, tweak: Tweak, block: Block) -> Block {
        from_cells(self.encrypt_cells(tweak.into(), to_cells(block)))
    }

    fn decrypt(&self, tweak: Tweak, block: Block) -> Block {
        from_cells(self.decrypt_cells(tweak.into(), to_cells(block)))
    }
}
