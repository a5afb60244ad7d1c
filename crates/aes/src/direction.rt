// The two directions of the cipher: they differ in the tables, in what a column is multiplied by, and in how the rows turn.
ghost use Rattle.std.specs.Prelude.{◌≡◌, ℕ, map};
ghost use Rattle.block.specs.Blocks.{bytes};
ghost use Rattle.aes.specs.Field.{sbox, inv_sbox};
ghost use Rattle.aes.specs.Aes.{State, sub_bytes, inv_sub_bytes, shifted_rows, inv_shift_rows};
ghost use Rattle.aes.specs.Words.{state};
ghost use Rattle.aes.specs.Walk.{part, backwards, diagonals, shifts, inv_shifts};
ghost use Rattle.aes.specs.declared.columns.Columns.{Columns};

use crate::columns::Columns;
use crate::tables::{INV_MIXED, INV_SBOX, MIXED, SBOX};

pub trait Direction {
    // SubBytes at one byte, or InvSubBytes.
    ghost sub: { ℕ → ℕ };

    // SubBytes and ShiftRows of a state, or their inverses.
    ghost sub_shift: { State → State };

    // The columns that ShiftRows, or its inverse, brings into column 0: row r comes from column r of these.
    ghost order: { Columns → Columns };

    // What MixColumns multiplies the bytes of a column by, or InvMixColumns.
    ghost i: { ℕ };

    ghost j: { ℕ };

    ghost k: { ℕ };

    ghost l: { ℕ };

    fn sub_byte(x: u8) -> u8
        ensures { result ≡ sub x };

    // What a byte of row 0 adds to its column after the substitution and the multiplication.
    fn mixed_byte(x: u8) -> u32
        ensures { bytes 4 result ≡ part i j k l (sub x) };

    fn ordered(x: Columns) -> Columns
        ensures { result ≡ order x };

    // Column j of the state that is substituted and shifted is a diagonal through the S-box: that of the columns turned j times.
    ghost shifts: { (x : Columns) → sub_shift (state x) ≡ map sub (diagonals order x) };
}

// SubBytes, ShiftRows and MixColumns.
pub struct Encryption;

impl Direction for Encryption {
    ghost sub = { sbox };

    ghost sub_shift = { λ s. shifted_rows (sub_bytes s) };

    ghost order = { λ x. x };

    ghost i = { 2 };

    ghost j = { 3 };

    ghost k = { 1 };

    ghost l = { 1 };

    ghost shifts = { shifts };

    fn sub_byte(x: u8) -> u8 {
        SBOX[x as usize]
    }

    fn mixed_byte(x: u8) -> u32 {
        MIXED[x as usize]
    }

    fn ordered(x: Columns) -> Columns {
        x
    }
}

// Their inverses.
pub struct Decryption;

impl Direction for Decryption {
    ghost sub = { inv_sbox };

    ghost sub_shift = { λ s. inv_sub_bytes (inv_shift_rows s) };

    ghost order = { backwards };

    ghost i = { 14 };

    ghost j = { 11 };

    ghost k = { 13 };

    ghost l = { 9 };

    ghost shifts = { inv_shifts };

    fn sub_byte(x: u8) -> u8 {
        INV_SBOX[x as usize]
    }

    fn mixed_byte(x: u8) -> u32 {
        INV_MIXED[x as usize]
    }

    fn ordered(x: Columns) -> Columns {
        let Columns { a, b, c, d } = x;
        Columns { a, b: d, c, d: b }
    }
}
