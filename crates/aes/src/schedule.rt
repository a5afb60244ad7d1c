// The key schedule of AES-128.
ghost use Rattle.std.specs.Prelude.{◌≡◌, map};
ghost use Rattle.block.specs.Blocks.{bytes};
ghost use Rattle.aes.specs.Field.{double as double_of};
ghost use Rattle.aes.specs.Aes.{on_column, inv_mixed_columns, key_after};
ghost use Rattle.aes.specs.Words.{state, keys_of_rounds};
ghost use Rattle.aes.specs.Walk.{inverted_keys};

use crate::columns::Columns;
use crate::direction::{Decryption, Direction, Encryption};
use crate::rounds::{mixed_column, sub_column};
use block::diblock::Block;

// The byte times x in the field: the next round constant.
fn double(x: u8) -> u8
    ensures { result ≡ double_of x }
{
    (x << 1) ^ (27 * (x >> 7))
}

// The round key that follows, with its round constant.
fn next_key(constant: u8, k: Columns) -> Columns
    ensures { state result ≡ key_after constant (state k) }
{
    let last = k.d.to_be_bytes();
    let turned = u32::from_be_bytes([
        Encryption::sub_byte(last[1]) ^ constant,
        Encryption::sub_byte(last[2]),
        Encryption::sub_byte(last[3]),
        Encryption::sub_byte(last[0]),
    ]);
    let a = k.a ^ turned;
    let b = k.b ^ a;
    let c = k.c ^ b;
    let d = k.d ^ c;
    Columns { a, b, c, d }
}

// The eleven round keys.
pub fn expand(key: Block) -> [Columns; 11]
    ensures { map state result ≡ keys_of_rounds key }
{
    let mut k = Columns::from(key);
    let mut keys = [k; 11];
    let mut constant = 1;
    for place in keys.iter_mut() {
        *place = k;
        k = next_key(constant, k);
        constant = double(constant);
    }
    keys
}

// InvMixColumns of one column, by the table, which undoes the S-box first.
fn inv_mix(w: u32) -> u32
    ensures { bytes 4 result ≡ on_column 14 11 13 9 (bytes 4 w) }
{
    mixed_column::<Decryption>(sub_column::<Encryption>(w.to_be_bytes()).to_be_bytes())
}

fn inv_mix_columns(k: Columns) -> Columns
    ensures { state result ≡ inv_mixed_columns (state k) }
{
    Columns {
        a: inv_mix(k.a),
        b: inv_mix(k.b),
        c: inv_mix(k.c),
        d: inv_mix(k.d),
    }
}

// The round keys of the equivalent inverse cipher, in its order.
pub fn invert(keys: &[Columns; 11]) -> [Columns; 11]
    ensures { map state result ≡ inverted_keys (map state keys.now) }
{
    let mut inverted = *keys;
    inverted.reverse();
    for k in inverted[1..10].iter_mut() {
        *k = inv_mix_columns(*k);
    }
    inverted
}
