// The rounds of AES by tables, in both directions.
ghost use Rattle.std.specs.Prelude.{◌≡◌, map};
ghost use Rattle.std.specs.Int.Digits.{number_from_digits};
ghost use Rattle.block.specs.Blocks.{bytes};
ghost use Rattle.aes.specs.Aes.{add, on_column, on_columns};
ghost use Rattle.aes.specs.Words.{state};
ghost use Rattle.aes.specs.Walk.{diagonal, walked};

use crate::columns::Columns;
use crate::direction::Direction;
use block::diblock::Block;

// The bytes of a column through the S-box.
pub fn sub_column<D: Direction>(column: [u8; 4]) -> u32
    ensures { bytes 4 result ≡ map D.sub column }
{
    let [a, b, c, d] = column;
    u32::from_be_bytes([
        D::sub_byte(a),
        D::sub_byte(b),
        D::sub_byte(c),
        D::sub_byte(d),
    ])
}

// The same through the S-box and MixColumns. A row's part is that of row 0, turned down by the row's number.
pub fn mixed_column<D: Direction>(column: [u8; 4]) -> u32
    ensures { bytes 4 result ≡ on_column D.i D.j D.k D.l (map D.sub column) }
{
    let [a, b, c, d] = column;
    let three = D::mixed_byte(d).rotate_right(8);
    let two = (D::mixed_byte(c) ^ three).rotate_right(8);
    let one = (D::mixed_byte(b) ^ two).rotate_right(8);
    D::mixed_byte(a) ^ one
}

// What ShiftRows brings into column 0.
fn shifted<D: Direction>(x: Columns) -> [u8; 4]
    ensures { result ≡ diagonal D.order x }
{
    D::ordered(x).diagonal()
}

// A round. That of decryption is a round of the equivalent inverse cipher, whose round key went through InvMixColumns.
fn round<D: Direction>(x: Columns, key: Columns) -> Columns
    ensures { state result ≡ add (on_columns D.i D.j D.k D.l (D.sub_shift (state x))) (state key) }
{
    let from_1 = x.turned();
    let from_2 = from_1.turned();
    let from_3 = from_2.turned();
    let mixed = Columns {
        a: mixed_column::<D>(shifted::<D>(x)),
        b: mixed_column::<D>(shifted::<D>(from_1)),
        c: mixed_column::<D>(shifted::<D>(from_2)),
        d: mixed_column::<D>(shifted::<D>(from_3)),
    };
    mixed ^ key
}

// The last round has no MixColumns. A function that takes either function of a column as a closure would be no shorter: each closure
// would have to state the contract of what it calls.
fn last_round<D: Direction>(x: Columns, key: Columns) -> Columns
    ensures { state result ≡ add (D.sub_shift (state x)) (state key) }
{
    let from_1 = x.turned();
    let from_2 = from_1.turned();
    let from_3 = from_2.turned();
    let subbed = Columns {
        a: sub_column::<D>(shifted::<D>(x)),
        b: sub_column::<D>(shifted::<D>(from_1)),
        c: sub_column::<D>(shifted::<D>(from_2)),
        d: sub_column::<D>(shifted::<D>(from_3)),
    };
    subbed ^ key
}

// A block through the whole cipher: key 0 is added, and each round adds the next key.
pub fn walk<D: Direction>(keys: &[Columns; 11], block: Block) -> Block
    ensures { result ≡ number_from_digits 256 (walked D.sub_shift (on_columns D.i D.j D.k D.l) (map state keys.now) (bytes 16 block)) }
{
    let mut x = Columns::from(block) ^ keys[0];
    for key in &keys[1..10] {
        x = round::<D>(x, *key);
    }
    last_round::<D>(x, keys[10]).into()
}
