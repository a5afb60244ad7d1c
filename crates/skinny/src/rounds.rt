// A round and its inverse.
ghost use Rattle.std.specs.Prelude.{◌≡◌};
ghost use Rattle.skinny.specs.Skinny.{round_of, unround_of, shifted_rows, mixed_columns, unshift_rows, unmix_columns};
ghost use Rattle.skinny.specs.Running.{down_by_three};

use crate::sbox::{sub_cells, unsub_cells};
use std::simd::prelude::*;

// Each eight cells moved down by three. Where a row stands twice in eight cells, this leaves it turned right by one.
fn down(x: u8x16) -> u8x16
    ensures { result ≡ down_by_three x }
{
    (u64x2::from_le_bytes(x) >> u64x2::splat(24)).to_le_bytes()
}

// Turns row r right by r: row 1 by one, row 2 by two, and row 3 by two and then by one.
fn shift_rows(x: u8x16) -> u8x16
    ensures { result ≡ shifted_rows x }
{
    let odd = down(x.swizzle([4, 5, 6, 7, 4, 5, 6, 7, 14, 15, 12, 13, 14, 15, 12, 13]));
    x.shuffle(
        odd,
        [0, 1, 2, 3, 16, 17, 18, 19, 10, 11, 8, 9, 24, 25, 26, 27],
    )
}

// Makes rows a + c + d, a, b + c and a + c of rows a, b, c and d.
fn mix_columns(x: u8x16) -> u8x16
    ensures { result ≡ mixed_columns x }
{
    let none = u8x16::splat(0);
    let a_and_b = x.swizzle([0, 1, 2, 3, 0, 1, 2, 3, 4, 5, 6, 7, 0, 1, 2, 3]);
    let c = none.shuffle(
        x,
        [24, 25, 26, 27, 0, 0, 0, 0, 24, 25, 26, 27, 24, 25, 26, 27],
    );
    let d = none.shuffle(x, [28, 29, 30, 31, 0, 0, 0, 0, 0, 0, 0, 0, 0, 0, 0, 0]);
    d ^ (c ^ a_and_b)
}

// Makes rows q, q + t + s, q + t and p + t of rows p, q, s and t, and turns row r left by r:
// row 1 right by two and then by one, row 2 by two, and row 3 right by one.
fn unmix_and_unshift(x: u8x16) -> u8x16
    ensures { result ≡ unshift_rows (unmix_columns x) }
{
    let none = u8x16::splat(0);
    // rows s, t, p and q
    let stpq = x.rotate_elements_left::<8>();
    let q_and_p = x.swizzle([6, 7, 4, 5, 6, 7, 4, 5, 0, 1, 2, 3, 0, 1, 2, 3]);
    let t = stpq.swizzle([6, 7, 4, 5, 6, 7, 4, 5, 4, 5, 6, 7, 4, 5, 6, 7]);
    let s = stpq.shuffle(
        none,
        [2, 3, 0, 1, 2, 3, 0, 1, 16, 16, 16, 16, 16, 16, 16, 16],
    );
    let odd = down(s ^ (t ^ q_and_p));
    let q = none.shuffle(x, [20, 21, 22, 23, 0, 0, 0, 0, 22, 23, 20, 21, 0, 0, 0, 0]);
    let even = none.shuffle(x, [0, 0, 0, 0, 0, 0, 0, 0, 30, 31, 28, 29, 0, 0, 0, 0]) ^ q;
    odd.shuffle(
        even,
        [16, 17, 18, 19, 0, 1, 2, 3, 24, 25, 26, 27, 8, 9, 10, 11],
    )
}

// A round: the S-box, then k is added, then the rows and columns.
pub fn round(k: u8x16, s: u8x16) -> u8x16
    ensures { result ≡ round_of k s }
{
    mix_columns(shift_rows(sub_cells(s) ^ k))
}

// The round that added k, undone.
pub fn unround(k: u8x16, s: u8x16) -> u8x16
    ensures { result ≡ unround_of k s }
{
    unsub_cells(unmix_and_unshift(s) ^ k)
}
