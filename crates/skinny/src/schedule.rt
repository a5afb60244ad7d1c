// The tweakey schedule: what each round adds after the S-box.
ghost use Rattle.std.specs.Prelude.{◌≡◌, map};
ghost use Rattle.skinny.specs.Skinny.{constant_cells, add, top, permuted, lfsr3, on_top};
ghost use Rattle.skinny.specs.Running.{bottom, twice, twice2, key_part};
ghost use Rattle.skinny.specs.Pairs.{in_turn};

use crate::cells::TweakCells;
use crate::constants::constant;
use std::simd::prelude::*;

// Rows 0 and 1, with zeros below them.
fn upper_rows(t: u8x16) -> u8x16
    ensures { result ≡ top t }
{
    t.shuffle(
        u8x16::splat(0),
        [0, 1, 2, 3, 4, 5, 6, 7, 16, 16, 16, 16, 16, 16, 16, 16],
    )
}

// Rows 2 and 3 as rows 0 and 1, with zeros below them.
fn lower_rows(t: u8x16) -> u8x16
    ensures { result ≡ bottom t }
{
    upper_rows(t.rotate_elements_left::<8>())
}

fn permute(t: u8x16) -> u8x16
    ensures { result ≡ permuted t }
{
    t.swizzle([9, 15, 8, 13, 10, 14, 12, 11, 0, 1, 2, 3, 4, 5, 6, 7])
}

// The head two rounds later, by a list of places as `permute` has. The permutation exchanges the halves, so two of them
// permute each half.
fn head_after_two(t: u8x16) -> u8x16
    ensures { result ≡ twice t }
{
    t.swizzle([1, 7, 0, 5, 2, 6, 4, 3, 9, 15, 8, 13, 10, 14, 12, 11])
}

// The body two rounds later: each cell has been shifted once, to x6 .. x0, x7 + x5.
fn body_after_two(t: u8x16) -> u8x16
    ensures { result ≡ twice2 t }
{
    let one = u8x16::splat(1);
    head_after_two((t << one) | (((t >> u8x16::splat(7)) ^ (t >> u8x16::splat(5))) & one))
}

// The cells of rows 0 and 1 of the key shifted, to x0 + x6, x7 .. x1.
fn shift_key(t: u8x16) -> u8x16
    ensures { result ≡ on_top lfsr3 t }
{
    let shifted = (t >> u8x16::splat(1)) | ((t ^ (t >> u8x16::splat(6))) << u8x16::splat(7));
    shifted.shuffle(t, [0, 1, 2, 3, 4, 5, 6, 7, 24, 25, 26, 27, 28, 29, 30, 31])
}

// The key's part of what a round adds, and the round's constant c.
fn with_constant(t: u8x16, c: u8) -> u8x16
    ensures { result ≡ add (top t) (constant_cells c) }
{
    upper_rows(t) ^ u8x16::from_array([c % 16, 0, 0, 0, c / 16, 0, 0, 0, 2, 0, 0, 0, 0, 0, 0, 0])
}

impl TweakCells {
    // The same two rounds later.
    fn after_two(self) -> TweakCells
        ensures head { result.head ≡ twice self.head }
        ensures body { result.body ≡ twice2 self.body }
    {
        TweakCells {
            head: head_after_two(self.head),
            body: body_after_two(self.body),
        }
    }
}

// What two rounds add, or the key's part of it.
#[derive(Clone, Copy)]
pub struct RoundKeys {
    pub even: u8x16,
    pub odd: u8x16,
}

impl RoundKeys {
    // With the tweak's part added to the key's. The tweak is then that of two rounds later: in the odd round its rows 2 and 3 have
    // become rows 0 and 1.
    pub fn under(self, tweak: &mut TweakCells) -> RoundKeys
        ensures even { result.even ≡ add self.even (top (add tweak.old.head tweak.old.body)) }
        ensures odd { result.odd ≡ add self.odd (bottom (add tweak.new.head tweak.new.body)) }
        ensures head { tweak.new.head ≡ twice tweak.old.head }
        ensures body { tweak.new.body ≡ twice2 tweak.old.body }
    {
        let even = self.even ^ upper_rows(tweak.head ^ tweak.body);
        *tweak = tweak.after_two();
        RoundKeys {
            even,
            odd: self.odd ^ lower_rows(tweak.head ^ tweak.body),
        }
    }
}

// The key's part of all 56 rounds.
pub fn expand(key: u8x16) -> [RoundKeys; 28]
    ensures { in_turn result ≡ key_part 56 0 key }
{
    let none = RoundKeys {
        even: u8x16::splat(0),
        odd: u8x16::splat(0),
    };
    let mut keys = [none; 28];
    let mut t = key;
    for (i, place) in keys.iter_mut().enumerate() {
        let even = with_constant(t, constant(2 * i));
        t = shift_key(permute(t));
        let odd = with_constant(t, constant(2 * i + 1));
        t = shift_key(permute(t));
        *place = RoundKeys { even, odd };
    }
    keys
}
