// The S-box on all 16 cells at once, by shifts and masks: no table is read at a secret place. A shift or a mask that is the same
// for all cells is written with `splat`, as everywhere on vectors; a function for each would say no more.
ghost use Rattle.std.specs.Prelude.{◌≡◌, map};
ghost use Rattle.skinny.specs.Sbox.{sub, unsub};
ghost use Rattle.skinny.specs.Running.{ordered, unordered};

use std::simd::prelude::*;

// The bits of each cell in the order in which the four steps leave them: x5 x4 x0 x3 x1 x6 x7 x2.
fn order(x: u8x16) -> u8x16
    ensures { result ≡ map ordered x }
{
    ((x << u8x16::splat(1)) & u8x16::splat(0x10))
        | ((x << u8x16::splat(2)) & u8x16::splat(0xc8))
        | ((x << u8x16::splat(5)) & u8x16::splat(0x20))
        | ((x >> u8x16::splat(6)) & u8x16::splat(0x02))
        | ((x >> u8x16::splat(4)) & u8x16::splat(0x04))
        | ((x >> u8x16::splat(2)) & u8x16::splat(0x01))
}

// And back to x7 .. x0.
fn unorder(x: u8x16) -> u8x16
    ensures { result ≡ map unordered x }
{
    ((x >> u8x16::splat(1)) & u8x16::splat(0x08))
        | ((x >> u8x16::splat(2)) & u8x16::splat(0x32))
        | ((x >> u8x16::splat(5)) & u8x16::splat(0x01))
        | ((x << u8x16::splat(6)) & u8x16::splat(0x80))
        | ((x << u8x16::splat(4)) & u8x16::splat(0x40))
        | ((x << u8x16::splat(2)) & u8x16::splat(0x04))
}

// Of complemented bits the NOR is an AND. With every bit left in its place, the steps change x4, x0 and x6,
// then x5 and x1, then x7 and x3, and then x2. The last three take their sums where the new order has them.
pub fn sub_cells(x: u8x16) -> u8x16
    ensures { result ≡ map sub x }
{
    let x = !x;
    let a = x
        ^ ((x >> u8x16::splat(2)) & (x >> u8x16::splat(3)) & u8x16::splat(0x11))
        ^ ((x << u8x16::splat(5)) & (x << u8x16::splat(4)) & u8x16::splat(0x40));
    let b = a
        ^ ((a << u8x16::splat(5)) & (a << u8x16::splat(1)) & u8x16::splat(0x20))
        ^ ((a >> u8x16::splat(2)) & (a << u8x16::splat(1)) & u8x16::splat(0x02));
    let to_x3 = b & (b >> u8x16::splat(1)) & u8x16::splat(0x10);
    let to_x7 = (b >> u8x16::splat(4)) & (b >> u8x16::splat(5)) & u8x16::splat(0x02);
    let x7 = (b >> u8x16::splat(7)) ^ ((b >> u8x16::splat(5)) & (b >> u8x16::splat(6)));
    let to_x2 = x7 & (b >> u8x16::splat(1)) & u8x16::splat(0x01);
    !(order(b) ^ to_x3 ^ to_x7 ^ to_x2)
}

// The steps back: first x2 and x3, then x7 and x5, where the new order has them; then x1, x0, x6 and x4.
pub fn unsub_cells(x: u8x16) -> u8x16
    ensures { result ≡ map unsub x }
{
    let x = !x;
    let a = x
        ^ ((x >> u8x16::splat(1)) & (x >> u8x16::splat(3)) & u8x16::splat(0x01))
        ^ ((x >> u8x16::splat(2)) & (x >> u8x16::splat(3)) & u8x16::splat(0x10));
    let b = a
        ^ ((x >> u8x16::splat(6)) & (x >> u8x16::splat(1)) & u8x16::splat(0x02))
        ^ ((x << u8x16::splat(2)) & (x << u8x16::splat(1)) & u8x16::splat(0x80));
    let to_x1 = (a >> u8x16::splat(3)) & (a >> u8x16::splat(4)) & u8x16::splat(0x02);
    let to_x0 = (a >> u8x16::splat(4)) & a & u8x16::splat(0x01);
    let x1 = (x << u8x16::splat(1)) ^ (a & (x >> u8x16::splat(1)));
    let to_x6 = x1 & (a << u8x16::splat(4));
    let to_x4 = ((x << u8x16::splat(2)) ^ to_x6) & (b << u8x16::splat(3)) & u8x16::splat(0x10);
    !(unorder(b) ^ to_x1 ^ to_x0 ^ ((to_x6 & u8x16::splat(0x10)) << u8x16::splat(2)) ^ to_x4)
}
