// The two ways through the mode. Deciphering takes the steps of enciphering back from the last to the first, and so it has
// the same course: a layer with sums, the last di-block, the mask and a layer with sums, and the last di-block again.
ghost use Rattle.std.specs.Prelude.{◌≡◌, ℕ, List, length, ◌<◌, ◌^◌, refl};
ghost use Rattle.block.specs.declared.diblock.DiBlock as diblocks;
ghost use Rattle.block.specs.Blocks.{add, write};
ghost use Rattle.block.proofs.Sums.{Blocks};
ghost use Rattle.cipher.specs.Tweaks.{tweaked};
ghost use Rattle.mode.specs.Parts.{split, join};
ghost use Rattle.mode.specs.Mode.{hash, hash_of_tail, mask, core as core_of, uncore as uncore_of, top, bottom, mix, close, untop, unbottom, unmix, unclose, encipher, decipher};
ghost use Rattle.mode.specs.Running.{sandwich, wrap};
ghost use Rattle.mode.proofs.Core.{core_length, uncore_length};
ghost use Rattle.mode.proofs.Whole.{Lawful, top_fits, unbottom_fits, decipher_is};
ghost use Rattle.std.proofs.Common.{arith};
ghost use Rattle.zcz.specs.Ways.{Function, Step};

use crate::ends::{chain, tweak, unchain};
use crate::sums::{Sums, X, Y};
use block::diblock::DiBlock;
use cipher::tweakable::TweakableCipher;

pub trait Direction {
    // The sums over what the first layer and what the mask makes.
    type First: Sums;

    type Second: Sums;

    // Which hash of the tail is added to the last full di-block before, and which after.
    const BEFORE: u32;

    const AFTER: u32;

    ghost BEFORE: { ℕ };

    ghost AFTER: { ℕ };

    // The layers' steps, and what is made of the last di-block in the middle and at the end.
    ghost first: { Function → Function → Step };

    ghost second: { Function → Function → Step };

    ghost middle: { Function → Function → Step };

    ghost finish: { Function → Function → Step };

    // The course without tails, and the whole of it.
    ghost core: { Function → Function → List diblocks.DiBlock → diblocks.DiBlock → List diblocks.DiBlock × diblocks.DiBlock };

    ghost whole: { Function → Function → List ℕ → List ℕ };

    fn first<C: TweakableCipher>(c: &C, i: u32, d: DiBlock) -> DiBlock
        ensures { result ≡ first (C.encrypted c.now) (C.decrypted c.now) i d };

    fn second<C: TweakableCipher>(c: &C, i: u32, d: DiBlock) -> DiBlock
        ensures { result ≡ second (C.encrypted c.now) (C.decrypted c.now) i d };

    fn middle<C: TweakableCipher>(c: &C, n: u32, d: DiBlock) -> DiBlock
        ensures { result ≡ middle (C.encrypted c.now) (C.decrypted c.now) n d };

    fn finish<C: TweakableCipher>(c: &C, n: u32, d: DiBlock) -> DiBlock
        ensures { result ≡ finish (C.encrypted c.now) (C.decrypted c.now) n d };

    ghost small: { (BEFORE < 2 ^ 16) × (AFTER < 2 ^ 16) };

    ghost fits: { (f g : Function) → Lawful f g → (i : ℕ) (d : diblocks.DiBlock) → Blocks d → Blocks (first f g i d) };

    ghost as_many: { (f g : Function) (ds : List diblocks.DiBlock) (last : diblocks.DiBlock) → length (core f g ds last).0 ≡ length ds };

    ghost core_is: { (f g : Function) (ds : List diblocks.DiBlock) (last : diblocks.DiBlock) → core f g ds last ≡ sandwich (first f g) (middle f g) (mask (tweaked f)) (finish f g) (second f g) (λ n ds. Self.First.crossed f n (Self.First.star ds)) (λ n ds. Self.Second.crossed f n (Self.Second.star ds)) ds last };

    ghost whole_is: { (f g : Function) (m : List ℕ) → whole f g m ≡ join (wrap (core f g) (hash_of_tail (tweaked f) BEFORE) (hash_of_tail (tweaked f) AFTER) (λ a b. write (hash (tweaked f) 2 (add a b))) (split m)) };
}

pub struct Enciphering;

impl Direction for Enciphering {
    type First = X;

    type Second = Y;

    const BEFORE: u32 = 0;

    const AFTER: u32 = 4;

    ghost BEFORE = { 0 };

    ghost AFTER = { 4 };

    ghost first = { λ f g. top (tweaked f) };

    ghost second = { λ f g. bottom (tweaked f) };

    ghost middle = { λ f g. mix (tweaked f) };

    ghost finish = { λ f g. close (tweaked f) };

    ghost core = { λ f g. core_of (tweaked f) };

    ghost whole = { λ f g. encipher (tweaked f) };

    ghost small = { (omega arith, omega arith) };

    ghost fits = { top_fits };

    ghost as_many = { λ f g. core_length (tweaked f) };

    ghost core_is = { λ f g ds last. refl };

    ghost whole_is = { λ f g m. refl };

    // (L_i, R_i) becomes (X_i, R_i).
    fn first<C: TweakableCipher>(c: &C, i: u32, d: DiBlock) -> DiBlock {
        DiBlock {
            left: c.encrypt(tweak("t", i, d.right), d.left),
            right: d.right,
        }
    }

    // (L'_k, Y_k) becomes (L'_k, R'_k).
    fn second<C: TweakableCipher>(c: &C, i: u32, d: DiBlock) -> DiBlock {
        DiBlock {
            left: d.left,
            right: c.encrypt(tweak("b", i, d.left), d.right),
        }
    }

    // S and T.
    fn middle<C: TweakableCipher>(c: &C, n: u32, d: DiBlock) -> DiBlock {
        chain(c, "ts", "ss", n, d)
    }

    // C_L and C_R, from S and T.
    fn finish<C: TweakableCipher>(c: &C, n: u32, d: DiBlock) -> DiBlock {
        chain(c, "cs", "bs", n, d)
    }
}

pub struct Deciphering;

impl Direction for Deciphering {
    type First = Y;

    type Second = X;

    const BEFORE: u32 = 4;

    const AFTER: u32 = 0;

    ghost BEFORE = { 4 };

    ghost AFTER = { 0 };

    ghost first = { λ f g. unbottom (tweaked f) (tweaked g) };

    ghost second = { λ f g. untop (tweaked f) (tweaked g) };

    ghost middle = { λ f g. unclose (tweaked f) (tweaked g) };

    ghost finish = { λ f g. unmix (tweaked f) (tweaked g) };

    ghost core = { λ f g. uncore_of (tweaked f) (tweaked g) };

    ghost whole = { λ f g. decipher (tweaked f) (tweaked g) };

    ghost small = { (omega arith, omega arith) };

    ghost fits = { unbottom_fits };

    ghost as_many = { λ f g. uncore_length (tweaked f) (tweaked g) };

    ghost core_is = { λ f g ds last. refl };

    ghost whole_is = { λ f g m. decipher_is f g m };

    // Where enciphering encrypts, this decrypts. One function for both would have to be told which.
    fn first<C: TweakableCipher>(c: &C, i: u32, d: DiBlock) -> DiBlock {
        DiBlock {
            left: d.left,
            right: c.decrypt(tweak("b", i, d.left), d.right),
        }
    }

    fn second<C: TweakableCipher>(c: &C, i: u32, d: DiBlock) -> DiBlock {
        DiBlock {
            left: c.decrypt(tweak("t", i, d.right), d.left),
            right: d.right,
        }
    }

    fn middle<C: TweakableCipher>(c: &C, n: u32, d: DiBlock) -> DiBlock {
        unchain(c, "cs", "bs", n, d)
    }

    fn finish<C: TweakableCipher>(c: &C, n: u32, d: DiBlock) -> DiBlock {
        unchain(c, "ts", "ss", n, d)
    }
}
