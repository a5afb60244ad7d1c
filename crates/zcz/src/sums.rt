// The two pairs of sums over the di-blocks before the last, gathered one di-block after another.
ghost use Rattle.std.specs.Prelude.{◌≡◌, ℕ, List, [], ◌∷◌, ◌++◌, refl};
ghost use Rattle.block.specs.declared.diblock.DiBlock as diblocks;
ghost use Rattle.block.specs.Blocks.{di};
ghost use Rattle.cipher.specs.Tweaks.{tweaked};
ghost use Rattle.mode.specs.Mode.{xstar, ystar, crossed as crossed_of};
ghost use Rattle.mode.specs.Running.{xmore, ymore};
ghost use Rattle.mode.proofs.Passes.{xstar-push, ystar-push};
ghost use Rattle.zcz.specs.Ways.{Function};

use crate::ends::cross;
use block::alpha::double;
use block::diblock::DiBlock;
use cipher::tweakable::TweakableCipher;

// A pair of sums, and what is made of it at the last di-block: each sum encrypted with the other for its body.
pub trait Sums {
    ghost star: { List diblocks.DiBlock → diblocks.DiBlock };

    ghost more: { diblocks.DiBlock → diblocks.DiBlock → diblocks.DiBlock };

    ghost crossed: { Function → ℕ → diblocks.DiBlock → diblocks.DiBlock };

    // One di-block more in the sums.
    fn add(sums: DiBlock, d: DiBlock) -> DiBlock
        ensures { result ≡ more sums d };

    fn cross<C: TweakableCipher>(c: &C, n: u32, sums: DiBlock) -> DiBlock
        ensures { result ≡ crossed (C.encrypted c.now) n sums };

    ghost none: { star [] ≡ di 0 0 };

    ghost push: { (ds : List diblocks.DiBlock) (d : diblocks.DiBlock) → star (ds ++ (d ∷ [])) ≡ more (star ds) d };
}

// X_L* and X_R*, and from them X_L and X_R.
pub struct X;

impl Sums for X {
    ghost star = { xstar };

    ghost more = { xmore };

    ghost crossed = { λ f. crossed_of (tweaked f) "xL" "xR" };

    ghost none = { refl };

    ghost push = { xstar-push };

    fn add(sums: DiBlock, x: DiBlock) -> DiBlock {
        DiBlock {
            left: double(sums.left) ^ x.left,
            right: double(double(sums.right)) ^ (x.left ^ x.right),
        }
    }

    fn cross<C: TweakableCipher>(c: &C, n: u32, sums: DiBlock) -> DiBlock {
        cross(c, "xL", "xR", n, sums)
    }
}

// Y_L* and Y_R*, and from them Y_L and Y_R.
pub struct Y;

impl Sums for Y {
    ghost star = { ystar };

    ghost more = { ymore };

    ghost crossed = { λ f. crossed_of (tweaked f) "yL" "yR" };

    ghost none = { refl };

    ghost push = { ystar-push };

    fn add(sums: DiBlock, y: DiBlock) -> DiBlock {
        DiBlock {
            left: double(double(sums.left)) ^ (y.left ^ y.right),
            right: double(sums.right) ^ y.right,
        }
    }

    fn cross<C: TweakableCipher>(c: &C, n: u32, sums: DiBlock) -> DiBlock {
        cross(c, "yL", "yR", n, sums)
    }
}
