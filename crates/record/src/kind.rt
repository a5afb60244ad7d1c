ghost use Rattle.std.specs.Prelude.{◌≡◌, ℕ, ◌≤◌, List, length, Ok, Result};
ghost use Rattle.std.specs.Int.Digits.{AllBelowBase};
ghost use Rattle.record.specs.declared.fault.FieldFault.{FieldFault};

use crate::fault::FieldFault;

// A kind of records. Reading what was written gives that record, and bytes that are read are the writing of the
// record answered.
pub trait Record: Sized {
    // The four bytes that mark a page of this kind, and how many bytes a record takes.
    const LABEL: [u8; 4];

    const WIDTH: usize;

    ghost LABEL: { List ℕ };

    ghost WIDTH: { ℕ };

    ghost written: { Self → List ℕ };

    ghost reading: { List ℕ → Result Self FieldFault };

    fn write(&self, out: &mut [u8])
        requires { length out.old ≡ WIDTH }
        ensures { out.new ≡ written self.now };

    fn read(bytes: &[u8]) -> Result<Self, FieldFault>
        requires { length bytes.now ≡ WIDTH }
        ensures { result ≡ reading bytes.now };

    ghost four: { (length LABEL ≡ 4) × AllBelowBase 256 LABEL };

    ghost narrow: { (1 ≤ WIDTH) × (WIDTH ≤ 48) };

    ghost long: { (r : Self) → (length (written r) ≡ WIDTH) × AllBelowBase 256 (written r) };

    ghost readback: { (r : Self) → reading (written r) ≡ Ok r };

    ghost writeback: { (x : List ℕ) (r : Self) → length x ≡ WIDTH → AllBelowBase 256 x → reading x ≡ Ok r → written r ≡ x };
}
