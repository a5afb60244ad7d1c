#![tactic(auto)]
// Sealed pages: plain pages enciphered in place, written once for all ciphers and all kinds of records. A page is a part of
// the caller's memory, lent for one call, so its length stands in each contract.
ghost use Rattle.std.specs.Prelude.{◌≡◌, ◌≤◌, length, Some, None, Ok};
ghost use Rattle.mode.specs.Permutes.{enciphered, deciphered};
ghost use Rattle.page.specs.Pages.{plain, opened_at};

use cipher::tweakable::TweakableCipher;
use page::fault::SlotFault;
use page::plain::{lay_empty, lay_record, open};
use record::kind::Record;
use zcz::{decipher, encipher};

// Seals the page of a slot that holds a record. Unsealing it under the same cipher gives that record.
pub fn seal_record<C: TweakableCipher, R: Record>(c: &C, page: &mut [u8], slot: u8, content: &R)
    requires long { 64 ≤ length page.old }
    requires short { length page.old ≤ 4096 }
    ensures wrote { page.new ≡ enciphered (C.encrypted c.now) (plain R.Record (length page.old) slot (Some content.now)) }
    ensures back { opened_at R.Record slot (deciphered (C.encrypted c.now) (C.decrypted c.now) page.new) ≡ Ok (Some content.now) }
{
    lay_record(page, slot, content);
    let _ = encipher(c, page);
}

// Seals the page of an empty slot. Unsealing it under the same cipher gives nothing. It is a function of its own for the
// reason that `lay_empty` is.
pub fn seal_empty<C: TweakableCipher, R: Record>(c: &C, page: &mut [u8], slot: u8)
    requires long { 64 ≤ length page.old }
    requires short { length page.old ≤ 4096 }
    ensures wrote { page.new ≡ enciphered (C.encrypted c.now) (plain R.Record (length page.old) slot None) }
    ensures back { opened_at R.Record slot (deciphered (C.encrypted c.now) (C.decrypted c.now) page.new) ≡ Ok None }
{
    lay_empty::<R>(page, slot);
    let _ = encipher(c, page);
}

// Unseals a page in place, and says what it holds.
pub fn unseal<C: TweakableCipher, R: Record>(
    c: &C,
    page: &mut [u8],
    slot: u8,
) -> Result<Option<R>, SlotFault>
    requires long { 64 ≤ length page.old }
    requires short { length page.old ≤ 4096 }
    ensures answer { result ≡ opened_at R.Record slot (deciphered (C.encrypted c.now) (C.decrypted c.now) page.old) }
    ensures wrote { page.new ≡ deciphered (C.encrypted c.now) (C.decrypted c.now) page.old }
{
    let _ = decipher(c, page);
    open(page, slot)
}
