// One page of a memory: written, opened, and taken from one cipher to another.
ghost use Rattle.std.specs.Prelude.{◌≡◌, ◌<◌, length, replicate, Some, None};
ghost use Rattle.mode.specs.Permutes.{enciphered, deciphered};
ghost use Rattle.calls.specs.Memory.{page, Sized, Only};
ghost use Rattle.calls.specs.Calls.{sealed, said};

use super::Store;
use super::wipe::Wipe;
use cipher::tweakable::TweakableCipher;
use page::fault::SlotFault;
use record::kind::Record;
use seal::{seal_empty, seal_record, unseal};
use zcz::{decipher, encipher};

impl<C: TweakableCipher> Store<C> {
    // Writes the page of a slot that holds a record.
    pub(super) fn write_record<R: Record>(&self, memory: &mut [u8], slot: usize, content: &R)
        requires sized { Sized self.now.geometry memory.old }
        requires slot { slot < self.now.geometry.slots }
        ensures { Only self.now.geometry.page slot memory.old memory.new (sealed C.TweakableCipher R.Record self.now.geometry self.now.cipher slot (Some content.now)) }
    {
        let page = &mut memory[self.geometry.range(slot)];
        seal_record(&self.cipher, page, slot as u8, content);
    }

    // Writes the page of an empty slot, by a function of its own for the reason that `lay_empty` is.
    pub(super) fn write_empty<R: Record>(&self, memory: &mut [u8], slot: usize)
        requires sized { Sized self.now.geometry memory.old }
        requires slot { slot < self.now.geometry.slots }
        ensures { Only self.now.geometry.page slot memory.old memory.new (sealed C.TweakableCipher R.Record self.now.geometry self.now.cipher slot None) }
    {
        let page = &mut memory[self.geometry.range(slot)];
        seal_empty::<C, R>(&self.cipher, page, slot as u8);
    }

    // What the page of a slot says. It is opened in a working slice of a page's length.
    pub(super) fn read_page<R: Record>(
        &self,
        memory: &[u8],
        slot: usize,
        working: &mut [u8],
    ) -> Result<Option<R>, SlotFault>
        requires sized { Sized self.now.geometry memory.now }
        requires slot { slot < self.now.geometry.slots }
        requires room { length working.old ≡ self.now.geometry.page }
        ensures { result ≡ said C.TweakableCipher R.Record self.now.geometry self.now.cipher memory.now slot }
    {
        working.copy_from_slice(&memory[self.geometry.range(slot)]);
        unseal(&self.cipher, working, slot as u8)
    }

    // What the page of a slot says. The working slice is zero afterwards.
    pub(super) fn read_guarded<R: Record>(
        &self,
        memory: &[u8],
        slot: usize,
        working: &mut [u8],
    ) -> Result<Option<R>, SlotFault>
        requires sized { Sized self.now.geometry memory.now }
        requires slot { slot < self.now.geometry.slots }
        requires room { length working.old ≡ self.now.geometry.page }
        ensures answer { result ≡ said C.TweakableCipher R.Record self.now.geometry self.now.cipher memory.now slot }
        ensures wiped { working.new ≡ replicate self.now.geometry.page 0 }
    {
        let guard = Wipe { bytes: working };
        let content = self.read_page(memory, slot, guard.bytes)?;
        Ok(content)
    }

    // Takes the page of a slot from the store's cipher to another, through a working slice of a page's length.
    pub(super) fn move_page(&self, to: &C, memory: &mut [u8], slot: usize, working: &mut [u8])
        requires sized { Sized self.now.geometry memory.old }
        requires slot { slot < self.now.geometry.slots }
        requires room { length working.old ≡ self.now.geometry.page }
        ensures { Only self.now.geometry.page slot memory.old memory.new (enciphered (C.encrypted to.now) (deciphered (C.encrypted self.now.cipher) (C.decrypted self.now.cipher) (page self.now.geometry.page slot memory.old))) }
    {
        let page = &mut memory[self.geometry.range(slot)];
        working.copy_from_slice(page);
        let _ = decipher(&self.cipher, working);
        let _ = encipher(to, working);
        page.copy_from_slice(working);
    }
}
