// All pages of a memory: written, looked at, and taken from one cipher to another. A slot's number stands in its page, so the
// loops go over the slots. That a memory has the geometry's length, and a working slice a page's, stands in each contract: both
// are lent for one call, and a view of them would be made anew in each.
ghost use Rattle.std.specs.Prelude.{◌≡◌, length, replicate};
ghost use Rattle.calls.specs.Memory.{Sized};
ghost use Rattle.store.specs.Looks.{Looked, Written, Moved, Rewritten};

use super::Store;
use super::wipe::Wipe;
use block::bytes::all_bytes;
use cipher::tweakable::TweakableCipher;
use page::fault::SlotFault;
use record::kind::Record;

impl<C: TweakableCipher> Store<C> {
    // Writes an empty page for every slot.
    pub(super) fn write_all<R: Record>(&self, memory: &mut [u8])
        requires { Sized self.now.geometry memory.old }
        ensures { Written C.TweakableCipher R.Record self.now.geometry self.now.cipher memory.new }
    {
        for slot in 0..self.geometry.slots() {
            self.write_empty::<R>(memory, slot);
        }
    }

    // Looks at every page. The fault is that of the lowest faulty one.
    fn look<R: Record + Drop>(&self, memory: &[u8], working: &mut [u8]) -> Result<(), SlotFault>
        requires sized { Sized self.now.geometry memory.now }
        requires room { length working.old ≡ self.now.geometry.page }
        ensures { Looked C.TweakableCipher R.Record self.now.geometry self.now.cipher memory.now result }
    {
        for slot in 0..self.geometry.slots() {
            let _ = self.read_page::<R>(memory, slot, working)?;
        }
        Ok(())
    }

    // Takes every page from the store's cipher to another.
    fn move_all(&self, to: &C, memory: &mut [u8], working: &mut [u8])
        requires sized { Sized self.now.geometry memory.old }
        requires room { length working.old ≡ self.now.geometry.page }
        ensures { Moved C.TweakableCipher self.now.geometry self.now.cipher to.now memory.old memory.new }
    {
        for slot in 0..self.geometry.slots() {
            self.move_page(to, memory, slot, working);
        }
    }

    // Looks at every page, and then takes each from the store's cipher to another. The working slice is zero afterwards.
    pub(super) fn change_guarded<R: Record + Drop>(
        &self,
        to: &C,
        memory: &mut [u8],
        working: &mut [u8],
    ) -> Result<(), SlotFault>
        requires sized { Sized self.now.geometry memory.old }
        requires room { length working.old ≡ self.now.geometry.page }
        ensures answer { Rewritten C.TweakableCipher R.Record self.now.geometry self.now.cipher to.now memory.old memory.new result }
        ensures wiped { working.new ≡ replicate self.now.geometry.page 0 }
    {
        all_bytes(memory);
        let guard = Wipe { bytes: working };
        self.look::<R>(memory, guard.bytes)?;
        self.move_all(to, memory, guard.bytes);
        Ok(())
    }
}
