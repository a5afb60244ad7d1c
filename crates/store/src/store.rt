ghost use Rattle.std.specs.Prelude.{◌≡◌, ◌<◌, ◌≤◌, length, Some, None, MatchResult};
ghost use Rattle.calls.specs.declared.refusal.Refusal.TheVariants.{Memory, Slot, Buffer};
ghost use Rattle.calls.specs.Memory.{Sized};
ghost use Rattle.calls.specs.Calls.{Why, Formed, Put, Forgot, Got, Stored, Changed};
ghost use Rattle.calls.specs.Runs.{Law};

mod all;
mod pages;
mod wipe;

use calls::geometry::Geometry;
use calls::refusal::Refusal;
use cipher::tweakable::TweakableCipher;
use record::kind::Record;

// A cipher, with its key, and the geometry of the memories it is used on.
#[derive(Drop)]
pub struct Store<C> {
    cipher: C,
    geometry: Geometry,
}

impl<C: TweakableCipher + Drop> Store<C> {
    pub fn new(cipher: C, geometry: Geometry) -> Store<C>
        ensures cipher { result.cipher ≡ cipher }
        ensures geometry { result.geometry ≡ geometry }
    {
        Store { cipher, geometry }
    }

    // The cipher that is held.
    pub fn cipher(&self) -> &C
        ensures { result.now ≡ self.now.cipher }
    {
        &self.cipher
    }

    pub fn geometry(&self) -> Geometry
        ensures { result ≡ self.now.geometry }
    {
        self.geometry
    }

    // The memory has as many bytes as the geometry says.
    fn check_memory(&self, memory: &[u8]) -> Result<(), Refusal>
        ensures { MatchResult result (λ _. Sized self.now.geometry memory.now) (λ e. (e ≡ Memory) × (Sized self.now.geometry memory.now → ⊥)) }
    {
        if memory.len() != self.geometry.memory() {
            return Err(Refusal::Memory);
        }
        Ok(())
    }

    // The slot is one of the geometry's.
    fn check_slot(&self, slot: usize) -> Result<(), Refusal>
        ensures { MatchResult result (λ _. slot < self.now.geometry.slots) (λ e. (e ≡ Slot) × (self.now.geometry.slots ≤ slot)) }
    {
        if slot >= self.geometry.slots() {
            return Err(Refusal::Slot);
        }
        Ok(())
    }

    // The working buffer has room for a page.
    fn check_working(&self, working: &[u8]) -> Result<(), Refusal>
        ensures { MatchResult result (λ _. self.now.geometry.page ≤ length working.now) (λ e. (e ≡ Buffer) × (length working.now < self.now.geometry.page)) }
    {
        if working.len() < self.geometry.page() {
            return Err(Refusal::Buffer);
        }
        Ok(())
    }

    // Writes an empty page for every slot. On a formed memory, whatever calls follow, the pages are those of the
    // slots' contents, and two memories are equal exactly where their contents are.
    pub fn form<R: Record>(&self, memory: &mut [u8]) -> Result<(), Refusal>
        ensures does { Formed C.TweakableCipher R.Record self.now.geometry self.now.cipher memory.old memory.new result }
        ensures law { Law C.TweakableCipher R.Record }
    {
        self.check_memory(memory)?;
        self.write_all::<R>(memory);
        Ok(())
    }

    // Writes a record into a slot, whatever the slot held.
    pub fn put<R: Record>(&self, memory: &mut [u8], slot: usize, content: &R) -> Result<(), Refusal>
        ensures { Put C.TweakableCipher R.Record self.now.geometry self.now.cipher memory.old slot (Some content.now) memory.new result }
    {
        self.check_memory(memory)?;
        self.check_slot(slot)?;
        self.write_record(memory, slot, content);
        Ok(())
    }

    // Reads what a slot holds. The page is opened in the working buffer, whose part in use is zero afterwards.
    pub fn get<R: Record>(
        &self,
        memory: &[u8],
        slot: usize,
        working: &mut [u8],
    ) -> Result<Option<R>, Refusal>
        ensures { Got C.TweakableCipher R.Record self.now.geometry self.now.cipher memory.now slot working.old working.new result }
    {
        self.check_memory(memory)?;
        // The slot is judged before the working buffer.
        self.check_slot(slot)?;
        self.check_working(working)?;
        let page = self.geometry.page();
        let content = self.read_guarded(memory, slot, &mut working[0..page])?;
        Ok(content)
    }

    // The bytes of a slot's page as they stand in the memory.
    pub fn stored_page<'a>(&self, memory: &'a [u8], slot: usize) -> Result<&'a [u8], Refusal>
        ensures { MatchResult result (λ bytes. Stored self.now.geometry memory.now slot bytes.now) (λ e. Why self.now.geometry memory.now slot e) }
    {
        self.check_memory(memory)?;
        self.check_slot(slot)?;
        Ok(&memory[self.geometry.range(slot)])
    }

    // Empties a slot. What is left does not depend on what the slot held.
    pub fn clear<R: Record>(&self, memory: &mut [u8], slot: usize) -> Result<(), Refusal>
        ensures does { Put C.TweakableCipher R.Record self.now.geometry self.now.cipher memory.old slot None memory.new result }
        ensures forgot { Forgot C.TweakableCipher R.Record self.now.geometry self.now.cipher memory.old slot memory.new result }
    {
        self.check_memory(memory)?;
        self.check_slot(slot)?;
        self.write_empty::<R>(memory, slot);
        Ok(())
    }

    // Rewrites every page under another cipher of the same make, and holds that cipher from then on. All pages are
    // looked at before one is written.
    pub fn change<R: Record + Drop>(
        &mut self,
        memory: &mut [u8],
        to: C,
        working: &mut [u8],
    ) -> Result<(), Refusal>
        ensures does { Changed C.TweakableCipher R.Record self.old.geometry self.old.cipher memory.old to working.old self.new.cipher memory.new working.new result }
        ensures keeps { self.new.geometry ≡ self.old.geometry }
    {
        self.check_memory(memory)?;
        self.check_working(working)?;
        let page = self.geometry.page();
        self.change_guarded::<R>(&to, memory, &mut working[0..page])?;
        self.cipher = to;
        Ok(())
    }
}
