// The calls on stores of commissioning sheets.
ghost use Rattle.std.specs.Prelude.{◌≡◌};
ghost use Rattle.record.specs.Sheets.{making};
ghost use Rattle.record.specs.contracts.sheet.making.SheetRecord.TheImpl as kind;
ghost use Rattle.c_api.specs.Made.{Forms, Puts, Clears, Gets, Changes, Called, CalledTo};

use crate::answer::Answer;
use crate::stores::{change, clear, form, get, put};
use record::fields::SheetFields;
use record::sheet::Sheet;

#[unsafe(no_mangle)]
pub extern "C" fn dikhelwa_sheet_form(
    cipher: u32,
    key: &[u8],
    slots: usize,
    page_length: usize,
    memory: &mut [u8],
) -> Answer
    ensures { Called cipher key.now slots page_length (memory.new ≡ memory.old) (λ g c a. Forms kind.ghosts g c memory.old memory.new a) result }
{
    form::<Sheet>(cipher, key, slots, page_length, memory)
}

#[unsafe(no_mangle)]
pub extern "C" fn dikhelwa_sheet_put(
    cipher: u32,
    key: &[u8],
    slots: usize,
    page_length: usize,
    memory: &mut [u8],
    slot: usize,
    sheet: &SheetFields,
) -> Answer
    ensures { Called cipher key.now slots page_length (memory.new ≡ memory.old) (λ g c a. Puts kind.ghosts g c memory.old slot (making sheet.now) memory.new a) result }
{
    put::<Sheet>(cipher, key, slots, page_length, memory, slot, sheet)
}

#[unsafe(no_mangle)]
pub extern "C" fn dikhelwa_sheet_clear(
    cipher: u32,
    key: &[u8],
    slots: usize,
    page_length: usize,
    memory: &mut [u8],
    slot: usize,
) -> Answer
    ensures { Called cipher key.now slots page_length (memory.new ≡ memory.old) (λ g c a. Clears kind.ghosts g c memory.old slot memory.new a) result }
{
    clear::<Sheet>(cipher, key, slots, page_length, memory, slot)
}

#[unsafe(no_mangle)]
pub extern "C" fn dikhelwa_sheet_get(
    cipher: u32,
    key: &[u8],
    slots: usize,
    page_length: usize,
    memory: &[u8],
    slot: usize,
    working: &mut [u8],
    sheet: &mut SheetFields,
) -> Answer
    ensures { Called cipher key.now slots page_length ((working.new ≡ working.old) × (sheet.new ≡ sheet.old)) (λ g c a. Gets kind.ghosts (λ s. s.fields) g c memory.now slot working.old sheet.old working.new sheet.new a) result }
{
    get::<Sheet>(
        cipher,
        key,
        slots,
        page_length,
        memory,
        slot,
        working,
        sheet,
    )
}

#[unsafe(no_mangle)]
pub extern "C" fn dikhelwa_sheet_change(
    cipher: u32,
    key: &[u8],
    slots: usize,
    page_length: usize,
    memory: &mut [u8],
    new_key: &[u8],
    working: &mut [u8],
) -> Answer
    ensures { CalledTo cipher key.now new_key.now slots page_length ((memory.new ≡ memory.old) × (working.new ≡ working.old)) (λ g c to a. Changes kind.ghosts g c memory.old to working.old memory.new working.new a) result }
{
    change::<Sheet>(cipher, key, slots, page_length, memory, new_key, working)
}
