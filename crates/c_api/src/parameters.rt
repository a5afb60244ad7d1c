// The calls on stores of parameter sets.
ghost use Rattle.std.specs.Prelude.{◌≡◌};
ghost use Rattle.record.specs.Parameters.{making};
ghost use Rattle.record.specs.contracts.parameters.making.ParameterSetRecord.TheImpl as kind;
ghost use Rattle.c_api.specs.Made.{Forms, Puts, Clears, Gets, Changes, Called, CalledTo};

use crate::answer::Answer;
use crate::stores::{change, clear, form, get, put};
use record::parameters::ParameterSet;
use record::setting::ParameterFields;

#[unsafe(no_mangle)]
pub extern "C" fn dikhelwa_parameters_form(
    cipher: u32,
    key: &[u8],
    slots: usize,
    page_length: usize,
    memory: &mut [u8],
) -> Answer
    ensures { Called cipher key.now slots page_length (memory.new ≡ memory.old) (λ g c a. Forms kind.ghosts g c memory.old memory.new a) result }
{
    form::<ParameterSet>(cipher, key, slots, page_length, memory)
}

#[unsafe(no_mangle)]
pub extern "C" fn dikhelwa_parameters_put(
    cipher: u32,
    key: &[u8],
    slots: usize,
    page_length: usize,
    memory: &mut [u8],
    slot: usize,
    parameters: &ParameterFields,
) -> Answer
    ensures { Called cipher key.now slots page_length (memory.new ≡ memory.old) (λ g c a. Puts kind.ghosts g c memory.old slot (making parameters.now) memory.new a) result }
{
    put::<ParameterSet>(cipher, key, slots, page_length, memory, slot, parameters)
}

#[unsafe(no_mangle)]
pub extern "C" fn dikhelwa_parameters_clear(
    cipher: u32,
    key: &[u8],
    slots: usize,
    page_length: usize,
    memory: &mut [u8],
    slot: usize,
) -> Answer
    ensures { Called cipher key.now slots page_length (memory.new ≡ memory.old) (λ g c a. Clears kind.ghosts g c memory.old slot memory.new a) result }
{
    clear::<ParameterSet>(cipher, key, slots, page_length, memory, slot)
}

#[unsafe(no_mangle)]
pub extern "C" fn dikhelwa_parameters_get(
    cipher: u32,
    key: &[u8],
    slots: usize,
    page_length: usize,
    memory: &[u8],
    slot: usize,
    working: &mut [u8],
    parameters: &mut ParameterFields,
) -> Answer
    ensures { Called cipher key.now slots page_length ((working.new ≡ working.old) × (parameters.new ≡ parameters.old)) (λ g c a. Gets kind.ghosts (λ s. s.fields) g c memory.now slot working.old parameters.old working.new parameters.new a) result }
{
    get::<ParameterSet>(
        cipher,
        key,
        slots,
        page_length,
        memory,
        slot,
        working,
        parameters,
    )
}

#[unsafe(no_mangle)]
pub extern "C" fn dikhelwa_parameters_change(
    cipher: u32,
    key: &[u8],
    slots: usize,
    page_length: usize,
    memory: &mut [u8],
    new_key: &[u8],
    working: &mut [u8],
) -> Answer
    ensures { CalledTo cipher key.now new_key.now slots page_length ((memory.new ≡ memory.old) × (working.new ≡ working.old)) (λ g c to a. Changes kind.ghosts g c memory.old to working.old memory.new working.new a) result }
{
    change::<ParameterSet>(cipher, key, slots, page_length, memory, new_key, working)
}
