use block::diblock::Block;
use ciphers::name::CipherName;
use record::fields::SheetFields;

// What a line asks for.
#[derive(Clone, Copy)]
pub enum Command {
    // Form the memory: a cipher, how many slots, and how many bytes a page.
    Form(CipherName, u32, u32),
    // Put a sheet of these fields into a slot.
    Put(u32, SheetFields),
    // Get what a slot holds.
    Get(u32),
    // Empty a slot.
    Clear(u32),
    // Show the stored bytes of a slot's page.
    Page(u32),
    // Go over to another key.
    Change(Block),
}

// The first word of a command.
#[derive(Clone, Copy)]
pub enum Word {
    Form,
    Put,
    Get,
    Clear,
    Page,
    Change,
}
