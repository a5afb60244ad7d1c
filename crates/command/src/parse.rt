ghost use Rattle.std.specs.Prelude.{◌≡◌};
ghost use Rattle.text.specs.Texts.{Reads, listed};
ghost use Rattle.command.specs.declared.command.Word.TheVariants as word;
ghost use Rattle.record.specs.Fields.{list_of};
ghost use Rattle.command.specs.Commands.{letter, spelt, word_of, arguments, text, Seven, IsKey, key_text, Sound, Distinct};

use crate::command::{Command, Word};
use block::bytes::read_block;
use block::diblock::Block;
use ciphers::name::CipherName;
use record::fields::SheetFields;
use text::hexadecimal::array_of;
use text::numerals::{cut, number, seven};

// The cipher of a letter.
fn cipher(bytes: &[u8]) -> Option<CipherName>
    ensures { Reads (λ _. Unit {0}) letter bytes.now result }
{
    match bytes {
        b"s" => Some(CipherName::Skinny),
        b"a" => Some(CipherName::Cascade),
        b"x" => Some(CipherName::Bench),
        _ => None,
    }
}

// The command's word.
fn word(bytes: &[u8]) -> Option<Word>
    ensures { Reads (λ _. Unit {0}) spelt bytes.now result }
{
    match bytes {
        b"form" => Some(Word::Form),
        b"put" => Some(Word::Put),
        b"get" => Some(Word::Get),
        b"clear" => Some(Word::Clear),
        b"page" => Some(Word::Page),
        b"change" => Some(Word::Change),
        _ => None,
    }
}

// The key that 32 hexadecimal digits write.
fn key(bytes: &[u8]) -> Option<Block>
    ensures { Reads IsKey key_text bytes.now result }
{
    let out: [u8; 16] = array_of(bytes)?;
    Some(read_block(&out, 0))
}

// The fields of a sheet.
fn fields(bytes: &[u8]) -> Option<SheetFields>
    ensures { Reads Seven (λ f. listed (list_of f)) bytes.now result }
{
    let numbers = seven(bytes)?;
    Some(SheetFields::from(numbers))
}

// What follows the word `form` and a comma.
fn form(bytes: &[u8]) -> Option<Command>
    ensures { Reads (λ c. Sound c × (word_of c ≡ word.Form)) arguments bytes.now result }
{
    let (first, rest) = cut(bytes)?;
    let (second, third) = cut(rest)?;
    let cipher = cipher(first)?;
    let slots = number(second)?;
    let page = number(third)?;
    Some(Command::Form(cipher, slots, page))
}

// What follows the word `put` and a comma.
fn put(bytes: &[u8]) -> Option<Command>
    ensures { Reads (λ c. Sound c × (word_of c ≡ word.Put)) arguments bytes.now result }
{
    let (first, rest) = cut(bytes)?;
    let slot = number(first)?;
    let fields = fields(rest)?;
    Some(Command::Put(slot, fields))
}

// The command that a line is: the one whose text the line is, of which there is at most one.
#[tactic(auto, using(crate::proofs::Distinct::distinct))]
pub fn parse(line: &[u8]) -> Option<Command>
    ensures reads { Reads Sound text line.now result }
    ensures distinct { Distinct }
{
    let (first, rest) = cut(line)?;
    match word(first)? {
        Word::Form => form(rest),
        Word::Put => put(rest),
        Word::Get => Some(Command::Get(number(rest)?)),
        Word::Clear => Some(Command::Clear(number(rest)?)),
        Word::Page => Some(Command::Page(number(rest)?)),
        Word::Change => Some(Command::Change(key(rest)?)),
    }
}
