// The commands that a formed store serves. Each takes what it uses of the store, its part of the memory, and the working buffer.
ghost use Rattle.std.specs.Prelude.{◌≡◌, [], None, Option, Result, ◌≢◌};
ghost use Rattle.record.specs.declared.sheet.Sheet as sheets;
ghost use Rattle.record.specs.Sheets.{making};
ghost use Rattle.record.specs.contracts.sheet.making.SheetRecord.TheImpl as sheetly;
ghost use Rattle.ciphers.specs.Ciphers.{name_of, Under};
ghost use Rattle.ciphers.specs.contracts.any.AnyCipherTweakableCipher.TheImpl as any;
ghost use Rattle.command.specs.declared.command.Command.TheVariants.{Change};
ghost use Rattle.command.specs.declared.command.Word.TheVariants as word;
ghost use Rattle.command.specs.Commands.{word_of};
ghost use Rattle.calls.specs.declared.refusal.Refusal as refusals;
ghost use Rattle.calls.specs.Calls.{Put, Got};
ghost use Rattle.calls.specs.Memory.{page as page_of};
ghost use Rattle.calls.specs.Refused.{by_memory, by_slot};
ghost use Rattle.session.specs.Answers.{replied, done, told};
ghost use Rattle.session.specs.Commanded.{Puts, shown, Serves};
ghost use Rattle.line.specs.Says.{Says};

use crate::bench::ANSWER;
use crate::say::say;
use block::diblock::Block;
use ciphers::any::AnyCipher;
use command::command::Command;
use record::fields::SheetFields;
use record::sheet::Sheet;
use session::refusal::Refusal;
use session::reply::Reply;
use store::store::Store;
use writer::write::Text;

// The fields are judged before the slot.
fn put(
    store: &Store<AnyCipher>,
    memory: &mut [u8],
    slot: u32,
    fields: SheetFields,
) -> Result<Reply, Refusal>
    ensures { Puts store.now.geometry store.now.cipher memory.old slot (making fields) memory.new (replied result) }
{
    let sheet = Sheet::new(fields)?;
    store.put(memory, slot as usize, &sheet)?;
    Ok(Reply::Done)
}

fn get(
    store: &Store<AnyCipher>,
    memory: &[u8],
    working: &mut [u8],
    slot: u32,
) -> Result<Reply, Refusal>
    ensures { (q : Result (Option sheets.Sheet) refusals.Refusal) × Got any.ghosts sheetly.ghosts store.now.geometry store.now.cipher memory.now slot working.old working.new q × (replied result ≡ told q) }
{
    match store.get(memory, slot as usize, working)? {
        Some(sheet) => Ok(Reply::Found(sheet)),
        None => Ok(Reply::Empty),
    }
}

fn clear(store: &Store<AnyCipher>, memory: &mut [u8], slot: u32) -> Result<Reply, Refusal>
    ensures { (q : Result (Unit {0}) refusals.Refusal) × Put any.ghosts sheetly.ghosts store.now.geometry store.now.cipher memory.old slot None memory.new q × (replied result ≡ done q) }
{
    store.clear::<Sheet>(memory, slot as usize)?;
    Ok(Reply::Done)
}

// The cipher that the store holds, under another key.
fn rekeyed(store: &Store<AnyCipher>, key: Block) -> AnyCipher
    ensures { Under (name_of store.now.cipher) key result }
{
    AnyCipher::new(store.cipher().name(), key)
}

fn change(
    store: &mut Store<AnyCipher>,
    memory: &mut [u8],
    working: &mut [u8],
    key: Block,
) -> Result<Reply, Refusal>
    ensures does { Serves store.old.geometry store.old.cipher memory.old working.old (Change key) store.new.cipher memory.new working.new (replied result) }
    ensures keeps { store.new.geometry ≡ store.old.geometry }
{
    let to = rekeyed(store, key);
    store.change::<Sheet>(memory, to, working)?;
    Ok(Reply::Done)
}

// The stored bytes of a page, in hexadecimal.
fn show(store: &Store<AnyCipher>, memory: &[u8], slot: u32, out: &mut Text<ANSWER>)
    ensures { Says (λ a. a ≡ shown (by_memory store.now.geometry memory.now (by_slot store.now.geometry slot [])) (page_of store.now.geometry.page slot memory.now)) out.new }
{
    match store.stored_page(memory, slot as usize) {
        Ok(bytes) => {
            out.clear();
            out.hexadecimal(bytes);
        }
        Err(refusal) => say(out, Err(Refusal::Store(refusal))),
    }
}

// A command on a formed store, which form is not. It is one match, since each case takes other parts of the store.
pub fn serve(
    store: &mut Store<AnyCipher>,
    memory: &mut [u8],
    working: &mut [u8],
    command: Command,
    out: &mut Text<ANSWER>,
)
    requires { word_of command ≢ word.Form }
    ensures says { Says (λ a. Serves store.old.geometry store.old.cipher memory.old working.old command store.new.cipher memory.new working.new a) out.new }
    ensures keeps { store.new.geometry ≡ store.old.geometry }
{
    match command {
        Command::Form(_, _, _) => unreachable(),
        Command::Put(slot, fields) => say(out, put(store, memory, slot, fields)),
        Command::Get(slot) => say(out, get(store, memory, working, slot)),
        Command::Clear(slot) => say(out, clear(store, memory, slot)),
        Command::Page(slot) => show(store, memory, slot, out),
        Command::Change(key) => say(out, change(store, memory, working, key)),
    }
}
