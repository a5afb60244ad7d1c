// The text of an answer.
ghost use Rattle.std.specs.Prelude.{◌≡◌, [], ◌++◌, codes};
ghost use Rattle.text.specs.Texts.{listed};
ghost use Rattle.session.specs.Answers.{answer_text, replied, refusal_numbers};

use crate::bench::ANSWER;
use calls::refusal::Refusal as StoreRefusal;
use page::fault::{PageFault, SlotFault};
use session::refusal::Refusal;
use session::reply::Reply;
use writer::write::Text;

// The word, and the refusal's number and values.
fn say_refusal(out: &mut Text<ANSWER>, refusal: Refusal)
    requires { out.old ≡ [] }
    ensures { out.new ≡ codes "no," ++ listed (refusal_numbers refusal) }
{
    out.word(b"no,");
    match refusal {
        Refusal::Line => out.numbers(&[9]),
        Refusal::Geometry(_) => out.numbers(&[2]),
        Refusal::Sheet(fault) => out.numbers(&[8, fault.field as u32]),
        Refusal::Store(StoreRefusal::Memory) => out.numbers(&[3]),
        Refusal::Store(StoreRefusal::Slot) => out.numbers(&[4]),
        Refusal::Store(StoreRefusal::Buffer) => out.numbers(&[5]),
        Refusal::Store(StoreRefusal::Page(SlotFault { slot, fault })) => match fault {
            PageFault::Head => out.numbers(&[6, slot as u32]),
            PageFault::Record(fault) => out.numbers(&[7, slot as u32, fault.field as u32]),
        },
    }
}

// Writes the text of an answer, in place of what the text was.
pub fn say(out: &mut Text<ANSWER>, answer: Result<Reply, Refusal>)
    ensures { out.new ≡ answer_text (replied answer) }
{
    out.clear();
    match answer {
        Ok(Reply::Done) => out.word(b"ok"),
        Ok(Reply::Empty) => out.word(b"none"),
        Ok(Reply::Found(sheet)) => out.numbers(&<[u32; 7]>::from(sheet.fields())),
        Err(refusal) => say_refusal(out, refusal),
    }
}
