ghost use Rattle.std.specs.Prelude.{◌≡◌, ◌≤◌, length, Option, ◌≢◌};
ghost use Rattle.std.specs.Option.{option_map};
ghost use Rattle.command.specs.declared.command.Command as commands;
ghost use Rattle.command.specs.declared.command.Command.TheVariants.{Form};
ghost use Rattle.command.specs.Commands.{word_of};
ghost use Rattle.command.specs.declared.command.Word.TheVariants as word;
ghost use Rattle.session.specs.Answers.{replied};
ghost use Rattle.session.specs.Commanded.{On, Does};
ghost use Rattle.session.specs.States.{start};
ghost use Rattle.session.specs.Lines.{Asks, Acts};
ghost use Rattle.session.specs.History.{Law};
ghost use Rattle.line.specs.Benches.{Sized};
ghost use Rattle.line.specs.Says.{Says, SaysInto};

use crate::say::say;
use crate::serve::serve;
use calls::geometry::Geometry;
use ciphers::any::AnyCipher;
use ciphers::name::CipherName;
use command::command::Command;
use command::parse::parse;
use record::sheet::Sheet;
use session::law::lines_law;
use session::refusal::Refusal;
use session::reply::Reply;
use std::marker::Model;
use store::store::Store;
use writer::write::{Text, word};

// How many bytes an answer has at most.
pub const ANSWER: usize = 8192;

// The bench program between two lines: what is formed, if anything, the memory, and the working buffer.
#[derive(Drop)]
pub struct Bench {
    store: Option<Store<AnyCipher>>,
    memory: [u8; 32768],
    working: [u8; 4096],
}

// What a line asks. One that was too long to be kept asks nothing.
fn asked(line: Option<&[u8]>) -> Option<Command>
    ensures { Asks (option_map (λ x. x.now) line.entry) result }
{
    parse(line?)
}

// Clauses see what it holds, in the words of the session.
impl Model for Bench {
    ghost use Rattle.session.specs.States.{State};

    ghost Value = { State };

    ghost use Rattle.line.specs.Benches.{state_of};

    ghost view = { state_of };
}

impl Bench {
    // Nothing is formed, and all bytes are zero.
    pub fn new() -> Bench
        ensures { result ≡ start }
    {
        Bench {
            store: None,
            memory: [0; 32768],
            working: [0; 4096],
        }
    }

    // Forms a new store in place of the former, which stays where the new one is refused. The store has the first bytes of
    // the memory, as many as its geometry says.
    fn form(&mut self, name: CipherName, slots: u32, page: u32) -> Result<Reply, Refusal>
        ensures { Does self.old (Form name slots page) self.new (replied result) }
    {
        let geometry = Geometry::new(slots as usize, page as usize)?;
        let store = Store::new(AnyCipher::new(name, 0), geometry);
        let end = geometry.memory().min(self.memory.len());
        store.form::<Sheet>(&mut self.memory[0..end])?;
        self.store = Some(store);
        Ok(Reply::Done)
    }

    // A command that wants a formed store.
    fn on_store(&mut self, command: Command, out: &mut Text<ANSWER>)
        requires { word_of command ≢ word.Form }
        ensures { Says (λ a. On self.old self.old.formed command self.new a) out.new }
    {
        let Some(store) = &mut self.store else {
            return say(out, Err(Refusal::Line));
        };
        let end = store.geometry().memory().min(self.memory.len());
        let memory = &mut self.memory[0..end];
        serve(store, memory, &mut self.working, command, out);
    }

    // A command, whatever is formed.
    fn act(&mut self, command: Command, out: &mut Text<ANSWER>)
        ensures { Says (λ a. Does self.old command self.new a) out.new }
    {
        match command {
            Command::Form(name, slots, page) => say(out, self.form(name, slots, page)),
            _ => self.on_store(command, out),
        }
    }

    // A line, whatever it asks.
    fn respond(&mut self, line: Option<&[u8]>, out: &mut Text<ANSWER>)
        ensures { (o : Option commands.Command) × Asks (option_map (λ x. x.now) line.entry) o × Says (λ a. Acts self.old o self.new a) out.new }
    {
        match asked(line) {
            Some(command) => self.act(command, out),
            None => say(out, Err(Refusal::Line)),
        }
    }

    // Clauses see lists in place of the arrays. What is called here is called for what it tells: the arrays' sizes.
    fn tell_sizes(&self)
        ensures { Sized self.now }
    {
        let Bench {
            store: _,
            memory,
            working,
        } = self;
        let _ = memory.is_empty() || working.is_empty();
    }

    // Answers a line: writes the text of its answer, in place of what the text was.
    pub fn answer_text(&mut self, line: Option<&[u8]>, out: &mut Text<ANSWER>)
        ensures within { length out.new ≤ 8192 }
        ensures sized { Sized self.old × Sized self.new }
        ensures says { (o : Option commands.Command) × Asks (option_map (λ x. x.now) line.entry) o × Says (λ a. Acts self.old o self.new a) out.new }
        ensures law { Law }
    {
        lines_law();
        self.tell_sizes();
        self.respond(line, out);
        self.tell_sizes();
        // The call is made for its promise: that the text is within its capacity.
        let _ = out.as_bytes();
    }

    // Answers a line into a caller's array: writes the text of its answer from the front of `out` on, and says how long it is.
    pub fn answer(&mut self, line: Option<&[u8]>, out: &mut [u8; ANSWER]) -> usize
        ensures within { result ≤ 8192 }
        ensures sized { Sized self.old × Sized self.new }
        ensures says { (o : Option commands.Command) × Asks (option_map (λ x. x.now) line.entry) o × SaysInto (λ a. Acts self.old o self.new a) out.old out.new result }
        ensures law { Law }
    {
        let mut text = Text::new();
        self.answer_text(line, &mut text);
        word(out, 0, text.as_bytes())
    }
}
