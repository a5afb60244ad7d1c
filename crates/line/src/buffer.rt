ghost use Rattle.std.specs.Prelude.{◌≡◌, ℕ, ◌≤◌, List, [], ◌∷◌, ◌++◌, length, Option, IfSome, ◌==◌};
ghost use Rattle.std.specs.Option.{option_map};
ghost use Rattle.session.specs.Lines.{kept};

use std::marker::Model;
use writer::write::Text;

// How many bytes a line has at most.
const MOST: usize = 256;

// The line that is coming in, as far as it is kept, or nothing once it is too long.
#[derive(Drop)]
pub struct LineBuffer {
    text: Option<Text<MOST>>,
}

// Clauses see the line's bytes, or nothing once it is too long.
impl Model for LineBuffer {
    ghost Value = { Option (List ℕ) };

    ghost view = { λ b. b.text };
}

impl LineBuffer {
    pub fn new() -> LineBuffer
        ensures { result ≡ kept [] }
    {
        LineBuffer {
            text: Some(Text::new()),
        }
    }

    // A line that is kept has at most 256 bytes. Clauses see no more of a buffer than the line, so this tells it.
    fn tell_within(&self)
        ensures { IfSome self.now (λ line. length line ≤ 256) }
    {
        if let Some(text) = &self.text {
            let _ = text.as_bytes();
        }
    }

    // Whether the line has no byte yet.
    pub fn is_empty(&self) -> bool
        ensures within { IfSome self.now (λ line. length line ≤ 256) }
        ensures empty { (line : List ℕ) → self.now ≡ kept line → result ≡ (length line == 0) }
    {
        self.tell_within();
        self.line().is_some_and(|line| line.is_empty())
    }

    // Takes one byte more.
    pub fn push(&mut self, b: u8)
        ensures before { IfSome self.old (λ line. length line ≤ 256) }
        ensures after { IfSome self.new (λ line. length line ≤ 256) }
        ensures taken { (line : List ℕ) → self.old ≡ kept line → self.new ≡ kept (line ++ (b ∷ [])) }
    {
        self.tell_within();
        match &mut self.text {
            Some(text) if text.as_bytes().len() < MOST => text.push(b),
            Some(_) => self.text = None,
            None => (),
        }
    }

    // Begins the next line.
    pub fn clear(&mut self)
        ensures before { IfSome self.old (λ line. length line ≤ 256) }
        ensures cleared { self.new ≡ kept [] }
    {
        self.tell_within();
        self.text = Some(Text::new());
    }

    // The line, where it was kept.
    pub fn line(&self) -> Option<&[u8]>
        ensures line { option_map (λ x. x.now) result ≡ self.now }
        ensures within { IfSome self.now (λ line. length line ≤ 256) }
    {
        self.tell_within();
        self.text.as_ref().map(|text| text.as_bytes())
    }
}
