// A text and the place reached in it, together. The work is done on slice and number: `token`.
ghost use Rattle.std.specs.Prelude.{◌≡◌, ◌≤◌, ◌<◌, length, MatchOption};
ghost use Rattle.lexer.specs.Lex.{Lexed};

use crate::{Tok, token};

#[derive(Clone, Copy)]
pub struct Cursor<'a> {
    pub text: &'a [u8],
    pub at: usize,
}

impl<'a> Cursor<'a> {
    // At a place, whether or not the text has it.
    pub fn new(text: &'a [u8], at: usize) -> Cursor<'a>
        ensures { (result.text ≡ text.entry) × (result.at ≡ at) }
    {
        Cursor { text, at }
    }

    // At a place of the text, if it is one.
    pub fn within(text: &'a [u8], at: usize) -> Option<Cursor<'a>>
        ensures { MatchOption result (length text.now < at) (λ c. (c.text ≡ text.entry) × (c.at ≡ at) × (at ≤ length text.now)) }
    {
        if at <= text.len() {
            Some(Cursor::new(text, at))
        } else {
            None
        }
    }

    // The first token at or after the place.
    pub fn peek(self) -> Tok
        requires { self.at ≤ length self.text.now }
        ensures { Lexed self.entry.text.now self.entry.at result }
    {
        token(self.text, self.at)
    }

    // The same text at another place.
    pub fn moved(self, at: usize) -> Cursor<'a>
        ensures { (result.text ≡ self.entry.text) × (result.at ≡ at) }
    {
        Cursor::new(self.text, at)
    }

    // The first token at or after the place; the place after it is reached.
    pub fn take(&mut self) -> Tok
        requires { self.old.at ≤ length self.old.text.now }
        ensures lexed { Lexed self.old.text.now self.old.at result }
        ensures moved { (self.new.text ≡ self.old.text) × (self.new.at ≡ result.stop) }
    {
        let t = self.peek();
        self.at = t.stop;
        t
    }
}
