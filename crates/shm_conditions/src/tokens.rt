//! The words and marks of a condition's text.
ghost use Rattle.std.specs.Prelude.{◌≡◌, ◌+◌, ◌^◌, ◌<◌, IfOk};
ghost use Rattle.shm_conditions.specs.Tokens.{cut_after, ended, is_double, mark_of, tokens_of, uncut, with_byte, with_mark};

use std::alloc::{AllocError, Global};
use std::marker::Model;

#[derive(Clone, Copy, Debug, PartialEq, Eq)]
pub enum Mark {
    Word,
    Not,
    Open,
    Close,
    And,
    Or,
}

// A word or a mark, with the number of its first byte, from 1. A mark has no word.
#[derive(Drop)]
pub(crate) struct Token {
    pub(crate) at: u64,
    pub(crate) mark: Mark,
    pub(crate) word: Vec<u8>,
}

impl Model for Token {
    ghost use Rattle.shm_conditions.specs.Tokens.{Token};

    ghost Value = { Token };

    ghost view = { λ t. record { at = t.at; mark = t.mark; word = t.word.items } };
}

// The mark that begins with this byte, which is before another.
fn mark_of(byte: u8, next: u8) -> Option<Mark>
    ensures { result ≡ mark_of byte next }
{
    match (byte, next) {
        (b'~', _) => Some(Mark::Not),
        (b'(', _) => Some(Mark::Open),
        (b')', _) => Some(Mark::Close),
        (b'/', b'\\') => Some(Mark::And),
        (b'\\', b'/') => Some(Mark::Or),
        _ => None,
    }
}

// Whether the mark has two bytes.
fn is_double(mark: Mark) -> bool
    ensures { result ≡ is_double mark }
{
    match mark {
        Mark::And | Mark::Or => true,
        _ => false,
    }
}

// The tokens so far, a word that may continue, the number of its first byte, and whether the next byte is the end of a
// mark.
#[derive(Drop)]
struct Cut {
    tokens: Vec<Token>,
    word: Vec<u8>,
    begin: u64,
    skips: bool,
}

impl Model for Cut {
    ghost use Rattle.shm_conditions.specs.Tokens.{Cut};

    ghost Value = { Cut };

    ghost view = { λ c. record { tokens = c.tokens.items; word = c.word.items; begin = c.begin; skips = c.skips } };
}

impl Cut {
    fn new(alloc: Global) -> Cut
        ensures { result ≡ uncut }
    {
        Cut {
            tokens: Vec::new(alloc),
            word: Vec::new(alloc),
            begin: 1,
            skips: false,
        }
    }

    // The tokens, if the word ends.
    fn ended(self) -> Result<Vec<Token>, AllocError>
        ensures { IfOk result (λ v. v.items ≡ ended self) }
    {
        let Cut {
            mut tokens,
            word,
            begin,
            skips: _,
        } = self;
        if word.is_empty() {
            return Ok(tokens);
        }
        let mark = Mark::Word;
        tokens.push(Token {
            at: begin,
            mark,
            word,
        })?;
        Ok(tokens)
    }

    // A mark begins with the byte that has this number.
    fn with_mark(self, alloc: Global, at: u64, mark: Mark) -> Result<Cut, AllocError>
        requires { at + 1 < 2 ^ 64 }
        ensures { IfOk result (λ c. c ≡ with_mark at self mark) }
    {
        let mut tokens = self.ended()?;
        let word = Vec::new(alloc);
        tokens.push(Token { at, mark, word })?;
        Ok(Cut {
            tokens,
            word: Vec::new(alloc),
            begin: at + 1,
            skips: is_double(mark),
        })
    }

    // The byte with this number is that of no mark.
    fn with_byte(self, alloc: Global, at: u64, byte: u8) -> Result<Cut, AllocError>
        requires { at + 1 < 2 ^ 64 }
        ensures { IfOk result (λ c. c ≡ with_byte at self byte) }
    {
        if byte == b' ' {
            let tokens = self.ended()?;
            return Ok(Cut {
                tokens,
                word: Vec::new(alloc),
                begin: at + 1,
                skips: false,
            });
        }
        let Cut {
            tokens,
            mut word,
            begin,
            skips: _,
        } = self;
        word.push(byte)?;
        Ok(Cut {
            tokens,
            word,
            begin,
            skips: false,
        })
    }

    // The byte with this number, which is before another, or before 0 at the end.
    fn after(self, alloc: Global, at: u64, byte: u8, next: u8) -> Result<Cut, AllocError>
        requires { at + 1 < 2 ^ 64 }
        ensures { IfOk result (λ c. c ≡ cut_after at self byte next) }
    {
        if self.skips {
            return Ok(Cut {
                begin: at + 1,
                skips: false,
                ..self
            });
        }
        match mark_of(byte, next) {
            Some(mark) => self.with_mark(alloc, at, mark),
            None => self.with_byte(alloc, at, byte),
        }
    }
}

/// The words and marks of a text. AllocError: the host refused memory.
pub(crate) fn tokens_of(alloc: Global, text: &[u8]) -> Result<Vec<Token>, AllocError>
    ensures { IfOk result (λ v. v.items ≡ tokens_of text.now) }
{
    let mut cut = Cut::new(alloc);
    for (index, byte) in text.iter().enumerate() {
        let next = match text.get(index + 1) {
            Some(next) => *next,
            None => 0,
        };
        cut = cut.after(alloc, index as u64 + 1, *byte, next)?;
    }
    cut.ended()
}
