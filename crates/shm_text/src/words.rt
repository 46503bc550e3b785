//! Lines of a script, and their words.

ghost use Rattle.std.specs.Prelude.{◌≡◌, ◌<◌, ◌≤◌, ◌++◌, ◌&&◌, not, ℕ, List, [], length, take};
ghost use Rattle.std.specs.List.{list_all};
ghost use Rattle.std.specs.Str.{bytes_eq};
ghost use Rattle.shm_text.specs.Words.{is_allowed, is_space, words_of, with_word, texts, word_at, line_end, first_line};

use std::marker::Model;

/// One more word than any form has.
pub(crate) const MOST_WORDS: usize = 8;

// Whether a byte is allowed in a line and is not a space.
#[inline(always)]
fn is_of_word(byte: u8) -> bool
    ensures { result ≡ is_allowed byte && not (is_space byte) }
{
    byte > b' ' && byte <= b'~'
}

#[inline(always)]
fn is_space(byte: u8) -> bool
    ensures { result ≡ is_space byte }
{
    byte == b' ' || byte == b'\t'
}

/// Whether a word equals a text. Most words differ from a text in their length or in their first byte, which are
/// tested without a call.
#[inline(always)]
pub(crate) fn is_word(word: &[u8], text: &[u8]) -> bool
    ensures { result ≡ bytes_eq word.now text.now }
{
    word.len() == text.len() && word.first() == text.first() && word == text
}

/// The first words of a line.
#[derive(Drop)]
pub(crate) struct Words<'a> {
    found: [&'a [u8]; MOST_WORDS],
    count: usize,
}

impl<'a> Model for Words<'a> {
    ghost Value = { List (List ℕ) };

    ghost view = { λ w. texts (take w.count w.found) };

    ghost invariant = { λ w. w.count ≤ 8 };
}

/// Where the first line of a text ends, and whether all its bytes are allowed.
#[derive(Clone, Copy)]
pub(crate) struct Scanned {
    pub(crate) end: usize,
    pub(crate) allowed: bool,
}

impl<'a> Words<'a> {
    /// No words.
    pub(crate) fn none() -> Words<'a>
        ensures { result ≡ [] }
    {
        let nothing: &[u8] = &[];
        Words {
            found: [nothing; MOST_WORDS],
            count: 0,
        }
    }

    // Appends a word, if it has bytes and there is room.
    #[inline(always)]
    fn keep(&mut self, word: &'a [u8])
        ensures { self.new ≡ take MOST_WORDS (self.old ++ with_word word.now) }
    {
        if self.count >= MOST_WORDS {
            return;
        }
        if word.is_empty() {
            return;
        }
        self.found[self.count] = word;
        self.count += 1;
    }

    /// Replaces the words by those of the first line of a text. Looks at each byte of the line once.
    #[inline(always)]
    pub(crate) fn take(&mut self, text: &'a [u8]) -> Scanned
        ensures end { result.end ≡ line_end text.now }
        ensures words { self.new ≡ take MOST_WORDS (words_of (first_line text.now)) }
        ensures allowed { result.allowed ≡ list_all is_allowed (first_line text.now) }
    {
        self.count = 0;
        let mut allowed = true;
        let mut start = 0;
        for at in 0..text.len() {
            if is_of_word(text[at]) {
                continue;
            }
            if is_space(text[at]) {
                self.keep(&text[start..at]);
                start = at + 1;
                continue;
            }
            if text[at] == b'\n' {
                self.keep(&text[start..at]);
                return Scanned { end: at, allowed };
            }
            allowed = false;
        }
        self.keep(&text[start..]);
        Scanned {
            end: text.len(),
            allowed,
        }
    }

    pub(crate) fn len(&self) -> usize
        ensures { result ≡ length self.now }
    {
        self.count
    }

    pub(crate) fn at(&self, index: usize) -> &'a [u8]
        requires { index < length self.now }
        ensures { result.now ≡ word_at self.now index }
    {
        let found = &self.found;
        found[index]
    }

    /// Whether the word at an index is this one.
    pub(crate) fn is(&self, index: usize, word: &[u8]) -> bool
        requires { index < length self.now }
        ensures { result ≡ bytes_eq (word_at self.now index) word.now }
    {
        is_word(self.at(index), word)
    }
}
