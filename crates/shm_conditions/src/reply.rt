//! Whether a word is one of a reply.
ghost use Rattle.std.specs.Prelude.{◌≡◌, [], IfOk};
ghost use Rattle.std.specs.Str.{bytes_eq};
ghost use Rattle.shm_conditions.specs.Conditions.{fits, has_word_from};

use shm_base::Reply;
use shm_schedules::{is_any, is_refusal, reply_words};
use std::alloc::{AllocError, Global};

fn is_same(word: &[u8], other: &[u8]) -> bool
    ensures { result ≡ bytes_eq word.now other.now }
{
    word == other
}

// Whether the word is one of a text's words.
fn has_word(alloc: Global, word: &[u8], text: &[u8]) -> Result<bool, AllocError>
    ensures { IfOk result (λ r. r ≡ has_word_from word.now [] text.now) }
{
    let mut begun = Vec::new(alloc);
    for byte in text {
        if *byte != b' ' {
            begun.push(*byte)?;
            continue;
        }
        if is_same(&begun, word) {
            return Ok(true);
        }
        begun = Vec::new(alloc);
    }
    Ok(is_same(&begun, word))
}

/// Whether the word is one of the printed reply. A question mark stands for any reply that is not an error.
pub(crate) fn fits(alloc: Global, word: &[u8], reply: &Reply) -> Result<bool, AllocError>
    ensures { IfOk result (λ r. r ≡ fits word.now reply.now) }
{
    if is_any(word) {
        return Ok(!is_refusal(reply));
    }
    let text = reply_words(alloc, reply)?;
    has_word(alloc, word, text.as_bytes())
}
