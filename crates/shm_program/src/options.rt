//! The words of the command line for swap areas.
ghost use Rattle.std.specs.Prelude.{◌≡◌, ◌≤◌, ◌<◌, ◌+◌, length, take, drop, map, option_map, IfOk, IfSome};
ghost use Rattle.shm_program.specs.Options.{slots_of, place_in, area_by, fuse_by, colon, swap_of, swaps_of};
ghost use Rattle.shm_text.specs.Number.{decimal_of};

use shm_base::{MOST_AREAS, MOST_SLOTS};
use shm_text::read_decimal;
use std::alloc::{AllocError, Global};
use std::convert::AsStr;

/// A swap area: its kind, its number of slots (1 to 2^28), and for a fuse the number, from 1, of the read or
/// the write that fails.
#[derive(Clone, Copy, Debug, PartialEq, Eq)]
pub enum SwapWord {
    Ram(u32),
    Sparse(u32),
    Mirror(u32),
    FuseRead(u32, u64),
    FuseWrite(u32, u64),
}

fn slots_of(word: &[u8]) -> Option<u32>
    ensures { result ≡ slots_of word.now }
{
    let slots = read_decimal(word)?;
    if slots < 1 || slots > MOST_SLOTS as u64 {
        return None;
    }
    Some(slots as u32)
}

fn place_of(word: &[u8]) -> Option<u64>
    ensures { result ≡ place_in (decimal_of word.now) }
{
    let place = read_decimal(word)?;
    if place < 1 {
        return None;
    }
    Some(place)
}

fn area_of(kind: &[u8], slots: &[u8]) -> Option<SwapWord>
    ensures { result ≡ area_by kind.now (slots_of slots.now) }
{
    let slots = slots_of(slots)?;
    if kind == b"ram".as_slice() {
        Some(SwapWord::Ram(slots))
    } else if kind == b"sparse".as_slice() {
        Some(SwapWord::Sparse(slots))
    } else if kind == b"mirror".as_slice() {
        Some(SwapWord::Mirror(slots))
    } else {
        None
    }
}

fn fuse_of(slots: &[u8], place: &[u8]) -> Option<SwapWord>
    ensures { result ≡ fuse_by place.now (slots_of slots.now) (place_in (decimal_of (drop 1 place.now))) }
{
    let slots = slots_of(slots)?;
    let kind = *place.first()?;
    let place = place_of(behind(place, 0))?;
    match kind {
        b'r' => Some(SwapWord::FuseRead(slots, place)),
        b'w' => Some(SwapWord::FuseWrite(slots, place)),
        _ => None,
    }
}

fn colon(word: &[u8]) -> Option<usize>
    ensures value { result ≡ colon word.now }
    ensures within { IfSome result (λ i. i < length word.now) }
{
    word.iter().position(|b| *b == b':')
}

fn before(word: &[u8], end: usize) -> &[u8]
    requires { end ≤ length word.now }
    ensures { result.now ≡ take end word.now }
{
    &word[..end]
}

fn behind(word: &[u8], end: usize) -> &[u8]
    requires { end < length word.now }
    ensures { result.now ≡ drop (end + 1) word.now }
{
    &word[end + 1..]
}

// A word for a swap area: `ram:N`, `sparse:N`, `mirror:N`, `fuse:N:rK` or `fuse:N:wK`.
fn read_swap(word: &[u8]) -> Option<SwapWord>
    ensures { result ≡ swap_of word.now }
{
    let end = colon(word)?;
    let (kind, rest) = (before(word, end), behind(word, end));
    match colon(rest) {
        None => area_of(kind, rest),
        Some(end) => {
            if kind != b"fuse".as_slice() {
                return None;
            }
            fuse_of(before(rest, end), behind(rest, end))
        }
    }
}

/// The swap areas that words name, in order. Each word is `ram:N`, `sparse:N`, `mirror:N`, `fuse:N:rK` or
/// `fuse:N:wK`. None if there are not one to eight words, or if a word names no area. AllocError: the host
/// refused memory.
pub fn read_swaps<W: AsStr>(alloc: Global, words: &[W]) -> Result<Option<Vec<SwapWord>>, AllocError>
    ensures { IfOk result (λ found. option_map (λ v. v.items) found ≡ swaps_of (map W.text words.now)) }
{
    if words.is_empty() || words.len() > MOST_AREAS {
        return Ok(None);
    }
    let mut swaps = Vec::new(alloc);
    for word in words {
        match read_swap(word.as_str().as_bytes()) {
            Some(swap) => swaps.push(swap)?,
            None => return Ok(None),
        }
    }
    Ok(Some(swaps))
}
