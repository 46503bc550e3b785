//! What the library says about itself.
ghost use Rattle.std.specs.Prelude.{◌≡◌, option_map, slice_get};
ghost use Rattle.nogcuvema.specs.About.{text_by, with_text, layout_by, TextTold, ValueTold};

use crate::code::{DONE, OUT_OF_RANGE};
use crate::handle::Handle;
use crate::structs::{
    NogArea, NogFailure, NogFlushed, NogFrame, NogLimits, NogPiece, NogProcess, NogSegment,
    NogTally, NogUsage,
};

fn text_of(code: u32) -> Option<&'static str>
    ensures { option_map (λ s. s.now) result ≡ text_by code }
{
    match code {
        0 => Some("done"),
        1 => Some("EPERM"),
        2 => Some("ENOENT"),
        3 => Some("ESRCH"),
        5 => Some("EIO"),
        11 => Some("EAGAIN"),
        12 => Some("ENOMEM"),
        13 => Some("EACCES"),
        17 => Some("EEXIST"),
        22 => Some("EINVAL"),
        24 => Some("EMFILE"),
        28 => Some("ENOSPC"),
        43 => Some("EIDRM"),
        1007 => Some("SIGBUS"),
        1011 => Some("SIGSEGV"),
        2001 => Some("out of memory"),
        2002 => Some("no machine in the handle"),
        2003 => Some("a number that no call can carry"),
        2004 => Some("no more calls can be counted"),
        2005 => Some("a page on loan is in the way"),
        2006 => Some("fewer counts than indexes of segments"),
        2011 => Some("bad limits: SHMMAX"),
        2012 => Some("bad limits: SHMMNI"),
        2013 => Some("bad limits: SHMALL"),
        2014 => Some("bad limits: frames"),
        2015 => Some("bad limits: MEMLOCK"),
        2016 => Some("bad limits: the most pieces of a process"),
        2017 => Some("bad limits: the most processes"),
        2018 => Some("bad limits: the most slots of a swap area"),
        2019 => Some("bad limits: the rules"),
        2021 => Some("start refused: not 1 to 8 swap areas"),
        2022 => Some("start refused: a swap area without slots, or with too many"),
        2023 => Some("start refused: too many processes"),
        2024 => Some("start refused: a pid out of range, or twice"),
        2031 => Some("admission refused: a pid out of range"),
        2032 => Some("admission refused: a pid that is taken"),
        2033 => Some("admission refused: too many processes"),
        2041 => Some("dismissal refused: no process has the pid"),
        2042 => Some("dismissal refused: the process is live"),
        _ => None,
    }
}

// Writes the text, cut if it is too long, and a zero after it.
fn put_text(text: &[u8], buffer: &mut [u8])
    ensures { buffer.new ≡ with_text text.now buffer.old }
{
    let Some(most) = buffer.len().checked_sub(1) else {
        return;
    };
    let count = text.len().min(most);
    buffer[..count].copy_from_slice(&text[..count]);
    buffer[count] = 0;
}

/// The text of a code, with a zero after it, cut to one byte less than the buffer; `len` is its whole length.
/// Out of range: no code has the number.
#[unsafe(no_mangle)]
pub extern "C" fn nog_text(code: u32, text: &mut [u8], len: &mut usize) -> u32
    ensures { TextTold (text_by code) text.old len.old result text.new len.new }
{
    let Some(told) = text_of(code) else {
        return OUT_OF_RANGE;
    };
    put_text(told.as_bytes(), text);
    *len = told.len();
    DONE
}

/// The version: 10100 means 1.1.0.
#[unsafe(no_mangle)]
pub extern "C" fn nog_version() -> u32
    ensures { result ≡ 10100 }
{
    10100
}

const MACHINE: [usize; 3] = [size_of::<Handle>(), 0, 8];

const LIMITS: [usize; 10] = [size_of::<NogLimits>(), 0, 8, 16, 24, 32, 40, 48, 56, 64];

const AREA: [usize; 3] = [size_of::<NogArea>(), 0, 4];

const FAILURE: [usize; 6] = [size_of::<NogFailure>(), 0, 4, 8, 12, 16];

const PROCESS: [usize; 5] = [size_of::<NogProcess>(), 0, 4, 8, 12];

const SEGMENT: [usize; 17] = [
    size_of::<NogSegment>(),
    0,
    8,
    16,
    24,
    32,
    36,
    40,
    44,
    48,
    52,
    56,
    60,
    64,
    68,
    72,
    76,
];

const TALLY: [usize; 13] = [
    size_of::<NogTally>(),
    0,
    8,
    16,
    24,
    32,
    40,
    48,
    56,
    64,
    72,
    80,
    88,
];

const FLUSHED: [usize; 3] = [size_of::<NogFlushed>(), 0, 8];

const USAGE: [usize; 6] = [size_of::<NogUsage>(), 0, 8, 16, 24, 32];

const FRAME: [usize; 7] = [size_of::<NogFrame>(), 0, 4, 8, 12, 16, 20];

const PIECE: [usize; 8] = [size_of::<NogPiece>(), 0, 8, 12, 16, 20, 24, 28];

fn layout_of(which: u32, field: usize) -> Option<usize>
    ensures { result ≡ slice_get (layout_by which) field }
{
    let layout: &[usize] = match which {
        0 => &MACHINE,
        1 => &LIMITS,
        2 => &AREA,
        3 => &FAILURE,
        4 => &PROCESS,
        5 => &SEGMENT,
        6 => &TALLY,
        7 => &FLUSHED,
        8 => &USAGE,
        9 => &PIECE,
        10 => &FRAME,
        _ => &[],
    };
    layout.get(field).copied()
}

/// The layout of the structs as the library sees it. `which`: 0 machine, 1 limits, 2 area, 3 failure, 4
/// process, 5 segment, 6 tally, 7 flushed, 8 usage, 9 piece, 10 frame. `field`: 0 gives the size in bytes, n the offset
/// of the n-th field. Out of range: any other number.
#[unsafe(no_mangle)]
pub extern "C" fn nog_layout(which: u32, field: u32, value: &mut usize) -> u32
    ensures { ValueTold (slice_get (layout_by which) field) value.old result value.new }
{
    match layout_of(which, field as usize) {
        Some(told) => {
            *value = told;
            DONE
        }
        None => OUT_OF_RANGE,
    }
}
