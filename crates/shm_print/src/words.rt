//! The words of the printed lines: keys, modes, flags and marks.
ghost use Rattle.std.specs.Prelude.{Some};
ghost use Rattle.shm_print.specs.Text as text;

use bitflags::Flags;
use shm_base::{AtFlags, GetFlags, Status};
use std::fmt;

/// A key as `0x` and eight hexadecimal digits.
#[derive(Clone, Copy)]
pub(crate) struct Key(pub(crate) u32);

impl fmt::Display for Key {
    ghost output = { λ k. Some (text.key_text k.0) };

    fn fmt<W: fmt::Write>(&self, f: &mut fmt::Formatter<W>) -> fmt::Result {
        let key = self.0;
        write!(f, "0x{key:08x}")
    }
}

/// A mode as three octal digits.
#[derive(Clone, Copy)]
pub(crate) struct Octal(pub(crate) u16);

impl fmt::Display for Octal {
    ghost output = { λ m. Some (text.mode_text m.0) };

    fn fmt<W: fmt::Write>(&self, f: &mut fmt::Formatter<W>) -> fmt::Result {
        let (high, middle, low) = (self.0 / 64 % 8, self.0 / 8 % 8, self.0 % 8);
        write!(f, "{high}{middle}{low}")
    }
}

/// The flags of shmget, which follow its mode.
#[derive(Clone, Copy)]
pub(crate) struct GetWord(pub(crate) GetFlags);

impl fmt::Display for GetWord {
    ghost output = { λ w. Some (text.get_flags_text w.0) };

    fn fmt<W: fmt::Write>(&self, f: &mut fmt::Formatter<W>) -> fmt::Result {
        let creat = if self.0.contains(GetFlags::CREAT) {
            ",creat"
        } else {
            ""
        };
        let excl = if self.0.contains(GetFlags::EXCL) {
            ",excl"
        } else {
            ""
        };
        write!(f, "{creat}{excl}")
    }
}

/// The flags of shmat.
#[derive(Clone, Copy)]
pub(crate) struct AtWord(pub(crate) AtFlags);

impl fmt::Display for AtWord {
    ghost output = { λ w. Some (text.at_flags_text w.0) };

    fn fmt<W: fmt::Write>(&self, f: &mut fmt::Formatter<W>) -> fmt::Result {
        let remap = if self.0.contains(AtFlags::REMAP) {
            ",remap"
        } else {
            ""
        };
        let rdonly = if self.0.contains(AtFlags::RDONLY) {
            ",rdonly"
        } else {
            ""
        };
        if self.0.contains(AtFlags::RND) {
            write!(f, "rnd{remap}{rdonly}")
        } else if self.0.contains(AtFlags::REMAP) {
            write!(f, "remap{rdonly}")
        } else if self.0.contains(AtFlags::RDONLY) {
            f.write_str("rdonly")
        } else {
            f.write_str("-")
        }
    }
}

/// The marks of a segment.
#[derive(Clone, Copy)]
pub(crate) struct StatusWord(pub(crate) Status);

impl fmt::Display for StatusWord {
    ghost output = { λ w. Some (text.status_text w.0) };

    fn fmt<W: fmt::Write>(&self, f: &mut fmt::Formatter<W>) -> fmt::Result {
        match (
            self.0.contains(Status::DEST),
            self.0.contains(Status::LOCKED),
        ) {
            (true, true) => f.write_str("dest,locked"),
            (true, false) => f.write_str("dest"),
            (false, true) => f.write_str("locked"),
            (false, false) => f.write_str("-"),
        }
    }
}
