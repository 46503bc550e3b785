ghost use Rattle.std.specs.Prelude.{◌≡◌, Some};
ghost use Rattle.shm_base.specs.Codes.{code_of, name_of};

use std::fmt;
use thiserror::Error;

/// Why a call was refused, by the names and numbers of errno(3). An access that faults is refused with one of
/// the two signals (this project's profile).
#[derive(Clone, Copy, Debug, PartialEq, Eq, Error)]
pub enum Errno {
    Eperm,
    Enoent,
    Esrch,
    Eio,
    Eagain,
    Enomem,
    Eacces,
    Eexist,
    Einval,
    Emfile,
    Enospc,
    Eidrm,
    Sigbus,
    Sigsegv,
}

impl Errno {
    /// The error's number in errno(3). For a signal it is 1000 and the signal's number.
    pub fn code(self) -> u32
        ensures { result ≡ code_of self }
    {
        match self {
            Errno::Eperm => 1,
            Errno::Enoent => 2,
            Errno::Esrch => 3,
            Errno::Eio => 5,
            Errno::Eagain => 11,
            Errno::Enomem => 12,
            Errno::Eacces => 13,
            Errno::Eexist => 17,
            Errno::Einval => 22,
            Errno::Emfile => 24,
            Errno::Enospc => 28,
            Errno::Eidrm => 43,
            Errno::Sigbus => 1007,
            Errno::Sigsegv => 1011,
        }
    }

    fn name(self) -> &'static str
        ensures { result.now ≡ name_of self }
    {
        match self {
            Errno::Eperm => "EPERM",
            Errno::Enoent => "ENOENT",
            Errno::Esrch => "ESRCH",
            Errno::Eio => "EIO",
            Errno::Eagain => "EAGAIN",
            Errno::Enomem => "ENOMEM",
            Errno::Eacces => "EACCES",
            Errno::Eexist => "EEXIST",
            Errno::Einval => "EINVAL",
            Errno::Emfile => "EMFILE",
            Errno::Enospc => "ENOSPC",
            Errno::Eidrm => "EIDRM",
            Errno::Sigbus => "SIGBUS",
            Errno::Sigsegv => "SIGSEGV",
        }
    }
}

impl fmt::Display for Errno {
    ghost output = { λ e. Some (name_of e) };

    fn fmt<W: fmt::Write>(&self, f: &mut fmt::Formatter<W>) -> fmt::Result {
        f.write_str(self.name())
    }
}
