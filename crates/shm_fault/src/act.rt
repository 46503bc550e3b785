//! What an access does at the bytes of its spans.
ghost use Rattle.std.specs.Prelude.{◌≡◌};
ghost use Rattle.shm_fault.specs.Acting.{size_of, writes};

/// What an access does at its bytes, once their pages are resident.
#[derive(Clone, Copy, Drop)]
pub enum Act<'a> {
    /// It leaves them.
    Nothing,
    /// It replaces them.
    Put(&'a [u8]),
    /// It replaces them if they equal the expected ones.
    PutIfEqual { expected: &'a [u8], bytes: &'a [u8] },
    /// It adds to the little-endian number in eight bytes, modulo 2^64.
    Add(u64),
}

impl<'a> Act<'a> {
    /// How many bytes it is on, if the place for the old ones has room for this many.
    #[inline(always)]
    pub fn size(&self, room: usize) -> usize
        ensures { result ≡ size_of self.now room }
    {
        match self {
            Act::Put(bytes) => bytes.len(),
            Act::Nothing | Act::PutIfEqual { .. } | Act::Add(_) => room,
        }
    }

    /// Whether it needs bytes that may be written.
    #[inline(always)]
    pub fn writes(&self) -> bool
        ensures { result ≡ writes self.now }
    {
        !matches!(self, Act::Nothing)
    }
}
