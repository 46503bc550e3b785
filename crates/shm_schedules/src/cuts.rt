//! The parts of a word or a line.
ghost use Rattle.std.specs.Prelude.{◌≡◌, ◌+◌, ◌≤◌, drop, length, take};
ghost use Rattle.shm_schedules.specs.Cuts.{is_any, past, until};

/// Whether the words of a reply are a single question mark.
pub fn is_any(words: &[u8]) -> bool
    ensures { result ≡ is_any words.now }
{
    match words {
        [] => false,
        [only] => *only == b'?',
        [_, _, ..] => false,
    }
}

// The index of the first such byte, or of the end.
fn place_of(byte: u8, bytes: &[u8]) -> usize
    ensures bound { result ≤ length bytes.now }
    ensures until { take result bytes.now ≡ until byte bytes.now }
    ensures past { drop (result + 1) bytes.now ≡ past byte bytes.now }
{
    let mut place = 0;
    while place < bytes.len() && bytes[place] != byte {
        place += 1;
    }
    place
}

/// The bytes before the first such byte.
pub fn until(byte: u8, bytes: &[u8]) -> &[u8]
    ensures { result.now ≡ until byte bytes.now }
{
    &bytes[..place_of(byte, bytes)]
}

/// The bytes after the first such byte.
pub fn past(byte: u8, bytes: &[u8]) -> &[u8]
    ensures value { result.now ≡ past byte bytes.now }
    ensures shorter { 1 ≤ length bytes.now → length result.now + 1 ≤ length bytes.now }
{
    let place = place_of(byte, bytes);
    if place == bytes.len() {
        return &[];
    }
    &bytes[place + 1..]
}
