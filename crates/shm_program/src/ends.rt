//! Reads the whole input, which is a script, and writes the whole output.
ghost use Rattle.std.specs.Prelude.{◌≡◌, ◌⊎◌, ◌++◌, ◌<◌, ◌≤◌, ◌+◌, ◌-◌, List, ℕ, Ok, true, length, OnErr, OnOk, IfOk, IfErr};
ghost use Rattle.std.specs.Io.KnownBytes.{Appends, Consumes, IsAtEnd};
ghost use Rattle.shm_program.specs.Runs.{IsCause, IsPart, IsReadAs, is_serial};
ghost use Rattle.shm_program.specs.Ends.{is_asked_again, is_reading};
ghost use Rattle.shm_program.specs.declared.fault.RunFault.TheVariants as faults;

use crate::fault::{RunFault, refused};
use shm_base::LONGEST_SCRIPT;
use shm_text::{Script, read_script};
use std::alloc::Global;
use std::io::{ErrorKind, Read, Write};
use thiserror::Error;

/// The most reads, including interrupted ones.
const ASKS: u32 = 2_097_152;

// The bytes of one read.
const BUFFER: usize = 4096;

// Whether to read again after this failure: only after an interruption. A reader that does not block returns
// `WouldBlock` if it has nothing yet. That counts as a failure, because reading again at once would keep a
// processor busy.
fn is_asked_again(kind: ErrorKind) -> bool
    ensures { result ≡ is_asked_again kind }
{
    kind == ErrorKind::Interrupted
}

// Appends bytes to those read before.
fn keep(input: &mut Vec<u8>, bytes: &[u8]) -> Result<(), RunFault>
    ensures kept { OnOk result (input.new.items ≡ input.old.items ++ bytes.now) }
    ensures err { IfErr result (λ f. f ≡ RunFault.HostMemory) }
{
    Ok(input.extend_from_slice(bytes)?)
}

/// Reads the whole input, up to one byte more than the longest script.
fn read_input<R: Read>(alloc: Global, reader: &mut R) -> Result<Vec<u8>, RunFault>
    ensures taken { IfOk result (λ v. Consumes (R.remaining reader.old) (R.remaining reader.new) v.items) }
    ensures whole { IfOk result (λ v. length v.items ≤ LONGEST_SCRIPT → IsAtEnd (R.remaining reader.new)) }
    ensures bound { IfOk result (λ v. length v.items ≤ LONGEST_SCRIPT + 1) }
    ensures err { IfErr result (λ f. (f ≡ RunFault.HostMemory) ⊎ (f ≡ RunFault.ReadFailed)) }
{
    let mut input = Vec::new(alloc);
    let mut buffer = [0u8; BUFFER];
    for _ in 0..ASKS {
        let room = (LONGEST_SCRIPT + 1 - input.len()).min(BUFFER);
        match reader.read(&mut buffer[..room]) {
            Ok(0) => return Ok(input),
            Ok(count) => {
                keep(&mut input, &buffer[..count])?;
                if input.len() == LONGEST_SCRIPT + 1 {
                    return Ok(input);
                }
            }
            Err(error) => {
                if !is_asked_again(error.kind()) {
                    return Err(RunFault::ReadFailed);
                }
            }
        }
    }
    Err(RunFault::ReadFailed)
}

/// The whole input as a script. Fails with the script's first fault, or if the reader failed or the host
/// refused memory.
pub fn whole_script<R: Read>(alloc: Global, reader: &mut R) -> Result<Script, RunFault>
    ensures read { IfOk result (λ script. IsReadAs (R.remaining reader.old) (Ok script)) }
    ensures whole { OnOk result (IsAtEnd (R.remaining reader.new)) }
    ensures cause { IfErr result (λ f. (areas : List ℕ) → IsCause f areas (R.remaining reader.old)) }
    ensures serial { IfErr result (λ f. is_serial f ≡ true) }
    ensures which { IfErr result (λ f. is_reading f ≡ true) }
{
    let input = read_input(alloc, reader)?;
    match read_script(alloc, &input) {
        Ok(script) => Ok(script),
        Err(refusal) => Err(refused(refusal)),
    }
}

/// The writer did not take all bytes.
#[derive(Clone, Copy, Debug, PartialEq, Eq, Error)]
#[error("write failed")]
pub struct WriteFault;

impl From<WriteFault> for RunFault {
    ghost from_gives = { λ _ r. r ≡ faults.WriteFailed };

    fn from(_e: WriteFault) -> RunFault {
        RunFault::WriteFailed
    }
}

/// Writes the bytes, each once. Any failure of the writer ends it, also an interruption or a write of no
/// byte. Then a beginning of the bytes is written, but not all of them.
pub fn write_output<W: Write>(writer: &mut W, bytes: &[u8]) -> Result<(), WriteFault>
    ensures ok { OnOk result (Appends (W.contents writer.old) (W.contents writer.new) bytes.now) }
    ensures err { OnErr result (IsPart bytes.now (W.contents writer.old) (W.contents writer.new)) }
{
    let mut rest = bytes;
    while !rest.is_empty() {
        match writer.write(rest) {
            Ok(0) => return Err(WriteFault),
            Ok(count) => rest = &rest[count..],
            Err(_) => return Err(WriteFault),
        }
    }
    Ok(())
}
