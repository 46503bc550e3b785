//! What changed a machine: the calls in order, but of stores only the last byte at each place, and with forks
//! before the stores.
ghost use Rattle.std.specs.Prelude.{◌≡◌, ◌+◌, ◌%◌, ◌^◌, ◌<◌, ◌++◌, ◌∷◌, [], IfOk, IfSome, OnOk, Some, filter, length, map};
ghost use Rattle.std.specs.Int.{to_le_bytes, w64};
ghost use Rattle.shm_outcomes.specs.declared.effects.Change.TheVariants.{Made};
ghost use Rattle.shm_outcomes.specs.Changes.{call_of, fits, is_above, is_below, is_fork, made, no_effects, effects_by, patch_by, put, put_at, puts, effects_after, write_at, wrote};

use shm_areas::Place;
use shm_base::{Call, Chunk, Event, INDEXES, Reply, Word};
use shm_schedules::{Engine, is_change};
use std::alloc::{AllocError, Global};
use std::hash::{Hash, Hasher};
use std::marker::Model;
use std::rc::Rc;

/// A byte that was written: the index of its segment, its place there, and its value.
#[derive(Clone, Copy, PartialEq, Eq, Hash)]
pub struct Write {
    pub index: u32,
    pub at: u64,
    pub byte: u8,
}

/// A call of a process.
#[derive(Clone, Copy, PartialEq, Eq)]
pub struct CallBy {
    pub pid: u32,
    pub call: Call,
}

/// A byte that was written, or a call that changed something else.
#[derive(Clone, Copy, PartialEq, Eq)]
pub enum Change {
    Wrote(Write),
    Made(CallBy),
}

/// The bytes that a call wrote from an address on.
#[derive(Clone, Copy)]
pub struct Patch {
    pub addr: u64,
    pub bytes: Chunk,
}

// The bytes, if their addresses are below 2^64.
fn fits(addr: u64, bytes: Chunk) -> Option<Patch>
    ensures value { result ≡ fits addr bytes }
    ensures within { IfSome result (λ p. p.addr + length p.bytes < 2 ^ 64) }
{
    let count = bytes.as_slice().len() as u64;
    let end = addr.checked_add(count)?;
    Some(Patch { addr, bytes })
}

// What a call that changed the machine wrote, if it changed no more than bytes.
fn patch_by(call: &Call, reply: &Reply) -> Option<Patch>
    ensures value { result ≡ patch_by call.now reply.now }
    ensures within { IfSome result (λ p. p.addr + length p.bytes < 2 ^ 64) }
{
    match (call, reply) {
        (Call::Store { addr, chunk }, _) => fits(*addr, *chunk),
        (Call::Xadd { addr, add }, Reply::Number(old)) => sum_patch(*addr, *old, *add),
        (Call::Exchange { addr, chunk }, _) => fits(*addr, *chunk),
        (Call::CompareExchange { addr, desired, .. }, _) => word_patch(*addr, desired),
        _ => None,
    }
}

fn sum_patch(addr: u64, old: u64, add: u64) -> Option<Patch>
    ensures value { result ≡ fits addr (to_le_bytes w64 ((old + add) % 2 ^ 64)) }
    ensures within { IfSome result (λ p. p.addr + length p.bytes < 2 ^ 64) }
{
    let bytes = old.wrapping_add(add).to_le_bytes();
    let chunk = Chunk::new(&bytes)?;
    fits(addr, chunk)
}

fn word_patch(addr: u64, word: &Word) -> Option<Patch>
    ensures value { result ≡ fits addr word.now }
    ensures within { IfSome result (λ p. p.addr + length p.bytes < 2 ^ 64) }
{
    let chunk = Chunk::new(word.as_slice())?;
    fits(addr, chunk)
}

fn write_at(place: &Place, byte: u8) -> Write
    ensures { result ≡ write_at place.now byte }
{
    Write {
        index: place.seg % INDEXES,
        at: place.at,
        byte,
    }
}

fn is_below(write: &Write, other: &Write) -> bool
    ensures { result ≡ is_below write.now other.now }
{
    other.index < write.index || (other.index == write.index && other.at < write.at)
}

fn is_above(write: &Write, other: &Write) -> bool
    ensures { result ≡ is_above write.now other.now }
{
    write.index < other.index || (other.index == write.index && write.at < other.at)
}

fn push_below(write: &Write, writes: &[Write], all: &mut Vec<Write>) -> Result<(), AllocError>
    ensures { OnOk result (all.new.items ≡ all.old.items ++ filter (is_below write.now) writes.now) }
{
    for other in writes {
        if is_below(write, other) {
            all.push(*other)?;
        }
    }
    Ok(())
}

fn push_above(write: &Write, writes: &[Write], all: &mut Vec<Write>) -> Result<(), AllocError>
    ensures { OnOk result (all.new.items ≡ all.old.items ++ filter (is_above write.now) writes.now) }
{
    for other in writes {
        if is_above(write, other) {
            all.push(*other)?;
        }
    }
    Ok(())
}

// The bytes in order of their places, with one more.
fn put(alloc: Global, write: &Write, writes: &[Write]) -> Result<Vec<Write>, AllocError>
    ensures { IfOk result (λ v. v.items ≡ put write.now writes.now) }
{
    let mut all = Vec::with_capacity(alloc, writes.len() + 1)?;
    push_below(write, writes, &mut all)?;
    all.push(*write)?;
    push_above(write, writes, &mut all)?;
    Ok(all)
}

fn put_at(
    alloc: Global,
    place: &Option<Place>,
    byte: u8,
    writes: Rc<Vec<Write>>,
) -> Result<Rc<Vec<Write>>, AllocError>
    ensures { IfOk result (λ v. v.value.items ≡ put_at place.now byte writes.value.items) }
{
    let Some(place) = place else {
        return Ok(writes);
    };
    let all = put(alloc, &write_at(place, byte), writes.as_ref())?;
    let shared = Rc::new(alloc, all)?;
    Ok(shared)
}

// The bytes with those that a process wrote on this machine.
fn puts<M: Engine>(
    alloc: Global,
    machine: &M,
    pid: u32,
    patch: &Patch,
    writes: &Rc<Vec<Write>>,
) -> Result<Rc<Vec<Write>>, AllocError>
    requires within { patch.now.addr + length patch.now.bytes < 2 ^ 64 }
    ensures { IfOk result (λ v.
        v.value.items ≡ puts (M.flat machine.now) pid patch.now.addr patch.now.bytes writes.now.value.items) }
{
    let mut all = writes.clone()?;
    let mut addr = patch.addr;
    for byte in patch.bytes.as_slice() {
        let place = machine.place(pid, addr);
        all = put_at(alloc, &place, *byte, all)?;
        addr += 1;
    }
    Ok(all)
}

// The call of an event.
fn call_of(event: &Event) -> CallBy
    ensures { result ≡ call_of event.now }
{
    CallBy {
        pid: event.pid,
        call: event.call,
    }
}

// The changes up to the last one that wrote no bytes, and the bytes that were written since. Effects share both,
// because many calls add none.
#[derive(Drop)]
pub(crate) struct Effects {
    past: Rc<Vec<Change>>,
    writes: Rc<Vec<Write>>,
}

impl Model for Effects {
    ghost use Rattle.shm_outcomes.specs.Changes.{Effects};

    ghost Value = { Effects };

    ghost view = { λ t. record { past = t.past.value.items; writes = t.writes.value.items } };
}

impl PartialEq for Effects {
    ghost use Rattle.std.specs.Cmp.{decided, partial_equiv_from_equiv};
    ghost use Rattle.shm_outcomes.specs.Same.{same-effects, effects_eq};

    ghost eq = { effects_eq };

    ghost laws = { partial_equiv_from_equiv (decided effects_eq same-effects) };

    fn eq(&self, other: &Effects) -> bool {
        self.writes == other.writes && self.past == other.past
    }
}

impl Eq for Effects {
    ghost use Rattle.std.specs.Cmp.{decided};
    ghost use Rattle.shm_outcomes.specs.Same.{same-effects, effects_eq};

    ghost laws = { decided effects_eq same-effects };
}

// The written bytes tell most effects apart.
impl Hash for Effects {
    ghost use Rattle.std.specs.Hash.{same_Alike};
    ghost use Rattle.shm_outcomes.specs.Same.{same-effects, effects_hash};

    ghost hash_input = { effects_hash };

    ghost respects_eq = { (same_Alike effects_hash same-effects).fed };

    fn hash<H: Hasher>(&self, state: &mut H) {
        self.writes.hash(state);
    }
}

impl Effects {
    pub(crate) fn new(alloc: Global) -> Result<Effects, AllocError>
        ensures { IfOk result (λ t. t ≡ no_effects) }
    {
        let past = Rc::new(alloc, Vec::new(alloc))?;
        let writes = Rc::new(alloc, Vec::new(alloc))?;
        Ok(Effects { past, writes })
    }

    // The bytes that were written since the last other change.
    fn writes(&self) -> &[Write]
        ensures { result.now ≡ self.now.writes }
    {
        self.writes.as_ref().as_slice()
    }

    // The same once more.
    pub(crate) fn copied(&self) -> Result<Effects, AllocError>
        ensures { IfOk result (λ t. t ≡ self.now) }
    {
        let past = self.past.clone()?;
        let writes = self.writes.clone()?;
        Ok(Effects { past, writes })
    }

    // The effects after one more call, made of this machine.
    pub(crate) fn after<M: Engine>(
        &self,
        alloc: Global,
        machine: &M,
        event: &Event,
    ) -> Result<Effects, AllocError>
        ensures { IfOk result (λ t. t ≡ effects_after (M.flat machine.now) event.now self.now) }
    {
        if !is_change(event) {
            return self.copied();
        }
        match patch_by(&event.call, &event.reply) {
            Some(patch) => self.written(alloc, machine, event, &patch),
            None => self.made(alloc, event),
        }
    }

    // The effects after a call that wrote these bytes.
    fn written<M: Engine>(
        &self,
        alloc: Global,
        machine: &M,
        event: &Event,
        patch: &Patch,
    ) -> Result<Effects, AllocError>
        requires within { patch.now.addr + length patch.now.bytes < 2 ^ 64 }
        ensures { IfOk result (λ t. t ≡ effects_by (M.flat machine.now) event.now (Some patch.now) self.now) }
    {
        let past = self.past.clone()?;
        let writes = puts(alloc, machine, event.pid, patch, &self.writes)?;
        Ok(Effects { past, writes })
    }

    // The effects after a call that changed more than bytes.
    fn made(&self, alloc: Global, event: &Event) -> Result<Effects, AllocError>
        ensures { IfOk result (λ t. t ≡ made (call_of event.now) self.now) }
    {
        if is_fork(&event.call) {
            return self.forked(alloc, event);
        }
        let mut changes = Vec::from_slice(alloc, self.past.as_ref())?;
        push_changes(self.writes(), event, &mut changes)?;
        let past = Rc::new(alloc, changes)?;
        let writes = Rc::new(alloc, Vec::new(alloc))?;
        Ok(Effects { past, writes })
    }

    // The effects after a fork.
    fn forked(&self, alloc: Global, event: &Event) -> Result<Effects, AllocError>
        ensures { IfOk result (λ t.
            t ≡ record { past = self.now.past ++ Made (call_of event.now) ∷ []; writes = self.now.writes }) }
    {
        let mut changes = Vec::from_slice(alloc, self.past.as_ref())?;
        changes.push(Change::Made(call_of(event)))?;
        let past = Rc::new(alloc, changes)?;
        let writes = self.writes.clone()?;
        Ok(Effects { past, writes })
    }
}

fn is_fork(call: &Call) -> bool
    ensures { result ≡ is_fork call.now }
{
    match call {
        Call::Fork { .. } => true,
        _ => false,
    }
}

// Appends the bytes to the changes, and then the call.
fn push_changes(writes: &[Write], event: &Event, past: &mut Vec<Change>) -> Result<(), AllocError>
    ensures { OnOk result (
        past.new.items ≡ (past.old.items ++ map wrote writes.now) ++ Made (call_of event.now) ∷ []) }
{
    for write in writes {
        past.push(Change::Wrote(*write))?;
    }
    past.push(Change::Made(call_of(event)))?;
    Ok(())
}
