//! The entries of a transcript: kept, or of each only whether it is marked.
ghost use Rattle.std.specs.Prelude.{◌≡◌};
ghost use Rattle.std.specs.List.{list_any};
ghost use Rattle.shm_threads.specs.Entries.{is_marked};

use crate::transcript::{Answer, Entry};
use shm_base::{Call, HostMemory};
use std::alloc::Global;
use std::fmt;
use std::marker::Model;
use std::snapshot::Snapshot;

// Whether an entry is marked: the host refused memory for its call. Contracts see the entry.
#[derive(Drop)]
struct Mark {
    is_set: bool,
    entry: Snapshot<Entry>,
    ghost rule: { is_set ≡ is_marked entry.value.answer },
}

/// The entries of a transcript, in order. A transcript that does not keep them takes a byte for each. Contracts see them
/// all the same.
#[derive(Drop)]
pub struct EntryList {
    room: Snapshot<usize>,
    is_kept: bool,
    marks: Vec<Mark>,
    kept: Vec<Entry>,
}

impl Model for EntryList {
    ghost use Rattle.std.specs.Prelude.{◌≡◌, ◌≤◌, map, true, vec_capacity};
    ghost use Rattle.shm_threads.specs.Entries.{EntryListView};

    ghost Value = { EntryListView };

    ghost view = { λ e. record {
      items = map (λ m. m.entry.value) e.marks.items;
      room = e.room.value;
      is_kept = e.is_kept;
    } };

    ghost invariant = { λ e. (e.room.value ≤ vec_capacity e.marks)
        × (e.is_kept ≡ true → e.kept.items ≡ map (λ m. m.entry.value) e.marks.items)
        × (e.is_kept ≡ true → e.room.value ≤ vec_capacity e.kept) };
}

fn is_any_set(marks: &[Mark]) -> bool
    ensures { result ≡ list_any (λ m. m.is_set) marks.now }
{
    marks.iter().any(|mark| mark.is_set)
}

impl EntryList {
    ghost use Rattle.std.specs.Prelude.{◌<◌, ◌^◌, ◌++◌, ◌∷◌, [], length, is_some, IfOk, IfSome};
    ghost use Rattle.shm_threads.specs.declared.transcript.Entry.{Entry};

    /// No entries yet, with room for this many. HostMemory: the host refused memory.
    pub fn with_room(alloc: Global, room: usize, is_kept: bool) -> Result<EntryList, HostMemory>
        ensures { IfOk result (λ e. e ≡ record { items = []; room = room; is_kept = is_kept }) }
    {
        let kept = Vec::with_capacity(alloc, if is_kept { room } else { 0 })?;
        let marks = Vec::with_capacity(alloc, room)?;
        Ok(EntryList {
            room: Snapshot::of(&room),
            is_kept,
            marks,
            kept,
        })
    }

    /// How many there are.
    pub fn len(&self) -> usize
        ensures value { result ≡ length self.now.items }
        ensures bound { result < 2 ^ 63 }
    {
        self.marks.len()
    }

    /// The entries, if they are kept.
    pub fn kept(&self) -> Option<&[Entry]>
        ensures kept { is_some result ≡ self.now.is_kept }
        ensures items { IfSome result (λ es. es.now ≡ self.now.items) }
    {
        if self.is_kept {
            Some(self.kept.as_slice())
        } else {
            None
        }
    }

    /// Whether one of them is marked.
    #[tactic(auto, using(crate::proofs::Kept::marked_any))]
    pub fn has_mark(&self) -> bool
        ensures { result ≡ list_any (λ e. is_marked e.answer) self.now.items }
    {
        is_any_set(&self.marks)
    }

    #[tactic(auto, using(crate::proofs::Kept::marked_by))]
    /// Adds the entry of a call and its answer, for which there is room.
    pub fn push_reserved(&mut self, call: Call, answer: Answer)
        requires { length self.old.items < self.old.room }
        ensures { let entry : Entry = record { call = call; answer = answer } in
            self.new ≡ record self.old { items = self.old.items ++ entry ∷ [] } }
    {
        let is_set = answer.reply().is_none();
        let entry = Entry { call, answer };
        self.marks.push_reserved(Mark {
            is_set,
            entry: Snapshot::of(&entry),
        });
        if self.is_kept {
            self.kept.push_reserved(entry);
        }
    }
}

// Those that are kept.
impl fmt::Debug for EntryList {
    fn fmt<W: fmt::Write>(&self, f: &mut fmt::Formatter<W>) -> fmt::Result {
        self.kept().fmt(f)
    }
}
