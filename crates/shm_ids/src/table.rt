//! A table from identifiers to rows of a key and a value.
//!
//! An identifier is `index + 32768 * sequence`. The index is below 32768. The sequence, below 65536, is the
//! number of rows that were destroyed at that index before. So no identifier is used twice, and an index
//! wears out with its 65536th destruction. (This profile; Linux, ipc/util.c, reuses sequences.)
//!
//! An identifier is not stored: it follows from the place of an entry and its count of destroyed rows. The
//! entries are the indexes that were ever used, and the table grows by one at its end. It also keeps the
//! indexes that have a row or are worn out, the number of its rows, and the index of each live key other than
//! 0.
ghost use Rattle.std.specs.Prelude.{◌≡◌, ℕ, ◌+◌, ◌*◌, ◌<◌, ◌≤◌, ◌%◌, ◌==◌, pos, [], length, Option, Some, None, option_map, IfOk, IfErr, OnOk, IsOk, Ok, Err, IfSome, IsSome};
ghost use Rattle.std.specs.Borrow.{sem};

use crate::rows::Rows;
use indexmap::IndexMap;
use shm_base::{INDEXES, Numbers, SEQUENCES, ShmId, index_of};
use std::alloc::{AllocError, AllocFailed, Global};
use std::marker::Model;
use thiserror::Error;

/// Why an identifier has no row. `Removed`: its row was destroyed (EIDRM in shmctl(2)). `Invalid`: it was
/// never issued (EINVAL).
#[derive(Clone, Copy, Debug, PartialEq, Eq, Error)]
pub enum LookRefused {
    #[error("the identifier was removed")]
    Removed,
    #[error("the identifier was never issued")]
    Invalid,
}

/// A key and a value. The key is 0 if no key finds the row.
#[derive(Drop)]
pub struct Row<T> {
    pub key: u32,
    pub value: T,
}

/// One index: how many rows were destroyed there, and the row that it has now.
pub struct Entry<T> {
    pub destroyed: u32,
    pub row: Option<Row<T>>,
}

impl<T: Drop> Drop for Entry<T> {
    fn drop(self) {
        let Entry {
            destroyed: _,
            row: _,
        } = self;
    }
}

/// Rows by identifier. Contracts see the list of the entries.
pub struct IdTable<T> {
    pub(crate) entries: Vec<Entry<T>>,
    // An index is taken while it has a row, and once it is worn out.
    pub(crate) indexes: Numbers,
    // How many entries have a row.
    pub(crate) rows: usize,
    // The index of each live key other than 0.
    pub(crate) keys: IndexMap<u32, u32>,
}

impl<T: Drop> Drop for IdTable<T> {
    fn drop(self) {
        let IdTable {
            entries: _,
            indexes: _,
            rows: _,
            keys: _,
        } = self;
    }
}

impl<T> Model for IdTable<T> {
    ghost use Rattle.std.specs.Prelude.{List};
    ghost use Rattle.shm_ids.specs.declared.table.Entry.{Entry};

    ghost Value = { List (Entry T) };

    ghost use Rattle.std.specs.Prelude.{◌≡◌};
    ghost use Rattle.shm_ids.specs.Sound.{Sound};
    ghost use Rattle.shm_ids.specs.Table.{row_count};

    ghost view = { λ t. t.entries.items };

    ghost invariant = { λ t. Sound t.entries.items t.indexes t.keys × (t.rows ≡ row_count t.entries.items) };
}

ghost use Rattle.std.specs.Prelude.{◌≢◌, vec_capacity, nat_eq, nat_lt, true, ◌&&◌, not, if◌then◌else◌};
ghost use Rattle.indexmap.specs.IndexMap.{get, spare};
ghost use Rattle.shm_base.specs.Numbers.{is_taken};
ghost use Rattle.shm_ids.specs.Sound.{TakenAs};
ghost use Rattle.shm_ids.specs.Table.{free_index, find_key, look, id_at, identifier, index_of, row_inserted, with_row, with_key, without_row, entry_at, key_at, look_row};

pub(crate) fn id_of(index: usize, sequence: u32) -> ShmId
    requires index { index < 32768 }
    requires sequence { sequence < 65536 }
    ensures { result ≡ pos (identifier index sequence) }
{
    (index as u32 + INDEXES * sequence) as i32
}

// Makes room for a row at `index`.
fn room_at<T>(entries: &mut Vec<Entry<T>>, index: usize) -> Result<(), AllocError>
    ensures items { entries.new.items ≡ entries.old.items }
    ensures room { OnOk result
        (index ≡ length entries.old.items → length entries.old.items < vec_capacity entries.new) }
    ensures no_memory { index < length entries.old.items → IsOk result }
{
    if index == entries.len() {
        return entries.reserve(1);
    }
    Ok(())
}

// Makes room for a key.
fn room_for(keys: &mut IndexMap<u32, u32>, key: u32) -> Result<(), AllocError>
    ensures keys { (q : ℕ) → get nat_eq keys.new q ≡ get nat_eq keys.old q }
    ensures room { OnOk result (key ≢ 0 → 0 < spare keys.new) }
    ensures no_memory { key ≡ 0 → IsOk result }
{
    if key != 0 {
        return keys.reserve(1);
    }
    Ok(())
}

// Puts a row at a free index.
fn put_row<T: Drop>(entries: &mut Vec<Entry<T>>, index: usize, key: u32, value: T)
    requires within { index ≤ length entries.old.items }
    requires room { index ≡ length entries.old.items → length entries.old.items < vec_capacity entries.old }
    ensures items { entries.new.items ≡ with_row entries.old.items index key value }
{
    let row = Some(Row { key, value });
    if index == entries.len() {
        entries.push_reserved(Entry { destroyed: 0, row });
    } else {
        entries[index].row = row;
    }
}

// Notes the index of a key other than 0.
fn put_key(keys: &mut IndexMap<u32, u32>, key: u32, index: usize)
    requires room { key ≢ 0 → 0 < spare keys.old }
    requires small { index < 32768 }
    ensures { (q : ℕ) → get nat_eq keys.new q ≡
        (if not (nat_eq key 0) && nat_eq key q then Some index else get nat_eq keys.old q) }
{
    if key != 0 {
        let put = keys.insert(key, index as u32);
        prove!(put.is_ok());
    }
}

// Forgets a key other than 0.
fn drop_key(keys: &mut IndexMap<u32, u32>, key: u32)
    ensures { (q : ℕ) → get nat_eq keys.new q ≡
        (if not (nat_eq key 0) && nat_eq key q then None else get nat_eq keys.old q) }
{
    if key != 0 {
        keys.swap_remove(&key);
    }
}

// How many rows were destroyed at an index.
fn sequence_at<T>(entries: &Vec<Entry<T>>, index: usize) -> u32
    ensures { result ≡ (entry_at entries.now.items index).destroyed }
{
    match entries.get(index) {
        Some(entry) => entry.destroyed,
        None => 0,
    }
}

// The place of the entry to which an identifier belongs.
fn index_in(id: ShmId) -> usize
    ensures { result ≡ index_of id }
{
    index_of(id) as usize
}

// The place of the entry to which a live row's number belongs.
fn place_of(number: u32) -> usize
    ensures { result ≡ number % 32768 }
{
    (number % INDEXES) as usize
}

// Sets the key at an index to 0, and returns the old one.
fn clear_key<T>(entries: &mut Vec<Entry<T>>, index: usize) -> u32
    requires { index < length entries.old.items }
    ensures items { entries.new.items ≡ with_key entries.old.items index 0 }
    ensures key { result ≡ key_at entries.old.items index }
{
    let entry = &mut entries[index];
    match &mut entry.row {
        Some(row) => {
            let key = row.key;
            row.key = 0;
            key
        }
        None => 0,
    }
}

// Takes the row out of an index, and counts its destruction.
fn take_row<T>(entries: &mut Vec<Entry<T>>, index: usize) -> Row<T>
    requires within { index < length entries.old.items }
    requires row { IsSome (entry_at entries.old.items index).row }
    requires wear { (entry_at entries.old.items index).destroyed < 65536 }
    ensures items { entries.new.items ≡ without_row entries.old.items index }
    ensures row { (entry_at entries.old.items index).row ≡ Some result }
{
    let entry = &mut entries[index];
    entry.destroyed += 1;
    entry.row.take().unwrap()
}

// Returns an index, at which this many rows were destroyed, unless it is worn out.
fn give_back(indexes: &mut Numbers, index: u32, destroyed: u32)
    requires { is_taken indexes.old index ≡ true }
    ensures given { TakenAs indexes.old indexes.new index (nat_lt destroyed 65536) }
    ensures room { indexes.new.room ≡ indexes.old.room }
{
    if destroyed < SEQUENCES {
        indexes.give(index);
    }
}

impl<T> Entry<T> {
    ghost use Rattle.shm_ids.specs.Table.{look_entry, row_key};
    ghost use Rattle.shm_ids.specs.Lends.{lends_entry};
    ghost use Rattle.shm_ids.specs.Rows.{row_listed};
    ghost use Rattle.shm_ids.specs.Sound.{rows_in};

    fn value_mut(&mut self) -> &mut T
        requires { IsSome self.old.row }
        ensures* lends { sem 𝓛 (lends_entry T.row self.entry result) }
        ensures value { look_row self.old.row ≡ Ok result.now }
    {
        match &mut self.row {
            Some(row) => &mut row.value,
            None => unreachable!(),
        }
    }

    // The row at an index, as a listing shows it: identifier, key and value.
    fn listed(&self, index: usize) -> Option<(ShmId, u32, &T)>
        requires index { index < 32768 }
        requires wear { self.now.destroyed + rows_in self.now.row ≤ 65536 }
        ensures { option_map (λ r. (r.0, (r.1, r.2.now))) result ≡ row_listed index self.now }
    {
        match &self.row {
            Some(row) => Some((id_of(index, self.destroyed), row.key, &row.value)),
            None => None,
        }
    }

    fn look(&self, sequence: u32) -> Result<&Row<T>, LookRefused>
        ensures ok { IfOk result (λ r. look_entry sequence self.now ≡ Ok r.now.value) }
        ensures key { IfOk result (λ r. r.now.key ≡ row_key self.now.row) }
        ensures err { IfErr result (λ e. look_entry sequence self.now ≡ Err e) }
    {
        if sequence < self.destroyed {
            return Err(LookRefused::Removed);
        }
        match &self.row {
            Some(row) if sequence == self.destroyed => Ok(row),
            _ => Err(LookRefused::Invalid),
        }
    }
}

impl<T: Drop> IdTable<T> {
    ghost use Rattle.shm_ids.specs.TableLends.{lends_at};
    ghost use Rattle.shm_ids.specs.Rows.{rows_from, row_listed};
    ghost use Rattle.shm_ids.specs.Table.{row_count};

    /// An empty table. It allocates nothing until the first insert.
    pub fn new(alloc: Global) -> IdTable<T>
        ensures { result ≡ [] }
    {
        IdTable {
            entries: Vec::new(alloc),
            indexes: Numbers::new(alloc),
            rows: 0,
            keys: IndexMap::new(alloc),
        }
    }

    /// How many rows are live.
    pub fn row_count(&self) -> u64
        ensures { result ≡ row_count self.now }
    {
        self.rows as u64
    }

    /// How many indexes were ever used: at most 32768, the lowest ones.
    pub fn indexes(&self) -> u32
        ensures value { result ≡ length self.now }
        ensures few { result ≤ 32768 }
    {
        self.entries.len() as u32
    }

    /// The identifier of the next row: that of the least index that has no row and is not worn out. None if
    /// there is no such index.
    pub fn next_id(&self) -> Option<ShmId>
        ensures value { result ≡ option_map (id_at self.now) (free_index self.now) }
        ensures index { IfSome result (λ id. free_index self.now ≡ Some (index_of id)) }
    {
        let index = self.indexes.least();
        if index >= INDEXES {
            return None;
        }
        Some(id_of(index as usize, sequence_at(&self.entries, index as usize)))
    }

    /// Puts a row under the next identifier. Key 0 means that no key finds it. AllocFailed: the host refused
    /// memory, nothing changed, and the caller gets the value back. A row without a key takes no memory at an
    /// index that was used before.
    pub fn insert_at(&mut self, id: ShmId, key: u32, value: T) -> Result<(), AllocFailed<T>>
        requires next { option_map (id_at self.old) (free_index self.old) ≡ Some id }
        requires absent { find_key self.old key ≡ None }
        ensures ok { OnOk result (row_inserted self.old key value ≡ Some (id, self.new)) }
        ensures fresh { look self.old id ≡ Err LookRefused.Invalid }
        ensures few { OnOk result (length self.new ≤ 32768) }
        ensures kept { IfErr result (λ e. (e.value ≡ value) × (self.new ≡ self.old)) }
        ensures no_memory { key ≡ 0 → index_of id < length self.old → IsOk result }
    {
        let index = index_in(id);
        if self.indexes.reserve(index as u32 + 1).is_err()
            || room_at(&mut self.entries, index).is_err()
            || room_for(&mut self.keys, key).is_err()
        {
            return Err(AllocFailed { value });
        }
        put_key(&mut self.keys, key, index);
        put_row(&mut self.entries, index, key, value);
        self.indexes.take();
        self.rows += 1;
        Ok(())
    }

    /// The identifier of the live row with a key. Key 0 finds none.
    pub fn find_key(&self, key: u32) -> Option<ShmId>
        ensures value { result ≡ option_map (id_at self.now) (find_key self.now key) }
        ensures zero { key ≡ 0 → result ≡ None }
        ensures index { IfSome result (λ id. find_key self.now key ≡ Some (index_of id)) }
        ensures live { IfSome result (λ id. IsOk (look self.now id)) }
    {
        let index = *self.keys.get(&key)? as usize;
        Some(id_of(index, self.entries[index].destroyed))
    }

    /// The rows in order of their indexes: identifier, key and value.
    pub fn rows(&self) -> Rows<'_, T>
        ensures { result ≡ rows_from 0 self.now }
    {
        Rows {
            entries: &self.entries,
            index: 0,
        }
    }

    /// The row at an index: identifier, key and value.
    pub fn row_at(&self, index: usize) -> Option<(ShmId, u32, &T)>
        ensures { option_map (λ r. (r.0, (r.1, r.2.now))) result
            ≡ row_listed index (entry_at self.now index) }
    {
        match self.entries.get(index) {
            Some(entry) => entry.listed(index),
            None => None,
        }
    }

    /// The row of an identifier. `Removed`: the row was destroyed. `Invalid`: the identifier was never
    /// issued.
    pub fn row_of(&self, id: ShmId) -> Result<&Row<T>, LookRefused>
        ensures ok { IfOk result (λ r. look self.now id ≡ Ok r.now.value) }
        ensures key { IfOk result (λ r. r.now.key ≡ key_at self.now (index_of id)) }
        ensures err { IfErr result (λ e. look self.now id ≡ Err e) }
    {
        if id < 0 {
            return Err(LookRefused::Invalid);
        }
        match self.entries.get(index_in(id)) {
            Some(entry) => entry.look(id as u32 / INDEXES),
            None => Err(LookRefused::Invalid),
        }
    }

    /// The value of an identifier, with the errors of `row_of`.
    pub fn look(&self, id: ShmId) -> Result<&T, LookRefused>
        ensures ok { IfOk result (λ v. look self.now id ≡ Ok v.now) }
        ensures err { IfErr result (λ e. look self.now id ≡ Err e) }
    {
        Ok(&self.row_of(id)?.value)
    }

    /// The value of a live row, to change it.
    pub fn value_mut(&mut self, number: u32) -> &mut T
        requires live { IsOk (look self.old (pos number)) }
        ensures* lends { sem 𝓛 (lends_at T.row self.entry (number % 32768) result) }
        ensures value { look self.old (pos number) ≡ Ok result.now }
    {
        self.entries[place_of(number)].value_mut()
    }

    /// Sets a live row's key to 0, so that no key finds it any more.
    pub fn hide_key(&mut self, number: u32)
        requires live { IsOk (look self.old (pos number)) }
        ensures { self.new ≡ with_key self.old (number % 32768) 0 }
    {
        let key = clear_key(&mut self.entries, place_of(number));
        drop_key(&mut self.keys, key);
    }

    /// Destroys a live row and returns its value. Its identifier is never used again. Takes no memory.
    pub fn destroy(&mut self, number: u32) -> T
        requires live { IsOk (look self.old (pos number)) }
        ensures value { look self.old (pos number) ≡ Ok result }
        ensures after { self.new ≡ without_row self.old (number % 32768) }
    {
        let index = place_of(number);
        let row = take_row(&mut self.entries, index);
        drop_key(&mut self.keys, row.key);
        give_back(
            &mut self.indexes,
            index as u32,
            sequence_at(&self.entries, index),
        );
        self.rows -= 1;
        row.value
    }
}
