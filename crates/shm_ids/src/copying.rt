//! A second table in the same state.
ghost use Rattle.std.specs.Prelude.{◌≡◌, ◌≤◌, ℕ, length, nat_lt, not, IfOk};
ghost use Rattle.shm_base.specs.Numbers.{is_taken};
ghost use Rattle.shm_ids.specs.Sound.{is_open};
ghost use Rattle.shm_ids.specs.Table.{entry_at};

use crate::table::{Entry, IdTable, Row};
use shm_base::{HostMemory, Numbers, SEQUENCES};
use std::alloc::{AllocError, Global};

// A copy of a row, if there is one.
fn copied_row<T: Copy>(row: &Option<Row<T>>) -> Option<Row<T>>
    ensures { result ≡ row.now }
{
    match row {
        Some(row) => Some(Row {
            key: row.key,
            value: row.value,
        }),
        None => None,
    }
}

// A copy of the entries.
fn copied_entries<T: Copy>(entries: &Vec<Entry<T>>) -> Result<Vec<Entry<T>>, AllocError>
    ensures { IfOk result (λ copy. copy.items ≡ entries.now.items) }
{
    let mut copy = Vec::with_capacity(*entries.allocator(), entries.len())?;
    for entry in entries {
        copy.push_reserved(Entry {
            destroyed: entry.destroyed,
            row: copied_row(&entry.row),
        });
    }
    Ok(copy)
}

// The numbers below `count` are taken.
fn taken_below(alloc: Global, count: u32) -> Result<Numbers, AllocError>
    ensures taken { IfOk result (λ numbers. (i : ℕ) → is_taken numbers i ≡ nat_lt i count) }
    ensures room { IfOk result (λ numbers. count ≤ numbers.room) }
{
    let mut numbers = Numbers::new(alloc);
    numbers.reserve(count)?;
    for _number in 0..count {
        numbers.take();
    }
    Ok(numbers)
}

// Returns the free indexes: those without a row that are not worn out.
fn give_open<T>(indexes: &mut Numbers, entries: &Vec<Entry<T>>)
    requires few { length entries.now.items ≤ 32768 }
    requires taken { (i : ℕ) → is_taken indexes.old i ≡ nat_lt i (length entries.now.items) }
    ensures taken { (i : ℕ) → is_taken indexes.new i ≡ not (is_open (entry_at entries.now.items i)) }
    ensures room { indexes.new.room ≡ indexes.old.room }
{
    for index in 0..entries.len() {
        let entry = &entries[index];
        if entry.row.is_none() && entry.destroyed < SEQUENCES {
            indexes.give(index as u32);
        }
    }
}

impl<T: Copy> IdTable<T> {
    /// A copy of the table. HostMemory: the host refused memory.
    pub fn try_clone(&self) -> Result<IdTable<T>, HostMemory>
        ensures { IfOk result (λ copy. copy ≡ self.now) }
    {
        let entries = copied_entries(&self.entries)?;
        let mut indexes = taken_below(*self.entries.allocator(), entries.len() as u32)?;
        give_open(&mut indexes, &entries);
        let keys = self.keys.clone()?;
        Ok(IdTable {
            entries,
            indexes,
            rows: self.rows,
            keys,
        })
    }
}
