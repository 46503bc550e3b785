//! The rows of a table, in order of their indexes.
ghost use Rattle.std.specs.Iterator.{YieldsFirstBy, item_count};

use crate::table::{Entry, id_of};
use shm_base::ShmId;
use std::marker::Model;

/// An iterator over the identifiers, keys and values of a table. Contracts see the list of those that are
/// left.
#[derive(Drop)]
pub struct Rows<'a, T> {
    pub(crate) entries: &'a [Entry<T>],
    // The index of the first of `entries`.
    pub(crate) index: usize,
}

impl<'a, T> Model for Rows<'a, T> {
    ghost use Rattle.std.specs.Prelude.{ℕ, ℤ, List};

    ghost Value = { List (ℤ × (ℕ × T)) };

    ghost use Rattle.shm_ids.specs.Rows.{rows_from};
    ghost use Rattle.shm_ids.specs.Sound.{HaveIdentifiers};

    ghost view = { λ r. rows_from r.index r.entries.now };

    ghost invariant = { λ r. HaveIdentifiers r.index r.entries.now };
}

impl<'a, T> Iterator for Rows<'a, T> {
    type Item = (ShmId, u32, &'a T);

    ghost next_gives = { YieldsFirstBy (λ item. (item.0, (item.1, item.2.now))) (λ rest. rest) };

    ghost remaining = { item_count (λ rest. rest) };

    fn next(&mut self) -> Option<(ShmId, u32, &'a T)> {
        while let Some((entry, rest)) = self.entries.split_first() {
            let index = self.index;
            self.entries = rest;
            self.index += 1;
            if let Some(row) = &entry.row {
                return Some((id_of(index, entry.destroyed), row.key, &row.value));
            }
        }
        None
    }
}
