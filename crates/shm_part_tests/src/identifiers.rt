use shm_ids::{IdTable, LookRefused};
use std::alloc::Global;
use std::process::Abort;

/// A row of a table: its identifier, its key and its value.
type Row = (i32, u32, u8);

/// A change of a table or a question about it, with the expected answer.
enum Act {
    /// Inserts a value under a key, 0 for none, and expects this identifier.
    Put(u32, u8, i32),
    /// No index is free.
    Full,
    /// Destroys a live row.
    Destroy(i32),
    /// The value of an identifier.
    Look(i32, Result<u8, LookRefused>),
    /// Writes the value of an identifier.
    Write(i32, u8),
    /// The identifier that a key finds, and the key of an identifier.
    FindKey(u32, Option<i32>),
    KeyOf(i32, u32),
    /// Hides the key of an identifier.
    HideKey(i32),
    /// The number of rows.
    Count(u64),
    /// The row at an index.
    RowAt(usize, Option<Row>),
    /// All rows, in order of their indexes.
    Rows(&'static [Row]),
}

/// Inserts a value under a key that no row has. Returns its identifier, or none if no index is free.
fn put(table: &mut IdTable<u8>, key: u32, value: u8) -> Option<i32> {
    if table.find_key(key).is_some() {
        return None;
    }
    let id = table.next_id()?;
    table.insert_at(id, key, value).ok()?;
    Some(id)
}

/// Destroys a row. Returns whether it was live.
fn destroy(table: &mut IdTable<u8>, id: i32) -> bool {
    let live = table.look(id).is_ok();
    if live {
        table.destroy(id as u32);
    }
    live
}

/// Writes a value. Returns whether its row is live.
fn write(table: &mut IdTable<u8>, id: i32, value: u8) -> bool {
    let live = table.look(id).is_ok();
    if live {
        *table.value_mut(id as u32) = value;
    }
    live
}

/// Hides a key. Returns whether its row is live.
fn hide_key(table: &mut IdTable<u8>, id: i32) -> bool {
    let live = table.look(id).is_ok();
    if live {
        table.hide_key(id as u32);
    }
    live
}

/// Whether the table has exactly these rows.
fn has_rows(table: &IdTable<u8>, wanted: &[Row]) -> bool {
    let mut rows = table.rows();
    for row in wanted {
        if rows.next() != Some((row.0, row.1, &row.2)) {
            return false;
        }
    }
    rows.next().is_none()
}

fn row_at(table: &IdTable<u8>, index: usize) -> Option<Row> {
    let (id, key, value) = table.row_at(index)?;
    Some((id, key, *value))
}

/// Performs an act, and returns whether its answer is the expected one.
fn answers(table: &mut IdTable<u8>, act: &Act) -> bool {
    match *act {
        Act::Put(key, value, id) => put(table, key, value) == Some(id),
        Act::Full => table.next_id().is_none(),
        Act::Destroy(id) => destroy(table, id),
        Act::Look(id, value) => table.look(id).copied() == value,
        Act::Write(id, value) => write(table, id, value),
        Act::FindKey(key, id) => table.find_key(key) == id,
        Act::KeyOf(id, key) => table.row_of(id).is_ok_and(|row| row.key == key),
        Act::HideKey(id) => hide_key(table, id),
        Act::Count(count) => table.row_count() == count,
        Act::RowAt(index, row) => row_at(table, index) == row,
        Act::Rows(rows) => has_rows(table, rows),
    }
}

/// Checks the acts in order. A message counts the rows from 0.
fn answers_all(rt: &impl Abort, table: &mut IdTable<u8>, name: &str, acts: &[Act]) {
    for (row, act) in acts.iter().enumerate() {
        assert!(rt; answers(table, act), "{name}, at row {row}");
    }
}

/// As `answers_all`, in a table without rows.
fn in_a_table(rt: &impl Abort, alloc: Global, name: &str, acts: &[Act]) {
    let mut table: IdTable<u8> = IdTable::new(alloc);
    answers_all(rt, &mut table, name, acts);
}

const DESTROYED: &[Act] = &[
    Act::Put(0, 5, 0),
    Act::Destroy(0),
    Act::Put(0, 6, 32768),
    Act::Look(0, Err(LookRefused::Removed)),
    Act::Look(7, Err(LookRefused::Invalid)),
    Act::Look(65536, Err(LookRefused::Invalid)),
    Act::Look(-1, Err(LookRefused::Invalid)),
    Act::Look(32768, Ok(6)),
    Act::Put(0, 7, 1),
    Act::Count(2),
];

const WORN_OUT: &[Act] = &[
    Act::Put(0, 2, 1),
    Act::Look(2147450880, Err(LookRefused::Removed)),
];

fn wears_out(rt: &impl Abort, table: &mut IdTable<u8>) {
    for round in 0..65536u32 {
        let id = (round * 32768) as i32;
        assert!(rt; put(table, 0, 1) == Some(id), "at {id}");
        assert!(rt; destroy(table, id), "at {id}");
    }
    answers_all(rt, table, "worn out", WORN_OUT);
}

#[test]
fn an_index_wears_out(rt: HostRuntime) {
    let mut table: IdTable<u8> = IdTable::new(rt.alloc());
    wears_out(&rt, &mut table);
}

const FULL: &[Act] = &[Act::Full];

fn takes_all(rt: &impl Abort, table: &mut IdTable<u8>) {
    for index in 0..32768i32 {
        assert!(rt; put(table, 0, 3) == Some(index), "at {index}");
    }
    answers_all(rt, table, "full", FULL);
}

#[test]
fn all_indexes_are_taken(rt: HostRuntime) {
    let mut table: IdTable<u8> = IdTable::new(rt.alloc());
    takes_all(&rt, &mut table);
}

const KEYS: &[Act] = &[
    Act::Put(42, 5, 0),
    Act::Put(0, 6, 1),
    Act::FindKey(42, Some(0)),
    Act::FindKey(0, None),
    Act::KeyOf(0, 42),
    Act::Write(0, 8),
    Act::Look(0, Ok(8)),
    Act::HideKey(0),
    Act::FindKey(42, None),
    Act::Put(42, 7, 2),
    Act::FindKey(42, Some(2)),
    Act::Destroy(2),
    Act::FindKey(42, None),
];

const ROWS: &[Act] = &[
    Act::Put(42, 5, 0),
    Act::Put(0, 6, 1),
    Act::Put(0, 7, 2),
    Act::Destroy(1),
    Act::Rows(&[(0, 42, 5), (2, 0, 7)]),
    Act::RowAt(0, Some((0, 42, 5))),
    Act::RowAt(1, None),
    Act::RowAt(3, None),
];

const TRIALS: &[(&str, &[Act])] = &[
    ("a destroyed identifier never comes again", DESTROYED),
    ("keys", KEYS),
    ("rows by rising index", ROWS),
];

#[test]
fn a_table_answers_as_stated(rt: HostRuntime) {
    for (name, acts) in TRIALS {
        in_a_table(&rt, rt.alloc(), name, acts);
    }
}
