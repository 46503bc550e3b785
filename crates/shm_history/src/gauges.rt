//! A gauge shows counts without the world's lock, and only its keeper stores them. Gauge, keeper and readers'
//! seats share one cell. A reading has all four counts that the keeper stored at one moment. The events of a
//! seat's readings never decrease. A reading may be of any age.
ghost use Rattle.std.specs.Prelude.{◌≡◌, ◌≤◌, [], IfOk};
ghost use Rattle.std.specs.Arc.{arc_value};
ghost use Rattle.crossbeam_utils.specs.Seq.{cell_view};
ghost use Rattle.shm_history.specs.Gauges.{zeros, keeping, cell_words, last_of, stores, StartsWith, IsReading};

use crate::cell::{Cell, Loads, NewReader, Reading, SeatPass, Stores};
use shm_base::HostMemory;
use std::alloc::Global;
use std::marker::Model;
use std::sync::{Arc, Wait};

/// Shows the counts that its keeper stored last. It is shared by reference. Contracts see the name of its
/// cell.
pub struct Gauge {
    cell: Arc<Cell, Global>,
}

impl Drop for Gauge {
    fn drop(self) {
        let Gauge { cell: _ } = self;
    }
}

impl Model for Gauge {
    ghost use Rattle.shm_history.specs.Gauges.{CellName};

    ghost Value = { CellName };

    ghost use Rattle.std.specs.Arc.{arc_value};

    ghost view = { λ g. (arc_value g.cell).table.shared.table_id };
}

/// The only seat that stores. Contracts see the name of its cell, the counts that it stored last, and all that it
/// stored.
pub struct Keeper {
    cell: Arc<Cell, Global>,
    pass: SeatPass,
    last: Reading,
}

impl Drop for Keeper {
    fn drop(self) {
        let Keeper {
            cell: _,
            pass: _,
            last: _,
        } = self;
    }
}

impl Model for Keeper {
    ghost use Rattle.shm_history.specs.Gauges.{Seat};

    ghost Value = { Seat };

    ghost use Rattle.std.specs.Prelude.{◌≡◌};
    ghost use Rattle.std.specs.Arc.{arc_value};
    ghost use Rattle.crossbeam_utils.specs.Seq.{cell_view};
    ghost use Rattle.shm_history.specs.Gauges.{keeping};

    ghost view = { λ k. record {
      cell = k.pass.table_id;
      numbers = k.last;
      stored = (cell_view k.pass).stored;
    } };

    ghost invariant = { λ k. (k.pass.table_id ≡ (arc_value k.cell).table.shared.table_id)
        × (cell_view k.pass ≡ keeping k.last (cell_view k.pass).stored) };
}

/// A reader's seat. Contracts see the name of its cell, its last reading, and what the keeper had stored up to it.
pub struct ReaderSeat {
    pass: SeatPass,
}

impl Drop for ReaderSeat {
    fn drop(self) {
        let ReaderSeat { pass: _ } = self;
    }
}

impl Model for ReaderSeat {
    ghost use Rattle.shm_history.specs.Gauges.{Seat};

    ghost Value = { Seat };

    ghost use Rattle.std.specs.Prelude.{◌≡◌, false};
    ghost use Rattle.crossbeam_utils.specs.Seq.{cell_view};

    ghost view = { λ r. record {
      cell = r.pass.table_id;
      numbers = (cell_view r.pass).seen;
      stored = (cell_view r.pass).stored;
    } };

    ghost invariant = { λ r. (cell_view r.pass).is_keeper ≡ false };
}

impl Gauge {
    /// The counts that the keeper stored last, before or during this call. The events are at least those of
    /// the seat's earlier readings; the other counts may be lower.
    pub fn read<R: Wait>(&self, rt: &R, seat: &mut ReaderSeat) -> Reading
        requires { seat.old.cell ≡ self.now }
        ensures seen { result ≡ seat.new.numbers }
        ensures cell { seat.new.cell ≡ seat.old.cell }
        ensures bounds { IsReading result }
        ensures later { seat.old.numbers.events ≤ result.events }
        ensures last { result ≡ last_of zeros seat.new.stored }
        ensures grows { StartsWith seat.new.stored seat.old.stored }
    {
        let words = self.cell.load_as::<Loads, R>(rt, &mut seat.pass);
        Reading {
            events: words[0],
            resident: words[1],
            dirty: words[2],
            used: words[3],
        }
    }
}

impl Keeper {
    /// A gauge with a new cell of zeros, and its keeper. HostMemory: the host refused memory.
    pub(crate) fn new(alloc: Global) -> Result<(Gauge, Keeper), HostMemory>
        ensures cell { IfOk result (λ g. g.1.cell ≡ g.0) }
        ensures numbers { IfOk result (λ g. (g.1.numbers ≡ zeros) × (g.1.stored ≡ [])) }
    {
        let (cell, pass) = Cell::ruled(alloc, [0, 0, 0, 0])?;
        let cell = Arc::new(alloc, cell)?;
        let gauge = Gauge {
            cell: Arc::try_clone(&cell)?,
        };
        Ok((gauge, of(cell, pass)))
    }

    /// A reader's seat. It knows the counts that were stored last.
    pub(crate) fn split_reader(&mut self) -> ReaderSeat
        ensures keeper { self.new ≡ self.old }
        ensures seat { result ≡ self.old }
    {
        ReaderSeat {
            pass: self.cell.split_pass::<NewReader>(&mut self.pass),
        }
    }

    /// The counts that were stored last.
    pub(crate) fn last(&self) -> Reading
        ensures { result ≡ self.now.numbers }
    {
        self.last
    }

    /// Stores these counts.
    pub(crate) fn store<R: Wait>(&mut self, rt: &R, next: Reading)
        requires later { self.old.numbers.events ≤ next.events }
        requires bounds { IsReading next }
        ensures { self.new ≡ stores self.old next }
    {
        self.cell
            .swap_as::<Stores, R>(rt, &mut self.pass, words(&next));
        self.last = next;
    }
}

fn of(cell: Arc<Cell, Global>, pass: SeatPass) -> Keeper
    requires cell { pass.table_id ≡ (arc_value cell).table.shared.table_id }
    requires view { cell_view pass ≡ keeping zeros [] }
    ensures { result ≡ record { cell = pass.table_id; numbers = zeros; stored = [] } }
{
    Keeper {
        cell,
        pass,
        last: Reading {
            events: 0,
            resident: 0,
            dirty: 0,
            used: 0,
        },
    }
}

fn words(numbers: &Reading) -> [u64; 4]
    ensures { result ≡ cell_words numbers.now }
{
    [
        numbers.events,
        numbers.resident,
        numbers.dirty,
        numbers.used,
    ]
}
