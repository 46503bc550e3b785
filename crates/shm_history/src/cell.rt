//! The cell of a gauge: four words that one seat stores and other seats load, without a lock. Only four kinds of
//! step exist: the cell is made together with the keeper's seat, a reader's seat is split off, a reader loads, and
//! the keeper stores.
use atomic_table::Split;
use crossbeam_utils::atomic::seq_cell::{Pass, RuledSeqCell};
use crossbeam_utils::rule::{Outcome, Protocol};
use std::collections::LinkedList;

/// Four counts of one world at one moment: events, frames in use, dirty frames, and swap slots in use.
#[derive(Clone, Copy, PartialEq, Eq, Debug)]
pub struct Reading {
    pub events: u64,
    pub resident: u64,
    pub dirty: u64,
    pub used: u64,
}

/// What a seat knows: whether it is the keeper's, four counts, and all that were stored up to them. The keeper's counts
/// are those that it stored last, a reader's those that it loaded last. The program never makes a value of this type.
pub struct SeatView {
    pub is_keeper: bool,
    pub seen: Reading,
    pub stored: LinkedList<Reading>,
}

/// The protocol of the cell, and what the keeper's seat knows first.
pub struct Gauged;

impl Protocol<[u64; 4], SeatView> for Gauged {
    ghost use Rattle.std.specs.Prelude.{[]};
    ghost use Rattle.shm_history.specs.Gauges.{IsGaugeSound, keeping, zeros};

    ghost holds = { IsGaugeSound };

    ghost first = { keeping zeros [] };
}

/// A reader's load. Afterwards its seat knows the words.
pub struct Loads;

impl Outcome<[u64; 4], SeatView> for Loads {
    ghost use Rattle.shm_history.specs.Gauges.{IsLoad};

    ghost then = { IsLoad };
}

/// The keeper's store. Afterwards its seat knows the words that it stored.
pub struct Stores;

impl Outcome<[u64; 4], SeatView> for Stores {
    ghost use Rattle.shm_history.specs.Gauges.{IsStore};

    ghost then = { IsStore };
}

/// A reader's seat, split off the keeper's. It knows what the keeper stored last.
pub struct NewReader;

impl Split<SeatView> for NewReader {
    ghost use Rattle.shm_history.specs.Gauges.{having_seen};

    ghost left = { λ v. v };

    ghost right = { λ v. having_seen v.seen v.stored };
}

pub type Cell = RuledSeqCell<[u64; 4], SeatView, Gauged, 4>;

pub type SeatPass = Pass<[u64; 4], SeatView>;
