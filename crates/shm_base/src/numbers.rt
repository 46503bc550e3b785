//! Numbers that are taken and returned: `take` gives the least free one of 0, 1, 2 and so on, in logarithmic
//! time.
//!
//! Only the least free number is ever taken. So the numbers that were ever taken are those below a bound, and
//! a heap keeps the free ones among them. Room in the heap is reserved before a number is taken, so returning
//! a number takes no memory and cannot fail.
ghost use Rattle.std.specs.Prelude.{◌≡◌, ◌<◌, ◌≤◌, ℕ, true, false, IsOk, OnOk};
ghost use Rattle.shm_base.specs.Numbers.{is_taken, IsLeastNumber, WithTaken, WithReturned};

use std::alloc::{AllocError, Global};
use std::cmp::Reverse;
use std::collections::BinaryHeap;
use std::marker::Model;

/// The set of taken numbers.
pub struct Numbers {
    // Numbers from this one on were never taken.
    fresh: u32,
    // The free numbers below it.
    returned: BinaryHeap<Reverse<u32>>,
    // The heap has room for the numbers below this one.
    room: u32,
}

impl Drop for Numbers {
    fn drop(self) {
        let Numbers {
            fresh: _,
            returned: _,
            room: _,
        } = self;
    }
}

impl Model for Numbers {
    ghost use Rattle.std.specs.Prelude.{◌≤◌, map};
    ghost use Rattle.std.specs.Ordering.{nat_cmp};
    ghost use Rattle.std.specs.BinaryHeap.{IsHeap, heap_items, heap_capacity};
    ghost use Rattle.shm_base.specs.Numbers.{NumbersView, AreNumbersSound};

    ghost Value = { NumbersView };

    ghost view = { λ t. record {
      fresh = t.fresh;
      returned = map (λ r. r.0) (heap_items t.returned);
      room = t.room;
    } };

    ghost invariant = { λ t.
        AreNumbersSound (record {
          fresh = t.fresh;
          returned = map (λ r. r.0) (heap_items t.returned);
          room = t.room;
        })
        × IsHeap (λ x y. nat_cmp y.0 x.0) (heap_items t.returned)
        × (t.room ≤ heap_capacity t.returned) };
}

impl Numbers {
    /// Every number is free. There is room for none.
    pub fn new(alloc: Global) -> Numbers
        ensures free { (n : ℕ) → is_taken result n ≡ false }
    {
        Numbers {
            fresh: 0,
            returned: BinaryHeap::new(alloc),
            room: 0,
        }
    }

    /// Makes room for the numbers below `room`. Takes no memory if it is there. AllocError: the host refused
    /// memory, and nothing changed.
    pub fn reserve(&mut self, room: u32) -> Result<(), AllocError>
        ensures same { (n : ℕ) → is_taken self.new n ≡ is_taken self.old n }
        ensures room { OnOk result (room ≤ self.new.room) }
        ensures kept { self.old.room ≤ self.new.room }
        ensures no_memory { room ≤ self.old.room → IsOk result }
    {
        if room > self.room {
            self.returned.reserve(room as usize - self.returned.len())?;
            self.room = room;
        }
        Ok(())
    }

    /// The least free number.
    pub fn least(&self) -> u32
        ensures { IsLeastNumber self.now result }
    {
        match self.returned.peek() {
            Some(least) => least.0,
            None => self.fresh,
        }
    }

    /// Takes the least free number, which needs room.
    pub fn take(&mut self) -> u32
        requires { (n : ℕ) → IsLeastNumber self.old n → n < self.old.room }
        ensures least { IsLeastNumber self.old result }
        ensures taken { WithTaken self.old self.new result }
        ensures room { self.new.room ≡ self.old.room }
    {
        match self.returned.pop() {
            Some(least) => least.0,
            None => {
                let first = self.fresh;
                self.fresh += 1;
                first
            }
        }
    }

    /// Returns a taken number. Takes no memory.
    pub fn give(&mut self, number: u32)
        requires { is_taken self.old number ≡ true }
        ensures given { WithReturned self.old self.new number }
        ensures room { self.new.room ≡ self.old.room }
    {
        let pushed = self.returned.push(Reverse(number));
        prove!(pushed.is_ok());
    }

    /// Returns every number. The room stays.
    pub fn clear(&mut self)
        ensures free { (n : ℕ) → is_taken self.new n ≡ false }
        ensures room { self.new.room ≡ self.old.room }
    {
        self.returned.clear();
        self.fresh = 0;
    }
}
