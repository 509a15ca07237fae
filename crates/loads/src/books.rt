//! The book: loads of one kind, in order.
ghost use Rattle.std.specs.Prelude.{◌≡◌, ◌<◌, List, length, IfOk, MatchResult, vec_items};
ghost use Rattle.std.specs.List.{slice_get, flat_map};
ghost use Rattle.loads.specs.Books.{book_reads};
ghost use Rattle.loads.specs.declared.faults.Fault.TheVariants.{NoMemory};

use crate::faults::Fault;
use crate::kinds::Load;
use std::alloc::Global;
use std::marker::Model;

/// The loads that messages are taken from, all of one kind.
#[derive(Drop)]
pub struct Book<T> {
    loads: Vec<T>,
}

// A contract sees a book as its loads, in order.
impl<T> Model for Book<T> {
    ghost use Rattle.std.specs.Prelude.{List, vec_items};

    ghost Value = { List T };

    ghost view = { λ book. vec_items book.loads };
}

impl<T> Book<T> {
    /// The book of these loads.
    pub fn new(loads: Vec<T>) -> Book<T>
        ensures answer { result ≡ vec_items loads }
    {
        Book { loads }
    }
}

impl<T: Load> Book<T> {
    /// At most `count` loads, up to the first record that spells none. The only error is
    /// `NoMemory`. Open: whether there is memory for the loads, where there are any.
    pub fn read(heap: Global, count: usize, octets: &[u8]) -> Result<Book<T>, Fault>
        ensures cases { MatchResult result
            (λ book. book ≡ book_reads T.Load count octets.now)
            (λ fault. (fault ≡ NoMemory) × (0 < length (book_reads T.Load count octets.now))) }
        ensures back { (loads : List T)
            → count ≡ length loads
            → octets.now ≡ flat_map T.spelled loads
            → IfOk result (λ book. book ≡ loads) }
    {
        let mut loads = Vec::new(heap);
        let mut rest = octets;
        // not by `chunks`, whose size is above 0: an empty load has no octets
        for _ in 0..count {
            let Some(record) = rest.split_off(..T::SIZE) else {
                break;
            };
            let Ok(load) = T::read(record) else {
                break;
            };
            loads.push(load)?;
        }
        Ok(Book { loads })
    }

    /// How many loads there are.
    pub fn len(&self) -> usize
        ensures answer { result ≡ length self.now }
    {
        self.loads.len()
    }

    /// The load at a place, counted from 0; none behind the last.
    pub fn load(&self, place: usize) -> Option<T>
        ensures answer { result ≡ slice_get self.now place }
    {
        self.loads.get(place).copied()
    }
}
