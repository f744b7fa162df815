//! Lists that count each look at one of their entries. The searches are in other modules, so they
//! can't look at an entry without being counted.

ghost use Rattle.std.specs.Prelude.{◌≡◌, ◌+◌, ◌<◌, length, slice_get, Some};
ghost use Rattle.addr2line_search.specs.ProbedLists.{after_counter};

use crate::tally::{Mark, Tally};
use std::marker::Model;
use std::mem::size_of;

// None of them takes a byte.
const _: () = prove!(size_of::<Probes>() == 0);

const _: () = prove!(size_of::<Mark>() == 0);

const _: () = prove!(size_of::<Counters>() == 0);

/// How many entries of lists were looked at. It takes no bytes and has no greatest value.
#[derive(Drop)]
pub struct Probes {
    tally: Tally,
}

impl Model for Probes {
    ghost use Rattle.addr2line_search.specs.ProbedLists.{ProbeCount};

    ghost Value = { ProbeCount };

    ghost view = { λ p. record { name = p.tally.name; count = p.tally.count } };
}

impl Probes {
    /// A counter at 0.
    pub fn new() -> Self
        ensures { result.count ≡ 0 }
    {
        Probes {
            tally: Tally::new(),
        }
    }
}

/// A maker of counters that share one name, so that each of them counts looks at the lists of the
/// others. It counts those that it makes. No list and no counter leads to its maker: whoever
/// searches lists that others made can't make itself a counter for them.
#[derive(Drop)]
pub struct Counters {
    tally: Tally,
}

impl Model for Counters {
    ghost use Rattle.addr2line_search.specs.ProbedLists.{CounterMaker};

    ghost Value = { CounterMaker };

    ghost view = { λ c. record { name = c.tally.name; made = c.tally.count } };
}

impl Counters {
    /// A maker of counters with a name of their own. It has made none.
    pub fn new() -> Self
        ensures { result.made ≡ 0 }
    {
        Counters {
            tally: Tally::new(),
        }
    }

    /// One more counter, at 0.
    pub fn counter(&mut self) -> Probes
        ensures counter { result ≡ record { name = self.old.name; count = 0 } }
        ensures made { self.new ≡ after_counter self.old }
    {
        self.tally.raise();
        Probes {
            tally: Tally::named(&self.tally.mark()),
        }
    }
}

/// A list whose entries are shown by `at` alone, which counts each of them.
#[derive(Drop)]
pub struct Probed<T> {
    entries: Vec<T>,
    counter: Mark,
}

impl<T> Model for Probed<T> {
    ghost use Rattle.addr2line_search.specs.ProbedLists.{ProbedList};

    ghost Value = { ProbedList T };

    ghost view = { λ p. record { entries = p.entries.items; counter = p.counter.name } };
}

impl<T> Probed<T> {
    /// A list whose entries this counter counts.
    pub fn new(entries: Vec<T>, probes: &Probes) -> Self
        ensures { result ≡ record { entries = entries.items; counter = probes.now.name } }
    {
        Probed {
            entries,
            counter: probes.tally.mark(),
        }
    }

    /// How many entries there are.
    pub fn len(&self) -> usize
        ensures { result ≡ length self.now.entries }
    {
        self.entries.len()
    }

    /// The entry at an index, which is counted.
    pub fn at(&self, index: usize, probes: &mut Probes) -> &T
        requires counter { probes.old.name ≡ self.now.counter }
        requires within { index < length self.now.entries }
        ensures entry { slice_get self.now.entries index ≡ Some result.now }
        ensures counted { probes.new ≡ record probes.old { count = probes.old.count + 1 } }
    {
        probes.tally.raise();
        &self.entries[index]
    }
}
