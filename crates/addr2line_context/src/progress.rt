//! How far lookups came.

ghost use Rattle.std.specs.Prelude.{◌≡◌, ◌⊎◌};
ghost use Rattle.addr2line_context.specs.Progresses.{IsIndexFor};

/// How far a lookup of an address came among the ranges of all units: up to an index, before which
/// no unit has what it looks for.
#[derive(Clone, Copy, Debug)]
pub struct Progress {
    pub probe: u64,
    pub index: usize,
}

impl Progress {
    // That of no lookup.
    pub(crate) fn none() -> Self
        ensures { result.index ≡ 0 }
    {
        Progress { probe: 0, index: 0 }
    }

    // The index from which on a lookup of an address goes on.
    pub(crate) fn index_for(self, probe: u64) -> usize
        ensures { IsIndexFor self probe result }
    {
        if self.probe == probe { self.index } else { 0 }
    }

    // The further one of two.
    pub(crate) fn furthest_for(self, other: Progress, probe: u64) -> usize
        ensures { IsIndexFor self probe result ⊎ IsIndexFor other probe result }
    {
        let here = self.index_for(probe);
        let there = other.index_for(probe);
        if here < there { there } else { here }
    }
}
