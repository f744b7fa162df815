//! The entries that an entry below a function is in: calls, and maybe a nested function.

ghost use Rattle.std.specs.Prelude.{◌≡◌, reverse};
ghost use Rattle.gimli_units_entries.specs.Calls.{ReturnsAsOrNoMemory};
ghost use Rattle.addr2line_functions.specs.EntryRowViews.{is_chosen};
ghost use Rattle.addr2line_functions.specs.CallNesting.{no_nesting, leave, shallower, if_shallower, nearest, skip_inside, enter, is_call_where};

use gimli_units_entries::{
    DW_TAG_inlined_subroutine, DW_TAG_subprogram, DwTag, EntriesRaw, Error, Reader,
};
use std::alloc::Global;
use std::marker::Model;

// The depths of the calls that an entry is in, the outermost first, and of the nested function
// that it is in, if it is in one.
#[derive(Drop)]
pub(crate) struct Nesting {
    calls: Vec<isize>,
    nested: Option<isize>,
}

impl Model for Nesting {
    ghost use Rattle.std.specs.Prelude.{reverse};
    ghost use Rattle.addr2line_functions.specs.CallNesting.{Nesting as NestingPart};

    ghost Value = { NestingPart };

    ghost view = { λ o. record { calls = reverse o.calls.items; nested = o.nested } };
}

// Drops the last depths that aren't below one.
fn drop_deeper(calls: &mut Vec<isize>, depth: isize)
    ensures { reverse calls.new.items ≡ shallower depth (reverse calls.old.items) }
{
    while let Some(last) = calls.last() {
        if *last < depth {
            return;
        }
        let _last = calls.pop();
    }
}

// A depth, if it is below another.
fn if_shallower(nested: Option<isize>, depth: isize) -> Option<isize>
    ensures { result ≡ if_shallower depth nested }
{
    match nested {
        Some(nested) if nested < depth => Some(nested),
        _ => None,
    }
}

// The last of these depths, or else 0.
fn last_or_0(calls: &[isize]) -> isize
    ensures { result ≡ nearest (reverse calls.now) }
{
    match calls {
        [.., last] => *last,
        [] => 0,
    }
}

impl Nesting {
    // Of an entry that is in neither. It takes no memory.
    pub(crate) fn new(alloc: Global) -> Self
        ensures { result ≡ no_nesting }
    {
        Nesting {
            calls: Vec::new(alloc),
            nested: None,
        }
    }

    // Leaves the calls and the nested function that an entry of a depth isn't in.
    pub(crate) fn leave(&mut self, depth: isize)
        ensures { self.new ≡ leave depth self.old }
    {
        drop_deeper(&mut self.calls, depth);
        self.nested = if_shallower(self.nested, depth);
    }

    // Skips entries up to one that the entries after it may be in, or, in a nested function, up to
    // the function's end.
    pub(crate) fn skip_inside<R: Reader>(&self, entries: &mut EntriesRaw<'_, R>)
        ensures { entries.new ≡ skip_inside self.now entries.old }
    {
        match self.nested {
            Some(depth) => entries.skip_others(&[], depth),
            None => entries.skip_others(
                &[DW_TAG_inlined_subroutine, DW_TAG_subprogram],
                last_or_0(&self.calls),
            ),
        }
    }

    // The tag of the entries that are read here: of calls, unless they are in a nested function.
    pub(crate) fn read_tag(&self) -> Option<DwTag>
        ensures { is_chosen result ≡ is_call_where self.now }
    {
        match self.nested {
            Some(_) => None,
            None => Some(DW_TAG_inlined_subroutine),
        }
    }

    // Enters an entry. Returns how many calls it is in, if it is a call and not in a nested
    // function.
    pub(crate) fn enter(&mut self, tag: DwTag, depth: isize) -> Result<Option<usize>, Error>
        ensures { ReturnsAsOrNoMemory (λ d. (d, self.new)) result (enter tag.0 depth self.old) }
    {
        if self.nested.is_some() {
            return Ok(None);
        }
        if tag == DW_TAG_subprogram {
            self.nested = Some(depth);
            return Ok(None);
        }
        if tag != DW_TAG_inlined_subroutine {
            return Ok(None);
        }
        let count = self.calls.len();
        self.calls.push(depth)?;
        Ok(Some(count))
    }
}
