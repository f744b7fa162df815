//! Owners of ranges: units, functions, calls and sequences.

ghost use Rattle.std.specs.Prelude.{◌≡◌, ◌+◌, ◌^◌, ◌<◌, List, [], ◌∷◌, drop, map, IfNone, IfSome, OnSome};
ghost use Rattle.linemap_meaning.specs.Conditions.{span};
ghost use Rattle.linemap_meaning.specs.TableParts.{RangePart};
ghost use Rattle.linemap_meaning.specs.TableViews.{range_part, sequence_part};

use linemap_meaning::table::{TableCall, TableFunction, TableRange, TableSequence, TableUnit};

/// What has ranges, in an order of its own.
pub trait RangeOwner {
    ghost ranges: { Self → List RangePart };

    /// The range at a place in that order.
    fn range_at(&self, index: usize) -> Option<TableRange>
        ensures found { IfSome result (λ range. drop index (ranges self.now)
            ≡ range_part range ∷ drop (index + 1) (ranges self.now)) }
        ensures none { IfNone result (drop index (ranges self.now) ≡ []) }
        ensures small { OnSome result (index + 1 < 2 ^ 64) };
}

fn range_at(ranges: &[TableRange], index: usize) -> Option<TableRange>
    ensures found { IfSome result (λ range. drop index (map range_part ranges.now)
        ≡ range_part range ∷ drop (index + 1) (map range_part ranges.now)) }
    ensures none { IfNone result (drop index (map range_part ranges.now) ≡ []) }
    ensures small { OnSome result (index + 1 < 2 ^ 64) }
{
    match ranges.get(index) {
        Some(range) => Some(TableRange {
            begin: range.begin,
            end: range.end,
        }),
        None => None,
    }
}

impl RangeOwner for TableUnit {
    ghost ranges = { λ u. map range_part u.ranges.items };

    fn range_at(&self, index: usize) -> Option<TableRange> {
        range_at(&self.ranges, index)
    }
}

impl RangeOwner for TableFunction {
    ghost ranges = { λ f. map range_part f.ranges.items };

    fn range_at(&self, index: usize) -> Option<TableRange> {
        range_at(&self.ranges, index)
    }
}

impl RangeOwner for TableCall {
    ghost use Rattle.linemap_meaning.specs.declared.table.TableCall.TheViews.{out-TableCall};

    ghost ranges = { λ c. map range_part (out-TableCall c).ranges.items };

    fn range_at(&self, index: usize) -> Option<TableRange> {
        range_at(&self.ranges, index)
    }
}

impl RangeOwner for TableSequence {
    ghost ranges = { λ s. span (sequence_part s) };

    fn range_at(&self, index: usize) -> Option<TableRange> {
        if index > 0 {
            return None;
        }
        match self.rows.first() {
            Some(row) if row.address < self.end => Some(TableRange {
                begin: row.address,
                end: self.end,
            }),
            _ => None,
        }
    }
}
