//! The fix categories that a client asks for.
ghost use Rattle.std.specs.Prelude.{◌≡◌, Ok, Err, IfOk, IfErr};
ghost use Rattle.std.specs.Cmp.Lexicographic.{slice_cmp};
ghost use Rattle.std.specs.List.Sorted.{IsStrictlySortedBy};
ghost use Rattle.std.specs.Ordering.{nat_cmp};
ghost use Rattle.csv.specs.Records.{fields_of};
ghost use Rattle.faults.specs.Refusal.{IsRefusal};
ghost use Rattle.zone_lists.specs.Fields as Spec;
ghost use Rattle.zone_lists.specs.FirstFault.{IsFirstFault};
ghost use Rattle.zone_lists.specs.Lists.{HasEach, at_number, records_of};
ghost use Rattle.zone_lists.specs.PatternList.{IsPatternFault, pattern_field, pattern_list, patterns_of};

use crate::fault::ListFault;
use crate::fields::{is_name, one_field};
use crate::list::{Entries, read_list};
use crate::pattern::Pattern;
use csv::ByteRecord;
use std::alloc::Global;
use std::collections::BTreeSet;

/// The most records that a list of patterns may have after its header.
pub const PATTERN_RECORDS: u32 = 64;

/// Reads the patterns of a list whose header is `CATEGORY` and each record a pattern: ascending by their
/// bytes, each once.
///
/// # Errors
///
/// The first fault of the list. Of the faults of one record, the first in this order: `TooMany` at record
/// [`PATTERN_RECORDS`] + 1, `BadRecord` if it has not one field, `BadPattern`. `Header` comes before all
/// others. `Memory` may come in place of any answer.
#[tactic(auto, using(crate::proofs::KeyFacts::each_pattern, crate::proofs::OwnFaultFacts::first_of_patterns))]
pub fn patterns(alloc: Global, text: &[u8]) -> Result<Vec<Pattern>, ListFault>
    ensures rows { IfOk result (λ patterns. patterns_of text.now ≡ Ok patterns.items) }
    ensures fault { IfErr result (IsRefusal ListFault.Memory (λ fault. patterns_of text.now ≡ Err fault)) }
    ensures ascending { IfOk result (λ patterns. IsStrictlySortedBy (slice_cmp nat_cmp) patterns.items) }
    ensures each { IfOk result (λ patterns. HasEach pattern_list text.now patterns.items) }
    ensures first { IfErr result (IsRefusal ListFault.Memory
        (IsFirstFault pattern_list IsPatternFault (records_of text.now))) }
{
    let list: PatternSet = read_list(alloc, text)?;
    let rows = list.patterns.into_iter().collect(alloc)?;
    Ok(rows)
}

// The patterns that were read so far.
#[derive(Drop)]
struct PatternSet {
    alloc: Global,
    patterns: BTreeSet<Pattern>,
}

impl Entries for PatternSet {
    ghost use Rattle.std.specs.Prelude.{◌≡◌};
    ghost use Rattle.zone_lists.specs.Lists.{in_order};
    ghost use Rattle.zone_lists.specs.PatternList.{pattern_list};

    type Entry = Pattern;

    ghost kind = { pattern_list };

    ghost Has = { λ list patterns. list.patterns.keys ≡ in_order pattern_list patterns };

    fn limit() -> u32 {
        PATTERN_RECORDS
    }

    fn is_header(row: &ByteRecord) -> bool {
        is_name(row, b"CATEGORY")
    }

    fn new(alloc: Global) -> Self {
        PatternSet {
            alloc,
            patterns: BTreeSet::new(alloc),
        }
    }

    fn add(&mut self, row: &ByteRecord, n: u32) -> Result<(), ListFault> {
        let pattern = pattern_at(self.alloc, row, n)?;
        self.patterns.insert(pattern)?;
        Ok(())
    }
}

// The pattern that a record stands for by itself.
fn pattern_at(alloc: Global, row: &ByteRecord, n: u32) -> Result<Pattern, ListFault>
    ensures made { IfOk result
        (λ pattern. at_number n (pattern_field (Spec.one_field (fields_of row.now))) ≡ Ok pattern) }
    ensures fault { IfErr result (IsRefusal ListFault.Memory
        (λ fault. at_number n (pattern_field (Spec.one_field (fields_of row.now))) ≡ Err fault)) }
{
    let Some(field) = one_field(row) else {
        return Err(ListFault::BadRecord(n));
    };
    let Some(pattern) = Pattern::new(alloc, field)? else {
        return Err(ListFault::BadPattern(n));
    };
    Ok(pattern)
}
