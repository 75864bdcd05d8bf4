//! The callers file.
ghost use Rattle.std.specs.Prelude.{◌≡◌, ◌&&◌, ◌||◌, ℕ, List, true, false, map, nat_le, is_some, Some, Ok, Err, IfOk, IfErr, OnOk};
ghost use Rattle.std.specs.BTreeMap.{Updates, get, insert_entry};
ghost use Rattle.std.specs.Cmp.Lexicographic.{slice_cmp};
ghost use Rattle.std.specs.List.{list_all};
ghost use Rattle.std.specs.List.Sorted.{IsStrictlySortedBy};
ghost use Rattle.std.specs.Map.{keys_of};
ghost use Rattle.std.specs.Ordering.{nat_cmp};
ghost use Rattle.std.specs.Str.{bytes_eq};
ghost use Rattle.csv.specs.Records.{fields_of};
ghost use Rattle.faults.specs.Refusal.{IsRefusal};
ghost use Rattle.zone_lists.specs.Fields as Spec;
ghost use Rattle.zone_lists.specs.Lists.{at_number};
ghost use Rattle.bureau_store.specs.Caller.{is_publisher};
ghost use Rattle.bureau_store.specs.Callers as Callers;
ghost use Rattle.bureau_store.specs.Gathered.{has_token, row_of};

use crate::caller::{Caller, CallerRow, Token};
use crate::fault::CallerFault;
use csv::ByteRecord;
use faults::NoMemory;
use mcs_reader::Id;
use std::alloc::Global;
use std::collections::{BTreeMap, BTreeSet};
use zone_lists::{Entries, ListFault, are_names, read_list, two_fields};

/// The most records that a callers file may have after its header.
pub const CALLER_RECORDS: u32 = 10_000;

/// The callers of a file of which the header is `NAME,TOKEN` and each record an id and a token of 8 to
/// 64 bytes of `A-Z a-z 0-9 - . _ ~`: ascending by name. The one with the name `PUBLISH` is the publisher.
///
/// # Errors
///
/// The first fault of the file: `CallerHeader`; by record `BadCaller` if it has not two fields, if they are no name and
/// no token, if the name or the token came before, and at record [`CALLER_RECORDS`] + 1; `NoPublisher`. `Memory` may
/// come in place of any answer.
pub fn callers(alloc: Global, text: &[u8]) -> Result<Vec<CallerRow>, CallerFault>
    ensures rows { IfOk result (λ rows. Callers.callers_of text.now ≡ Ok rows.items) }
    ensures fault { IfErr result (IsRefusal CallerFault.Memory
        (λ fault. Callers.callers_of text.now ≡ Err fault)) }
    ensures ascending { IfOk result (λ rows.
        IsStrictlySortedBy (slice_cmp nat_cmp) (map (λ row. row.name) rows.items)) }
    ensures publisher { IfOk result (λ rows. Callers.has_publisher rows.items ≡ true) }
{
    let list: Gathered = read_list(alloc, text)?;
    let rows = rows_of(alloc, list.names)?;
    if !has_publisher(&rows) {
        return Err(CallerFault::NoPublisher);
    }
    Ok(rows)
}

// The entries of a map as rows.
fn rows_of(alloc: Global, names: BTreeMap<Id, Token>) -> Result<Vec<CallerRow>, NoMemory>
    ensures rows { IfOk result (λ rows. rows.items ≡ map row_of names.entries) }
    ensures ascending { OnOk result (IsStrictlySortedBy (slice_cmp nat_cmp) (keys_of names.entries)) }
{
    names
        .into_iter()
        .map(|(name, token)| CallerRow { name, token })
        .collect(alloc)
}

fn has_publisher(rows: &[CallerRow]) -> bool
    ensures { result ≡ Callers.has_publisher rows.now }
{
    rows.iter().any(|row| is_publisher(&row.name))
}

// Whether a name is the publisher's.
pub(crate) fn is_publisher(name: &Id) -> bool
    ensures { result ≡ is_publisher name.now }
{
    match Id::new(Caller::Publisher.name()) {
        Some(publisher) => *name == publisher,
        None => false,
    }
}

// The callers that were read so far: tokens by name, and all tokens.
#[derive(Drop)]
struct Gathered {
    alloc: Global,
    names: BTreeMap<Id, Token>,
    tokens: BTreeSet<Vec<u8>>,
}

impl Entries for Gathered {
    ghost use Rattle.bureau_store.specs.Callers.{caller_list};
    ghost use Rattle.bureau_store.specs.Gathered.{HasCallers};

    type Entry = CallerRow;

    ghost kind = { caller_list };

    ghost Has = { λ list rows. HasCallers (λ text. text.items) list.names.entries list.tokens.keys rows };

    fn limit() -> u32 {
        CALLER_RECORDS
    }

    fn is_header(row: &ByteRecord) -> bool {
        are_names(row, b"NAME", b"TOKEN")
    }

    fn new(alloc: Global) -> Self {
        Gathered {
            alloc,
            names: BTreeMap::new(alloc),
            tokens: BTreeSet::new(alloc),
        }
    }

    fn add(&mut self, row: &ByteRecord, n: u32) -> Result<(), ListFault> {
        let caller = caller_row(self.alloc, row, n)?;
        put_caller(&mut self.names, &mut self.tokens, caller, n)?;
        Ok(())
    }
}

// Adds a caller, unless its name or its token came before.
fn put_caller(
    names: &mut BTreeMap<Id, Token>,
    tokens: &mut BTreeSet<Vec<u8>>,
    caller: CallerRow,
    n: u32,
) -> Result<(), ListFault>
    ensures names { OnOk result (names.new.entries
        ≡ insert_entry (slice_cmp nat_cmp) names.old.entries caller.name caller.token) }
    ensures named { OnOk result
        (Updates (slice_cmp nat_cmp) names.old names.new caller.name (Some caller.token)) }
    ensures tokens { OnOk result ((token : List ℕ) → has_token (λ text. text.items) tokens.new.keys token
        ≡ (bytes_eq token caller.token || has_token (λ text. text.items) tokens.old.keys token)) }
    ensures first { OnOk result ((is_some (get (slice_cmp nat_cmp) names.old caller.name)
        || has_token (λ text. text.items) tokens.old.keys caller.token) ≡ false) }
    ensures repeated { IfErr result (IsRefusal ListFault.Memory (λ fault. (fault ≡ ListFault.Repeated n)
        × ((is_some (get (slice_cmp nat_cmp) names.old caller.name)
        || has_token (λ text. text.items) tokens.old.keys caller.token) ≡ true))) }
{
    if came_before(names, tokens, &caller) {
        return Err(ListFault::Repeated(n));
    }
    tokens.insert(caller.token.copy()?.into_vec())?;
    names.insert(caller.name, caller.token)?;
    Ok(())
}

// Whether the name or the token of a caller came before.
fn came_before(names: &BTreeMap<Id, Token>, tokens: &BTreeSet<Vec<u8>>, caller: &CallerRow) -> bool
    ensures { result ≡ (is_some (get (slice_cmp nat_cmp) names.now caller.now.name)
        || has_token (λ text. text.items) tokens.now.keys caller.now.token) }
{
    names.contains_key(&caller.name) || tokens.contains(caller.token.as_bytes())
}

// The caller that a record stands for by itself.
fn caller_row(alloc: Global, row: &ByteRecord, n: u32) -> Result<CallerRow, ListFault>
    ensures made { IfOk result (λ row_of_it.
        at_number n (Callers.caller_fields (Spec.two_fields (fields_of row.now))) ≡ Ok row_of_it) }
    ensures fault { IfErr result (IsRefusal ListFault.Memory (λ fault.
        at_number n (Callers.caller_fields (Spec.two_fields (fields_of row.now))) ≡ Err fault)) }
{
    let Some((name, token)) = two_fields(row) else {
        return Err(ListFault::BadRecord(n));
    };
    let Some(name) = Id::new(name) else {
        return Err(ListFault::BadRecord(n));
    };
    if !is_token(token) {
        return Err(ListFault::BadRecord(n));
    }
    let token = Token::new(Vec::from_slice(alloc, token)?);
    Ok(CallerRow { name, token })
}

fn is_token(text: &[u8]) -> bool
    ensures { result ≡ Callers.is_token text.now }
{
    is_token_length(text.len()) && are_token_bytes(text)
}

fn is_token_length(length: usize) -> bool
    ensures { result ≡ (nat_le 8 length && nat_le length 64) }
{
    length >= 8 && length <= 64
}

fn are_token_bytes(text: &[u8]) -> bool
    ensures { result ≡ list_all Callers.is_token_byte text.now }
{
    text.iter().all(|b| is_token_byte(*b))
}

fn is_token_byte(b: u8) -> bool
    ensures { result ≡ Callers.is_token_byte b }
{
    matches!(b, b'A'..=b'Z' | b'a'..=b'z' | b'0'..=b'9' | b'-' | b'.' | b'_' | b'~')
}
