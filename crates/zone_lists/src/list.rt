//! Reading a list, of whatever kind.
ghost use Rattle.std.specs.Prelude.{◌≡◌, ◌+◌, List, [], ◌∷◌, ◌++◌, Some, Ok, Err, IfOk, IfErr, OnOk};
ghost use Rattle.csv.specs.Records.{fields_of};
ghost use Rattle.faults.specs.Refusal.{IsRefusal};
ghost use Rattle.zone_lists.specs.Lists as Spec;

use crate::fault::ListFault;
use crate::records::Records;
use csv::ByteRecord;
use std::alloc::Global;

/// The entries of one kind of list, gathered from its records one after another.
pub trait Entries: Drop {
    /// The entry that a record stands for.
    type Entry;

    /// The kind of list.
    ghost kind: { Spec.ListKind Self.Entry };

    /// These entries were gathered so far, in the order in which they came.
    ghost Has: { Self → List Self.Entry → Type 0 };

    /// The most records that a list may have after its header.
    fn limit() -> u32
        ensures { result ≡ kind.limit };

    /// Whether a record is the header.
    fn is_header(row: &ByteRecord) -> bool
        ensures { result ≡ kind.is_header (fields_of row.now) };

    /// No entries yet.
    fn new(alloc: Global) -> Self
        ensures { Has result [] };

    /// Adds the entry that a record stands for.
    ///
    /// # Errors
    ///
    /// The fault of the record by itself, with its number `n`; `Repeated` if its entry contradicts an
    /// earlier one; `Memory`. After an error what was gathered is of no use.
    fn add(&mut self, row: &ByteRecord, n: u32) -> Result<(), ListFault>
        ensures added { OnOk result ((earlier : List Self.Entry) → Has self.old earlier
            → (entry : Self.Entry) × Spec.StandsAfter kind earlier (fields_of row.now) entry
            × Has self.new (earlier ++ entry ∷ [])) }
        ensures fault { IfErr result (IsRefusal ListFault.Memory
            (λ fault. (earlier : List Self.Entry) → Has self.old earlier
            → Spec.own_fault kind n earlier (kind.entry (fields_of row.now)) ≡ Some fault)) };
}

/// Reads the entries of a list.
///
/// # Errors
///
/// The first fault of the list: `Header`; then by record, and in a record in this order, `TooMany` past
/// the limit, its fault by itself, `Repeated`. `Memory` may come in place of any answer.
pub fn read_list<E: Entries>(alloc: Global, text: &[u8]) -> Result<E, ListFault>
    ensures entries { IfOk result (λ list. (all : List E.Entry) × E.Has list all
        × (Spec.answer E.kind (Spec.records_of text.now) ≡ Ok (Spec.in_order E.kind all))) }
    ensures fault { IfErr result (IsRefusal ListFault.Memory
        (λ fault. Spec.answer E.kind (Spec.records_of text.now) ≡ Err fault)) }
{
    let mut records = Records::new(alloc, text);
    if !records.read_next()? || !E::is_header(records.row()) {
        return Err(ListFault::Header);
    }
    let limit = E::limit();
    let mut list = E::new(alloc);
    let mut n = 0;
    while records.read_next()? {
        if n == limit {
            return Err(ListFault::TooMany);
        }
        n += 1;
        list.add(records.row(), n)?;
    }
    Ok(list)
}
