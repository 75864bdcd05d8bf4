//! Lists of ids, one after the other in one list, and so lists of requisites under conditions.
ghost use Rattle.std.specs.Prelude.{◌≡◌, ◌-◌, IfOk, OnOk, length};
ghost use Rattle.flat_content.specs.Spans.{AreConds, IsIds, IsWithin, Keeps, part_at};

use catalogue::{CondNeed, CondNeeds, Ids, NoMemory};
use mcs_reader::Id;
use std::alloc::Global;

/// The span of a list in the list of all: where it starts, and where it ends.
#[derive(Clone, Copy, Debug)]
pub(crate) struct Span {
    pub(crate) start: u32,
    pub(crate) end: u32,
}

impl Span {
    /// The number of its entries.
    pub(crate) fn len(self) -> usize
        ensures { result ≡ self.end - self.start }
    {
        self.end.saturating_sub(self.start) as usize
    }
}

/// Puts a list after all others.
///
/// # Errors
///
/// `NoMemory` if memory ran out, or there would be over 4,294,967,295 ids.
pub(crate) fn put(names: &mut Vec<Id>, ids: &Ids) -> Result<Span, NoMemory>
    ensures keeps { OnOk result (Keeps names.old.items names.new.items) }
    ensures ids { IfOk result (λ span. part_at names.new.items span ≡ ids.now) }
    ensures is_ids { IfOk result (IsIds names.new.items) }
    ensures start { IfOk result (λ span. span.start ≡ length names.old.items) }
    ensures end { IfOk result (λ span. span.end ≡ length names.new.items) }
{
    let start = place(names.len())?;
    names.extend_from_slice(ids.as_slice())?;
    let end = place(names.len())?;
    Ok(Span { start, end })
}

/// The ids in a span.
pub(crate) fn ids_in(names: &[Id], span: Span) -> &[Id]
    requires { IsWithin names.now span }
    ensures { result.now ≡ part_at names.now span }
{
    &names[span.start as usize..span.end as usize]
}

/// Copies the list in a span.
pub(crate) fn copied(alloc: Global, names: &[Id], span: Span) -> Result<Ids, NoMemory>
    requires { IsIds names.now span }
    ensures { IfOk result (λ ids. ids ≡ part_at names.now span) }
{
    let list = Vec::from_slice(alloc, ids_in(names, span))?;
    match Ids::from_ascending(list) {
        Some(ids) => Ok(ids),
        None => unreachable!(),
    }
}

/// Puts requisites under conditions after all others.
///
/// # Errors
///
/// `NoMemory` if memory ran out, or there would be over 4,294,967,295 of them.
pub(crate) fn put_conds(all: &mut Vec<CondNeed>, conds: &CondNeeds) -> Result<Span, NoMemory>
    ensures keeps { OnOk result (Keeps all.old.items all.new.items) }
    ensures conds { IfOk result (λ span. part_at all.new.items span ≡ conds.now) }
    ensures are_conds { IfOk result (AreConds all.new.items) }
{
    let start = place(all.len())?;
    all.extend_from_slice(conds.as_slice())?;
    let end = place(all.len())?;
    Ok(Span { start, end })
}

/// Copies the requisites under conditions in a span.
pub(crate) fn conds_copied(
    alloc: Global,
    all: &[CondNeed],
    span: Span,
) -> Result<CondNeeds, NoMemory>
    requires { AreConds all.now span }
    ensures { IfOk result (λ conds. conds ≡ part_at all.now span) }
{
    let list = Vec::from_slice(alloc, conds_in(all, span))?;
    match CondNeeds::from_ascending(list) {
        Some(conds) => Ok(conds),
        None => unreachable!(),
    }
}

fn conds_in(all: &[CondNeed], span: Span) -> &[CondNeed]
    requires { IsWithin all.now span }
    ensures { result.now ≡ part_at all.now span }
{
    &all[span.start as usize..span.end as usize]
}

// An index in the list of all.
fn place(at: usize) -> Result<u32, NoMemory>
    ensures { IfOk result (λ place. place ≡ at) }
{
    match u32::try_from(at) {
        Ok(place) => Ok(place),
        Err(_) => Err(NoMemory),
    }
}
