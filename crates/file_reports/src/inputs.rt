//! A zone's lists, and the meaning of all inputs.
ghost use Rattle.std.specs.Prelude.{◌≡◌, ◌<◌, ◌≤◌, ℕ, List, Ok, IfOk, IfErr, OnOk, length, map};
ghost use Rattle.faults.specs.Told.{of_input};
ghost use Rattle.std.specs.Option.{option_map};
ghost use Rattle.catalogue.specs.Content.{IsInOrder};
ghost use Rattle.catalogue.specs.Ids.{Ascend};
ghost use Rattle.bureau.specs.Bodies as body;
ghost use Rattle.file_reports.specs.Inputs as said;
ghost use Rattle.file_reports.specs.Inputs.{IsFirstFault};
ghost use Rattle.file_reports.specs.Lists.{chain_inputs_of, err_inputs_of, inputs_of};
ghost use Rattle.file_reports.specs.Read.{said_of};
ghost use Rattle.zone_lists.specs.ListFault.{told};
ghost use Rattle.file_reports.specs.declared.fault.Input.TheVariants as input;

use crate::publications::content_in;
use crate::{Input, InputFault};
use faults::AnyFault;
use flat_content::FlatContent;
use mcs_reader::{Id, MOST_BYTES, McsFault};
use std::alloc::Global;
use supersede::Zone;
use zone_lists::{ListFault, Pattern, patterns, received_rows, zone_rows};

/// A zone's lists: the bytes of CSV files, as a client sends them to a desk.
#[derive(Clone, Copy, Debug)]
pub struct Lists<'a> {
    /// The SYSMODs of the zone, with the header `SYSMOD,STATE`.
    pub zone: &'a [u8],
    /// The fix categories that are asked for, with the header `CATEGORY`. Without them none is.
    pub categories: Option<&'a [u8]>,
    /// The SYSMODs that are received, with the header `SYSMOD`. Without them none is.
    pub received: Option<&'a [u8]>,
}

impl<'a> Lists<'a> {
    /// The SYSMODs of a zone alone.
    pub fn of_zone(zone: &'a [u8]) -> Lists<'a>
        ensures zone { result.zone.now ≡ zone.now }
        ensures categories { result.categories ≡ None }
        ensures received { result.received ≡ None }
    {
        Lists {
            zone,
            categories: None,
            received: None,
        }
    }

    // The same without the fix categories.
    pub(crate) fn without_categories(self) -> Lists<'a>
        ensures { (publications : List (List ℕ)) →
            inputs_of result publications ≡ err_inputs_of self.entry publications }
    {
        Lists {
            zone: self.zone,
            categories: None,
            received: self.received,
        }
    }

    // The same without any list but the zone's SYSMODs.
    pub(crate) fn zone_alone(self) -> Lists<'a>
        ensures { (publications : List (List ℕ)) →
            inputs_of result publications ≡ chain_inputs_of self.entry publications }
    {
        Lists {
            zone: self.zone,
            categories: None,
            received: None,
        }
    }
}

/// The meaning of all inputs.
#[derive(Drop)]
pub(crate) struct Read {
    pub(crate) installed: Zone,
    pub(crate) patterns: Vec<Pattern>,
    pub(crate) received: Vec<Id>,
    pub(crate) content: FlatContent,
}

/// Reads the lists, and then the publications in their order.
///
/// # Errors
///
/// The first fault, with its input; or memory ran out.
pub(crate) fn read_all(
    alloc: Global,
    lists: Lists<'_>,
    publications: Vec<Vec<u8>>,
) -> Result<Read, InputFault>
    ensures said { IfOk result (λ read.
        said.said_by (inputs_of lists.entry (map (λ body. body.items) publications.items)) ≡ Ok (said_of read)) }
    ensures received { IfOk result (λ read. Ascend read.received.items) }
    ensures content { IfOk result (λ read. IsInOrder read.content) }
    ensures fault { IfErr result
        (IsFirstFault (said.said_by (inputs_of lists.entry (map (λ body. body.items) publications.items)))) }
{
    let installed = zone_in(alloc, lists.zone)?;
    let patterns = patterns_in(alloc, lists.categories)?;
    let received = received_in(alloc, lists.received)?;
    let content = content_in(alloc, publications)?;
    Ok(Read {
        installed,
        patterns,
        received,
        content,
    })
}

fn zone_in(alloc: Global, text: &[u8]) -> Result<Zone, InputFault>
    ensures zone { IfOk result (λ zone. said.rows_said text.now ≡ Ok zone) }
    ensures fault { IfErr result (IsFirstFault (said.rows_said text.now)) }
{
    within(text, Input::Zone)?;
    match zone_rows(alloc, text) {
        Ok(rows) => Ok(Zone::from_rows(rows)),
        Err(fault) => Err(in_list(fault, Input::Zone)),
    }
}

fn patterns_in(alloc: Global, text: Option<&[u8]>) -> Result<Vec<Pattern>, InputFault>
    ensures patterns { IfOk result (λ patterns.
        said.patterns_said (option_map (λ body. body.now) text.entry) ≡ Ok patterns.items) }
    ensures fault { IfErr result
        (IsFirstFault (said.patterns_said (option_map (λ body. body.now) text.entry))) }
{
    let Some(text) = text else {
        return Ok(Vec::new(alloc));
    };
    within(text, Input::Categories)?;
    match patterns(alloc, text) {
        Ok(patterns) => Ok(patterns),
        Err(fault) => Err(in_list(fault, Input::Categories)),
    }
}

fn received_in(alloc: Global, text: Option<&[u8]>) -> Result<Vec<Id>, InputFault>
    ensures received { IfOk result (λ ids.
        said.received_said (option_map (λ body. body.now) text.entry) ≡ Ok ids.items) }
    ensures ascend { IfOk result (λ ids. Ascend ids.items) }
    ensures fault { IfErr result
        (IsFirstFault (said.received_said (option_map (λ body. body.now) text.entry))) }
{
    let Some(text) = text else {
        return Ok(Vec::new(alloc));
    };
    within(text, Input::Received)?;
    match received_rows(alloc, text) {
        Ok(ids) => Ok(ids),
        Err(fault) => Err(in_list(fault, Input::Received)),
    }
}

// Whether a list has no more bytes than an input may have.
fn within(text: &[u8], input: Input) -> Result<(), InputFault>
    ensures ok { OnOk result (length text.now ≤ said.most_bytes) }
    ensures fault { IfErr result (λ told.
        (said.most_bytes < length text.now) × (told ≡ said.told_in input (of_input 5))) }
{
    if text.len() > MOST_BYTES {
        return Err(InputFault::of(AnyFault::from(McsFault::TooLong), input));
    }
    Ok(())
}

// The fault of a list.
fn in_list(fault: ListFault, input: Input) -> InputFault
    ensures { result ≡ said.told_in input (told fault) }
{
    InputFault::of(AnyFault::from(fault), input)
}
