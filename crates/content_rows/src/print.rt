//! Answers in print.
use catalogue::{Change, CondNeed, Sysmod, SysmodKind};
use chains::FrameNode;
use holddata::HoldChange;
use mcs_reader::{Id, NoMemory};
use std::alloc::Global;
use verdicts::{Status, Verdict};

/// Puts ids into a text, each after a blank.
fn put_ids(text: &mut String, ids: &[Id]) -> Result<(), NoMemory> {
    for id in ids {
        text.push(' ')?;
        text.push_str(id.text())?;
    }
    Ok(())
}

fn put_ids_line(text: &mut String, words: &str, ids: &[Id]) -> Result<(), NoMemory> {
    text.push_str(words)?;
    put_ids(text, ids)?;
    text.push('\n')
}

/// A line: words, and ids after them.
pub(crate) fn line(alloc: Global, words: &str, ids: &[Id]) -> Result<String, NoMemory> {
    let mut text = String::new(alloc);
    put_ids_line(&mut text, words, ids)?;
    Ok(text)
}

/// A line with a number.
pub(crate) fn number(alloc: Global, count: u64) -> Result<String, NoMemory> {
    Ok(format!(in alloc; "{count}\n")?)
}

/// A line that says `yes` or `no`.
pub(crate) fn yes(alloc: Global, is_so: bool) -> Result<String, NoMemory> {
    line(alloc, if is_so { "yes" } else { "no" }, &[])
}

// Puts a list of a record, unless it is empty.
fn put_list(text: &mut String, name: &str, ids: &[Id]) -> Result<(), NoMemory> {
    if ids.is_empty() {
        return Ok(());
    }
    text.push_str(name)?;
    put_ids(text, ids)
}

fn put_conds(text: &mut String, conds: &[CondNeed]) -> Result<(), NoMemory> {
    for cond in conds {
        put_list(text, " IF", &[cond.fmid, cond.need])?;
    }
    Ok(())
}

fn kind_name(kind: SysmodKind) -> &'static str {
    match kind {
        SysmodKind::Func => "FUNCTION",
        SysmodKind::Ptf => "PTF",
        SysmodKind::Apar => "APAR",
        SysmodKind::Usermod => "USERMOD",
    }
}

/// Puts a line of a record.
pub(crate) fn put_sysmod(text: &mut String, sysmod: &Sysmod) -> Result<(), NoMemory> {
    put_list(text, kind_name(sysmod.kind), &[sysmod.id])?;
    put_list(text, " FMID", sysmod.fmids.as_slice())?;
    put_list(text, " PRE", sysmod.pre.as_slice())?;
    put_list(text, " REQ", sysmod.req.as_slice())?;
    put_list(text, " SUP", sysmod.sup.as_slice())?;
    put_conds(text, sysmod.conds.as_slice())?;
    text.push('\n')
}

/// Puts a line of a change.
pub(crate) fn put_change(text: &mut String, change: &Change) -> Result<(), NoMemory> {
    match change {
        Change::Whole(sysmod) => put_sysmod(text, sysmod),
        Change::OfHold(HoldChange::Put(hold)) => {
            put_ids_line(text, "HOLD", &[hold.key.sysmod, hold.key.reason])
        }
        Change::OfHold(HoldChange::Release(key)) => {
            put_ids_line(text, "RELEASE", &[key.sysmod, key.reason])
        }
    }
}

/// A line of a verdict.
pub(crate) fn verdict_text(alloc: Global, verdict: &Verdict) -> Result<String, NoMemory> {
    match verdict {
        Verdict::Good(plan) => line(alloc, "GOOD", plan),
        Verdict::Held(need) => line(alloc, "HELD", &[*need]),
        Verdict::Lack => line(alloc, "LACK", &[]),
    }
}

/// Statuses in print, on one line.
pub(crate) fn statuses_text(alloc: Global, statuses: &[Status]) -> Result<String, NoMemory> {
    let mut text = String::from_str(alloc, "STATUS")?;
    for status in statuses {
        text.push_str(match status {
            Status::Good => " GOOD",
            Status::Held => " HELD",
            Status::Lack => " LACK",
        })?;
    }
    text.push('\n')?;
    Ok(text)
}

/// Puts a line of a SYSMOD in a frame.
pub(crate) fn put_node(text: &mut String, node: &FrameNode) -> Result<(), NoMemory> {
    if !node.catalogued {
        text.push_str("not catalogued: ")?;
    }
    text.push_str(node.id.text())?;
    put_list(text, " FMID", node.fmids.as_slice())?;
    put_list(text, " NEEDS", node.needs.as_slice())?;
    put_conds(text, node.conds.as_slice())?;
    put_list(text, " GIVEN BY", node.givers.as_slice())?;
    text.push('\n')
}
