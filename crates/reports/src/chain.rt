//! A verdict as JSON.
ghost use Rattle.std.specs.Prelude.{◌≡◌, IfOk};
ghost use Rattle.serde_json.specs.View.{items_view, view};
ghost use Rattle.catalogue.specs.View.{MayAsk, Tells};
ghost use Rattle.catalogue.specs.declared.fault.SourceFault.TheVariants.{Device};
ghost use Rattle.verdicts.specs.Judge.{judged_by};
ghost use Rattle.reports.specs.ChainText.{chain_data, chain_text_of, good_data, held_data, lack_data, member_with, plan_items, reasons_in, texts};

use crate::json::compact;
use catalogue::{Published, SourceFault};
use faults::NoMemory;
use holddata::{Hold, Kind};
use mcs_reader::Id;
use serde_json::{Value, json};
use std::alloc::Global;
use verdicts::Verdict;

/// Prints the verdict on a SYSMOD in a zone as compact JSON with its keys in ascending order.
///
/// It has `status`, `sysmod` and `zone`. If the SYSMOD can be installed, it also has `plan`, whose members ascend. Each
/// has its `id` and the reasons of the SYSTEM and of the USER holds on it, which its installer should heed (IBM z/OS
/// SMP/E Reference, `++HOLD`). If it is held, it also has `blocked`.
///
/// # Errors
///
/// `Memory` if memory ran out, `Device` if the source failed.
pub fn plan_json<P: Published>(
    alloc: Global,
    source: &mut P,
    zone: &Id,
    sysmod: &Id,
    verdict: &Verdict,
) -> Result<Vec<u8>, SourceFault>
    ensures asks { MayAsk P.content_view Device source.old source.new result }
    ensures text { IfOk result (λ text. Tells P.content_view source.old source.new
        (λ content. text.items ≡ chain_text_of content zone.now sysmod.now (judged_by verdict.now))) }
{
    let value = verdict_value(alloc, source, zone, sysmod, verdict)?;
    Ok(compact(alloc, &value)?)
}

// A verdict as a value.
fn verdict_value<P: Published>(
    alloc: Global,
    source: &mut P,
    zone: &Id,
    sysmod: &Id,
    verdict: &Verdict,
) -> Result<Value, SourceFault>
    ensures asks { MayAsk P.content_view Device source.old source.new result }
    ensures value { IfOk result (λ value. Tells P.content_view source.old source.new
        (λ content. view value ≡ chain_data content zone.now sysmod.now (judged_by verdict.now))) }
{
    match verdict {
        Verdict::Good(plan) => {
            let members = plan_values(alloc, source, plan)?;
            Ok(good_value(alloc, zone, sysmod, members)?)
        }
        Verdict::Held(need) => Ok(held_value(alloc, zone, sysmod, need)?),
        Verdict::Lack => Ok(lack_value(alloc, zone, sysmod)?),
    }
}

fn good_value(alloc: Global, zone: &Id, sysmod: &Id, members: Vec<Value>) -> Result<Value, NoMemory>
    ensures { IfOk result (λ value. view value ≡ good_data zone.now sysmod.now (items_view members.items)) }
{
    json!(in alloc; {
        "plan": members,
        "status": "GOOD",
        "sysmod": sysmod.text(),
        "zone": zone.text()
    })
}

fn held_value(alloc: Global, zone: &Id, sysmod: &Id, need: &Id) -> Result<Value, NoMemory>
    ensures { IfOk result (λ value. view value ≡ held_data zone.now sysmod.now need.now) }
{
    json!(in alloc; {
        "blocked": need.text(),
        "status": "HELD",
        "sysmod": sysmod.text(),
        "zone": zone.text()
    })
}

fn lack_value(alloc: Global, zone: &Id, sysmod: &Id) -> Result<Value, NoMemory>
    ensures { IfOk result (λ value. view value ≡ lack_data zone.now sysmod.now) }
{
    json!(in alloc; {
        "status": "LACK",
        "sysmod": sysmod.text(),
        "zone": zone.text()
    })
}

// The members of a plan, in its order.
fn plan_values<P: Published>(
    alloc: Global,
    source: &mut P,
    plan: &[Id],
) -> Result<Vec<Value>, SourceFault>
    ensures asks { MayAsk P.content_view Device source.old source.new result }
    ensures members { IfOk result (λ values. Tells P.content_view source.old source.new
        (λ content. items_view values.items ≡ plan_items content plan.now)) }
{
    let mut values = Vec::new(alloc);
    for id in plan {
        let holds = source.holds_on(id)?;
        values.push(member_value(alloc, id, &holds)?)?;
    }
    Ok(values)
}

// A member of a plan, with the holds on it.
fn member_value(alloc: Global, id: &Id, holds: &[Hold]) -> Result<Value, NoMemory>
    ensures { IfOk result (λ value. view value ≡ member_with id.now holds.now) }
{
    json!(in alloc; {
        "id": id.text(),
        "system": reasons(alloc, holds, Kind::SystemHold)?,
        "user": reasons(alloc, holds, Kind::UserHold)?
    })
}

// The reasons of the holds of a kind.
fn reasons(alloc: Global, holds: &[Hold], kind: Kind) -> Result<Vec<Value>, NoMemory>
    ensures { IfOk result (λ values. items_view values.items ≡ texts (reasons_in kind holds.now)) }
{
    let mut values = Vec::new(alloc);
    for hold in holds {
        if hold.key.kind == kind {
            values.push(Value::try_from_str(alloc, hold.key.reason.text())?)?;
        }
    }
    Ok(values)
}
