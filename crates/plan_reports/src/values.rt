//! The parts of a plan, as JSON values.
ghost use Rattle.std.specs.Prelude.{◌≡◌, IfOk, map};
ghost use Rattle.serde_json.specs.Data.{Data};
ghost use Rattle.serde_json.specs.View.{items_of, items_view, view};
ghost use Rattle.plan_reports.specs.Json as Spec;

use crate::member::Member;
use blocked_needs::BlockedNeed;
use faults::NoMemory;
use mcs_reader::Id;
use reports::text_values;
use serde_json::{Value, json};
use std::alloc::Global;
use zone_plans::{ChosenResolver, HoldOn};

/// A type with a value of its own.
pub(crate) trait ToValue {
    /// The data that its value stands for.
    ghost data_of: { Self → Data };

    fn to_value(&self, alloc: Global) -> Result<Value, NoMemory>
        ensures { IfOk result (λ value. view value ≡ data_of self.now) };
}

/// The values of some items, in their order.
pub(crate) fn values_of<T: ToValue>(alloc: Global, items: &[T]) -> Result<Vec<Value>, NoMemory>
    ensures { IfOk result (λ values. items_view values.items ≡ items_of (map T.data_of items.now)) }
{
    let mut values = Vec::new(alloc);
    for item in items {
        values.push(item.to_value(alloc)?)?;
    }
    Ok(values)
}

impl ToValue for HoldOn {
    ghost data_of = { Spec.hold_data };

    fn to_value(&self, alloc: Global) -> Result<Value, NoMemory> {
        json!(in alloc; {
            "reason": self.reason.text(),
            "sysmod": self.sysmod.text()
        })
    }
}

impl ToValue for ChosenResolver {
    ghost data_of = { Spec.chosen_data };

    fn to_value(&self, alloc: Global) -> Result<Value, NoMemory> {
        json!(in alloc; {
            "reason": self.hold.reason.text(),
            "resolver": self.resolver.text(),
            "sysmod": self.hold.sysmod.text()
        })
    }
}

impl ToValue for BlockedNeed {
    ghost data_of = { Spec.blocked_data };

    fn to_value(&self, alloc: Global) -> Result<Value, NoMemory> {
        json!(in alloc; {
            "giver": id_value(alloc, &self.giver)?,
            "need": self.need.text(),
            "published": self.published,
            "sysmod": self.sysmod.text()
        })
    }
}

impl ToValue for Member {
    ghost data_of = { Spec.member_data };

    fn to_value(&self, alloc: Global) -> Result<Value, NoMemory> {
        json!(in alloc; {
            "fmids": text_values(alloc, self.fmids())?,
            "holds": values_of(alloc, self.holds())?,
            "id": self.id().text(),
            "needed_by": text_values(alloc, self.needed_by())?,
            "received": self.received(),
            "step": self.step(),
            "system": text_values(alloc, self.system())?,
            "user": text_values(alloc, self.user())?
        })
    }
}

// An id, or null if there is none.
fn id_value(alloc: Global, id: &Option<Id>) -> Result<Value, NoMemory>
    ensures { IfOk result (λ value. view value ≡ Spec.id_data id.now) }
{
    match id {
        Some(id) => Value::try_from_str(alloc, id.text()),
        None => Ok(Value::Null),
    }
}
