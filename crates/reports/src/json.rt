//! The parts that all JSON of reports has: texts of ids, and the text of a value.
ghost use Rattle.std.specs.Prelude.{◌≡◌, IfOk, false};
ghost use Rattle.serde_json.specs.View.{items_view, view};
ghost use Rattle.serde_json.specs.Written.{compact_text, has_float};
ghost use Rattle.reports.specs.ChainText.{texts};

use faults::NoMemory;
use mcs_reader::Id;
use serde_json::Value;
use std::alloc::Global;

/// The texts of ids.
///
/// # Errors
///
/// Memory ran out.
pub fn text_values(alloc: Global, ids: &[Id]) -> Result<Vec<Value>, NoMemory>
    ensures { IfOk result (λ values. items_view values.items ≡ texts ids.now) }
{
    let mut values = Vec::new(alloc);
    for id in ids {
        values.push(Value::try_from_str(alloc, id.text())?)?;
    }
    Ok(values)
}

/// The compact text of a value that has no float.
///
/// # Errors
///
/// Memory ran out.
pub fn compact(alloc: Global, value: &Value) -> Result<Vec<u8>, NoMemory>
    ensures { IfOk result
        (λ text. has_float (view value.now) ≡ false → text.items ≡ compact_text (view value.now)) }
{
    Ok(value.to_string(alloc)?.into_bytes())
}
