//! The fix categories that operands give.
ghost use Rattle.std.specs.Prelude.{◌≡◌, codes, IfOk};
ghost use Rattle.std.specs.List.{list_all};
ghost use Rattle.mcs_reader.specs.Bytes.{bytes_of_each};
ghost use Rattle.mcs_reader.specs.Category.{is_category};
ghost use Rattle.mcs_reader.specs.Operand.{operand_text, operand_texts};
ghost use Rattle.holddata.specs.Categories.{in_order};
ghost use Rattle.holddata.specs.Operands.{named_values, values_of};

use crate::NoMemory;
use crate::categories::are_allowed;
use crate::operands::is_named;
use mcs_reader::Operand;
use std::alloc::Global;
use std::collections::BTreeSet;

/// The values of the operands CATEGORY, in order.
pub(crate) fn category_values<'a>(
    alloc: Global,
    operands: &[Operand<'a>],
) -> Result<Vec<&'a [u8]>, NoMemory>
    ensures { IfOk result (λ values. bytes_of_each values.items
        ≡ values_of (codes "CATEGORY") (operand_texts operands.now)) }
{
    let mut values = Vec::new(alloc);
    for operand in operands {
        values.extend_from_slice(values_in(operand))?;
    }
    Ok(values)
}

// The values of an operand CATEGORY; other operands give none.
fn values_in<'b, 'a>(operand: &'b Operand<'a>) -> &'b [&'a [u8]]
    ensures { bytes_of_each result.now ≡ named_values (codes "CATEGORY") (operand_text operand.now) }
{
    if is_named(operand.name, b"CATEGORY") {
        operand.values.as_slice()
    } else {
        &[]
    }
}

/// Whether all of these are fix categories.
pub(crate) fn are_categories(values: &[&[u8]]) -> bool
    ensures { result ≡ list_all is_category (bytes_of_each values.now) }
{
    are_allowed(values)
}

/// These texts in ascending order, each once.
pub(crate) fn category_set<'a>(
    alloc: Global,
    values: &[&'a [u8]],
) -> Result<BTreeSet<&'a [u8]>, NoMemory>
    ensures { IfOk result (λ set. bytes_of_each set.keys ≡ in_order (bytes_of_each values.now)) }
{
    let mut set = BTreeSet::new(alloc);
    for value in values {
        set.insert(*value)?;
    }
    Ok(set)
}
