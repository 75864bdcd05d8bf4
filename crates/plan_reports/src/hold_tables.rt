//! The tables of the holds that no member resolves, and of the needs that block their resolvers.
ghost use Rattle.std.specs.Prelude.{◌≡◌, IfOk};
ghost use Rattle.plan_reports.specs.Tables as Spec;

use crate::fields::{blocked_fields, held_fields, hold_fields};
use blocked_needs::BlockedNeed;
use columns::{Column, Table};
use faults::NoMemory;
use std::alloc::Global;
use zone_plans::{ChosenResolver, HoldOn};

const HOLD_COLUMNS: [Column; 2] = [
    Column {
        start: 1,
        name: b"SYSMOD",
    },
    Column {
        start: 10,
        name: b"REASON",
    },
];

const HELD_COLUMNS: [Column; 3] = [
    Column {
        start: 1,
        name: b"SYSMOD",
    },
    Column {
        start: 10,
        name: b"REASON",
    },
    Column {
        start: 19,
        name: b"RESOLVER",
    },
];

const BLOCKED_COLUMNS: [Column; 3] = [
    Column {
        start: 1,
        name: b"SYSMOD",
    },
    Column {
        start: 10,
        name: b"NEED",
    },
    Column {
        start: 19,
        name: b"GIVER",
    },
];

/// The holds without a resolver that is GOOD or HELD.
pub(crate) fn unresolved_table(alloc: Global, holds: &[HoldOn]) -> Result<Vec<u8>, NoMemory>
    ensures { IfOk result (λ text. text.items ≡ Spec.unresolved_table holds.now) }
{
    let mut table = Table::new(
        alloc,
        &HOLD_COLUMNS,
        Some(b"HOLDS WITHOUT GOOD OR HELD RESOLVER"),
    )?;
    for hold in holds {
        table.push(&hold_fields(hold))?;
    }
    table.finish()
}

/// The holds without a GOOD resolver that have one that is HELD.
pub(crate) fn held_table(alloc: Global, holds: &[ChosenResolver]) -> Result<Vec<u8>, NoMemory>
    ensures { IfOk result (λ text. text.items ≡ Spec.held_table holds.now) }
{
    let mut table = Table::new(alloc, &HELD_COLUMNS, Some(b"HOLDS WITH HELD RESOLVERS"))?;
    for one in holds {
        table.push(&held_fields(one))?;
    }
    table.finish()
}

/// The needs that block the resolvers that are HELD.
pub(crate) fn blocked_table(alloc: Global, needs: &[BlockedNeed]) -> Result<Vec<u8>, NoMemory>
    ensures { IfOk result (λ text. text.items ≡ Spec.blocked_table needs.now) }
{
    let mut table = Table::new(alloc, &BLOCKED_COLUMNS, Some(b"BLOCKED NEEDS"))?;
    for one in needs {
        table.push(&blocked_fields(one))?;
    }
    table.finish()
}
