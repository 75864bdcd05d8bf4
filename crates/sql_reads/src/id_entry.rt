//! A row of an id.

use crate::entry::{Entry, Ordered};
use mcs_reader::Id;
use sql_tables::{NoMemory, id_row_in};
use sqlite::Row;
use std::alloc::Global;

impl Ordered for Id {
    ghost use Rattle.catalogue.specs.Ids.{Ascend, id_cmp};
    ghost use Rattle.catalogue.proofs.IdFacts.{ids_total};

    ghost cmp = { id_cmp };

    ghost ascend = { Ascend };

    fn is_below(&self, next: &Id) -> bool {
        self.cmp(next).is_lt()
    }

    ghost total = { ids_total };

    ghost ascends = { λ items. (λ ascend. ascend, λ ascend. ascend) };
}

impl Entry for Id {
    ghost use Rattle.sqlite_value.specs.Order.{column};
    ghost use Rattle.sql_tables.specs.Values.{id_in};

    ghost found = { λ row. id_in (column row 0) };

    fn in_row(_alloc: Global, row: &Row) -> Result<Option<Id>, NoMemory> {
        Ok(id_row_in(row))
    }
}
