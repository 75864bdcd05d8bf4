//! Laws on the rows that a query of one table or of two finds.
ghost use Rattle.std.specs.Prelude.{◌≡◌, ℕ, List, map, filter, flat_map};
ghost use Rattle.std.specs.List.Sorted.{IsPermutation};
ghost use Rattle.sqlite.specs.Collation.TheVariants.{Binary};
ghost use Rattle.sqlite.specs.Ops.{binary, is_true};
ghost use Rattle.sqlite.specs.Query.{IsAnswer, end, inner};
ghost use Rattle.sqlite.specs.Term.{Term};
ghost use Rattle.sqlite.specs.Tree.{Trees};
ghost use Rattle.sqlite.specs.declared.types.Value.{Value};
ghost use Rattle.sqlite.specs.declared.types.Value.TheVariants.{Text};
ghost use Rattle.sqlite_sql.specs.declared.ops.BinaryOp.TheVariants.{Compare};
ghost use Rattle.sqlite_sql.specs.declared.ops.CompareOp.TheVariants.{Eq};
ghost use Rattle.sqlite_value.specs.Order.{Row};
ghost use Rattle.sql_texts.specs.Found.{is_text, pairs_shown, passes, shown};
ghost use Rattle.sql_texts.specs.Reads.{from_table, query_of};

/// A query of one table answers the columns that it names of exactly the rows that pass its tests, each row
/// as often as the table has it.
pub fn table()
    ensures { (tree : ℕ) (tests : List Term) (project order : List ℕ)
        (db : Trees) (params : Row) (rows : List Row)
        → IsAnswer (from_table tree tests project order) db params rows
        → IsPermutation (map (shown project) (filter (passes params tests) (db tree))) rows }
{}

/// A value is equal to a text exactly if it is that text, byte for byte.
pub fn text()
    ensures { (value : Value) (text : List ℕ)
        → is_true (binary (Compare Eq Binary) value (Text text)) ≡ is_text text value }
{}

/// A query of two tables answers what it shows of each two rows, one of each table, that pass its tests
/// together.
pub fn join()
    ensures { (left right : ℕ) (tests project order : List Term) (db : Trees) (params : Row) (rows : List Row)
        → IsAnswer (query_of (inner left (inner right end)) tests project order) db params rows
        → IsPermutation
        (flat_map (λ first. pairs_shown params tests project first (db right)) (db left)) rows }
{}
