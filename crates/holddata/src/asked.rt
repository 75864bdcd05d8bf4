//! The operands that say something of a hold.
ghost use Rattle.std.specs.Prelude.{◌≡◌, ℕ, List, IsTrue, map};
ghost use Rattle.mcs_reader.specs.Asking.{asking};
ghost use Rattle.mcs_reader.specs.Bytes.{bytes_of_each};
ghost use Rattle.mcs_reader.specs.declared.statement.Statement.{Statement};
ghost use Rattle.holddata.specs.Asked.{are_among, hold_operands};
ghost use Rattle.holddata.specs.Statements.{change_of, changes_of, faults_of, first_fault};

// The operands that most statements have stand first.
const NAMES: [&[u8]; 12] = [
    b"REASON",
    b"FMID",
    b"CLASS",
    b"DATE",
    b"RESOLVER",
    b"CATEGORY",
    b"ERROR",
    b"ERR",
    b"SYSTEM",
    b"SYS",
    b"USER",
    b"FIXCAT",
];

/// The names of the operands of `++HOLD` and `++RELEASE` that say something of a hold. A statement may be read with
/// these alone, or with these and more. It then makes the same change, and has the same faults, as with all of its
/// operands.
pub fn hold_operands() -> &'static [&'static [u8]]
    ensures names { bytes_of_each result.now ≡ hold_operands }
    ensures change { (names : List (List ℕ)) (statement : Statement) →
        IsTrue (are_among hold_operands names) → change_of (asking names statement) ≡ change_of statement }
    ensures faults { (names : List (List ℕ)) (statement : Statement) →
        IsTrue (are_among hold_operands names) → faults_of (asking names statement) ≡ faults_of statement }

    // The same of lists of statements.
    ensures changes { (names : List (List ℕ)) (statements : List Statement) →
        IsTrue (are_among hold_operands names) → changes_of (map (asking names) statements) ≡ changes_of statements }
    ensures first_fault { (names : List (List ℕ)) (statements : List Statement) →
        IsTrue (are_among hold_operands names) → first_fault (map (asking names) statements) ≡ first_fault statements }
{
    &NAMES
}
