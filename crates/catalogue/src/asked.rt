//! The operands that say something of what is published.
ghost use Rattle.std.specs.Prelude.{◌≡◌, ℕ, Bool, List, IsTrue, map};
ghost use Rattle.mcs_reader.specs.Asking.{asking};
ghost use Rattle.mcs_reader.specs.Bytes.{bytes_of_each};
ghost use Rattle.mcs_reader.specs.declared.statement.Statement.{Statement};
ghost use Rattle.holddata.specs.Asked.{are_among};
ghost use Rattle.catalogue.specs.Asked.{publication_operands};
ghost use Rattle.catalogue.specs.Reading.{Begun, changes_of, faults_of, first_fault, with_statement};

// The operands that most statements have stand first.
const NAMES: [&[u8]; 15] = [
    b"REASON",
    b"FMID",
    b"CLASS",
    b"DATE",
    b"RESOLVER",
    b"CATEGORY",
    b"ERROR",
    b"ERR",
    b"SYSTEM",
    b"SYS",
    b"USER",
    b"FIXCAT",
    b"PRE",
    b"REQ",
    b"SUP",
];

/// The names of the operands that say something of what is published: those of [`holddata::hold_operands`], of a
/// `++VER` FMID, PRE, REQ and SUP, and of an `++IF` FMID and REQ. Statements may be read with these alone, or
/// with these and more. They then publish the same, and have the same faults, as with all of their operands.
pub fn publication_operands() -> &'static [&'static [u8]]
    ensures names { bytes_of_each result.now ≡ publication_operands }
    ensures changes { (names : List (List ℕ)) (statements : List Statement) →
        IsTrue (are_among publication_operands names) →
        changes_of (map (asking names) statements) ≡ changes_of statements }
    ensures first_fault { (names : List (List ℕ)) (begun : Bool) (statements : List Statement) →
        IsTrue (are_among publication_operands names) →
        first_fault begun (map (asking names) statements) ≡ first_fault begun statements }

    // The same of one statement after the other.
    ensures read { (names : List (List ℕ)) (begun : Begun) (statement : Statement) →
        IsTrue (are_among publication_operands names) →
        with_statement begun (asking names statement) ≡ with_statement begun statement }
    ensures faults { (names : List (List ℕ)) (begun : Bool) (statement : Statement) →
        IsTrue (are_among publication_operands names) →
        faults_of begun (asking names statement) ≡ faults_of begun statement }
{
    &NAMES
}
