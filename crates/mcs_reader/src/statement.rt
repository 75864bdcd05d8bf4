ghost use Rattle.std.specs.Prelude.{◌≡◌, [], IfOk};
ghost use Rattle.mcs_reader.specs.Bytes.{bytes_of_each};

use crate::scratch::take_gathered;
use crate::{Id, NoMemory};
use std::marker::Model;
use std::slice;

/// The name after a statement's `++`, which says what it does.
#[derive(Clone, Copy, Debug, PartialEq, Eq, PartialOrd, Ord, Hash)]
pub enum Verb {
    /// `++HOLD` puts a SYSMOD in exception status.
    Hold,
    /// `++RELEASE` takes a hold away.
    Release,
    /// `++FUNCTION` begins a function.
    Func,
    /// `++PTF` begins a program temporary fix.
    Ptf,
    /// `++APAR` begins a corrective fix.
    Apar,
    /// `++USERMOD` begins a modification of the user's own.
    Usermod,
    /// `++VER` says of the SYSMOD before it where it applies and what it needs.
    Ver,
    /// `++IF` says of the SYSMOD before it what it needs if a function is installed.
    Cond,
}

impl Verb {
    ghost use Rattle.mcs_reader.specs.Verb.{verb_named};

    /// The verb of this name, without regard to ASCII case.
    #[tactic(auto, unfolding(crate::specs::Verb::verb_named))]
    pub(crate) fn by_name(name: &[u8]) -> Option<Verb>
        ensures { result ≡ verb_named name.now }
    {
        if name.eq_ignore_ascii_case(b"HOLD") {
            Some(Verb::Hold)
        } else if name.eq_ignore_ascii_case(b"RELEASE") {
            Some(Verb::Release)
        } else if name.eq_ignore_ascii_case(b"FUNCTION") {
            Some(Verb::Func)
        } else if name.eq_ignore_ascii_case(b"PTF") {
            Some(Verb::Ptf)
        } else if name.eq_ignore_ascii_case(b"APAR") {
            Some(Verb::Apar)
        } else if name.eq_ignore_ascii_case(b"USERMOD") {
            Some(Verb::Usermod)
        } else if name.eq_ignore_ascii_case(b"VER") {
            Some(Verb::Ver)
        } else if name.eq_ignore_ascii_case(b"IF") {
            Some(Verb::Cond)
        } else {
            None
        }
    }
}

/// The values of one list, in order. A contract sees the list of their bytes. A value that stands alone
/// takes no memory.
#[derive(Debug, Drop)]
pub struct ListValues<'a> {
    items: OneOrMany<'a>,
}

// Most lists have one value.
#[derive(Debug, Drop)]
enum OneOrMany<'a> {
    One(&'a [u8]),
    Many(Vec<&'a [u8]>),
}

impl<'a> Model for ListValues<'a> {
    ghost use Rattle.std.specs.Prelude.{ℕ, List};
    ghost use Rattle.mcs_reader.specs.OneOrMany.{bytes_in};

    ghost Value = { List (List ℕ) };

    ghost view = { λ v. bytes_in v.items };
}

impl<'a> ListValues<'a> {
    /// These values, as slices of one source.
    pub fn from_vec(items: Vec<&'a [u8]>) -> Self
        ensures { result ≡ bytes_of_each items.entry.items }
    {
        ListValues {
            items: OneOrMany::Many(items),
        }
    }

    /// The values that were gathered.
    pub(crate) fn take_gathered(scratch: &mut Vec<&'a [u8]>) -> Result<Self, NoMemory>
        ensures { IfOk result (λ values. values ≡ bytes_of_each scratch.old.items) }
    {
        if let [value] = scratch.as_slice() {
            return Ok(ListValues {
                items: OneOrMany::One(value),
            });
        }
        Ok(ListValues::from_vec(take_gathered(scratch)?))
    }

    /// The values in order, as slices of the source.
    pub fn as_slice(&self) -> &[&'a [u8]]
        ensures { bytes_of_each result.now ≡ self.now }
    {
        match &self.items {
            OneOrMany::One(value) => slice::from_ref(value),
            OneOrMany::Many(items) => items.as_slice(),
        }
    }
}

/// One operand of a statement. Both parts are slices of the source.
#[derive(Debug, Drop)]
pub struct Operand<'a> {
    /// The operand's name as it was written; names are compared without regard to ASCII case.
    pub name: &'a [u8],
    /// The values of the operand's list; none if it has no list.
    pub values: ListValues<'a>,
}

/// The operands of one statement, in order. A contract sees each as its name and its values.
#[derive(Debug, Drop)]
pub struct Operands<'a> {
    items: Vec<Operand<'a>>,
}

impl<'a> Model for Operands<'a> {
    ghost use Rattle.std.specs.Prelude.{List};
    ghost use Rattle.mcs_reader.specs.OperandText.{OperandText};

    ghost Value = { List OperandText };

    ghost use Rattle.mcs_reader.specs.Operand.{operand_texts};

    ghost view = { λ v. operand_texts v.items.items };
}

impl<'a> Operands<'a> {
    ghost use Rattle.mcs_reader.specs.Operand.{operand_texts};

    /// These operands.
    pub fn from_vec(items: Vec<Operand<'a>>) -> Self
        ensures { result ≡ operand_texts items.entry.items }
    {
        Operands { items }
    }

    /// The operands in the order in which they were written.
    pub fn as_slice(&self) -> &[Operand<'a>]
        ensures { operand_texts result.now ≡ self.now }
    {
        self.items.as_slice()
    }

    /// Returns them as a list.
    pub fn into_vec(self) -> Vec<Operand<'a>>
        ensures { operand_texts result.items ≡ self.entry }
    {
        self.items
    }
}

/// One statement of a source (SMP/E Reference, "MCS coding rules").
#[derive(Debug, Drop)]
pub struct Statement<'a> {
    /// The verb, which says what the statement does.
    pub verb: Verb,
    /// The one value of the list after the verb; none for `++VER`, whose list isn't used, and for `++IF`, which
    /// has none.
    pub subject: Option<Id>,
    /// The operands after the verb's list, up to the period.
    pub operands: Operands<'a>,
    /// The line, counted from 1, on which the statement begins.
    pub line: u32,
}
