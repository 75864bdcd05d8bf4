//! The operands of a statement that say something of a hold.
ghost use Rattle.std.specs.Prelude.{◌≡◌, ◌++◌, ◌∷◌, [], ℕ, List, option_map};
ghost use Rattle.std.specs.Option.{option_to_list};
ghost use Rattle.std.specs.Str.{str_eq_ignore_ascii_case};
ghost use Rattle.mcs_reader.specs.Bytes.{bytes_of_each};
ghost use Rattle.mcs_reader.specs.Operand.{operand_text, operand_texts};
ghost use Rattle.mcs_reader.specs.OperandText.{OperandText};
ghost use Rattle.mcs_reader.specs.StatementText.{sole};
ghost use Rattle.holddata.specs.Operands.{kind_named, is_either, named_values, values_of};
ghost use Rattle.holddata.specs.Given.{IsGathered, Shows, ShowsKinds};
ghost use Rattle.holddata.specs.declared.key.Kind.{Kind};

use crate::Kind;
use mcs_reader::Operand;

/// The values that operands give, taken together.
#[derive(Clone, Copy)]
pub(crate) enum Given<T> {
    Nothing,
    One(T),
    Several,
}

/// The values that the operands of a statement give, by their names.
#[derive(Clone, Copy)]
pub(crate) struct Gathered<'a> {
    pub(crate) kinds: Given<Kind>,
    pub(crate) reason: Given<&'a [u8]>,
    pub(crate) fmid: Given<&'a [u8]>,
    pub(crate) class: Given<&'a [u8]>,
    pub(crate) resolver: Given<&'a [u8]>,
    pub(crate) date: Given<&'a [u8]>,
    pub(crate) category: Given<&'a [u8]>,
}

/// Gathers the values of operands. They may be many, so it goes through them once.
#[tactic(auto, using(crate::proofs::OperandFacts::gathered_more))]
pub(crate) fn given_by_operands<'a>(operands: &[Operand<'a>]) -> Gathered<'a>
    ensures { IsGathered result (operand_texts operands.now) }
{
    let mut given = Gathered {
        kinds: Given::Nothing,
        reason: Given::Nothing,
        fmid: Given::Nothing,
        class: Given::Nothing,
        resolver: Given::Nothing,
        date: Given::Nothing,
        category: Given::Nothing,
    };
    for operand in operands {
        gather(&mut given, operand);
    }
    given
}

/// The one value that the operands of this name give together, or `None` if they give none or several.
#[tactic(auto, using(crate::proofs::OperandFacts::shown_more))]
pub fn sole_value<'a>(operands: &[Operand<'a>], name: &[u8]) -> Option<&'a [u8]>
    ensures { option_map (λ value. value.now) result
        ≡ sole (values_of name.now (operand_texts operands.now)) }
{
    let mut given = Given::Nothing;
    for operand in operands {
        given = with_named(given, operand, name);
    }
    match given {
        Given::One(value) => Some(value),
        Given::Nothing | Given::Several => None,
    }
}

// Adds the values of one more operand.
fn gather<'a>(given: &mut Gathered<'a>, operand: &Operand<'a>)
    ensures { (seen : List OperandText) → IsGathered given.old seen →
        IsGathered given.new (seen ++ operand_text operand.now ∷ []) }
{
    given.kinds = with_kind(given.kinds, kind_named(operand.name));
    given.reason = with_named(given.reason, operand, b"REASON");
    given.fmid = with_named(given.fmid, operand, b"FMID");
    given.class = with_named(given.class, operand, b"CLASS");
    given.resolver = with_named(given.resolver, operand, b"RESOLVER");
    given.date = with_named(given.date, operand, b"DATE");
    given.category = with_named(given.category, operand, b"CATEGORY");
}

fn with_named<'a>(given: Given<&'a [u8]>, operand: &Operand<'a>, name: &[u8]) -> Given<&'a [u8]>
    ensures { (seen : List (List ℕ)) → Shows given.entry seen →
        Shows result (seen ++ named_values name.now (operand_text operand.now)) }
{
    if is_named(operand.name, name) {
        with_values(given, operand.values.as_slice())
    } else {
        given
    }
}

fn with_values<'a>(given: Given<&'a [u8]>, values: &[&'a [u8]]) -> Given<&'a [u8]>
    ensures { (seen : List (List ℕ)) → Shows given.entry seen →
        Shows result (seen ++ bytes_of_each values.now) }
{
    if values.is_empty() {
        return given;
    }
    match given {
        Given::Nothing => given_by(values),
        Given::One(_) => Given::Several,
        Given::Several => Given::Several,
    }
}

fn given_by<'a>(values: &[&'a [u8]]) -> Given<&'a [u8]>
    ensures { Shows result (bytes_of_each values.now) }
{
    match values {
        [] => Given::Nothing,
        [value] => Given::One(value),
        [_, _, ..] => Given::Several,
    }
}

// One kind named twice counts once.
fn with_kind(kinds: Given<Kind>, named: Option<Kind>) -> Given<Kind>
    ensures { (seen : List Kind) → ShowsKinds kinds seen → ShowsKinds result (seen ++ option_to_list named) }
{
    let Some(kind) = named else {
        return kinds;
    };
    match kinds {
        Given::Nothing => Given::One(kind),
        Given::One(first) => {
            if first == kind {
                Given::One(first)
            } else {
                Given::Several
            }
        }
        Given::Several => Given::Several,
    }
}

/// The kind of hold that an operand of this name names.
pub(crate) fn kind_named(name: &[u8]) -> Option<Kind>
    ensures { result ≡ kind_named name.now }
{
    if is_either(name, b"ERROR", b"ERR") {
        Some(Kind::ErrorHold)
    } else if is_either(name, b"SYSTEM", b"SYS") {
        Some(Kind::SystemHold)
    } else if is_named(name, b"USER") {
        Some(Kind::UserHold)
    } else if is_named(name, b"FIXCAT") {
        Some(Kind::FixcatHold)
    } else {
        None
    }
}

fn is_either(name: &[u8], long: &[u8], short: &[u8]) -> bool
    ensures { result ≡ is_either name.now long.now short.now }
{
    is_named(name, long) || is_named(name, short)
}

/// Whether the names are the same but for ASCII case.
pub(crate) fn is_named(name: &[u8], wanted: &[u8]) -> bool
    ensures { result ≡ str_eq_ignore_ascii_case name.now wanted.now }
{
    name.eq_ignore_ascii_case(wanted)
}
