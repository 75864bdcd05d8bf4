//! From statements to hold changes.
ghost use Rattle.std.specs.Prelude.{◌≡◌, ◌≢◌, ◌↔◌, ℕ, true, false, List, [], ◌∷◌, codes, IfOk, OnOk, IfErr, OnErr, IsSome};
ghost use Rattle.mcs_reader.specs.Operand.{operand_texts};
ghost use Rattle.holddata.specs.Operands.{the_kind, values_of, is_bad_id, is_bad_date, the_id, the_date};
ghost use Rattle.holddata.specs.Given.{IsGathered, Shows, ShowsKinds};
ghost use Rattle.holddata.specs.declared.key.Kind.{Kind};
ghost use Rattle.holddata.specs.Statements.{key_named, hold_of, kind_faults, key_faults, faults_of, first_of, first_fault, change_of, changes_of};
ghost use Rattle.mcs_reader.specs.declared.statement.Statement.{Statement};
ghost use Rattle.mcs_reader.specs.declared.statement.Verb.TheVariants as verb;
ghost use Rattle.holddata.specs.declared.fault.HoldFault.TheVariants.{NoReason, BadId, BadDate, BadCategory, Memory};
ghost use Rattle.faults.specs.Refusal.{IsRefusal};
ghost use Rattle.std.specs.List.{list_all};
ghost use Rattle.mcs_reader.specs.Bytes.{bytes_of_each};
ghost use Rattle.mcs_reader.specs.Category.{is_category};
ghost use Rattle.holddata.specs.Categories.{in_order, IsInOrder};

use crate::category_values::{are_categories, category_set, category_values};
use crate::operands::{Gathered, Given, given_by_operands};
use crate::{Categories, Date, Hold, HoldChange, HoldFault, HoldKey, Kind};
use mcs_reader::{Id, Operand, Statement, Verb, is_category};
use std::alloc::Global;

/// The changes that statements make of the holds, in order (IBM z/OS SMP/E Reference, `++HOLD`, `++RELEASE`).
///
/// # Errors
///
/// The fault with the lowest number of the first statement that has a fault, or [`HoldFault::Memory`].
#[tactic(auto, using(crate::proofs::StatementFacts::first_of_longer))]
pub fn changes(alloc: Global, statements: &[Statement]) -> Result<Vec<HoldChange>, HoldFault>
    ensures changes { IfOk result (λ changes. changes.items ≡ changes_of statements.now) }
    ensures no_fault { OnOk result (first_fault statements.now ≡ None) }
    ensures fault { IfErr result (IsRefusal Memory (λ fault. first_fault statements.now ≡ Some fault)) }

    // The categories of a hold are those that its statement gives.
    ensures in_order { (texts : List (List ℕ)) → IsInOrder texts (in_order texts) }

    // No change is lost: a statement without a fault names a key.
    ensures named { (statement : Statement) → key_faults statement ≡ [] → IsSome (key_named statement) }
{
    let mut changes = Vec::with_capacity(alloc, statements.len())?;
    for statement in statements {
        if let Some(change) = change(alloc, statement)? {
            changes.push(change)?;
        }
    }
    Ok(changes)
}

/// The change that one statement makes of the holds, or `None` if it makes none.
///
/// # Errors
///
/// The statement's fault with the lowest number, or [`HoldFault::Memory`].
pub fn change(alloc: Global, statement: &Statement) -> Result<Option<HoldChange>, HoldFault>
    ensures change { IfOk result (λ change. change ≡ change_of statement.now) }
    ensures no_fault { OnOk result (faults_of statement.now ≡ []) }
    ensures fault { IfErr result (IsRefusal Memory
        (λ fault. first_of (faults_of statement.now) ≡ Some fault)) }
{
    match statement.verb {
        Verb::Hold => Ok(Some(HoldChange::Put(hold_by(alloc, statement)?))),
        Verb::Release => Ok(Some(HoldChange::Release(key_of_release(statement)?))),
        Verb::Func | Verb::Ptf | Verb::Apar | Verb::Usermod | Verb::Ver | Verb::Cond => Ok(None),
    }
}

// The hold that a `++HOLD` statement puts.
#[tactic(auto, using(crate::proofs::StatementFacts::first_of_longer))]
fn hold_by(alloc: Global, statement: &Statement) -> Result<Hold, HoldFault>
    requires { statement.now.verb ≡ verb.Hold }
    ensures hold { IfOk result (λ hold. hold_of statement.now ≡ Some hold) }
    ensures no_fault { OnOk result (faults_of statement.now ≡ []) }
    ensures fault { IfErr result (IsRefusal Memory
        (λ fault. first_of (faults_of statement.now) ≡ Some fault)) }
{
    let operands = statement.operands.as_slice();
    let given = given_by_operands(operands);
    let key = key_by(statement, &given)?;
    let line = statement.line;
    let fmid = optional_id(line, given.fmid)?;
    let class = optional_id(line, given.class)?;
    let resolver = optional_id(line, given.resolver)?;
    let dated = optional_date(line, given.date)?;
    let categories = categories_in(alloc, line, given.category, operands)?;
    Ok(Hold {
        key,
        fmid,
        class,
        resolver,
        dated,
        categories,
    })
}

// The key of the hold that a `++RELEASE` statement takes away. Its FMID doesn't matter, but has to be an id if it is
// given.
#[tactic(auto, using(crate::proofs::StatementFacts::first_of_longer))]
fn key_of_release(statement: &Statement) -> Result<HoldKey, HoldFault>
    requires { statement.now.verb ≡ verb.Release }
    ensures key { IfOk result (λ key. key_named statement.now ≡ Some key) }
    ensures no_fault { OnOk result (faults_of statement.now ≡ []) }
    ensures fault { IfErr result (λ fault. first_of (faults_of statement.now) ≡ Some fault) }
{
    let given = given_by_operands(statement.operands.as_slice());
    let key = key_by(statement, &given)?;
    optional_id(statement.line, given.fmid)?;
    Ok(key)
}

// The categories that operands give, in ascending order, each once. Only two or more have to be put in order.
fn categories_in(
    alloc: Global,
    line: u32,
    given: Given<&[u8]>,
    operands: &[Operand],
) -> Result<Categories, HoldFault>
    requires { Shows given (values_of (codes "CATEGORY") (operand_texts operands.now)) }
    ensures categories { IfOk result (λ categories. categories
        ≡ in_order (values_of (codes "CATEGORY") (operand_texts operands.now))) }
    ensures good { OnOk result
        (list_all is_category (values_of (codes "CATEGORY") (operand_texts operands.now)) ≡ true) }
    ensures bad { IfErr result (IsRefusal Memory (λ fault.
        (fault ≡ BadCategory line)
        × (list_all is_category (values_of (codes "CATEGORY") (operand_texts operands.now)) ≡ false))) }
{
    match given {
        Given::Nothing => Ok(Categories::new(alloc)),
        Given::One(text) => one_category(alloc, line, text),
        Given::Several => several_categories(alloc, line, operands),
    }
}

fn one_category(alloc: Global, line: u32, text: &[u8]) -> Result<Categories, HoldFault>
    ensures categories { IfOk result (λ categories. categories ≡ text.now ∷ []) }
    ensures good { OnOk result (is_category text.now ≡ true) }
    ensures bad { IfErr result (IsRefusal Memory
        (λ fault. (fault ≡ BadCategory line) × (is_category text.now ≡ false))) }
{
    if !is_category(text) {
        return Err(HoldFault::BadCategory(line));
    }
    Ok(Categories::from_one(alloc, text)?)
}

fn several_categories(
    alloc: Global,
    line: u32,
    operands: &[Operand],
) -> Result<Categories, HoldFault>
    ensures categories { IfOk result (λ categories. categories
        ≡ in_order (values_of (codes "CATEGORY") (operand_texts operands.now))) }
    ensures good { OnOk result
        (list_all is_category (values_of (codes "CATEGORY") (operand_texts operands.now)) ≡ true) }
    ensures bad { IfErr result (IsRefusal Memory (λ fault.
        (fault ≡ BadCategory line)
        × (list_all is_category (values_of (codes "CATEGORY") (operand_texts operands.now)) ≡ false))) }
{
    let values = category_values(alloc, operands)?;
    put_in_order(alloc, line, values.as_slice())
}

// Categories in ascending order, each once. Most are in order already.
#[tactic(auto, using(crate::proofs::CategoryFacts::in_order_allowed, crate::proofs::CategoryFacts::in_order_already, crate::proofs::CategoryFacts::all_allowed))]
fn put_in_order(alloc: Global, line: u32, values: &[&[u8]]) -> Result<Categories, HoldFault>
    ensures categories { IfOk result (λ categories. categories ≡ in_order (bytes_of_each values.now)) }
    ensures good { OnOk result (list_all is_category (bytes_of_each values.now) ≡ true) }
    ensures bad { IfErr result (IsRefusal Memory (λ fault.
        (fault ≡ BadCategory line) × (list_all is_category (bytes_of_each values.now) ≡ false))) }
{
    if let Some(categories) = Categories::from_ascending(alloc, values)? {
        return Ok(categories);
    }
    if !are_categories(values) {
        return Err(HoldFault::BadCategory(line));
    }
    let set = category_set(alloc, values)?;
    Ok(Categories::from_set(alloc, &set)?)
}

// The key that a statement names.
fn key_by(statement: &Statement, given: &Gathered) -> Result<HoldKey, HoldFault>
    requires { IsGathered given.now statement.now.operands }
    ensures key { IfOk result (λ key. key_named statement.now ≡ Some key) }
    ensures no_fault { OnOk result (key_faults statement.now ≡ []) }
    ensures fault { IfErr result (λ fault. first_of (key_faults statement.now) ≡ Some fault) }
{
    let line = statement.line;
    let kind = kind_in(line, given.kinds)?;
    let reason = reason_in(line, given.reason)?;
    let sysmod = statement.subject.ok_or(HoldFault::BadId(line))?;
    Ok(HoldKey {
        sysmod,
        kind,
        reason,
    })
}

// The kind that is named.
fn kind_in(line: u32, given: Given<Kind>) -> Result<Kind, HoldFault>
    ensures kind { (kinds : List Kind) → ShowsKinds given kinds →
        IfOk result (λ kind. the_kind kinds ≡ Some kind) }
    ensures no_fault { (kinds : List Kind) → ShowsKinds given kinds →
        OnOk result (kind_faults line kinds ≡ []) }
    ensures fault { (kinds : List Kind) → ShowsKinds given kinds →
        IfErr result (λ fault. kind_faults line kinds ≡ fault ∷ []) }
{
    match given {
        Given::Nothing => Err(HoldFault::NoKind(line)),
        Given::One(kind) => Ok(kind),
        Given::Several => Err(HoldFault::TwoKinds(line)),
    }
}

// The one id that is given as the reason.
fn reason_in(line: u32, given: Given<&[u8]>) -> Result<Id, HoldFault>
    ensures reason { (values : List (List ℕ)) → Shows given.entry values →
        IfOk result (λ reason. the_id values ≡ Some reason) }
    ensures missing { (values : List (List ℕ)) → Shows given.entry values →
        (result ≡ Err (NoReason line)) ↔ (values ≡ []) }
    ensures bad { (values : List (List ℕ)) → Shows given.entry values →
        OnErr result (values ≢ [] → (result ≡ Err (BadId line)) × (is_bad_id values ≡ true)) }
{
    let id = optional_id(line, given)?;
    id.ok_or(HoldFault::NoReason(line))
}

// The id that values give, if they give any.
fn optional_id(line: u32, given: Given<&[u8]>) -> Result<Option<Id>, HoldFault>
    ensures id { (values : List (List ℕ)) → Shows given.entry values →
        IfOk result (λ id. the_id values ≡ id) }
    ensures good { (values : List (List ℕ)) → Shows given.entry values →
        OnOk result (is_bad_id values ≡ false) }
    ensures bad { (values : List (List ℕ)) → Shows given.entry values →
        IfErr result (λ fault. (fault ≡ BadId line) × (is_bad_id values ≡ true)) }
{
    match given {
        Given::Nothing => Ok(None),
        Given::One(value) => Ok(Some(Id::new(value).ok_or(HoldFault::BadId(line))?)),
        Given::Several => Err(HoldFault::BadId(line)),
    }
}

// The date that values give, if they give any.
fn optional_date(line: u32, given: Given<&[u8]>) -> Result<Option<Date>, HoldFault>
    ensures date { (values : List (List ℕ)) → Shows given.entry values →
        IfOk result (λ date. the_date values ≡ date) }
    ensures good { (values : List (List ℕ)) → Shows given.entry values →
        OnOk result (is_bad_date values ≡ false) }
    ensures bad { (values : List (List ℕ)) → Shows given.entry values →
        IfErr result (λ fault. (fault ≡ BadDate line) × (is_bad_date values ≡ true)) }
{
    match given {
        Given::Nothing => Ok(None),
        Given::One(value) => Ok(Some(Date::from_text(value).ok_or(HoldFault::BadDate(line))?)),
        Given::Several => Err(HoldFault::BadDate(line)),
    }
}
