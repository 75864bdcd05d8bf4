//! Whether a table has the rule that it should have.
ghost use Rattle.std.specs.Prelude.{◌≡◌, ◌↔◌, [], IfOk, IsTrue};
ghost use Rattle.sqlite.specs.Collation.TheVariants.{Binary};
ghost use Rattle.sqlite.specs.Term.{lit, col, op2};
ghost use Rattle.sqlite.specs.declared.types.Value.TheVariants.{Int};
ghost use Rattle.sqlite_sql.specs.Syntax.{term_at, terms_of};
ghost use Rattle.sqlite_sql.specs.declared.ops.BinaryOp.TheVariants.{Compare};
ghost use Rattle.sql_checks.specs.Shapes.{term_of_rule, terms_of_rule};

use crate::shapes::Rule;
use sqlite_schema::code::Terms;
use sqlite_sql::expr::{Node, open};
use sqlite_sql::ops::{BinaryOp, CompareOp};
use sqlite_value::keys::Collation;
use sqlite_value::value::ValueRef;
use std::alloc::{AllocError, Global};

// Whether the term is a column of the row.
fn is_column(nodes: &[Node<'_>], depth: usize, at: usize, place: usize) -> bool
    ensures { IsTrue result ↔ (term_at nodes.now depth at ≡ col 1 place) }
{
    match open(nodes, depth, at).0 {
        Node::Column(slot, column) => slot == 1 && column == place,
        _ => false,
    }
}

// Whether the term is a number.
fn is_number(nodes: &[Node<'_>], depth: usize, at: usize, number: i64) -> bool
    ensures { IsTrue result ↔ (term_at nodes.now depth at ≡ lit (Int number)) }
{
    match open(nodes, depth, at).0 {
        Node::Literal(ValueRef::Int(value)) => value == number,
        _ => false,
    }
}

// Whether the term is this comparison of a column with a number.
fn is_compared(
    nodes: &[Node<'_>],
    depth: usize,
    at: usize,
    op: CompareOp,
    place: usize,
    number: i64,
) -> bool
    ensures { IsTrue result
        ↔ (term_at nodes.now depth at ≡ op2 (Compare op Binary) (col 1 place) (lit (Int number))) }
{
    let (node, below) = open(nodes, depth, at);
    match node {
        Node::Binary(BinaryOp::Compare(other, Collation::Binary), a, b) => {
            other == op && is_column(nodes, below, a, place) && is_number(nodes, below, b, number)
        }
        _ => false,
    }
}

// Whether the term is the rule.
fn is_rule(nodes: &[Node<'_>], depth: usize, at: usize, rule: Rule) -> bool
    ensures { IsTrue result ↔ (term_at nodes.now depth at ≡ term_of_rule rule) }
{
    match rule {
        Rule::Compared(op, place, number) => is_compared(nodes, depth, at, op, place, number),
        Rule::UpTo(place, high) => is_up_to(nodes, depth, at, place, high),
    }
}

// Whether the term holds a column between 0 and a number.
fn is_up_to(nodes: &[Node<'_>], depth: usize, at: usize, place: usize, high: i64) -> bool
    ensures { IsTrue result ↔ (term_at nodes.now depth at ≡ term_of_rule (Rule.UpTo place high)) }
{
    let (node, below) = open(nodes, depth, at);
    match node {
        Node::Binary(BinaryOp::And, a, b) => {
            is_compared(nodes, below, a, CompareOp::Ge, place, 0)
                && is_compared(nodes, below, b, CompareOp::Le, place, high)
        }
        _ => false,
    }
}

// Whether the terms are the one rule; none if there is none.
fn are_rules(nodes: &[Node<'_>], roots: &[usize], rule: Option<Rule>) -> bool
    ensures { IsTrue result ↔ (terms_of nodes.now roots.now ≡ terms_of_rule rule) }
{
    match (roots, rule) {
        ([], None) => true,
        ([root], Some(rule)) => is_rule(nodes, nodes.len(), *root, rule),
        _ => false,
    }
}

/// Whether the terms are this one rule; none if there is none.
pub(crate) fn has_rule(alloc: Global, terms: &Terms, rule: Option<Rule>) -> Result<bool, AllocError>
    ensures { IfOk result (λ is. IsTrue is ↔ (terms.now ≡ terms_of_rule rule)) }
{
    let lent = terms.lend(alloc)?;
    Ok(are_rules(lent.nodes.as_slice(), lent.roots, rule))
}
