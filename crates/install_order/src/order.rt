//! The steps in which nodes are installed.
ghost use Rattle.std.specs.Prelude.{IfOk};
ghost use Rattle.install_order.specs.Steps.{AreInOrder, AreSteps, IsClosed};

use crate::levels::{levels_along, rows_by_level};
use crate::putting::rings_in_order;
use requisites::{NoMemory, Rows};
use std::alloc::Global;

/// Returns the steps in which the marked nodes are installed, as rows. Each has all nodes, ascending, that may come
/// once those before it are installed. A node's needs are in a step before its own; or in its own, if they need the
/// node too. Each need of a marked node has to be marked.
///
/// It takes time in proportion to the nodes and the links.
///
/// # Errors
///
/// `NoMemory` if memory ran out.
pub fn steps(alloc: Global, needs: &Rows, members: &[bool]) -> Result<Rows, NoMemory>
    requires { IsClosed needs.now members.now }
    ensures steps { IfOk result (λ steps. AreSteps needs.now members.now steps) }
    ensures order { IfOk result (λ steps. AreInOrder needs.now members.now steps) }
{
    let rings = rings_in_order(alloc, needs, members)?;
    let levels = levels_along(alloc, needs, &rings, members.len())?;
    rows_by_level(alloc, &levels, rings.len())
}
