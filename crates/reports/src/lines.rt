//! The lines of a report: a hold, and one of the SYSMODs that resolve it, or none.
ghost use Rattle.std.specs.Prelude.{◌≡◌, ◌++◌, Some, map, IfOk, OnOk};
ghost use Rattle.std.specs.List.{flat_map};
ghost use Rattle.reports.specs.Lines as Spec;

use crate::holds::{HoldResolvers, Resolver};
use faults::NoMemory;
use holddata::Hold;
use mcs_reader::Id;
use std::alloc::Global;
use std::marker::Model;
use verdicts::Status;

/// A line of a report: a hold, and one of the SYSMODs that resolve it, or none. In the missing fix report it also has a
/// fix category of the hold. A contract sees these.
#[derive(Debug, Drop)]
pub struct Line<'h> {
    category: &'h [u8],
    hold: &'h Hold,
    resolver: Option<Resolver>,
}

impl<'h> Model for Line<'h> {
    ghost use Rattle.reports.specs.Lines.{LineParts};

    ghost Value = { LineParts };

    ghost view = { λ line. record {
      category = line.category.now;
      hold = line.hold.now;
      resolver = line.resolver;
    } };
}

impl<'h> Line<'h> {
    ghost use Rattle.std.specs.Prelude.{◌≡◌, option_map};

    /// The fix category, which is empty in the exception SYSMOD report.
    pub fn category(&self) -> &'h [u8]
        ensures { result.now ≡ self.now.category }
    {
        self.category
    }

    /// The hold.
    pub fn hold(&self) -> &'h Hold
        ensures { result.now ≡ self.now.hold }
    {
        self.hold
    }

    /// The SYSMOD that resolves it, if there is one.
    pub fn resolver(&self) -> Option<Id>
        ensures { result ≡ option_map (λ one. one.id) self.now.resolver }
    {
        match self.resolver {
            Some(one) => Some(one.id),
            None => None,
        }
    }

    /// The status of the resolver, if there is one.
    pub fn status(&self) -> Option<Status>
        ensures { result ≡ option_map (λ one. one.status) self.now.resolver }
    {
        match self.resolver {
            Some(one) => Some(one.status),
            None => None,
        }
    }

    /// Whether the client has received the resolver, if there is one.
    pub fn received(&self) -> Option<bool>
        ensures { result ≡ option_map (λ one. one.received) self.now.resolver }
    {
        match self.resolver {
            Some(one) => Some(one.received),
            None => None,
        }
    }
}

/// A hold as a report has it, in the missing fix report under one of its categories: the lines of all its resolvers.
#[derive(Drop)]
pub(crate) struct Group<'r, 'h> {
    category: &'h [u8],
    hold: &'h Hold,
    resolvers: &'r [Resolver],
}

impl<'r, 'h> Model for Group<'r, 'h> {
    ghost use Rattle.reports.specs.Lines.{GroupParts};

    ghost Value = { GroupParts };

    ghost view = { λ group. record {
      category = group.category.now;
      hold = group.hold.now;
      resolvers = group.resolvers.now;
    } };
}

impl<'r, 'h> Group<'r, 'h> {
    ghost use Rattle.std.specs.Prelude.{◌≡◌};
    ghost use Rattle.reports.specs.Lines.{group_of};

    /// The group of a hold under a category.
    pub(crate) fn new(category: &'h [u8], held: &'r HoldResolvers<'h>) -> Self
        ensures { result ≡ group_of category.now held.now }
    {
        Group {
            category,
            hold: held.hold(),
            resolvers: held.resolvers(),
        }
    }

    fn resolvers(&self) -> &'r [Resolver]
        ensures { result.now ≡ self.now.resolvers }
    {
        self.resolvers
    }
}

/// Makes the lines of groups, in their order.
pub(crate) fn lines_in<'h>(
    alloc: Global,
    groups: &[Group<'_, 'h>],
) -> Result<Vec<Line<'h>>, NoMemory>
    ensures { IfOk result (λ lines. lines.items ≡ flat_map Spec.lines_of groups.now) }
{
    let mut lines = Vec::with_capacity(alloc, groups.len())?;
    for group in groups {
        put_lines(&mut lines, group)?;
    }
    Ok(lines)
}

// Adds the lines of a group: one for each resolver, or one that says that there is none.
fn put_lines<'h>(lines: &mut Vec<Line<'h>>, group: &Group<'_, 'h>) -> Result<(), NoMemory>
    ensures { OnOk result (lines.new.items ≡ lines.old.items ++ Spec.lines_of group.now) }
{
    let resolvers = group.resolvers();
    match resolvers {
        [] => Ok(lines.push(line_of(group, None))?),
        _ => put_each(lines, group),
    }
}

fn put_each<'h>(lines: &mut Vec<Line<'h>>, group: &Group<'_, 'h>) -> Result<(), NoMemory>
    ensures { OnOk result (lines.new.items
        ≡ lines.old.items ++ map (λ one. Spec.line_of group.now (Some one)) group.now.resolvers) }
{
    for resolver in group.resolvers {
        lines.push(line_of(group, Some(*resolver)))?;
    }
    Ok(())
}

fn line_of<'h>(group: &Group<'_, 'h>, resolver: Option<Resolver>) -> Line<'h>
    ensures { result ≡ Spec.line_of group.now resolver }
{
    Line {
        category: group.category,
        hold: group.hold,
        resolver,
    }
}
