//! Frames.
ghost use Rattle.std.specs.Prelude.{◌≡◌, ℕ, List, IfOk, map};
ghost use Rattle.std.specs.BTreeMap.{keys, values};
ghost use Rattle.std.specs.List.{list_any};
ghost use Rattle.catalogue.specs.Content.{Content, IsInOrder};
ghost use Rattle.catalogue.specs.Ids.{Ascend};
ghost use Rattle.verdicts.specs.Indices.{AreIndexed};
ghost use Rattle.chains.specs.FrameIndices.{has_conds};
ghost use Rattle.chains.specs.Frames.{IsClosed, IsFrame, ids_in};
ghost use Rattle.listings.specs.Gathered.{AreNamed, IsGathered};

use crate::frame_nodes::frame_nodes;
use catalogue::{CondNeeds, Ids};
use listings::{Gathered, Links, ids_found};
use mcs_reader::{Id, NoMemory};
use requisites::Rows;
use std::alloc::Global;
use std::collections::BTreeMap;
use std::marker::Model;

/// A SYSMOD in a frame.
#[derive(Debug, Drop)]
pub struct FrameNode {
    /// Its id.
    pub id: Id,
    /// Whether it is catalogued.
    pub catalogued: bool,
    /// The functions that it applies to; none if it isn't catalogued.
    pub fmids: Ids,
    /// The ids that it needs in every zone: its PRE, its REQ and the reasons of the ERROR holds on it.
    pub needs: Ids,
    /// Its requisites under a condition: the ids that it needs if a function is installed.
    pub conds: CondNeeds,
    /// The catalogued SYSMODs that give it: itself, and those that supersede it, themselves or through others.
    pub givers: Ids,
}

/// All that one SYSMOD reaches in a catalogue, itself included, by what each may need and by what gives it. It
/// names no zone.
///
/// The nodes ascend by id. Each need and each giver of a node is a node, and so is each SYSMOD that it needs
/// only if a function is installed.
#[derive(Debug, Drop)]
pub struct Frame {
    nodes: Vec<FrameNode>,
    // The ids of the nodes, and by their indices the ids that each always needs and supersedes directly. A plan
    // doesn't ask for the givers, which are many if superseding is long.
    ids: Vec<Id>,
    needs: Rows,
    supersedes: Rows,
    // Whether a node has requisites under a condition.
    conditional: bool,
}

impl Model for Frame {
    ghost use Rattle.chains.specs.FrameIndices.{IsFramed};
    ghost use Rattle.chains.specs.Frames.{FrameLists};

    ghost Value = { FrameLists };

    ghost view = { λ frame. record { nodes = frame.nodes.items; supersedes = frame.supersedes } };

    ghost invariant = { λ frame.
        IsFramed frame.nodes.items frame.ids.items frame.needs frame.conditional };
}

impl Frame {
    /// Makes the frame of what was gathered.
    pub(crate) fn of(alloc: Global, found: BTreeMap<Id, Gathered>) -> Result<Frame, NoMemory>
        requires { AreNamed (values found) (keys found) }
        ensures frame { IfOk result (λ frame. (content : Content) (start : List ℕ) → IsInOrder content
            → IsGathered content start (keys found) (values found) → IsFrame content start frame) }
        ensures ids { IfOk result (λ frame. ids_in frame.nodes ≡ keys found) }
    {
        let ids = ids_found(alloc, &found)?;
        let all = gathered_found(alloc, found)?;
        let Links {
            needs,
            supersedes,
            above,
        } = Links::of(alloc, &ids, &all)?;
        let nodes = frame_nodes(alloc, &ids, &all, &above)?;
        let conditional = is_any_conditional(&nodes);
        Ok(Frame {
            nodes,
            ids,
            needs,
            supersedes,
            conditional,
        })
    }

    /// Its nodes, ascending by id.
    pub fn nodes(&self) -> &[FrameNode]
        ensures value { result.now ≡ self.now.nodes }
        ensures ascend { Ascend (ids_in self.now.nodes) }
        ensures closed { IsClosed self.now.nodes }
    {
        self.nodes.as_slice()
    }

    /// The ids of its nodes.
    pub(crate) fn ids(&self) -> &[Id]
        ensures value { result.now ≡ ids_in self.now.nodes }
        ensures ascend { Ascend (ids_in self.now.nodes) }
    {
        self.ids.as_slice()
    }

    /// By index, the ids that each needs in every zone.
    pub(crate) fn needs(&self) -> &Rows
        ensures { AreIndexed (ids_in self.now.nodes) (map (λ node. node.needs) self.now.nodes) result.now }
    {
        &self.needs
    }

    /// By index, the ids that each supersedes directly.
    pub(crate) fn supersedes(&self) -> &Rows
        ensures { result.now ≡ self.now.supersedes }
    {
        &self.supersedes
    }

    /// Whether a node has requisites under a condition.
    pub(crate) fn is_conditional(&self) -> bool
        ensures { result ≡ list_any has_conds self.now.nodes }
    {
        self.conditional
    }
}

// Whether one of some nodes has requisites under a condition.
fn is_any_conditional(nodes: &[FrameNode]) -> bool
    ensures { result ≡ list_any has_conds nodes.now }
{
    nodes.iter().any(|node| !node.conds.as_slice().is_empty())
}

// The SYSMODs that were gathered, in their order.
fn gathered_found(alloc: Global, found: BTreeMap<Id, Gathered>) -> Result<Vec<Gathered>, NoMemory>
    ensures { IfOk result (λ all. all.items ≡ values found) }
{
    found.into_values().collect(alloc)
}
