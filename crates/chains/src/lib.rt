//! Finding verdicts: over all that is catalogued, or from what one SYSMOD reaches.
//!
//! `verdicts` says what a verdict is and what a judge answers. Its names are here too.
//!
//! - [`Whole`]: judges over all that is catalogued, and is right for every content
//! - [`Frame`]: all that one SYSMOD reaches, as [`FrameNode`]s; [`frame`], [`frame_within`]: read that of a
//!   SYSMOD from a source
//! - [`plan`], [`good`]: verdicts from a frame alone
//! - [`Listing`]: all that is catalogued, whatever the zone; [`listing_of`]: reads it once from a source;
//!   [`Listing::renewed`]: brings it up to date after a publication
//! - [`Survey`]: all verdicts of one zone; [`Survey::of`]: makes it by a listing; [`survey_of`]: reads it from
//!   a source
//! - [`candidates_for`]: the candidates that give each of several SYSMODs, by a listing or from a source
//! - [`touches`]: whether a publication may change a frame
//! - [`Verdict`], [`Status`], [`Judge`], [`put_plan`], [`listed`], [`good_is_planned`], [`verdicts_are_right`],
//!   [`sort_each_once`], [`do_ascend`]: those of `verdicts`
//!
//! ```
//! // what isn't named here is of catalogue, mcs_reader, supersede and zone_lists
//! use chains::{Judge, Status, Verdict, Whole, frame, plan};
//! let source = b"++PTF(UJ90101).\n++VER(Z038) FMID(HBB77E0).\n\
//! ++PTF(UJ90102).\n++VER(Z038) FMID(HBB77E0) PRE(UJ90101) SUP(AJ00001).\n";
//! let (mut lists, fix) = (ListPublished::new(alloc), Id::new(b"UJ90102").ok_or("an id")?);
//! lists.publish(&read_changes(alloc, &read(alloc, source)?)?)?;
//! let zone = Zone::from_rows(zone_rows(alloc, b"SYSMOD,STATE\nHBB77E0,APPLIED\n")?);
//! let verdict = Whole::new().verdict(alloc, &mut lists, &zone, &fix)?;
//! assert!(rt; matches!(verdict, Verdict::Good(plan) if plan.len() == 2)); // UJ90101 and UJ90102
//! let frame = frame(alloc, &mut lists, &fix)?; // serves any zone, while no publication touches it
//! assert_eq!(rt; plan(alloc, &frame, &zone, &fix)?.status(), Status::Good);
//! ```
#![tactic(auto)]

mod candidates;
mod climbing;
mod frame_nodes;
mod frames;
mod framing;
mod node_verdicts;
mod planning;
mod surveying;
mod touching;
mod walks;
mod whole;

pub use candidates::candidates_for;
pub use frames::{Frame, FrameNode};
pub use framing::{frame, frame_within};
pub use listings::{Listing, listing_of};
pub use planning::{good, plan};
pub use surveying::{Survey, survey_of};
pub use touching::touches;
pub use verdicts::{
    Judge, Status, Verdict, do_ascend, good_is_planned, listed, put_plan, sort_each_once,
    verdicts_are_right,
};
pub use whole::Whole;
