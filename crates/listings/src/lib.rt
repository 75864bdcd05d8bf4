//! The SYSMODs that are read from a source, by the indices of their ids: all that are catalogued, or all that one
//! id reaches.
//!
//! - [`Listing`]: all that is catalogued, whatever the zone; [`listing_of`]: reads it once from a source;
//!   [`Listing::renewed`]: brings it up to date after a publication
//! - [`ZoneNodes`]: the nodes of a zone; [`ZoneNodes::of_listing`]: makes them by a listing; [`zone_nodes_of`]:
//!   reads them from a source
//! - [`there_marks`]: the ids that are there in a zone
//! - [`Entry`]: the parts of a SYSMOD that verdicts need
//! - [`Gathered`]: the entry of an id that another reaches, and the ids that supersede it; [`gather`]: reads all
//!   ids that one reaches
//! - [`Links`]: the ids that these need and supersede, by index; [`givers_at`]: the ids that give one
//! - [`ids_found`], [`next_unread`]: the state of a walk that reads
//! - [`is_marked`]: whether an id is one of some that ascend
//! - [`is_any_installed`], [`put_needs_where`]: the functions of a zone, and the needs that they bring
#![tactic(auto)]

mod conditional;
mod found;
mod gathered;
mod links;
mod listed_rows;
mod listing;
mod member_rows;
mod members;
mod places;
mod reading;
mod renewing;
mod superseders;
mod supersedes;
mod zone_nodes;

pub use conditional::put_needs_where;
pub use found::{ids_found, next_unread};
pub use gathered::{Gathered, gather};
pub use links::{Links, givers_at};
pub use listing::{Entry, Listing, is_any_installed, listing_of};
pub use reading::zone_nodes_of;
pub use renewing::is_marked;
pub use zone_nodes::{ZoneNodes, there_marks};
