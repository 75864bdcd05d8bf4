//! Reports and their counts, the list of zones and the counts of what is published as JSON.
//!
//! - [`err_json`]: the exception SYSMOD report on a zone
//! - [`missing_json`]: the missing fix report on a zone
//! - [`zone_counts_json`]: the counts of both reports on a zone
//! - [`zones_json`]: a client's zones
//! - [`published_json`]: the counts of what is published
//!
//! ```
//! use report_json::published_json;
//! let text = published_json(alloc, 7, 4)?;
//! assert!(rt; text.as_slice() == b"{\"holds\":4,\"sysmods\":7}".as_slice());
//! ```
#![tactic(auto)]

mod counts;
mod dates;
mod fields;
mod lists;
mod rows;
mod sysmods;
mod texts;

pub use counts::zone_counts_json;
pub use lists::{published_json, zones_json};
pub use texts::{err_json, missing_json};
