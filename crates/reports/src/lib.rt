//! Reports: exception SYSMODs and missing fixes, as rows and in print.
//!
//! - [`err_rows`], [`missing_rows`]: the rows of the reports, from the published content and a zone
//! - [`err_holds`], [`missing_holds`]: the holds of the reports, each with its resolvers, from which rows and plans are
//!   made: [`HoldResolvers`], [`Resolver`]
//! - [`err_lines`], [`missing_lines`]: the [`Line`]s of these in the order of the reports, each with its hold
//! - [`ErrRow`], [`MissingRow`]: a row of each report; [`MissingCategory`]: a fix category of its row
//! - [`Status`]: the verdict on a resolver
//! - [`err_text`], [`missing_text`]: the reports in print
//! - [`titled`]: a title that ends with a zone's name
//! - [`plan_json`]: a verdict as JSON; [`text_values`]: texts of ids; [`compact`]: the text of a value
//! - [`answer_among`], [`list_among`]: the answer for one of the SYSMODs that were asked for; [`is_among`]: whether it
//!   is one of them; [`put_all`]: adds ids
//!
//! ```
//! // what isn't named here is of catalogue, chains, mcs_reader, supersede and zone_lists
//! use reports::{err_rows, err_text};
//! let source = b"++HOLD(UJ90101) ERROR FMID(HBB77E0) REASON(AJ00001) CLASS(PE).\n\
//! ++PTF(UJ90102).\n++VER(Z038) FMID(HBB77E0) SUP(AJ00001).\n";
//! let mut lists = ListPublished::new(alloc);
//! lists.publish(&read_changes(alloc, &read(alloc, source)?)?)?;
//! let zone = Zone::from_rows(zone_rows(alloc, b"SYSMOD,STATE\nHBB77E0,APPLIED\nUJ90101,APPLIED\n")?);
//! let holds = lists.holds_on(&Id::new(b"UJ90101").ok_or("an id")?)?;
//! let rows = err_rows(alloc, &mut lists, &mut Whole::new(), &zone, &[], &holds)?;
//! let text = err_text(alloc, &Id::new(b"TGT1").ok_or("an id")?, &rows)?;
//! assert!(rt; text.ends_with(b"HBB77E0  UJ90101  AJ00001  UJ90102  GOOD   NO       PE\nROWS 1\n"));
//! ```
#![tactic(auto)]

mod among;
mod asking;
mod chain;
mod errors;
mod holds;
mod json;
mod lines;
mod missing;
mod resolvers;
mod rows;
mod text;

pub use among::{answer_among, is_among, list_among, put_all};
pub use chain::plan_json;
pub use errors::{err_holds, err_lines, err_rows};
pub use holds::{HoldResolvers, Resolver};
pub use json::{compact, text_values};
pub use lines::Line;
pub use missing::{missing_holds, missing_lines, missing_rows};
pub use rows::{ErrRow, MissingCategory, MissingRow};
pub use text::{err_text, missing_text, titled};
pub use verdicts::Status;
