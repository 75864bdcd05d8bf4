//! The plans for the two reports on a zone, in print and as JSON, with the causes and the holds of each member (IBM
//! z/OS SMP/E Reference, `++VER`, operands FMID, PRE, REQ and SUP, and `++HOLD`).
//!
//! - [`plan_answer`]: the plan for a report, in a form
//! - [`plan_members`]: the members of a plan, each a [`Member`]: its step, its functions, whether it was received, why it
//!   is there, and what to heed
//! - [`plan_text`], [`plan_json`]: a plan in print, and as JSON
//!
//! ```
//! // what isn't named here is of catalogue, chains, mcs_reader, questions, supersede and zone_lists
//! use plan_reports::plan_answer;
//! let source = b"++HOLD(UJ90101) ERROR FMID(HBB77E0) REASON(AJ00001) CLASS(PE).\n\
//! ++PTF(UJ90102).\n++VER(Z038) FMID(HBB77E0) SUP(AJ00001).\n";
//! let mut lists = ListPublished::new(alloc);
//! lists.publish(&read_changes(alloc, &read(alloc, source)?)?)?;
//! let zone = Zone::from_rows(zone_rows(alloc, b"SYSMOD,STATE\nHBB77E0,APPLIED\nUJ90101,APPLIED\n")?);
//! let holds = lists.holds_on(&Id::new(b"UJ90101").ok_or("an id")?)?;
//! let (judge, name) = (&mut Whole::new(), Id::new(b"TGT1").ok_or("an id")?);
//! let asked = (Report::ErrSysmods, Form::Text);
//! let text = plan_answer(alloc, &mut lists, judge, asked.0, asked.1, &name, &zone, &[], &[], &holds)?;
//! assert!(rt; text.starts_with(b"EXCEPTION SYSMOD PLAN FOR ZONE TGT1\n"));
//! ```
#![tactic(auto)]

mod answer;
mod fields;
mod finding;
mod hold_tables;
mod json;
mod listing;
mod member;
mod member_tables;
mod members;
mod placing;
mod telling;
mod text;
mod told;
mod values;

pub use answer::plan_answer;
pub use json::plan_json;
pub use member::Member;
pub use members::plan_members;
pub use text::plan_text;
