//! One plan for a zone: the SYSMODs to install so that the holds of a report are resolved, and in which order (IBM z/OS
//! SMP/E Reference, `++VER`, operands PRE, REQ and SUP).
//!
//! - [`err_plan`], [`missing_plan`]: the plans for the two reports, as a [`ZonePlan`]
//! - [`zone_plan`]: the plan for some holds of a report, each with its resolvers
//! - [`Steps`]: the SYSMODs to install, step by step
//! - [`Findings`]: what was found of the SYSMODs that the chosen plans have together; [`Reading`]: one SYSMOD as it was
//!   read
//! - [`HoldOn`]: a hold by its SYSMOD and its reason; [`ChosenResolver`]: a hold with the resolver that is chosen for
//!   it
//!
//! ```
//! // what isn't named here is of catalogue, chains, mcs_reader, supersede and zone_lists
//! use zone_plans::err_plan;
//! let source = b"++HOLD(UJ90101) ERROR FMID(HBB77E0) REASON(AJ00001) CLASS(PE).\n\
//! ++PTF(UJ90102).\n++VER(Z038) FMID(HBB77E0) SUP(AJ00001).\n";
//! let mut lists = ListPublished::new(alloc);
//! lists.publish(&read_changes(alloc, &read(alloc, source)?)?)?;
//! let zone = Zone::from_rows(zone_rows(alloc, b"SYSMOD,STATE\nHBB77E0,APPLIED\nUJ90101,APPLIED\n")?);
//! let holds = lists.holds_on(&Id::new(b"UJ90101").ok_or("an id")?)?;
//! let plan = err_plan(alloc, &mut lists, &mut Whole::new(), &zone, &[], &holds)?;
//! assert!(rt; plan.steps().len() == 1 && plan.steps().step(alloc, 0)?.len() == 1); // UJ90102
//! ```
#![tactic(auto)]

mod choice;
mod climbing;
mod findings;
mod giving;
mod graph;
mod holds;
mod marks;
mod others;
mod placing;
mod plan;
mod reading;
mod report_plans;
mod steps;
mod tops;

pub use findings::Findings;
pub use holds::{ChosenResolver, HoldOn};
pub use plan::{ZonePlan, zone_plan};
pub use reading::Reading;
pub use report_plans::{err_plan, missing_plan};
pub use steps::Steps;
