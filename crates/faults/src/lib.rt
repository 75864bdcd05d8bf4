//! Faults: reasons to refuse something, in one form for all crates.
//!
//! - [`Fault`]: a reason to refuse something
//! - [`AnyFault`]: a fault of any kind: its number, its place, if it has one, and its cause
//! - [`Cause`]: whether what was given is at fault, or the machine
//! - [`fault_text`]: the line `FAULT number place` that tells a fault
//! - [`NoMemory`]: memory ran out
//!
//! The contract of a call that can be refused says `IsRefusal memory IsFault fault` (`specs/Refusal.antt`): memory
//! ran out, or the fault is the one that is told.
//!
//! ```
//! use faults::{AnyFault, fault_text};
//! use mcs_reader::read;
//! // the statement that begins on line 2 has no period
//! let source = b"++HOLD(UJ90101) ERROR REASON(AJ00001).\n++RELEASE(UJ90101) ERROR\n";
//! let fault = read(alloc, source).err().ok_or("a fault")?;
//! assert_eq!(rt; AnyFault::from(fault), AnyFault::at_place(1, 2));
//! assert_eq!(rt; fault_text(fault).as_str(), "FAULT 1 2\n");
//! ```
#![tactic(auto)]

mod any;
mod fault;
mod text;

pub use any::AnyFault;
pub use fault::{Cause, Fault};
/// Memory ran out.
pub use std::alloc::AllocError as NoMemory;
pub use text::fault_text;
