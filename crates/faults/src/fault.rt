//! Reasons to refuse something.
ghost use Rattle.std.specs.Prelude.{◌≡◌, ◌<◌};
ghost use Rattle.faults.specs.declared.any.AnyFault.{AnyFault};

use crate::AnyFault;

/// The cause of a fault.
#[derive(Clone, Copy, Debug, PartialEq, Eq)]
pub enum Cause {
    /// The input: a text, or a file of another form. The same input gets the same fault again.
    Input,
    /// The machine: memory, a device or its size. The same input may be taken another time.
    Machine,
}

/// A reason to refuse something.
pub trait Fault: Copy {
    /// The number, the place and the cause of the fault.
    ghost told: { Self → AnyFault };

    /// The fault's number in print, its place and its cause. The number is from 1 to 99. Each crate's faults
    /// have numbers of their own, one of them for want of memory.
    fn told(self) -> AnyFault
        ensures told { result ≡ told self }
        ensures number { (0 < result.number) × (result.number < 100) };
}
