//! What a call lacked that is answered 503.
ghost use Rattle.std.specs.Prelude.{◌≡◌, codes};
ghost use Rattle.bureau.specs.Lack.{lack_name, lack_of_source, lack_of_store};
ghost use Rattle.bureau.specs.declared.lack.Lack.TheVariants.{Memory};

use crate::NoMemory;
use bureau_store::StoreFault;
use catalogue::SourceFault;
use std::alloc::AllocFailed;

/// What a call lacked that is answered 503. The log of a desk names it.
#[derive(Clone, Copy, Debug)]
pub enum Lack {
    /// Memory ran out.
    Memory,
    /// The store is as long as it may be.
    Size,
    /// The device of the store failed, now or before.
    Device,
}

impl Lack {
    /// Its word: `memory`, `size` or `device`.
    pub fn name(self) -> &'static str
        ensures { result.now ≡ lack_name self }
    {
        match self {
            Lack::Memory => "memory",
            Lack::Size => "size",
            Lack::Device => "device",
        }
    }
}

impl From<NoMemory> for Lack {
    ghost from_gives = { λ _ lack. lack ≡ Memory };

    fn from(_: NoMemory) -> Lack {
        Lack::Memory
    }
}

impl<T: Drop> From<AllocFailed<T>> for Lack {
    ghost from_gives = { λ _ lack. lack ≡ Memory };

    fn from(_: AllocFailed<T>) -> Lack {
        Lack::Memory
    }
}

impl From<SourceFault> for Lack {
    ghost from_gives = { λ fault lack. lack ≡ lack_of_source fault };

    fn from(fault: SourceFault) -> Lack {
        match fault {
            SourceFault::Memory => Lack::Memory,
            SourceFault::Device => Lack::Device,
        }
    }
}

impl From<StoreFault> for Lack {
    ghost from_gives = { λ fault lack. lack ≡ lack_of_store fault };

    fn from(fault: StoreFault) -> Lack {
        match fault {
            StoreFault::Memory => Lack::Memory,
            StoreFault::Size => Lack::Size,
            StoreFault::Device | StoreFault::Shape | StoreFault::Version => Lack::Device,
        }
    }
}
