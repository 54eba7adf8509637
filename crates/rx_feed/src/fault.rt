//! Why the command fails.

ghost use Rattle.std.specs.Prelude.{◌≡◌};

use rx_transfer::ReadFault;
use std::alloc::AllocError;

/// Why the command has no status of its own.
#[derive(Clone, Copy, Debug, PartialEq, Eq)]
pub enum Fault {
    /// A read failed.
    Source,
    /// A write failed.
    Sink,
    /// Memory ran out.
    Memory,
}

impl From<ReadFault> for Fault {
    ghost use Rattle.std.specs.Prelude.{◌≡◌};
    ghost use Rattle.rx_feed.specs.Outside.{source_fault};

    ghost from_gives = { λ fault e. e ≡ source_fault fault };

    fn from(fault: ReadFault) -> Fault {
        match fault {
            ReadFault::Failed => Fault::Source,
            ReadFault::Memory => Fault::Memory,
        }
    }
}

impl From<AllocError> for Fault {
    ghost use Rattle.std.specs.Prelude.{◌≡◌};
    ghost use Rattle.rx_feed.specs.declared.fault.Fault.TheVariants.{Memory};

    ghost from_gives = { λ _ e. e ≡ Memory };

    fn from(_: AllocError) -> Fault {
        Fault::Memory
    }
}
