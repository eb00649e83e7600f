//! Why reading stops. `'e` is how long texts of errors are borrowed.
ghost use Rattle.std.specs.Prelude.{◌≡◌};
ghost use Rattle.event_core.specs.Building.{is_memory};
ghost use Rattle.event_core.specs.Faults.{fault_of};
ghost use Rattle.read_steps.specs.Stops.{told_stop, IsFault};

use event_core::{DeserializeError, DeserializeErrorKind};
use shape_core::{Boxed, OutOfMemory};
use std::alloc::{AllocFailed, Global};

/// Why a value wasn't read: want of memory, or a fault, which is boxed.
#[derive(Drop)]
pub enum ReadStop<'e> {
    /// Memory ran out.
    Alloc,
    /// A fault of the input, or of the parser.
    Fault(Boxed<DeserializeError<'e>>),
}

impl<'e> From<OutOfMemory> for ReadStop<'e> {
    ghost use Rattle.std.specs.Prelude.{◌≡◌};
    ghost use Rattle.read_steps.specs.declared.stop.ReadStop.TheVariants.{Alloc};

    ghost from_gives = { λ _ stop. stop ≡ Alloc };

    fn from(_error: OutOfMemory) -> ReadStop<'e> {
        ReadStop::Alloc
    }
}

impl<'e, T: Drop> From<AllocFailed<T>> for ReadStop<'e> {
    ghost use Rattle.std.specs.Prelude.{◌≡◌};
    ghost use Rattle.read_steps.specs.declared.stop.ReadStop.TheVariants.{Alloc};

    ghost from_gives = { λ _ stop. stop ≡ Alloc };

    fn from(_error: AllocFailed<T>) -> ReadStop<'e> {
        ReadStop::Alloc
    }
}

impl<'e> ReadStop<'e> {
    /// A fault, unless memory runs out.
    pub fn fault(alloc: Global, error: DeserializeError<'e>) -> ReadStop<'e>
        ensures { IsFault (told_stop result) (fault_of error.entry) }
    {
        match Boxed::new(alloc, error) {
            Ok(error) => ReadStop::Fault(error),
            Err(_) => ReadStop::Alloc,
        }
    }
}

/// Whether memory ran out.
pub fn is_memory(kind: &DeserializeErrorKind<'_>) -> bool
    ensures { result ≡ is_memory kind.now }
{
    matches!(kind, DeserializeErrorKind::Alloc { operation: _ })
}
