//! The reasons why a case of the tests fails.

ghost use Rattle.std.specs.Prelude.{◌≡◌};

use std::alloc::{AllocError, AllocFailed};
use std::fmt;

/// Reason why a case fails or can't be tried.
#[derive(Clone, Copy)]
pub enum Fault {
    /// Memory ran out.
    Memory,
    /// A line of the cases isn't valid.
    Unread,
    /// A run differs from the expected one, in `what`, while the call number `call`, from 0, fails.
    Differs { what: &'static str, call: u64 },
}

impl Fault {
    /// Fails with `Differs`, with `what` and the number `call` of the failing call, from 0, unless `holds` is true.
    /// Each check of a run ends so.
    pub fn unless(holds: bool, what: &'static str, call: u64) -> Result<(), Fault> {
        if holds {
            Ok(())
        } else {
            Err(Fault::Differs { what, call })
        }
    }
}

impl fmt::Display for Fault {
    /// Writes the reason as a case's result prints it. Used by the test of the worked cases.
    fn fmt<W: fmt::Write>(&self, f: &mut fmt::Formatter<W>) -> fmt::Result {
        match self {
            Fault::Memory => write!(f, "no memory"),
            Fault::Unread => write!(f, "can't be read"),
            Fault::Differs { what, call } => write!(f, "{what}, where call {call} fails"),
        }
    }
}

impl From<AllocError> for Fault {
    ghost use Rattle.run_cases.specs.declared.fault.Fault.TheVariants.{Memory};

    ghost from_gives = { λ _ fault. fault ≡ Memory };

    /// Returns the reason of a case that fails when memory ran out. Used by `?` in the test of the worked cases.
    fn from(_: AllocError) -> Fault {
        Fault::Memory
    }
}

impl<T: Drop> From<AllocFailed<T>> for Fault {
    ghost use Rattle.run_cases.specs.declared.fault.Fault.TheVariants.{Memory};

    ghost from_gives = { λ _ fault. fault ≡ Memory };

    /// Returns the reason of a case that fails when memory ran out for a value. Used by `?` in the test of the worked
    /// cases.
    fn from(_: AllocFailed<T>) -> Fault {
        Fault::Memory
    }
}
