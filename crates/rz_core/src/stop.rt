//! Why a call gave no answer: a fault, refused memory or a failed read. See `specs/Stop`.

ghost use Rattle.std.specs.Prelude.{◌≡◌};
ghost use Rattle.rz_core.specs.Stop.{halt_of};
ghost use Rattle.rz_core.specs.declared.stop.Halt.TheVariants.{NoMemory as halted_by_memory};
ghost use Rattle.rz_core.specs.declared.stop.Stop.TheVariants.{NoMemory as no_memory};

use std::alloc::{AllocError, AllocFailed};

/// Memory was refused. It is never merged with another answer.
#[derive(Clone, Copy, Debug, PartialEq, Eq)]
pub struct NoMemory;

impl From<AllocError> for NoMemory {
    fn from(_: AllocError) -> Self {
        NoMemory
    }
}

impl<T: Drop> From<AllocFailed<T>> for NoMemory {
    fn from(_: AllocFailed<T>) -> Self {
        NoMemory
    }
}

/// Why a call gave no answer: a rule is broken, or memory was refused.
#[derive(Clone, Copy, Drop, PartialEq, Eq)]
pub enum Stop<F> {
    /// A rule is broken; this is the fault.
    Refused(F),
    /// Memory was refused.
    NoMemory,
}

impl<F: Drop> From<NoMemory> for Stop<F> {
    ghost from_gives = { λ _ stop. stop ≡ no_memory };

    fn from(_: NoMemory) -> Self {
        Stop::NoMemory
    }
}

impl<F: Drop> From<AllocError> for Stop<F> {
    ghost from_gives = { λ _ stop. stop ≡ no_memory };

    fn from(_: AllocError) -> Self {
        Stop::NoMemory
    }
}

/// Why a call that reads files gave no answer.
#[derive(Debug, Drop)]
pub enum Halt<F> {
    /// A rule is broken; this is the fault.
    Refused(F),
    /// A file could not be read. The folder counted a read fault.
    ReadFault,
    /// Memory was refused.
    NoMemory,
}

impl<F: Drop> From<NoMemory> for Halt<F> {
    ghost from_gives = { λ _ halt. halt ≡ halted_by_memory };

    fn from(_: NoMemory) -> Self {
        Halt::NoMemory
    }
}

impl<F: Drop> From<AllocError> for Halt<F> {
    ghost from_gives = { λ _ halt. halt ≡ halted_by_memory };

    fn from(_: AllocError) -> Self {
        Halt::NoMemory
    }
}

impl<F: Drop> From<Stop<F>> for Halt<F> {
    ghost from_gives = { λ stop halt. halt ≡ halt_of stop };

    fn from(stop: Stop<F>) -> Self {
        match stop {
            Stop::Refused(fault) => Halt::Refused(fault),
            Stop::NoMemory => Halt::NoMemory,
        }
    }
}
