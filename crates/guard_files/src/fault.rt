//! Why a request isn't met. Each fault is reported after `derguard: `.
ghost use Rattle.std.specs.Prelude.{◌≡◌, IfOk, string_bytes};
ghost use Rattle.guard_frames.specs.Texts.{of_schema};
ghost use Rattle.guard_files.specs.Faults.{fault_status, IsText, StandsForPolicy, of_texts};
ghost use Rattle.guard_files.specs.declared.fault.Fault.TheVariants as fault;

use crate::files::Obstacle;
use guard_frames::{RunFault, TextsFault};
use guard_model::OutOfMemory;
use guard_policy::PolicyFault;
use guard_schema::SchemaFault;
use std::alloc::{AllocError, AllocFailed, Global};

/// Why a request isn't met. NoMemory may come in place of any answer, and no other variant means it.
#[derive(Debug, Drop)]
pub enum Fault {
    /// The file at this path can't be read.
    CannotRead(String, Obstacle),
    /// The file at this path has more octets than a policy or a file of cases may have.
    TooLarge(String),
    /// The modules' first fault.
    Schema(SchemaFault),
    /// The policy's first fault.
    Policy(PolicyFault),
    /// Why the stream wasn't guarded to its end.
    Run(RunFault),
    NoMemory,
}

impl Fault {
    /// The status with which the program ends: 2 where a file, modules or a policy are bad, 3 where a stream or
    /// a device failed or memory ran out.
    pub fn status(&self) -> u8
        ensures { result ≡ fault_status self.now }
    {
        match self {
            Fault::CannotRead(_, _) | Fault::TooLarge(_) | Fault::Schema(_) | Fault::Policy(_) => 2,
            Fault::Run(_) | Fault::NoMemory => 3,
        }
    }

    /// What is reported of it. A fault of modules or of a policy prints as itself.
    pub fn text(&self, alloc: Global) -> Result<String, AllocError>
        ensures { IfOk result (λ text. IsText self.now (string_bytes text)) }
    {
        match self {
            Fault::CannotRead(path, _) => format!(in alloc; "cannot read {path}"),
            Fault::TooLarge(path) => format!(in alloc; "too large {path}"),
            Fault::Schema(fault) => format!(in alloc; "{fault}"),
            Fault::Policy(fault) => format!(in alloc; "{fault}"),
            Fault::Run(fault) => String::from_str(alloc, fault.text()),
            Fault::NoMemory => String::from_str(alloc, "no-memory"),
        }
    }
}

impl From<OutOfMemory> for Fault {
    ghost from_gives = { λ _ e. e ≡ fault.NoMemory };

    fn from(_e: OutOfMemory) -> Fault {
        Fault::NoMemory
    }
}

impl From<AllocError> for Fault {
    ghost from_gives = { λ _ e. e ≡ fault.NoMemory };

    fn from(_e: AllocError) -> Fault {
        Fault::NoMemory
    }
}

impl<T: Drop> From<AllocFailed<T>> for Fault {
    ghost from_gives = { λ _ e. e ≡ fault.NoMemory };

    fn from(_e: AllocFailed<T>) -> Fault {
        Fault::NoMemory
    }
}

impl From<PolicyFault> for Fault {
    ghost from_gives = { λ f e. StandsForPolicy f e };

    fn from(fault: PolicyFault) -> Fault {
        match fault {
            PolicyFault::OutOfMemory => Fault::NoMemory,
            fault => Fault::Policy(fault),
        }
    }
}

impl From<SchemaFault> for Fault {
    ghost from_gives = { λ f e. e ≡ of_texts (of_schema f) };

    fn from(fault: SchemaFault) -> Fault {
        Fault::from(TextsFault::from(fault))
    }
}

impl From<TextsFault> for Fault {
    ghost from_gives = { λ f e. e ≡ of_texts f };

    fn from(fault: TextsFault) -> Fault {
        match fault {
            TextsFault::Schema(fault) => Fault::Schema(fault),
            TextsFault::Policy(fault) => Fault::Policy(fault),
            TextsFault::Run(fault) => Fault::Run(fault),
            TextsFault::OutOfMemory => Fault::NoMemory,
        }
    }
}
