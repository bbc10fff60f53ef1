//! Why a run is refused, or ends early.
ghost use Rattle.std.specs.Prelude.{◌≡◌};
ghost use Rattle.ds_station.specs.Faults.{fault_number};
ghost use Rattle.ds_station.specs.Inner.Faults.{of_policy, of_events, of_halt, in_source};
ghost use Rattle.ds_station.specs.declared.fault.Fault.TheVariants as fault;

use ds_asm::{AsmFault, SourceFault};
use ds_kernel::Halt;
use ds_mem::OutOfMemory;
use ds_policy::{EventsFault, PolicyFault, Text};
use ds_text::WriteFailed;
use ds_tlb::BadRandom;
use std::alloc::{AllocError, AllocFailed};
use std::fmt;
use thiserror::Error;

/// Why a run is refused, or ends early. Its text is the refusal's number and name, and the number or
/// name that it carries.
#[derive(Drop, Error)]
pub enum Fault {
    /// Random can't start there.
    #[error("1 BadRandom")]
    BadRandom,
    /// What is wrong in the text of the source of this name.
    #[error("{} {} {} {}", .fault.number(), .fault.name(), .name.as_str(), .fault.line())]
    InSource { name: Text<64>, fault: SourceFault },
    /// The policy is no TOML.
    #[error("8 BadToml")]
    BadToml,
    /// The first rule of the policy, from 1, that can't be granted.
    #[error("9 BadRule {0}")]
    BadRule(u32),
    /// The first value of the policy that is missing or out of its range, or `n`.
    #[error("10 Limit {0}")]
    Limit(&'static str),
    /// The first line of the input, from 1, that is wrong.
    #[error("20 InputFault {0}")]
    InputFault(u64),
    /// A unit took too many instructions. No call answers it, since each unit ends before.
    #[error("21 Stuck")]
    Stuck,
    /// An earlier fault stands.
    #[error("22 Failed")]
    Failed,
    /// A write failed, or took nothing.
    #[error("23 WriteFault")]
    WriteFault,
    /// There is no source of this name.
    #[error("24 NoSource {}", .0.as_str())]
    NoSource(Text<64>),
    /// Memory ran out.
    #[error("25 Memory")]
    Memory,
}

impl fmt::Debug for Fault {
    fn fmt<W: fmt::Write>(&self, f: &mut fmt::Formatter<W>) -> fmt::Result {
        write!(f, "{self}")
    }
}

impl Fault {
    /// The fault's number among the refusals.
    pub fn number(&self) -> u32
        ensures { result ≡ fault_number self.now }
    {
        match self {
            Fault::BadRandom => 1,
            Fault::InSource { fault, .. } => fault.number(),
            Fault::BadToml => 8,
            Fault::BadRule(_) => 9,
            Fault::Limit(_) => 10,
            Fault::InputFault(_) => 20,
            Fault::Stuck => 21,
            Fault::Failed => 22,
            Fault::WriteFault => 23,
            Fault::NoSource(_) => 24,
            Fault::Memory => 25,
        }
    }

    /// What the assembler answers for the source of this name, as a fault of the run.
    pub fn in_source(name: &Text<64>, fault: AsmFault) -> Fault
        ensures { result ≡ in_source name.now fault }
    {
        match fault {
            AsmFault::Source(fault) => Fault::InSource {
                name: Text::of(name.as_str()),
                fault,
            },
            AsmFault::Memory => Fault::Memory,
        }
    }
}

impl From<PolicyFault> for Fault {
    ghost from_gives = { λ e f. f ≡ of_policy e };

    fn from(e: PolicyFault) -> Fault {
        match e {
            PolicyFault::BadToml => Fault::BadToml,
            PolicyFault::BadRule(number) => Fault::BadRule(number),
            PolicyFault::Limit(key) => Fault::Limit(key),
            PolicyFault::Memory => Fault::Memory,
        }
    }
}

impl From<EventsFault> for Fault {
    ghost from_gives = { λ e f. f ≡ of_events e };

    fn from(e: EventsFault) -> Fault {
        match e {
            EventsFault::InputFault(line) => Fault::InputFault(line),
            EventsFault::Memory => Fault::Memory,
        }
    }
}

impl From<Halt> for Fault {
    ghost from_gives = { λ h f. f ≡ of_halt h };

    fn from(h: Halt) -> Fault {
        match h {
            Halt::Memory => Fault::Memory,
            Halt::Failed => Fault::Failed,
        }
    }
}

impl From<BadRandom> for Fault {
    ghost from_gives = { λ _ f. f ≡ fault.BadRandom };

    fn from(_e: BadRandom) -> Fault {
        Fault::BadRandom
    }
}

impl From<WriteFailed> for Fault {
    ghost from_gives = { λ _ f. f ≡ fault.WriteFault };

    fn from(_e: WriteFailed) -> Fault {
        Fault::WriteFault
    }
}

impl From<OutOfMemory> for Fault {
    ghost from_gives = { λ _ f. f ≡ fault.Memory };

    fn from(_e: OutOfMemory) -> Fault {
        Fault::Memory
    }
}

impl From<AllocError> for Fault {
    ghost from_gives = { λ _ f. f ≡ fault.Memory };

    fn from(_e: AllocError) -> Fault {
        Fault::Memory
    }
}

impl<T: Drop> From<AllocFailed<T>> for Fault {
    ghost from_gives = { λ _ f. f ≡ fault.Memory };

    fn from(_e: AllocFailed<T>) -> Fault {
        Fault::Memory
    }
}
