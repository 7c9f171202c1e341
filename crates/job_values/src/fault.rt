//! The faults of a declaration.

ghost use Rattle.std.specs.Prelude.{◌≡◌};
ghost use Rattle.job_values.specs.Said.{fault_at};

use crate::member::Member;
use ds_base::OutOfMemory;
use query_lang::QueryWhat;
use thiserror::Error;

/// The first fault of a declaration: the member where it is, what is wrong there, and the position
/// in the list of captures, of variables or of rules, or in the key, the exits or the allowed paths;
/// 0 where the fault is of none of their elements.
#[derive(Clone, Copy, Debug, PartialEq, Eq, Error)]
#[error("{member:?}, element {index}: {what}")]
pub struct JobFault {
    pub member: Member,
    pub index: u32,
    pub what: JobWhat,
}

/// What is wrong with a member.
#[derive(Clone, Copy, Debug, PartialEq, Eq, Error)]
pub enum JobWhat {
    /// The declaration is no JSON.
    #[error("no JSON")]
    NotJson,
    /// The member is needed and not there.
    #[error("missing")]
    Missing,
    /// Its value is of another kind, such as a text in place of a number.
    #[error("a value of another kind")]
    WrongKind,
    /// The object has a member that does not belong there.
    #[error("a member that does not belong there")]
    Stray,
    /// A name that is no identifier or is reserved, or a file's name with a byte 0.
    #[error("a name that may not stand there")]
    BadName,
    /// The same name or number stands earlier in the list.
    #[error("the same name twice")]
    Twice,
    /// A name that stands for nothing here.
    #[error("a name that stands for nothing")]
    Unknown,
    /// A text that is no field.
    #[error("no field")]
    Field,
    /// A text that is no expression; what is wrong with it, and at which byte.
    #[error("no expression: at byte {at}: {what}")]
    Expression { at: u32, what: QueryWhat },
    /// A number, a length or a count that is out of its limits; `value` is that number.
    #[error("{value} is out of its limits")]
    Limit { value: u128 },
}

/// Why a declaration was not read.
#[derive(Clone, Copy, Debug, PartialEq, Eq, Error)]
pub enum ReadJobFault {
    /// Its first fault.
    #[error("{0}")]
    Bad(JobFault),
    /// There was no memory.
    #[error("out of memory")]
    OutOfMemory,
}

impl From<JobFault> for ReadJobFault {
    ghost use Rattle.std.specs.Prelude.{◌≡◌};
    ghost use Rattle.job_values.specs.declared.fault.ReadJobFault.TheVariants as answer;

    ghost from_gives = { λ fault e. e ≡ answer.Bad fault };

    fn from(fault: JobFault) -> ReadJobFault {
        ReadJobFault::Bad(fault)
    }
}

impl From<OutOfMemory> for ReadJobFault {
    ghost use Rattle.std.specs.Prelude.{◌≡◌};
    ghost use Rattle.job_values.specs.declared.fault.ReadJobFault.TheVariants as answer;

    ghost from_gives = { λ _ e. e ≡ answer.OutOfMemory };

    fn from(_: OutOfMemory) -> ReadJobFault {
        ReadJobFault::OutOfMemory
    }
}

/// A fault of a member.
pub fn fault_at(member: Member, index: u32, what: JobWhat) -> JobFault
    ensures { result ≡ fault_at member index what }
{
    JobFault {
        member,
        index,
        what,
    }
}
