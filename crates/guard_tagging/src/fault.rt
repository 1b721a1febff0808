//! Why a written type has no tags and parts.
use guard_model::{OutOfMemory, Site};
use std::alloc::{AllocError, AllocFailed};
use thiserror::Error;

/// Why a written type has no tags and parts. Each fault names a place of the text, but the one that says that memory
/// ran out, which may come in place of any other answer.
#[derive(Debug, Drop, Error)]
pub enum TagFault {
    /// A tag of the universal class is written: at its bracket.
    #[error("G1 UniversalTag {0}")]
    UniversalTag(Site),
    /// IMPLICIT on a CHOICE that has no tag: at the tag's bracket (X.680 31.2.9).
    #[error("G2 ImplicitChoice {0}")]
    ImplicitChoice(Site),
    /// The number of a tag is above 268,435,455: at the tag's bracket.
    #[error("G3 TagTooLarge {0}")]
    TagTooLarge(Site),
    /// COMPONENTS OF a type that is no SEQUENCE, in a SET no SET: at the word COMPONENTS.
    #[error("G4 ComponentsOfKind {0}")]
    ComponentsOfKind(Site),
    /// COMPONENTS OF in a list with automatic tags, or of such a list: at the word COMPONENTS.
    #[error("G5 ComponentsOfAutomatic {0}")]
    ComponentsOfAutomatic(Site),
    /// COMPONENTS OF a type with a tag of its own: at the word COMPONENTS.
    #[error("G6 ComponentsOfTagged {0}")]
    ComponentsOfTagged(Site),
    /// Two components or alternatives have one name: at the later name, or at the word COMPONENTS that puts it in.
    #[error("G7 DuplicateName {0}")]
    DuplicateName(Site),
    /// Two items, named numbers or named bits have one name or one number: at the later one's name.
    #[error("G8 DuplicateNumber {0}")]
    DuplicateNumber(Site),
    /// More than 64 components or alternatives: at the type's first token.
    #[error("G9 TooManyComponents {0}")]
    TooManyComponents(Site),
    /// Nesting above 32: at the type's first token.
    #[error("G10 TooDeep {0}")]
    TooDeep(Site),
    /// More than 100,000 types over all definitions: at the first token of the type with which it is above that.
    #[error("G11 SchemaTooLarge {0}")]
    SchemaTooLarge(Site),
    /// The number of an item or a named number is outside signed 128 bits, or that of a named bit is above 65,535: at
    /// its name.
    #[error("G12 NumberTooLarge {0}")]
    NumberTooLarge(Site),
    #[error("OutOfMemory")]
    OutOfMemory,
}

impl From<OutOfMemory> for TagFault {
    ghost use Rattle.std.specs.Prelude.{◌≡◌};
    ghost use Rattle.guard_tagging.specs.declared.fault.TagFault.TheVariants as fault;

    ghost from_gives = { λ _ e. e ≡ fault.OutOfMemory };

    fn from(_e: OutOfMemory) -> TagFault {
        TagFault::OutOfMemory
    }
}

impl From<AllocError> for TagFault {
    ghost use Rattle.std.specs.Prelude.{◌≡◌};
    ghost use Rattle.guard_tagging.specs.declared.fault.TagFault.TheVariants as fault;

    ghost from_gives = { λ _ e. e ≡ fault.OutOfMemory };

    fn from(_e: AllocError) -> TagFault {
        TagFault::OutOfMemory
    }
}

impl<T: Drop> From<AllocFailed<T>> for TagFault {
    ghost use Rattle.std.specs.Prelude.{◌≡◌};
    ghost use Rattle.guard_tagging.specs.declared.fault.TagFault.TheVariants as fault;

    ghost from_gives = { λ _ e. e ≡ fault.OutOfMemory };

    fn from(_e: AllocFailed<T>) -> TagFault {
        TagFault::OutOfMemory
    }
}
