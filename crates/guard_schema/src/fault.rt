//! Why texts denote no schema.
ghost use Rattle.std.specs.Prelude.{◌≡◌, option_map, None};
ghost use Rattle.guard_schema.specs.Faults.{named, Lex, Syntax, Name, Tag, Cons, Value};

use guard_constraints::ConsFault;
use guard_lexer::LexFault;
use guard_model::{OutOfMemory, PathText, Site};
use guard_names::NameFault;
use guard_syntax::SyntaxFault;
use guard_tagcheck::{Clash, InCommon};
use guard_tagging::TagFault;
use guard_values::ValueFault;
use std::alloc::{AllocError, AllocFailed};
use thiserror::Error;

/// Why texts denote no schema. `Schema::build` says in which order faults are looked for. A fault of a layer prints as
/// itself. OutOfMemory may come in place of any answer, and no other variant means it.
#[derive(Debug, Drop, Error)]
pub enum SchemaFault {
    /// L1 to L7: a text has no tokens (X.680 clause 12).
    #[error("{0}")]
    Lex(LexFault),
    /// P1 to P3: the tokens of a text are no module (X.680 clause 13).
    #[error("{0}")]
    Syntax(SyntaxFault),
    /// N1 to N7: a name in the modules is declared twice, means nothing, or is that of a definition which uses itself;
    /// or there are more than 64 texts (X.680 13.1).
    #[error("{0}")]
    Name(NameFault),
    /// G1 to G12: tags, parts or numbers of a written type are wrong (X.680 clauses 19 to 31).
    #[error("{0}")]
    Tag(TagFault),
    /// S1: two components or alternatives that must differ in their tags share one (X.680 25.6, 27.3, 29.3), in the
    /// definition whose name is there. Their names and the tag are beside the clash.
    #[error("S1 Clash {0} {way} {first} {second}", way = PathText(&.1.path), first = .1.first, second = .1.second)]
    Clash(Site, Clash, Option<InCommon>),
    /// C1 to C10: a constraint isn't lawful on its type (X.680 clauses 49 to 51).
    #[error("{0}")]
    Cons(ConsFault),
    /// V1 to V8: a written value denotes no value of its type (X.680 clause 17).
    #[error("{0}")]
    Value(ValueFault),
    /// S2: the default or the assigned value that is there is no member of its type.
    #[error("S2 DefaultOutside {0}")]
    DefaultOutside(Site),
    /// S3: with the definition of the name there, constraints, values and contained types are more than 100,000.
    #[error("S3 TooLarge {0}")]
    TooLarge(Site),
    /// Memory ran out. Nothing is said of the texts.
    #[error("OutOfMemory")]
    OutOfMemory,
}

// What a conversion gives is said by what the fault names, not case by case: where a layer ran out of memory, so did
// the schema.
impl From<LexFault> for SchemaFault {
    ghost use Rattle.guard_lexer.specs.Lexing.{fault_named};

    ghost from_gives = { λ f e. named e ≡ option_map Lex (fault_named f) };

    fn from(fault: LexFault) -> SchemaFault {
        match fault {
            LexFault::OutOfMemory => SchemaFault::OutOfMemory,
            fault => SchemaFault::Lex(fault),
        }
    }
}

impl From<SyntaxFault> for SchemaFault {
    ghost use Rattle.guard_syntax.specs.Faults.{fault_of};

    ghost from_gives = { λ f e. named e ≡ option_map Syntax (fault_of f) };

    fn from(fault: SyntaxFault) -> SchemaFault {
        match fault {
            SyntaxFault::OutOfMemory => SchemaFault::OutOfMemory,
            fault => SchemaFault::Syntax(fault),
        }
    }
}

impl From<NameFault> for SchemaFault {
    ghost use Rattle.guard_names.specs.Faults as names;

    ghost from_gives = { λ f e. named e ≡ option_map Name (names.named f) };

    fn from(fault: NameFault) -> SchemaFault {
        match fault {
            NameFault::OutOfMemory => SchemaFault::OutOfMemory,
            fault => SchemaFault::Name(fault),
        }
    }
}

impl From<TagFault> for SchemaFault {
    ghost use Rattle.guard_tagging.specs.Named as tagging;

    ghost from_gives = { λ f e. named e ≡ option_map Tag (tagging.named f) };

    fn from(fault: TagFault) -> SchemaFault {
        match fault {
            TagFault::OutOfMemory => SchemaFault::OutOfMemory,
            fault => SchemaFault::Tag(fault),
        }
    }
}

impl From<ConsFault> for SchemaFault {
    ghost use Rattle.guard_constraints.specs.Views as constraints;

    ghost from_gives = { λ f e. named e ≡ option_map Cons (constraints.named f) };

    fn from(fault: ConsFault) -> SchemaFault {
        match fault {
            ConsFault::OutOfMemory => SchemaFault::OutOfMemory,
            fault => SchemaFault::Cons(fault),
        }
    }
}

impl From<ValueFault> for SchemaFault {
    ghost use Rattle.guard_values.specs.Views as values;

    ghost from_gives = { λ f e. named e ≡ option_map Value (values.named f) };

    fn from(fault: ValueFault) -> SchemaFault {
        match fault {
            ValueFault::OutOfMemory => SchemaFault::OutOfMemory,
            fault => SchemaFault::Value(fault),
        }
    }
}

impl From<OutOfMemory> for SchemaFault {
    ghost from_gives = { λ _ e. named e ≡ None };

    fn from(_e: OutOfMemory) -> SchemaFault {
        SchemaFault::OutOfMemory
    }
}

impl From<AllocError> for SchemaFault {
    ghost from_gives = { λ _ e. named e ≡ None };

    fn from(_e: AllocError) -> SchemaFault {
        SchemaFault::OutOfMemory
    }
}

impl<T: Drop> From<AllocFailed<T>> for SchemaFault {
    ghost from_gives = { λ _ e. named e ≡ None };

    fn from(_e: AllocFailed<T>) -> SchemaFault {
        SchemaFault::OutOfMemory
    }
}
