//! Where each numbered fault is.
ghost use Rattle.std.specs.Prelude.{◌≡◌};
ghost use Rattle.guard_notes.specs.Notes.{lex_place, syntax_place, name_place, tag_place, value_place};
ghost use Rattle.guard_notes.specs.Notes.{constraint_place, schema_place, policy_place};

use guard_constraints::ConsFault;
use guard_lexer::LexFault;
use guard_model::Site;
use guard_names::NameFault;
use guard_policy::PolicyFault;
use guard_schema::SchemaFault;
use guard_syntax::SyntaxFault;
use guard_tables::TableFault;
use guard_tagging::TagFault;
use guard_values::ValueFault;

/// Where a fault is.
#[derive(Clone, Copy)]
pub enum Place {
    Nowhere,
    /// In the file of the policy.
    ThePolicy,
    /// In the file of the module at this place of the list, from 1.
    Module(u32),
    /// At this place of a module.
    At(Site),
}

/// Where a fault of modules is: None where memory ran out.
pub fn schema_place(fault: &SchemaFault) -> Option<Place>
    ensures { result ≡ schema_place fault.now }
{
    match fault {
        SchemaFault::Lex(fault) => lex_place(fault),
        SchemaFault::Syntax(fault) => syntax_place(fault),
        SchemaFault::Name(fault) => name_place(fault),
        SchemaFault::Tag(fault) => tag_place(fault),
        SchemaFault::Cons(fault) => constraint_place(fault),
        SchemaFault::Value(fault) => value_place(fault),
        SchemaFault::Clash(site, _, _)
        | SchemaFault::DefaultOutside(site)
        | SchemaFault::TooLarge(site) => Some(Place::At(*site)),
        SchemaFault::OutOfMemory => None,
    }
}

/// Where a fault of a policy is: None where memory ran out.
pub fn policy_place(fault: &PolicyFault) -> Option<Place>
    ensures { result ≡ policy_place fault.now }
{
    match fault {
        PolicyFault::OutOfMemory | PolicyFault::Table(_, TableFault::OutOfMemory) => None,
        _ => Some(Place::ThePolicy),
    }
}

fn lex_place(fault: &LexFault) -> Option<Place>
    ensures { result ≡ lex_place fault.now }
{
    match fault {
        LexFault::BadCharacter(site)
        | LexFault::BadString(site)
        | LexFault::OpenComment(site)
        | LexFault::BadHyphen(site)
        | LexFault::NumberTooLarge(site) => Some(Place::At(*site)),
        LexFault::NotUtf8(text) | LexFault::TextTooLong(text) => Some(Place::Module(*text)),
        LexFault::OutOfMemory => None,
    }
}

fn syntax_place(fault: &SyntaxFault) -> Option<Place>
    ensures { result ≡ syntax_place fault.now }
{
    match fault {
        SyntaxFault::Unexpected(site)
        | SyntaxFault::Unsupported(_, site)
        | SyntaxFault::TooDeep(site) => Some(Place::At(*site)),
        SyntaxFault::OutOfMemory => None,
    }
}

fn name_place(fault: &NameFault) -> Option<Place>
    ensures { result ≡ name_place fault.now }
{
    match fault {
        NameFault::Duplicate(site)
        | NameFault::Undefined(site)
        | NameFault::NoModule(site)
        | NameFault::NotExported(site)
        | NameFault::ImportNotDefined(site)
        | NameFault::Recursive(site) => Some(Place::At(*site)),
        NameFault::TooManyModules => Some(Place::ThePolicy),
        NameFault::OutOfMemory => None,
    }
}

fn tag_place(fault: &TagFault) -> Option<Place>
    ensures { result ≡ tag_place fault.now }
{
    match fault {
        TagFault::UniversalTag(site)
        | TagFault::ImplicitChoice(site)
        | TagFault::TagTooLarge(site)
        | TagFault::ComponentsOfKind(site)
        | TagFault::ComponentsOfAutomatic(site)
        | TagFault::ComponentsOfTagged(site)
        | TagFault::DuplicateName(site)
        | TagFault::DuplicateNumber(site)
        | TagFault::TooManyComponents(site)
        | TagFault::TooDeep(site)
        | TagFault::SchemaTooLarge(site)
        | TagFault::NumberTooLarge(site) => Some(Place::At(*site)),
        TagFault::OutOfMemory => None,
    }
}

fn value_place(fault: &ValueFault) -> Option<Place>
    ensures { result ≡ value_place fault.now }
{
    match fault {
        ValueFault::WrongNotation(site)
        | ValueFault::UnknownName(site)
        | ValueFault::MissingComponent(site)
        | ValueFault::RepeatedComponent(site)
        | ValueFault::OutOfOrder(site)
        | ValueFault::BadCharacter(site)
        | ValueFault::BadObjectId(site)
        | ValueFault::TooLarge(site) => Some(Place::At(*site)),
        ValueFault::OutOfMemory => None,
    }
}

fn constraint_place(fault: &ConsFault) -> Option<Place>
    ensures { result ≡ constraint_place fault.now }
{
    match fault {
        ConsFault::NotApplicable(site)
        | ConsFault::ExclusiveLimit(site)
        | ConsFault::AlphabetForm(site)
        | ConsFault::PresenceWord(site)
        | ConsFault::UnknownComponent(site)
        | ConsFault::RepeatedComponent(site)
        | ConsFault::TwoPresent(site)
        | ConsFault::ContainedMismatch(site)
        | ConsFault::SizeOnNamedBits(site) => Some(Place::At(*site)),
        ConsFault::Value(fault) => value_place(fault),
        ConsFault::OutOfMemory => None,
    }
}
