//! The words on what to do about a fault of modules, by the fault and the text that has it. Rows show most of them. The
//! contract says that they are lines of words and where they come, and not which.
use crate::left_out::{
    LOWERED, form_of_character, form_of_unexpected, form_of_value, more_of_word,
};
use crate::sources::{Sources, is_listed_before, module_text};
use crate::text_notes::octets_at;
use guard_constraints::ConsFault;
use guard_lexer::LexFault;
use guard_model::{OutOfMemory, Site};
use guard_names::NameFault;
use guard_schema::SchemaFault;
use guard_syntax::SyntaxFault;
use guard_tagging::TagFault;
use guard_values::ValueFault;
use std::alloc::Global;

/// Where the grammar goes no further.
pub const NO_FURTHER: &str =
    "A module can not go on like this. Look at what is here and at what is missing before it.";

/// Where a value isn't written as those of its type are.
pub const WRONG_VALUE: &str =
    "A value of its type is not written like this, or the name stands for a value of another type.";

/// What is wrong and what to do, in a line of at most 120 columns; and where there is more to say another such line.
#[derive(Clone, Copy)]
pub struct Advice<'a> {
    pub words: &'a str,
    pub more: Option<&'a str>,
}

pub fn words<'a>(words: &'a str) -> Advice<'a> {
    Advice { words, more: None }
}

pub fn two_lines<'a>(words: &'a str, more: &'a str) -> Advice<'a> {
    Advice {
        words,
        more: Some(more),
    }
}

/// A fault of modules; S1 to S3 are those of the schema as a whole. Where memory ran out nothing is shown.
pub fn schema_advice(
    alloc: Global,
    sources: &Sources,
    fault: &SchemaFault,
) -> Result<Advice<'static>, OutOfMemory> {
    match fault {
        SchemaFault::Lex(fault) => Ok(lex_advice(sources, fault)),
        SchemaFault::Syntax(fault) => syntax_advice(alloc, sources, fault),
        SchemaFault::Name(fault) => Ok(name_advice(sources, fault)),
        SchemaFault::Tag(fault) => Ok(tag_advice(fault)),
        SchemaFault::Cons(fault) => constraint_advice(alloc, sources, fault),
        SchemaFault::Value(fault) => value_advice(alloc, sources, fault),
        SchemaFault::Clash(_, _, _) => Ok(words(
            "Two parts in this type have one tag, so nobody could tell them apart. Tag one, if messages may change.",
        )),
        SchemaFault::DefaultOutside(_) => Ok(words(
            "This value is outside its own type. Change the value, or the constraint.",
        )),
        SchemaFault::TooLarge(_) => Ok(words(
            "With this one there are more than 100,000 constraints and values. Leave out what no message needs.",
        )),
        SchemaFault::OutOfMemory => Ok(words("")),
    }
}

/// A fault of tokens, L1 to L7.
fn lex_advice(sources: &Sources, fault: &LexFault) -> Advice<'static> {
    match fault {
        LexFault::BadCharacter(site) => {
            form_of_character(octets_at(module_text(sources, site.text), site)).unwrap_or(words(
                "Nothing that a module may have begins here. Remove or mend it.",
            ))
        }
        LexFault::BadString(_) => words(
            "The string that begins here has no end on its line, or a character that it may not have. Mend it.",
        ),
        LexFault::OpenComment(_) => {
            words("The comment that begins here has no end. Close it with */.")
        }
        LexFault::BadHyphen(_) => words(
            "A word can not end with a hyphen, and a comment begins with two. Remove the hyphen or write another.",
        ),
        LexFault::NumberTooLarge(_) => {
            words("The number is above 2^128-1, the greatest that is read. Write a smaller one.")
        }
        LexFault::NotUtf8(_) => words("The file is no text in UTF-8. Save it in that encoding."),
        LexFault::TextTooLong(_) => {
            words("The file has more than 1,048,576 octets. Split it into several modules.")
        }
        LexFault::OutOfMemory => words(""),
    }
}

/// A fault of syntax, P1 to P3.
fn syntax_advice(
    alloc: Global,
    sources: &Sources,
    fault: &SyntaxFault,
) -> Result<Advice<'static>, OutOfMemory> {
    match fault {
        SyntaxFault::Unexpected(site) => {
            let form = form_of_unexpected(alloc, module_text(sources, site.text), *site)?;
            Ok(form.unwrap_or(words(NO_FURTHER)))
        }
        SyntaxFault::Unsupported(spelling, _) => Ok(Advice {
            words: "This guard leaves out this form of ASN.1, and messages that need it. docs/COVERAGE.md has what it \
                reads.",
            more: more_of_word(spelling.octets.as_slice()),
        }),
        SyntaxFault::TooDeep(_) => Ok(words(
            "More than 128 types, values or sets are around this one. Give an inner one a name of its own.",
        )),
        SyntaxFault::OutOfMemory => Ok(words("")),
    }
}

/// A fault of names, N1 to N7.
fn name_advice(sources: &Sources, fault: &NameFault) -> Advice<'static> {
    match fault {
        NameFault::Duplicate(site) => duplicate_advice(sources, site),
        NameFault::Undefined(_) => words(
            "The name means nothing in this module. Assign it here, or import it; look for a misspelling.",
        ),
        NameFault::NoModule(_) => words(
            "The policy lists no module of this name. Add its file to the policy, or mend the name.",
        ),
        NameFault::NotExported(_) => words(
            "The module that it is imported from does not export this name. Add it to EXPORTS there.",
        ),
        NameFault::ImportNotDefined(_) => words(
            "The module that it is imported from does not assign this name. Mend the name or the module.",
        ),
        NameFault::Recursive(_) => two_lines(
            "This definition uses itself, directly or through others. Break the circle.",
            "derguard-lower writes such a type out to the depth that its bindings say.",
        ),
        NameFault::TooManyModules => words("The policy lists more than 64 modules. List fewer."),
        NameFault::OutOfMemory => words(""),
    }
}

fn duplicate_advice(sources: &Sources, site: &Site) -> Advice<'static> {
    if is_listed_before(sources, site.text) {
        words("The policy lists a file with this very text before. List the module once.")
    } else {
        words(
            "The name is declared before, in this module or as the name of another. Rename one of the two.",
        )
    }
}

/// A fault of tags and of COMPONENTS OF, G1 to G6; the others are of parts.
fn tag_advice(fault: &TagFault) -> Advice<'static> {
    match fault {
        TagFault::UniversalTag(_) => Advice {
            words: "A tag of class UNIVERSAL can not be written. Leave it out under an implicit tag; docs/POLICY.md \
                has times.",
            more: LOWERED,
        },
        TagFault::ImplicitChoice(_) => {
            words("IMPLICIT can not be written on a CHOICE without a tag. Write EXPLICIT.")
        }
        TagFault::TagTooLarge(_) => words(
            "The number of the tag is above 268,435,455. Choose a smaller one, if messages may change.",
        ),
        TagFault::ComponentsOfKind(_) => words(
            "COMPONENTS OF takes a SEQUENCE in a SEQUENCE, and a SET in a SET. Name such a type.",
        ),
        TagFault::ComponentsOfAutomatic(_) => two_lines(
            "COMPONENTS OF is not read together with automatic tags. Write the components out.",
            "derguard-lower writes them out with the tags that messages have.",
        ),
        TagFault::ComponentsOfTagged(_) => two_lines(
            "COMPONENTS OF is not read of a type with a tag of its own. Name the type without it.",
            "derguard-lower writes the components out with the tags that messages have.",
        ),
        _ => part_advice(fault),
    }
}

/// A fault of parts and their numbers, G7 to G12.
fn part_advice(fault: &TagFault) -> Advice<'static> {
    match fault {
        TagFault::DuplicateName(_) => {
            words("Two components or alternatives have this name. Rename one of them.")
        }
        TagFault::DuplicateNumber(_) => {
            words("Two items have this name or its number. Change one of them.")
        }
        TagFault::TooManyComponents(_) => words(
            "The type has more than 64 components or alternatives. Group some, if messages may change.",
        ),
        TagFault::TooDeep(_) => words(
            "More than 32 types are nested here. Make the nesting flatter, if messages may change.",
        ),
        TagFault::SchemaTooLarge(_) => words(
            "With this one there are more than 100,000 types. Leave out what no message needs.",
        ),
        TagFault::NumberTooLarge(_) => words(
            "The number is outside 128 bits, or of a named bit above 65,535. Leave its name out, if messages are \
                given.",
        ),
        _ => words(""),
    }
}

/// A fault of a written value, V1 to V8.
fn value_advice(
    alloc: Global,
    sources: &Sources,
    fault: &ValueFault,
) -> Result<Advice<'static>, OutOfMemory> {
    match fault {
        ValueFault::WrongNotation(site) => {
            let form = form_of_value(alloc, module_text(sources, site.text), *site)?;
            Ok(form.unwrap_or(words(WRONG_VALUE)))
        }
        _ => Ok(words(value_words(fault))),
    }
}

fn value_words(fault: &ValueFault) -> &'static str {
    match fault {
        ValueFault::UnknownName(_) => {
            "Neither the type nor the module has this name. Mend it, or import the value."
        }
        ValueFault::MissingComponent(_) => {
            "A component that must be there is missing in this value. Add it."
        }
        ValueFault::RepeatedComponent(_) => {
            "The component is named before. Remove one of the two."
        }
        ValueFault::OutOfOrder(_) => {
            "The components of a SEQUENCE come in the order of its type. Move this one forward."
        }
        ValueFault::BadCharacter(_) => {
            "The string has a character that no value of its type has. Remove or mend it."
        }
        ValueFault::BadObjectId(_) => {
            "No object identifier begins so. Write two arcs at least, the first of them 0, 1 or 2."
        }
        ValueFault::TooLarge(_) => {
            "The number, or the encoding of the value, is above the limits of this guard. Write a smaller one."
        }
        ValueFault::WrongNotation(_) | ValueFault::OutOfMemory => "",
    }
}

/// A fault of a constraint, C1 to C10.
fn constraint_advice(
    alloc: Global,
    sources: &Sources,
    fault: &ConsFault,
) -> Result<Advice<'static>, OutOfMemory> {
    match fault {
        ConsFault::Value(fault) => value_advice(alloc, sources, fault),
        ConsFault::SizeOnNamedBits(_) => Ok(two_lines(
            "SIZE is not read on a BIT STRING with named bits: trailing zeros count for nothing. List the values.",
            "derguard-lower leaves this SIZE out, and reports that more may pass.",
        )),
        ConsFault::AlphabetForm(_) | ConsFault::PresenceWord(_) => Ok(Advice {
            words: constraint_words(fault),
            more: LOWERED,
        }),
        _ => Ok(words(constraint_words(fault))),
    }
}

fn constraint_words(fault: &ConsFault) -> &'static str {
    match fault {
        ConsFault::NotApplicable(_) => {
            "This constraint does not apply to its type. Remove it, or write it where it applies."
        }
        ConsFault::ExclusiveLimit(_) => "The sign < can not be written at MIN or MAX. Remove it.",
        ConsFault::AlphabetForm(_) => {
            "FROM takes strings and ranges between two characters, with | between them. Write it so."
        }
        ConsFault::PresenceWord(_) => {
            "Only a component that is OPTIONAL takes such a word. Remove it, or ask for the value of the component."
        }
        ConsFault::UnknownComponent(_) => {
            "The type has no component or alternative of this name. Mend the name."
        }
        ConsFault::RepeatedComponent(_) => "The part is named before. Remove one of the two.",
        ConsFault::TwoPresent(_) => {
            "Only one alternative can be PRESENT. Remove the word at the others."
        }
        ConsFault::ContainedMismatch(_) => {
            "The type that is named here has another base than the constrained one. Name one of the same base."
        }
        ConsFault::Value(_) | ConsFault::SizeOnNamedBits(_) | ConsFault::OutOfMemory => "",
    }
}
