//! Of which part of a message too much is asked, and how much, where a policy is refused for that. Rows show the words,
//! and no contract.
use crate::policy_notes::{entry_of, is_of, listed, word_at};
use guard_model::{Comp, Kind, OutOfMemory, Ty};
use guard_policy::{Key, PolicyFault};
use guard_schema::Schema;
use guard_tables::{TableFault, conditions_at, crowded_node};
use std::alloc::Global;
use toml::{Table, Value};

/// How much the message and its rules ask of the part, over these modules and the text of the policy; nothing where the
/// fault is another one.
pub fn crowding(
    alloc: Global,
    modules: &[Vec<u8>],
    text: &[u8],
    fault: &PolicyFault,
) -> Result<String, OutOfMemory> {
    let PolicyFault::Table(number, TableFault::TooManyConditions) = fault else {
        return Ok(String::new(alloc));
    };
    let mut texts = Vec::new(alloc);
    for module in modules {
        texts.push(module.as_slice())?;
    }
    match (
        Schema::build(alloc, &texts),
        toml::table_from_slice(alloc, text),
    ) {
        (Ok(schema), Ok(top)) => crowding_in(alloc, &schema, &top, *number),
        _ => Ok(String::new(alloc)),
    }
}

/// Of the message of this number, from 1.
fn crowding_in(
    alloc: Global,
    schema: &Schema,
    top: &Table,
    number: usize,
) -> Result<String, OutOfMemory> {
    let message = entry_of(top, Key::Message, number);
    let Some(declared) = type_of(schema, message) else {
        return Ok(String::new(alloc));
    };
    let rules = rule_types(
        alloc,
        schema,
        listed(top, Key::Rule),
        word_at(message, Key::Name),
    )?;
    let Some(way) = crowded_node(alloc, declared, &rules)? else {
        return Ok(String::new(alloc));
    };
    let count = conditions_at(declared, &rules, &way);
    let part = part_at(alloc, declared, &way)?;
    Ok(format!(in alloc;
        "The message and its rules ask {count} things of {part}, where 256 is the most."
    )?)
}

/// The types of the rules of the message that has this name.
fn rule_types<'a>(
    alloc: Global,
    schema: &'a Schema,
    rules: Option<&Value>,
    message: Option<&str>,
) -> Result<Vec<&'a Ty>, OutOfMemory> {
    let mut types = Vec::new(alloc);
    let Some(rules) = rules.and_then(|rules| rules.as_array()) else {
        return Ok(types);
    };
    for rule in rules {
        if is_of(rule, message)
            && let Some(ty) = type_of(schema, Some(rule))
        {
            types.push(ty)?;
        }
    }
    Ok(types)
}

/// The type that an entry names.
fn type_of<'a>(schema: &'a Schema, entry: Option<&Value>) -> Option<&'a Ty> {
    schema.ty(word_at(entry, Key::Module)?, word_at(entry, Key::TypeName)?)
}

/// The part at the end of a way, as paths are written: `$.lines[].qty`.
fn part_at(alloc: Global, declared: &Ty, way: &[usize]) -> Result<String, OutOfMemory> {
    let mut path = String::from_str(alloc, "$")?;
    let mut ty = declared;
    for place in way {
        ty = match &ty.kind {
            Kind::Sequence(comps) | Kind::Set(comps) | Kind::Choice(comps) => {
                let Some(comp) = comps.get(*place) else {
                    return Ok(path);
                };
                path.push_str(".")?;
                path.push_str(&comp.name)?;
                &comp.ty
            }
            Kind::SequenceOf(element) | Kind::SetOf(element) => {
                path.push_str("[]")?;
                element
            }
            _ => return Ok(path),
        };
    }
    Ok(path)
}
