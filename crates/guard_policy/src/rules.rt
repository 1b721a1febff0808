//! The rules of a policy's text.
ghost use Rattle.std.specs.Prelude.{◌≡◌, [], ◌∷◌, ◌++◌, None, Some, All, map, bytes_eq, IfOk, IsTrue};
ghost use Rattle.std.specs.List.{list_any};
ghost use Rattle.guard_der.specs.Sound.{is_sound};
ghost use Rattle.guard_model.specs.TypeView.{type_view};
ghost use Rattle.toml.specs.View.{table_view};
ghost use Rattle.guard_policy.specs.inside.Answers.{Meets, tables_view};
ghost use Rattle.guard_policy.specs.Entries.{rule_in, rule_of as rule_said, effect_named, those_there};
ghost use Rattle.guard_policy.specs.EntryFaults.{rule_fault, entries_fault, has_names};
ghost use Rattle.guard_policy.specs.Policies.{message_names};
ghost use Rattle.guard_policy.specs.SaidView.{said_message_view, said_view};
ghost use Rattle.guard_policy.specs.inside.Keeping.{AreDeclared};
ghost use Rattle.guard_policy.specs.inside.Said.{HaveSame, names_in};

use super::document::{check_entry, text_of};
use super::entry::{Entry, Key};
use super::fault::PolicyFault;
use super::policy::{Effect, SaidRule};
use super::route::{is_name, is_party};
use super::said::SaidMessage;
use super::seen::{has_name, names_of};
use super::types::type_named;
use guard_der::named_types::Types;
use guard_model::Ty;
use indexmap::IndexSet;
use std::alloc::Global;
use toml::Table;

const RULE_KEYS: [Key; 7] = [
    Key::Name,
    Key::Effect,
    Key::From,
    Key::To,
    Key::Message,
    Key::Module,
    Key::TypeName,
];

/// Each rule, or the fault of the first that has one.
pub(crate) fn rules_of<'a, S: Types>(
    alloc: Global,
    schema: &'a S,
    messages: &[SaidMessage],
    tables: &[&'a Table],
) -> Result<Vec<SaidRule<'a>>, PolicyFault>
    ensures met { Meets (entries_fault (rule_fault (S.types schema.now)
        (message_names (map said_message_view messages.now))) [] 1 (tables_view tables.now)) result }
    ensures made { IfOk result (λ rs. map said_view rs.items
        ≡ those_there (map (rule_in (S.types schema.now)) (tables_view tables.now))) }
    ensures sound { IfOk result (λ rs. All (λ r. IsTrue (is_sound r.ty)) (map said_view rs.items)) }
    ensures declared { IfOk result (λ rs. AreDeclared (map said_message_view messages.now) (map said_view rs.items)) }
{
    let declared = names_of(alloc, messages)?;
    let mut names = IndexSet::new(alloc);
    let mut rules = Vec::with_capacity(alloc, tables.len())?;
    for (index, table) in tables.iter().enumerate() {
        let rule = rule_of(alloc, schema, &declared, &mut names, index + 1, *table)?;
        rules.push(rule)?;
    }
    Ok(rules)
}

/// The rule of this number, where messages with these names are declared; its own name is added to those of the rules
/// before it.
fn rule_of<'a, S: Types>(
    alloc: Global,
    schema: &'a S,
    declared: &IndexSet<&str>,
    names: &mut IndexSet<&'a str>,
    number: usize,
    table: &'a Table,
) -> Result<SaidRule<'a>, PolicyFault>
    ensures met { Meets (rule_fault (S.types schema.now) (names_in declared.now) (names_in names.old) number
        (table_view table.now)) result }
    ensures made { IfOk result (λ r. rule_in (S.types schema.now) (table_view table.now) ≡ Some (said_view r)) }
    ensures sound { IfOk result (λ r. IsTrue (is_sound (type_view r.ty.now))) }
    ensures declared { IfOk result (λ r. IsTrue (list_any (bytes_eq r.message.now) (names_in declared.now))) }
    ensures seen { IfOk result (λ r. HaveSame (names_in names.new) (names_in names.old ++ r.name.now ∷ [])) }
{
    let entry = Entry::Rule(number);
    check_entry(alloc, entry, &RULE_KEYS, table)?;
    if !has_names(table) {
        return Err(PolicyFault::BadName(entry));
    }
    if has_name(names, text_of(table, Key::Name)) {
        return Err(PolicyFault::DuplicateName(entry));
    }
    let Some(effect) = effect_named(text_of(table, Key::Effect)) else {
        return Err(PolicyFault::BadEffect(entry));
    };
    if !has_name(declared, text_of(table, Key::Message)) {
        return Err(PolicyFault::NoSuchMessage(entry));
    }
    let ty = type_named(schema, entry, table)?;
    let rule = rule_said(table, effect, ty);
    names.insert(rule.name)?;
    Ok(rule)
}

/// The rule that the entry says, where its keys are there.
fn rule_said<'a>(table: &'a Table, effect: Effect, ty: &'a Ty) -> SaidRule<'a>
    ensures { said_view result ≡ rule_said (table_view table.now) (type_view ty.now) effect }
{
    SaidRule {
        name: text_of(table, Key::Name),
        effect,
        from: text_of(table, Key::From),
        to: text_of(table, Key::To),
        message: text_of(table, Key::Message),
        home: text_of(table, Key::Module),
        type_name: text_of(table, Key::TypeName),
        ty,
    }
}

/// Whether the rule's own name and that of its message are names, and its sender and its receiver are names or `*`.
fn has_names(table: &Table) -> bool
    ensures { result ≡ has_names (table_view table.now) }
{
    is_name(text_of(table, Key::Name).as_bytes())
        && is_party(text_of(table, Key::From))
        && is_party(text_of(table, Key::To))
        && is_name(text_of(table, Key::Message).as_bytes())
}

fn effect_named(word: &str) -> Option<Effect>
    ensures { result ≡ effect_named word.now }
{
    if word == "allow" {
        Some(Effect::Allow)
    } else if word == "deny" {
        Some(Effect::Deny)
    } else {
        None
    }
}
