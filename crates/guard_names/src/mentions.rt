//! The names that an assignment mentions, in the order of its text.
ghost use Rattle.std.specs.Prelude.{◌≡◌, ◌++◌, ◌∷◌, [], map, IfOk, OnOk};
ghost use Rattle.std.specs.List.{flat_map};
ghost use Rattle.guard_names.specs.Mentions as mentions;
ghost use Rattle.guard_names.specs.Mentions.{in_component, in_perhaps_constraint};
ghost use Rattle.guard_names.specs.inside.Views.{mention_view};
ghost use Rattle.guard_syntax.specs.Trees.{entries_of, united_of, met_of, parts_of, components_of, alternatives_of};
ghost use Rattle.guard_syntax.specs.Views.{value_view, entry_view};
ghost use Rattle.guard_syntax.specs.SetViews.{constraint_view, set_view, intersection_view, joined_intersection_view};
ghost use Rattle.guard_syntax.specs.SetViews.{difference_view, joined_difference_view, element_view, element_form_view};
ghost use Rattle.guard_syntax.specs.SetViews.{part_view, range_view, end_or_view, perhaps_constraint_view};
ghost use Rattle.guard_syntax.specs.TypeViews.{type_view, base_view, component_view, component_form_view};
ghost use Rattle.guard_syntax.specs.TypeViews.{alternative_view, of_constraint_view, presence_view};
ghost use Rattle.guard_syntax.specs.ModuleViews.{assignment_view};

use guard_model::Site;
use guard_syntax::{
    AlternativeTree, Assignment, BaseTree, CompForm, CompTree, ComponentConsTree, ConsTree,
    DifferenceTree, ElementForm, ElementTree, EndForm, EndTree, EntryTree, IntersectionTree,
    JoinedDifference, JoinedIntersection, OfConsTree, PresenceTree, RangeTree, SetTree, SymbolKind,
    TypeTree, ValueForm, ValueTree,
};
use std::alloc::{AllocError, Global};

/// A name that is mentioned, and where.
#[derive(Clone, Copy)]
pub struct Mention<'a> {
    pub site: Site,
    pub kind: SymbolKind,
    pub name: &'a [u8],
}

/// The names that an assignment mentions: in its type, and then in its value.
pub fn mentions<'a>(
    alloc: Global,
    assignment: &Assignment<'a>,
) -> Result<Vec<Mention<'a>>, AllocError>
    ensures { IfOk result (λ v. map mention_view v.items ≡ mentions.mentions (assignment_view assignment.now)) }
{
    let mut found = Vec::new(alloc);
    add_type(&assignment.ty, &mut found)?;
    if let Some(value) = &assignment.value {
        add_value(value, &mut found)?;
    }
    Ok(found)
}

#[cycle(types)]
fn add_type<'a>(ty: &TypeTree<'a>, into: &mut Vec<Mention<'a>>) -> Result<(), AllocError>
    ensures { OnOk result (map mention_view into.new.items ≡ map mention_view into.old.items
        ++ mentions.in_type (type_view ty.now)) }
{
    add_base(&ty.base, into)?;
    add_constraints(&ty.cons, into)
}

#[cycle(types)]
fn add_base<'a>(base: &BaseTree<'a>, into: &mut Vec<Mention<'a>>) -> Result<(), AllocError>
    ensures { OnOk result (map mention_view into.new.items ≡ map mention_view into.old.items
        ++ mentions.in_base (base_view base.now)) }
{
    match base {
        BaseTree::Plain(_) => Ok(()),
        BaseTree::Integer(_) => Ok(()),
        BaseTree::BitString(_) => Ok(()),
        BaseTree::Enumerated(_) => Ok(()),
        BaseTree::Structure(_, comps) => add_components(comps, into),
        BaseTree::Choice(alternatives) => add_alternatives(alternatives, into),
        BaseTree::Of(_, before, element) => {
            add_before_of(before, into)?;
            add_type(element, into)
        }
        BaseTree::Reference(name) => add_name(name.site, SymbolKind::Type, name.name, into),
    }
}

#[cycle(types)]
fn add_components<'a>(comps: &[CompTree<'a>], into: &mut Vec<Mention<'a>>) -> Result<(), AllocError>
    ensures { OnOk result (map mention_view into.new.items ≡ map mention_view into.old.items
        ++ mentions.in_components (components_of (map component_view comps.now))) }
{
    for comp in comps {
        add_component(comp, into)?;
    }
    Ok(())
}

#[cycle(types)]
fn add_component<'a>(comp: &CompTree<'a>, into: &mut Vec<Mention<'a>>) -> Result<(), AllocError>
    ensures { OnOk result (map mention_view into.new.items ≡ map mention_view into.old.items
        ++ mentions.in_components (components_of (component_view comp.now ∷ []))) }
{
    match &comp.form {
        CompForm::Named(_, ty, presence) => {
            add_type(ty, into)?;
            add_presence(presence, into)
        }
        CompForm::ComponentsOf(ty) => add_type(ty, into),
    }
}

#[cycle(types)]
fn add_alternatives<'a>(
    alternatives: &[AlternativeTree<'a>],
    into: &mut Vec<Mention<'a>>,
) -> Result<(), AllocError>
    ensures { OnOk result (map mention_view into.new.items ≡ map mention_view into.old.items
        ++ mentions.in_alternatives (alternatives_of (map alternative_view alternatives.now))) }
{
    for alternative in alternatives {
        add_type(&alternative.ty, into)?;
    }
    Ok(())
}

fn add_presence<'a>(
    presence: &PresenceTree<'a>,
    into: &mut Vec<Mention<'a>>,
) -> Result<(), AllocError>
    ensures { OnOk result (map mention_view into.new.items ≡ map mention_view into.old.items
        ++ mentions.in_presence (presence_view presence.now)) }
{
    match presence {
        PresenceTree::Mandatory => Ok(()),
        PresenceTree::Optional => Ok(()),
        PresenceTree::Default(value) => add_value(value, into),
    }
}

fn add_before_of<'a>(
    before: &Option<OfConsTree<'a>>,
    into: &mut Vec<Mention<'a>>,
) -> Result<(), AllocError>
    ensures { OnOk result (map mention_view into.new.items ≡ map mention_view into.old.items
        ++ mentions.in_of_constraint (of_constraint_view before.now)) }
{
    match before {
        None => Ok(()),
        Some(before) => add_constraint(&before.cons, into),
    }
}

fn add_constraints<'a>(cons: &[ConsTree<'a>], into: &mut Vec<Mention<'a>>) -> Result<(), AllocError>
    ensures { OnOk result (map mention_view into.new.items ≡ map mention_view into.old.items
        ++ flat_map mentions.in_constraint (map constraint_view cons.now)) }
{
    for constraint in cons {
        add_constraint(constraint, into)?;
    }
    Ok(())
}

#[cycle(sets)]
fn add_constraint<'a>(
    constraint: &ConsTree<'a>,
    into: &mut Vec<Mention<'a>>,
) -> Result<(), AllocError>
    ensures { OnOk result (map mention_view into.new.items ≡ map mention_view into.old.items
        ++ mentions.in_constraint (constraint_view constraint.now)) }
{
    add_set(&constraint.set, into)
}

#[cycle(sets)]
#[tactic(auto, using(crate::proofs::Mentioned::Fronts::in_set_alone))]
fn add_set<'a>(set: &SetTree<'a>, into: &mut Vec<Mention<'a>>) -> Result<(), AllocError>
    ensures { OnOk result (map mention_view into.new.items ≡ map mention_view into.old.items
        ++ mentions.in_set (set_view set.now)) }
{
    match set {
        SetTree::Alone(element) => add_element(element, into),
        SetTree::Union(first, others) => {
            add_intersection(first, into)?;
            add_united(others, into)
        }
        SetTree::AllExcept(_, element) => add_element(element, into),
    }
}

#[cycle(sets)]
fn add_united<'a>(
    others: &[JoinedIntersection<'a>],
    into: &mut Vec<Mention<'a>>,
) -> Result<(), AllocError>
    ensures { OnOk result (map mention_view into.new.items ≡ map mention_view into.old.items
        ++ mentions.in_united (united_of (map joined_intersection_view others.now))) }
{
    for joined in others {
        add_intersection(&joined.part, into)?;
    }
    Ok(())
}

#[cycle(sets)]
#[tactic(auto, using(crate::proofs::Mentioned::Fronts::in_intersection_alone))]
fn add_intersection<'a>(
    intersection: &IntersectionTree<'a>,
    into: &mut Vec<Mention<'a>>,
) -> Result<(), AllocError>
    ensures { OnOk result (map mention_view into.new.items ≡ map mention_view into.old.items
        ++ mentions.in_intersection (intersection_view intersection.now)) }
{
    match intersection {
        IntersectionTree::Single(element) => add_element(element, into),
        IntersectionTree::Differences(first, others) => {
            add_difference(first, into)?;
            add_met(others, into)
        }
    }
}

#[cycle(sets)]
fn add_met<'a>(
    others: &[JoinedDifference<'a>],
    into: &mut Vec<Mention<'a>>,
) -> Result<(), AllocError>
    ensures { OnOk result (map mention_view into.new.items ≡ map mention_view into.old.items
        ++ mentions.in_met (met_of (map joined_difference_view others.now))) }
{
    for joined in others {
        add_difference(&joined.part, into)?;
    }
    Ok(())
}

#[cycle(sets)]
fn add_difference<'a>(
    difference: &DifferenceTree<'a>,
    into: &mut Vec<Mention<'a>>,
) -> Result<(), AllocError>
    ensures { OnOk result (map mention_view into.new.items ≡ map mention_view into.old.items
        ++ mentions.in_difference (difference_view difference.now)) }
{
    add_element(&difference.element, into)?;
    match &difference.except {
        None => Ok(()),
        Some(except) => add_element(except, into),
    }
}

#[cycle(sets)]
fn add_element<'a>(element: &ElementTree<'a>, into: &mut Vec<Mention<'a>>) -> Result<(), AllocError>
    ensures { OnOk result (map mention_view into.new.items ≡ map mention_view into.old.items
        ++ mentions.in_element (element_view element.now)) }
{
    match &element.form {
        ElementForm::Parentheses(set) => add_set(set, into),
        ElementForm::Value(value) => add_value(value, into),
        ElementForm::Contained(_, name) => {
            add_name(name.site, SymbolKind::Type, name.name, into)
        }
        ElementForm::Range(range) => add_range(range, into),
        ElementForm::Size(constraint) => add_constraint(constraint, into),
        ElementForm::From(constraint) => add_constraint(constraint, into),
        ElementForm::WithComponent(constraint) => add_constraint(constraint, into),
        ElementForm::WithComponents(_, parts) => add_parts(parts, into),
    }
}

#[cycle(sets)]
#[tactic(auto, using(crate::proofs::Mentioned::Fronts::in_parts_before))]
fn add_parts<'a>(
    parts: &[ComponentConsTree<'a>],
    into: &mut Vec<Mention<'a>>,
) -> Result<(), AllocError>
    ensures { OnOk result (map mention_view into.new.items ≡ map mention_view into.old.items
        ++ mentions.in_parts (parts_of (map part_view parts.now))) }
{
    for part in parts {
        add_perhaps(&part.cons, into)?;
    }
    Ok(())
}

#[cycle(sets)]
fn add_perhaps<'a>(
    constraint: &Option<ConsTree<'a>>,
    into: &mut Vec<Mention<'a>>,
) -> Result<(), AllocError>
    ensures { OnOk result (map mention_view into.new.items ≡ map mention_view into.old.items
        ++ in_perhaps_constraint (perhaps_constraint_view constraint.now)) }
{
    match constraint {
        None => Ok(()),
        Some(constraint) => add_constraint(constraint, into),
    }
}

fn add_range<'a>(range: &RangeTree<'a>, into: &mut Vec<Mention<'a>>) -> Result<(), AllocError>
    ensures { OnOk result (map mention_view into.new.items ≡ map mention_view into.old.items
        ++ (mentions.in_end (range_view range.now).low ++ mentions.in_end (range_view range.now).high)) }
{
    add_end(&range.low, into)?;
    add_end(&range.high, into)
}

fn add_end<'a>(end: &Option<EndTree<'a>>, into: &mut Vec<Mention<'a>>) -> Result<(), AllocError>
    ensures { OnOk result (map mention_view into.new.items ≡ map mention_view into.old.items
        ++ mentions.in_end (end_or_view end.now)) }
{
    let Some(end) = end else {
        return Ok(());
    };
    match end.form {
        EndForm::Integer(_) => Ok(()),
        EndForm::Reference(name) => add_name(end.site, SymbolKind::Value, name, into),
        EndForm::Characters(_) => Ok(()),
    }
}

#[cycle(values)]
fn add_value<'a>(value: &ValueTree<'a>, into: &mut Vec<Mention<'a>>) -> Result<(), AllocError>
    ensures { OnOk result (map mention_view into.new.items ≡ map mention_view into.old.items
        ++ mentions.in_value (value_view value.now)) }
{
    match &value.form {
        ValueForm::Boolean(_) => Ok(()),
        ValueForm::Null => Ok(()),
        ValueForm::Integer(_, _, _) => Ok(()),
        ValueForm::Text(_, _) => Ok(()),
        ValueForm::Reference(name) => add_name(value.site, SymbolKind::Value, *name, into),
        ValueForm::Chosen(_, chosen) => add_value(chosen, into),
        ValueForm::List(entries) => add_entries(entries, into),
        ValueForm::Arcs(_) => Ok(()),
    }
}

#[cycle(values)]
fn add_entries<'a>(entries: &[EntryTree<'a>], into: &mut Vec<Mention<'a>>) -> Result<(), AllocError>
    ensures { OnOk result (map mention_view into.new.items ≡ map mention_view into.old.items
        ++ mentions.in_entries (entries_of (map entry_view entries.now))) }
{
    for entry in entries {
        add_entry(entry, into)?;
    }
    Ok(())
}

/// In an entry nothing but its value mentions names.
#[cycle(values)]
fn add_entry<'a>(entry: &EntryTree<'a>, into: &mut Vec<Mention<'a>>) -> Result<(), AllocError>
    ensures { OnOk result (map mention_view into.new.items ≡ map mention_view into.old.items
        ++ mentions.in_value (entry_view entry.now).value) }
{
    match entry {
        EntryTree::Alone(value) => add_value(value, into),
        EntryTree::Named(_, value) => add_value(value, into),
    }
}

fn add_name<'a>(
    site: Site,
    kind: SymbolKind,
    name: &'a [u8],
    into: &mut Vec<Mention<'a>>,
) -> Result<(), AllocError>
    ensures { OnOk result (map mention_view into.new.items ≡ map mention_view into.old.items
        ++ record { site = site; kind = kind; name = name.now } ∷ []) }
{
    into.push(Mention { site, kind, name })?;
    Ok(())
}
