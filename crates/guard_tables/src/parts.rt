//! What a type, and WITH COMPONENTS (X.680 51.8.5 to 51.8.9), ask of parts.
ghost use Rattle.std.specs.Prelude.{◌≡◌, ◌++◌, map, option_map, OnOk};
ghost use Rattle.guard_model.specs.Components.{components_in, component_at};
ghost use Rattle.guard_model.specs.TypeView.{kind_view, component_view, components_of};
ghost use Rattle.guard_model.specs.TypeView.{part_view, parts_of, presence_view};
ghost use Rattle.guard_tables.specs.Terms.{is_scalar, parts_from, kind_terms, listed_terms, placed, unlisted};
ghost use Rattle.guard_tables.specs.inside.OnePart.{inner_terms, part_terms, ruled_out_terms};
ghost use Rattle.guard_tables.specs.inside.DemandViews.{terms_view};

use crate::demands::{Atom, Demand, Term, push};
use crate::slots::Slots;
use guard_eval::{is_optional, is_ruled_out, kind_at};
use guard_model::{Comp, Kind, OutOfMemory, Part, Presence, Word};

/// Whether values of the kind are truth values or numbers, or there is one value: BOOLEAN, INTEGER, ENUMERATED, NULL.
pub(crate) fn is_scalar(kind: &Kind) -> bool
    ensures { result ≡ is_scalar (kind_view kind.now) }
{
    match kind {
        Kind::Bool => true,
        Kind::Int(_) => true,
        Kind::Null => true,
        Kind::Enumerated(_) => true,
        _ => false,
    }
}

// ---- the parts of a type

/// Adds what a type of this kind asks of each part: what the part's type asks.
pub(crate) fn push_kind<'a>(
    kind: &'a Kind,
    slots: Slots,
    terms: &mut Vec<Term<'a>>,
) -> Result<(), OutOfMemory>
    ensures { OnOk result (terms_view terms.new.items ≡ terms_view terms.old.items
        ++ kind_terms slots (kind_view kind.now)) }
{
    match kind {
        Kind::Sequence(comps) => push_comps(comps, slots, terms),
        Kind::Set(comps) => push_comps(comps, slots, terms),
        Kind::Choice(comps) => push_comps(comps, slots, terms),
        Kind::SequenceOf(element) => push(terms, slots, Atom::Each(Demand::Type(element))),
        Kind::SetOf(element) => push(terms, slots, Atom::Each(Demand::Type(element))),
        _ => Ok(()),
    }
}

fn push_comps<'a>(
    comps: &'a [Comp],
    slots: Slots,
    terms: &mut Vec<Term<'a>>,
) -> Result<(), OutOfMemory>
    ensures { OnOk result (terms_view terms.new.items
        ≡ terms_view terms.old.items ++ parts_from 0 slots (components_of (map component_view comps.now))) }
{
    for (place, comp) in comps.iter().enumerate() {
        push(terms, slots, Atom::Within(place, Demand::Type(&comp.ty)))?;
    }
    Ok(())
}

// ---- of what is listed

/// Adds what WITH COMPONENTS asks of parts: of those that it lists, and, where it isn't partial, of the others.
pub(crate) fn push_parts<'a>(
    parts: &'a [Part],
    kind: &'a Kind,
    partial: bool,
    slots: Slots,
    terms: &mut Vec<Term<'a>>,
) -> Result<(), OutOfMemory>
    ensures { OnOk result (terms_view terms.new.items ≡ terms_view terms.old.items
        ++ (listed_terms slots (kind_view kind.now) partial (parts_of (map part_view parts.now))
        ++ unlisted partial (kind_view kind.now) (parts_of (map part_view parts.now)) slots)) }
{
    push_listed(parts, kind, partial, slots, terms)?;
    push_unlisted(parts, kind, partial, slots, terms)
}

fn push_listed<'a>(
    parts: &'a [Part],
    kind: &'a Kind,
    partial: bool,
    slots: Slots,
    terms: &mut Vec<Term<'a>>,
) -> Result<(), OutOfMemory>
    ensures { OnOk result (terms_view terms.new.items
        ≡ terms_view terms.old.items
        ++ listed_terms slots (kind_view kind.now) partial (parts_of (map part_view parts.now))) }
{
    for part in parts {
        push_part(part, kind, partial, slots, terms)?;
    }
    Ok(())
}

fn push_part<'a>(
    part: &'a Part,
    kind: &'a Kind,
    partial: bool,
    slots: Slots,
    terms: &mut Vec<Term<'a>>,
) -> Result<(), OutOfMemory>
    ensures { OnOk result (terms_view terms.new.items
        ≡ terms_view terms.old.items ++ part_terms slots (kind_view kind.now) partial (part_view part.now)) }
{
    push_word(kind, part.at, part.word, partial, slots, terms)?;
    push_inner(part, kind, slots, terms)
}

/// Adds what a listed part asks of the value that is there.
fn push_inner<'a>(
    part: &'a Part,
    kind: &'a Kind,
    slots: Slots,
    terms: &mut Vec<Term<'a>>,
) -> Result<(), OutOfMemory>
    ensures { OnOk result (terms_view terms.new.items
        ≡ terms_view terms.old.items
        ++ inner_terms slots (kind_view kind.now) (part_view part.now).place (part_view part.now).within) }
{
    match &part.cons {
        Some(constraint) => {
            let demand = Demand::Constraint(kind_at(kind, part.at), constraint);
            push(terms, slots, Atom::Within(usize::from(part.at), demand))
        }
        None => Ok(()),
    }
}

/// Adds what the presence word of a listed part asks.
fn push_word<'a>(
    kind: &Kind,
    at: u8,
    word: Option<Word>,
    partial: bool,
    slots: Slots,
    terms: &mut Vec<Term<'a>>,
) -> Result<(), OutOfMemory>
    ensures { OnOk result (terms_view terms.new.items
        ≡ terms_view terms.old.items
        ++ placed partial (component_at at (components_in (kind_view kind.now))) word at slots) }
{
    push_said(
        kind.component(at),
        usize::from(at),
        word,
        partial,
        slots,
        terms,
    )
}

/// Adds what a listed part without a word asks: a full list makes an OPTIONAL component PRESENT.
fn push_said<'a>(
    comp: Option<&Comp>,
    place: usize,
    word: Option<Word>,
    partial: bool,
    slots: Slots,
    terms: &mut Vec<Term<'a>>,
) -> Result<(), OutOfMemory>
    ensures { OnOk result (terms_view terms.new.items
        ≡ terms_view terms.old.items
        ++ placed partial (option_map (λ c. component_view c.now) comp.entry) word place slots) }
{
    let Some(comp) = comp else {
        return Ok(());
    };
    match word {
        Some(Word::Present) => push(terms, slots, Atom::Sent(place)),
        Some(Word::Absent) => push(terms, slots, Atom::Unsent(place)),
        Some(Word::Optional) => Ok(()),
        None if partial || !is_optional(&comp.presence) => Ok(()),
        None => push(terms, slots, Atom::Sent(place)),
    }
}

// ---- of what isn't listed

/// Adds what a full list asks of the parts that it doesn't list: each OPTIONAL component and each alternative is
/// absent.
fn push_unlisted<'a>(
    parts: &[Part],
    kind: &Kind,
    partial: bool,
    slots: Slots,
    terms: &mut Vec<Term<'a>>,
) -> Result<(), OutOfMemory>
    ensures { OnOk result (terms_view terms.new.items ≡ terms_view terms.old.items
        ++ unlisted partial (kind_view kind.now) (parts_of (map part_view parts.now)) slots) }
{
    if partial {
        return Ok(());
    }
    let comps = kind.components();
    for (place, comp) in comps.iter().enumerate() {
        push_ruled_out(parts, kind, place, &comp.presence, slots, terms)?;
    }
    Ok(())
}

fn push_ruled_out<'a>(
    parts: &[Part],
    kind: &Kind,
    place: usize,
    presence: &Presence,
    slots: Slots,
    terms: &mut Vec<Term<'a>>,
) -> Result<(), OutOfMemory>
    ensures { OnOk result (terms_view terms.new.items ≡ terms_view terms.old.items
        ++ ruled_out_terms slots (kind_view kind.now) (parts_of (map part_view parts.now)) place
        (presence_view presence.now)) }
{
    if is_ruled_out(parts, kind, place, presence) {
        return push(terms, slots, Atom::Unsent(place));
    }
    Ok(())
}
