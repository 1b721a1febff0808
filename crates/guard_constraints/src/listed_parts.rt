//! What WITH COMPONENTS lists (X.680 51.8.5 to 51.8.9), the constraints in it aside.
ghost use Rattle.std.specs.Prelude.{◌≡◌, [], map, option_map, IsTrue, IfOk};
ghost use Rattle.guard_model.specs.Answer.{Gives};
ghost use Rattle.guard_model.specs.TypeView.{type_view, kind_view, component_view, presence_view};
ghost use Rattle.guard_model.specs.TypeView.{constraint_view, part_view};
ghost use Rattle.guard_syntax.specs.SetViews as views;
ghost use Rattle.guard_der.specs.Fits.{may_be_absent};
ghost use Rattle.guard_model.specs.Kinds.{kind_of};
ghost use Rattle.guard_der.specs.Sound.{is_sound};
ghost use Rattle.guard_constraints.specs.ListedParts as listing;
ghost use Rattle.guard_constraints.specs.PartFaults.{part_fault};
ghost use Rattle.guard_constraints.specs.inside.Reading as reading;
ghost use Rattle.guard_values.specs.Views.{located_view};
ghost use Rattle.guard_constraints.specs.Views.{named, head_view};

use crate::fault::ConsFault;
use guard_model::{Comp, Cons, Kind, Part, Presence, Site, Ty, Word};
use guard_syntax::{ComponentConsTree, PresenceWord};

/// The component or alternative with this name.
fn component_named<'a>(kind: &'a Kind, name: &[u8]) -> Option<&'a Comp>
    ensures { option_map (λ c. component_view c.now) result ≡ listing.component_named (kind_view kind.now) name.now }
{
    let comps = kind.components();
    let (place, _) = guard_values::located(name, comps)?;
    comps.get(place)
}

/// The presence word, where there is one.
fn word_of(presence: Option<PresenceWord>) -> Option<Word>
    ensures { result ≡ option_map listing.word_of presence }
{
    match presence? {
        PresenceWord::Present => Some(Word::Present),
        PresenceWord::Absent => Some(Word::Absent),
        PresenceWord::Optional => Some(Word::Optional),
    }
}

/// The part that is written so, of the component or alternative at this place, with the constraint in it.
pub fn part_at(tree: &ComponentConsTree, place: u8, cons: Option<Cons>) -> Part
    ensures { part_view result ≡ reading.one_part (views.part_view tree.now) place (option_map constraint_view cons) }
{
    Part {
        site: tree.site,
        at: place,
        cons,
        word: word_of(tree.presence),
    }
}

/// Where a part's name leads in a type: its place, and the type there.
pub fn located<'a>(name: &[u8], ty: &'a Ty, site: Site) -> Result<(u8, &'a Ty), ConsFault>
    requires { IsTrue (is_sound (type_view ty.now)) }
    ensures sound { IfOk result (λ x. IsTrue (is_sound (type_view x.1.now))) }
    ensures given { Gives located_view named result (reading.located site (kind_of (type_view ty.now)) name.now) }
{
    match guard_values::located(name, ty.kind.components()) {
        Some((place, inside)) => Ok((place as u8, inside)),
        None => Err(ConsFault::UnknownComponent(site)),
    }
}

/// The type has parts, and none of those that are listed has a fault of its own.
pub fn check_parts(parts: &[ComponentConsTree], ty: &Ty, site: Site) -> Result<(), ConsFault>
    ensures { Gives (λ u. tt) named result (reading.checked (type_view ty.now) site (map head_view parts.now)) }
{
    if !ty.kind.has_parts() {
        return Err(ConsFault::NotApplicable(site));
    }
    check_each(&ty.kind, parts)
}

/// All are looked through for one fault before the next.
fn check_each(kind: &Kind, parts: &[ComponentConsTree]) -> Result<(), ConsFault>
    ensures { Gives (λ u. tt) named result
        (reading.unless_fault (part_fault (kind_view kind.now) (map head_view parts.now))) }
{
    if let Some(site) = first_bad_word(kind, parts) {
        return Err(ConsFault::PresenceWord(site));
    }
    if let Some(site) = first_unknown(kind, parts) {
        return Err(ConsFault::UnknownComponent(site));
    }
    if let Some(site) = first_repeated(parts) {
        return Err(ConsFault::RepeatedComponent(site));
    }
    match second_present(kind.is_choice(), parts) {
        Some(site) => Err(ConsFault::TwoPresent(site)),
        None => Ok(()),
    }
}

// ---- presence words

/// The first part with a word that can't speak of its component or alternative.
fn first_bad_word(kind: &Kind, parts: &[ComponentConsTree]) -> Option<Site>
    ensures { result ≡ listing.first_where (listing.has_bad_word (kind_view kind.now)) (map head_view parts.now) }
{
    for part in parts {
        if has_bad_word(kind, part) {
            return Some(part.site);
        }
    }
    None
}

fn has_bad_word(kind: &Kind, part: &ComponentConsTree) -> bool
    ensures { result ≡ listing.has_bad_word (kind_view kind.now) (head_view part.now) }
{
    match component_named(kind, part.name) {
        Some(comp) => !may_say(kind.is_choice(), &comp.presence, part.presence),
        None => false,
    }
}

/// Over a SEQUENCE or SET a word speaks of an OPTIONAL component; an alternative is PRESENT or ABSENT.
fn may_say(choice: bool, presence: &Presence, word: Option<PresenceWord>) -> bool
    ensures { result ≡ listing.may_say choice (presence_view presence.now) word }
{
    match word {
        None => true,
        Some(PresenceWord::Optional) => !choice && may_be_absent(presence),
        Some(_) => choice || may_be_absent(presence),
    }
}

fn may_be_absent(presence: &Presence) -> bool
    ensures { result ≡ may_be_absent (presence_view presence.now) }
{
    match presence {
        Presence::Optional => true,
        _ => false,
    }
}

// ---- names

/// The first part that names no component or alternative.
fn first_unknown(kind: &Kind, parts: &[ComponentConsTree]) -> Option<Site>
    ensures { result ≡ listing.first_where (listing.is_unknown (kind_view kind.now)) (map head_view parts.now) }
{
    for part in parts {
        if guard_values::located(part.name, kind.components()).is_none() {
            return Some(part.site);
        }
    }
    None
}

/// The first part with the name of one before it.
fn first_repeated(parts: &[ComponentConsTree]) -> Option<Site>
    ensures { result ≡ listing.first_repeated [] (map head_view parts.now) }
{
    for index in 0..parts.len() {
        if is_among(parts[index].name, &parts[..index]) {
            return Some(parts[index].site);
        }
    }
    None
}

fn is_among(name: &[u8], parts: &[ComponentConsTree]) -> bool
    ensures { result ≡ listing.is_among name.now (map head_view parts.now) }
{
    for part in parts {
        if name == part.name {
            return true;
        }
    }
    false
}

// ---- two that are PRESENT

/// Over a CHOICE the second part that is PRESENT.
fn second_present(choice: bool, parts: &[ComponentConsTree]) -> Option<Site>
    ensures { result ≡ listing.second_present choice (map head_view parts.now) }
{
    if choice {
        first_present(after_present(parts))
    } else {
        None
    }
}

fn first_present(parts: &[ComponentConsTree]) -> Option<Site>
    ensures { result ≡ listing.first_where listing.is_present (map head_view parts.now) }
{
    for part in parts {
        if is_present(part) {
            return Some(part.site);
        }
    }
    None
}

/// The parts after the first that is PRESENT.
fn after_present<'a, 't>(parts: &'a [ComponentConsTree<'t>]) -> &'a [ComponentConsTree<'t>]
    ensures { map head_view result.now ≡ listing.after_first listing.is_present (map head_view parts.now) }
{
    for index in 0..parts.len() {
        if is_present(&parts[index]) {
            return &parts[index + 1..];
        }
    }
    &[]
}

fn is_present(part: &ComponentConsTree) -> bool
    ensures { result ≡ listing.is_present (head_view part.now) }
{
    match part.presence {
        Some(PresenceWord::Present) => true,
        _ => false,
    }
}
