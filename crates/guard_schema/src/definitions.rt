//! What definitions denote, each in turn.
ghost use Rattle.std.specs.Prelude.{All, true, ◌≡◌, ◌↔◌, ◌+◌, ◌≤◌, length, map, nat_le, option_map};
ghost use Rattle.std.specs.Prelude.{slice_get, Some, IsTrue, IfOk, IfSome};
ghost use Rattle.std.specs.Arc.{arc_value};
ghost use Rattle.guard_der.specs.Fits.{fits};
ghost use Rattle.guard_der.specs.Sound.{is_sound};
ghost use Rattle.guard_model.specs.TypeView.{shared_type_view, type_view};
ghost use Rattle.guard_values.specs.KeptLengths.{length_beside};
ghost use Rattle.guard_values.specs.SingleValues.{is_bounded};
ghost use Rattle.guard_values.specs.Views.{shared_view};
ghost use Rattle.guard_names.specs.NamesView.{modules_of, order_of};
ghost use Rattle.guard_syntax.specs.ModuleViews.{perhaps_value_view, assignment_view};
ghost use Rattle.guard_tagcheck.specs.Limits.{is_within_limits};
ghost use Rattle.guard_tagging.specs.Faults as tagging;
ghost use Rattle.guard_tagging.specs.ScopeView.{known_list};
ghost use Rattle.guard_tagging.specs.Spelled.{IsSpelledModule};
ghost use Rattle.guard_tagging.specs.Automatic.{Automatic};
ghost use Rattle.guard_tagging.specs.Skeletons.{AreMeanings};
ghost use Rattle.guard_constraints.specs.Views.{visible_at, visible_in};
ghost use Rattle.guard_schema.specs.Building.{BuildsNumber, BuildsAll, HasValue, TellsApart, Assigns, KeepsLimit};
ghost use Rattle.guard_schema.specs.inside.InTurn.{TagsApart, CompletesInTurn};
ghost use Rattle.guard_schema.specs.inside.Ready.{IsReady};
ghost use Rattle.guard_schema.specs.Counting.{held_by, most_held};
ghost use Rattle.guard_schema.specs.Faults.{named};
ghost use Rattle.guard_schema.specs.Known.{none_known};
ghost use Rattle.guard_schema.specs.Outcomes.{Answers};
ghost use Rattle.guard_schema.specs.Pairs.{built_view, AreBuilt};
ghost use Rattle.guard_schema.specs.Views.{built_in, definition_view, known_view};

use crate::counting::held_by;
use crate::fault::SchemaFault;
use crate::finishing::finished;
use crate::progress::{Definition, Progress};
use crate::readings::read_member;
use guard_model::{Site, Ty, Value};
use guard_names::{Id, Names};
use guard_syntax::{Assignment, ValueTree};
use guard_tagcheck::{common_to, find_clash};
use guard_tagging::{TaggedType, skeleton_after};
use guard_values::Scope;
use std::alloc::Global;
use std::sync::Arc;

/// Constraints, values and contained types over all definitions.
const MOST_HELD: usize = 100_000;

/// What all definitions denote, in their order.
pub fn all_built<'m, 'a>(
    alloc: Global,
    names: &'m Names<'m, 'a>,
) -> Result<Progress<'m, 'a>, SchemaFault>
    requires spelled { All IsSpelledModule (modules_of names.now) }
    ensures built { Answers built_in named result
        (BuildsAll (none_known (modules_of names.now) (order_of names.now)) (order_of names.now)) }
    ensures names { IfOk result (λ p. p.names.now ≡ names.now) }
{
    let order = names.order();
    let mut progress = Progress::with_room(alloc, names, order.len())?;
    for id in order {
        let definition = built(alloc, &progress, *id)?;
        let more = progress.with(definition)?;
        progress = more;
    }
    Ok(progress)
}

/// What a definition denotes, where all that it uses is built: it is the next one in the order.
fn built(alloc: Global, progress: &Progress, id: Id) -> Result<Definition, SchemaFault>
    requires next { slice_get (order_of progress.now.names.now) (length progress.now.known.types.items) ≡ Some id }
    requires spelled { All IsSpelledModule (modules_of progress.now.names.now) }
    requires flags { AreMeanings (modules_of progress.now.names.now)
        (order_of progress.now.names.now) (map shared_type_view progress.now.known.types.items)
        (known_list (map shared_type_view progress.now.known.types.items) progress.now.automatic.items) }
    ensures built { Answers definition_view named result (BuildsNumber (known_view progress.now) id) }
    ensures sound { IfOk result (λ d. IsTrue (is_sound (definition_view d).ty)) }
    ensures fits { IfOk result (λ d. IfSome (definition_view d).value (λ v. IsTrue (fits (definition_view d).ty v))) }
    ensures length { IfOk result (λ d. d.length ≡ length_beside d.ty d.value) }
    ensures bound { IfOk result (λ d. IsTrue (is_bounded d.bound (shared_type_view d.ty))) }
    ensures nodes { IfOk result (λ d. (d.nodes ≡ progress.now.nodes + tagging.nodes (definition_view d).ty)
        × (d.nodes ≤ tagging.most_nodes)) }
    ensures held { IfOk result (λ d. (d.held ≡ progress.now.held + held_by (definition_view d))
        × (d.held ≤ most_held)) }
    ensures automatic { IfOk result (λ d. (d.is_automatic ≡ true) ↔ Automatic (modules_of progress.now.names.now) id) }
{
    let Some((_, assignment)) = progress.names.home(id) else {
        unreachable!()
    };
    let tagged = tagged_apart(alloc, progress, id, assignment.site)?;
    completed(alloc, progress, id, assignment, tagged)
}

/// The type of the definition with its tags and parts, which tags tell apart. Its name is at the site.
fn tagged_apart(
    alloc: Global,
    progress: &Progress,
    id: Id,
    site: Site,
) -> Result<TaggedType, SchemaFault>
    requires next { slice_get (order_of progress.now.names.now) (length progress.now.known.types.items) ≡ Some id }
    requires spelled { All IsSpelledModule (modules_of progress.now.names.now) }
    requires flags { AreMeanings (modules_of progress.now.names.now)
        (order_of progress.now.names.now) (map shared_type_view progress.now.known.types.items)
        (known_list (map shared_type_view progress.now.known.types.items) progress.now.automatic.items) }
    ensures tagged { Answers (λ s. type_view s.ty) named result (TagsApart (known_view progress.now) id site) }
    ensures nodes { IfOk result (λ s. (s.nodes ≡ progress.now.nodes + tagging.nodes (type_view s.ty))
        × (s.nodes ≤ tagging.most_nodes)) }
    ensures automatic { IfOk result (λ s. (s.is_automatic ≡ true) ↔ Automatic (modules_of progress.now.names.now) id) }
{
    let tagged = skeleton_after(alloc, progress.names, &progress.done(), id)?;
    check_tags(alloc, site, &tagged.ty)?;
    Ok(tagged)
}

/// The definition of this type, which has no constraints and defaults yet. The finished one is made of as many types.
fn completed(
    alloc: Global,
    progress: &Progress,
    id: Id,
    assignment: &Assignment,
    tagged: TaggedType,
) -> Result<Definition, SchemaFault>
    requires ready { IsReady (visible_at progress.now.names.now progress.now.known id)
        (assignment_view assignment.now).ty (type_view tagged.ty) }
    requires nodes { tagged.nodes ≡ progress.now.nodes + tagging.nodes (type_view tagged.ty) }
    requires few { tagged.nodes ≤ tagging.most_nodes }
    ensures built { Answers definition_view named result (CompletesInTurn (known_view progress.now) (visible_at
        progress.now.names.now progress.now.known id) (assignment_view assignment.now) (type_view tagged.ty)) }
    ensures sound { IfOk result (λ d. IsTrue (is_sound (definition_view d).ty)) }
    ensures fits { IfOk result (λ d. IfSome (definition_view d).value (λ v. IsTrue (fits (definition_view d).ty v))) }
    ensures length { IfOk result (λ d. d.length ≡ length_beside d.ty d.value) }
    ensures bound { IfOk result (λ d. IsTrue (is_bounded d.bound (shared_type_view d.ty))) }
    ensures nodes { IfOk result (λ d. (d.nodes ≡ progress.now.nodes + tagging.nodes (definition_view d).ty)
        × (d.nodes ≤ tagging.most_nodes)) }
    ensures held { IfOk result (λ d. (d.held ≡ progress.now.held + held_by (definition_view d))
        × (d.held ≤ most_held)) }
    ensures automatic { IfOk result (λ d. d.is_automatic ≡ tagged.is_automatic) }
{
    let TaggedType {
        ty: bare,
        is_automatic,
        nodes,
    } = tagged;
    let scope = Scope {
        names: progress.names,
        known: &progress.known,
        id,
    };
    let done = finished(alloc, scope, &assignment.ty, bare)?;
    let shared = Arc::new(alloc, done.ty)?;
    let found = valued(alloc, progress, scope, assignment, &shared)?;
    let (value, length, held) = found;
    Ok(Definition {
        ty: shared,
        value,
        length,
        bound: done.bound,
        is_automatic,
        nodes,
        held,
    })
}

/// Tags must tell components and alternatives apart.
fn check_tags(alloc: Global, site: Site, ty: &Ty) -> Result<(), SchemaFault>
    requires { IsTrue (is_within_limits (type_view ty.now)) }
    ensures { Answers (λ u. u) named result (TellsApart site (type_view ty.now)) }
{
    match find_clash(alloc, ty)? {
        None => Ok(()),
        Some(clash) => {
            let common = common_to(alloc, ty, &clash)?;
            Err(SchemaFault::Clash(site, clash, common))
        }
    }
}

/// The value of the next definition, which has this finished type and is written there, how many octets the contents of
/// its encoding are, and how much is held with it.
fn valued(
    alloc: Global,
    progress: &Progress,
    scope: Scope,
    assignment: &Assignment,
    ty: &Arc<Ty>,
) -> Result<(Option<Arc<Value>>, Option<usize>, usize), SchemaFault>
    requires sound { IsTrue (is_sound (shared_type_view ty.now)) }
    requires known { AreBuilt scope.known.now }
    ensures built { Answers (λ r. built_view (arc_value ty.now) r.0) named result (HasValue (known_view progress.now)
        (visible_in scope.entry) (assignment_view assignment.now) (shared_type_view ty.now)) }
    ensures fits { IfOk result (λ r. IfSome r.0 (λ v. IsTrue (fits (shared_type_view ty.now) (shared_view v)))) }
    ensures length { IfOk result (λ r. r.1 ≡ length_beside ty.now r.0) }
    ensures held { IfOk result
        (λ r. (r.2 ≡ progress.now.held + held_by (built_view (arc_value ty.now) r.0)) × (r.2 ≤ most_held)) }
{
    let found = assigned(alloc, scope, ty, &assignment.value)?;
    let held = within_limit(progress.held, assignment.site, ty, &found.0)?;
    Ok((found.0, found.1, held))
}

/// The value of a value assignment, and how many octets the contents of its encoding are; None without a value, and
/// where they are more than an encoding may have.
fn assigned(
    alloc: Global,
    scope: Scope,
    ty: &Arc<Ty>,
    value: &Option<Box<ValueTree>>,
) -> Result<(Option<Arc<Value>>, Option<usize>), SchemaFault>
    requires sound { IsTrue (is_sound (shared_type_view ty.now)) }
    requires known { AreBuilt scope.known.now }
    ensures read { Answers (λ a. option_map shared_view a.0) named result
        (Assigns (visible_in scope.entry) (shared_type_view ty.now) (perhaps_value_view value.now)) }
    ensures fits { IfOk result (λ a. IfSome a.0 (λ v. IsTrue (fits (shared_type_view ty.now) (shared_view v)))) }
    ensures length { IfOk result (λ a. a.1 ≡ length_beside ty.now a.0) }
{
    match value {
        None => Ok((None, None)),
        Some(tree) => {
            let found = read_member(alloc, scope, ty, tree)?;
            Ok((Some(found.value), found.length))
        }
    }
}

/// How much is held with the definition of the name there and what is before it. Its name is blamed where it is too
/// much.
fn within_limit(
    before: usize,
    site: Site,
    ty: &Ty,
    value: &Option<Arc<Value>>,
) -> Result<usize, SchemaFault>
    requires { before ≤ most_held }
    ensures limit { Answers (λ _. tt) named result (KeepsLimit before site (built_view ty.now value.now)) }
    ensures held { IfOk result (λ held. (held ≡ before + held_by (built_view ty.now value.now)) × (held ≤ most_held)) }
{
    let held = held_by(before, ty, value);
    if held > MOST_HELD {
        return Err(SchemaFault::TooLarge(site));
    }
    Ok(held)
}
