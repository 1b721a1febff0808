//! The type of a definition, from its tree and the types of the definitions before it.
ghost use Rattle.std.specs.Prelude.{◌≡◌, ◌↔◌, true, ◌≤◌, ◌+◌, IsTrue, Some, IfOk, IfErr};
ghost use Rattle.std.specs.Prelude.{IfSome, map, length, min, slice_get, All};
ghost use Rattle.guard_model.specs.TypeView.{shared_type_view, type_view};
ghost use Rattle.guard_names.specs.Declarations.{Definition, definitions};
ghost use Rattle.guard_names.specs.NamesView.{modules_of, order_of};
ghost use Rattle.guard_syntax.specs.ModuleViews.{module_view};
ghost use Rattle.guard_tagcheck.specs.Limits.{is_within_limits};
ghost use Rattle.guard_tagging.specs.Automatic.{Automatic};
ghost use Rattle.guard_tagging.specs.Faults as faults;
ghost use Rattle.guard_tagging.specs.Named.{named};
ghost use Rattle.guard_tagging.specs.ScopeView.{scope_view, done_view, known_list};
ghost use Rattle.guard_tagging.specs.Skeletons.{AreMeanings, IsTypeOf, IsFaultOf};
ghost use Rattle.guard_tagging.specs.Spelled.{IsSpelledModule};
ghost use Rattle.guard_tagging.specs.Surroundings as around;
ghost use Rattle.guard_tagging.specs.Surroundings.{surroundings, nodes_of_all};

use crate::automatic::is_automatic;
use crate::fault::TagFault;
use crate::made::Made;
use crate::measure::nodes;
use crate::scope::{Done, Scope};
use crate::walk::type_of;
use guard_model::Ty;
use guard_names::{Id, Names};
use guard_syntax::{Module, TagDefault};
use std::alloc::{AllocError, Global};
use std::sync::Arc;

/// The type of a definition, and what a build keeps of it beside the type.
#[derive(Drop)]
pub struct TaggedType {
    pub ty: Ty,
    /// Whether the type is a list of components or alternatives that is tagged automatically.
    pub is_automatic: bool,
    /// How many types this one and those of the definitions before it are made of, at most 100,000.
    pub nodes: usize,
}

/// The type of a definition with its tags, its parts and their numbering (X.680 clauses 18 to 32 and 41); of a value
/// the type that governs it. `done` are the types of the definitions before it in `Names::order`. A new type has no
/// constraints yet, and its defaults are pending; a type that is referred to keeps what it has.
///
/// Conditions: `id` is the definition that comes next in that order after those of `done`; each type of `done` keeps
/// the limits that `guard_tagcheck::is_within_limits` tests, and all are made of at most 100,000 types; the names in
/// the modules are texts and the numbers are below 2^128, as in what the parser answers (`law_spelled`).
///
/// The error is one of the faults G1 to G12 of [`TagFault`]: parts come before the whole, in written order, and of one
/// type's faults the first by number counts. OutOfMemory may come in place of any answer.
pub fn skeleton(alloc: Global, names: &Names, done: &[Arc<Ty>], id: Id) -> Result<Ty, TagFault>
    requires next { slice_get (order_of names.now) (length done.now) ≡ Some id }
    requires few { nodes_of_all (map shared_type_view done.now) ≤ faults.most_nodes }
    requires limits { All (λ t. IsTrue (is_within_limits (shared_type_view t))) done.now }
    requires spelled { All IsSpelledModule (modules_of names.now) }
    ensures tagged { IfOk result
        (λ ty. IsTypeOf (modules_of names.now) (order_of names.now) (map shared_type_view done.now) id (type_view ty)) }
    ensures refused { IfErr result
        (λ f. IfSome (named f) (IsFaultOf (modules_of names.now) (order_of names.now) (map shared_type_view done.now) id)) }
    // So the tags can be checked, and the next definition follows.
    ensures limits { IfOk result (λ ty. IsTrue (is_within_limits (type_view ty))) }
    ensures few { IfOk result
        (λ ty. nodes_of_all (map shared_type_view done.now) + faults.nodes (type_view ty) ≤ faults.most_nodes) }
{
    let automatic = automatic_lists(alloc, names, done)?;
    let before = Done {
        types: done,
        automatic: &automatic,
        nodes: nodes_of(done),
    };
    let TaggedType { ty, .. } = skeleton_after(alloc, names, &before, id)?;
    Ok(ty)
}

/// What `skeleton` answers, and what a build keeps of the definition beside its type. What is kept of the definitions
/// before it is handed in as `done`, so that it isn't looked for again for each definition.
///
/// Conditions and errors are those of `skeleton`. Besides, `done` says of each definition before this one whether it is
/// a list that is tagged automatically, and how many types all of them are made of.
pub fn skeleton_after(
    alloc: Global,
    names: &Names,
    done: &Done,
    id: Id,
) -> Result<TaggedType, TagFault>
    requires next { slice_get (order_of names.now) (length done.now.types.now) ≡ Some id }
    requires known { AreMeanings (modules_of names.now) (order_of names.now) (map shared_type_view done.now.types.now)
        (done_view done.now) }
    requires counted { done.now.nodes ≡ nodes_of_all (map shared_type_view done.now.types.now) }
    requires few { done.now.nodes ≤ faults.most_nodes }
    requires limits { All (λ t. IsTrue (is_within_limits (shared_type_view t))) done.now.types.now }
    requires spelled { All IsSpelledModule (modules_of names.now) }
    ensures tagged { IfOk result (λ s. IsTypeOf (modules_of names.now) (order_of names.now)
        (map shared_type_view done.now.types.now) id (type_view s.ty)) }
    ensures refused { IfErr result (λ f. IfSome (named f)
        (IsFaultOf (modules_of names.now) (order_of names.now) (map shared_type_view done.now.types.now) id)) }
    ensures limits { IfOk result (λ s. IsTrue (is_within_limits (type_view s.ty))) }
    // What is kept for the next one: how many types there are with it, and whether it is a list that is tagged
    // automatically.
    ensures counted { IfOk result (λ s. s.nodes ≡ done.now.nodes + faults.nodes (type_view s.ty)) }
    ensures few { IfOk result (λ s. s.nodes ≤ faults.most_nodes) }
    ensures known { IfOk result (λ s. (s.is_automatic ≡ true) ↔ Automatic (modules_of names.now) id) }
{
    let Some((home, assignment)) = names.home(id) else {
        unreachable!();
    };
    let scope = scope_in(names, home, id, *done);
    let made = type_of(alloc, &scope, &assignment.ty, true, None, done.nodes)?;
    let is_automatic = is_automatic_definition(names, *done, id);
    let Made { ty, nodes, .. } = Box::into_inner(made);
    Ok(TaggedType {
        ty,
        is_automatic,
        nodes,
    })
}

/// The scope of what is written in this definition of the module.
fn scope_in<'s, 'm, 'a, 'd>(
    names: &'s Names<'m, 'a>,
    home: &Module<'a>,
    id: Id,
    done: Done<'d>,
) -> Scope<'s, 'm, 'a, 'd>
    requires { (d : Definition) × (Some d ≡ slice_get (definitions (modules_of names.now)) id)
        × (d.home ≡ module_view home.now) }
    ensures { scope_view result
        ≡ surroundings (modules_of names.now) (order_of names.now) (done_view done.entry) (module_view home.now) }
{
    Scope {
        tag_default: home.tag_default.unwrap_or(TagDefault::Explicit),
        id,
        names,
        done,
    }
}

/// Whether each of the first definitions in their order, as many as there are types, is a list that is tagged
/// automatically.
fn automatic_lists(alloc: Global, names: &Names, types: &[Arc<Ty>]) -> Result<Vec<bool>, AllocError>
    requires { length types.now ≤ length (order_of names.now) }
    ensures { IfOk result (λ v. AreMeanings (modules_of names.now) (order_of names.now) (map shared_type_view types.now)
        (known_list (map shared_type_view types.now) v.items)) }
{
    let mut automatic = Vec::with_capacity(alloc, types.len())?;
    for place in 0..types.len() {
        let done = Done {
            types,
            automatic: &automatic,
            nodes: 0,
        };
        let is_automatic = is_automatic_definition(names, done, names.order()[place]);
        automatic.push(is_automatic)?;
    }
    Ok(automatic)
}

fn is_automatic_definition(names: &Names, done: Done, id: Id) -> bool
    ensures { result ≡ around.is_automatic_definition (modules_of names.now) (order_of names.now) (done_view done.entry)
        (slice_get (definitions (modules_of names.now)) id) }
{
    match names.home(id) {
        Some((home, assignment)) => {
            is_automatic(&scope_in(names, home, id, done), &assignment.ty.base)
        }
        None => false,
    }
}

/// How many types these are made of; 100,001 where there are more than 100,000.
fn nodes_of(types: &[Arc<Ty>]) -> usize
    ensures { result ≡ min (nodes_of_all (map shared_type_view types.now)) 100001 }
{
    let mut so_far = 0;
    for ty in types {
        so_far = nodes(ty, so_far);
    }
    so_far
}
