//! The types of all definitions, one after the other in their order, before constraints and defaults.
ghost use Rattle.std.specs.Prelude.{All};
ghost use Rattle.guard_names.specs.NamesView.{modules_of};
ghost use Rattle.guard_tagging.specs.Spelled.{IsSpelledModule};

use guard_names::Names;
use guard_tagging::{Done, TagFault, skeleton_after};
use std::alloc::Global;
use std::sync::Arc;

/// How many types all definitions are made of, where what is known of those before each is kept.
pub fn number_of_types(alloc: Global, names: &Names) -> Result<usize, TagFault>
    requires { All IsSpelledModule (modules_of names.now) }
{
    let mut types = Vec::new(alloc);
    let mut automatic = Vec::new(alloc);
    let mut nodes = 0;
    for id in names.order() {
        let done = Done {
            types: &types,
            automatic: &automatic,
            nodes,
        };
        let next = skeleton_after(alloc, names, &done, *id)?;
        nodes = next.nodes;
        automatic.push(next.is_automatic)?;
        let shared = Arc::new(alloc, next.ty)?;
        types.push(shared)?;
    }
    Ok(nodes)
}
