//! Constraints that must all be passed, gathered for many values: those in intersections, at whatever depth, are in
//! their place, and what WITH COMPONENT says of elements, and WITH COMPONENTS of parts, is apart from what is said of the
//! values themselves.
ghost use Rattle.std.specs.Prelude.{◌≡◌, ◌&&◌, IfOk, OnOk, IsTrue, map};
ghost use Rattle.std.specs.Option.{is_none};
ghost use Rattle.guard_model.specs.AbstractType.{AbstractKind};
ghost use Rattle.guard_model.specs.AbstractValue.{AbstractValue};
ghost use Rattle.guard_model.specs.TypeView.{constraint_view, constraints_of};
ghost use Rattle.guard_eval.specs.inside.Failures.{first_failure};
ghost use Rattle.guard_eval.specs.inside.Gathered.{passes_gathered};
ghost use Rattle.guard_eval.specs.inside.Together.{gathered_view, passes, passes_all};

use guard_model::{Cons, OutOfMemory, Part, Rule};
use std::alloc::Global;

/// Constraints that must all be passed.
#[derive(Drop)]
pub struct Gathered<'c> {
    /// Those within WITH COMPONENT: each value must be a list, and its elements must pass all of these.
    pub of_elements: Vec<&'c Cons>,
    /// Each WITH COMPONENTS: each value must have parts, and they must be as each of these says.
    pub of_parts: Vec<Listing<'c>>,
    /// All others.
    pub of_values: Vec<&'c Cons>,
}

/// What one WITH COMPONENTS says.
#[derive(Drop)]
pub struct Listing<'c> {
    /// Whether it is partial, that is whether it begins with `...`.
    pub partial: bool,
    /// The parts that it lists.
    pub parts: &'c [Part],
}

/// The constraints, gathered. OutOfMemory is the only error.
pub fn gather<'c>(alloc: Global, cons: &[&'c Cons]) -> Result<Gathered<'c>, OutOfMemory>
    ensures { IfOk result (λ gathered. (kind : AbstractKind) → (v : AbstractValue) →
        passes_gathered gathered kind v ≡ passes_all (gathered_view cons.now) kind v) }
{
    let mut gathered = none(alloc);
    for one in cons {
        add(&mut gathered, one)?;
    }
    Ok(gathered)
}

/// The constraints of a type, gathered. OutOfMemory is the only error.
pub fn gather_own(alloc: Global, cons: &[Cons]) -> Result<Gathered, OutOfMemory>
    ensures { IfOk result (λ gathered. (kind : AbstractKind) → (v : AbstractValue) → passes_gathered gathered kind v
        ≡ is_none (first_failure (constraints_of (map constraint_view cons.now)) kind v)) }
{
    let mut gathered = none(alloc);
    add_all(&mut gathered, cons)?;
    Ok(gathered)
}

fn none<'c>(alloc: Global) -> Gathered<'c>
    ensures { (kind : AbstractKind) → (v : AbstractValue) → IsTrue (passes_gathered result kind v) }
{
    Gathered {
        of_elements: Vec::new(alloc),
        of_parts: Vec::new(alloc),
        of_values: Vec::new(alloc),
    }
}

fn as_listed<'c>(partial: bool, parts: &'c [Part]) -> Listing<'c>
    ensures partial { result.partial ≡ partial }
    ensures parts { result.parts.now ≡ parts.now }
{
    Listing { partial, parts }
}

#[cycle(gathering)]
fn add<'c>(gathered: &mut Gathered<'c>, one: &'c Cons) -> Result<(), OutOfMemory>
    ensures { OnOk result ((kind : AbstractKind) → (v : AbstractValue) → passes_gathered gathered.new kind v
        ≡ (passes_gathered gathered.old kind v && passes kind v (constraint_view one.now))) }
{
    match &one.rule {
        Rule::Both(members) => add_all(gathered, members),
        Rule::Each(each) => Ok(gathered.of_elements.push(each)?),
        Rule::Parts(partial, parts) => Ok(gathered.of_parts.push(as_listed(*partial, parts))?),
        _ => Ok(gathered.of_values.push(one)?),
    }
}

#[cycle(gathering)]
fn add_all<'c>(gathered: &mut Gathered<'c>, cons: &'c [Cons]) -> Result<(), OutOfMemory>
    ensures { OnOk result ((kind : AbstractKind) → (v : AbstractValue) → passes_gathered gathered.new kind v
        ≡ (passes_gathered gathered.old kind v
        && is_none (first_failure (constraints_of (map constraint_view cons.now)) kind v))) }
{
    for one in cons {
        add(gathered, one)?;
    }
    Ok(())
}
