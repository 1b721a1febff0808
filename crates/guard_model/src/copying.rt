//! Copies of values and types. A copy means what its source means, and a call fails only where memory runs out.
ghost use Rattle.std.specs.Prelude.{◌≡◌, map, IfOk};
ghost use Rattle.std.specs.Arc.{arc_slice_items};
ghost use Rattle.guard_model.specs.TypeView.{type_view, kind_view, presence_view, component_view};
ghost use Rattle.guard_model.specs.TypeView.{constraint_view, element_view};
ghost use Rattle.guard_model.specs.ValueView.{value_view};

use crate::memory::OutOfMemory;
use crate::ty::{Comp, Cons, Kind, Presence, Rule, Ty};
use crate::value::{Bits, Value};
use std::alloc::Global;

impl Value {
    /// A value that means the same abstract value. OutOfMemory is its only error.
    pub fn copy(&self) -> Result<Value, OutOfMemory>
        ensures { IfOk result (λ copy. value_view copy ≡ value_view self.now) }
    {
        match self {
            Value::Bool(truth) => Ok(Value::Bool(*truth)),
            Value::Int(number) => Ok(Value::Int(*number)),
            Value::Enumerated(number) => Ok(Value::Enumerated(*number)),
            Value::Null => Ok(Value::Null),
            Value::Bits(bits) => Ok(Value::Bits(bits.share()?)),
            Value::Octets(octets) => Ok(Value::Octets(octets.clone()?)),
            Value::Oid(arcs) => Ok(Value::Oid(arcs.clone()?)),
            Value::Chars(text) => Ok(Value::Chars(text.clone()?)),
            Value::Fields(fields) => Ok(Value::Fields(fields.clone()?)),
            Value::Items(items) => Ok(Value::Items(items.clone()?)),
            Value::Chosen(at, value) => Ok(Value::Chosen(*at, value.clone()?)),
        }
    }
}

impl Bits {
    fn share(&self) -> Result<Bits, OutOfMemory>
        ensures octets { IfOk result (λ share. arc_slice_items share.octets ≡ arc_slice_items self.now.octets) }
        ensures unused { IfOk result (λ share. share.unused ≡ self.now.unused) }
    {
        Ok(Bits {
            octets: self.octets.clone()?,
            unused: self.unused,
        })
    }
}

impl Ty {
    /// A type that means the same abstract type, names and sites included. OutOfMemory is its only error.
    #[cycle(type_copies)]
    pub fn copy(&self, alloc: Global) -> Result<Ty, OutOfMemory>
        ensures { IfOk result (λ copy. type_view copy ≡ type_view self.now) }
    {
        Ok(Ty {
            tags: Vec::from_slice(alloc, &self.tags)?,
            kind: self.kind.copy(alloc)?,
            cons: copy_of_constraints(alloc, &self.cons)?,
        })
    }

    #[cycle(type_copies)]
    fn boxed_copy(&self, alloc: Global) -> Result<Box<Ty>, OutOfMemory>
        ensures { IfOk result (λ copy. type_view copy.value ≡ type_view self.now) }
    {
        Ok(Box::new(alloc, self.copy(alloc)?)?)
    }
}

impl Kind {
    #[cycle(type_copies)]
    fn copy(&self, alloc: Global) -> Result<Kind, OutOfMemory>
        ensures { IfOk result (λ copy. kind_view copy ≡ kind_view self.now) }
    {
        match self {
            Kind::Bool => Ok(Kind::Bool),
            Kind::Int(named) => Ok(Kind::Int(named.clone()?)),
            Kind::Bits(named) => Ok(Kind::Bits(named.clone()?)),
            Kind::Octets => Ok(Kind::Octets),
            Kind::Null => Ok(Kind::Null),
            Kind::Oid => Ok(Kind::Oid),
            Kind::Enumerated(items) => Ok(Kind::Enumerated(items.clone()?)),
            Kind::Chars(kind) => Ok(Kind::Chars(*kind)),
            Kind::Sequence(comps) => Ok(Kind::Sequence(copy_of_components(alloc, comps)?)),
            Kind::Set(comps) => Ok(Kind::Set(copy_of_components(alloc, comps)?)),
            Kind::Choice(comps) => Ok(Kind::Choice(copy_of_components(alloc, comps)?)),
            Kind::SequenceOf(ty) => Ok(Kind::SequenceOf(ty.boxed_copy(alloc)?)),
            Kind::SetOf(ty) => Ok(Kind::SetOf(ty.boxed_copy(alloc)?)),
        }
    }
}

#[cycle(type_copies)]
fn copy_of_components(alloc: Global, comps: &[Comp]) -> Result<Vec<Comp>, OutOfMemory>
    ensures { IfOk result (λ copy. map component_view copy.items ≡ map component_view comps.now) }
{
    let mut copy = Vec::with_capacity(alloc, comps.len())?;
    for comp in comps {
        copy.push(comp.copy(alloc)?)?;
    }
    Ok(copy)
}

impl Comp {
    #[cycle(type_copies)]
    fn copy(&self, alloc: Global) -> Result<Comp, OutOfMemory>
        ensures { IfOk result (λ copy. component_view copy ≡ component_view self.now) }
    {
        Ok(Comp {
            name: self.name.clone()?,
            ty: self.ty.copy(alloc)?,
            presence: self.presence.share()?,
        })
    }
}

impl Presence {
    fn share(&self) -> Result<Presence, OutOfMemory>
        ensures { IfOk result (λ share. presence_view share ≡ presence_view self.now) }
    {
        match self {
            Presence::Mandatory => Ok(Presence::Mandatory),
            Presence::Optional => Ok(Presence::Optional),
            Presence::Pending => Ok(Presence::Pending),
            Presence::Default(value) => Ok(Presence::Default(value.clone()?)),
        }
    }
}

fn copy_of_constraints(alloc: Global, constraints: &[Cons]) -> Result<Vec<Cons>, OutOfMemory>
    ensures { IfOk result (λ copy. map constraint_view copy.items ≡ map constraint_view constraints.now) }
{
    let mut copy = Vec::with_capacity(alloc, constraints.len())?;
    for constraint in constraints {
        copy.push(constraint.share()?)?;
    }
    Ok(copy)
}

impl Cons {
    fn share(&self) -> Result<Cons, OutOfMemory>
        ensures { IfOk result (λ share. constraint_view share ≡ constraint_view self.now) }
    {
        Ok(Cons {
            site: self.site,
            rule: self.rule.share()?,
        })
    }
}

impl Rule {
    fn share(&self) -> Result<Rule, OutOfMemory>
        ensures { IfOk result (λ share. element_view share ≡ element_view self.now) }
    {
        match self {
            Rule::One(value) => Ok(Rule::One(value.clone()?)),
            Rule::Inside(ty) => Ok(Rule::Inside(ty.clone()?)),
            Rule::Range(low, high) => Ok(Rule::Range(*low, *high)),
            Rule::Size(size) => Ok(Rule::Size(size.clone()?)),
            Rule::Alphabet(ranges) => Ok(Rule::Alphabet(ranges.clone()?)),
            Rule::Each(inner) => Ok(Rule::Each(inner.clone()?)),
            Rule::Parts(partial, parts) => Ok(Rule::Parts(*partial, parts.clone()?)),
            Rule::Any(constraints) => Ok(Rule::Any(constraints.clone()?)),
            Rule::Both(constraints) => Ok(Rule::Both(constraints.clone()?)),
            Rule::Minus(first, second) => Ok(Rule::Minus(first.clone()?, second.clone()?)),
            Rule::Other(inner) => Ok(Rule::Other(inner.clone()?)),
        }
    }
}
