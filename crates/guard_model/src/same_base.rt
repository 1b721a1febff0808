//! Whether two types are the same, or have the same base. One comparison serves both; it is told whether the whole
//! counts.
ghost use Rattle.guard_model.specs.inside.Compared.{bits_compared, compared, constraint_compared, element_compared};
ghost use Rattle.guard_model.specs.inside.Compared.{kind_compared, names_compared, site_compared};
ghost use Rattle.guard_model.specs.inside.Compared.{components_in_view, constraints_in_view, parts_in_view};
ghost use Rattle.guard_model.specs.inside.Compared.{same_component, same_part};
ghost use Rattle.guard_model.specs.SameBase.{HasSameBase, bare_names};
ghost use Rattle.guard_model.specs.SameType.{same_base, same_components, same_constraint, same_constraints};
ghost use Rattle.guard_model.specs.SameType.{same_element, same_kind, same_limit, same_named, same_parts};
ghost use Rattle.guard_model.specs.SameType.{same_presence, same_range, same_site, same_type};
ghost use Rattle.guard_model.specs.TypeView.{component_view, constraint_view, element_view, kind_view};
ghost use Rattle.guard_model.specs.TypeView.{part_view, presence_view, type_view};
ghost use Rattle.std.specs.Bool.{Decides};
ghost use Rattle.std.specs.Cmp.Lexicographic.{pointwise};
ghost use Rattle.std.specs.Prelude.{◌≡◌};

use crate::named_list::NamedList;
use crate::site::Site;
use crate::tag::are_same_tags;
use crate::ty::{Comp, Cons, Kind, Limit, Part, Presence, Rule, Ty};

impl Ty {
    /// Whether both have the same base: equal kinds without the outermost tags and constraints. Parts inside are
    /// compared in name, tags, presence, default and constraints. Named numbers of an INTEGER and sites never count.
    /// Of named bits it counts only whether there are any. The items of an ENUMERATED count, in written order and with
    /// their numbers. Constraints are compared as they are written.
    pub fn same_base(&self, other: &Ty) -> bool
        ensures test { result ≡ same_base (type_view self.now) (type_view other.now) }
        ensures equal { Decides result (HasSameBase (type_view self.now) (type_view other.now)) }
    {
        self.kind.is_same(&other.kind, false)
    }

    /// Whether both are one and the same type, with all names and sites.
    pub fn same(&self, other: &Ty) -> bool
        ensures test { result ≡ same_type (type_view self.now) (type_view other.now) }
        ensures equal { Decides result (type_view self.now ≡ type_view other.now) }
    {
        self.is_same(other, true)
    }

    /// Constraints come first: types that rules have beside each other mostly differ there, and kinds are large.
    #[cycle(same_types)]
    fn is_same(&self, other: &Ty, whole: bool) -> bool
        ensures { result ≡ same_type (compared whole (type_view self.now)) (compared whole (type_view other.now)) }
    {
        are_same_constraints(&self.cons, &other.cons, whole)
            && are_same_tags(&self.tags, &other.tags)
            && self.kind.is_same(&other.kind, whole)
    }
}

impl Kind {
    #[cycle(same_types)]
    fn is_same(&self, other: &Kind, whole: bool) -> bool
        ensures { result
            ≡ same_kind (kind_compared whole (kind_view self.now)) (kind_compared whole (kind_view other.now)) }
    {
        match (self, other) {
            (Kind::Bool, Kind::Bool) => true,
            (Kind::Int(one), Kind::Int(two)) => are_same_names(one, two, whole),
            (Kind::Bits(one), Kind::Bits(two)) => are_same_bits(one, two, whole),
            (Kind::Octets, Kind::Octets) => true,
            (Kind::Null, Kind::Null) => true,
            (Kind::Oid, Kind::Oid) => true,
            (Kind::Enumerated(one), Kind::Enumerated(two)) => one.is_same(two),
            (Kind::Chars(one), Kind::Chars(two)) => one == two,
            (Kind::Sequence(one), Kind::Sequence(two)) => are_same_components(one, two, whole),
            (Kind::Set(one), Kind::Set(two)) => are_same_components(one, two, whole),
            (Kind::Choice(one), Kind::Choice(two)) => are_same_components(one, two, whole),
            (Kind::SequenceOf(one), Kind::SequenceOf(two)) => one.is_same(two, whole),
            (Kind::SetOf(one), Kind::SetOf(two)) => one.is_same(two, whole),
            _ => false,
        }
    }
}

/// Whether two lists of named numbers of an INTEGER are the same. They differ only where the whole counts.
fn are_same_names(names: &NamedList, others: &NamedList, whole: bool) -> bool
    ensures { result ≡ pointwise same_named (names_compared whole names.now) (names_compared whole others.now) }
{
    if whole { names.is_same(others) } else { true }
}

/// Whether two lists of named bits are the same; where the whole doesn't count, whether both are empty or neither is.
fn are_same_bits(names: &NamedList, others: &NamedList, whole: bool) -> bool
    ensures { result ≡ pointwise same_named (bits_compared whole names.now) (bits_compared whole others.now) }
{
    if whole {
        names.is_same(others)
    } else {
        are_both_named(names, others)
    }
}

/// Whether both lists of named bits are empty, or neither is.
fn are_both_named(names: &NamedList, others: &NamedList) -> bool
    ensures { result ≡ pointwise same_named (bare_names names.now) (bare_names others.now) }
{
    names.is_empty() == others.is_empty()
}

#[cycle(same_types)]
fn are_same_components(comps: &[Comp], others: &[Comp], whole: bool) -> bool
    ensures { result ≡ same_components (components_in_view whole comps.now) (components_in_view whole others.now) }
{
    if comps.len() != others.len() {
        return false;
    }
    for (comp, other) in comps.iter().zip(others) {
        if !comp.is_same(other, whole) {
            return false;
        }
    }
    true
}

impl Comp {
    #[cycle(same_types)]
    fn is_same(&self, other: &Comp, whole: bool) -> bool
        ensures { result ≡ same_component whole (component_view self.now) (component_view other.now) }
    {
        self.name.as_str() == other.name.as_str()
            && self.ty.is_same(&other.ty, whole)
            && self.presence.is_same(&other.presence)
    }
}

impl Presence {
    fn is_same(&self, other: &Presence) -> bool
        ensures { result ≡ same_presence (presence_view self.now) (presence_view other.now) }
    {
        match (self, other) {
            (Presence::Mandatory, Presence::Mandatory) => true,
            (Presence::Optional, Presence::Optional) => true,
            (Presence::Pending, Presence::Pending) => true,
            (Presence::Default(one), Presence::Default(two)) => one.same(two),
            _ => false,
        }
    }
}

#[cycle(same_types)]
fn are_same_constraints(constraints: &[Cons], others: &[Cons], whole: bool) -> bool
    ensures { result
        ≡ same_constraints (constraints_in_view whole constraints.now) (constraints_in_view whole others.now) }
{
    if constraints.len() != others.len() {
        return false;
    }
    for (constraint, other) in constraints.iter().zip(others) {
        if !constraint.is_same(other, whole) {
            return false;
        }
    }
    true
}

impl Cons {
    #[cycle(same_types)]
    fn is_same(&self, other: &Cons, whole: bool) -> bool
        ensures { result ≡ same_constraint (constraint_compared whole (constraint_view self.now))
            (constraint_compared whole (constraint_view other.now)) }
    {
        self.site.is_same(&other.site, whole) && self.rule.is_same(&other.rule, whole)
    }
}

impl Site {
    fn is_same(&self, other: &Site, whole: bool) -> bool
        ensures { result ≡ same_site (site_compared whole self.now) (site_compared whole other.now) }
    {
        if whole {
            self.text == other.text && self.line == other.line && self.column == other.column
        } else {
            true
        }
    }
}

impl Rule {
    #[cycle(same_types)]
    fn is_same(&self, other: &Rule, whole: bool) -> bool
        ensures { result ≡ same_element (element_compared whole (element_view self.now))
            (element_compared whole (element_view other.now)) }
    {
        match (self, other) {
            (Rule::One(one), Rule::One(two)) => one.same(two),
            (Rule::Inside(one), Rule::Inside(two)) => one.is_same(two, whole),
            (Rule::Range(low, high), Rule::Range(lower, higher)) => {
                low.is_same(lower) && high.is_same(higher)
            }
            (Rule::Size(one), Rule::Size(two)) => one.is_same(two, whole),
            (Rule::Alphabet(one), Rule::Alphabet(two)) => are_same_ranges(one, two),
            (Rule::Each(one), Rule::Each(two)) => one.is_same(two, whole),
            (Rule::Parts(partial, one), Rule::Parts(open, two)) => {
                partial == open && are_same_parts(one, two, whole)
            }
            (Rule::Any(one), Rule::Any(two)) => are_same_constraints(one, two, whole),
            (Rule::Both(one), Rule::Both(two)) => are_same_constraints(one, two, whole),
            (Rule::Minus(one, less), Rule::Minus(two, without)) => {
                one.is_same(two, whole) && less.is_same(without, whole)
            }
            (Rule::Other(one), Rule::Other(two)) => one.is_same(two, whole),
            _ => false,
        }
    }
}

impl Limit {
    fn is_same(&self, other: &Limit) -> bool
        ensures { result ≡ same_limit self.now other.now }
    {
        match (self, other) {
            (Limit::Free, Limit::Free) => true,
            (Limit::At(one), Limit::At(two)) => one == two,
            (Limit::Past(one), Limit::Past(two)) => one == two,
            _ => false,
        }
    }
}

fn are_same_ranges(ranges: &[(u32, u32)], others: &[(u32, u32)]) -> bool
    ensures { result ≡ pointwise same_range ranges.now others.now }
{
    ranges == others
}

#[cycle(same_types)]
fn are_same_parts(parts: &[Part], others: &[Part], whole: bool) -> bool
    ensures { result ≡ same_parts (parts_in_view whole parts.now) (parts_in_view whole others.now) }
{
    if parts.len() != others.len() {
        return false;
    }
    for (part, other) in parts.iter().zip(others) {
        if !part.is_same(other, whole) {
            return false;
        }
    }
    true
}

impl Part {
    #[cycle(same_types)]
    fn is_same(&self, other: &Part, whole: bool) -> bool
        ensures { result ≡ same_part whole (part_view self.now) (part_view other.now) }
    {
        let within = match (&self.cons, &other.cons) {
            (Some(one), Some(two)) => one.is_same(two, whole),
            (None, None) => true,
            _ => false,
        };
        self.site.is_same(&other.site, whole)
            && self.at == other.at
            && within
            && self.word == other.word
    }
}
