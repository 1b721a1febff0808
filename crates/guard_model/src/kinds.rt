//! What kinds have inside, and which elements of constraints apply to them (X.680 clause 51).
ghost use Rattle.std.specs.Prelude.{◌≡◌, IfOk, map, option_map};
ghost use Rattle.guard_model.specs.Components.{component_at, components_in};
ghost use Rattle.guard_model.specs.Kinds.{element_of, has_named_bits, has_parts, has_size, is_choice};
ghost use Rattle.guard_model.specs.Kinds.{is_integer, is_string, part_of, type_of_size};
ghost use Rattle.guard_model.specs.TypeView.{component_view, components_of, kind_view, type_view};

use crate::memory::OutOfMemory;
use crate::named_list::NamedList;
use crate::tag::{Class, Tag};
use crate::ty::{Comp, Kind, Ty};
use std::alloc::Global;

impl Ty {
    /// The type INTEGER, with its universal tag and no constraint. What stands inside SIZE constrains this type (X.680
    /// 51.5.3). OutOfMemory is its only error.
    pub fn integer(alloc: Global) -> Result<Ty, OutOfMemory>
        ensures { IfOk result (λ t. type_view t ≡ type_of_size) }
    {
        let mut tags = Vec::new(alloc);
        tags.push(Tag {
            class: Class::Universal,
            number: 2,
        })?;
        Ok(Ty {
            tags,
            kind: Kind::Int(NamedList::shared(alloc, Vec::new(alloc))?),
            cons: Vec::new(alloc),
        })
    }
}

// ---- what is inside

impl Kind {
    /// The components of a SEQUENCE or SET, or the alternatives of a CHOICE, in written order; empty for other kinds.
    pub fn components(&self) -> &[Comp]
        ensures { components_of (map component_view result.now) ≡ components_in (kind_view self.now) }
    {
        match self {
            Kind::Sequence(comps) => comps,
            Kind::Set(comps) => comps,
            Kind::Choice(comps) => comps,
            _ => &[],
        }
    }

    /// The component or alternative at this place of the written list, from 0. None where the list ends before it, and
    /// of a kind that is no SEQUENCE, SET or CHOICE.
    pub fn component(&self, at: u8) -> Option<&Comp>
        ensures { option_map (λ c. component_view c.now) result ≡ component_at at (components_in (kind_view self.now)) }
    {
        self.components().get(usize::from(at))
    }

    /// The type of the component or alternative at this place of the written list, from 0. None where the list ends
    /// before it, and of a kind that is no SEQUENCE, SET or CHOICE.
    pub fn part(&self, at: u8) -> Option<&Ty>
        ensures { option_map (λ t. type_view t.now) result ≡ part_of at (kind_view self.now) }
    {
        match self.component(at) {
            Some(comp) => Some(&comp.ty),
            None => None,
        }
    }

    /// The type of the elements of a SEQUENCE OF or SET OF; None of another kind.
    pub fn element(&self) -> Option<&Ty>
        ensures { option_map (λ t. type_view t.now) result ≡ element_of (kind_view self.now) }
    {
        match self {
            Kind::SequenceOf(element) => Some(element),
            Kind::SetOf(element) => Some(element),
            _ => None,
        }
    }
}

// ---- which kind it is

impl Kind {
    /// Whether this is a CHOICE (X.680 clause 29).
    pub fn is_choice(&self) -> bool
        ensures { result ≡ is_choice (kind_view self.now) }
    {
        match self {
            Kind::Choice(_) => true,
            _ => false,
        }
    }

    /// Whether a range applies to the kind: INTEGER alone (X.680 51.4).
    pub fn is_integer(&self) -> bool
        ensures { result ≡ is_integer (kind_view self.now) }
    {
        match self {
            Kind::Int(_) => true,
            _ => false,
        }
    }

    /// Whether FROM applies to the kind: the character strings (X.680 51.7).
    pub fn is_string(&self) -> bool
        ensures { result ≡ is_string (kind_view self.now) }
    {
        match self {
            Kind::Chars(_) => true,
            _ => false,
        }
    }

    /// Whether the kind's values have a size: BIT STRING, OCTET STRING, the character strings, SEQUENCE OF and SET OF
    /// (X.680 51.5).
    pub fn has_size(&self) -> bool
        ensures { result ≡ has_size (kind_view self.now) }
    {
        match self {
            Kind::Bits(_) => true,
            Kind::Octets => true,
            Kind::Chars(_) => true,
            Kind::SequenceOf(_) => true,
            Kind::SetOf(_) => true,
            _ => false,
        }
    }

    /// Whether this is a BIT STRING with named bits, in which trailing zero bits don't count (X.680 22.7).
    pub fn has_named_bits(&self) -> bool
        ensures { result ≡ has_named_bits (kind_view self.now) }
    {
        match self {
            Kind::Bits(named) => !named.is_empty(),
            _ => false,
        }
    }

    /// Whether WITH COMPONENTS applies to the kind: SEQUENCE, SET and CHOICE (X.680 51.8.5).
    pub fn has_parts(&self) -> bool
        ensures { result ≡ has_parts (kind_view self.now) }
    {
        match self {
            Kind::Sequence(_) => true,
            Kind::Set(_) => true,
            Kind::Choice(_) => true,
            _ => false,
        }
    }
}
