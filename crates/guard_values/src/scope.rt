//! Where something is written, and what visible names mean there.
ghost use Rattle.std.specs.Prelude.{◌≡◌, ◌++◌, ◌∷◌, [], IsTrue, IfOk, IfSome, length, option_map, option_and_then};
ghost use Rattle.std.proofs.Props.{props};
ghost use Rattle.std.specs.Arc.{arc_value};
ghost use Rattle.guard_model.specs.TypeView.{shared_type_view, type_view};
ghost use Rattle.guard_model.specs.ValueView.{value_view};
ghost use Rattle.guard_names.specs.NamesView.{order_of};
ghost use Rattle.guard_names.specs.Places.{place_in};
ghost use Rattle.guard_values.specs.KeptLengths.{contents_length, length_beside, lengths_beside};
ghost use Rattle.guard_values.specs.SingleValues.{is_bounded, are_bounded};

use guard_model::{Ty, Value};
use guard_names::{Id, Names};
use std::alloc::{AllocError, Global};
use std::sync::Arc;

/// What is already built of the definitions, in the order in which each comes after those that it uses: `types` has the
/// type of each, of a value its governor, and `values` beside it the value, or None for the definition of a type.
/// Beside a value, `lengths` has how many octets the contents of its encoding are, so that no use of its name counts
/// them anew; None where they are more than an encoding may have. Beside a type, `bounds` has a number of octets that
/// the contents of no single value in its own constraints exceed, so that a use of its name under other tags needn't
/// look at those values; None where no such number is known.
#[derive(Drop)]
pub struct Known {
    pub types: Vec<Arc<Ty>>,
    pub values: Vec<Option<Arc<Value>>>,
    pub lengths: Vec<Option<usize>>,
    pub bounds: Vec<Option<usize>>,
    pub ghost even: { length values.items ≡ length types.items },
    pub ghost counted: { lengths.items ≡ lengths_beside types.items values.items },
    pub ghost bounded: { IsTrue (are_bounded bounds.items types.items) } by { Prim.hlevel props },
}

/// A value, and how many octets the contents of its encoding are, the tags of its type aside; None where they are more
/// than an encoding may have.
#[derive(Drop)]
pub struct KnownValue {
    pub value: Arc<Value>,
    pub length: Option<usize>,
}

/// Where something is written: `id` is the definition in which it stands, `names` are those of all modules, and `known`
/// is what is built of the definitions that they mean.
#[derive(Clone, Copy)]
pub struct Scope<'s, 'm, 'a> {
    pub names: &'s Names<'m, 'a>,
    pub known: &'s Known,
    pub id: Id,
}

/// The module in which a value is written: `home` is its place among those of `names`, from 0, or None where it is none
/// of them; `known` is what is built of the definitions that names mean.
#[derive(Clone, Copy)]
pub struct ModuleScope<'s, 'm, 'a> {
    pub names: &'s Names<'m, 'a>,
    pub known: &'s Known,
    pub home: Option<usize>,
}

/// The value that a visible name means, and its governor: the type that was written before `::=` (X.680 16.2); with how
/// many octets the contents of its encoding are, or None where they are more than an encoding may have.
#[derive(Clone, Copy)]
pub struct VisibleValue<'s> {
    pub ty: &'s Ty,
    pub value: &'s Arc<Value>,
    pub length: Option<usize>,
    pub ghost counted: { length ≡ contents_length (type_view ty.now) (value_view (arc_value value.now)) },
}

impl Known {
    ghost use Rattle.guard_values.specs.Views.{known_at, type_at, visible_view};

    /// Nothing yet, with room for `count` definitions. Fails only where memory runs out.
    pub fn with_room(alloc: Global, count: usize) -> Result<Known, AllocError>
        ensures types { IfOk result (λ k. k.types.items ≡ []) }
        ensures values { IfOk result (λ k. k.values.items ≡ []) }
    {
        let types = Vec::with_capacity(alloc, count)?;
        let values = Vec::with_capacity(alloc, count)?;
        let lengths = Vec::with_capacity(alloc, count)?;
        let bounds = Vec::with_capacity(alloc, count)?;
        Ok(Known {
            types,
            values,
            lengths,
            bounds,
        })
    }

    /// With the next definition in the order: its type, of a value the governor; its value, if it is one's; how many
    /// octets the contents of its encoding are, or None; and a number of octets that the contents of no single value in
    /// the type's own constraints exceed, or None. Fails only where memory runs out.
    ///
    /// It is taken and handed back by value, since one list longer than the others would break what holds of it.
    pub fn with(
        self,
        ty: Arc<Ty>,
        value: Option<Arc<Value>>,
        octets: Option<usize>,
        bound: Option<usize>,
    ) -> Result<Known, AllocError>
        requires counted { octets ≡ length_beside ty value }
        requires bounded { IsTrue (is_bounded bound (shared_type_view ty)) }
        ensures types { IfOk result (λ k. k.types.items ≡ self.types.items ++ ty ∷ []) }
        ensures values { IfOk result (λ k. k.values.items ≡ self.values.items ++ value ∷ []) }
    {
        let Known {
            mut types,
            mut values,
            mut lengths,
            mut bounds,
            ..
        } = self;
        types.push(ty)?;
        values.push(value)?;
        lengths.push(octets)?;
        bounds.push(bound)?;
        Ok(Known {
            types,
            values,
            lengths,
            bounds,
        })
    }

    /// The value that is known of the definition at this place in the order, from 0, and its governor. None where no
    /// definition that is built has the place, and where the one that has it is of a type.
    pub fn at(&self, place: usize) -> Option<VisibleValue<'_>>
        ensures { option_map visible_view result ≡ known_at self.now place }
    {
        let ty = self.types.get(place)?;
        let value = self.values.get(place)?.as_ref()?;
        let length = *self.lengths.get(place)?;
        Some(VisibleValue { ty, value, length })
    }

    /// The type that is known of the definition at this place in the order, from 0; of a value its governor. None where
    /// no definition that is built has the place.
    pub fn type_at(&self, place: usize) -> Option<&Arc<Ty>>
        ensures { option_map (λ ty. shared_type_view ty.now) result ≡ type_at self.now place }
    {
        self.types.get(place)
    }

    /// A number of octets that the contents of no single value exceed in the own constraints of the type that is known
    /// of the definition at this place in the order, from 0. None where no such number is known.
    pub fn bound_at(&self, place: usize) -> Option<usize>
        ensures { IfSome (type_at self.now place) (λ t. IsTrue (is_bounded result t)) }
    {
        *self.bounds.get(place)?
    }
}

impl<'s, 'm, 'a> ModuleScope<'s, 'm, 'a> {
    ghost use Rattle.guard_values.specs.Views.{values_of, visible_view};

    /// The value that a lower-case name means in the module (X.680 13.1), and its governor. None where the name isn't
    /// visible there, where it means a type, and where the value that it means isn't built.
    pub fn meaning(&self, name: &[u8]) -> Option<VisibleValue<'s>>
        ensures { option_map visible_view result ≡ values_of self.now name.now }
    {
        match place(self.names, self.names.meaning_in(self.home, name)) {
            Some(place) => self.known.at(place),
            None => None,
        }
    }
}

impl<'s, 'm, 'a> Scope<'s, 'm, 'a> {
    ghost use Rattle.guard_values.specs.Views.{place_from, types_of};

    /// The type that a name means in the module of the definition (X.680 13.1), to be shared; of a value its governor.
    /// None where the name isn't visible there, and where what it means isn't built.
    pub fn type_named(&self, name: &[u8]) -> Option<&'s Arc<Ty>>
        ensures { option_map (λ ty. shared_type_view ty.now) result ≡ types_of self.now name.now }
    {
        match self.place_named(name) {
            Some(place) => self.known.type_at(place),
            None => None,
        }
    }

    /// A number of octets that the contents of no single value exceed in the own constraints of the type that a name
    /// means in the module of the definition. None where no such number is known.
    pub fn bound_named(&self, name: &[u8]) -> Option<usize>
        ensures { IfSome (types_of self.now name.now) (λ t. IsTrue (is_bounded result t)) }
    {
        match self.place_named(name) {
            Some(place) => self.known.bound_at(place),
            None => None,
        }
    }

    /// The place in the order, from 0, of the definition that a name means in the module of the definition. None where
    /// the name isn't visible there.
    pub fn place_named(&self, name: &[u8]) -> Option<usize>
        ensures { result ≡ place_from self.now.names.now self.now.id name.now }
    {
        place(self.names, self.names.meaning_from(self.id, name))
    }
}

/// The place in the order of the definition that a name means, from 0. None where it means none.
fn place(names: &Names, meant: Option<Id>) -> Option<usize>
    ensures { result ≡ option_and_then (place_in (order_of names.now)) meant }
{
    match meant {
        Some(id) => names.place(id),
        None => None,
    }
}
