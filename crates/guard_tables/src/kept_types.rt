//! The types of a table: the declared one, and those of its rules in order. Each type is kept once, however many rules
//! have it.
ghost use Rattle.std.specs.Prelude.{◌≡◌};
ghost use Rattle.guard_tables.specs.inside.SharedTypes.{type_at};

use guard_model::Ty;
use std::marker::Model;

/// The declared type and the types of the rules; contracts see these two alone, and not how they are kept.
#[derive(Drop)]
pub(crate) struct KeptTypes {
    declared: Ty,
    /// The types of rules that aren't the declared one, each once.
    others: Vec<Ty>,
    /// The place of each rule's type: 0 is the declared one's, and i + 1 that of the other at i.
    places: Vec<usize>,
}

impl Model for KeptTypes {
    ghost use Rattle.std.specs.Prelude.{List};
    ghost use Rattle.std.specs.Coded.{coded×, coded_list};
    ghost use Rattle.guard_model.specs.contracts.ty.Ty.{the_row};
    ghost use Rattle.guard_model.specs.declared.ty.Ty.{Ty};
    ghost use Rattle.guard_tables.specs.inside.SharedTypes.{types_at};

    ghost Value = { Ty × List Ty };

    ghost coded = { coded× the_row.coded (coded_list the_row.coded) };

    ghost view = { λ t. (t.declared, types_at t.declared t.others.items t.places.items) };
}

impl KeptTypes {
    ghost use Rattle.std.specs.Prelude.{◌≡◌, length, slice_get, option_map};
    ghost use Rattle.guard_tables.specs.inside.SharedTypes.{type_at, types_at};

    /// The types of a table, where each rule has the type at its place.
    pub(crate) fn new(declared: Ty, others: Vec<Ty>, places: Vec<usize>) -> KeptTypes
        ensures { result ≡ (declared, types_at declared others.items places.items) }
    {
        KeptTypes {
            declared,
            others,
            places,
        }
    }

    /// The declared type.
    pub fn declared(&self) -> &Ty
        ensures { result.now ≡ self.now.0 }
    {
        &self.declared
    }

    /// The type of the rule at this place, from 0; None where there are no more rules.
    pub fn rule(&self, place: usize) -> Option<&Ty>
        ensures { option_map (λ t. t.now) result ≡ slice_get self.now.1 place }
    {
        match self.places.get(place) {
            Some(at) => Some(type_at(&self.declared, &self.others, *at)),
            None => None,
        }
    }

    /// How many rules there are.
    pub fn rules(&self) -> usize
        ensures { result ≡ length self.now.1 }
    {
        self.places.len()
    }
}

fn type_at<'a>(declared: &'a Ty, others: &'a [Ty], at: usize) -> &'a Ty
    ensures { result.now ≡ type_at declared.now others.now at }
{
    if at == 0 {
        return declared;
    }
    match others.get(at - 1) {
        Some(ty) => ty,
        None => declared,
    }
}
