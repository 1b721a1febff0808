//! Tables.
ghost use Rattle.std.specs.Prelude.{◌≡◌, ◌+◌, ◌≤◌, ◌&&◌, ◌∷◌, None, Some, All, length, map, slice_get};
ghost use Rattle.std.specs.Prelude.{option_map, IsTrue, IfOk, OnOk, IfErr, IfSome};
ghost use Rattle.guard_model.specs.TypeView.{type_view};
ghost use Rattle.guard_der.specs.Sound.{is_sound};
ghost use Rattle.guard_tables.specs.Alike.{AreConsistent};
ghost use Rattle.guard_tables.specs.inside.SharedTypes.{types_at};
ghost use Rattle.guard_tables.specs.Slots.{below};
ghost use Rattle.guard_tables.specs.StandsFor.{StandsFor};
ghost use Rattle.guard_tables.specs.Tables.{types_view, is_match, first_mismatch, first_fault, named, most_rules};

use crate::fault::TableFault;
use crate::kept_types::KeptTypes;
use crate::layout::lay_nodes;
use crate::node_list::Nodes;
use crate::nodes::has_crowded_node;
use crate::sharing::{demands_of, share};
use crate::slots::Slots;
use guard_model::{OutOfMemory, Ty, are_same_tags};
use std::alloc::Global;

/// How many rules a message may have.
const MOST_RULES: usize = 255;

/// The types by which messages of one name are judged: the declared one, and one for each rule. The nodes of a table
/// ask all of them at once, the declared type with slot 0 and rule i, from 0, with slot i + 1.
#[derive(Drop)]
pub struct Table {
    types: KeptTypes,
    pub nodes: Nodes,
    /// The slots of all its types, which each walk needs.
    pub slots: Slots,
    pub ghost all: { slots ≡ below (length (map type_view types.1) + 1) },
    pub ghost consistent: { AreConsistent (type_view types.0) (map type_view types.1) },
    pub ghost stands: { ∥ StandsFor nodes (type_view types.0) (map type_view types.1) ∥₁ },
}

/// The nodes of types, with these each once.
#[derive(Drop)]
struct Compiled<'a> {
    others: Vec<&'a Ty>,
    places: Vec<usize>,
    nodes: Nodes,
}

impl Table {
    ghost use Rattle.guard_tables.specs.Alike.{AreAlike};
    ghost use Rattle.guard_tables.specs.TableView.{table_types, declared_of, rules_of};

    /// The table of a declared type and the types of rules. Condition: the types are sound.
    ///
    /// The error is the first of these that applies: TooManyRules for more than 255 rules; RuleTypeMismatch with the
    /// place, from 0, of the first rule whose type hasn't the tags and the base of the declared one; TooManyConditions
    /// where all types together ask more than 256 things of a value at one node. OutOfMemory may come in place of any
    /// answer.
    pub fn compile(alloc: Global, declared: &Ty, rules: &[&Ty]) -> Result<Table, TableFault>
        requires declared_sound { IsTrue (is_sound (type_view declared.now)) }
        requires rules_sound { All (λ t. IsTrue (is_sound t)) (types_view rules.now) }
        // A table stands for these types, the declared one first;
        ensures types { IfOk result (λ table. table_types table ≡ type_view declared.now ∷ types_view rules.now) }
        // there is one only where they have no fault;
        ensures faultless { IfOk result (λ table. first_fault (type_view declared.now) (types_view rules.now) ≡ None) }
        // and then each rule's type has the values and the encodings of the declared one, constraints aside.
        ensures alike { IfOk result (λ table. All (AreAlike (type_view declared.now)) (types_view rules.now)) }
        // A refusal names their first fault.
        ensures refused { IfErr result (λ f. IfSome (named f)
            (λ fault. first_fault (type_view declared.now) (types_view rules.now) ≡ Some fault)) }
    {
        find_fault(alloc, declared, rules)?;
        let compiled = nodes_of(alloc, declared, rules)?;
        let copy = declared.copy(alloc)?;
        let others = copy_of_types(alloc, &compiled.others)?;
        Ok(Table {
            types: KeptTypes::new(copy, others, compiled.places),
            nodes: compiled.nodes,
            slots: slots_of(rules.len()),
        })
    }

    /// The declared type, which is sound.
    pub fn declared(&self) -> &Ty
        ensures declared { type_view result.now ≡ declared_of self.now }
        ensures sound { IsTrue (is_sound (type_view result.now)) }
    {
        self.types.declared()
    }

    /// The type of the rule at this place, from 0, which is sound; None where there are no more rules.
    pub fn rule(&self, place: usize) -> Option<&Ty>
        ensures rule { option_map (λ t. type_view t.now) result ≡ slice_get (rules_of self.now) place }
        ensures sound { IfSome result (λ t. IsTrue (is_sound (type_view t.now))) }
    {
        self.types.rule(place)
    }

    /// How many rules there are, at most 255.
    pub fn rules(&self) -> usize
        ensures rules { result ≡ length (rules_of self.now) }
        ensures few { result ≤ most_rules }
    {
        self.types.rules()
    }
}

/// The nodes that ask all that these types ask.
fn nodes_of<'a>(
    alloc: Global,
    declared: &'a Ty,
    rules: &[&'a Ty],
) -> Result<Compiled<'a>, OutOfMemory>
    requires { AreConsistent (type_view declared.now) (types_view rules.now) }
    ensures stands { IfOk result (λ c. StandsFor c.nodes (type_view declared.now) (types_view rules.now)) }
    ensures types { IfOk result (λ c. types_at (type_view declared.now) (types_view c.others.items) c.places.items
        ≡ types_view rules.now) }
{
    let sharing = share(alloc, declared, rules)?;
    let demands = demands_of(alloc, declared, &sharing.others, &sharing.places)?;
    let nodes = lay_nodes(alloc, declared, &demands)?;
    Ok(Compiled {
        others: sharing.others,
        places: sharing.places,
        nodes,
    })
}

/// The slots of a declared type and of so many rules.
fn slots_of(rules: usize) -> Slots
    requires { rules ≤ most_rules }
    ensures { result ≡ below (rules + 1) }
{
    Slots::below(rules as u16 + 1)
}

/// Ok where the types make a table; else their first fault.
fn find_fault(alloc: Global, declared: &Ty, rules: &[&Ty]) -> Result<(), TableFault>
    ensures faultless { OnOk result (first_fault (type_view declared.now) (types_view rules.now) ≡ None) }
    ensures few { OnOk result (length rules.now ≤ most_rules) }
    ensures refused { IfErr result
        (λ f. IfSome (named f) (λ fault. first_fault (type_view declared.now) (types_view rules.now) ≡ Some fault)) }
{
    if rules.len() > MOST_RULES {
        return Err(TableFault::TooManyRules);
    }
    if let Some(place) = first_mismatch(declared, rules) {
        return Err(TableFault::RuleTypeMismatch(place));
    }
    if has_crowded_node(alloc, declared, rules)? {
        return Err(TableFault::TooManyConditions);
    }
    Ok(())
}

/// The place, from 0, of the first rule whose type hasn't the declared type's tags and base; None where there is none.
fn first_mismatch(declared: &Ty, rules: &[&Ty]) -> Option<usize>
    ensures { result ≡ first_mismatch (type_view declared.now) 0 (types_view rules.now) }
{
    for (place, rule) in rules.iter().enumerate() {
        if !is_match(declared, rule) {
            return Some(place);
        }
    }
    None
}

/// Whether both types have the same tags and the same base.
fn is_match(declared: &Ty, rule: &Ty) -> bool
    ensures { result ≡ is_match (type_view declared.now) (type_view rule.now) }
{
    are_same_tags(&declared.tags, &rule.tags) && declared.same_base(rule)
}

fn copy_of_types(alloc: Global, types: &[&Ty]) -> Result<Vec<Ty>, OutOfMemory>
    ensures { IfOk result (λ copy. map type_view copy.items ≡ types_view types.now) }
{
    let mut copy = Vec::with_capacity(alloc, types.len())?;
    for ty in types {
        copy.push(ty.copy(alloc)?)?;
    }
    Ok(copy)
}
