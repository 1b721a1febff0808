//! The tables that are made of a policy's types. A large type has a large table, and many messages may have the type:
//! those whose types are the same share one table.
ghost use Rattle.std.specs.Prelude.{◌≡◌, ◌∷◌, All, Some, option_map, slice_get, IfOk, IfSome, IsTrue};
ghost use Rattle.std.specs.Arc.{arc_value};
ghost use Rattle.guard_der.specs.Sound.{is_sound};
ghost use Rattle.guard_model.specs.TypeView.{type_view};
ghost use Rattle.guard_tables.specs.TableView.{table_types, rules_of};
ghost use Rattle.guard_tables.specs.Tables.{types_view, first_fault};
ghost use Rattle.guard_policy.specs.inside.Answers.{Meets};
ghost use Rattle.guard_policy.specs.PolicyFaults.{bad_table};

use super::fault::PolicyFault;
use guard_model::Ty;
use guard_tables::{Table, TableFault};
use std::alloc::Global;
use std::collections::BTreeMap;
use std::sync::Arc;

/// By the names of types the last table that was made of types of these names. Only the types themselves tell whether it
/// is their table.
#[derive(Drop)]
pub(crate) struct MadeTables<'a> {
    named: BTreeMap<Vec<&'a str>, Arc<Table>>,
}

impl<'a> MadeTables<'a> {
    /// No tables.
    pub fn none(alloc: Global) -> MadeTables<'a> {
        MadeTables {
            named: BTreeMap::new(alloc),
        }
    }

    /// The table of these types, which have these names: one that was made before, if it is theirs, or else a new one.
    /// Where they make none, the fault of the message of this number. Condition: the types are sound.
    pub fn table_of(
        &mut self,
        alloc: Global,
        number: usize,
        names: Vec<&'a str>,
        declared: &Ty,
        rules: &[&Ty],
    ) -> Result<Arc<Table>, PolicyFault>
        requires declared_sound { IsTrue (is_sound (type_view declared.now)) }
        requires rules_sound { All (λ t. IsTrue (is_sound t)) (types_view rules.now) }
        ensures met { Meets (option_map (bad_table number)
            (first_fault (type_view declared.now) (types_view rules.now))) result }
        ensures types { IfOk result (λ table. table_types (arc_value table)
            ≡ type_view declared.now ∷ types_view rules.now) }
    {
        if let Some(table) = self.find(&names, declared, rules) {
            return Ok(table.clone()?);
        }
        let table = Arc::new(alloc, new_table(alloc, number, declared, rules)?)?;
        self.named.insert(names, table.clone()?)?;
        Ok(table)
    }

    /// The table that was made of types of these names, if it is the table of these types.
    fn find(&self, names: &[&'a str], declared: &Ty, rules: &[&Ty]) -> Option<&Arc<Table>>
        ensures { IfSome result (λ table. table_types (arc_value table.now)
            ≡ type_view declared.now ∷ types_view rules.now) }
    {
        let table = self.named.get(names)?;
        if table.declared().same(declared) && has_rules(table, rules) {
            Some(table)
        } else {
            None
        }
    }
}

fn new_table(
    alloc: Global,
    number: usize,
    declared: &Ty,
    rules: &[&Ty],
) -> Result<Table, PolicyFault>
    requires declared_sound { IsTrue (is_sound (type_view declared.now)) }
    requires rules_sound { All (λ t. IsTrue (is_sound t)) (types_view rules.now) }
    ensures met { Meets (option_map (bad_table number)
        (first_fault (type_view declared.now) (types_view rules.now))) result }
    ensures types { IfOk result (λ table. table_types table ≡ type_view declared.now ∷ types_view rules.now) }
{
    match Table::compile(alloc, declared, rules) {
        Ok(table) => Ok(table),
        Err(TableFault::OutOfMemory) => Err(PolicyFault::OutOfMemory),
        Err(fault) => Err(PolicyFault::Table(number, fault)),
    }
}

/// Whether these are the types of the table's rules, in order.
fn has_rules(table: &Table, types: &[&Ty]) -> bool
    ensures { IsTrue result → rules_of table.now ≡ types_view types.now }
{
    if table.rules() != types.len() {
        return false;
    }
    for (place, ty) in types.iter().enumerate() {
        if !is_rule(table, place, ty) {
            return false;
        }
    }
    true
}

/// Whether the table's rule at this place, from 0, has this type.
fn is_rule(table: &Table, place: usize, ty: &Ty) -> bool
    ensures { IsTrue result → slice_get (rules_of table.now) place ≡ Some (type_view ty.now) }
{
    match table.rule(place) {
        Some(rule) => rule.same(ty),
        None => false,
    }
}
