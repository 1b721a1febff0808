//! Modules that are built: what names mean in them, and the schema that they denote.
ghost use Rattle.std.specs.Prelude.{◌≡◌, map, IfOk, IfErr, IfSome, IsTrue};
ghost use Rattle.guard_der.specs.Fits.{fits};
ghost use Rattle.guard_der.specs.Sound.{is_sound};
ghost use Rattle.guard_model.specs.AbstractValue.{AbstractValue};
ghost use Rattle.guard_model.specs.TypeView.{type_view};
ghost use Rattle.guard_model.specs.ValueView.{value_view};
ghost use Rattle.guard_syntax.specs.ModuleViews.{module_view};
ghost use Rattle.guard_syntax.specs.Views as trees;
ghost use Rattle.guard_values.specs.Denotes.{Denotes};
ghost use Rattle.guard_values.specs.FirstFault.{IsFirstFault};
ghost use Rattle.guard_values.specs.Views as values;
ghost use Rattle.guard_schema.specs.Accepts.{KnowsModules};
ghost use Rattle.guard_schema.specs.Faults.{named};
ghost use Rattle.guard_schema.specs.Known.{values_in};
ghost use Rattle.guard_schema.specs.Outcomes.{Answers};
ghost use Rattle.guard_schema.specs.Schemas.{schema_of};
ghost use Rattle.guard_schema.specs.Texts.{AreOfTexts};
ghost use Rattle.guard_schema.specs.Views.{known_of, schema_view};

use crate::build::with_names;
use crate::definitions::all_built;
use crate::fault::SchemaFault;
use crate::schema::Schema;
use guard_model::{Ty, Value};
use guard_names::{Names, resolve};
use guard_syntax::{Module, ValueTree};
use guard_values::{ValueFault, shared_value_in};
use std::alloc::Global;

/// Modules whose definitions are built: what names mean in them, and the schema that they denote. Values that stand
/// alone are read over it, with the names that they would have in one of the modules.
#[derive(Drop)]
pub struct BuiltModules<'m, 'a> {
    names: Names<'m, 'a>,
    /// The schema that the modules denote.
    pub schema: Schema,
}

impl<'m, 'a> BuiltModules<'m, 'a> {
    /// What is known of the definitions of modules, with the schema. The modules are those that texts are, as
    /// `read_modules` answers them, so there are 64 at most.
    ///
    /// Faults are looked for in the order of `Schema::build`: names over all modules (N1 to N6), and then one
    /// definition after the other (G1 to G12, S1 to S3, C1 to C10, V1 to V8). OutOfMemory may come in place of any
    /// answer.
    pub fn of(alloc: Global, modules: &'m [Module<'a>]) -> Result<BuiltModules<'m, 'a>, SchemaFault>
        requires { AreOfTexts (map module_view modules.now) }
        // What is answered is what is known of them, or a refusal names their first fault.
        ensures known { Answers known_of named result (KnowsModules (map module_view modules.now)) }
        // The types of the schema are those that are known.
        ensures schema { IfOk result (λ b. schema_view b.schema ≡ schema_of (known_of b)) }
    {
        let names = resolve(alloc, modules)?;
        let progress = all_built(alloc, &names)?;
        let schema = with_names(alloc, modules, progress)?;
        Ok(BuiltModules { names, schema })
    }

    /// The value of a type that a tree denotes, as if it were written in the module of this name (X.680 14.1); or the
    /// first fault of the tree (V1 to V8), as `guard_values::value` says it. Where no module has this name, no name
    /// means a value. The type is sound. OutOfMemory may come in place of any answer.
    pub fn value(
        &self,
        alloc: Global,
        home: &str,
        ty: &Ty,
        tree: &ValueTree,
    ) -> Result<Value, ValueFault>
        requires { IsTrue (is_sound (type_view ty.now)) }
        // The value is the one denoted.
        ensures denoted { IfOk result (λ v. Denotes (values_in (known_of self.now) home.now) (type_view ty.now)
            (trees.value_view tree.now) (value_view v)) }
        ensures fits { IfOk result (λ v. IsTrue (fits (type_view ty.now) (value_view v))) }
        // A refusal names the tree's first fault, and then nothing is denoted.
        ensures first { IfErr result (λ e. IfSome (values.named e)
            (IsFirstFault (values_in (known_of self.now) home.now) (type_view ty.now) (trees.value_view tree.now))) }
        ensures none { IfErr result (λ e. IfSome (values.named e) (λ f. (v : AbstractValue) →
            Denotes (values_in (known_of self.now) home.now) (type_view ty.now) (trees.value_view tree.now) v → ⊥)) }
    {
        let known = &self.schema.known;
        let shared = shared_value_in(alloc, &self.names, known, home.as_bytes(), ty, tree)?;
        Ok(shared.value.copy()?)
    }
}
