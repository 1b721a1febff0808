//! Schemas.
ghost use Rattle.std.specs.Prelude.{◌≡◌, ◌≤◌, All, IsTrue, IfSome, length, map, option_map, slice_get, string_bytes};
ghost use Rattle.std.proofs.Props.{props};
ghost use Rattle.guard_der.specs.Fits.{fits};
ghost use Rattle.guard_der.specs.Sound.{is_sound};
ghost use Rattle.guard_model.specs.TypeView as model;
ghost use Rattle.guard_schema.specs.Pairs.{paired};

use crate::build::schema_of;
use crate::fault::SchemaFault;
use crate::index::TypeIndex;
use crate::laws::law_one_schema;
use guard_der::named_types::Types;
use guard_model::Ty;
use guard_values::Known;
use std::alloc::Global;

/// What the texts of modules denote: the names of the modules, in the order of the texts, of which there are 64 at
/// most, and the types by the names to which modules assign them. Each type is sound. Policies are loaded over it.
#[derive(Drop)]
pub struct Schema {
    pub(crate) modules: Vec<String>,
    pub(crate) index: TypeIndex,
    /// What each definition is built to, by the order of definitions.
    pub(crate) known: Known,
    pub ghost sound: { All (λ t. IsTrue (is_sound (model.shared_type_view t)))
        known.types.items } by { Prim.hlevel props },
    pub ghost fitting: { All (λ b. IfSome b.value (λ v. IsTrue (fits b.ty v)))
        (paired known.types.items known.values.items) } by { Prim.hlevel props },
    pub ghost few: { length (map string_bytes modules.items) ≤ 64 },
}

impl Schema {
    ghost use Rattle.std.specs.Prelude.{IfOk, IfErr, Ok, List, ℕ};
    ghost use Rattle.guard_model.specs.Answer.{Gives};
    ghost use Rattle.guard_schema.specs.Faults.{named};
    ghost use Rattle.guard_schema.specs.Views.{schema_view};
    ghost use Rattle.guard_schema.specs.Accepts.{Accepts, IsRefused};
    ghost use Rattle.guard_schema.specs.EachType.{HasTypesOf};
    ghost use Rattle.guard_schema.specs.Schemas.{AbstractSchema, module_named};

    /// The schema that texts denote, each the text of one module.
    ///
    /// Faults are looked for in this order, and the first is answered: more than 64 texts; in each text in turn its
    /// tokens (L1 to L7) and how they follow one another (P1 to P3); names over all modules (N1 to N6, in the order of
    /// `resolve`); then one definition after the other, each after those that it uses: tags and parts (G1 to G12), tags
    /// that don't tell parts apart (S1), constraints and defaults, inside out in written order (C1 to C10, V1 to V8,
    /// and S2 directly after the default's value), the value that is assigned (V1 to V8, S2), the limit on constraints
    /// and values (S3). OutOfMemory may come in place of any answer.
    pub fn build(alloc: Global, texts: &[&[u8]]) -> Result<Schema, SchemaFault>
        // What is answered is what the texts denote.
        ensures accepted { IfOk result (λ schema. Accepts (map (λ t. t.now) texts.now) (schema_view schema)) }
        // A refusal names the texts' first fault, unless memory ran out. Then they denote no schema (`law_one_schema`).
        ensures refused { IfErr result (λ f. IfSome (named f) (IsRefused (map (λ t. t.now) texts.now))) }
        // The schema that the texts denote is answered, unless memory runs out.
        ensures only { (s : AbstractSchema) → Accepts (map (λ t. t.now) texts.now) s →
            Gives schema_view named result (Ok s) }
        // The schema has a type for each definition in the texts that assigns one, the finished type of what its tree
        // denotes, and no others.
        ensures types { IfOk result (λ schema. HasTypesOf (map (λ t. t.now) texts.now) (schema_view schema)) }
        // Each type of the schema is sound.
        ensures sound { IfOk result (λ schema. (home name : List ℕ) →
            IfSome ((schema_view schema).types home name) (λ t. IsTrue (is_sound t))) }
    {
        law_one_schema(texts);
        schema_of(alloc, texts)
    }

    /// The type to which the module of this name assigns the name (X.680 16.1), with its constraints and defaults. The
    /// type is sound. None where no module has this name, or where the module assigns no type to the name: the name may
    /// be that of a value, or imported, and a type that is imported is found by the module that assigns it.
    pub fn ty(&self, module_name: &str, name: &str) -> Option<&Ty>
        ensures named { option_map (λ ty. model.type_view ty.now) result
            ≡ (schema_view self.now).types module_name.now name.now }
        ensures sound { IfSome result (λ ty. IsTrue (is_sound (model.type_view ty.now))) }
    {
        let place = self.index.find(module_name.as_bytes(), name.as_bytes())?;
        let ty = self.known.types.get(place)?;
        Some(ty)
    }

    /// The name of the module that the text at this place of the list is (X.680 13.1), from 1 as in sites. None for 0
    /// and for places behind the last text.
    pub fn module(&self, text: u32) -> Option<&str>
        ensures { option_map (λ name. name.now) result ≡ module_named (schema_view self.now) text }
    {
        if text == 0 {
            return None;
        }
        name_at(&self.modules, text as usize - 1)
    }
}

impl Types for Schema {
    ghost use Rattle.guard_schema.specs.Schemas.{named_types};
    ghost use Rattle.guard_schema.specs.Views.{schema_view};

    ghost types = { λ schema. named_types (schema_view schema) };

    ghost few = { λ schema. schema.few };

    fn ty(&self, module_name: &str, name: &str) -> Option<&Ty> {
        Schema::ty(self, module_name, name)
    }

    fn module(&self, text: u32) -> Option<&str> {
        Schema::module(self, text)
    }
}

/// The name at this place, from 0.
fn name_at(names: &[String], place: usize) -> Option<&str>
    ensures { option_map (λ name. name.now) result ≡ slice_get (map string_bytes names.now) place }
{
    match names.get(place) {
        Some(name) => Some(name.as_str()),
        None => None,
    }
}
