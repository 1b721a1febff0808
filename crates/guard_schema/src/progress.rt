//! What is built so far, definition by definition in their order.
ghost use Rattle.std.specs.Prelude.{◌≡◌, ◌≤◌, ◌+◌, ◌++◌, ◌∷◌, [], All, IsTrue, IfSome, length, map, IfOk};
ghost use Rattle.std.proofs.Props.{props};
ghost use Rattle.guard_der.specs.Fits.{fits};
ghost use Rattle.guard_der.specs.Sound.{is_sound};
ghost use Rattle.guard_model.specs.TypeView.{shared_type_view};
ghost use Rattle.guard_values.specs.KeptLengths.{length_beside};
ghost use Rattle.guard_values.specs.SingleValues.{is_bounded};
ghost use Rattle.guard_tagging.specs.Surroundings.{nodes_of_all};
ghost use Rattle.guard_tagging.specs.Faults as tagging;
ghost use Rattle.guard_schema.specs.Counting.{all_held, held_by, most_held};
ghost use Rattle.guard_schema.specs.Pairs.{paired};

use guard_model::{Ty, Value};
use guard_names::Names;
use guard_tagging::Done;
use guard_values::Known;
use std::alloc::{AllocError, Global};
use std::sync::Arc;

/// What is built of one definition.
#[derive(Drop)]
pub struct Definition {
    /// The type that is assigned, or the governor of the value that is (X.680 16.1, 16.2).
    pub ty: Arc<Ty>,
    /// The value of a value assignment.
    pub value: Option<Arc<Value>>,
    /// How many octets the contents of its encoding are; None without a value, and where they are more than an encoding
    /// may have.
    pub length: Option<usize>,
    /// A number of octets that the contents of no single value in the type's own constraints exceed; None where none is
    /// known.
    pub bound: Option<usize>,
    /// Whether the type's list of components or alternatives was tagged automatically, where there is one.
    pub is_automatic: bool,
    /// How many types this definition and those before it are made of.
    pub nodes: usize,
    /// How many constraints, values and contained types this definition and those before it hold.
    pub held: usize,
}

/// What is built of the first definitions in their order, side by side.
#[derive(Drop)]
pub struct Progress<'m, 'a> {
    pub names: &'m Names<'m, 'a>,
    pub known: Known,
    pub automatic: Vec<bool>,
    pub nodes: usize,
    pub held: usize,
    pub ghost counted: { nodes ≡ nodes_of_all (map shared_type_view known.types.items) },
    pub ghost few: { nodes ≤ tagging.most_nodes },
    pub ghost holding: { held ≡ all_held (paired known.types.items known.values.items) },
    pub ghost little: { held ≤ most_held },
    pub ghost sound: { All (λ t. IsTrue (is_sound (shared_type_view t))) known.types.items } by { Prim.hlevel props },
    pub ghost fitting: { All (λ b. IfSome b.value (λ v. IsTrue (fits b.ty v)))
        (paired known.types.items known.values.items) } by { Prim.hlevel props },
}

impl<'m, 'a> Progress<'m, 'a> {
    ghost use Rattle.guard_schema.specs.Views.{built_in, definition_view};

    /// Nothing yet, with room for `count` definitions.
    pub fn with_room(
        alloc: Global,
        names: &'m Names<'m, 'a>,
        count: usize,
    ) -> Result<Progress<'m, 'a>, AllocError>
        ensures names { IfOk result (λ p. p.names.now ≡ names.now) }
        ensures none { IfOk result (λ p. (built_in p ≡ []) × (p.known.types.items ≡ []) × (p.automatic.items ≡ [])) }
    {
        let known = Known::with_room(alloc, count)?;
        let automatic = Vec::with_capacity(alloc, count)?;
        Ok(Progress {
            names,
            known,
            automatic,
            nodes: 0,
            held: 0,
        })
    }

    /// What is known of the definitions that are built, for tags and parts of the next one.
    pub fn done(&self) -> Done<'_>
        ensures types { result.types.now ≡ self.now.known.types.items }
        ensures flags { result.automatic.now ≡ self.now.automatic.items }
        ensures nodes { result.nodes ≡ self.now.nodes }
    {
        Done {
            types: &self.known.types,
            automatic: &self.automatic,
            nodes: self.nodes,
        }
    }

    /// With the next definition in the order. It is taken and handed back by value, since one list longer than the
    /// others would break what holds of it.
    pub fn with(self, definition: Definition) -> Result<Progress<'m, 'a>, AllocError>
        requires sound { IsTrue (is_sound (definition_view definition).ty) }
        requires fits { IfSome (definition_view definition).value
            (λ v. IsTrue (fits (definition_view definition).ty v)) }
        requires length { definition.length ≡ length_beside definition.ty definition.value }
        requires bound { IsTrue (is_bounded definition.bound (shared_type_view definition.ty)) }
        requires nodes { definition.nodes ≡ self.nodes + tagging.nodes (definition_view definition).ty }
        requires few { definition.nodes ≤ tagging.most_nodes }
        requires held { definition.held ≡ self.held + held_by (definition_view definition) }
        requires little { definition.held ≤ most_held }
        ensures names { IfOk result (λ p. p.names.now ≡ self.entry.names.now) }
        ensures types { IfOk result (λ p. p.known.types.items ≡ self.entry.known.types.items ++ definition.ty ∷ []) }
        ensures flags { IfOk result (λ p. p.automatic.items ≡ self.entry.automatic.items
            ++ definition.is_automatic ∷ []) }
        ensures more { IfOk result (λ p. built_in p ≡ built_in self.entry ++ definition_view definition ∷ []) }
    {
        let Progress {
            names,
            known,
            mut automatic,
            ..
        } = self;
        let more = known.with(
            definition.ty,
            definition.value,
            definition.length,
            definition.bound,
        )?;
        automatic.push(definition.is_automatic)?;
        Ok(Progress {
            names,
            known: more,
            automatic,
            nodes: definition.nodes,
            held: definition.held,
        })
    }
}
