//! The type that the rows below `@type` are of: a module is built whose third line is its text.
ghost use Rattle.std.specs.Prelude.{IfSome, IsTrue};
ghost use Rattle.guard_der.specs.Sound.{is_sound};
ghost use Rattle.guard_model.specs.TypeView.{type_view};

use guard_model::Ty;
use guard_schema::{Schema, SchemaFault};
use std::alloc::{AllocError, Global};

/// The type that was set last.
#[derive(Drop)]
pub struct TypeRow {
    schema: Option<Schema>,
}

impl TypeRow {
    /// None.
    pub fn new() -> TypeRow {
        TypeRow { schema: None }
    }

    /// Sets the type, and answers `ok`, or the fault of its text.
    pub fn set(&mut self, alloc: Global, text: &str) -> Result<String, AllocError> {
        let text = format!(in alloc; "M DEFINITIONS ::= BEGIN\nT ::=\n{text}\nEND\n")?;
        set_schema(alloc, &mut self.schema, &[text.as_bytes()])
    }

    /// The type.
    pub fn ty(&self) -> Option<&Ty>
        ensures sound { IfSome result (λ ty. IsTrue (is_sound (type_view ty.now))) }
    {
        match &self.schema {
            Some(schema) => schema.ty("M", "T"),
            None => None,
        }
    }
}

/// Sets the schema of texts, and answers `ok`, or their fault, and then there is none.
pub fn set_schema(
    alloc: Global,
    kept: &mut Option<Schema>,
    texts: &[&[u8]],
) -> Result<String, AllocError> {
    match Schema::build(alloc, texts) {
        Ok(schema) => {
            *kept = Some(schema);
            String::from_str(alloc, "ok")
        }
        Err(SchemaFault::OutOfMemory) => Err(AllocError),
        Err(fault) => {
            *kept = None;
            format!(in alloc; "{fault}")
        }
    }
}
