//! Which of the values that are set have the constraints that a text writes on the type that is set; or the first
//! fault.
ghost use Rattle.std.specs.Prelude.{IsTrue};
ghost use Rattle.guard_der.specs.Sound.{is_sound};
ghost use Rattle.guard_model.specs.TypeView.{type_view};

use conformance_rows::{Layer, text_of, unknown};
use conformance_texts::value_of;
use guard_eval::member;
use guard_model::Ty;
use guard_schema::{Schema, SchemaFault};
use std::alloc::{AllocError, Global};

#[derive(Drop)]
pub struct ConstraintsRows {
    ty: String,
    /// The lines of the assignments that are visible.
    visible: String,
    /// Values of the type, separated by ` ; `.
    values: String,
}

impl ConstraintsRows {
    /// A module with the constraints in its third line, on a reference to the type; what is visible is below them.
    fn module_text(&self, alloc: Global, text: &str) -> Result<String, AllocError> {
        let ConstraintsRows { ty, visible, .. } = self;
        format!(in alloc;
            "M DEFINITIONS ::= BEGIN\nT ::= Base\n{text}\n{visible}Base ::= {ty}\nEND\n"
        )
    }

    /// The values that have all constraints, in the order in which they are set.
    fn having(&self, alloc: Global, ty: &Ty) -> Result<String, AllocError>
        requires { IsTrue (is_sound (type_view ty.now)) }
    {
        let mut found = String::new(alloc);
        for text in self.values.split(" ; ") {
            if is_member(alloc, ty, text) {
                found.push_str(if found.is_empty() { "" } else { " ; " })?;
                found.push_str(text)?;
            }
        }
        if found.is_empty() {
            return String::from_str(alloc, "none");
        }
        Ok(found)
    }
}

/// Whether the text is a value of the type that has its constraints.
fn is_member(alloc: Global, ty: &Ty, text: &str) -> bool
    requires { IsTrue (is_sound (type_view ty.now)) }
{
    match value_of(alloc, ty, text) {
        Ok(value) => member(ty, &value),
        Err(_) => false,
    }
}

impl Layer for ConstraintsRows {
    fn new(alloc: Global) -> ConstraintsRows {
        ConstraintsRows {
            ty: String::new(alloc),
            visible: String::new(alloc),
            values: String::new(alloc),
        }
    }

    /// Constraints.
    fn answer(&mut self, alloc: Global, input: &[u8]) -> Result<String, AllocError> {
        let text = self.module_text(alloc, text_of(input))?;
        match Schema::build(alloc, &[text.as_bytes()]) {
            Ok(schema) => match schema.ty("M", "T") {
                Some(ty) => self.having(alloc, ty),
                None => String::from_str(alloc, "no type"),
            },
            Err(SchemaFault::OutOfMemory) => Err(AllocError),
            Err(fault) => format!(in alloc; "{fault}"),
        }
    }

    /// `@type TYPE`; `@values VALUE ; VALUE`; `@visible ASSIGNMENT`, and `@visible none`.
    fn set(&mut self, alloc: Global, name: &str, text: &[u8]) -> Result<String, AllocError> {
        match (name, text_of(text)) {
            ("type", text) => self.ty = String::from_str(alloc, text)?,
            ("values", text) => self.values = String::from_str(alloc, text)?,
            ("visible", "none") => self.visible = String::new(alloc),
            ("visible", text) => {
                self.visible.push_str(text)?;
                self.visible.push('\n')?;
            }
            _ => return unknown(alloc),
        }
        String::from_str(alloc, "ok")
    }
}
