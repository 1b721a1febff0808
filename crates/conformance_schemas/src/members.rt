//! `guard_eval`: whether a value is a member of a type, and the first constraint that it fails.
ghost use Rattle.std.specs.Prelude.{IsTrue};
ghost use Rattle.guard_der.specs.Fits.{fits};
ghost use Rattle.guard_der.specs.Sound.{is_sound};
ghost use Rattle.guard_model.specs.TypeView.{type_view};
ghost use Rattle.guard_model.specs.ValueView.{value_view};

use conformance_rows::{Layer, not_read, text_of, unknown};
use conformance_texts::{TextsFault, value_of};
use guard_eval::{first_violation, member};
use guard_model::{PathText, Ty, Value};
use guard_schema::{Schema, SchemaFault};
use std::alloc::{AllocError, Global};

#[derive(Drop)]
pub struct Members {
    /// A module's text without the END.
    module: String,
    /// The type of each row; where it is empty, a row has the name of its own.
    ty: String,
}

/// What a row asks about: a value of the type of this name.
#[derive(Clone, Copy)]
struct Asked<'a> {
    ty: &'a str,
    value: &'a str,
}

impl Members {
    /// The type's name and the value.
    fn asked<'a>(&'a self, text: &'a str) -> Option<Asked<'a>> {
        if !self.ty.is_empty() {
            return Some(Asked {
                ty: &self.ty,
                value: text,
            });
        }
        let (ty, value) = text.split_once(" ::= ")?;
        Some(Asked { ty, value })
    }

    /// What comes of the value, or the first fault of the module with it in its last line but END.
    fn judged(&self, alloc: Global, asked: Asked) -> Result<String, AllocError> {
        match Schema::build(alloc, &[self.text(alloc, "")?.as_bytes()]) {
            Ok(schema) => self.judged_under(alloc, &schema, asked),
            Err(fault) => told(alloc, fault),
        }
    }

    /// The module with more in its last lines.
    fn text(&self, alloc: Global, more: &str) -> Result<String, AllocError> {
        let module = &self.module;
        format!(in alloc; "{module}{more}END\n")
    }

    fn judged_under(
        &self,
        alloc: Global,
        schema: &Schema,
        asked: Asked,
    ) -> Result<String, AllocError> {
        let module = schema.module(1).unwrap_or("");
        let Some(ty) = schema.ty(module, asked.ty) else {
            return String::from_str(alloc, "no type");
        };
        match value_of(alloc, ty, asked.value) {
            Ok(value) => violated(alloc, ty, &value),
            Err(TextsFault::OutOfMemory) => Err(AllocError),
            Err(_) => self.faulty(alloc, asked),
        }
    }

    /// The fault of the module that the value is in.
    fn faulty(&self, alloc: Global, asked: Asked) -> Result<String, AllocError> {
        let Asked { ty, value } = asked;
        let more = format!(in alloc; "v {ty} ::= {value}\n")?;
        match Schema::build(alloc, &[self.text(alloc, &more)?.as_bytes()]) {
            Ok(_) => not_read(alloc),
            Err(fault) => told(alloc, fault),
        }
    }
}

fn told(alloc: Global, fault: SchemaFault) -> Result<String, AllocError> {
    match fault {
        SchemaFault::OutOfMemory => Err(AllocError),
        fault => format!(in alloc; "{fault}"),
    }
}

/// What `first_violation` says beside the answer of `member`.
pub fn violated(alloc: Global, ty: &Ty, value: &Value) -> Result<String, AllocError>
    requires sound { IsTrue (is_sound (type_view ty.now)) }
    requires fits { IsTrue (fits (type_view ty.now) (value_view value.now)) }
{
    match (member(ty, value), first_violation(ty, value)) {
        (true, None) => String::from_str(alloc, "member"),
        (false, Some(violation)) => {
            let site = violation.site;
            let path = PathText(&violation.path);
            format!(in alloc; "no member: {site} {path}")
        }
        _ => String::from_str(alloc, "member and first_violation disagree"),
    }
}

impl Layer for Members {
    fn new(alloc: Global) -> Members {
        Members {
            module: String::new(alloc),
            ty: String::new(alloc),
        }
    }

    /// A value of the type that is set, or `NAME ::= VALUE` of a type of the module.
    fn answer(&mut self, alloc: Global, input: &[u8]) -> Result<String, AllocError> {
        match self.asked(text_of(input)) {
            Some(asked) => self.judged(alloc, asked),
            None => not_read(alloc),
        }
    }

    /// `@type TYPE` sets the type, which is the third line of a module; `@module` after the lines of a module without
    /// its END sets this.
    fn set(&mut self, alloc: Global, name: &str, text: &[u8]) -> Result<String, AllocError> {
        let text = text_of(text);
        match name {
            "type" => {
                self.module = format!(in alloc; "M DEFINITIONS ::= BEGIN\nT ::=\n{text}\n")?;
                self.ty = String::from_str(alloc, "T")?;
            }
            "module" => {
                self.module = String::from_str(alloc, text)?;
                self.ty = String::new(alloc);
            }
            _ => return unknown(alloc),
        }
        String::from_str(alloc, "ok")
    }
}
