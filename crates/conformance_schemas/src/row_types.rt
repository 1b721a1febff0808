//! The types that a file of rows is about, and the octets of a row under one of them.
ghost use Rattle.std.specs.Prelude.{All, IfOk, IfSome, IsTrue};
ghost use Rattle.guard_der.specs.Sound.{is_sound};
ghost use Rattle.guard_model.specs.TypeView.{type_view};
ghost use Rattle.guard_tables.specs.Tables.{types_view};

use crate::tables::add_copies;
use crate::walks::ByTable;
use conformance_rows::{Compared, Subject, octets_in, text_of, texts_of};
use conformance_texts::{DefinedName, defined_names, value_of};
use guard_der::encode;
use guard_model::Ty;
use guard_schema::Schema;
use guard_tables::{Table, TableFault};
use std::alloc::{AllocError, Global};

/// What a row asks about: a value or octets under the type of this name.
#[derive(Clone, Copy)]
struct Asked<'a> {
    module: &'a str,
    name: &'a str,
    text: &'a str,
}

/// How the rows of a file say it.
#[derive(Clone, Copy)]
enum Form {
    /// A value.
    Value,
    /// Octets.
    Octets,
}

/// The types of the modules above a row.
#[derive(Drop)]
pub struct RowTypes {
    schema: Option<Schema>,
    names: Vec<DefinedName>,
    /// The type of each row is `T`; else a row has its name.
    one: bool,
    form: Form,
}

impl RowTypes {
    /// None, of a file whose rows are values.
    pub fn of_values(alloc: Global) -> RowTypes {
        RowTypes {
            schema: None,
            names: Vec::new(alloc),
            one: false,
            form: Form::Value,
        }
    }

    /// None, of a file whose rows are octets.
    pub fn of_octets(alloc: Global) -> RowTypes {
        let mut types = RowTypes::of_values(alloc);
        types.form = Form::Octets;
        types
    }

    fn ask(&mut self, form: Form) -> Result<(), AllocError> {
        self.form = form;
        Ok(())
    }

    /// Keeps the schema of texts, if they make one, and the names of its types.
    fn build(&mut self, alloc: Global, text: &str) -> Result<(), AllocError> {
        self.names = defined_names(alloc, text)?;
        self.schema = Schema::build(alloc, &texts_of(alloc, text.as_bytes())?).ok();
        Ok(())
    }

    /// What a row asks: a value or octets, after `NAME ::= `, `MODULE NAME : ` or `MODULE.NAME ` where no type is set.
    fn asked<'a>(&'a self, row: &'a str) -> Option<Asked<'a>> {
        if self.one {
            return Some(Asked {
                module: "M",
                name: "T",
                text: row,
            });
        }
        if let Some((name, text)) = row.split_once(" ::= ") {
            let module = self.schema.as_ref()?.module(1)?;
            return Some(Asked { module, name, text });
        }
        let (names, text) = row.split_once(" : ").or(row.split_once(' '))?;
        let (module, name) = names.split_once(' ').or(names.split_once('.'))?;
        Some(Asked { module, name, text })
    }

    /// The octets that a row is about, and the table of its type and of those that have the same tags and base.
    fn read(&self, alloc: Global, asked: Asked) -> Result<Option<(Table, Vec<u8>)>, AllocError> {
        let Some(schema) = &self.schema else {
            return Ok(None);
        };
        let Some(declared) = schema.ty(asked.module, asked.name) else {
            return Ok(None);
        };
        let Some(octets) = self.octets(alloc, declared, asked.text)? else {
            return Ok(None);
        };
        let rules = self.rules(alloc, schema, asked, declared)?;
        match table(alloc, declared, &rules)? {
            Some(table) => Ok(Some((table, octets))),
            None => Ok(None),
        }
    }

    fn octets(&self, alloc: Global, ty: &Ty, text: &str) -> Result<Option<Vec<u8>>, AllocError>
        requires sound { IsTrue (is_sound (type_view ty.now)) }
    {
        match self.form {
            Form::Octets => octets_in(alloc, text),
            Form::Value => match value_of(alloc, ty, text) {
                Ok(value) => Ok(encode(alloc, ty, &value).ok()),
                Err(_) => Ok(None),
            },
        }
    }

    /// The other types of the module with the same tags and base, or the type itself.
    fn rules<'a>(
        &self,
        alloc: Global,
        schema: &'a Schema,
        asked: Asked,
        declared: &'a Ty,
    ) -> Result<Vec<&'a Ty>, AllocError>
        requires sound { IsTrue (is_sound (type_view declared.now)) }
        ensures { IfOk result (λ found. All (λ t. IsTrue (is_sound t)) (types_view found.items)) }
    {
        let mut rules = Vec::new(alloc);
        for other in &self.names {
            if let Some(ty) = rule(other, schema, asked, declared) {
                rules = add_copies(rules, ty, 1)?;
            }
        }
        if rules.is_empty() {
            rules = add_copies(rules, declared, 1)?;
        }
        Ok(rules)
    }
}

/// The type of another name, if it is one of the same module with the same tags and base.
fn rule<'a>(other: &DefinedName, schema: &'a Schema, asked: Asked, declared: &Ty) -> Option<&'a Ty>
    ensures sound { IfSome result (λ ty. IsTrue (is_sound (type_view ty.now))) }
{
    if other.module.as_str() != asked.module || other.name.as_str() == asked.name {
        return None;
    }
    let ty = schema.ty(asked.module, &other.name)?;
    if ty.tags == declared.tags && ty.same_base(declared) {
        return Some(ty);
    }
    None
}

impl Subject for RowTypes {
    /// `@type TYPE`, which is the third line of a module; `@module` after the lines of a module without its END;
    /// `@modules` and `@schema` after those of whole modules; `@ask octets` of values, and `@ask value` and
    /// `@ask messages` of octets.
    fn set(&mut self, alloc: Global, name: &str, text: &[u8]) -> Result<(), AllocError> {
        match (name, text_of(text)) {
            ("type", text) => {
                let whole = format!(in alloc; "M DEFINITIONS ::= BEGIN\nT ::=\n{text}\nEND\n")?;
                self.one = true;
                self.build(alloc, &whole)
            }
            ("module", text) => {
                self.one = false;
                let whole = format!(in alloc; "{text}END\n")?;
                self.build(alloc, &whole)
            }
            ("modules" | "schema", text) => {
                self.one = false;
                self.build(alloc, text)
            }
            ("ask", "octets") => self.ask(Form::Value),
            ("ask", "value" | "messages") => self.ask(Form::Octets),
            _ => Ok(()),
        }
    }

    fn try_row(
        &self,
        alloc: Global,
        row: &[u8],
        compared: &mut Compared,
    ) -> Result<bool, AllocError> {
        let Some(asked) = self.asked(text_of(row)) else {
            return Ok(false);
        };
        match self.read(alloc, asked)? {
            Some((table, octets)) => {
                compared.try_around(alloc, &ByTable(&table), &octets)?;
                Ok(true)
            }
            None => Ok(false),
        }
    }
}

/// The table of these types, or where they ask too much of the declared type and a rule with the same; none where that
/// asks too much.
fn table(alloc: Global, declared: &Ty, rules: &[&Ty]) -> Result<Option<Table>, AllocError>
    requires declared_sound { IsTrue (is_sound (type_view declared.now)) }
    requires rules_sound { All (λ t. IsTrue (is_sound t)) (types_view rules.now) }
{
    match Table::compile(alloc, declared, rules) {
        Ok(table) => Ok(Some(table)),
        Err(TableFault::OutOfMemory) => Err(AllocError),
        Err(_) => Ok(Table::compile(alloc, declared, &[declared]).ok()),
    }
}
