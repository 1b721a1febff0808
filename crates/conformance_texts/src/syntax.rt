//! `guard_syntax`: how many assignments a module has, where the parts of a set are, where a value alone begins, or the
//! fault.
use conformance_rows::{Around, Layer, text_of};
use guard_lexer::{Token, tokens};
use guard_syntax::{
    ElementForm, ElementTree, IntersectionTree, Module, SetTree, parse, parse_value,
};
use std::alloc::{AllocError, Global};

/// What is shown of a text.
#[derive(Drop)]
enum Shown {
    /// Of a module: `ok` and the number of its assignments.
    Count,
    /// Of a module: the sites in the first constraint of its first type.
    Sites,
    /// Of a value alone: `ok` and its site.
    Value,
}

#[derive(Drop)]
pub struct Parser {
    shown: Shown,
    around: Around,
}

/// What is shown of the module that these tokens of the text write.
fn of_module(
    alloc: Global,
    shown: &Shown,
    text: &[u8],
    found: &[Token],
) -> Result<String, AllocError> {
    match parse(alloc, 1, text, found) {
        Ok(module) => match shown {
            Shown::Sites => sites(alloc, &module),
            Shown::Count | Shown::Value => {
                let count = module.assignments.len();
                format!(in alloc; "ok {count}")
            }
        },
        Err(fault) => format!(in alloc; "{fault}"),
    }
}

/// What is shown of the value that these tokens of the text write.
fn of_value(alloc: Global, text: &[u8], found: &[Token]) -> Result<String, AllocError> {
    match parse_value(alloc, 1, text, found) {
        Ok(value) => {
            let site = value.site;
            format!(in alloc; "ok {site}")
        }
        Err(fault) => format!(in alloc; "{fault}"),
    }
}

/// Where the set of the first type's first constraint is, the first intersection in it, and the set in parentheses
/// that this begins with.
fn sites(alloc: Global, module: &Module) -> Result<String, AllocError> {
    let Some(cons) = module.assignments.first().and_then(|it| it.ty.cons.first()) else {
        return String::from_str(alloc, "no constraint");
    };
    let set = cons.set.site();
    let Some(element) = first_element(&cons.set) else {
        return String::from_str(alloc, "no union");
    };
    let intersection = element.site;
    let ElementForm::Parentheses(inner) = &element.form else {
        return format!(in alloc; "set {set}; intersection {intersection}");
    };
    let inner = inner.site();
    format!(in alloc; "set {set}; intersection {intersection}; in parentheses {inner}")
}

/// The first element of a union.
fn first_element<'m, 'a>(set: &'m SetTree<'a>) -> Option<&'m ElementTree<'a>> {
    match set {
        SetTree::AllExcept(_, _) => None,
        SetTree::Alone(element) => Some(element),
        SetTree::Union(first, _) => match first.as_ref() {
            IntersectionTree::Single(element) => Some(element),
            IntersectionTree::Differences(first, _) => Some(&first.element),
        },
    }
}

impl Layer for Parser {
    fn new(alloc: Global) -> Parser {
        Parser {
            shown: Shown::Count,
            around: Around::new(alloc),
        }
    }

    fn answer(&mut self, alloc: Global, input: &[u8]) -> Result<String, AllocError> {
        let text = self.around.text(alloc, input)?;
        let found = match tokens(alloc, 1, &text) {
            Ok(found) => found,
            Err(fault) => return format!(in alloc; "{fault}"),
        };
        match self.shown {
            Shown::Value => of_value(alloc, &text, &found),
            Shown::Count | Shown::Sites => of_module(alloc, &self.shown, &text, &found),
        }
    }

    /// `@show count`, `@show sites`, `@show value`; `@before` and `@after` with what is around each text.
    fn set(&mut self, alloc: Global, name: &str, text: &[u8]) -> Result<String, AllocError> {
        match (name, text_of(text)) {
            ("show", "count") => self.shown = Shown::Count,
            ("show", "sites") => self.shown = Shown::Sites,
            ("show", "value") => self.shown = Shown::Value,
            _ => return self.around.set(alloc, name, text),
        }
        String::from_str(alloc, "ok")
    }
}
