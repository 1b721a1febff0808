//! How what names mean is written in a row.
use guard_names::Names;
use guard_syntax::{Assignment, Module};
use std::alloc::{AllocError, Global};
use std::str;

/// A name of a module text.
fn text(name: &[u8]) -> &str {
    str::from_utf8(name).unwrap_or("(not UTF-8)")
}

/// `Module.name`.
pub fn definition(
    alloc: Global,
    home: Option<(&Module, &Assignment)>,
) -> Result<String, AllocError> {
    let Some((module, assignment)) = home else {
        return String::from_str(alloc, "none");
    };
    let module = text(module.name);
    let name = text(assignment.name);
    format!(in alloc; "{module}.{name}")
}

/// The definitions in order: `ok`, and each as `Module.name`.
pub fn order(alloc: Global, names: &Names) -> Result<String, AllocError> {
    let mut answer = String::from_str(alloc, "ok")?;
    for id in names.order() {
        let definition = definition(alloc, names.home(*id))?;
        answer.push(' ')?;
        answer.push_str(&definition)?;
    }
    Ok(answer)
}

/// How many definitions there are, the first and the last in order.
pub fn ends_of_order(alloc: Global, names: &Names) -> Result<String, AllocError> {
    let order = names.order();
    let (Some(first), Some(last)) = (order.first(), order.last()) else {
        return String::from_str(alloc, "ok 0");
    };
    let count = order.len();
    let first = definition(alloc, names.home(*first))?;
    let last = definition(alloc, names.home(*last))?;
    format!(in alloc; "ok {count}, {first} to {last}")
}
