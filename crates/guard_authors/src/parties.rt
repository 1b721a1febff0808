//! Names of senders and receivers that differ in case alone.
ghost use Rattle.std.specs.Prelude.{◌≡◌, ◌++◌, [], bytes_eq, map, option_map, IfOk, OnOk};
ghost use Rattle.std.specs.List.{list_any};
ghost use Rattle.guard_authors.specs.Listing.{found_view, parties, differ_in_case, case_line};
ghost use Rattle.guard_authors.specs.Listing.{first_alike, case_lines_at, case_lines};

use crate::listing::Found;
use guard_files::add;
use guard_model::OutOfMemory;
use std::alloc::Global;

/// The names that the rules give for senders and receivers, in order.
pub fn parties<'a>(alloc: Global, rules: &[Found<'a>]) -> Result<Vec<&'a str>, OutOfMemory>
    ensures { IfOk result (λ names. map (λ name. name.now) names.items ≡ parties (map found_view rules.now)) }
{
    let mut names = Vec::new(alloc);
    for found in rules {
        names.push(found.rule.from)?;
        names.push(found.rule.to)?;
    }
    Ok(names)
}

/// Adds a line for each name that differs from one before it in case alone, where it comes first.
pub fn add_case_lines(text: &mut Vec<u8>, names: &[&str]) -> Result<(), OutOfMemory>
    ensures { OnOk result (text.new.items ≡ text.old.items ++ case_lines [] (map (λ name. name.now) names.now)) }
{
    for (place, name) in names.iter().enumerate() {
        add_case_lines_at(text, &names[..place], name)?;
    }
    Ok(())
}

fn add_case_lines_at(text: &mut Vec<u8>, before: &[&str], name: &str) -> Result<(), OutOfMemory>
    ensures { OnOk result (text.new.items
        ≡ text.old.items ++ case_lines_at (map (λ name. name.now) before.now) name.now) }
{
    if is_among(before, name) {
        return Ok(());
    }
    match first_alike(before, name) {
        Some(other) => add_case_line(text, other, name),
        None => Ok(()),
    }
}

pub fn is_among(before: &[&str], name: &str) -> bool
    ensures { result ≡ list_any (λ a. bytes_eq a name.now) (map (λ name. name.now) before.now) }
{
    for other in before {
        if *other == name {
            return true;
        }
    }
    false
}

/// The first of the names that differs from this one in case alone.
fn first_alike<'a>(before: &[&'a str], name: &str) -> Option<&'a str>
    ensures { option_map (λ other. other.now) result ≡ first_alike (map (λ name. name.now) before.now) name.now }
{
    for other in before {
        if differ_in_case(other, name) {
            return Some(other);
        }
    }
    None
}

fn differ_in_case(one: &str, other: &str) -> bool
    ensures { result ≡ differ_in_case one.now other.now }
{
    one.eq_ignore_ascii_case(other) && one != other
}

fn add_case_line(text: &mut Vec<u8>, one: &str, other: &str) -> Result<(), OutOfMemory>
    ensures { OnOk result (text.new.items ≡ text.old.items ++ case_line one.now other.now) }
{
    add(text, b"  ")?;
    add(text, one.as_bytes())?;
    add(text, b" and ")?;
    add(text, other.as_bytes())?;
    add(text, b": names of parties that differ in case alone\n")
}
