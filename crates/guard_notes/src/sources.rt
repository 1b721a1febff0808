//! The texts that a fault or a verdict is explained over, and how a place in them is shown.
ghost use Rattle.std.specs.Prelude.{◌≡◌, ◌-◌, ◌++◌, [], codes, string_bytes, slice_get, unwrap_or, IfOk};
ghost use Rattle.guard_notes.specs.Sources.{sources_view, folder, module_text, place_lines};
ghost use Rattle.guard_notes.specs.declared.notes.Place.TheVariants.{Module, At};

use crate::marking::{line_at, marked_line};
use crate::notes::Place;
use guard_model::Site;
use std::alloc::{AllocError, Global};

/// The policy's path, the files that it lists, and their texts.
#[derive(Clone, Copy)]
pub struct Sources<'a> {
    pub path: &'a str,
    pub files: &'a [String],
    pub modules: &'a [Vec<u8>],
}

/// The lines that show a place.
pub fn place_lines(alloc: Global, sources: &Sources, place: Place) -> Result<String, AllocError>
    ensures { IfOk result (λ text. string_bytes text ≡ place_lines (sources_view sources.now) place) }
{
    match place {
        Place::Nowhere => Ok(String::new(alloc)),
        Place::ThePolicy => path_line(alloc, sources.path),
        Place::Module(text) => module_line(alloc, sources, text),
        Place::At(site) => site_lines(alloc, sources, site),
    }
}

fn path_line(alloc: Global, path: &str) -> Result<String, AllocError>
    ensures { IfOk result (λ text. string_bytes text ≡ codes "  " ++ (path.now ++ codes "\n")) }
{
    format!(in alloc; "  {path}\n")
}

fn module_line(alloc: Global, sources: &Sources, text: u32) -> Result<String, AllocError>
    ensures { IfOk result (λ line. string_bytes line ≡ place_lines (sources_view sources.now) (Module text)) }
{
    let path = beside(alloc, sources.path, module_name(sources, text))?;
    path_line(alloc, &path)
}

/// The path, line and column, and the line itself with a mark under the column.
fn site_lines(alloc: Global, sources: &Sources, site: Site) -> Result<String, AllocError>
    ensures { IfOk result (λ text. string_bytes text ≡ place_lines (sources_view sources.now) (At site)) }
{
    let path = beside(alloc, sources.path, module_name(sources, site.text))?;
    let text = line_at(module_text(sources, site.text), site.line);
    let marked = marked_line(alloc, text, site.column)?;
    let (line, column) = (site.line, site.column);
    format!(in alloc; "  {path}:{line}:{column}\n{marked}")
}

/// The listed name of the module of this number, from 1.
fn module_name<'a>(sources: &Sources<'a>, number: u32) -> &'a str
    ensures { result.now ≡ unwrap_or (slice_get (sources_view sources.now).files (number - 1)) [] }
{
    match sources.files.get(place_of(number)) {
        Some(name) => name.as_str(),
        None => "",
    }
}

/// The text of the module of this number, from 1.
pub fn module_text<'a>(sources: &Sources<'a>, number: u32) -> &'a [u8]
    ensures { result.now ≡ module_text (sources_view sources.now) number }
{
    match sources.modules.get(place_of(number)) {
        Some(text) => text.as_slice(),
        None => &[],
    }
}

/// Whether a module before that of this number, from 1, has the same text.
pub fn is_listed_before(sources: &Sources, number: u32) -> bool {
    let text = module_text(sources, number);
    for place in 1..number {
        if module_text(sources, place) == text {
            return true;
        }
    }
    false
}

fn place_of(number: u32) -> usize
    ensures { result ≡ number - 1 }
{
    (number as usize).saturating_sub(1)
}

/// The path of a file of this name in the folder of the other path: that one up to and with its last `/`, and then the
/// name.
pub fn beside(alloc: Global, path: &str, name: &str) -> Result<String, AllocError>
    ensures { IfOk result (λ place. string_bytes place ≡ folder path.now ++ name.now) }
{
    match path.rsplit_once('/') {
        Some((folder, _)) => format!(in alloc; "{folder}/{name}"),
        None => String::from_str(alloc, name),
    }
}
