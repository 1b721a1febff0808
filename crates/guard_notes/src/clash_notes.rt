//! What more is said of components that tags don't tell apart.
ghost use Rattle.std.specs.Prelude.{◌≡◌, option_map, string_bytes, IfOk};
ghost use Rattle.guard_notes.specs.ClashNotes.{class_word, clash_line, tag_text};
ghost use Rattle.guard_tagcheck.specs.Views.{common_view};

use guard_model::{Class, OutOfMemory, Tag};
use guard_tagcheck::InCommon;
use std::alloc::{AllocError, Global};

/// The names of two components that clash, and the tag that they share.
pub fn clash_line(alloc: Global, common: &Option<InCommon>) -> Result<String, OutOfMemory>
    ensures { IfOk result (λ line. string_bytes line ≡ clash_line (option_map common_view common.now)) }
{
    match common {
        None => Ok(String::new(alloc)),
        Some(common) => {
            let (first, second) = (common.first.as_str(), common.second.as_str());
            let tag = tag_text(alloc, common.tag)?;
            Ok(format!(in alloc; "  {first} and {second}: both {tag}\n")?)
        }
    }
}

fn tag_text(alloc: Global, tag: Tag) -> Result<String, AllocError>
    ensures { IfOk result (λ text. string_bytes text ≡ tag_text tag) }
{
    let (class, number) = (class_word(tag.class), tag.number);
    format!(in alloc; "[{class}{number}]")
}

fn class_word(class: Class) -> &'static str
    ensures { result.now ≡ class_word class }
{
    match class {
        Class::Universal => "UNIVERSAL ",
        Class::Application => "APPLICATION ",
        Class::Context => "",
        Class::Private => "PRIVATE ",
    }
}
