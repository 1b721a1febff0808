//! Written tags (X.680 clause 31).
ghost use Rattle.std.specs.Prelude.{◌≡◌, IfOk, false, is_some, map};
ghost use Rattle.guard_model.specs.Answer.{Gives};
ghost use Rattle.guard_syntax.specs.TypeViews.{tag_view};
ghost use Rattle.guard_tagging.specs.Faults as faults;
ghost use Rattle.guard_tagging.specs.Named.{named, allowed};
ghost use Rattle.guard_tagging.specs.inside.NodeViews.{node_view};
ghost use Rattle.guard_tagging.specs.inside.ReadTags.{implicit_last, in_front, read_tag, read_tags, kept};
ghost use Rattle.guard_tagging.specs.Tagging as tagging;

use crate::fault::TagFault;
use crate::made::Node;
use guard_lexer::magnitude;
use guard_model::{Class, GREATEST_TAG_NUMBER, Tag};
use guard_syntax::{TagClass, TagDefault, TagMode, TagTree};
use std::alloc::{AllocError, Global};

/// Ok where no tag is written with the word UNIVERSAL; else UniversalTag at the bracket of the first that is.
pub fn check_universal(written: &[TagTree]) -> Result<(), TagFault>
    ensures { Gives (λ u. u) named result (allowed (faults.universal_tag (map tag_view written.now))) }
{
    for tree in written {
        if is_universal(tree.class) {
            return Err(TagFault::UniversalTag(tree.site));
        }
    }
    Ok(())
}

fn is_universal(class: Option<TagClass>) -> bool
    ensures { result ≡ faults.is_universal class }
{
    matches!(class, Some(TagClass::Universal))
}

/// Ok unless the tag directly before a CHOICE that has none has the word IMPLICIT (X.680 31.2.9); then ImplicitChoice
/// at the tag's bracket.
pub fn check_implicit(written: &[TagTree], on_choice: bool) -> Result<(), TagFault>
    ensures { Gives (λ u. u) named result (allowed (implicit_last on_choice (map tag_view written.now))) }
{
    match written.last() {
        Some(last) if on_choice && is_implicit(last.mode) => {
            Err(TagFault::ImplicitChoice(last.site))
        }
        _ => Ok(()),
    }
}

fn is_implicit(mode: Option<TagMode>) -> bool
    ensures { result ≡ faults.is_implicit mode }
{
    matches!(mode, Some(TagMode::Implicit))
}

/// The tags of a type with those that are written before it and the automatic one before these, the outermost first. An
/// implicit tag replaces the outermost one after it, and so does an automatic one. A CHOICE without tags has none to
/// replace, so that a tag on it is explicit.
pub fn with_written(alloc: Global, node: &Node, base: &[Tag]) -> Result<Vec<Tag>, TagFault>
    ensures { Gives (λ v. v.items) named result (read_tags node.now.tag_default (is_some node.now.automatic)
        (in_front node.now.automatic) (node_view node.now).tags base.now) }
{
    let mut tags = in_front(alloc, node.automatic)?;
    let mut replaced = node.automatic.is_some();
    for tree in node.tags {
        let tag = tag_of(tree)?;
        if !replaced {
            tags.push(tag)?;
        }
        replaced = !is_explicit(tree.mode, node.tag_default);
    }
    tags.extend_from_slice(kept(base, replaced))?;
    Ok(tags)
}

fn in_front(alloc: Global, automatic: Option<Tag>) -> Result<Vec<Tag>, AllocError>
    ensures { IfOk result (λ v. v.items ≡ in_front automatic) }
{
    let mut tags = Vec::new(alloc);
    if let Some(tag) = automatic {
        tags.push(tag)?;
    }
    Ok(tags)
}

/// What is left of the tags of a type after a tag that replaces the outermost one, or doesn't.
fn kept(base: &[Tag], replaced: bool) -> &[Tag]
    ensures { result.now ≡ kept replaced base.now }
{
    match base {
        [_, others @ ..] if replaced => others,
        all => all,
    }
}

/// Whether a tag is explicit on a type that has a tag.
fn is_explicit(mode: Option<TagMode>, default: TagDefault) -> bool
    ensures { result ≡ tagging.is_explicit mode default false }
{
    match mode {
        Some(TagMode::Explicit) => true,
        Some(TagMode::Implicit) => false,
        None => matches!(default, TagDefault::Explicit),
    }
}

fn tag_of(tree: &TagTree) -> Result<Tag, TagFault>
    ensures { Gives (λ tag. tag) named result (read_tag (tag_view tree.now)) }
{
    match magnitude(tree.number) {
        Some(number) if number <= GREATEST_TAG_NUMBER as u128 => Ok(Tag {
            class: class_of(tree.class),
            number: number as u32,
        }),
        _ => Err(TagFault::TagTooLarge(tree.site)),
    }
}

/// The class that is written before the number.
fn class_of(class: Option<TagClass>) -> Class
    ensures { result ≡ tagging.class_of class }
{
    match class {
        None => Class::Context,
        Some(TagClass::Universal) => Class::Universal,
        Some(TagClass::Application) => Class::Application,
        Some(TagClass::Private) => Class::Private,
    }
}
