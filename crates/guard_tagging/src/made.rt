//! A type as it is made: what is written before its base, its components so far, and what is known of it once it keeps
//! the limits.
ghost use Rattle.std.specs.Prelude.{◌≡◌, ◌≤◌, length};

use guard_model::{Comp, Site, Tag, Ty};
use guard_syntax::{TagDefault, TagTree};

/// What is written of a type beside its base.
#[derive(Clone, Copy)]
pub struct Node<'t> {
    /// The site of its first token.
    pub site: Site,
    pub tags: &'t [TagTree<'t>],
    /// The tag default of its module.
    pub tag_default: TagDefault,
    /// Whether this counts as a type. The type after COMPONENTS OF doesn't.
    pub counts: bool,
    /// The tag that the type gets as a component or alternative of a list that is tagged automatically.
    pub automatic: Option<Tag>,
}

/// What is known of a type that keeps the limits, beside its kind.
#[derive(Drop)]
pub struct Whole {
    pub tags: Vec<Tag>,
    pub nesting: usize,
    /// How many types there are up to this one and with it, over all definitions.
    pub nodes: usize,
    ghost shallow: { nesting ≤ 32 },
}

/// A type that keeps the limits.
#[derive(Drop)]
pub struct Made {
    pub ty: Ty,
    pub nesting: usize,
    /// How many types there are up to this one and with it, over all definitions.
    pub nodes: usize,
    ghost shallow: { nesting ≤ 32 },
}

/// Where a list takes in, by COMPONENTS OF, what it may not: of each fault the first place, that of the word
/// COMPONENTS.
#[derive(Clone, Copy)]
pub struct Refused {
    /// What is taken in is no SEQUENCE, in a SET no SET.
    pub kind: Option<Site>,
    /// What is taken in, or the list that takes it in, is tagged automatically.
    pub automatic: Option<Site>,
    /// What is taken in has a tag of its own.
    pub tagged: Option<Site>,
}

/// Components so far.
#[derive(Drop)]
pub struct Parts {
    /// The site of each component: its name, or the word COMPONENTS that puts it in.
    pub sites: Vec<Site>,
    pub comps: Vec<Comp>,
    /// The greatest nesting of a component.
    pub deepest: usize,
    /// How many types there are up to the end of the components, over all definitions.
    pub nodes: usize,
    /// Where COMPONENTS OF took in what it may not. What was taken in so isn't among the components.
    pub refused: Refused,
    ghost paired: { length sites.items ≡ length comps.items },
}
