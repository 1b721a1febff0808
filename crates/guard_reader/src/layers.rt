//! Tags of nodes, and nodes in front of others.
ghost use Rattle.std.specs.Prelude.{◌≡◌, ◌<◌, ◌&&◌, vec_len};
ghost use Rattle.std.specs.Option.{is_some};
ghost use Rattle.guard_tables.specs.NodesView.{spots_in};
ghost use Rattle.guard_tables.specs.TableNodes.{spot_at};
ghost use Rattle.guard_reader.specs.inside.FrontViews.{outermost, tag_and_form, wrapped};
ghost use Rattle.guard_reader.specs.inside.NodeParts.{IsInFront, has_layers, is_choice, is_simple, tag_round};

use guard_model::Tag;
use guard_tables::{Kind, Nodes};

/// Whether a node is in front of another one, which may have tags of its own.
#[inline(always)]
pub fn has_layers(kind: Kind) -> bool
    ensures { result ≡ has_layers kind }
{
    match kind {
        Kind::Wrapper => true,
        Kind::Asked => true,
        Kind::Formula => true,
        Kind::Simple(_) => false,
        Kind::Series => false,
        Kind::Set => false,
        Kind::Choice => false,
        Kind::List => false,
        Kind::SetOf => false,
    }
}

/// Whether a node is a CHOICE.
pub fn is_choice(kind: Kind) -> bool
    ensures { result ≡ is_choice kind }
{
    kind == Kind::Choice
}

fn is_simple(kind: Kind) -> bool
    ensures { result ≡ is_simple kind }
{
    match kind {
        Kind::Simple(_) => true,
        Kind::Series => false,
        Kind::Set => false,
        Kind::Choice => false,
        Kind::List => false,
        Kind::SetOf => false,
        Kind::Wrapper => false,
        Kind::Asked => false,
        Kind::Formula => false,
    }
}

/// The tag that a node puts round another one: that of a wrapper; None of any other node.
pub fn tag_round(kind: Kind, tag: Option<Tag>) -> Option<Tag>
    ensures { result ≡ tag_round kind tag }
{
    if kind == Kind::Wrapper { tag } else { None }
}

/// The outermost tag of a node, where it has one, and whether its elements have the constructed form.
#[derive(Clone, Copy)]
pub struct TagAndForm {
    pub tag: Option<Tag>,
    pub constructed: bool,
}

/// The outermost tag of the node at this place, where it has one, and the form of its elements. Condition: the node is
/// there.
#[cycle(outermost)]
#[inline(always)]
pub fn outermost(table: &Nodes, at: usize) -> TagAndForm
    requires { at < vec_len table.now.hots }
    ensures { tag_and_form result ≡ outermost (spot_at (spots_in table.now) at).plan }
{
    let node = &table.hots[at];
    if has_layers(node.kind) {
        return outermost_round(table, at);
    }
    TagAndForm {
        tag: table.colds[at].tag,
        constructed: !is_simple(node.kind),
    }
}

/// The outermost tag, and the form, of a node in front of another one.
#[cycle(outermost)]
#[cold]
#[inline(never)]
fn outermost_round(table: &Nodes, at: usize) -> TagAndForm
    requires room { at < vec_len table.now.hots }
    requires front { IsInFront table.now at }
    ensures { tag_and_form result ≡ outermost (spot_at (spots_in table.now) at).plan }
{
    let node = &table.hots[at];
    let inner = outermost(table, node.first);
    wrapped(tag_round(node.kind, table.colds[at].tag), inner)
}

/// The outermost tag and the form where this tag is put round what another node has; a wrapper is constructed (X.690
/// 8.14.2).
fn wrapped(tag: Option<Tag>, inner: TagAndForm) -> TagAndForm
    ensures { tag_and_form result ≡ wrapped tag (tag_and_form inner) }
{
    match tag {
        Some(_) => TagAndForm {
            tag,
            constructed: inner.constructed || inner.tag.is_some(),
        },
        None => inner,
    }
}

/// Whether a node has a tag of its own round another one that has a tag too.
pub fn has_two_tags(round: Option<Tag>, inner: TagAndForm) -> bool
    ensures { result ≡ (is_some round && is_some inner.tag) }
{
    round.is_some() && inner.tag.is_some()
}
