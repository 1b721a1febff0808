//! Which lists are tagged automatically (X.680 clauses 25, 27 and 29).
ghost use Rattle.std.specs.Prelude.{◌≡◌, map};
ghost use Rattle.guard_syntax.specs.Trees.{components_of, alternatives_of};
ghost use Rattle.guard_syntax.specs.TypeViews as written;
ghost use Rattle.guard_tagging.specs.inside.ReadTypes as reading;
ghost use Rattle.guard_tagging.specs.ScopeView.{scope_view};
ghost use Rattle.guard_tagging.specs.Types as types;

use crate::scope::Scope;
use guard_syntax::{AlternativeTree, BaseTree, CompForm, CompTree, TagDefault, TypeTree};

/// Whether the type is a list of components or alternatives that is tagged automatically, or a name that means one.
pub fn is_automatic(scope: &Scope, base: &BaseTree) -> bool
    ensures { result ≡ types.is_automatic_base (scope_view scope.now) (written.base_view base.now) }
{
    match base {
        BaseTree::Structure(_, comps) => is_automatic_list(scope.tag_default, comps),
        BaseTree::Choice(alternatives) => is_automatic_choice(scope.tag_default, alternatives),
        BaseTree::Reference(name) => is_known_automatic(scope, name.name),
        BaseTree::Plain(_)
        | BaseTree::Integer(_)
        | BaseTree::BitString(_)
        | BaseTree::Enumerated(_)
        | BaseTree::Of(..) => false,
    }
}

fn is_known_automatic(scope: &Scope, name: &[u8]) -> bool
    ensures { result ≡ types.is_meant_automatic ((scope_view scope.now).meaning name.now) }
{
    match scope.referred(name) {
        Some(known) => known.is_automatic,
        None => false,
    }
}

/// Whether the components get automatic tags: under AUTOMATIC TAGS, where no component's type begins with a tag.
pub fn is_automatic_list(default: TagDefault, comps: &[CompTree]) -> bool
    ensures { result ≡ types.is_automatic_list default (components_of (map written.component_view comps.now)) }
{
    is_automatic_default(default) && !has_tagged_component(comps)
}

/// Whether the alternatives get automatic tags: under AUTOMATIC TAGS, where no alternative's type begins with a tag.
pub fn is_automatic_choice(default: TagDefault, alternatives: &[AlternativeTree]) -> bool
    ensures { result
        ≡ types.is_automatic_choice default (alternatives_of (map written.alternative_view alternatives.now)) }
{
    is_automatic_default(default) && !has_tagged_alternative(alternatives)
}

fn is_automatic_default(default: TagDefault) -> bool
    ensures { result ≡ types.is_automatic_default default }
{
    matches!(default, TagDefault::Automatic)
}

fn has_tagged_component(comps: &[CompTree]) -> bool
    ensures { result ≡ types.has_tagged_component (components_of (map written.component_view comps.now)) }
{
    for comp in comps {
        if is_tagged_component(&comp.form) {
            return true;
        }
    }
    false
}

/// Whether an entry of a list is a component whose type begins with a tag. The type after COMPONENTS OF doesn't count.
fn is_tagged_component(form: &CompForm) -> bool
    ensures { result ≡ reading.is_tagged_entry (written.component_form_view form.now) }
{
    match form {
        CompForm::Named(_, ty, _) => begins_with_tag(ty),
        CompForm::ComponentsOf(_) => false,
    }
}

fn has_tagged_alternative(alternatives: &[AlternativeTree]) -> bool
    ensures { result ≡ types.has_tagged_alternative (alternatives_of (map written.alternative_view alternatives.now)) }
{
    for alternative in alternatives {
        if begins_with_tag(&alternative.ty) {
            return true;
        }
    }
    false
}

fn begins_with_tag(ty: &TypeTree) -> bool
    ensures { result ≡ types.begins_with_tag (written.type_view ty.now) }
{
    !ty.tags.is_empty()
}
