//! What COMPONENTS OF takes in (X.680 25.4 and 27.2), and what it may not.
ghost use Rattle.std.specs.Prelude.{◌≡◌, IfOk};
ghost use Rattle.guard_model.specs.Answer.{Gives};
ghost use Rattle.guard_model.specs.TypeView as model;
ghost use Rattle.guard_tagging.specs.Faults as faults;
ghost use Rattle.guard_tagging.specs.Named.{named, allowed};
ghost use Rattle.guard_tagging.specs.inside.NodeViews.{made_view};
ghost use Rattle.guard_tagging.specs.inside.PartViews.{parts_view};
ghost use Rattle.guard_tagging.specs.inside.ReadParts as reading;

use crate::fault::TagFault;
use crate::made::{Made, Parts, Refused};
use crate::parts::with_list;
use guard_model::{Class, Kind, Site, Tag, Ty};
use guard_syntax::Collection;
use std::alloc::{AllocError, Global};

/// The parts with what COMPONENTS OF puts in at its word: the components of a SEQUENCE, in a SET of a SET, that has no
/// tag of its own; and neither list may be tagged automatically. Of what may not be taken in the place is kept, which
/// is a fault of the list once all its parts are without one.
pub fn take(
    alloc: Global,
    parts: Box<Parts>,
    collection: Collection,
    automatic: bool,
    site: Site,
    made: Box<Made>,
) -> Result<Box<Parts>, AllocError>
    ensures { IfOk result (λ v. parts_view v.value
        ≡ reading.taken_in (parts_view parts.value) collection automatic site (made_view made.value)) }
{
    let refused = refused_at(collection, automatic, site, &made.ty);
    if is_refused(refused) {
        return with_refused(alloc, parts, refused);
    }
    with_list(alloc, parts, site, made)
}

fn refused_at(collection: Collection, automatic: bool, site: Site, ty: &Ty) -> Refused
    ensures { result ≡ reading.refused_at collection automatic site (model.type_view ty.now) }
{
    Refused {
        kind: site_where(!is_of_kind(collection, &ty.kind), site),
        automatic: site_where(automatic, site),
        tagged: site_where(!is_plain_tag(&ty.tags), site),
    }
}

fn site_where(wrong: bool, site: Site) -> Option<Site>
    ensures { result ≡ reading.site_where wrong site }
{
    if wrong { Some(site) } else { None }
}

fn is_refused(refused: Refused) -> bool
    ensures { result ≡ reading.is_refused refused }
{
    refused.kind.is_some() || refused.automatic.is_some() || refused.tagged.is_some()
}

fn with_refused(
    alloc: Global,
    parts: Box<Parts>,
    refused: Refused,
) -> Result<Box<Parts>, AllocError>
    ensures { IfOk result (λ v. parts_view v.value ≡ reading.with_refused (parts_view parts.value) refused) }
{
    let mut parts = Box::into_inner(parts);
    parts.refused = Refused {
        kind: parts.refused.kind.or(refused.kind),
        automatic: parts.refused.automatic.or(refused.automatic),
        tagged: parts.refused.tagged.or(refused.tagged),
    };
    Ok(Box::new(alloc, parts)?)
}

/// No place where COMPONENTS OF took in what it may not.
pub fn none_refused() -> Refused
    ensures { result ≡ reading.none_refused }
{
    Refused {
        kind: None,
        automatic: None,
        tagged: None,
    }
}

/// The fault of a list that takes in what it may not, if it does: ComponentsOfKind, else ComponentsOfAutomatic, else
/// ComponentsOfTagged.
pub fn check_taken(refused: Refused) -> Result<(), TagFault>
    ensures { Gives (λ u. u) named result (allowed (reading.refused_fault refused)) }
{
    if let Some(site) = refused.kind {
        return Err(TagFault::ComponentsOfKind(site));
    }
    if let Some(site) = refused.automatic {
        return Err(TagFault::ComponentsOfAutomatic(site));
    }
    match refused.tagged {
        Some(site) => Err(TagFault::ComponentsOfTagged(site)),
        None => Ok(()),
    }
}

fn is_of_kind(collection: Collection, kind: &Kind) -> bool
    ensures { result ≡ faults.is_kind_of collection (model.kind_view kind.now) }
{
    match collection {
        Collection::Sequence => matches!(kind, Kind::Sequence(_)),
        Collection::Set => matches!(kind, Kind::Set(_)),
    }
}

fn is_plain_tag(tags: &[Tag]) -> bool
    ensures { result ≡ faults.is_plain_tag tags.now }
{
    match tags {
        [tag] => tag.class == Class::Universal,
        _ => false,
    }
}
