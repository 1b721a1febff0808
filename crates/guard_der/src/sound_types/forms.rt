//! Tests of one type: its tags, and whether it may have SIZE.
ghost use Rattle.std.specs.Prelude.{◌≡◌, ◌&&◌};
ghost use Rattle.guard_model.specs.TypeView.{kind_view};
ghost use Rattle.guard_tagcheck.specs.Limits.{is_tagged, are_low};
ghost use Rattle.guard_der.specs.ProperConstraints.{takes_size};

use guard_model::{GREATEST_TAG_NUMBER, Kind, Tag};

/// Whether there is a tag, except on a CHOICE (X.680 8.1), and no tag's number is above 268,435,455.
pub fn has_proper_tags(tags: &[Tag], kind: &Kind) -> bool
    ensures { result ≡ (is_tagged tags.now (kind_view kind.now) && are_low tags.now) }
{
    is_tagged(tags, kind) && are_low(tags)
}

fn is_tagged(tags: &[Tag], kind: &Kind) -> bool
    ensures { result ≡ is_tagged tags.now (kind_view kind.now) }
{
    !tags.is_empty() || kind.is_choice()
}

fn are_low(tags: &[Tag]) -> bool
    ensures { result ≡ are_low tags.now }
{
    for tag in tags {
        if tag.number > GREATEST_TAG_NUMBER {
            return false;
        }
    }
    true
}

/// Whether the kind may have SIZE: strings and OF types (X.680 51.5), but no BIT STRING with named bits (22.7).
pub fn takes_size(kind: &Kind) -> bool
    ensures { result ≡ takes_size (kind_view kind.now) }
{
    kind.has_size() && !kind.has_named_bits()
}
