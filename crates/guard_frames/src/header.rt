//! Reads the header of a frame.

ghost use Rattle.std.specs.Prelude.{◌≡◌, option_map};
ghost use Rattle.guard_frames.specs.Bodies.{body_view, part_first, parts_in, has_names, body_in};

use crate::body::Body;
use guard_policy::is_name;

/// The three names with which the body of a frame begins, and the message that follows them; None unless each stands
/// there after one octet with its length and is a name of 1 to 63 letters, digits, `-`, `_` and `.`.
#[tactic(auto, unfolding(crate::specs::Bodies::body_in))]
pub fn read_body(octets: &[u8]) -> Option<Body>
    ensures { option_map body_view result ≡ body_in octets.now }
{
    let body = cut_body(octets)?;
    if has_names(&body) { Some(body) } else { None }
}

/// What stands in the places of the three names, and what follows it, whether or not they are names; None where the
/// octets end before.
#[tactic(auto, unfolding(crate::specs::Bodies::parts_in))]
pub fn cut_body(octets: &[u8]) -> Option<Body>
    ensures { option_map body_view result ≡ parts_in octets.now }
{
    let (sender, rest) = first_part(octets)?;
    let (receiver, rest) = first_part(rest)?;
    let (name, message_octets) = first_part(rest)?;
    Some(Body {
        sender,
        receiver,
        name,
        message_octets,
    })
}

/// Whether what stands in the place of each name is a name.
pub fn has_names(body: &Body) -> bool
    ensures { result ≡ has_names (body_view body.now) }
{
    is_name(body.sender) && is_name(body.receiver) && is_name(body.name)
}

/// As many octets as the first one says, and what follows them; None where there are fewer.
#[tactic(auto, unfolding(crate::specs::Bodies::part_first))]
fn first_part(octets: &[u8]) -> Option<(&[u8], &[u8])>
    ensures { option_map (λ found. (found.0.now, found.1.now)) result ≡ part_first octets.now }
{
    let [length, rest @ ..] = octets else {
        return None;
    };
    let length = usize::from(*length);
    if rest.len() < length {
        return None;
    }
    Some(rest.split_at(length))
}
