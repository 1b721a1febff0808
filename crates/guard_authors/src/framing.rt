//! The frame that holds a message.
ghost use Rattle.std.specs.Prelude.{◌≡◌, ◌++◌, None, true, IfOk, IfSome, OnOk};
ghost use Rattle.guard_policy.specs.Names.{is_name, is_plain};
ghost use Rattle.guard_policy.specs.PolicyView.{route_view};
ghost use Rattle.guard_frames.specs.Bodies.{named};
ghost use Rattle.guard_frames.specs.OfPolicy.{route_body};
ghost use Rattle.guard_authors.specs.Framing.{IsFrameOf, HasNoFrame, body_octets};

use guard_files::add;
use guard_frames::LONGEST_BODY;
use guard_model::OutOfMemory;
use guard_policy::Route;
use std::alloc::Global;

/// The frame that carries this message, with the three names of the route in its header. None where one of the three
/// isn't a name of 1 to 63 letters, digits, `-`, `_` and `.`, or the frame's body would have more than 1,048,576
/// octets. OutOfMemory is the only error.
pub fn frame(alloc: Global, route: &Route, message: &[u8]) -> Result<Option<Vec<u8>>, OutOfMemory>
    ensures made { IfOk result (λ found. IfSome found (λ frame. IsFrameOf
        (route_body (route_view route.now) message.now) frame.items)) }
    ensures none { IfOk result (λ found. found ≡ None → HasNoFrame (route_body (route_view route.now) message.now)) }
{
    if !route.is_plain() {
        return Ok(None);
    }
    let body = body(alloc, route, message)?;
    if body.len() > LONGEST_BODY {
        return Ok(None);
    }
    let mut frame = Vec::from_slice(alloc, &(body.len() as u32).to_be_bytes())?;
    add(&mut frame, &body)?;
    Ok(Some(frame))
}

/// The body of the frame. Each of the names has 63 octets at most.
fn body(alloc: Global, route: &Route, message: &[u8]) -> Result<Vec<u8>, OutOfMemory>
    requires { is_plain (route_view route.now) ≡ true }
    ensures { IfOk result (λ body. body.items ≡ body_octets (route_body (route_view route.now) message.now)) }
{
    let mut body = Vec::new(alloc);
    add_name(&mut body, route.from)?;
    add_name(&mut body, route.to)?;
    add_name(&mut body, route.message)?;
    add(&mut body, message)?;
    Ok(body)
}

/// Appends a name after its length.
fn add_name(text: &mut Vec<u8>, name: &[u8]) -> Result<(), OutOfMemory>
    requires { is_name name.now ≡ true }
    ensures { OnOk result (text.new.items ≡ text.old.items ++ named name.now) }
{
    text.push(name.len() as u8)?;
    add(text, name)
}
