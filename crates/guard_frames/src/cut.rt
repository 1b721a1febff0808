//! The first frame of some octets.

ghost use Rattle.std.specs.Prelude.{◌≡◌, ◌<◌, ◌≤◌, ◌^◌, None, length, drop, IfSome};
ghost use Rattle.guard_frames.specs.Frames.{stated_length};
ghost use Rattle.guard_frames.specs.Cutting.{IsCut};

/// How many octets the length of a frame has.
pub const LENGTH_OCTETS: usize = 4;

/// The most octets that the body of a frame may have.
pub const LONGEST_BODY: usize = 1_048_576;

/// A whole frame.
#[derive(Clone, Copy)]
pub struct Frame<'a> {
    /// All octets of the frame.
    pub octets: &'a [u8],
    /// The octets that follow its four octets of length.
    pub body: &'a [u8],
}

/// Octets that begin with no whole frame.
#[derive(Clone, Copy, Debug, PartialEq, Eq)]
pub enum Rest {
    /// The octets are the beginning of a frame, or there are none.
    Unfinished,
    /// The octets state a length that no frame may have.
    TooLong,
}

/// What octets begin with.
#[derive(Clone, Copy)]
pub enum Cut<'a> {
    /// A whole frame.
    Frame(Frame<'a>),
    /// No whole frame.
    Rest(Rest),
}

/// The length of the body that the first four octets state, the high octet first: 0 to 2^32-1. Condition: there are
/// four octets at least.
pub fn body_length(octets: &[u8]) -> usize
    requires { 4 ≤ length octets.now }
    ensures value { result ≡ stated_length octets.now }
    ensures fits { result < 2 ^ 32 }
{
    ((octets[0] as usize * 256 + octets[1] as usize) * 256 + octets[2] as usize) * 256
        + octets[3] as usize
}

/// The length of the body of a frame that begins so, as its first four octets state it. None where they state more than
/// 1,048,576, which no frame may have. Condition: there are four octets at least.
pub fn allowed_length(octets: &[u8]) -> Option<usize>
    requires { 4 ≤ length octets.now }
    ensures allowed { IfSome result (λ n. (n ≡ stated_length octets.now) × (n ≤ 1048576)) }
    ensures none { result ≡ None → 1048576 < stated_length octets.now }
{
    let body = body_length(octets);
    if body <= LONGEST_BODY {
        Some(body)
    } else {
        None
    }
}

/// What the octets begin with: a whole frame; else octets that can become one, or a length above 1,048,576.
pub fn first_cut(octets: &[u8]) -> Cut
    ensures { IsCut octets.now result }
{
    if octets.len() < 4 {
        return Cut::Rest(Rest::Unfinished);
    }
    let Some(body) = allowed_length(octets) else {
        return Cut::Rest(Rest::TooLong);
    };
    if octets.len() < body + 4 {
        Cut::Rest(Rest::Unfinished)
    } else {
        Cut::Frame(frame_of(&octets[..body + 4]))
    }
}

/// These octets as a frame. Condition: there are four octets at least.
pub fn frame_of(octets: &[u8]) -> Frame
    requires { 4 ≤ length octets.now }
    ensures whole { result.octets.now ≡ octets.now }
    ensures body { result.body.now ≡ drop 4 octets.now }
{
    Frame {
        octets,
        body: &octets[4..],
    }
}
