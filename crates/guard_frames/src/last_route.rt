//! What was found of the route of the frame before.

ghost use Rattle.std.specs.Prelude.{◌≡◌, ◌++◌, ℕ, List, None, Some, IfSome};
ghost use Rattle.guard_frames.specs.Recalling.{recalled};

use arrayvec::ArrayVec;
use guard_policy::FoundRoute;

/// The most octets of a header: three names of 63 octets, each after its length.
const LONGEST_HEADER: usize = 192;

/// What was found of the routes of frames before, so that the names of the next one are compared with theirs before they
/// are looked up. No answer depends on it.
#[derive(Drop)]
pub struct LastRoute<'a> {
    /// Where the last route was found that some rule gives by three names.
    pub(crate) given: guard_policy::LastRoute,
    /// The header of the last frame whose route no rule gives so, and what that route leads to.
    header: ArrayVec<u8, LONGEST_HEADER>,
    found: Option<FoundRoute<'a>>,
}

impl<'a> LastRoute<'a> {
    /// Nothing was found yet: what is kept before the first frame.
    pub fn none() -> LastRoute<'a>
        ensures { recalled result ≡ None }
    {
        LastRoute {
            given: guard_policy::LastRoute::none(),
            header: ArrayVec::new(),
            found: None,
        }
    }

    /// What the route leads to with whose header the body begins, and the message that follows it, where that is the
    /// header that is kept; else None.
    pub(crate) fn found<'b>(&self, body: &'b [u8]) -> Option<(&FoundRoute<'a>, &'b [u8])>
        ensures { IfSome result (λ x. (header : List ℕ) × (recalled self.now ≡ Some (header, x.0.now))
            × (body.now ≡ header ++ x.1.now)) }
    {
        let found = self.found.as_ref()?;
        let message = body.strip_prefix(self.header.as_slice())?;
        Some((found, message))
    }

    /// Keeps the header of a frame and what its route leads to, or nothing where the header is too long to be one.
    pub(crate) fn keep(&mut self, header: &[u8], found: FoundRoute<'a>)
        ensures { IfSome (recalled self.new) (λ last. (last.0 ≡ header.now) × (last.1 ≡ found.entry)) }
    {
        self.header.clear();
        self.found = match self.header.try_extend_from_slice(header) {
            Ok(()) => Some(found),
            Err(_) => None,
        };
    }
}
