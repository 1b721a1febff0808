//! Where the route of a message was found.

/// Where a route was found among those that rules give, so that the next message's route is compared with that one
/// first. No answer depends on it: the route there is compared before it is used, so that a place of another policy
/// costs time alone.
#[derive(Clone, Copy)]
pub struct LastRoute {
    pub(crate) place: usize,
}

impl LastRoute {
    /// The mark that no route was found yet.
    pub fn none() -> LastRoute {
        LastRoute { place: usize::MAX }
    }
}
