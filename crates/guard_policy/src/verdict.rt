//! What becomes of a message, and why.
ghost use Rattle.std.specs.Prelude.{◌≡◌, option_map};
ghost use Rattle.guard_policy.specs.Verdicts.{verdict_view, reason_view};

use guard_der::Breach;
use guard_eval::Violation;

/// What becomes of a message, and why: the first of these in the order UnknownMessage, Undecodable, OutsideType,
/// DeniedBy, Pass, NotAllowed, NoRule that holds. Rules are numbered from 0 in the order of the policy.
#[derive(Debug, Drop)]
pub enum Verdict {
    /// Some allowing rule of the route has the value, and no denying one.
    Pass,
    /// The policy declares no message of this name.
    UnknownMessage,
    /// The octets are no encoding of a value of the declared type.
    Undecodable(Breach),
    /// The value is no member of the declared type.
    OutsideType(Violation),
    /// This denying rule has the value; it is the first one of the route.
    DeniedBy(usize),
    /// No allowing rule has the value: each one of the route, with its first violation.
    NotAllowed(Vec<(usize, Violation)>),
    /// The route has no allowing rule.
    NoRule,
}

/// The reason for which a message stays, without the parts of its value that the verdict names: what is found without
/// making a value.
#[derive(Clone, Copy, Debug, PartialEq, Eq)]
pub enum PlainReason {
    /// The policy declares no message of this name.
    UnknownMessage,
    /// This denying rule has the value; it is the first one of the route.
    DeniedBy(usize),
    /// No allowing rule of the route has the value: each has a first violation, which only the value shows.
    NotAllowed,
    /// The route has no allowing rule.
    NoRule,
}

impl PlainReason {
    /// The verdict with this reason; None for NotAllowed, as its verdict names violations.
    pub fn verdict(self) -> Option<Verdict>
        ensures { option_map verdict_view result ≡ reason_view self }
    {
        match self {
            PlainReason::UnknownMessage => Some(Verdict::UnknownMessage),
            PlainReason::DeniedBy(rule) => Some(Verdict::DeniedBy(rule)),
            PlainReason::NotAllowed => None,
            PlainReason::NoRule => Some(Verdict::NoRule),
        }
    }
}
