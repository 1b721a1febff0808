//! `Policy::passes`, `passes_as_given` and `passes_as_last` beside the reason that is found by a value.
use crate::verdicts::cut;
use conformance_rows::{Compared, Judges, Subject, octets_in, text_of, texts_of};
use guard_frames::load_texts;
use guard_model::OutOfMemory;
use guard_policy::{LastRoute, Policy, Route, Verdict};
use std::alloc::{AllocError, Global};

/// A route under a policy.
#[derive(Clone, Copy)]
struct Passing<'a> {
    policy: &'a Policy,
    route: Route<'a>,
    /// Its names, each after its length.
    names: &'a [u8],
    /// Whether some rule gives it.
    is_given: bool,
}

impl Judges for Passing<'_> {
    /// Whether `passes` is true exactly where the reason is to pass, and `passes_as_given` and `passes_as_last` answer
    /// so where some rule gives the route, and else none.
    fn agree(&self, alloc: Global, octets: &[u8]) -> Result<bool, AllocError> {
        match self.policy.reason(alloc, &self.route, octets) {
            Ok(reason) => {
                let is_pass = matches!(reason, Verdict::Pass);
                let as_given = if self.is_given { Some(is_pass) } else { None };
                Ok(
                    self.policy.passes(&self.route, octets) == is_pass
                        && self.policy.passes_as_given(self.names, octets) == as_given
                        && self.as_last(alloc, octets)? == as_given,
                )
            }
            Err(OutOfMemory) => Err(AllocError),
        }
    }
}

impl Passing<'_> {
    /// What `passes_as_last` says of a frame's body, where the route was found before.
    fn as_last(&self, alloc: Global, octets: &[u8]) -> Result<Option<bool>, AllocError> {
        let mut last = LastRoute::none();
        self.policy.passes_and_found(self.names, octets, &mut last);
        let mut body = Vec::from_slice(alloc, self.names)?;
        body.extend_from_slice(octets)?;
        match self.policy.passes_as_last(last, &body) {
            Some(told) => Ok(Some(told.goes())),
            None => Ok(None),
        }
    }
}

/// How the rows of a file say a message.
#[derive(Clone, Copy)]
pub enum Said {
    /// `FROM TO MESSAGE` and octets.
    Route,
    /// Streams of frames.
    Frames,
}

/// The policy above rows.
#[derive(Drop)]
pub struct PolicyRows {
    said: Said,
    modules: Vec<u8>,
    policy: Option<Policy>,
}

impl PolicyRows {
    /// None.
    pub fn new(alloc: Global, said: Said) -> PolicyRows {
        PolicyRows {
            said,
            modules: Vec::new(alloc),
            policy: None,
        }
    }
}

impl Subject for PolicyRows {
    /// `@schema` or `@modules` with the texts of modules, `@policy` with that of the policy.
    fn set(&mut self, alloc: Global, name: &str, text: &[u8]) -> Result<(), AllocError> {
        match name {
            "schema" | "modules" => self.modules = Vec::from_slice(alloc, text)?,
            "policy" => {
                let modules = texts_of(alloc, &self.modules)?;
                self.policy = load_texts(alloc, &modules, text).ok();
            }
            _ => {}
        }
        Ok(())
    }

    fn try_row(
        &self,
        alloc: Global,
        row: &[u8],
        compared: &mut Compared,
    ) -> Result<bool, AllocError> {
        match (&self.policy, self.said) {
            (None, _) => Ok(false),
            (Some(policy), Said::Route) => try_route(alloc, policy, text_of(row), compared),
            (Some(policy), Said::Frames) => try_frames(alloc, policy, row, compared),
        }
    }
}

fn try_route(
    alloc: Global,
    policy: &Policy,
    row: &str,
    compared: &mut Compared,
) -> Result<bool, AllocError> {
    let (from, rest) = cut(row);
    let (to, rest) = cut(rest);
    let (message, digits) = cut(rest);
    let Some(octets) = octets_in(alloc, digits)? else {
        return Ok(false);
    };
    let route = Route {
        from: from.as_bytes(),
        to: to.as_bytes(),
        message: message.as_bytes(),
    };
    try_message(alloc, policy, route, &octets, compared)?;
    Ok(true)
}

/// Tries each message of a stream of frames.
fn try_frames(
    alloc: Global,
    policy: &Policy,
    stream: &[u8],
    compared: &mut Compared,
) -> Result<bool, AllocError> {
    let mut rest = stream;
    for _ in 0..stream.len() {
        let Some((body, next)) = after_length(rest) else {
            break;
        };
        if let Some((route, octets)) = message_of(body) {
            try_message(alloc, policy, route, octets, compared)?;
        }
        rest = next;
    }
    Ok(rest.len() < stream.len())
}

/// Tries a message on its route.
fn try_message(
    alloc: Global,
    policy: &Policy,
    route: Route,
    octets: &[u8],
    compared: &mut Compared,
) -> Result<(), AllocError> {
    let names = names_of(alloc, &route)?;
    let passing = Passing {
        policy,
        route,
        names: &names,
        is_given: is_given(policy, &route),
    };
    compared.try_around(alloc, &passing, octets)
}

/// The names of a route, each after its length.
fn names_of(alloc: Global, route: &Route) -> Result<Vec<u8>, AllocError> {
    let mut names = Vec::new(alloc);
    for name in [route.from, route.to, route.message] {
        names.push(name.len().min(255) as u8)?;
        names.extend_from_slice(name)?;
    }
    Ok(names)
}

/// Whether the names are names and some rule gives them.
fn is_given(policy: &Policy, route: &Route) -> bool {
    let mut is_given = false;
    for number in 0..policy.rules() {
        if let Some(rule) = policy.rule(number) {
            is_given = is_given
                || rule.from.as_bytes() == route.from
                    && rule.to.as_bytes() == route.to
                    && rule.message.as_bytes() == route.message;
        }
    }
    is_given && route.is_plain()
}

/// The body of the first frame, and what comes after it.
fn after_length(stream: &[u8]) -> Option<(&[u8], &[u8])> {
    let (length, rest) = stream.split_at_checked(4)?;
    let mut number = 0_usize;
    for octet in length {
        number = number
            .saturating_mul(256)
            .saturating_add(usize::from(*octet));
    }
    rest.split_at_checked(number)
}

/// The route of a frame's body, and the octets of its message.
fn message_of(body: &[u8]) -> Option<(Route<'_>, &[u8])> {
    let (from, rest) = after_name(body)?;
    let (to, rest) = after_name(rest)?;
    let (message, octets) = after_name(rest)?;
    Some((Route { from, to, message }, octets))
}

/// A name after its length, and what comes after it.
fn after_name(octets: &[u8]) -> Option<(&[u8], &[u8])> {
    let (length, rest) = octets.split_first()?;
    rest.split_at_checked(usize::from(*length))
}
