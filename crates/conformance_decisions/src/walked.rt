//! The files on whose rows `passes` is tried.
use crate::passing::{PolicyRows, Said};
use conformance_rows::walk_file;
use std::io;
use std::rt::Files;

/// Tries all of them, and answers whether `passes` agrees with the verdict on each octet string.
pub fn try_walks<R: Files + Print + AllocGlobal>(rt: &R) -> io::Result<bool> {
    let mut agree = true;
    for file in ROUTES {
        agree &= walk_file(rt, file, PolicyRows::new(rt.alloc(), Said::Route))?;
    }
    for file in FRAMES {
        agree &= walk_file(rt, file, PolicyRows::new(rt.alloc(), Said::Frames))?;
    }
    Ok(agree)
}

/// Of routes and octets under policies.
const ROUTES: [&str; 10] = [
    "policy/verdicts/order_of_reasons.rows",
    "policy/verdicts/built_in.rows",
    "policy/verdicts/prefixes.rows",
    "policy/verdicts/orders.rows",
    "policy/verdicts/any_sender.rows",
    "policy/verdicts/named_bits.rows",
    "policy/verdicts/wider_rule.rows",
    "policy/verdicts/many_ranges.rows",
    "policy/verdicts/outside.rows",
    "policy/verdicts/outside_named_bits.rows",
];

/// Of frames under policies.
const FRAMES: [&str; 7] = [
    "frames/streams.rows",
    "frames/bodies.rows",
    "frames/long_bodies.rows",
    "frames/pieces.rows",
    "frames/failing_devices.rows",
    "frames/one_link.rows",
    "frames/under_a_policy.rows",
];
