//! What the words of the command line ask for.
use guard_authors::{Checking, Comparing, Encoding, Trial};
use guard_messages::Question;

/// The words as they were given. A policy is named by its path.
#[derive(Clone, Copy, Debug, PartialEq, Eq)]
pub enum Request<'a> {
    /// No words: the messages that are built in.
    First,
    /// Whether a policy and its modules are accepted.
    Check(Checking<'a>),
    /// What becomes of one message.
    Decide(Question<'a>),
    /// The value of one message.
    Show(Question<'a>),
    /// The octets of a value that is written.
    Encode(Encoding<'a>),
    /// Which cases come out as they should.
    Test(Trial<'a>),
    /// Which frames that come in have another verdict under a new policy than under an old one.
    Compare(Comparing<'a>),
    /// What may pass of the frames that come in. Notes may be asked for, and a file in which counters are shown.
    Run {
        policy: &'a str,
        verbose: bool,
        counts: Option<&'a str>,
    },
    /// What may pass of the frames of many links, whose records come in. Notes and counters may be asked for as for one.
    Mux {
        policy: &'a str,
        verbose: bool,
        counts: Option<&'a str>,
    },
    /// What becomes of each frame that comes in.
    Ask {
        policy: &'a str,
    },
}
