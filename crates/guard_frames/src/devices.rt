//! What a link reads from and writes to.

ghost use Rattle.std.specs.Prelude.{◌≡◌, ◌<◌, ◌≤◌, ◌++◌, ℕ, List, Bool, true, Option};
ghost use Rattle.std.specs.Prelude.{None, length, take, IfOk, IfErr, OnOk, OnErr, IsErr};
ghost use Rattle.std.specs.Io.KnownBytes.{Appends, Consumes, IsAtEnd};
ghost use Rattle.guard_frames.specs.Calls.{Calls, Asks, EndsLine, AsksLines};
ghost use Rattle.guard_frames.specs.Prefix.{IsProperPrefix};
ghost use Rattle.guard_frames.specs.Totals.{WentUpBy};

use thiserror::Error;

/// The error of a source or a sink that has failed. Once failed, it stays so.
#[derive(Clone, Copy, Debug, PartialEq, Eq, Error)]
#[error("Failed")]
pub struct Failed;

/// Takes octets.
pub trait Sink {
    /// The octets taken so far, where the sink tells them.
    ghost taken: { Self → Option (List ℕ) };

    /// The octets that the sink was asked to take in each call so far, where it tells them.
    ghost asked: { Self → Calls } = { λ _. None };

    /// Whether the sink has failed.
    ghost has_failed: { Self → Bool };

    /// Takes the first n of the octets, and answers n, at least 1; or fails with Failed and takes none. A sink that has
    /// failed fails at each later call. Condition: there is at least one octet.
    fn put(&mut self, octets: &[u8]) -> Result<usize, Failed>
        requires { 0 < length octets.now }
        ensures some { IfOk result (λ n. (0 < n) × (n ≤ length octets.now)) }
        ensures taken { IfOk result (λ n. Appends (taken self.old) (taken self.new) (take n octets.now)) }
        ensures none { OnErr result (Appends (taken self.old) (taken self.new) (take 0 octets.now)) }
        ensures failed { OnErr result (has_failed self.new ≡ true) }
        ensures stays { has_failed self.old ≡ true → IsErr result }
        ensures asked { Asks (asked self.old) octets.now (asked self.new) };

    /// Whether the sink has failed.
    fn failed(&self) -> bool
        ensures { result ≡ has_failed self.now };
}

/// Gives octets.
pub trait Source {
    /// The octets that are still to come, where the source tells them.
    ghost tells: { Self → Option (List ℕ) };

    /// How often the source was asked for octets: 2^64-1 where it doesn't count.
    ghost takes: { Self → ℕ };

    /// Whether the source has failed.
    ghost has_failed: { Self → Bool };

    /// Puts the next n octets at the front of the buffer, and answers n: 0 where there are no more. Or fails with
    /// Failed and takes none. A source that has failed fails at each later call. Condition: the buffer has room for at
    /// least one octet.
    fn take(&mut self, buffer: &mut [u8]) -> Result<usize, Failed>
        requires { 0 < length buffer.old }
        ensures within { IfOk result (λ n. n ≤ length buffer.old) }
        ensures given { IfOk result (λ n. Consumes (tells self.old) (tells self.new) (take n buffer.new)) }
        ensures end { IfOk result (λ n. n ≡ 0 → IsAtEnd (tells self.new)) }
        ensures counted { WentUpBy (takes self.old) 1 (takes self.new) }
        ensures none { OnErr result (Consumes (tells self.old) (tells self.new) (take 0 buffer.new)) }
        ensures failed { OnErr result (has_failed self.new ≡ true) }
        ensures stays { has_failed self.old ≡ true → IsErr result };

    /// Whether the source has failed.
    fn failed(&self) -> bool
        ensures { result ≡ has_failed self.now };
}

/// Puts all of the octets: in one call, and where the sink took only a part of them, in one more for all that is left,
/// and so on. Failed where the sink has failed, which took a proper part of them at most.
pub fn put_all<S: Sink>(sink: &mut S, octets: &[u8]) -> Result<(), Failed>
    ensures all { OnOk result (Appends (S.taken sink.old) (S.taken sink.new) octets.now) }
    ensures part { OnErr result ((part : List ℕ) × IsProperPrefix part octets.now
        × Appends (S.taken sink.old) (S.taken sink.new) part) }
    ensures failed { OnErr result (S.has_failed sink.new ≡ true) }
    ensures lines { EndsLine octets.now → AsksLines (S.asked sink.old) (S.asked sink.new) }
{
    match put_or_count(sink, octets) {
        Ok(()) => Ok(()),
        Err(_) => Err(Failed),
    }
}

/// Puts all of the octets: in one call, and where the sink took only a part of them, in one more for all that is left,
/// and so on. Where the sink has failed the error is how many octets it took, which is fewer than all.
pub fn put_or_count<S: Sink>(sink: &mut S, octets: &[u8]) -> Result<(), usize>
    ensures all { OnOk result (Appends (S.taken sink.old) (S.taken sink.new) octets.now) }
    ensures part { IfErr result (λ n. (n < length octets.now)
        × Appends (S.taken sink.old) (S.taken sink.new) (take n octets.now)) }
    ensures failed { OnErr result (S.has_failed sink.new ≡ true) }
    ensures lines { EndsLine octets.now → AsksLines (S.asked sink.old) (S.asked sink.new) }
{
    let mut sent = 0;
    while sent < octets.len() {
        match sink.put(&octets[sent..]) {
            Ok(more) => sent += more,
            Err(_) => return Err(sent),
        }
    }
    Ok(())
}

/// Puts the first octets and then the second ones. Failed where the sink has failed, which took a proper part of both
/// together at most.
pub fn put_both<S: Sink>(sink: &mut S, first: &[u8], second: &[u8]) -> Result<(), Failed>
    ensures all { OnOk result (Appends (S.taken sink.old) (S.taken sink.new) (first.now ++ second.now)) }
    ensures part { OnErr result ((part : List ℕ) × IsProperPrefix part (first.now ++ second.now)
        × Appends (S.taken sink.old) (S.taken sink.new) part) }
    ensures failed { OnErr result (S.has_failed sink.new ≡ true) }
{
    put_all(sink, first)?;
    put_all(sink, second)?;
    Ok(())
}
