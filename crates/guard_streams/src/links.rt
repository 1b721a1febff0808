//! The links of one stream of records, in one gateway.
ghost use Rattle.std.specs.Prelude.{◌≡◌, ◌++◌, ℕ, List, IfOk};
ghost use Rattle.guard_streams.specs.InForce.{kept_note};
ghost use Rattle.guard_streams.specs.Saying.{IsSaidOfFault};
ghost use Rattle.guard_streams.specs.inside.Seeing.{known_counts};

use crate::counted::Counted;
use crate::counting::load_counted;
use crate::counts::Counts;
use crate::following::Following;
use crate::in_force::add_kept;
use crate::passing::{put_fault, put_renewed};
use crate::rule_counts::InForce;
use crate::saying::{Says, said_of_fault};
use crate::seen::Seen;
use crate::sinks::{all_totals, end_link, feed_link, new_sinks, pass_on};
use guard_files::{FAILED, Fault, Files, LINKS, Stop, report};
use guard_frames::{Event, Gateway, Kept, Link, LinkFault, Sink, Unwatched, put_all};
use guard_model::OutOfMemory;
use guard_policy::Policy;
use std::alloc::Global;

/// The links, whose sinks are empty between two events, and the status that comes of what happened to them.
#[derive(Drop)]
pub struct Links {
    gateway: Gateway<Kept>,
    /// 0 where all frames passed, 1 where a line was reported, 2 where a policy couldn't be read again, 3 where a link
    /// has a fault or memory ran out; the greatest of these.
    status: u8,
    /// What is seen of their frames, where notes are asked for.
    seen: Option<Seen>,
    /// What is counted of them.
    followed: Following,
}

impl Links {
    ghost use Rattle.std.specs.Prelude.{◌≡◌, ◌≤◌, Option, List, [], ℕ, Bool, true};
    ghost use Rattle.std.specs.Prelude.{max, length, Err, IfOk, OnOk, IfErr};
    ghost use Rattle.std.specs.Option.{option_map};
    ghost use Rattle.std.specs.Io.KnownBytes.{Appends};
    ghost use Rattle.guard_frames.specs.GatewayView.{gateway_view};
    ghost use Rattle.guard_frames.specs.LinkView.{link_view};
    ghost use Rattle.guard_frames.specs.Prefix.{IsProperPrefix};
    ghost use Rattle.guard_files.specs.declared.stop.Stop.TheVariants.{WriteFailed, ErrorFailed};
    ghost use Rattle.guard_policy.specs.Policies.{AbstractPolicy};
    ghost use Rattle.guard_policy.specs.PolicyView.{policy_view};
    ghost use Rattle.guard_files.specs.Devices.{device, device_of};
    ghost use Rattle.guard_files.specs.Files.{Told};
    ghost use Rattle.guard_files.specs.Records.Record.{piece, end, reload};
    ghost use Rattle.guard_streams.specs.Counters.{force_of, force_view};
    ghost use Rattle.guard_streams.specs.LinksCounted.{ended_counted, maybe_counted, renewed_counted};
    ghost use Rattle.guard_streams.specs.Muxing.{new_mux};
    ghost use Rattle.guard_streams.specs.Saying.{IsUnreadNote};
    ghost use Rattle.guard_streams.specs.Turns.{link_status, renewed_note, renewed_seen};
    ghost use Rattle.guard_streams.specs.inside.Following.{piece_counted};
    ghost use Rattle.guard_streams.specs.inside.Noting.{noted_link, answer_lines};
    ghost use Rattle.guard_streams.specs.inside.Seeing.{counts_in, seen_after};
    ghost use Rattle.guard_streams.specs.inside.Doing.{IsReady, mux_of, IsTaken, IsCut};
    ghost use Rattle.guard_streams.specs.inside.Doing.{Is, AreEnded, IsEndCut};

    /// Sixteen open links under this policy. Notes are asked for where something is seen, and more is counted where
    /// something is.
    pub fn new(
        alloc: Global,
        policy: Policy,
        seen: Option<Seen>,
        counted: Option<Counted>,
    ) -> Result<Links, OutOfMemory>
        ensures open { IfOk result (λ links. (told : Told)
            → mux_of told links ≡ new_mux (policy_view policy) told seen (maybe_counted counted)) }
        ensures ready { IfOk result (λ links. IsReady links.gateway) }
        ensures status { IfOk result (λ links. links.status ≡ 0) }
    {
        let ends = new_sinks(alloc, LINKS)?;
        match Gateway::new(alloc, policy, ends) {
            Ok(gateway) => Ok(Links {
                gateway,
                status: 0,
                seen,
                followed: Following {
                    counts: Counts::none(),
                    counted,
                },
            }),
            Err(_) => Err(OutOfMemory),
        }
    }

    /// The status that comes of what happened so far.
    pub fn status(&self) -> u8
        ensures { result ≡ self.now.status }
    {
        self.status
    }

    /// What is seen so far.
    pub fn seen(&self) -> Option<Seen>
        ensures { result ≡ self.now.seen }
    {
        self.seen
    }

    /// What is counted so far, where something is.
    pub fn counted(&self) -> &Option<Counted>
        ensures { result.now ≡ self.now.followed.counted }
    {
        &self.followed.counted
    }

    /// A piece of a link's stream. What it lets out is written, then what is reported, and then the link's fault.
    pub fn piece<O: Sink, E: Sink>(
        &mut self,
        alloc: Global,
        link: u16,
        octets: &[u8],
        out: &mut O,
        err: &mut E,
    ) -> Result<(), Stop>
        requires link { link ≤ 15 }
        requires ready { IsReady self.old.gateway }
        ensures done { OnOk result ((path : List ℕ) (told : Told)
            → IsTaken path told self.old (piece link octets.now) told self.new
            (O.taken out.old, O.taken out.new) (E.taken err.old, E.taken err.new)) }
        ensures cut { IfErr result (λ s. (path : List ℕ) (told : Told)
            → IsCut s path (mux_of told self.old) (piece link octets.now)
            (device_of O.taken O.has_failed out.old out.new)
            (device_of E.taken E.has_failed err.old err.new)) }
        ensures unseen { result ≡ Err WriteFailed → self.new.seen ≡ self.old.seen }
    {
        self.followed.counts = self.counts();
        let answer = feed_link(alloc, &mut self.gateway, link, octets, &mut self.followed);
        let is_reported = pass_on(&mut self.gateway, link, out, err)?;
        self.see(answer, self.followed.counts);
        self.count(answer, octets.len());
        self.status = self.status.max(u8::from(is_reported));
        self.tell_answer(link, answer, err)
    }

    /// The counts of the reasons so far.
    fn counts(&self) -> Counts
        ensures { result ≡ counts_in self.now.seen }
    {
        match self.seen {
            Some(seen) => seen.counts,
            None => Counts::none(),
        }
    }

    /// Sees what came of a piece that was answered so, where notes are asked for; these are the counts after it.
    fn see(&mut self, answer: Result<(), LinkFault>, counts: Counts)
        requires { length (gateway_view self.old.gateway).links ≡ 16 }
        ensures seen { self.new.seen
            ≡ seen_after self.old.seen answer (gateway_view self.old.gateway).links counts }
        ensures gateway { self.new.gateway ≡ self.old.gateway }
        ensures status { self.new.status ≡ self.old.status }
        ensures followed { self.new.followed ≡ self.old.followed }
    {
        if let Some(old) = self.seen {
            let digest = old.digest;
            self.seen = Some(Seen {
                digest,
                totals: all_totals(&self.gateway),
                counts: known_counts(answer, old.counts, counts),
                left: old.left,
            });
        }
    }

    /// Counts a piece of so many octets that was answered so, where something is counted.
    fn count(&mut self, answer: Result<(), LinkFault>, octets: usize)
        requires { length (gateway_view self.old.gateway).links ≡ 16 }
        ensures counted { maybe_counted self.new.followed.counted
            ≡ piece_counted (maybe_counted self.old.followed.counted) answer octets
            (gateway_view self.old.gateway).links }
        ensures gateway { self.new.gateway ≡ self.old.gateway }
        ensures status { self.new.status ≡ self.old.status }
        ensures seen { self.new.seen ≡ self.old.seen }
    {
        if let Some(counted) = &mut self.followed.counted {
            let totals = all_totals(&self.gateway);
            counted.piece(totals, octets, answer);
        }
    }

    /// The end of a link's stream.
    pub fn end<E: Sink>(&mut self, alloc: Global, link: u16, err: &mut E) -> Result<(), Stop>
        requires link { link ≤ 15 }
        requires ready { IsReady self.old.gateway }
        ensures done { OnOk result ((path : List ℕ) (told : Told) (out : Option (List ℕ)) →
            IsTaken path told self.old (end link) told self.new (out, out) (E.taken err.old, E.taken err.new)) }
        ensures cut { IfErr result (λ s. (path : List ℕ) (told : Told) (out : Option (List ℕ)) (failed : Bool) →
            IsCut s path (mux_of told self.old) (end link) (device out out failed)
            (device_of E.taken E.has_failed err.old err.new)) }
        ensures error { IfErr result (λ s. s ≡ ErrorFailed) }
        ensures seen { self.new.seen ≡ self.old.seen }
    {
        let answer = end_link(alloc, &mut self.gateway, link);
        self.count_end(answer);
        self.tell_answer(link, answer, err)
    }

    /// Counts the fault of a link that ended so, where something is counted.
    fn count_end(&mut self, answer: Result<(), LinkFault>)
        ensures counted { maybe_counted self.new.followed.counted
            ≡ ended_counted (maybe_counted self.old.followed.counted) answer }
        ensures gateway { self.new.gateway ≡ self.old.gateway }
        ensures status { self.new.status ≡ self.old.status }
        ensures seen { self.new.seen ≡ self.old.seen }
    {
        if let Some(counted) = &mut self.followed.counted {
            counted.tally.faults.answered(answer);
        }
    }

    /// The end of each link's stream that hasn't ended, in order.
    pub fn end_all<E: Sink>(&mut self, alloc: Global, err: &mut E) -> Result<(), Stop>
        requires ready { IsReady self.old.gateway }
        ensures done { OnOk result ((path : List ℕ) (told : Told) →
            AreEnded path told self.old self.new (E.taken err.old, E.taken err.new)) }
        ensures cut { IfErr result (λ s. (s ≡ ErrorFailed)
            × ((path : List ℕ) (told : Told) (out : Option (List ℕ)) (failed : Bool) →
            IsEndCut path told self.old (device out out failed)
            (device_of E.taken E.has_failed err.old err.new))) }
    {
        for link in 0..LINKS {
            if self.is_closed(link) {
                continue;
            }
            self.end(alloc, link, err)?;
        }
        Ok(())
    }

    /// Whether the link of this number takes no more.
    fn is_closed(&self, link: u16) -> bool
        requires link { link ≤ 15 }
        requires ready { IsReady self.now.gateway }
        ensures { Is result link self.now }
    {
        let Some(one) = self.gateway.link(link) else {
            unreachable!()
        };
        one.is_closed()
    }

    /// Reads the policy at the path again, and notes that where notes are asked for. Where there is none, that is
    /// reported, and the policy in force stays; where notes are asked for, what the system says and which policy stays
    /// are noted.
    pub fn reload<F: Files, E: Sink, T: Says>(
        &mut self,
        alloc: Global,
        path: &str,
        files: &mut F,
        err: &mut E,
        system: &T,
    ) -> Result<(), Stop>
        requires ready { IsReady self.old.gateway }
        ensures done { OnOk result ((out : Option (List ℕ))
            → IsTaken path.now (F.told files.old) self.old reload (F.told files.new) self.new
            (out, out) (E.taken err.old, E.taken err.new)) }
        ensures cut { IfErr result (λ s. (out : Option (List ℕ)) (failed : Bool)
            → IsCut s path.now (mux_of (F.told files.old) self.old) reload
            (device out out failed) (device_of E.taken E.has_failed err.old err.new)) }
        ensures unseen { result ≡ Err WriteFailed → self.new.seen ≡ self.old.seen }
    {
        match load_counted(alloc, path, files) {
            Ok(loaded) => {
                let (policy, force) = loaded;
                let digest = force.digest;
                let (messages, rules) = (policy.messages(), policy.rules());
                let _ = self
                    .gateway
                    .step(alloc, Event::Reload(policy), &mut Unwatched);
                self.count_policy(force);
                self.note_policy(messages, rules, &digest, err)
            }
            Err(fault) => match report(alloc, &fault, err) {
                Ok(status) => {
                    self.status = self.status.max(status);
                    self.note_unread(alloc, &fault, err, system)
                }
                Err(_) => Err(Stop::ErrorFailed),
            },
        }
    }

    /// Counts a new policy, of whose rules none has denied anything, where something is counted.
    fn count_policy(&mut self, force: InForce)
        ensures counted { (p : AbstractPolicy) (digest : List ℕ) → force_view force ≡ force_of p digest →
            maybe_counted self.new.followed.counted
            ≡ renewed_counted (maybe_counted self.old.followed.counted) p digest }
        ensures gateway { self.new.gateway ≡ self.old.gateway }
        ensures status { self.new.status ≡ self.old.status }
        ensures seen { self.new.seen ≡ self.old.seen }
    {
        if let Some(counted) = &mut self.followed.counted {
            counted.renewed(force);
        }
    }

    /// Notes a new policy of so many messages and rules, and keeps and notes its number, where notes are asked for.
    fn note_policy<E: Sink>(
        &mut self,
        messages: usize,
        rules: usize,
        digest: &[u8; 32],
        err: &mut E,
    ) -> Result<(), Stop>
        ensures all { OnOk result (Appends (E.taken err.old) (E.taken err.new)
            (renewed_note self.old.seen messages rules digest.now)) }
        ensures part { IfErr result (λ s. (s ≡ ErrorFailed) × (E.has_failed err.new ≡ true) × ((part : List ℕ)
            × IsProperPrefix part (renewed_note self.old.seen messages rules digest.now)
            × Appends (E.taken err.old) (E.taken err.new) part)) }
        ensures seen { self.new.seen ≡ renewed_seen self.old.seen digest.now }
        ensures gateway { self.new.gateway ≡ self.old.gateway }
        ensures status { self.new.status ≡ self.old.status }
        ensures followed { self.new.followed ≡ self.old.followed }
    {
        let Some(seen) = &mut self.seen else {
            return Ok(());
        };
        seen.digest = *digest;
        match put_renewed(err, messages, rules, digest) {
            Ok(()) => Ok(()),
            Err(_) => Err(Stop::ErrorFailed),
        }
    }

    /// Notes what the system says of a policy that can't be had anew, and which policy stays, where notes are asked for
    /// and there is memory for that.
    fn note_unread<E: Sink, T: Says>(
        &self,
        alloc: Global,
        fault: &Fault,
        err: &mut E,
        system: &T,
    ) -> Result<(), Stop>
        ensures all { OnOk result ((note : List ℕ) × IsUnreadNote self.now.seen fault.now note
            × Appends (E.taken err.old) (E.taken err.new) note) }
        ensures part { IfErr result (λ s. (s ≡ ErrorFailed) × (E.has_failed err.new ≡ true) × ((note : List ℕ)
            × (part : List ℕ) × IsUnreadNote self.now.seen fault.now note × IsProperPrefix part note
            × Appends (E.taken err.old) (E.taken err.new) part)) }
    {
        let Some(seen) = self.seen else {
            return Ok(());
        };
        let Ok(note) = unread_note(alloc, fault, &seen.digest, system) else {
            return Ok(());
        };
        match put_all(err, note.as_slice()) {
            Ok(()) => Ok(()),
            Err(_) => Err(Stop::ErrorFailed),
        }
    }

    /// Tells the fault of a link, where it answered with one, and at which frame that is, where notes are asked for.
    fn tell_answer<E: Sink>(
        &mut self,
        link: u16,
        answer: Result<(), LinkFault>,
        err: &mut E,
    ) -> Result<(), Stop>
        ensures all { OnOk result (Appends (E.taken err.old) (E.taken err.new)
            (answer_lines (noted_link self.old.seen (gateway_view self.old.gateway) link) link answer)) }
        ensures part { IfErr result (λ s. (s ≡ ErrorFailed) × (E.has_failed err.new ≡ true) × ((part : List ℕ)
            × IsProperPrefix part
            (answer_lines (noted_link self.old.seen (gateway_view self.old.gateway) link) link answer)
            × Appends (E.taken err.old) (E.taken err.new) part)) }
        ensures status { self.new.status ≡ max self.old.status (link_status [] answer) }
        ensures gateway { self.new.gateway ≡ self.old.gateway }
        ensures seen { self.new.seen ≡ self.old.seen }
        ensures followed { self.new.followed ≡ self.old.followed }
    {
        let Err(fault) = answer else {
            return Ok(());
        };
        self.status = self.status.max(FAILED);
        match put_fault(err, link, fault, self.noted(link)) {
            Ok(()) => Ok(()),
            Err(_) => Err(Stop::ErrorFailed),
        }
    }

    /// The link of this number, where notes are asked for.
    fn noted(&self, link: u16) -> Option<&Link>
        ensures { option_map (λ x. link_view x.now) result
            ≡ noted_link self.now.seen (gateway_view self.now.gateway) link }
    {
        if self.seen.is_none() {
            return None;
        }
        self.gateway.link(link)
    }
}

/// What the system says of a policy that can't be had anew, and that the one of this number stays. It fails only where
/// memory runs out.
fn unread_note<T: Says>(
    alloc: Global,
    fault: &Fault,
    digest: &[u8; 32],
    system: &T,
) -> Result<Vec<u8>, OutOfMemory>
    ensures { IfOk result (λ note. (said : List ℕ) × IsSaidOfFault fault.now said
        × (note.items ≡ said ++ kept_note digest.now)) }
{
    let mut note = said_of_fault(alloc, fault, system)?.into_bytes();
    add_kept(&mut note, digest)?;
    Ok(note)
}

/// The new counts, unless a sink of the link has failed: then it isn't known which lines it took.
fn known_counts(answer: Result<(), LinkFault>, old: Counts, new: Counts) -> Counts
    ensures { result ≡ known_counts answer old new }
{
    match answer {
        Ok(())
        | Err(LinkFault::FrameTooLong)
        | Err(LinkFault::Closed)
        | Err(LinkFault::TornFrame) => new,
        Err(LinkFault::WriteFailed) => old,
    }
}
