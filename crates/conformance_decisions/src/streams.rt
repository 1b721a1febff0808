//! What comes of streams of frames.
use crate::arrays::fed;
use crate::devices::{Breaking, Pieces, Room};
use conformance_rows::{Layer, text_of, texts_of, unknown};
use guard_frames::{
    Kept, Link, LinkFault, RunFault, Sink, Source, Through, Totals, Unwatched, load_texts, put_all,
    run,
};
use guard_policy::Policy;
use std::alloc::{AllocError, Global};

/// What the rows ask.
#[derive(Clone, Copy)]
enum Asked {
    /// How a run ends, and what comes out.
    Run,
    /// How a run ends, and what comes out, where the source gives pieces of so many octets, and the sinks take so many
    /// in one call.
    Pieces(usize),
    /// How a run ends on each stream in two pieces, and what comes out, or where two of them differ.
    EachCut,
    /// How many runs end with F2 where the sink for frames fails after so many octets, for each number, with what the
    /// first frames report.
    EachOut,
    /// How many runs end with F2 where the sink for reports fails after so many octets, for each number, with what the
    /// first frames put.
    EachReport,
    /// How many runs end with F5 where the source fails after so many octets, for each number, with the outputs of
    /// those octets.
    EachRead,
    /// How a run ends through a reader and writers of std, and what comes out.
    Through,
    /// How a run ends through a reader and writers of std, what comes out, and whether the source and the sinks have
    /// failed, where the writer for frames has room for ten octets.
    Ten,
    /// How a run ends, and how many octets it leaves unread.
    Left,
    /// How runs end where a reader or a writer of std answers an error.
    Errors,
    /// What a link answers to the stream, to one more octet, to its end, twice, and to one more octet.
    Link,
    /// What a link answers in the same five calls where the sink for frames has no room.
    FullLink,
    /// What a link answers to the stream where its sinks are arrays, and what these took.
    Arrays,
    /// How often the sinks for frames and for reports of a run are asked to take octets.
    Calls,
    /// What a sink in memory holds when it took the octets, and when it was emptied.
    Kept,
}

#[derive(Drop)]
pub struct Streams {
    asked: Asked,
    /// The texts of the modules that a policy is built on, separated by `====`.
    modules: Vec<u8>,
    /// The policy that decides.
    policy: Option<Policy>,
}

impl Streams {
    /// Sets the policy that a text says over the modules.
    fn load(&mut self, alloc: Global, text: &[u8]) -> Result<String, AllocError> {
        let modules = texts_of(alloc, &self.modules)?;
        match load_texts(alloc, &modules, text) {
            Ok(policy) => {
                self.policy = Some(policy);
                String::from_str(alloc, "ok")
            }
            Err(fault) => format!(in alloc; "{fault}"),
        }
    }
}

/// What a run ended with, and what its sinks took.
#[derive(Drop)]
struct Ending {
    end: Result<Totals, RunFault>,
    out: Room,
    reports: Room,
}

fn ran(alloc: Global, policy: &Policy, source: Pieces, out: Room, reports: Room) -> Ending {
    let mut ran = Ending {
        end: Err(RunFault::OutOfMemory),
        out,
        reports,
    };
    let mut source = source;
    ran.end = run(alloc, &mut source, &mut ran.out, &mut ran.reports, policy);
    ran
}

fn ran_amply(alloc: Global, policy: &Policy, source: Pieces) -> Ending {
    ran(
        alloc,
        policy,
        source,
        Room::ample(alloc),
        Room::ample(alloc),
    )
}

/// The totals or the fault of a run, what went out, and the reports.
fn text_of_run(
    alloc: Global,
    end: Result<Totals, RunFault>,
    out: &[u8],
    reports: &[u8],
) -> Result<String, AllocError> {
    let out = shown(alloc, out)?;
    let reports = shown(alloc, reports)?;
    match end {
        Ok(totals) => {
            let Totals {
                frames,
                passed,
                denied,
            } = totals;
            format!(in alloc; "{frames} {passed} {denied} <{out}> <{reports}>")
        }
        Err(fault) => format!(in alloc; "{fault} <{out}> <{reports}>"),
    }
}

/// The octets as a text, or in hexadecimal where they are none.
pub fn shown(alloc: Global, octets: &[u8]) -> Result<String, AllocError> {
    if let Ok(text) = str::from_utf8(octets) {
        return String::from_str(alloc, text);
    }
    let mut digits = String::new(alloc);
    for octet in octets {
        digits.push_str(&format!(in alloc; "{octet:02X}")?)?;
    }
    Ok(digits)
}

impl Ending {
    fn text(&self, alloc: Global) -> Result<String, AllocError> {
        text_of_run(alloc, self.end, self.out.octets(), self.reports.octets())
    }

    /// It ended with this fault, and its sinks took these octets.
    fn took(&self, fault: RunFault, out: &[u8], reports: &[u8]) -> bool {
        self.end == Err(fault) && self.out.octets() == out && self.reports.octets() == reports
    }
}

/// What comes of the first frames of the stream, for each number of them.
fn of_first_frames(
    alloc: Global,
    policy: &Policy,
    stream: &[u8],
) -> Result<Vec<Ending>, AllocError> {
    let mut endings = Vec::new(alloc);
    for end in 0..=stream.len() {
        let ending = ran_amply(alloc, policy, Pieces::whole(&stream[..end]));
        if ending.end.is_ok() {
            endings.push(ending)?;
        }
    }
    Ok(endings)
}

/// What the frames report that put no more than so many octets, as many of them as there are.
fn reports_before(endings: &[Ending], room: usize) -> &[u8] {
    let mut reports: &[u8] = b"";
    for ending in endings {
        if ending.out.octets().len() <= room {
            reports = ending.reports.octets();
        }
    }
    reports
}

/// What the frames put that report no more than so many octets, as many of them as there are.
fn out_before(endings: &[Ending], room: usize) -> &[u8] {
    let mut out: &[u8] = b"";
    for ending in endings {
        if ending.reports.octets().len() <= room {
            out = ending.out.octets();
        }
    }
    out
}

/// The text of a run, or where a run on the stream in two pieces has another one.
fn each_cut(alloc: Global, policy: &Policy, stream: &[u8]) -> Result<String, AllocError> {
    let whole = ran_amply(alloc, policy, Pieces::whole(stream)).text(alloc)?;
    for first in 1..stream.len() {
        let cut = ran_amply(alloc, policy, Pieces::cut(stream, first, usize::MAX)).text(alloc)?;
        if cut.as_str() != whole.as_str() {
            return format!(in alloc; "cut after {first}: {cut}");
        }
    }
    Ok(whole)
}

fn each_out(alloc: Global, policy: &Policy, stream: &[u8]) -> Result<String, AllocError> {
    let whole = ran_amply(alloc, policy, Pieces::whole(stream));
    let first = of_first_frames(alloc, policy, stream)?;
    let out = whole.out.octets();
    for room in 0..out.len() {
        let full = Room::new(alloc, usize::MAX, room);
        let cut = ran(
            alloc,
            policy,
            Pieces::whole(stream),
            full,
            Room::ample(alloc),
        );
        let reports = reports_before(&first, room);
        if !cut.took(RunFault::WriteFailed, &out[..room], reports) {
            return format!(in alloc; "room for {room}: {}", cut.text(alloc)?);
        }
    }
    format!(in alloc; "{}", out.len())
}

fn each_report(alloc: Global, policy: &Policy, stream: &[u8]) -> Result<String, AllocError> {
    let whole = ran_amply(alloc, policy, Pieces::whole(stream));
    let first = of_first_frames(alloc, policy, stream)?;
    let reports = whole.reports.octets();
    for room in 0..reports.len() {
        let full = Room::new(alloc, usize::MAX, room);
        let cut = ran(
            alloc,
            policy,
            Pieces::whole(stream),
            Room::ample(alloc),
            full,
        );
        let out = out_before(&first, room);
        if !cut.took(RunFault::WriteFailed, out, &reports[..room]) {
            return format!(in alloc; "room for {room}: {}", cut.text(alloc)?);
        }
    }
    format!(in alloc; "{}", reports.len())
}

fn each_read(alloc: Global, policy: &Policy, stream: &[u8]) -> Result<String, AllocError> {
    for read in 0..=stream.len() {
        let cut = ran_amply(alloc, policy, Pieces::failing(stream, 1, read));
        let whole = ran_amply(alloc, policy, Pieces::whole(&stream[..read]));
        if !cut.took(
            RunFault::ReadFailed,
            whole.out.octets(),
            whole.reports.octets(),
        ) {
            return format!(in alloc; "{read} octets: {}", cut.text(alloc)?);
        }
    }
    format!(in alloc; "{}", stream.len())
}

fn through(alloc: Global, policy: &Policy, stream: &[u8]) -> Result<String, AllocError> {
    let mut source = Through::new(stream);
    let mut out = Through::new(Vec::new(alloc));
    let mut reports = Through::new(Vec::new(alloc));
    let end = run(alloc, &mut source, &mut out, &mut reports, policy);
    text_of_run(alloc, end, &out.inner, &reports.inner)
}

/// How a run ends, what the writer with room for ten octets holds, what is reported, and whether the source and the
/// sinks have failed.
fn into_ten(alloc: Global, policy: &Policy, stream: &[u8]) -> Result<String, AllocError> {
    let mut room = [b'.'; 10];
    let mut source = Through::new(stream);
    let mut out = Through::new(&mut room[..]);
    let mut reports = Kept::new(alloc);
    let end = run(alloc, &mut source, &mut out, &mut reports, policy);
    let failed = (
        Source::failed(&source),
        Sink::failed(&out),
        Sink::failed(&reports),
    );
    let text = text_of_run(alloc, end, &room, reports.octets())?;
    format!(in alloc; "{text} {} {} {}", failed.0, failed.1, failed.2)
}

/// How a run ends, and how many octets it leaves in its source.
fn left(alloc: Global, policy: &Policy, stream: &[u8]) -> Result<String, AllocError> {
    let mut source = Pieces::whole(stream);
    let mut out = Room::ample(alloc);
    let mut reports = Room::ample(alloc);
    let end = run(alloc, &mut source, &mut out, &mut reports, policy);
    let text = text_of_run(alloc, end, out.octets(), reports.octets())?;
    format!(in alloc; "{text} {}", source.left().len())
}

/// How a run ends whose reader ends with an error, and one whose writer for frames answers one, and whether the source
/// and the sinks have failed.
fn errors(alloc: Global, policy: &Policy, stream: &[u8]) -> Result<String, AllocError> {
    let read = of_breaking_reader(alloc, policy, stream)?;
    let written = of_breaking_writer(alloc, policy, stream)?;
    format!(in alloc; "{read}, {written}")
}

fn of_breaking_reader(alloc: Global, policy: &Policy, stream: &[u8]) -> Result<String, AllocError> {
    let mut source = Through::new(Breaking(stream));
    let mut out = Through::new(Vec::new(alloc));
    let mut reports = Kept::new(alloc);
    let end = run(alloc, &mut source, &mut out, &mut reports, policy);
    let failed = (
        Source::failed(&source),
        Sink::failed(&out),
        Sink::failed(&reports),
    );
    let read = text_of_run(alloc, end, &out.inner, reports.octets())?;
    format!(in alloc; "{read} {} {} {}", failed.0, failed.1, failed.2)
}

fn of_breaking_writer(alloc: Global, policy: &Policy, stream: &[u8]) -> Result<String, AllocError> {
    let mut source = Through::new(stream);
    let mut out = Through::new(Breaking(b""));
    let mut reports = Kept::new(alloc);
    let end = run(alloc, &mut source, &mut out, &mut reports, policy);
    let failed = (
        Source::failed(&source),
        Sink::failed(&out),
        Sink::failed(&reports),
    );
    let written = text_of_run(alloc, end, b"", reports.octets())?;
    format!(in alloc; "{written} {} {} {}", failed.0, failed.1, failed.2)
}

/// What a sink in memory holds that took the octets once, then twice, and then was emptied; and whether it has failed.
fn kept(alloc: Global, octets: &[u8]) -> Result<String, AllocError> {
    let mut sink = Kept::new(alloc);
    if put_all(&mut sink, octets).is_err() {
        return String::from_str(alloc, "no memory");
    }
    let once = shown(alloc, sink.octets())?;
    if put_all(&mut sink, octets).is_err() {
        return String::from_str(alloc, "no memory");
    }
    let twice = shown(alloc, sink.octets())?;
    sink.empty();
    let emptied = shown(alloc, sink.octets())?;
    format!(in alloc; "<{once}> <{twice}> <{emptied}> {}", Sink::failed(&sink))
}

/// What a link answers to the stream, to one more octet, to its end, twice, and to one more octet.
fn of_link(alloc: Global, policy: &Policy, stream: &[u8], out: Room) -> Result<String, AllocError> {
    let Ok(mut link) = Link::new(alloc) else {
        return String::from_str(alloc, "no link");
    };
    let mut out = out;
    let mut reports = Room::ample(alloc);
    let fed = link.feed(
        alloc,
        policy,
        stream,
        &mut out,
        &mut reports,
        &mut Unwatched,
    );
    let more = link.feed(alloc, policy, b"\0", &mut out, &mut reports, &mut Unwatched);
    let ended = link.end();
    let again = link.end();
    let late = link.feed(alloc, policy, b"\0", &mut out, &mut reports, &mut Unwatched);
    let mut text = String::new(alloc);
    for answer in [fed, more, ended, again, late] {
        add_answer(&mut text, answer)?;
    }
    Ok(text)
}

fn add_answer(text: &mut String, answer: Result<(), LinkFault>) -> Result<(), AllocError> {
    if !text.is_empty() {
        text.push_str(", ")?;
    }
    match answer {
        Ok(()) => text.push_str("ok"),
        Err(LinkFault::FrameTooLong) => text.push_str("F1"),
        Err(LinkFault::WriteFailed) => text.push_str("F2"),
        Err(LinkFault::Closed) => text.push_str("F3"),
        Err(LinkFault::TornFrame) => text.push_str("F4"),
    }
}

/// What comes of a stream under the policy.
fn answer_of(
    alloc: Global,
    asked: Asked,
    policy: &Policy,
    input: &[u8],
) -> Result<String, AllocError> {
    match asked {
        Asked::Run => ran_amply(alloc, policy, Pieces::whole(input)).text(alloc),
        Asked::Pieces(size) => in_pieces(alloc, policy, input, size),
        Asked::EachCut => each_cut(alloc, policy, input),
        Asked::EachOut => each_out(alloc, policy, input),
        Asked::EachReport => each_report(alloc, policy, input),
        Asked::EachRead => each_read(alloc, policy, input),
        Asked::Through => through(alloc, policy, input),
        Asked::Ten => into_ten(alloc, policy, input),
        Asked::Link => of_link(alloc, policy, input, Room::ample(alloc)),
        Asked::FullLink => of_link(alloc, policy, input, Room::new(alloc, usize::MAX, 0)),
        Asked::Arrays => fed(alloc, policy, input),
        Asked::Left => left(alloc, policy, input),
        Asked::Errors => errors(alloc, policy, input),
        Asked::Calls => calls(alloc, policy, input),
        Asked::Kept => kept(alloc, input),
    }
}

/// How often the sink for frames is asked in a run, and how often the one for reports.
fn calls(alloc: Global, policy: &Policy, stream: &[u8]) -> Result<String, AllocError> {
    let ran = ran_amply(alloc, policy, Pieces::whole(stream));
    format!(in alloc; "{} {}", ran.out.calls(), ran.reports.calls())
}

/// How a run ends whose source gives pieces of so many octets, and whose sinks take so many in one call.
fn in_pieces(
    alloc: Global,
    policy: &Policy,
    stream: &[u8],
    size: usize,
) -> Result<String, AllocError> {
    let source = Pieces::cut(stream, size, size);
    let out = Room::new(alloc, size, usize::MAX);
    let reports = Room::new(alloc, size, usize::MAX);
    ran(alloc, policy, source, out, reports).text(alloc)
}

impl Layer for Streams {
    fn new(alloc: Global) -> Streams {
        Streams {
            asked: Asked::Run,
            modules: Vec::new(alloc),
            policy: None,
        }
    }

    fn answer(&mut self, alloc: Global, input: &[u8]) -> Result<String, AllocError> {
        match &self.policy {
            Some(policy) => answer_of(alloc, self.asked, policy, input),
            None => String::from_str(alloc, "no policy"),
        }
    }

    /// `@ask run`, `@ask each cut`, `@ask each out`, `@ask each report`, `@ask each read`, `@ask through`,
    /// `@ask ten`, `@ask left`, `@ask errors`, `@ask link`, `@ask full link`, `@ask arrays`,
    /// `@ask calls`, `@ask kept`; `@pieces SIZE`; `@modules` and `@policy` with the texts of the policy that decides.
    fn set(&mut self, alloc: Global, name: &str, text: &[u8]) -> Result<String, AllocError> {
        match name {
            "modules" => {
                self.modules = Vec::from_slice(alloc, text)?;
                return String::from_str(alloc, "ok");
            }
            "policy" => return self.load(alloc, text),
            _ => {}
        }
        self.asked = match (name, text_of(text)) {
            ("ask", "run") => Asked::Run,
            ("ask", "each cut") => Asked::EachCut,
            ("ask", "each out") => Asked::EachOut,
            ("ask", "each report") => Asked::EachReport,
            ("ask", "each read") => Asked::EachRead,
            ("ask", "through") => Asked::Through,
            ("ask", "ten") => Asked::Ten,
            ("ask", "link") => Asked::Link,
            ("ask", "full link") => Asked::FullLink,
            ("ask", "arrays") => Asked::Arrays,
            ("ask", "left") => Asked::Left,
            ("ask", "errors") => Asked::Errors,
            ("ask", "calls") => Asked::Calls,
            ("ask", "kept") => Asked::Kept,
            ("pieces", size) => match size.parse::<usize>() {
                Ok(size) => Asked::Pieces(size),
                Err(_) => return String::from_str(alloc, "no size"),
            },
            _ => return unknown(alloc),
        };
        String::from_str(alloc, "ok")
    }
}
