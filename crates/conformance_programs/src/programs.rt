//! What the program does of its words, files and standard input.
use crate::memory::{Entries, Reads};
use crate::shelf::Shelf;
use conformance_decisions::{Pieces, Room};
use conformance_rows::{Layer, Tally, check_files, octets_in, text_of};
use guard_streams::{Counters, Failing, Says};
use std::alloc::{AllocError, Global};
use std::io;
use std::rt::Files;

/// The files of rows, in the order in which they are tried.
const FILES: [&str; 11] = [
    "program/words_files_streams.rows",
    "program/explained.rows",
    "program/faults.rows",
    "program/encoded.rows",
    "program/tested.rows",
    "program/compared.rows",
    "program/found.rows",
    "program/many_links.rows",
    "program/verbose.rows",
    "program/counters.rows",
    "program/json.rows",
];

/// Tries the rows of all of them on a program, and adds them to the tally.
pub fn try_rows<R: Files + Print + AllocGlobal, P: Program>(
    rt: &R,
    tally: &mut Tally,
) -> io::Result<()> {
    check_files::<R, Programs<P>>(rt, tally, &FILES)
}

/// What is reported of a standard output that fails.
const OUT_FAILED: &[u8] = b"derguard: F2 WriteFailed\n";

/// What the rows ask.
#[derive(Clone, Copy)]
enum Asked {
    /// The status, what both outputs took, and how many octets of standard input are left.
    All,
    /// The status, the first line of each output, and how many octets of standard input are left.
    FirstLines,
    /// How many runs end with 3 where standard output fails after so many octets, for each number, with that report.
    EachOut,
    /// How many runs end with 3 where standard error fails after so many octets, for each number. Nothing is said after
    /// what it took.
    EachErr,
    /// The status, what standard error took, and the text that was shown last.
    LastText,
    /// The status, what standard error took, and of each text that was shown what isn't 0.
    EachText,
}

/// The program that the rows are tried on.
pub trait Program: Drop {
    fn new() -> Self;

    /// What it does of its words, over files, standard input, both outputs, what the system says of what failed, and
    /// counters; the answer is its status.
    fn run(
        &self,
        alloc: Global,
        words: &[&str],
        files: &mut Reads<'_, '_>,
        input: &mut Pieces<'_>,
        out: &mut Room,
        err: &mut Room,
        system: &Told,
        counters: &mut Counters<Shelf>,
    ) -> u8;
}

#[derive(Drop)]
struct Programs<P: Program> {
    program: P,
    asked: Asked,
    files: Entries,
    input: Vec<u8>,
    /// The length of a piece of standard input at most,
    size: usize,
    /// and how many reads of it are answered before one fails.
    reads: usize,
    /// How many octets standard output takes before it fails,
    out: usize,
    /// and standard error.
    err: usize,
    /// How many texts are shown before the board fails.
    shows: usize,
}

/// What a system says in the rows.
#[derive(Clone, Copy)]
pub struct Told;

impl Says for Told {
    fn said(&self, alloc: Global, failing: Failing) -> Result<Option<String>, AllocError> {
        let text = match failing {
            Failing::Input => "the line is cut\nand not this",
            Failing::Output => "no room is left",
            Failing::File => "no such file",
        };
        Ok(Some(String::from_str(alloc, text)?))
    }
}

/// What a run ended with.
#[derive(Drop)]
struct Ending {
    status: u8,
    out: Room,
    err: Room,
    left: usize,
    counters: Counters<Shelf>,
}

impl Ending {
    /// What the rows ask of one run.
    fn answer(&self, alloc: Global, asked: Asked) -> Result<String, AllocError> {
        match asked {
            Asked::FirstLines => self.first_lines(alloc),
            Asked::LastText => self.last_text(alloc),
            Asked::EachText => self.each_text(alloc),
            Asked::All | Asked::EachOut | Asked::EachErr => self.text(alloc),
        }
    }

    fn text(&self, alloc: Global) -> Result<String, AllocError> {
        let (status, left) = (self.status, self.left);
        let out = shown(alloc, self.out.octets())?;
        let err = shown(alloc, self.err.octets())?;
        format!(in alloc; "{status} <{out}> <{err}> {left}")
    }

    fn last_text(&self, alloc: Global) -> Result<String, AllocError> {
        let status = self.status;
        let err = shown(alloc, self.err.octets())?;
        let last = self.counters.board().last(alloc)?;
        format!(in alloc; "{status} <{err}> {last}")
    }

    fn each_text(&self, alloc: Global) -> Result<String, AllocError> {
        let status = self.status;
        let err = shown(alloc, self.err.octets())?;
        let each = self.counters.board().each(alloc)?;
        format!(in alloc; "{status} <{err}> {each}")
    }

    fn first_lines(&self, alloc: Global) -> Result<String, AllocError> {
        let (status, left) = (self.status, self.left);
        let out = shown(alloc, first_line(self.out.octets()))?;
        let err = shown(alloc, first_line(self.err.octets()))?;
        format!(in alloc; "{status} <{out}> <{err}> {left}")
    }

    /// That the run with so much room for an output isn't as it should be.
    fn text_of_room(&self, alloc: Global, room: usize) -> Result<String, AllocError> {
        format!(in alloc; "room for {room}: {}", self.text(alloc)?)
    }

    /// Whether the whole run was cut where standard output failed, after so many octets, and that was reported last.
    fn is_cut_at_out(&self, whole: &Ending, room: usize) -> bool {
        let is_told = match self.err.octets().strip_suffix(OUT_FAILED) {
            Some(before) => whole.err.octets().starts_with(before),
            None => false,
        };
        self.status == 3 && is_front(self.out.octets(), room, whole.out.octets()) && is_told
    }

    /// Whether the whole run was cut where standard error failed, after so many octets.
    fn is_cut_at_err(&self, whole: &Ending, room: usize) -> bool {
        let is_part = whole.out.octets().starts_with(self.out.octets());
        self.status == 3 && is_front(self.err.octets(), room, whole.err.octets()) && is_part
    }
}

/// Whether the octets are the first of the whole, so many.
fn is_front(octets: &[u8], count: usize, whole: &[u8]) -> bool {
    octets.len() == count && whole.starts_with(octets)
}

/// The octets up to the first line feed.
fn first_line(octets: &[u8]) -> &[u8] {
    match octets.iter().position(|octet| *octet == b'\n') {
        Some(end) => &octets[..end],
        None => octets,
    }
}

/// The octets as a text, or in hexadecimal where one of them is neither printable nor a line feed.
fn shown(alloc: Global, octets: &[u8]) -> Result<String, AllocError> {
    if are_printable(octets) {
        return String::from_str(alloc, text_of(octets));
    }
    let mut digits = String::new(alloc);
    for octet in octets {
        digits.push_str(&format!(in alloc; "{octet:02X}")?)?;
    }
    Ok(digits)
}

/// Whether each is printable or a line feed.
fn are_printable(octets: &[u8]) -> bool {
    for octet in octets {
        if !matches!(*octet, b' '..=b'~' | b'\n') {
            return false;
        }
    }
    true
}

/// The program's name and the words of a row, between single spaces; `''` is the empty word.
fn words_of(alloc: Global, row: &str) -> Result<Vec<&str>, AllocError> {
    let mut words = Vec::new(alloc);
    words.push("derguard")?;
    if row.is_empty() {
        return Ok(words);
    }
    for word in row.split(' ') {
        words.push(if word == "''" { "" } else { word })?;
    }
    Ok(words)
}

impl<P: Program> Programs<P> {
    /// What comes of the words, where the outputs have room for so many octets.
    fn ran(
        &self,
        alloc: Global,
        words: &[&str],
        room: usize,
        err_room: usize,
    ) -> Result<Ending, AllocError> {
        let coming = self.files.coming(alloc)?;
        let mut files = Reads::new(&coming);
        let mut input = Pieces::failing(&self.input, self.size, self.reads);
        let mut out = Room::new(alloc, usize::MAX, room);
        let mut err = Room::new(alloc, usize::MAX, err_room);
        let mut counters = Counters::over(alloc, Shelf::new(alloc, self.shows));
        let status = self.program.run(
            alloc,
            words,
            &mut files,
            &mut input,
            &mut out,
            &mut err,
            &Told,
            &mut counters,
        );
        let left = input.left().len();
        Ok(Ending {
            status,
            out,
            err,
            left,
            counters,
        })
    }

    /// How many runs end as they should where standard output fails after so many octets, for each number; or the first
    /// that doesn't.
    fn each_out(&self, alloc: Global, words: &[&str]) -> Result<String, AllocError> {
        let whole = self.ran(alloc, words, usize::MAX, usize::MAX)?;
        self.cut_at_out(alloc, words, &whole)
    }

    fn cut_at_out(
        &self,
        alloc: Global,
        words: &[&str],
        whole: &Ending,
    ) -> Result<String, AllocError> {
        let length = whole.out.octets().len();
        for room in 0..length {
            let cut = self.ran(alloc, words, room, usize::MAX)?;
            if !cut.is_cut_at_out(whole, room) {
                return cut.text_of_room(alloc, room);
            }
        }
        format!(in alloc; "{length}")
    }

    /// How many runs end with 3 where standard error fails after so many octets, for each number; or the first that
    /// doesn't.
    fn each_err(&self, alloc: Global, words: &[&str]) -> Result<String, AllocError> {
        let whole = self.ran(alloc, words, usize::MAX, usize::MAX)?;
        self.cut_at_err(alloc, words, &whole)
    }

    fn cut_at_err(
        &self,
        alloc: Global,
        words: &[&str],
        whole: &Ending,
    ) -> Result<String, AllocError> {
        let length = whole.err.octets().len();
        for room in 0..length {
            let cut = self.ran(alloc, words, usize::MAX, room)?;
            if !cut.is_cut_at_err(whole, room) {
                return cut.text_of_room(alloc, room);
            }
        }
        format!(in alloc; "{length}")
    }

    /// Sets standard input, which is written in hexadecimal digits with spaces for reading.
    fn set_input(&mut self, alloc: Global, digits: &str) -> Result<bool, AllocError> {
        match octets_in(alloc, digits)? {
            Some(octets) => {
                self.input = octets;
                Ok(true)
            }
            None => Ok(false),
        }
    }

    /// Sets a number: `ample` means one that is never reached.
    fn set_number(&mut self, name: &str, text: &str) -> bool {
        let number = match text {
            "ample" => usize::MAX,
            digits => match digits.parse::<usize>() {
                Ok(number) => number,
                Err(_) => return false,
            },
        };
        match name {
            "since" => self.files.begin(number),
            "refuse" => self.files.refuse(number),
            "pieces" => self.size = number,
            "reads" => self.reads = number,
            "out" => self.out = number,
            "err" => self.err = number,
            "shows" => self.shows = number,
            _ => return false,
        }
        true
    }
}

fn asked_by(text: &str) -> Option<Asked> {
    match text {
        "all" => Some(Asked::All),
        "first lines" => Some(Asked::FirstLines),
        "each out" => Some(Asked::EachOut),
        "each err" => Some(Asked::EachErr),
        "last text" => Some(Asked::LastText),
        "each text" => Some(Asked::EachText),
        _ => None,
    }
}

impl<P: Program> Layer for Programs<P> {
    fn new(alloc: Global) -> Programs<P> {
        Programs {
            program: P::new(),
            asked: Asked::All,
            files: Entries::new(alloc),
            input: Vec::new(alloc),
            size: usize::MAX,
            reads: usize::MAX,
            out: usize::MAX,
            err: usize::MAX,
            shows: usize::MAX,
        }
    }

    fn answer(&mut self, alloc: Global, input: &[u8]) -> Result<String, AllocError> {
        let words = words_of(alloc, text_of(input))?;
        match self.asked {
            Asked::EachOut => self.each_out(alloc, &words),
            Asked::EachErr => self.each_err(alloc, &words),
            asked => self
                .ran(alloc, &words, self.out, self.err)?
                .answer(alloc, asked),
        }
    }

    /// `@file:PATH TEXT`; `@ask all`, `@ask first lines`, `@ask each out`, `@ask each err`, `@ask last text`, `@ask each
    /// text`; `@input DIGITS`; and the numbers `@since`, `@refuse`, `@pieces`, `@reads`, `@out`, `@err`, `@shows`.
    fn set(&mut self, alloc: Global, name: &str, text: &[u8]) -> Result<String, AllocError> {
        if let Some(path) = name.strip_prefix("file:") {
            self.files.add(alloc, path, text)?;
            return String::from_str(alloc, "ok");
        }
        let is_set = match name {
            "ask" => match asked_by(text_of(text)) {
                Some(asked) => {
                    self.asked = asked;
                    true
                }
                None => false,
            },
            "input" => self.set_input(alloc, text_of(text))?,
            name => self.set_number(name, text_of(text)),
        };
        String::from_str(alloc, if is_set { "ok" } else { "unknown" })
    }
}
