//! Which cases that are kept beside a policy come out as they should.
ghost use Rattle.std.specs.Prelude.{◌≡◌, ◌++◌, option_map, string_bytes, IfOk, IfErr, OnOk, IsTrue};
ghost use Rattle.toml.specs.Data.{Items};
ghost use Rattle.toml.specs.View.{items_view};
ghost use Rattle.guard_der.specs.Sound.{is_sound};
ghost use Rattle.guard_model.specs.TypeView.{type_view};
ghost use Rattle.guard_policy.specs.Documents.{IsNoDocument};
ghost use Rattle.guard_policy.specs.Policies.{declared_message};
ghost use Rattle.guard_policy.specs.PolicyView.{policy_view, route_view};
ghost use Rattle.guard_policy.specs.SaidView.{said_message_view};
ghost use Rattle.guard_files.specs.Answers.{answer_view};
ghost use Rattle.guard_files.specs.Devices.{device_of};
ghost use Rattle.guard_files.specs.Reading.{loaded_view};
ghost use Rattle.guard_authors.specs.Cases.{case_view, SaysCases, IsCasesFault};
ghost use Rattle.guard_authors.specs.Testing.{AreTried, ResultOfDigits, ResultOfOctets, ResultOfText, ResultOfValue};
ghost use Rattle.guard_authors.specs.Testing.{IsCaseResult, IsTested, TestsFile, TestsPolicy, TestsText};
ghost use Rattle.guard_authors.specs.Testing.{case_result_view, trial_view};
ghost use Rattle.guard_authors.specs.Testing.{case_line, case_route};
ghost use Rattle.guard_authors.specs.Testing.{cases_path, differing_line, digits_in, failures, is_blank, is_wanted};
ghost use Rattle.guard_authors.specs.Testing.{last_text, name_text, only, tested_status};
ghost use Rattle.guard_authors.specs.inside.Caseless.{OfFault};

use crate::cases::{Case, CasesFault, case_in, case_text, cases_of, document, tell_no_document};
use crate::no_value::no_value_text;
use crate::reached::{cover_lines, reached};
use crate::written::encoded;
use guard_files::{
    Answer, Files, Loaded, add, first_word, read, tell, tell_no_memory, tell_text, write,
};
use guard_frames::Sink;
use guard_model::OutOfMemory;
use guard_notes::beside;
use guard_policy::{Policy, Route, SaidMessage};
use guard_report::verdict_text;
use guard_schema::SchemaFault;
use hex::FromHexError;
use std::alloc::{AllocError, Global};
use toml::Value;

/// The file of cases, where none is given.
const CASES: &str = "tests.toml";

/// Which cases are tried, and what is said besides.
#[derive(Clone, Copy, Debug, PartialEq, Eq)]
pub struct Trial<'a> {
    pub policy: &'a str,
    /// The path of the file of cases, or else it is beside the policy.
    pub cases: Option<&'a str>,
    /// Whether the rules that no case reaches are listed.
    pub cover: bool,
    /// Whether it is shown where the file of cases is no document.
    pub explain: bool,
}

/// Writes a line for each case that doesn't come out as it should, how many there are, and to cover them a line for
/// each rule that none reaches. It answers the status: 0; 1 where some cases don't; 2 where there is no policy at the
/// path, or no cases at theirs; 3 where a device failed or memory ran out.
pub fn test<F: Files, O: Sink, E: Sink>(
    alloc: Global,
    asked: &Trial,
    files: &mut F,
    out: &mut O,
    err: &mut E,
) -> u8
    ensures { TestsPolicy (F.told files.old) (trial_view asked.now) (device_of O.taken O.has_failed out.old out.new)
        (device_of E.taken E.has_failed err.old err.new) result }
{
    let (mut texts, mut trees) = (None, Vec::new(alloc));
    match Loaded::at(alloc, asked.policy, false, files, &mut texts, &mut trees) {
        Ok(loaded) => test_beside(alloc, &loaded, asked, files, out, err),
        Err(refusal) => tell(alloc, &refusal.fault, err),
    }
}

fn test_beside<F: Files, O: Sink, E: Sink>(
    alloc: Global,
    loaded: &Loaded,
    asked: &Trial,
    files: &mut F,
    out: &mut O,
    err: &mut E,
) -> u8
    ensures { TestsFile (loaded_view loaded.now) (trial_view asked.now) (F.told files.old)
        (cases_path (trial_view asked.now).policy (trial_view asked.now).cases)
        (device_of O.taken O.has_failed out.old out.new)
        (device_of E.taken E.has_failed err.old err.new) result }
{
    match cases_path(alloc, asked.policy, asked.cases) {
        Ok(place) => test_file(alloc, loaded, &place, asked, files, out, err),
        Err(_) => tell_no_memory(err),
    }
}

/// The path of the file of cases: beside the policy where none is given.
fn cases_path(alloc: Global, policy: &str, cases: Option<&str>) -> Result<String, AllocError>
    ensures { IfOk result (λ path. string_bytes path
        ≡ cases_path policy.now (option_map (λ cases. cases.now) cases.entry)) }
{
    match cases {
        Some(path) => String::from_str(alloc, path),
        None => beside(alloc, policy, CASES),
    }
}

fn test_file<F: Files, O: Sink, E: Sink>(
    alloc: Global,
    loaded: &Loaded,
    path: &str,
    asked: &Trial,
    files: &mut F,
    out: &mut O,
    err: &mut E,
) -> u8
    ensures { TestsFile (loaded_view loaded.now) (trial_view asked.now) (F.told files.old) path.now
        (device_of O.taken O.has_failed out.old out.new)
        (device_of E.taken E.has_failed err.old err.new) result }
{
    match read(alloc, path, files) {
        Ok(text) => test_text(alloc, loaded, path, &text, asked, out, err),
        Err(fault) => tell(alloc, &fault, err),
    }
}

fn test_text<O: Sink, E: Sink>(
    alloc: Global,
    loaded: &Loaded,
    path: &str,
    text: &[u8],
    asked: &Trial,
    out: &mut O,
    err: &mut E,
) -> u8
    ensures { TestsText (loaded_view loaded.now) (trial_view asked.now) path.now text.now
        (device_of O.taken O.has_failed out.old out.new)
        (device_of E.taken E.has_failed err.old err.new) result }
{
    match tested(alloc, loaded, text, asked.cover) {
        Ok(answer) => write(&answer.out, answer.status, out, err),
        Err(CasesFault::NoDocument) => tell_no_document(alloc, path, text, asked.explain, err),
        Err(CasesFault::BadFile(fault)) => tell_text(alloc, &fault, 2, err),
        Err(CasesFault::NoMemory) => tell_no_memory(err),
    }
}

/// What is answered to the cases that the text says.
fn tested(alloc: Global, loaded: &Loaded, text: &[u8], cover: bool) -> Result<Answer, CasesFault>
    ensures tested { IfOk result (λ a. (ds : Items) × SaysCases text.now ds
        × IsTested (loaded_view loaded.now) cover ds (answer_view a)) }
    ensures none { IfErr result (OfFault (IsNoDocument text.now) (IsCasesFault text.now)) }
{
    let top = document(alloc, text)?;
    let items = cases_of(alloc, &top)?;
    match answer_of(alloc, loaded, items, cover) {
        Ok(answer) => Ok(answer),
        Err(_) => Err(CasesFault::NoMemory),
    }
}

fn answer_of(
    alloc: Global,
    loaded: &Loaded,
    items: &[Value],
    cover: bool,
) -> Result<Answer, OutOfMemory>
    ensures { IfOk result (λ a. IsTested (loaded_view loaded.now) cover (items_view items.now) (answer_view a)) }
{
    let tried = tried(alloc, loaded, items)?;
    let last = last_text(alloc, items.len(), tried.failed)?;
    let unreached = cover_lines(alloc, cover, &loaded.policy, &tried.reached)?;
    let mut out = tried.lines;
    add(&mut out, last.as_bytes())?;
    add(&mut out, &unreached)?;
    Ok(Answer {
        out,
        status: tested_status(tried.failed),
    })
}

/// What comes of cases: the lines of those that fail, how many these are, and the numbers of the rules that are
/// reached.
#[derive(Drop)]
pub struct Outcome {
    pub lines: Vec<u8>,
    pub failed: usize,
    pub reached: Vec<usize>,
}

fn tried(alloc: Global, loaded: &Loaded, items: &[Value]) -> Result<Outcome, OutOfMemory>
    ensures { IfOk result (λ r. AreTried (loaded_view loaded.now) 1 (items_view items.now) r.lines.items r.failed
        r.reached.items) }
{
    let mut lines = Vec::new(alloc);
    let mut failed = 0;
    let mut reached = Vec::new(alloc);
    for (place, item) in items.iter().enumerate() {
        let case = case_in(item);
        let came = result_of(alloc, loaded, &case)?;
        failed += add_case(alloc, &mut lines, place + 1, &case, &came.text)?;
        reached.extend_from_slice(&came.reached)?;
    }
    Ok(Outcome {
        lines,
        failed,
        reached,
    })
}

fn last_text(alloc: Global, all: usize, failed: usize) -> Result<String, AllocError>
    ensures { IfOk result (λ text. string_bytes text ≡ last_text all failed) }
{
    if failed == 0 {
        format!(in alloc; "ok: cases {all}\n")
    } else {
        format!(in alloc; "failed: {failed} of {all}\n")
    }
}

fn tested_status(failed: usize) -> u8
    ensures { result ≡ tested_status failed }
{
    if failed == 0 { 0 } else { 1 }
}

// ---- a line

/// Adds the line of a case that fails, and answers how many do.
fn add_case(
    alloc: Global,
    lines: &mut Vec<u8>,
    number: usize,
    case: &Case,
    came: &[u8],
) -> Result<usize, OutOfMemory>
    ensures line { OnOk result (lines.new.items ≡ lines.old.items ++ case_line number (case_view case.now) came.now) }
    ensures failures { IfOk result (λ n. n ≡ failures (case_view case.now) came.now) }
{
    if is_wanted(case.verdict.as_bytes(), came) {
        return Ok(0);
    }
    add_differing(alloc, lines, number, case, came)?;
    Ok(1)
}

fn add_differing(
    alloc: Global,
    lines: &mut Vec<u8>,
    number: usize,
    case: &Case,
    came: &[u8],
) -> Result<(), OutOfMemory>
    ensures { OnOk result (lines.new.items
        ≡ lines.old.items ++ differing_line number (case_view case.now) came.now) }
{
    let start = case_text(alloc, number)?;
    add(lines, start.as_bytes())?;
    add_name(lines, case.name)?;
    add(lines, b": wanted ")?;
    add(lines, case.verdict.as_bytes())?;
    add(lines, b", came ")?;
    add(lines, came)?;
    add(lines, b"\n")
}

fn add_name(lines: &mut Vec<u8>, name: Option<&str>) -> Result<(), OutOfMemory>
    ensures { OnOk result (lines.new.items ≡ lines.old.items ++ name_text (option_map (λ name. name.now) name.entry)) }
{
    match name {
        Some(name) => {
            add(lines, b" (")?;
            add(lines, name.as_bytes())?;
            add(lines, b")")
        }
        None => Ok(()),
    }
}

/// What came is what is wanted, or its first word is.
fn is_wanted(wanted: &[u8], came: &[u8]) -> bool
    ensures { result ≡ is_wanted wanted.now came.now }
{
    wanted == came || wanted == first_word(came)
}

// ---- what comes of a case

/// A text, and the numbers of the rules that the case reaches.
#[derive(Drop)]
pub struct CaseResult {
    pub text: Vec<u8>,
    pub reached: Vec<usize>,
}

/// A text in place of a verdict.
fn only(alloc: Global, text: Vec<u8>) -> CaseResult
    ensures { case_result_view result ≡ only text.items }
{
    CaseResult {
        text,
        reached: Vec::new(alloc),
    }
}

fn result_of(alloc: Global, loaded: &Loaded, case: &Case) -> Result<CaseResult, OutOfMemory>
    ensures { IfOk result (λ came. IsCaseResult (loaded_view loaded.now) (case_view case.now) (case_result_view came)) }
{
    let route = route_of(case);
    match case.octets {
        Some(digits) => result_of_digits(alloc, &loaded.policy, &route, digits),
        None => result_of_text(alloc, loaded, &route, case.value.unwrap_or("")),
    }
}

fn route_of<'a>(case: &Case<'a>) -> Route<'a>
    ensures { route_view result ≡ case_route (case_view case.now) }
{
    Route {
        from: case.from.as_bytes(),
        to: case.to.as_bytes(),
        message: case.message.as_bytes(),
    }
}

fn result_of_digits(
    alloc: Global,
    policy: &Policy,
    route: &Route,
    digits: &str,
) -> Result<CaseResult, OutOfMemory>
    ensures { IfOk result (λ came. ResultOfDigits (policy_view policy.now) (route_view route.now) digits.now
        (case_result_view came)) }
{
    let digits = digits_in(alloc, digits)?;
    match hex::decode(alloc, &digits) {
        Ok(octets) => result_of_octets(alloc, policy, route, &octets),
        Err(FromHexError::OutOfMemory) => Err(OutOfMemory),
        Err(_) => Ok(only(alloc, Vec::from_slice(alloc, b"bad hex")?)),
    }
}

/// The text without blanks and the ends of lines.
fn digits_in(alloc: Global, text: &str) -> Result<Vec<u8>, AllocError>
    ensures { IfOk result (λ digits. digits.items ≡ digits_in text.now) }
{
    let octets = text.as_bytes();
    let mut digits = Vec::new(alloc);
    for octet in octets {
        if !is_blank(*octet) {
            digits.push(*octet)?;
        }
    }
    Ok(digits)
}

fn is_blank(octet: u8) -> bool
    ensures { result ≡ is_blank octet }
{
    octet == b' ' || octet == b'\t' || octet == b'\n' || octet == b'\r'
}

fn result_of_text(
    alloc: Global,
    loaded: &Loaded,
    route: &Route,
    text: &str,
) -> Result<CaseResult, OutOfMemory>
    ensures { IfOk result (λ came. ResultOfText (loaded_view loaded.now) (route_view route.now)
        (declared_message (loaded_view loaded.now).policy (route_view route.now).message) text.now
        (case_result_view came)) }
{
    match loaded.policy.message(route.message) {
        Some(message) => result_of_value(alloc, loaded, route, &message, text.as_bytes()),
        None => Ok(only(alloc, Vec::from_slice(alloc, b"unknown-message")?)),
    }
}

fn result_of_value(
    alloc: Global,
    loaded: &Loaded,
    route: &Route,
    message: &SaidMessage,
    text: &[u8],
) -> Result<CaseResult, OutOfMemory>
    requires { IsTrue (is_sound (type_view message.now.ty.now)) }
    ensures { IfOk result (λ came. ResultOfValue (loaded_view loaded.now) (route_view route.now)
        (said_message_view message.now) text.now (case_result_view came)) }
{
    match encoded(alloc, &loaded.modules, message, text) {
        Ok((_, octets)) => result_of_octets(alloc, &loaded.policy, route, &octets),
        Err(SchemaFault::OutOfMemory) => Err(OutOfMemory),
        Err(fault) => Ok(only(alloc, no_value_text(alloc, &fault)?)),
    }
}

/// The text of the verdict on the octets, and the rules that they reach.
fn result_of_octets(
    alloc: Global,
    policy: &Policy,
    route: &Route,
    octets: &[u8],
) -> Result<CaseResult, OutOfMemory>
    ensures { IfOk result (λ came. ResultOfOctets (policy_view policy.now) (route_view route.now) octets.now
        (case_result_view came)) }
{
    let verdict = policy.verdict(alloc, route, octets)?;
    let reached = reached(alloc, policy, route, octets, &verdict)?;
    let text = verdict_text(alloc, &verdict, route, policy)?;
    Ok(CaseResult { text, reached })
}
