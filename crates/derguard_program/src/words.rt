//! The words of the command line. `clap` splits them.
ghost use Rattle.std.specs.Prelude.{◌≡◌, List, Some, codes, false, map, option_map, string_bytes, IfOk, IfErr};
ghost use Rattle.clap.specs.Words.{HasKind, Row, Text, app_of, fault_of, first_of, found_of};
ghost use Rattle.clap.specs.Words.{rows_of, shape_of, subcommand_rows_of};
ghost use Rattle.guard_messages.specs.Questions.{question_view};
ghost use Rattle.guard_authors.specs.Comparing.{comparing_view};
ghost use Rattle.guard_authors.specs.Encodes.{encoding_view};
ghost use Rattle.guard_authors.specs.Testing.{trial_view};
ghost use Rattle.derguard_program.specs.Requests.{AbstractRequest, request_view};
ghost use Rattle.derguard_program.specs.Words.{AreFound, IsCommand, ask_shape, check_shape, compare_shape};
ghost use Rattle.derguard_program.specs.Words.{comparing_at, decide_shape, decision_at, encode_shape, encoding_at};
ghost use Rattle.derguard_program.specs.Words.{flag_of, flag_rule, free_option_rule, free_place_rule, free_rule};
ghost use Rattle.derguard_program.specs.Words.{mux_shape, option_rule, place_rule, required_rule, run_shape};
ghost use Rattle.derguard_program.specs.Words.{show_shape, showing_at, test_shape, the_app, trial_at, value_of};
ghost use Rattle.derguard_program.specs.inside.Arguments.{IsArg};

use crate::help::{
    ABOUT, ASK_EXAMPLE, BY_PLACE, CHECK_EXAMPLE, COMPARE_EXAMPLE, COUNTS, DECIDE_EXAMPLE, DIGITS,
    ENCODE_EXAMPLE, EXAMPLE, IN_FILE, IN_FRAME, IN_LINK, JSON, MESSAGE_NAME, MUX_EXAMPLE, OF_LINK,
    RUN_EXAMPLE, SHOW_EXAMPLE, SUMMARY, TEST_EXAMPLE, VALUE_AS_JSON, VERBOSE,
};
use crate::request::Request;
use clap::{Arg, ArgAction, ArgMatches, Command, Error};
use guard_authors::{Checking, Comparing, Encoding, Trial};
use guard_messages::Question;
use std::alloc::{AllocError, Global};

/// The program's version. Nothing else of the code says it.
pub const VERSION: &str = "0.1.0";

/// What the words ask for, in which the options of a message are joined with their values, and whether lines are to be
/// JSON; the first word is the program's name. Help is an error of `clap` too, of its own kind.
pub fn request_in<'a>(alloc: Global, words: &'a [String]) -> Result<(Request<'a>, bool), Error>
    ensures asked { IfOk result (λ p. AreFound (map string_bytes words.now) (request_view p.0) p.1) }
    ensures refused { IfErr result (HasKind (fault_of the_app (map string_bytes words.now))) }
{
    let matches = command(alloc)?.try_get_matches_from(words)?;
    Ok((request_of(&matches), asks_json(&matches)))
}

/// Whether lines are to be JSON.
fn asks_json(matches: &ArgMatches) -> bool
    ensures { (name : Text) (rows : List Row) → subcommand_rows_of matches.now ≡ Some (name, rows)
        → result ≡ flag_of (codes "json") rows }
{
    match matches.subcommand() {
        Some((_, found)) => flag(found, "json"),
        None => false,
    }
}

/// What was matched. A command and its policy are required, so they are there.
fn request_of<'a>(matches: &ArgMatches<'a>) -> Request<'a>
    requires { (name : Text) × (rows : List Row) × (subcommand_rows_of matches.now ≡ Some (name, rows)) }
    ensures { (name : Text) (rows : List Row) (request : AbstractRequest)
        → subcommand_rows_of matches.now ≡ Some (name, rows)
        → IsCommand name rows request → request_view result ≡ request }
{
    match matches.subcommand() {
        Some(("check", found)) => Request::Check(Checking {
            policy: text(found, "policy"),
            explain: flag(found, "explain"),
            strict: flag(found, "strict"),
            digest: flag(found, "digest"),
        }),
        Some(("show", found)) => Request::Show(question_to_show(found)),
        Some(("encode", found)) => Request::Encode(encoding_of(found)),
        Some(("test", found)) => Request::Test(trial_of(found)),
        Some(("compare", found)) => Request::Compare(comparing_of(found)),
        Some(("run", found)) => Request::Run {
            policy: text(found, "policy"),
            verbose: flag(found, "verbose"),
            counts: given(found, "counts"),
        },
        Some(("ask", found)) => Request::Ask {
            policy: text(found, "policy"),
        },
        Some(("mux", found)) => Request::Mux {
            policy: text(found, "policy"),
            verbose: flag(found, "verbose"),
            counts: given(found, "counts"),
        },
        Some((_, found)) => Request::Decide(question_to_decide(found)),
        None => unreachable!(),
    }
}

/// What `decide` asks for. The policy is required, so it is there.
fn question_to_decide<'a>(found: &ArgMatches<'a>) -> Question<'a>
    ensures { question_view result ≡ decision_at (rows_of (found_of found.now)) }
{
    Question {
        policy: text(found, "policy"),
        from: given(found, "from"),
        to: given(found, "to"),
        message: given(found, "message"),
        hex: given(found, "hex"),
        der: given(found, "der"),
        frame: given(found, "frame"),
        link: given(found, "link"),
        explain: flag(found, "explain"),
        capture: false,
        json: false,
    }
}

/// What `show` asks for, which takes no sender and no receiver.
fn question_to_show<'a>(found: &ArgMatches<'a>) -> Question<'a>
    ensures { question_view result ≡ showing_at (rows_of (found_of found.now)) }
{
    Question {
        from: None,
        to: None,
        capture: flag(found, "capture"),
        json: flag(found, "json"),
        ..question_to_decide(found)
    }
}

/// What `encode` asks for. The policy and the message's name are required, so they are there.
fn encoding_of<'a>(found: &ArgMatches<'a>) -> Encoding<'a>
    ensures { encoding_view result ≡ encoding_at (rows_of (found_of found.now)) }
{
    Encoding {
        policy: text(found, "policy"),
        message: text(found, "message"),
        value: given(found, "value"),
        from: given(found, "from"),
        to: given(found, "to"),
        der: flag(found, "der"),
    }
}

/// What `test` asks for. The policy is required, so it is there.
fn trial_of<'a>(found: &ArgMatches<'a>) -> Trial<'a>
    ensures { trial_view result ≡ trial_at (rows_of (found_of found.now)) }
{
    Trial {
        policy: text(found, "policy"),
        cases: given(found, "cases"),
        cover: flag(found, "cover"),
        explain: flag(found, "explain"),
    }
}

/// What `compare` asks for. Both policies are required, so they are there.
fn comparing_of<'a>(found: &ArgMatches<'a>) -> Comparing<'a>
    ensures { comparing_view result ≡ comparing_at (rows_of (found_of found.now)) }
{
    Comparing {
        old: text(found, "old"),
        new: text(found, "new"),
        by_place: flag(found, "by-place"),
        summary: flag(found, "summary"),
        link: given(found, "link"),
    }
}

fn text<'a>(matches: &ArgMatches<'a>, id: &str) -> &'a str
    ensures value { result.now ≡ value_of id.now (rows_of (found_of matches.now)) }
    ensures given { (value : Text) → first_of id.now (rows_of (found_of matches.now)) ≡ Some value → result.now ≡ value }
{
    match matches.get_str(id) {
        Some(value) => value,
        None => "",
    }
}

/// The value, where it was given.
fn given<'a>(matches: &ArgMatches<'a>, id: &str) -> Option<&'a str>
    ensures { option_map (λ text. text.now) result ≡ first_of id.now (rows_of (found_of matches.now)) }
{
    matches.get_str(id)
}

/// Whether the flag was given.
fn flag(matches: &ArgMatches, id: &str) -> bool
    ensures { result ≡ flag_of id.now (rows_of (found_of matches.now)) }
{
    match matches.get_str(id) {
        Some(value) => value == "true",
        None => false,
    }
}

fn command<'a>(alloc: Global) -> Result<Command<'a>, AllocError>
    ensures { IfOk result (λ c. app_of c ≡ the_app) }
{
    Command::new(alloc, "derguard")
        .version(VERSION)
        .about(ABOUT)
        .after_help(EXAMPLE)
        .subcommand_required(true)
        .subcommand(check(alloc)?)?
        .subcommand(decide(alloc)?)?
        .subcommand(show(alloc)?)?
        .subcommand(encode(alloc)?)?
        .subcommand(test(alloc)?)?
        .subcommand(compare(alloc)?)?
        .subcommand(run(alloc)?)?
        .subcommand(ask(alloc)?)?
        .subcommand(mux(alloc)?)
}

fn check<'a>(alloc: Global) -> Result<Command<'a>, AllocError>
    ensures { IfOk result (λ c. shape_of c ≡ check_shape) }
{
    Command::new(alloc, "check")
        .about("Says whether a policy and its modules are accepted.")
        .after_help(CHECK_EXAMPLE)
        .arg(policy(alloc))?
        .arg(switch(
            alloc,
            "explain",
            "Lists the rules, or shows the place of a fault and what to do.",
        ))?
        .arg(switch(
            alloc,
            "strict",
            "Says what is remarked on standard error, with status 1 if anything is.",
        ))?
        .arg(switch(
            alloc,
            "digest",
            "Shows SHA-256 over the policy and its modules too; without the other options.",
        ))?
        .arg(switch(alloc, "json", JSON))
}

fn decide<'a>(alloc: Global) -> Result<Command<'a>, AllocError>
    ensures { IfOk result (λ c. shape_of c ≡ decide_shape) }
{
    Command::new(alloc, "decide")
        .about("Says what becomes of one message, and why.")
        .after_help(DECIDE_EXAMPLE)
        .arg(policy(alloc))?
        .arg(free_option(alloc, "from", "The sender's name."))?
        .arg(free_option(alloc, "to", "The receiver's name."))?
        .arg(free_option(alloc, "message", MESSAGE_NAME))?
        .arg(free_place(alloc, "hex", "HEX", DIGITS))?
        .arg(free_option(alloc, "der", IN_FILE))?
        .arg(free_option(alloc, "frame", IN_FRAME))?
        .arg(free_option(alloc, "link", IN_LINK))?
        .arg(switch(
            alloc,
            "explain",
            "Shows the constraint or the place of a fault, and what to do.",
        ))?
        .arg(switch(alloc, "json", JSON))
}

fn show<'a>(alloc: Global) -> Result<Command<'a>, AllocError>
    ensures { IfOk result (λ c. shape_of c ≡ show_shape) }
{
    Command::new(alloc, "show")
        .about("Shows the value of one message, as ASN.1 writes it.")
        .after_help(SHOW_EXAMPLE)
        .arg(policy(alloc))?
        .arg(free_option(alloc, "message", MESSAGE_NAME))?
        .arg(free_place(alloc, "hex", "HEX", DIGITS))?
        .arg(free_option(alloc, "der", IN_FILE))?
        .arg(free_option(alloc, "frame", IN_FRAME))?
        .arg(free_option(alloc, "link", IN_LINK))?
        .arg(switch(
            alloc,
            "capture",
            "With --frame: writes the frame itself, which is a capture of one, in place of its value.",
        ))?
        .arg(switch(
            alloc,
            "explain",
            "Shows the parts before what is wrong with the octets.",
        ))?
        .arg(switch(alloc, "json", VALUE_AS_JSON))
}

fn encode<'a>(alloc: Global) -> Result<Command<'a>, AllocError>
    ensures { IfOk result (λ c. shape_of c ≡ encode_shape) }
{
    Command::new(alloc, "encode")
        .about("Prints the octets of a value, written as ASN.1 writes it.")
        .after_help(ENCODE_EXAMPLE)
        .arg(policy(alloc))?
        .arg(option(alloc, "message", MESSAGE_NAME))?
        .arg(free_place(
            alloc,
            "value",
            "VALUE",
            "The value; without it, what standard input gives.",
        ))?
        .arg(free_option(alloc, "from", "The sender's name, for a frame."))?
        .arg(free_option(alloc, "to", "The receiver's name, for a frame."))?
        .arg(switch(alloc, "der", "Writes the octets themselves."))
}

fn test<'a>(alloc: Global) -> Result<Command<'a>, AllocError>
    ensures { IfOk result (λ c. shape_of c ≡ test_shape) }
{
    Command::new(alloc, "test")
        .about("Says which cases that are kept beside a policy don't come out as they should.")
        .after_help(TEST_EXAMPLE)
        .arg(policy(alloc))?
        .arg(free_place(
            alloc,
            "cases",
            "CASES",
            "The file of cases; without it, tests.toml beside the policy.",
        ))?
        .arg(switch(alloc, "cover", "Lists the rules that no case reaches."))?
        .arg(switch(
            alloc,
            "explain",
            "Shows where a file of cases is no TOML document, and what to do.",
        ))?
        .arg(switch(alloc, "json", JSON))
}

fn compare<'a>(alloc: Global) -> Result<Command<'a>, AllocError>
    ensures { IfOk result (λ c. shape_of c ≡ compare_shape) }
{
    Command::new(alloc, "compare")
        .about(
            "Says which frames have another verdict under a new policy than under an old one: frames from standard \
                input, a line for each that differs to standard output, and how many.",
        )
        .after_help(COMPARE_EXAMPLE)
        .arg(place(alloc, "old", "OLD", "The file of the policy in force."))?
        .arg(place(alloc, "new", "NEW", "The file of the new policy."))?
        .arg(switch(alloc, "by-place", BY_PLACE))?
        .arg(switch(alloc, "summary", SUMMARY))?
        .arg(free_option(alloc, "link", OF_LINK))?
        .arg(switch(alloc, "json", JSON))
}

fn run<'a>(alloc: Global) -> Result<Command<'a>, AllocError>
    ensures { IfOk result (λ c. shape_of c ≡ run_shape) }
{
    Command::new(alloc, "run")
        .about(
            "Guards a stream: frames from standard input, those that pass to standard output, a line for each other \
                one to standard error.",
        )
        .after_help(RUN_EXAMPLE)
        .arg(policy(alloc))?
        .arg(switch(alloc, "verbose", VERBOSE))?
        .arg(free_option(alloc, "counts", COUNTS))?
        .arg(switch(alloc, "json", JSON))
}

fn ask<'a>(alloc: Global) -> Result<Command<'a>, AllocError>
    ensures { IfOk result (λ c. shape_of c ≡ ask_shape) }
{
    Command::new(alloc, "ask")
        .about(
            "Says of each frame what becomes of it: frames from standard input, a line for each to standard output \
                before the next is read.",
        )
        .after_help(ASK_EXAMPLE)
        .arg(policy(alloc))?
        .arg(switch(alloc, "json", JSON))
}

fn mux<'a>(alloc: Global) -> Result<Command<'a>, AllocError>
    ensures { IfOk result (λ c. shape_of c ≡ mux_shape) }
{
    Command::new(alloc, "mux")
        .about(
            "Guards sixteen links in one stream of records: pieces and ends of links, and new policies, from \
                standard input; what passes in records to standard output, lines to standard error.",
        )
        .after_help(MUX_EXAMPLE)
        .arg(policy(alloc))?
        .arg(switch(alloc, "verbose", VERBOSE))?
        .arg(free_option(alloc, "counts", COUNTS))?
        .arg(switch(alloc, "json", JSON))
}

fn policy<'a>(alloc: Global) -> Arg<'a>
    ensures { IsArg (place_rule (codes "policy")) result }
{
    required(alloc, "policy").value_name("POLICY").help(
        "The file of the policy; module files are looked for beside it.",
    )
}

/// A word by itself that must be given.
fn place<'a>(alloc: Global, id: &'a str, name: &'a str, help: &'a str) -> Arg<'a>
    ensures { IsArg (place_rule id.entry.now) result }
{
    required(alloc, id).value_name(name).help(help)
}

/// A word by itself, which may be left out.
fn free_place<'a>(alloc: Global, id: &'a str, name: &'a str, help: &'a str) -> Arg<'a>
    ensures { IsArg (free_place_rule id.entry.now) result }
{
    free(alloc, id).value_name(name).help(help)
}

/// An option with one value.
fn option<'a>(alloc: Global, name: &'a str, help: &'a str) -> Arg<'a>
    ensures { IsArg (option_rule name.entry.now) result }
{
    required(alloc, name).long(name).help(help)
}

/// An option with one value, which may be left out.
fn free_option<'a>(alloc: Global, name: &'a str, help: &'a str) -> Arg<'a>
    ensures { IsArg (free_option_rule name.entry.now) result }
{
    free(alloc, name).long(name).help(help)
}

/// An option without a value, which may be left out.
fn switch<'a>(alloc: Global, name: &'a str, help: &'a str) -> Arg<'a>
    ensures { IsArg (flag_rule name.entry.now) result }
{
    Arg::new(alloc, name)
        .long(name)
        .action(ArgAction::SetTrue)
        .help(help)
}

/// An argument with one value, which may be left out.
fn free<'a>(alloc: Global, name: &'a str) -> Arg<'a>
    ensures { IsArg (free_rule name.entry.now) result }
{
    Arg::new(alloc, name).action(ArgAction::Set)
}

fn required<'a>(alloc: Global, name: &'a str) -> Arg<'a>
    ensures { IsArg (required_rule name.entry.now) result }
{
    Arg::new(alloc, name).required(true).action(ArgAction::Set)
}
