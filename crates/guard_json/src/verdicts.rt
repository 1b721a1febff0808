//! The members of verdicts.
ghost use Rattle.std.specs.Prelude.{map, []};
ghost use Rattle.guard_json.specs.Members.{breach_in, violation_in, shortfall_in, shortfalls_in, pieces_from, all_of, details_by, verdict_in, pair_in, verdicts_in};
ghost use Rattle.guard_json.specs.inside.Drafting.{Adds};

use crate::cutting::{behind, but_last_two, from, is, last_two, place_of, up_to};
use crate::draft::Draft;
use crate::kinds::VerdictKind;
use json::Token;

/// Adds what is said of a message: one verdict, or where there is a `>` those of two policies.
pub fn add_verdicts(draft: &mut Draft, text: &[u8])
    ensures { Adds draft.old draft.new (verdicts_in text.now) }
{
    if place_of(b'>', text) == text.len() {
        add_verdict(draft, text);
    } else {
        add_pair(draft, text);
    }
}

/// Adds two verdicts, with `->` between.
fn add_pair(draft: &mut Draft, text: &[u8])
    ensures { Adds draft.old draft.new (pair_in text.now) }
{
    let old = up_to(b'>', text);
    let new = behind(b'>', text);
    draft.only_where(is(last_two(old), " -"));
    draft.only_where(place_of(b' ', new) == 0);
    draft.put(Token::Key("old"));
    draft.put(Token::BeginObject);
    add_verdict(draft, but_last_two(old));
    draft.put(Token::EndObject);
    draft.put(Token::Key("new"));
    draft.put(Token::BeginObject);
    add_verdict(draft, behind(b' ', new));
    draft.put(Token::EndObject);
}

/// Adds a verdict.
pub fn add_verdict(draft: &mut Draft, text: &[u8])
    ensures { Adds draft.old draft.new (verdict_in text.now) }
{
    draft.name("verdict", up_to(b' ', text));
    add_details(draft, VerdictKind::of(text), text);
}

fn add_details(draft: &mut Draft, kind: VerdictKind, text: &[u8])
    ensures { Adds draft.old draft.new (details_by kind text.now) }
{
    match kind {
        VerdictKind::Alone => {}
        VerdictKind::Undecodable => add_breach(draft, behind(b' ', text)),
        VerdictKind::OutsideType => add_violation(draft, behind(b' ', text)),
        VerdictKind::DeniedBy => draft.name("rule", behind(b' ', text)),
        VerdictKind::NotAllowed => add_shortfalls(draft, from(b' ', text)),
        VerdictKind::Unknown => draft.only_where(false),
    }
}

/// Adds `CODE at OFFSET PATH`.
fn add_breach(draft: &mut Draft, text: &[u8])
    ensures { Adds draft.old draft.new (breach_in text.now) }
{
    let at = behind(b' ', text);
    let rest = behind(b' ', at);
    draft.name("code", up_to(b' ', text));
    draft.only_where(is(up_to(b' ', at), "at"));
    draft.number("offset", up_to(b' ', rest));
    draft.path("path", behind(b' ', rest));
}

/// Adds `MODULE:LINE:COLUMN PATH`.
fn add_violation(draft: &mut Draft, text: &[u8])
    ensures { Adds draft.old draft.new (violation_in text.now) }
{
    let line = behind(b':', text);
    let column = behind(b':', line);
    draft.name("module", up_to(b':', text));
    draft.number("line", up_to(b':', line));
    draft.number("column", up_to(b' ', column));
    draft.path("path", behind(b' ', column));
}

/// Adds ` RULE MODULE:LINE:COLUMN PATH`, a rule and why it doesn't allow the message.
fn add_shortfall(draft: &mut Draft, text: &[u8])
    ensures { Adds draft.old draft.new (shortfall_in text.now) }
{
    let rule = behind(b' ', text);
    draft.only_where(place_of(b' ', text) == 0);
    draft.put(Token::BeginObject);
    draft.name("rule", up_to(b' ', rule));
    add_violation(draft, behind(b' ', rule));
    draft.put(Token::EndObject);
}

/// Adds each rule that doesn't allow the message.
fn add_shortfalls(draft: &mut Draft, text: &[u8])
    ensures { Adds draft.old draft.new (shortfalls_in text.now) }
{
    draft.put(Token::Key("violations"));
    draft.put(Token::BeginArray);
    add_pieces(draft, text);
    draft.put(Token::EndArray);
}

/// Adds what stands between commas.
fn add_pieces(draft: &mut Draft, text: &[u8])
    ensures { Adds draft.old draft.new (all_of (map shortfall_in (pieces_from [] text.now))) }
{
    let mut start = 0;
    for (place, octet) in text.iter().enumerate() {
        if *octet == b',' {
            add_shortfall(draft, &text[start..place]);
            start = place + 1;
        }
    }
    add_shortfall(draft, &text[start..]);
}
