//! What more is said of a fault of a module, by the octets at its place.
ghost use Rattle.std.specs.Prelude.{◌≡◌};
ghost use Rattle.guard_notes.specs.TextNotes.{octets_at, octet, is_curly_quote, is_dash, begins_comment, octet_line};
ghost use Rattle.guard_notes.specs.TextNotes.{character_line};

use crate::marking::{line_at, place_of};
use guard_model::Site;

/// The octets at a place of a text, to the end of the line.
pub fn octets_at<'a>(text: &'a [u8], site: &Site) -> &'a [u8]
    ensures { result.now ≡ octets_at site.now text.now }
{
    let line = line_at(text, site.line);
    let (_, rest) = line.split_at(place_of(line, site.column));
    rest
}

/// What the character is, at which no token begins.
pub fn character_line(rest: &[u8]) -> &'static str
    ensures { result.now ≡ character_line rest.now }
{
    if rest.starts_with(b"\xEF\xBB\xBF") {
        "  This is a byte order mark. Save the file without one.\n"
    } else if is_curly_quote(rest) {
        "  This is a typographic quote. Write a straight one, \" or '.\n"
    } else if is_dash(rest) {
        "  This is a typographic dash. Write a hyphen, -.\n"
    } else if rest.starts_with(b"\xC2\xA0") {
        "  This is a no-break space. Write a blank.\n"
    } else if begins_comment(rest) {
        "  A comment begins with two hyphens. Write --.\n"
    } else {
        octet_line(octet(rest, 0))
    }
}

fn octet_line(octet: u8) -> &'static str
    ensures { result.now ≡ octet_line octet }
{
    if 128 <= octet {
        "  This character is not in ASCII. Only comments and strings may have such.\n"
    } else if octet == b'_' {
        "  A name has no low line. Write a hyphen, -.\n"
    } else if octet == b'=' {
        "  An equals sign assigns nothing. Write ::=.\n"
    } else if octet.is_ascii_digit() {
        "  A digit comes after the number 0. Numbers have no leading zeros.\n"
    } else {
        ""
    }
}

/// U+2018 to U+201F.
fn is_curly_quote(rest: &[u8]) -> bool
    ensures { result ≡ is_curly_quote rest.now }
{
    rest.starts_with(b"\xE2\x80") && 152 <= octet(rest, 2) && octet(rest, 2) <= 159
}

/// U+2010 to U+2015.
fn is_dash(rest: &[u8]) -> bool
    ensures { result ≡ is_dash rest.now }
{
    rest.starts_with(b"\xE2\x80") && 144 <= octet(rest, 2) && octet(rest, 2) <= 149
}

/// Whether a comment would begin here in other notations: `#` or `//`.
fn begins_comment(rest: &[u8]) -> bool
    ensures { result ≡ begins_comment rest.now }
{
    rest.starts_with(b"#") || rest.starts_with(b"//")
}

/// The octet at a place, and 0 where there is none.
fn octet(rest: &[u8], place: usize) -> u8
    ensures { result ≡ octet place rest.now }
{
    match rest.get(place) {
        Some(octet) => *octet,
        None => 0,
    }
}
