//! Parts of a line, and which of them are numbers, paths and codes.
ghost use Rattle.std.specs.Prelude.{◌≡◌, ◌≤◌, ◌==◌, bytes_eq, length, position};
ghost use Rattle.guard_json.specs.Cutting.{place_of, up_to, from, behind, last_two, but_last_two, is_number, is_visible, is_path, is_code};
ghost use Rattle.std.specs.Char.{is_ascii_digit};
ghost use Rattle.std.specs.List.{list_all};

/// Where the first mark is in the text, or the text's length.
pub fn place_of(mark: u8, text: &[u8]) -> usize
    ensures place { result ≡ place_of mark text.now }
    ensures within { result ≤ length text.now }
{
    find(mark, text).unwrap_or(text.len())
}

fn find(mark: u8, text: &[u8]) -> Option<usize>
    ensures { result ≡ position (λ c. c == mark) text.now }
{
    text.iter().position(|octet| *octet == mark)
}

/// What stands before the first mark in the text, or all of the text.
pub fn up_to(mark: u8, text: &[u8]) -> &[u8]
    ensures { result.now ≡ up_to mark text.now }
{
    &text[..place_of(mark, text)]
}

/// The first mark in the text and what comes after it.
pub fn from(mark: u8, text: &[u8]) -> &[u8]
    ensures { result.now ≡ from mark text.now }
{
    &text[place_of(mark, text)..]
}

/// What comes after the first mark in the text; nothing where there is none.
pub fn behind(mark: u8, text: &[u8]) -> &[u8]
    ensures { result.now ≡ behind mark text.now }
{
    let place = place_of(mark, text);
    if place < text.len() {
        &text[place + 1..]
    } else {
        &text[place..]
    }
}

/// The last two octets of the text, or all where there are fewer.
pub fn last_two(text: &[u8]) -> &[u8]
    ensures { result.now ≡ last_two text.now }
{
    &text[text.len().saturating_sub(2)..]
}

/// All but the last two octets of the text.
pub fn but_last_two(text: &[u8]) -> &[u8]
    ensures { result.now ≡ but_last_two text.now }
{
    &text[..text.len().saturating_sub(2)]
}

/// Whether the text is this word.
pub fn is(text: &[u8], word: &str) -> bool
    ensures { result ≡ bytes_eq text.now word.now }
{
    text == word.as_bytes()
}

/// Whether this is a number in decimal digits, without a 0 in front.
pub fn is_number(word: &[u8]) -> bool
    ensures { result ≡ is_number word.now }
{
    match word.split_first() {
        Some((first, rest)) => {
            first.is_ascii_digit()
                && if *first == b'0' {
                    rest.is_empty()
                } else {
                    are_digits(rest)
                }
        }
        None => false,
    }
}

fn are_digits(octets: &[u8]) -> bool
    ensures { result ≡ list_all is_ascii_digit octets.now }
{
    octets.iter().all(|octet| octet.is_ascii_digit())
}

/// Whether this is a path: `$` and what is printed, without a blank.
pub fn is_path(word: &[u8]) -> bool
    ensures { result ≡ is_path word.now }
{
    match word.split_first() {
        Some((first, rest)) => *first == b'$' && are_visible(rest),
        None => false,
    }
}

fn are_visible(octets: &[u8]) -> bool
    ensures { result ≡ list_all is_visible octets.now }
{
    octets.iter().all(|octet| octet.is_ascii_graphic())
}

/// Whether this is a fault's code: a capital letter and a number.
pub fn is_code(word: &[u8]) -> bool
    ensures { result ≡ is_code word.now }
{
    match word.split_first() {
        Some((first, rest)) => first.is_ascii_uppercase() && is_number(rest),
        None => false,
    }
}
