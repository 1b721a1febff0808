//! Long texts under alphabets of many ranges: of one window of codes after the other, a table says which the ranges
//! have. So a text costs no pass over the ranges for each of its characters, in whatever order they and the ranges are.
ghost use Rattle.std.specs.Prelude.{◌≡◌, ◌+◌, ◌<◌, ◌≤◌, ◌||◌, ℕ, true, false, length, get_or, chars, IfSome};
ghost use Rattle.std.specs.Int.{is_in_range};
ghost use Rattle.std.specs.List.{list_all};
ghost use Rattle.guard_eval.specs.Elements.{is_in_some};
ghost use Rattle.guard_eval.specs.inside.Windows.{is_clear, is_kept};

/// How many codes a window has.
const WINDOW: usize = 1024;

/// Whether the code of each character of the text is in one of the ranges, both ends in (X.680 51.7).
pub fn are_permitted_by_windows(ranges: &[(u32, u32)], text: &str) -> bool
    ensures { result ≡ list_all (is_in_some ranges.now) (chars text.now) }
{
    let mut begin: usize = 0;
    while let Some(first) = next_code(begin, text) {
        if !are_kept(codes_from(first, ranges).as_slice(), first, text) {
            return false;
        }
        begin = first as usize + WINDOW;
    }
    true
}

/// The least code of the text that isn't below `begin`; None where all are below it.
fn next_code(begin: usize, text: &str) -> Option<u32>
    ensures clear { list_all (is_clear begin result) (chars text.now) ≡ true }
    ensures from { IfSome result (λ first. begin ≤ first) }
{
    let mut next = None;
    for character in text.chars() {
        next = nearer(begin, next, u32::from(character));
    }
    next
}

/// The lesser of both codes; a code below `begin` doesn't count.
fn nearer(begin: usize, next: Option<u32>, code: u32) -> Option<u32>
    ensures kept { (c : ℕ) → is_clear begin next c ≡ true → is_clear begin result c ≡ true }
    ensures clear { is_clear begin result code ≡ true }
    ensures from { IfSome next (λ first. begin ≤ first) → IfSome result (λ first. begin ≤ first) }
{
    if (code as usize) < begin {
        return next;
    }
    match next {
        Some(next) => Some(next.min(code)),
        None => Some(code),
    }
}

/// Of each code of the window from the first one on, whether it is in one of the ranges. A range that has the whole
/// window says all at once; any other one begins or ends there, so a range is marked in two windows at most.
fn codes_from(first: u32, ranges: &[(u32, u32)]) -> [bool; WINDOW]
    ensures whole { length result ≡ 1024 }
    ensures marked { (place : ℕ) → place < 1024 → get_or result place false ≡ is_in_some ranges.now (first + place) }
{
    let mut known = [false; WINDOW];
    for (low, high) in ranges {
        if *low <= first && first as usize + WINDOW <= *high as usize {
            return [true; WINDOW];
        }
        mark(&mut known, first as usize, *low, *high);
    }
    known
}

/// Marks the codes of a range, as far as the table has them: the place of a code is its distance from `begin`.
pub fn mark(known: &mut [bool], begin: usize, low: u32, high: u32)
    ensures whole { length known.new ≡ length known.old }
    ensures marked { (place : ℕ) → place < length known.old →
        get_or known.new place false ≡ (get_or known.old place false || is_in_range low high (begin + place)) }
{
    let start = (low as usize).saturating_sub(begin);
    let end = known.len().min((high as usize + 1).saturating_sub(begin));
    for place in start..end {
        known[place] = true;
    }
}

/// Whether each character that the table has is marked there.
fn are_kept(known: &[bool], first: u32, text: &str) -> bool
    ensures { result ≡ list_all (is_kept known.now first) (chars text.now) }
{
    for character in text.chars() {
        if !is_kept(known, first, u32::from(character)) {
            return false;
        }
    }
    true
}

/// Whether the code is marked, or out of the table.
fn is_kept(known: &[bool], first: u32, code: u32) -> bool
    ensures { result ≡ is_kept known.now first code }
{
    if code < first {
        return true;
    }
    match known.get((code - first) as usize) {
        Some(is_known) => *is_known,
        None => true,
    }
}
