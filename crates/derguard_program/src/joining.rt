//! Options of a message, each made one word with its value.
ghost use Rattle.std.specs.Prelude.{◌≡◌, ◌<◌, ◌≤◌, ◌∷◌, drop, length, map, string_bytes, IfOk};
ghost use Rattle.derguard_program.specs.Words.{joined, takes_next};
ghost use Rattle.derguard_program.specs.inside.Joining.{joined_from};

use guard_model::OutOfMemory;
use std::alloc::Global;

/// The words as `clap` reads them: an option of a message and the word after it are one, as `--from=a`, so that the
/// value may be any word. After `--` all words stay as they are.
pub fn joined(alloc: Global, words: &[&str]) -> Result<Vec<String>, OutOfMemory>
    ensures { IfOk result (λ made. map string_bytes made.items ≡ joined (map (λ w. w.now) words.now)) }
{
    let mut made = Vec::new(alloc);
    let mut rest = words;
    let mut is_open = true;
    while !rest.is_empty() {
        let (word, count, still_open) = next_word(alloc, rest, is_open)?;
        made.push(word)?;
        rest = &rest[count..];
        is_open = still_open;
    }
    Ok(made)
}

/// The next word, how many words it is made of, and whether `--` is yet to come.
fn next_word(
    alloc: Global,
    words: &[&str],
    is_open: bool,
) -> Result<(String, usize, bool), OutOfMemory>
    requires { 0 < length words.now }
    ensures made { IfOk result (λ p. joined_from is_open (map (λ w. w.now) words.now)
        ≡ string_bytes p.0 ∷ joined_from p.2 (map (λ w. w.now) (drop p.1 words.now))) }
    ensures some { IfOk result (λ p. 0 < p.1) }
    ensures few { IfOk result (λ p. p.1 ≤ 2) }
    ensures within { IfOk result (λ p. p.1 ≤ length words.now) }
{
    let [word, rest @ ..] = words else {
        unreachable!()
    };
    let is_open = is_open && *word != "--";
    match rest {
        [value, ..] if is_open && takes_next(word) => {
            Ok((format!(in alloc; "{word}={value}")?, 2, is_open))
        }
        _ => Ok((format!(in alloc; "{word}")?, 1, is_open)),
    }
}

/// Whether it is an option of a message, of which the next word is the value.
fn takes_next(word: &str) -> bool
    ensures { result ≡ takes_next word.now }
{
    word == "--from"
        || word == "--to"
        || word == "--message"
        || word == "--frame"
        || word == "--link"
}
