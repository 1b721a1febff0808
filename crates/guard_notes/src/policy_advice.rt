//! The words on what to do about a fault of a policy, by the fault and what is said of its entry. Rows show them, and
//! no contract: it says that they are lines of words and where they come.
use crate::advice::{Advice, two_lines, words};
use guard_policy::{Entry, Key, PolicyFault};
use guard_tables::TableFault;

/// A fault of a policy, Q1 to Q9, the lines that are said of its entry, and of which part too much is asked. Where
/// memory ran out nothing is shown.
pub fn policy_advice<'a>(fault: &PolicyFault, said: &str, crowding: &'a str) -> Advice<'a> {
    match fault {
        PolicyFault::Toml => words(
            "The text is no document of TOML. Look for a missing quote, bracket or equals sign.",
        ),
        PolicyFault::UnknownKey(_, _) => words(
            "The entry has a key that says nothing. Remove or mend it; docs/POLICY.md has the keys.",
        ),
        PolicyFault::MissingKey(entry, key) => missing_advice(*entry, *key),
        PolicyFault::BadName(_) => name_advice(said),
        PolicyFault::DuplicateName(_) => {
            words("An entry before this one has its name. Rename one of the two.")
        }
        PolicyFault::NoSuchType(_) => words(
            "No module of the name in the entry assigns its type. Mend the names, or list the file of the module.",
        ),
        PolicyFault::NoSuchMessage(_) => words(
            "The message of the rule is not declared. Mend the name, or declare the message.",
        ),
        PolicyFault::BadEffect(_) => {
            words("The effect is neither allow nor deny. Write one of them.")
        }
        PolicyFault::Table(_, fault) => table_advice(fault, crowding),
        PolicyFault::OutOfMemory => words(""),
    }
}

/// A key that isn't there. At the top the messages and the rules are lists, which double brackets write in TOML.
fn missing_advice(entry: Entry, key: Key) -> Advice<'static> {
    match (entry, key) {
        (Entry::Top, Key::Message | Key::Rule) => words(
            "It is no list of tables. Write [[message]] or [[rule]], in two brackets, at the head of each entry.",
        ),
        _ => words(
            "The entry lacks this key, or something of another kind is there. Add or mend it.",
        ),
    }
}

/// A bad name, which stands in what is said of its entry. No other text there has an asterisk.
fn name_advice(said: &str) -> Advice<'static> {
    if said.contains('*') {
        words(
            "An asterisk alone, in from and to, is any name; names have no patterns. Write a rule for each name.",
        )
    } else {
        words(
            "A name has 1 to 63 letters, digits, hyphens, low lines and full stops. Mend the one above.",
        )
    }
}

/// A fault of the types of a message and its rules, B1 to B3.
fn table_advice<'a>(fault: &TableFault, crowding: &'a str) -> Advice<'a> {
    match fault {
        TableFault::RuleTypeMismatch(_) => words(
            "The type of a rule has other tags or another base than its message. Derive it by constraints.",
        ),
        TableFault::TooManyConditions => two_lines(
            crowding,
            "Each type counts there, and each constraint. Write ranges for values, or fewer rules: 127 fit with one \
             each.",
        ),
        TableFault::TooManyRules => {
            words("The message has more than 255 rules. Join some of them by unions of types.")
        }
        TableFault::OutOfMemory => words(""),
    }
}
