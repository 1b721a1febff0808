//! Large modules, each made by a word and a number. Their names have three letters and digits at most, so that 100,000
//! definitions that refer to one another fit a text of 1 MiB.
use std::alloc::{AllocError, Global};

const FIRST: &[u8] = b"ABCDEFGHIJKLMNOPQRSTUVWXYZ";

const FURTHER: &[u8] = b"ABCDEFGHIJKLMNOPQRSTUVWXYZabcdefghijklmnopqrstuvwxyz0123456789";

/// The texts that a word and a number make:
/// - `chain N`: N types, each of which refers to the next one, and the last is NULL;
/// - `ring N`: N types, each of which refers to the next one, and the last to the first;
/// - `alone N`: two modules with N types NULL each;
/// - `imports N`: a module with N types NULL, and one that imports all of them and refers to each.
pub fn large(alloc: Global, input: &str) -> Result<String, AllocError> {
    let (word, count) = input.split_once(' ').unwrap_or((input, "0"));
    let count = count.parse::<u32>().unwrap_or(0);
    let mut text = String::new(alloc);
    match word {
        "chain" => add_chain(alloc, &mut text, count, "NULL")?,
        "ring" => add_chain(alloc, &mut text, count, "A")?,
        "alone" => {
            add_alone(alloc, &mut text, "M", count)?;
            text.push_str("====\n")?;
            add_alone(alloc, &mut text, "N", count)?;
        }
        "imports" => {
            add_alone(alloc, &mut text, "M", count)?;
            text.push_str("====\n")?;
            add_importing(alloc, &mut text, count)?;
        }
        _ => {}
    }
    Ok(text)
}

fn add_chain(alloc: Global, text: &mut String, count: u32, last: &str) -> Result<(), AllocError> {
    text.push_str("M DEFINITIONS ::= BEGIN\n")?;
    for number in 0..count {
        text.push_str(&name(alloc, number)?)?;
        text.push_str("::=")?;
        let next = number.saturating_add(1);
        if next < count {
            text.push_str(&name(alloc, next)?)?;
        } else {
            text.push_str(last)?;
        }
        text.push('\n')?;
    }
    text.push_str("END\n")
}

fn add_alone(alloc: Global, text: &mut String, module: &str, count: u32) -> Result<(), AllocError> {
    text.push_str(module)?;
    text.push_str(" DEFINITIONS ::= BEGIN\n")?;
    for number in 0..count {
        text.push_str(&name(alloc, number)?)?;
        text.push_str("::=NULL\n")?;
    }
    text.push_str("END\n")
}

fn add_importing(alloc: Global, text: &mut String, count: u32) -> Result<(), AllocError> {
    text.push_str("N DEFINITIONS ::= BEGIN IMPORTS\n")?;
    add_separated(alloc, text, count, ",\n")?;
    text.push_str(" FROM M;\n")?;
    for number in 0..count {
        text.push_str("User")?;
        text.push_str(&name(alloc, number)?)?;
        text.push_str("::=")?;
        text.push_str(&name(alloc, number)?)?;
        text.push('\n')?;
    }
    text.push_str("END\n")
}

/// The names of these numbers, separated by a text.
fn add_separated(
    alloc: Global,
    text: &mut String,
    count: u32,
    between: &str,
) -> Result<(), AllocError> {
    for number in 0..count {
        if number != 0 {
            text.push_str(between)?;
        }
        text.push_str(&name(alloc, number)?)?;
    }
    Ok(())
}

/// The name of a number below 101,582. Each number has another one.
fn name(alloc: Global, number: u32) -> Result<String, AllocError> {
    let mut name = String::new(alloc);
    if number < 26 {
        name.push(letter(FIRST, number))?;
    } else if number < 1_638 {
        let number = number.saturating_sub(26);
        name.push(letter(FIRST, number / 62))?;
        name.push(letter(FURTHER, number % 62))?;
    } else {
        let number = number.saturating_sub(1_638);
        name.push(letter(FIRST, number / 3_844))?;
        name.push(letter(FURTHER, number / 62 % 62))?;
        name.push(letter(FURTHER, number % 62))?;
    }
    if is_reserved(&name) {
        name.push_str("00")?;
    }
    Ok(name)
}

fn letter(letters: &[u8], number: u32) -> char {
    let place = usize::try_from(number).unwrap_or(0);
    char::from(letters.get(place).copied().unwrap_or(b'0'))
}

/// Whether a name of three letters at most is a reserved word.
fn is_reserved(name: &str) -> bool {
    matches!(
        name,
        "ALL" | "ANY" | "BIT" | "BY" | "END" | "MAX" | "MIN" | "OF" | "PDV" | "SET"
    )
}
