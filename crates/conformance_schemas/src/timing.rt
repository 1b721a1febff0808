//! Times the walk over the octets of one message, for `bench/run`.
//!
//!     conformance TIMES DECLARED RULE.. < a module named Bench, an octet 0, and the message
//!
//! prints how many of the rules have the message, and then, where TIMES isn't 0, how many nanoseconds so many calls of
//! `walk` take, the least of nine rounds.
ghost use Rattle.std.specs.Prelude.{All, IsTrue, IfOk};
ghost use Rattle.guard_der.specs.Sound.{is_sound};
ghost use Rattle.guard_model.specs.TypeView.{type_view};
ghost use Rattle.guard_tables.specs.Tables.{types_view};

use anyhow::{Result, bail};
use guard_model::Ty;
use guard_reader::walk;
use guard_schema::Schema;
use guard_tables::Table;
use std::alloc::{AllocError, Global};
use std::time::{Clock, Instant};

const ROUNDS: u32 = 9;

/// Times the walk, or only walks once, as the words of the command line ask.
pub fn time_walk<R: Clock + Print + AllocGlobal>(
    rt: &R,
    words: &[String],
    input: &mut Vec<u8>,
) -> Result<()> {
    let Some(end) = input.iter().position(|octet| *octet == 0) else {
        bail!("no octet 0 after the module");
    };
    let [_, times, declared, rules @ ..] = words else {
        bail!("conformance TIMES DECLARED RULE..");
    };
    let times = times.as_str().parse::<u64>()?;
    let schema = Schema::build(rt.alloc(), &[&input[..end]])?;
    input.push(0)?;
    let message = &mut input[end + 1..];
    time_types(rt, &schema, declared.as_str(), rules, message, times)
}

/// Times the walk over a message, behind which an octet follows, under a declared type and the types of rules.
fn time_types<R: Clock + Print + AllocGlobal>(
    rt: &R,
    schema: &Schema,
    declared: &str,
    rules: &[String],
    message: &mut [u8],
    times: u64,
) -> Result<()> {
    let Some(ty) = schema.ty("Bench", declared) else {
        bail!("no such declared type");
    };
    let kept = rule_types(rt.alloc(), schema, rules)?;
    let table = Table::compile(rt.alloc(), ty, &kept)?;
    print_times(rt, &table, message, kept.len(), times)
}

/// Prints how many of the rules have the message, and then what walks over it take.
fn print_times<R: Clock + Print>(
    rt: &R,
    table: &Table,
    message: &mut [u8],
    rules: usize,
    times: u64,
) -> Result<()> {
    println!(rt; "{}", had(table, message, rules))?;
    if times > 0 {
        println!(rt; "{}", least(rt, table, message, times)?)?;
    }
    Ok(())
}

/// The types of these names.
fn rule_types<'a>(
    alloc: Global,
    schema: &'a Schema,
    names: &[String],
) -> Result<Vec<&'a Ty>, AllocError>
    ensures { IfOk result (λ found. All (λ t. IsTrue (is_sound t)) (types_view found.items)) }
{
    let mut rules = Vec::new(alloc);
    for name in names {
        if let Some(ty) = schema.ty("Bench", name.as_str()) {
            rules = add_copies(rules, ty, 1)?;
        }
    }
    Ok(rules)
}

/// The types, and one more so many times.
fn add_copies<'a>(types: Vec<&'a Ty>, ty: &'a Ty, count: u32) -> Result<Vec<&'a Ty>, AllocError>
    requires old { All (λ t. IsTrue (is_sound t)) (types_view types.items) }
    requires sound { IsTrue (is_sound (type_view ty.now)) }
    ensures { IfOk result (λ found. All (λ t. IsTrue (is_sound t)) (types_view found.items)) }
{
    let mut found = types;
    for _ in 0..count {
        found.push(ty)?;
    }
    Ok(found)
}

/// How many of the rules have the message: the octets without the last one.
fn had(table: &Table, octets: &[u8], rules: usize) -> usize {
    let Some((_, message)) = octets.split_last() else {
        return 0;
    };
    let Some(marks) = walk(table, message) else {
        return 0;
    };
    (0..=254u8)
        .take(rules)
        .filter(|rule| marks.rule(*rule))
        .count()
}

/// Nanoseconds of so many walks, the least of the rounds.
fn least<R: Clock>(rt: &R, table: &Table, octets: &mut [u8], times: u64) -> Result<u128> {
    let mut least = u128::MAX;
    for _ in 0..ROUNDS {
        let start = Instant::now(rt)?;
        let had = walked(table, octets, times);
        let taken = start.elapsed(rt)?.as_nanos();
        if had < times {
            bail!("the message isn't had");
        }
        least = least.min(taken);
    }
    Ok(least)
}

/// Walks so many times, and answers how often the declared type has the message. An octet after the message is changed
/// each time, so that no walk can be taken for the one before.
#[inline(never)]
fn walked(table: &Table, octets: &mut [u8], times: u64) -> u64 {
    let mut had = 0u64;
    let Some(last) = octets.len().checked_sub(1) else {
        return 0;
    };
    for time in 0..times {
        octets[last] = (time % 256) as u8;
        if walk(table, &octets[..last]).is_some_and(|marks| marks.of_type()) {
            had = had.wrapping_add(1);
        }
    }
    had
}
