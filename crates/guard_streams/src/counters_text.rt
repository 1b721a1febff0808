//! The text that shows what is counted.
ghost use Rattle.std.specs.Prelude.{◌≡◌, ◌++◌, map, IfOk, OnOk};
ghost use Rattle.guard_streams.specs.Counters.{count_view, counted_view, counter, counters_text, heading, labelled};
ghost use Rattle.guard_streams.specs.Counters.{faults_lines, kind_line, policy_lines, reason_line, rule_line};
ghost use Rattle.guard_streams.specs.Counters.{rules_lines, sample, stopped_lines, totals_lines, traffic_lines};

use crate::counted::Counted;
use crate::counts::Counts;
use crate::faults::Faults;
use crate::in_force::digits_of;
use crate::rule_counts::RuleCount;
use crate::tally::Tally;
use guard_files::add;
use guard_frames::Totals;
use guard_model::OutOfMemory;
use guard_report::add_number;
use std::alloc::Global;

/// The text that shows what is counted under the policy in force.
pub fn counters_text(alloc: Global, counted: &Counted) -> Result<Vec<u8>, OutOfMemory>
    ensures { IfOk result (λ text. text.items ≡ counters_text (counted_view counted.now)) }
{
    let mut text = Vec::new(alloc);
    add_totals(&mut text, counted.tally.totals)?;
    add_stopped(&mut text, &counted.tally.counts)?;
    add_rules(
        &mut text,
        true,
        b"derguard_denied_total",
        b"Frames that a rule denied since the policy in force came into force.",
        &counted.force.rules,
    )?;
    add_rules(
        &mut text,
        false,
        b"derguard_allowed_total",
        b"Frames that a rule let through since the policy in force came into force.",
        &counted.force.rules,
    )?;
    add_traffic(&mut text, &counted.tally)?;
    add_policy(&mut text, &counted.force.digest)?;
    Ok(text)
}

fn add_totals(text: &mut Vec<u8>, totals: Totals) -> Result<(), OutOfMemory>
    ensures { OnOk result (text.new.items ≡ text.old.items ++ totals_lines totals) }
{
    add_counter(
        text,
        b"derguard_frames_total",
        b"Frames that were decided.",
        totals.frames,
    )?;
    add_counter(
        text,
        b"derguard_passed_total",
        b"Frames that passed.",
        totals.passed,
    )
}

fn add_stopped(text: &mut Vec<u8>, counts: &Counts) -> Result<(), OutOfMemory>
    ensures { OnOk result (text.new.items ≡ text.old.items ++ stopped_lines counts.now) }
{
    add_heading(
        text,
        b"derguard_stopped_total",
        b"counter",
        b"Frames that were stopped, by reason.",
    )?;
    add_reason(text, b"bad-header", counts.bad_header)?;
    add_reason(text, b"unknown-message", counts.unknown_message)?;
    add_reason(text, b"undecodable", counts.undecodable)?;
    add_reason(text, b"outside-type", counts.outside_type)?;
    add_reason(text, b"denied-by", counts.denied_by)?;
    add_reason(text, b"not-allowed", counts.not_allowed)?;
    add_reason(text, b"no-rule", counts.no_rule)?;
    add_reason(text, b"no-memory", counts.no_memory)
}

fn add_reason(text: &mut Vec<u8>, reason: &[u8], count: u64) -> Result<(), OutOfMemory>
    ensures { OnOk result (text.new.items ≡ text.old.items ++ reason_line reason.now count) }
{
    add_labelled(text, b"derguard_stopped_total", b"reason", reason, count)
}

/// The rules that deny, or, with `false`, those that allow.
fn add_rules(
    text: &mut Vec<u8>,
    denies: bool,
    name: &[u8],
    help: &[u8],
    rules: &[RuleCount],
) -> Result<(), OutOfMemory>
    ensures { OnOk result (text.new.items
        ≡ text.old.items ++ rules_lines denies name.now help.now (map count_view rules.now)) }
{
    add_heading(text, name, b"counter", help)?;
    for rule in rules {
        add_rule(text, denies, name, rule)?;
    }
    Ok(())
}

/// A rule, where it denies, or, with `false`, where it allows.
fn add_rule(
    text: &mut Vec<u8>,
    denies: bool,
    name: &[u8],
    rule: &RuleCount,
) -> Result<(), OutOfMemory>
    ensures { OnOk result (text.new.items ≡ text.old.items ++ rule_line denies name.now (count_view rule.now)) }
{
    if rule.denies != denies {
        return Ok(());
    }
    add_labelled(text, name, b"rule", rule.name.as_bytes(), rule.frames)
}

fn add_traffic(text: &mut Vec<u8>, tally: &Tally) -> Result<(), OutOfMemory>
    ensures { OnOk result (text.new.items ≡ text.old.items ++ traffic_lines tally.now) }
{
    add_counter(
        text,
        b"derguard_received_bytes_total",
        b"Octets that came in.",
        tally.came,
    )?;
    add_counter(
        text,
        b"derguard_sent_bytes_total",
        b"Octets of the frames that passed.",
        tally.went,
    )?;
    add_counter(
        text,
        b"derguard_reloads_total",
        b"Policies that came into force in place of another.",
        tally.reloads,
    )?;
    add_faults(text, &tally.faults)
}

fn add_faults(text: &mut Vec<u8>, faults: &Faults) -> Result<(), OutOfMemory>
    ensures { OnOk result (text.new.items ≡ text.old.items ++ faults_lines faults.now) }
{
    add_heading(
        text,
        b"derguard_link_faults_total",
        b"counter",
        b"Faults of links, by kind.",
    )?;
    add_fault(text, b"F1", faults.frame_too_long)?;
    add_fault(text, b"F2", faults.write_failed)?;
    add_fault(text, b"F3", faults.closed)?;
    add_fault(text, b"F4", faults.torn_frame)
}

fn add_fault(text: &mut Vec<u8>, fault: &[u8], count: u64) -> Result<(), OutOfMemory>
    ensures { OnOk result (text.new.items ≡ text.old.items ++ kind_line fault.now count) }
{
    add_labelled(text, b"derguard_link_faults_total", b"fault", fault, count)
}

fn add_policy(text: &mut Vec<u8>, digest: &[u8; 32]) -> Result<(), OutOfMemory>
    ensures { OnOk result (text.new.items ≡ text.old.items ++ policy_lines digest.now) }
{
    add_heading(
        text,
        b"derguard_policy_info",
        b"gauge",
        b"The policy in force, by the digest of its texts.",
    )?;
    add_labelled(
        text,
        b"derguard_policy_info",
        b"sha256",
        digits_of(digest).as_slice(),
        1,
    )
}

fn add_counter(text: &mut Vec<u8>, name: &[u8], help: &[u8], count: u64) -> Result<(), OutOfMemory>
    ensures { OnOk result (text.new.items ≡ text.old.items ++ counter name.now help.now count) }
{
    add_heading(text, name, b"counter", help)?;
    add_sample(text, name, count)
}

fn add_heading(text: &mut Vec<u8>, name: &[u8], kind: &[u8], help: &[u8]) -> Result<(), OutOfMemory>
    ensures { OnOk result (text.new.items ≡ text.old.items ++ heading name.now kind.now help.now) }
{
    add(text, b"# HELP ")?;
    add(text, name)?;
    add(text, b" ")?;
    add(text, help)?;
    add(text, b"\n# TYPE ")?;
    add(text, name)?;
    add(text, b" ")?;
    add(text, kind)?;
    add(text, b"\n")
}

fn add_sample(text: &mut Vec<u8>, name: &[u8], count: u64) -> Result<(), OutOfMemory>
    ensures { OnOk result (text.new.items ≡ text.old.items ++ sample name.now count) }
{
    add(text, name)?;
    add(text, b" ")?;
    add_number(text, count)?;
    add(text, b"\n")
}

fn add_labelled(
    text: &mut Vec<u8>,
    name: &[u8],
    label: &[u8],
    value: &[u8],
    count: u64,
) -> Result<(), OutOfMemory>
    ensures { OnOk result (text.new.items
        ≡ text.old.items ++ labelled name.now label.now value.now count) }
{
    add(text, name)?;
    add(text, b"{")?;
    add(text, label)?;
    add(text, b"=\"")?;
    add(text, value)?;
    add(text, b"\"} ")?;
    add_number(text, count)?;
    add(text, b"\n")
}
