//! The type of a rule, by its names, and where it is assigned.
ghost use Rattle.std.specs.Prelude.{◌≡◌, map, string_bytes, IfOk};
ghost use Rattle.guard_policy.specs.PolicyView.{said_view};
ghost use Rattle.guard_syntax.specs.ModuleViews.{assignment_view, module_view};
ghost use Rattle.guard_notes.specs.Sources.{sources_view};
ghost use Rattle.guard_messages.specs.RuleTypes.{grounds_view, type_line, assigned_among, assigned_at};
ghost use Rattle.guard_messages.specs.RuleTypes.{site_lines, rule_type_lines};

use guard_model::{OutOfMemory, Site};
use guard_notes::{Place, Sources, place_lines};
use guard_policy::SaidRule;
use guard_syntax::{Assignment, Module};
use std::alloc::Global;

/// What a verdict is explained over: the texts, and the trees of the modules.
#[derive(Clone, Copy)]
pub struct Grounds<'m, 'a> {
    pub sources: Sources<'m>,
    pub modules: &'m [Module<'a>],
}

/// The type of a rule, by its names, and where it is assigned.
pub fn rule_type_lines(
    alloc: Global,
    grounds: &Grounds,
    rule: &SaidRule,
) -> Result<String, OutOfMemory>
    ensures { IfOk result (λ lines. string_bytes lines
        ≡ rule_type_lines (grounds_view grounds.now) (said_view rule.now)) }
{
    let line = type_line(alloc, rule)?;
    let site = assigned_at(
        grounds.modules,
        rule.home.as_bytes(),
        rule.type_name.as_bytes(),
    );
    let place = site_lines(alloc, &grounds.sources, site)?;
    Ok(format!(in alloc; "{line}{place}")?)
}

fn type_line(alloc: Global, rule: &SaidRule) -> Result<String, OutOfMemory>
    ensures { IfOk result (λ line. string_bytes line ≡ type_line (said_view rule.now)) }
{
    let (home, name) = (rule.home, rule.type_name);
    Ok(format!(in alloc; "  type {home}.{name}\n")?)
}

fn site_lines(alloc: Global, sources: &Sources, site: Option<Site>) -> Result<String, OutOfMemory>
    ensures { IfOk result (λ lines. string_bytes lines ≡ site_lines (sources_view sources.now) site) }
{
    match site {
        Some(site) => Ok(place_lines(alloc, sources, Place::At(site))?),
        None => Ok(String::new(alloc)),
    }
}

// ---- where a name is assigned

/// Where the module of a name assigns the other name.
fn assigned_at(modules: &[Module], home: &[u8], name: &[u8]) -> Option<Site>
    ensures { result ≡ assigned_at home.now name.now (map module_view modules.now) }
{
    for module in modules {
        if module.name == home {
            return assigned_among(&module.assignments, name);
        }
    }
    None
}

fn assigned_among(assignments: &[Assignment], name: &[u8]) -> Option<Site>
    ensures { result ≡ assigned_among name.now (map assignment_view assignments.now) }
{
    for assignment in assignments {
        if assignment.name == name {
            return Some(assignment.site);
        }
    }
    None
}
