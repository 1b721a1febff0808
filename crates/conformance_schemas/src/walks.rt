//! `walk` beside `decode` and `member`.
ghost use Rattle.std.specs.Prelude.{IsTrue};
ghost use Rattle.guard_der.specs.Fits.{fits};
ghost use Rattle.guard_model.specs.ValueView.{value_view};
ghost use Rattle.guard_tables.specs.TableView.{declared_of};

use conformance_rows::Judges;
use conformance_texts::is_value;
use guard_der::{DecodeFault, decode};
use guard_eval::member;
use guard_model::Value;
use guard_reader::{Marks, walk};
use guard_tables::Table;
use std::alloc::{AllocError, Global};

/// The table of a type and of rules.
#[derive(Clone, Copy)]
pub struct ByTable<'a>(pub &'a Table);

impl Judges for ByTable<'_> {
    /// Whether the table and the decoder agree on the octets: both refuse them, or the marks name just those types of
    /// the table to which the decoded value belongs.
    fn agree(&self, alloc: Global, octets: &[u8]) -> Result<bool, AllocError> {
        let table = self.0;
        match (walk(table, octets), decode(alloc, table.declared(), octets)) {
            (_, Err(DecodeFault::OutOfMemory)) => Err(AllocError),
            (None, Err(DecodeFault::Breach(_))) => Ok(true),
            (Some(marks), Ok(value)) => {
                Ok(
                    marks.of_type() == member(table.declared(), &value)
                        && agree_on_rules(alloc, table, marks, &value),
                )
            }
            _ => Ok(false),
        }
    }
}

/// Whether each rule is marked just if the value belongs to its type, and no mark is left after the last rule.
fn agree_on_rules(alloc: Global, table: &Table, marks: Marks, value: &Value) -> bool
    requires fits { IsTrue (fits (declared_of table.now) (value_view value.now)) }
{
    let rules = table.rules() as u8;
    for place in 0..rules {
        let Some(rule) = table.rule(usize::from(place)) else {
            return false;
        };
        let has = is_value(alloc, rule, value) && member(rule, value);
        if marks.rule(place) != has {
            return false;
        }
    }
    !marks.rule(rules)
}
