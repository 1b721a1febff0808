//! Octets against all types of a table at once.
ghost use Rattle.std.specs.Prelude.{◌≡◌, IfSome, IsSome, IsTrue, Some};
ghost use Rattle.guard_der.specs.Der.{der};
ghost use Rattle.guard_der.specs.Fits.{fits};
ghost use Rattle.guard_model.specs.AbstractValue.{AbstractValue};
ghost use Rattle.guard_reader.specs.Marking.{HasMarks};
ghost use Rattle.guard_tables.specs.TableView.{declared_of, table_types};

use crate::marks::Marks;
use crate::walking::failures;
use guard_tables::Table;

/// Which of a table's types have the value whose DER encoding (X.690) the octets are; None where they encode no value
/// of the declared type. No memory is taken.
#[inline(always)]
pub fn walk(table: &Table, octets: &[u8]) -> Option<Marks>
    // A value of the declared type has the octets as its encoding, and the marks are those of the types that have it.
    ensures marks { IfSome result (λ m. (v : AbstractValue) × IsTrue (fits (declared_of table.now) v)
        × (der (declared_of table.now) v ≡ Some octets.now) × HasMarks m (table_types table.now) v) }
    // There are marks for the encoding of each value of the declared type.
    ensures only { (v : AbstractValue) → IsTrue (fits (declared_of table.now) v) →
        der (declared_of table.now) v ≡ Some octets.now → IsSome result }
{
    let failed = failures(&table.nodes, octets)?;
    Some(Marks {
        members: table.slots.without(&failed),
    })
}
