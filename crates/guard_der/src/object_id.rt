//! Contents octets of an OBJECT IDENTIFIER (X.690 8.19).
ghost use Rattle.std.specs.Prelude.{◌≡◌, ◌≤◌, ◌*◌, ◌-◌, ◌∷◌, ◌++◌, [], ℕ, List, OnOk, ◌&&◌, nat_eq, if◌then◌else◌};
ghost use Rattle.guard_model.specs.AbstractValue as abstract;
ghost use Rattle.guard_model.specs.Answer.{Gives};
ghost use Rattle.guard_model.specs.ValueView.{value_view};
ghost use Rattle.guard_der.specs.Simple.{are_subidentifiers as subidentifiers_end, subidentifiers};
ghost use Rattle.guard_der.specs.Simple.{object_id_fault, arcs_of as arcs_from};
ghost use Rattle.guard_der.specs.Reading.{unless_fault};
ghost use Rattle.guard_der.specs.inside.Faults.{fault_of};
ghost use Rattle.guard_der.specs.declared.breach.Code.TheVariants.{ObjectIdContents, ObjectIdTooLong};

use crate::breach::Code;
use crate::faults::{Fault, fault_at};
use guard_model::{OutOfMemory, Path, Value};
use std::alloc::Global;
use std::sync::ArcSlice;

/// From here on a number has no room for seven bits more.
const FULL: u128 = 1 << 121;

/// The arcs that contents octets of an OBJECT IDENTIFIER say (X.690 8.19), or what is wrong with them, at the offset
/// `at`: ObjectIdContents, else ObjectIdTooLong. Bit 8 is set on each octet of a subidentifier but its last, and its
/// first is not 80.
pub fn object_identifier(
    alloc: Global,
    path: &mut Path,
    at: usize,
    octets: &[u8],
) -> Result<Value, Fault>
    ensures { Gives value_view (fault_of path.new.items) result (unless_fault at (object_id_fault octets.now)
        (abstract.object_identifier (arcs_from (subidentifiers 0 octets.now)))) }
{
    if octets.is_empty() {
        return Err(fault_at(path, Code::ObjectIdContents, at));
    }
    let mut arcs = Vec::new(alloc);
    let mut number = 0u128;
    let mut starts = true;
    for (index, octet) in octets.iter().enumerate() {
        if is_padding(starts, *octet) {
            return Err(fault_at(path, Code::ObjectIdContents, at));
        }
        if number >= FULL {
            return Err(fault_at(path, code_behind_full(starts, &octets[index..]), at));
        }
        number = number * 128 + u128::from(*octet % 128);
        starts = *octet < 128;
        if starts {
            push_arcs(&mut arcs, number)?;
            number = 0;
        }
    }
    if starts {
        Ok(Value::Oid(ArcSlice::from_vec(arcs)?))
    } else {
        Err(fault_at(path, Code::ObjectIdContents, at))
    }
}

/// Whether a subidentifier begins here and does so with 80, seven bits that are all zero, as none may.
fn is_padding(starts: bool, octet: u8) -> bool
    ensures { result ≡ (starts && nat_eq octet 128) }
{
    starts && octet == 0x80
}

/// The name of the fault of an OBJECT IDENTIFIER with a subidentifier that is too long: the form comes first.
fn code_behind_full(starts: bool, octets: &[u8]) -> Code
    ensures { result ≡ (if subidentifiers_end starts octets.now then ObjectIdTooLong else ObjectIdContents) }
{
    if are_subidentifiers(starts, octets) {
        Code::ObjectIdTooLong
    } else {
        Code::ObjectIdContents
    }
}

fn are_subidentifiers(starts: bool, octets: &[u8]) -> bool
    ensures { result ≡ subidentifiers_end starts octets.now }
{
    let mut starts = starts;
    for octet in octets {
        if is_padding(starts, *octet) {
            return false;
        }
        starts = *octet < 128;
    }
    starts
}

/// Appends the arcs of the next subidentifier: the first one is 40X + Y for the first two (8.19.4).
fn push_arcs(arcs: &mut Vec<u128>, number: u128) -> Result<(), OutOfMemory>
    ensures { (before : List ℕ) → arcs.old.items ≡ arcs_from before →
        OnOk result (arcs.new.items ≡ arcs_from (before ++ number ∷ [])) }
{
    if !arcs.is_empty() {
        return Ok(arcs.push(number)?);
    }
    let root = root_of(number);
    arcs.push(root)?;
    Ok(arcs.push(number - 40 * root)?)
}

/// X of a first subidentifier 40X + Y.
fn root_of(first: u128) -> u128
    ensures least { 40 * result ≤ first }
    ensures arcs { (others : List ℕ) → arcs_from (first ∷ others) ≡ result ∷ (first - 40 * result) ∷ others }
{
    if first < 40 {
        0
    } else if first < 80 {
        1
    } else {
        2
    }
}
