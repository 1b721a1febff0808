//! Contents octets of the simple kinds.
ghost use Rattle.std.specs.Prelude.{◌≡◌, ◌∷◌, [], chars, IfOk, IsTrue};
ghost use Rattle.std.specs.Arc.{arc_slice_items};
ghost use Rattle.guard_der.specs.Octets.{signed_octets};
ghost use Rattle.guard_der.specs.Contents.{boolean_octet, arcs_octets, character_octets};
ghost use Rattle.guard_der.specs.Fits.{fits_arcs};
ghost use Rattle.guard_model.specs.Alphabets.{fits_characters};

use crate::encoding::octets::{push_base_128, push_signed};
use guard_model::{Bits, CharKind, OutOfMemory};
use std::alloc::Global;

/// The contents octet of a BOOLEAN: FALSE is 00, TRUE is FF (X.690 8.2, 11.1).
pub fn boolean(alloc: Global, truth: bool) -> Result<Vec<u8>, OutOfMemory>
    ensures { IfOk result (λ v. v.items ≡ boolean_octet truth ∷ []) }
{
    let mut out = Vec::new(alloc);
    out.push(if truth { 0xFF } else { 0 })?;
    Ok(out)
}

/// The contents octets of an INTEGER or ENUMERATED: the shortest two's complement (X.690 8.3, 8.4).
pub fn integer(alloc: Global, number: i128) -> Result<Vec<u8>, OutOfMemory>
    ensures { IfOk result (λ v. v.items ≡ signed_octets number) }
{
    let mut out = Vec::new(alloc);
    push_signed(&mut out, number)?;
    Ok(out)
}

/// The contents octets of a BIT STRING: the count of unused bits, then the octets (X.690 8.6).
pub fn bit_string(alloc: Global, bits: &Bits) -> Result<Vec<u8>, OutOfMemory>
    ensures { IfOk result (λ v. v.items ≡ bits.now.unused ∷ arc_slice_items bits.now.octets) }
{
    let mut out = Vec::new(alloc);
    out.push(bits.unused)?;
    out.extend_from_slice(bits.octets.as_slice())?;
    Ok(out)
}

/// The contents octets of an OBJECT IDENTIFIER: a subidentifier for the first two arcs, then one for each further arc
/// (X.690 8.19). Condition: there are two arcs at least; the first is 0, 1 or 2; where it isn't 2 the second is below
/// 40; no subidentifier is above 2^128-1.
pub fn object_identifier(alloc: Global, arcs: &[u128]) -> Result<Vec<u8>, OutOfMemory>
    requires { IsTrue (fits_arcs arcs.now) }
    ensures { IfOk result (λ v. v.items ≡ arcs_octets arcs.now) }
{
    let mut out = Vec::new(alloc);
    if let [first, second, others @ ..] = arcs {
        push_base_128(&mut out, 40 * *first + *second)?;
        for arc in others {
            push_base_128(&mut out, *arc)?;
        }
    }
    Ok(out)
}

/// The contents octets of a character string: UTF-8 for UTF8String (X.690 8.23.10), else one octet a character
/// (8.23.5). Each character of the other kinds has one octet in UTF-8 too. Condition: each character is in the kind's
/// alphabet.
pub fn characters(alloc: Global, kind: CharKind, text: &str) -> Result<Vec<u8>, OutOfMemory>
    requires { IsTrue (fits_characters kind (chars text.now)) }
    ensures { IfOk result (λ v. v.items ≡ character_octets kind (chars text.now)) }
{
    Ok(Vec::from_slice(alloc, text.as_bytes())?)
}
