//! The files on whose rows `walk` is tried.
use crate::row_types::RowTypes;
use conformance_rows::walk_file;
use std::io;
use std::rt::Files;

/// Tries all of them, and answers whether `walk` agrees with `decode` and `member` on each octet string.
pub fn try_walks<R: Files + Print + AllocGlobal>(rt: &R) -> io::Result<bool> {
    let mut agree = true;
    for file in VALUES {
        agree &= walk_file(rt, file, RowTypes::of_values(rt.alloc()))?;
    }
    for file in OCTETS {
        agree &= walk_file(rt, file, RowTypes::of_octets(rt.alloc()))?;
    }
    Ok(agree)
}

/// Of values.
const VALUES: [&str; 29] = [
    "der/encodings/boolean_and_null.rows",
    "der/encodings/integer.rows",
    "der/encodings/enumerated.rows",
    "der/encodings/bit_string.rows",
    "der/encodings/octet_string.rows",
    "der/encodings/object_identifier.rows",
    "der/encodings/character_strings.rows",
    "der/encodings/tags.rows",
    "der/encodings/choice.rows",
    "der/encodings/sequence.rows",
    "der/encodings/set.rows",
    "der/encodings/set_tags.rows",
    "der/encodings/sequence_of.rows",
    "der/encodings/set_of.rows",
    "der/encodings/order.rows",
    "der/encodings/personnel_record.rows",
    "der/encodings/limits.rows",
    "eval/ranges.rows",
    "eval/parts.rows",
    "eval/set_operations.rows",
    "eval/single_values.rows",
    "eval/sizes.rows",
    "eval/alphabets.rows",
    "eval/contained_types.rows",
    "eval/with_components.rows",
    "eval/with_component.rows",
    "eval/definitions.rows",
    "tagging/octets.rows",
    "tagging/octets_from_asn1c.rows",
];

/// Of octets under a type, or under the types of schemas.
const OCTETS: [&str; 24] = [
    "der/breaches/boolean_and_null.rows",
    "der/breaches/integer.rows",
    "der/breaches/enumerated.rows",
    "der/breaches/bit_string.rows",
    "der/breaches/octet_string.rows",
    "der/breaches/object_identifier.rows",
    "der/breaches/character_strings.rows",
    "der/breaches/tags.rows",
    "der/breaches/choice.rows",
    "der/breaches/sequence.rows",
    "der/breaches/set.rows",
    "der/breaches/set_tags.rows",
    "der/breaches/sequence_of.rows",
    "der/breaches/set_of.rows",
    "der/breaches/sites_and_paths.rows",
    "der/breaches/order.rows",
    "der/breaches/personnel_record.rows",
    "der/breaches/limits.rows",
    "schema/three_tag_defaults.rows",
    "schema/tags_by_module.rows",
    "schema/filled_in.rows",
    "schema/orders.rows",
    "schema/settlement.rows",
    "schema/public_standards.rows",
];
