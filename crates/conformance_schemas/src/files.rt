//! The files of rows on texts, types and octets, in the order in which they are tried.
use crate::alphabets::Alphabets;
use crate::constraints::ConstraintsRows;
use crate::decoding::Decoding;
use crate::encoding::Encoding;
use crate::members::Members;
use crate::reader::Reader;
use crate::schemas::Schemas;
use crate::tables::Tables;
use crate::tagged_octets::TaggedOctets;
use crate::values::ValuesRows;
use conformance_rows::{Tally, check_files};
use conformance_texts::{
    Echo, Headers, IntSets, Lexer, NamesRows, Parser, Printed, SetTrees, TaggingRows,
};
use std::io;
use std::rt::Files;

/// Tries the rows of all of them, those of `conformance_texts` too, and adds them to the tally.
pub fn try_rows<R: Files + Print + AllocGlobal>(rt: &R, tally: &mut Tally) -> io::Result<()> {
    check_files::<R, Echo>(rt, tally, &["rows/written.rows"])?;
    try_model(rt, tally)?;
    try_texts(rt, tally)?;
    try_definitions(rt, tally)?;
    try_schemas(rt, tally)?;
    try_octets(rt, tally)?;
    try_messages(rt, tally)
}

/// How tags, sites and characters are written.
fn try_model<R: Files + Print + AllocGlobal>(rt: &R, tally: &mut Tally) -> io::Result<()> {
    check_files::<R, Alphabets>(rt, tally, &["model/alphabets.rows"])?;
    check_files::<R, Printed>(rt, tally, &["model/printed.rows"])
}

/// From a text to its tree, and what the names in trees mean.
fn try_texts<R: Files + Print + AllocGlobal>(rt: &R, tally: &mut Tally) -> io::Result<()> {
    check_files::<R, Lexer>(
        rt,
        tally,
        &[
            "lexer/marks.rows",
            "lexer/reserved_words.rows",
            "lexer/hyphens_and_comments.rows",
            "lexer/strings.rows",
            "lexer/numbers.rows",
            "lexer/faults.rows",
            "lexer/sites.rows",
        ],
    )?;
    check_files::<R, Parser>(
        rt,
        tally,
        &[
            "syntax/productions.rows",
            "syntax/unexpected.rows",
            "syntax/left_out.rows",
            "syntax/named_bits.rows",
            "syntax/nesting.rows",
            "syntax/sites.rows",
            "syntax/values_alone.rows",
            "syntax/session.rows",
        ],
    )?;
    check_files::<R, NamesRows>(
        rt,
        tally,
        &[
            "names/order_of_definitions.rows",
            "names/meanings.rows",
            "names/faults.rows",
            "names/large_modules.rows",
        ],
    )
}

/// Tags, values and constraints that are written in definitions.
fn try_definitions<R: Files + Print + AllocGlobal>(rt: &R, tally: &mut Tally) -> io::Result<()> {
    check_files::<R, TaggingRows>(
        rt,
        tally,
        &[
            "tagging/tags.rows",
            "tagging/components_of.rows",
            "tagging/names_and_numbers.rows",
            "tagging/limits.rows",
            "tagging/order_of_faults.rows",
            "tagging/large_modules.rows",
        ],
    )?;
    check_files::<R, TaggedOctets>(
        rt,
        tally,
        &["tagging/octets.rows", "tagging/octets_from_asn1c.rows"],
    )?;
    check_files::<R, ValuesRows>(
        rt,
        tally,
        &[
            "values/numbers_and_items.rows",
            "values/strings.rows",
            "values/object_identifiers.rows",
            "values/components_and_elements.rows",
            "values/braces.rows",
            "values/visible_names.rows",
            "values/long_values.rows",
            "values/large_lists.rows",
        ],
    )?;
    try_constraints(rt, tally)
}

fn try_constraints<R: Files + Print + AllocGlobal>(rt: &R, tally: &mut Tally) -> io::Result<()> {
    check_files::<R, ConstraintsRows>(
        rt,
        tally,
        &[
            "constraints/elements_by_kind.rows",
            "constraints/contained_types.rows",
            "constraints/ranges.rows",
            "constraints/set_operations.rows",
            "constraints/sizes.rows",
            "constraints/alphabets.rows",
            "constraints/with_components.rows",
            "constraints/large_sets.rows",
        ],
    )?;
    check_files::<R, IntSets>(rt, tally, &["constraints/int_sets.rows"])?;
    check_files::<R, SetTrees>(rt, tally, &["constraints/int_set_trees.rows"])
}

/// Which lists of texts are a schema, and which types it has.
fn try_schemas<R: Files + Print + AllocGlobal>(rt: &R, tally: &mut Tally) -> io::Result<()> {
    check_files::<R, Schemas>(
        rt,
        tally,
        &[
            "schema/built_in.rows",
            "schema/kinds_and_tags.rows",
            "schema/clashes.rows",
            "schema/each_fault.rows",
            "schema/order_of_faults.rows",
            "schema/limits.rows",
            "schema/long_texts.rows",
            "schema/three_tag_defaults.rows",
            "schema/same_names.rows",
            "schema/tags_by_module.rows",
            "schema/filled_in.rows",
            "schema/orders.rows",
            "schema/beginnings.rows",
            "schema/settlement.rows",
            "schema/public_standards.rows",
        ],
    )
}

/// From values to octets, and back.
fn try_octets<R: Files + Print + AllocGlobal>(rt: &R, tally: &mut Tally) -> io::Result<()> {
    check_files::<R, Headers>(rt, tally, &["der/headers.rows"])?;
    check_files::<R, Encoding>(
        rt,
        tally,
        &[
            "der/encodings/boolean_and_null.rows",
            "der/encodings/integer.rows",
            "der/encodings/enumerated.rows",
            "der/encodings/bit_string.rows",
            "der/encodings/octet_string.rows",
            "der/encodings/object_identifier.rows",
            "der/encodings/character_strings.rows",
            "der/encodings/tags.rows",
            "der/encodings/choice.rows",
            "der/encodings/sequence.rows",
            "der/encodings/set.rows",
            "der/encodings/set_tags.rows",
            "der/encodings/sequence_of.rows",
            "der/encodings/set_of.rows",
            "der/encodings/order.rows",
            "der/encodings/personnel_record.rows",
            "der/encodings/limits.rows",
        ],
    )?;
    try_breaches(rt, tally)
}

/// What is wrong with octets that are no encoding.
fn try_breaches<R: Files + Print + AllocGlobal>(rt: &R, tally: &mut Tally) -> io::Result<()> {
    check_files::<R, Decoding>(
        rt,
        tally,
        &[
            "der/breaches/boolean_and_null.rows",
            "der/breaches/integer.rows",
            "der/breaches/enumerated.rows",
            "der/breaches/bit_string.rows",
            "der/breaches/octet_string.rows",
            "der/breaches/object_identifier.rows",
            "der/breaches/character_strings.rows",
            "der/breaches/tags.rows",
            "der/breaches/choice.rows",
            "der/breaches/sequence.rows",
            "der/breaches/set.rows",
            "der/breaches/set_tags.rows",
            "der/breaches/sequence_of.rows",
            "der/breaches/set_of.rows",
            "der/breaches/sites_and_paths.rows",
            "der/breaches/order.rows",
            "der/breaches/personnel_record.rows",
            "der/breaches/limits.rows",
        ],
    )
}

/// Members of types, and the types of a message and its rules.
fn try_messages<R: Files + Print + AllocGlobal>(rt: &R, tally: &mut Tally) -> io::Result<()> {
    check_files::<R, Members>(
        rt,
        tally,
        &[
            "eval/ranges.rows",
            "eval/parts.rows",
            "eval/set_operations.rows",
            "eval/single_values.rows",
            "eval/sizes.rows",
            "eval/alphabets.rows",
            "eval/contained_types.rows",
            "eval/with_components.rows",
            "eval/with_component.rows",
            "eval/definitions.rows",
        ],
    )?;
    check_files::<R, Tables>(
        rt,
        tally,
        &["tables/types_of_rules.rows", "tables/limits.rows"],
    )?;
    try_reader(rt, tally)
}

/// One pass over octets, by a table.
fn try_reader<R: Files + Print + AllocGlobal>(rt: &R, tally: &mut Tally) -> io::Result<()> {
    check_files::<R, Reader>(
        rt,
        tally,
        &[
            "reader/messages.rows",
            "reader/places_of_rules.rows",
            "reader/ranges.rows",
            "reader/many_ranges.rows",
            "reader/single_values.rows",
            "reader/sets.rows",
        ],
    )
}
