//! Written values, read by their type.
ghost use Rattle.std.specs.Prelude.{◌≡◌, ◌<◌, length, map, true, false, IsTrue, IfOk, Some, if◌then◌else◌};
ghost use Rattle.guard_model.specs.AbstractType.{AbstractType};
ghost use Rattle.guard_model.specs.AbstractType as type;
ghost use Rattle.guard_model.specs.AbstractValue as value;
ghost use Rattle.guard_model.specs.AbstractValue.{items_of};
ghost use Rattle.guard_model.specs.Answer.{Gives, Refuses};
ghost use Rattle.guard_model.specs.Slots.{all_absent};
ghost use Rattle.guard_model.specs.Kinds.{kind_of};
ghost use Rattle.guard_model.specs.TypeView.{type_view, kind_view, component_view, components_of};
ghost use Rattle.guard_model.specs.ValueView.{value_view, fields_view, items_view};
ghost use Rattle.guard_tagcheck.specs.Distinct.{component_type};
ghost use Rattle.guard_der.specs.Der.{der, contents_octets};
ghost use Rattle.guard_der.specs.Encoding.{longest_encoding, short_length};
ghost use Rattle.guard_der.specs.Sound.{is_proper, is_proper_kind, are_proper};
ghost use Rattle.guard_syntax.specs.Trees.{entries_of};
ghost use Rattle.guard_syntax.specs.Views as trees;
ghost use Rattle.guard_values.specs.KeptLengths.{contents_length};
ghost use Rattle.guard_values.specs.Meanings.{AreFitting};
ghost use Rattle.guard_values.specs.Arrangement.{AreEncodings, encoded_value};
ghost use Rattle.guard_values.specs.inside.Lengths.{IsCounted, HasContents};
ghost use Rattle.guard_values.specs.inside.Reading as reading;
ghost use Rattle.guard_values.specs.inside.Reading.{build, build_form, build_list, build_items, build_set_items};
ghost use Rattle.guard_values.specs.inside.Reading.{build_entries, build_elements, entry_at, element_at, read_chosen};
ghost use Rattle.guard_values.specs.inside.Reading.{read_fields};
ghost use Rattle.guard_values.specs.inside.Reading.{build_whole, build_sorted, build_first_fault};
ghost use Rattle.guard_values.specs.Views.{named, encoded_view, known_value_view, values_of};

use crate::arrangement::Encoded;
use crate::components::{alternative, completed, place_of};
use crate::elements::{
    encoded, kept, listed, listed_set, object_identifier_fault, room_after, room_without,
};
use crate::fault::ValueFault;
use crate::lengths::{Counted, bits_counted, in_tags, measured, tagged_length, with_part};
use crate::named_bits::value_of_names;
use crate::names::{reference, shared_reference};
use crate::scope::{KnownValue, ModuleScope};
use crate::simple::{arcs, boolean, integer, null, text};
use guard_der::LONGEST_ENCODING;
use guard_model::{Comp, Kind, Site, Ty, Value, absent_fields, set_field};
use guard_syntax::{EntryTree, ValueForm, ValueTree};
use std::alloc::Global;
use std::sync::{Arc, ArcSlice};

/// The value that the tree denotes under the type, with an encoding of at most 1,048,576 octets and its contents counted;
/// or the first fault.
pub fn value_within_limit(
    alloc: Global,
    scope: ModuleScope,
    tree: &ValueTree,
    ty: &Ty,
) -> Result<KnownValue, ValueFault>
    requires proper { IsTrue (is_proper (type_view ty.now)) }
    requires fitting { AreFitting (values_of scope) }
    ensures given { Gives known_value_view named result
        (build_whole (values_of scope.entry) (type_view ty.now) (trees.value_view tree.now)) }
    ensures counted { IfOk result (λ k. k.length ≡ contents_length (type_view ty.now) (known_value_view k)) }
{
    let known = shared_value(alloc, scope, tree, ty)?;
    if tagged_length(&ty.tags, known.length).is_none() {
        return Err(ValueFault::TooLarge(tree.site));
    }
    Ok(known)
}

/// The value with its contents counted, whose encoding may be too long. A name gives a share of the value that it means,
/// and the length that is kept beside it.
#[tactic(auto, unfolding(crate::specs::inside::Reading::build))]
fn shared_value(
    alloc: Global,
    scope: ModuleScope,
    tree: &ValueTree,
    ty: &Ty,
) -> Result<KnownValue, ValueFault>
    requires proper { IsTrue (is_proper (type_view ty.now)) }
    requires fitting { AreFitting (values_of scope) }
    ensures given { Gives known_value_view named result
        (build_sorted (values_of scope.entry) (type_view ty.now) (trees.value_view tree.now)) }
    ensures counted { IfOk result (λ k. k.length ≡ contents_length (type_view ty.now) (known_value_view k)) }
{
    if let ValueForm::Reference(name) = &tree.form {
        return shared_reference(alloc, scope, ty, tree.site, name);
    }
    let counted = sorted_value(alloc, scope, tree, ty)?;
    let value = Arc::new(alloc, counted.value)?;
    Ok(KnownValue {
        value,
        length: counted.length,
    })
}

/// The value with its contents counted. What is at fault elsewhere comes before an element whose encoding is too long.
#[tactic(auto, unfolding(crate::specs::inside::Reading::build))]
fn sorted_value(
    alloc: Global,
    scope: ModuleScope,
    tree: &ValueTree,
    ty: &Ty,
) -> Result<Counted, ValueFault>
    requires proper { IsTrue (is_proper (type_view ty.now)) }
    requires fitting { AreFitting (values_of scope) }
    ensures given { Gives (λ c. value_view c.value) named result
        (build_sorted (values_of scope.entry) (type_view ty.now) (trees.value_view tree.now)) }
    ensures counted { IfOk result (HasContents (kind_of (type_view ty.now))) }
{
    match form(alloc, scope, true, &tree.form, tree.site, ty) {
        Ok(counted) => Ok(counted),
        Err(ValueFault::OutOfMemory) => Err(ValueFault::OutOfMemory),
        Err(_) => Err(first_fault(alloc, scope, tree, ty)),
    }
}

/// The first fault of what is written, encodings aside; without one the encoding is too long.
fn first_fault(alloc: Global, scope: ModuleScope, tree: &ValueTree, ty: &Ty) -> ValueFault
    requires proper { IsTrue (is_proper (type_view ty.now)) }
    requires fitting { AreFitting (values_of scope) }
    ensures { Refuses (named result)
        (build_first_fault (values_of scope.entry) (type_view ty.now) (trees.value_view tree.now)) }
{
    match read(alloc, scope, false, tree, ty) {
        Ok(_counted) => ValueFault::TooLarge(tree.site),
        Err(fault) => fault,
    }
}

/// The value with the length of its encoding: each SET OF sorted, and no list whose elements have more octets than an
/// encoding may have. Or as it is written, for its faults alone, where nothing is counted: NULL stands for each element
/// of a list, and for what names mean.
#[cycle(values)]
#[tactic(auto, unfolding(crate::specs::inside::Reading::build))]
fn read(
    alloc: Global,
    scope: ModuleScope,
    sorted: bool,
    tree: &ValueTree,
    ty: &Ty,
) -> Result<Counted, ValueFault>
    requires proper { IsTrue (is_proper (type_view ty.now)) }
    requires fitting { AreFitting (values_of scope) }
    ensures given { Gives (λ c. value_view c.value) named result
        (build (values_of scope.entry) sorted (type_view ty.now) (trees.value_view tree.now)) }
    ensures counted { sorted ≡ true → IfOk result (IsCounted (type_view ty.now)) }
{
    in_tags(ty, form(alloc, scope, sorted, &tree.form, tree.site, ty))
}

/// The value of a form, its contents counted.
#[cycle(values)]
#[tactic(auto, unfolding(crate::specs::inside::Reading::build))]
fn form(
    alloc: Global,
    scope: ModuleScope,
    sorted: bool,
    form: &ValueForm,
    site: Site,
    ty: &Ty,
) -> Result<Counted, ValueFault>
    requires proper { IsTrue (is_proper (type_view ty.now)) }
    requires fitting { AreFitting (values_of scope) }
    ensures given { Gives (λ c. value_view c.value) named result
        (build_form (values_of scope.entry) sorted (type_view ty.now) site (trees.value_form_view form.now)) }
    ensures counted { sorted ≡ true → IfOk result (HasContents (kind_of (type_view ty.now))) }
{
    match form {
        ValueForm::Boolean(truth) => measured(sorted, ty, boolean(&ty.kind, site, *truth)),
        ValueForm::Null => measured(sorted, ty, null(&ty.kind, site)),
        ValueForm::Integer(minus, place, digits) => {
            measured(sorted, ty, integer(&ty.kind, site, *minus, *place, digits))
        }
        ValueForm::Text(string, spelling) => {
            measured(sorted, ty, text(alloc, &ty.kind, site, *string, spelling))
        }
        ValueForm::Reference(name) => { reference(scope, sorted, ty, site, name) }
        ValueForm::Chosen(name, tree) => {
            chosen(alloc, scope, sorted, tree, name, site, &ty.kind)
        }
        ValueForm::List(entries) => { braces(alloc, scope, sorted, entries, site, &ty.kind) }
        ValueForm::Arcs(all) => measured(sorted, ty, arcs(alloc, &ty.kind, site, all)),
    }
}

/// A chosen alternative, its contents counted.
#[cycle(values)]
fn chosen(
    alloc: Global,
    scope: ModuleScope,
    sorted: bool,
    tree: &ValueTree,
    name: &[u8],
    site: Site,
    kind: &Kind,
) -> Result<Counted, ValueFault>
    requires proper { IsTrue (is_proper_kind (kind_view kind.now)) }
    requires fitting { AreFitting (values_of scope) }
    ensures given { Gives (λ c. value_view c.value) named result (read_chosen site (kind_view kind.now) name.now
        (λ u. build (values_of scope.entry) sorted u (trees.value_view tree.now))) }
    ensures counted { sorted ≡ true → IfOk result (HasContents (kind_view kind.now)) }
{
    let (place, ty) = alternative(kind, site, name)?;
    let counted = read(alloc, scope, sorted, tree, ty)?;
    let value = Arc::new(alloc, counted.value)?;
    Ok(Counted {
        value: Value::Chosen(place, value),
        length: counted.length,
    })
}

/// Entries in braces, the contents counted.
#[cycle(values)]
fn braces(
    alloc: Global,
    scope: ModuleScope,
    sorted: bool,
    entries: &[EntryTree],
    site: Site,
    kind: &Kind,
) -> Result<Counted, ValueFault>
    requires proper { IsTrue (is_proper_kind (kind_view kind.now)) }
    requires fitting { AreFitting (values_of scope) }
    ensures given { Gives (λ c. value_view c.value) named result
        (build_list (values_of scope.entry) sorted site (kind_view kind.now)
        (entries_of (map trees.entry_view entries.now))) }
    ensures counted { sorted ≡ true → IfOk result (HasContents (kind_view kind.now)) }
{
    match kind {
        Kind::Sequence(comps) => fields(alloc, scope, sorted, entries, site, true, comps),
        Kind::Set(comps) => fields(alloc, scope, sorted, entries, site, false, comps),
        Kind::SequenceOf(ty) => items(alloc, scope, sorted, entries, site, ty),
        Kind::SetOf(ty) => set_items(alloc, scope, sorted, entries, site, ty),
        Kind::Oid => Err(object_identifier_fault(site, entries)),
        Kind::Bits(names) => { bits_counted(value_of_names(alloc, sorted, names, site, entries)) }
        _ => Err(ValueFault::WrongNotation(site)),
    }
}

/// A SEQUENCE, whose components are ordered, or a SET.
#[cycle(values)]
fn fields(
    alloc: Global,
    scope: ModuleScope,
    sorted: bool,
    entries: &[EntryTree],
    site: Site,
    ordered: bool,
    comps: &[Comp],
) -> Result<Counted, ValueFault>
    requires proper { IsTrue (are_proper (components_of (map component_view comps.now))) }
    requires fitting { AreFitting (values_of scope) }
    ensures given { Gives (λ c. value_view c.value) named result
        (read_fields site (components_of (map component_view comps.now))
        (build_entries (values_of scope.entry) sorted ordered (components_of (map component_view comps.now)) 0
        (all_absent (components_of (map component_view comps.now))) (entries_of (map trees.entry_view entries.now)))) }
    ensures counted { sorted ≡ true
        → IfOk result (HasContents (type.sequence (components_of (map component_view comps.now)))) }
{
    let (given, length) = entry_fields(alloc, scope, sorted, entries, ordered, comps)?;
    let fields = completed(alloc, site, comps, given)?;
    let shared = ArcSlice::from_vec(fields)?;
    Ok(Counted {
        value: Value::Fields(shared),
        length,
    })
}

/// The components that have entries, and how many octets they have.
#[cycle(values)]
fn entry_fields(
    alloc: Global,
    scope: ModuleScope,
    sorted: bool,
    entries: &[EntryTree],
    ordered: bool,
    comps: &[Comp],
) -> Result<(Vec<Arc<Option<Value>>>, Option<usize>), ValueFault>
    requires proper { IsTrue (are_proper (components_of (map component_view comps.now))) }
    requires fitting { AreFitting (values_of scope) }
    ensures count { IfOk result (λ x. length x.0.items ≡ length comps.now) }
    ensures given { Gives (λ x. fields_view x.0.items) named
        result (build_entries (values_of scope.entry) sorted ordered (components_of (map component_view comps.now)) 0
        (all_absent (components_of (map component_view comps.now))) (entries_of (map trees.entry_view entries.now))) }
    ensures counted { sorted ≡ true → IfOk result (λ x. x.1 ≡ short_length (contents_octets
        (type.sequence (components_of (map component_view comps.now))) (value.fields (fields_view x.0.items)))) }
{
    let mut fields = absent_fields(alloc, comps)?;
    let mut next = 0;
    let mut length = Some(0);
    for entry in entries {
        let (place, counted) = entry_value(
            alloc, scope, sorted, entry, ordered, comps, next, &fields,
        )?;
        length = with_part(sorted, length, &comps[place].presence, &counted);
        let slot = Arc::new(alloc, Some(counted.value))?;
        set_field(&mut fields, place, slot);
        next = place + 1;
    }
    Ok((fields, length))
}

/// The place of an entry, and its value.
#[cycle(values)]
fn entry_value(
    alloc: Global,
    scope: ModuleScope,
    sorted: bool,
    entry: &EntryTree,
    ordered: bool,
    comps: &[Comp],
    next: usize,
    fields: &[Arc<Option<Value>>],
) -> Result<(usize, Counted), ValueFault>
    requires proper { IsTrue (are_proper (components_of (map component_view comps.now))) }
    requires fitting { AreFitting (values_of scope) }
    requires count { length fields.now ≡ length comps.now }
    ensures within { IfOk result (λ x. x.0 < length comps.now) }
    ensures given { Gives (λ x. (x.0, value_view x.1.value)) named result (entry_at ordered (components_of
        (map component_view comps.now)) next (fields_view fields.now) (trees.entry_view entry.now).site
        (trees.entry_view entry.now).name
        (λ u. build (values_of scope.entry) sorted u (trees.entry_view entry.now).value)) }
    ensures counted { sorted ≡ true → IfOk result (λ x. (t : AbstractType)
        × (component_type x.0 (components_of (map component_view comps.now)) ≡ Some t) × IsCounted t x.1) }
{
    let (place, ty) = place_of(ordered, comps, next, fields, entry.site(), entry.name())?;
    let counted = read_entry(alloc, scope, sorted, entry, ty)?;
    Ok((place, counted))
}

/// The value in an entry, with or without a name before it.
#[cycle(values)]
fn read_entry(
    alloc: Global,
    scope: ModuleScope,
    sorted: bool,
    entry: &EntryTree,
    ty: &Ty,
) -> Result<Counted, ValueFault>
    requires proper { IsTrue (is_proper (type_view ty.now)) }
    requires fitting { AreFitting (values_of scope) }
    ensures given { Gives (λ c. value_view c.value) named result
        (build (values_of scope.entry) sorted (type_view ty.now) (trees.entry_view entry.now).value) }
    ensures counted { sorted ≡ true → IfOk result (IsCounted (type_view ty.now)) }
{
    match entry {
        EntryTree::Alone(value) => read(alloc, scope, sorted, value, ty),
        EntryTree::Named(_, value) => read(alloc, scope, sorted, value, ty),
    }
}

/// A SEQUENCE OF.
#[cycle(values)]
fn items(
    alloc: Global,
    scope: ModuleScope,
    sorted: bool,
    entries: &[EntryTree],
    site: Site,
    ty: &Ty,
) -> Result<Counted, ValueFault>
    requires proper { IsTrue (is_proper (type_view ty.now)) }
    requires fitting { AreFitting (values_of scope) }
    ensures given { Gives (λ c. value_view c.value) named result
        (build_items (values_of scope.entry) sorted site (type_view ty.now)
        (entries_of (map trees.entry_view entries.now))) }
    ensures counted { sorted ≡ true → IfOk result (HasContents (type.sequence_of (type_view ty.now))) }
{
    let (elements, octets) = elements(alloc, scope, sorted, entries, ty)?;
    let value = listed(site, elements)?;
    Ok(Counted {
        value,
        length: Some(octets),
    })
}

/// The elements, and how many octets they have.
#[cycle(values)]
fn elements(
    alloc: Global,
    scope: ModuleScope,
    sorted: bool,
    entries: &[EntryTree],
    ty: &Ty,
) -> Result<(Vec<Value>, usize), ValueFault>
    requires proper { IsTrue (is_proper (type_view ty.now)) }
    requires fitting { AreFitting (values_of scope) }
    ensures given { Gives (λ x. map value_view x.0.items) named result (build_elements (values_of scope.entry) sorted
        false (type_view ty.now) longest_encoding (entries_of (map trees.entry_view entries.now))) }
    ensures counted { sorted ≡ true → IfOk result (λ x. short_length (contents_octets
        (type.sequence_of (type_view ty.now)) (value.items (items_view x.0.items))) ≡ Some x.1) }
{
    let mut elements = Vec::with_capacity(alloc, entries.len())?;
    let mut room = LONGEST_ENCODING;
    for entry in entries {
        let counted = element(alloc, scope, sorted, entry, ty)?;
        room = room_after(sorted, entry, room, counted.length)?;
        elements.push(kept(sorted, counted.value))?;
    }
    Ok((elements, LONGEST_ENCODING - room))
}

/// A SET OF.
#[cycle(values)]
fn set_items(
    alloc: Global,
    scope: ModuleScope,
    sorted: bool,
    entries: &[EntryTree],
    site: Site,
    ty: &Ty,
) -> Result<Counted, ValueFault>
    requires proper { IsTrue (is_proper (type_view ty.now)) }
    requires fitting { AreFitting (values_of scope) }
    ensures given { Gives (λ c. value_view c.value) named result
        (build_set_items (values_of scope.entry) sorted site (type_view ty.now)
        (entries_of (map trees.entry_view entries.now))) }
    ensures counted { sorted ≡ true → IfOk result (HasContents (type.set_of (type_view ty.now))) }
{
    if !sorted {
        return items(alloc, scope, sorted, entries, site, ty);
    }
    let (elements, octets) = encoded_elements(alloc, scope, entries, ty)?;
    let value = listed_set(alloc, site, ty, elements)?;
    Ok(Counted {
        value,
        length: Some(octets),
    })
}

/// The elements of a SET OF with their encodings, and how many octets these have.
#[cycle(values)]
fn encoded_elements(
    alloc: Global,
    scope: ModuleScope,
    entries: &[EntryTree],
    ty: &Ty,
) -> Result<(Vec<Encoded>, usize), ValueFault>
    requires proper { IsTrue (is_proper (type_view ty.now)) }
    requires fitting { AreFitting (values_of scope) }
    ensures encodings { IfOk result (λ x. AreEncodings (type_view ty.now) (map encoded_view x.0.items)) }
    ensures given { Gives (λ x. map encoded_value (map encoded_view x.0.items)) named result (build_elements
        (values_of scope.entry) true true (type_view ty.now) longest_encoding
        (entries_of (map trees.entry_view entries.now))) }
    ensures counted { IfOk result (λ x. short_length (contents_octets (type.sequence_of (type_view ty.now))
        (value.items (items_of (map encoded_value (map encoded_view x.0.items))))) ≡ Some x.1) }
{
    let mut elements = Vec::with_capacity(alloc, entries.len())?;
    let mut room = LONGEST_ENCODING;
    for entry in entries {
        let element = encoded_element(alloc, scope, entry, ty)?;
        room = room_without(entry, room, Some(element.octets.len()))?;
        elements.push(element)?;
    }
    Ok((elements, LONGEST_ENCODING - room))
}

/// An element of a SET OF, with its encoding.
#[cycle(values)]
fn encoded_element(
    alloc: Global,
    scope: ModuleScope,
    entry: &EntryTree,
    ty: &Ty,
) -> Result<Encoded, ValueFault>
    requires proper { IsTrue (is_proper (type_view ty.now)) }
    requires fitting { AreFitting (values_of scope) }
    ensures encoding { IfOk result (λ e. der (type_view ty.now) (value_view e.value) ≡ Some e.octets.items) }
    ensures given { Gives (λ e. value_view e.value) named result (element_at true (type_view ty.now) (trees.entry_view
        entry.now).site (trees.entry_view entry.now).name (reading.site_of (trees.entry_view entry.now).value)
        (build (values_of scope.entry) true (type_view ty.now) (trees.entry_view entry.now).value)) }
{
    let counted = element(alloc, scope, true, entry, ty)?;
    encoded(alloc, ty, entry.value_site(), counted.value)
}

/// An entry of an OF type has no name.
#[cycle(values)]
fn element(
    alloc: Global,
    scope: ModuleScope,
    sorted: bool,
    entry: &EntryTree,
    ty: &Ty,
) -> Result<Counted, ValueFault>
    requires proper { IsTrue (is_proper (type_view ty.now)) }
    requires fitting { AreFitting (values_of scope) }
    ensures given { Gives (λ c. value_view c.value) named result
        (element_at false (type_view ty.now) (trees.entry_view entry.now).site
        (trees.entry_view entry.now).name (reading.site_of (trees.entry_view entry.now).value)
        (build (values_of scope.entry) sorted (type_view ty.now) (trees.entry_view entry.now).value)) }
    ensures counted { sorted ≡ true → IfOk result (IsCounted (type_view ty.now)) }
{
    match entry {
        EntryTree::Alone(value) => read(alloc, scope, sorted, value, ty),
        EntryTree::Named(name, _) => Err(ValueFault::WrongNotation(name.site)),
    }
}
