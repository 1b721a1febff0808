//! The text of a type that a schema has: as X.680 writes it, with each tag of its own too, and with the site of each
//! constraint.
use guard_model::{CharKind, Class, Comp, Cons, Kind, Limit, Presence, Rule, Tag, Ty};
use std::alloc::{AllocError, Global};

/// The text of a type.
pub fn type_text(alloc: Global, ty: &Ty) -> Result<String, AllocError> {
    let mut text = String::new(alloc);
    add_type(alloc, &mut text, ty)?;
    Ok(text)
}

#[cycle(types)]
fn add_type(alloc: Global, text: &mut String, ty: &Ty) -> Result<(), AllocError> {
    for tag in &ty.tags {
        add_tag(alloc, text, tag)?;
    }
    add_kind(alloc, text, &ty.kind)?;
    for cons in &ty.cons {
        add_cons(alloc, text, cons)?;
    }
    Ok(())
}

#[cycle(types)]
fn add_kind(alloc: Global, text: &mut String, kind: &Kind) -> Result<(), AllocError> {
    text.push_str(words_of(kind))?;
    match kind {
        Kind::Sequence(comps) | Kind::Set(comps) | Kind::Choice(comps) => {
            add_comps(alloc, text, comps)
        }
        Kind::SequenceOf(ty) | Kind::SetOf(ty) => add_type(alloc, text, ty),
        _ => Ok(()),
    }
}

#[cycle(types)]
fn add_comps(alloc: Global, text: &mut String, comps: &[Comp]) -> Result<(), AllocError> {
    text.push_str(" {")?;
    for (place, comp) in comps.iter().enumerate() {
        if place > 0 {
            text.push_str(", ")?;
        }
        text.push_str(comp.name.as_str())?;
        text.push_str(" ")?;
        add_type(alloc, text, &comp.ty)?;
        text.push_str(presence_word(&comp.presence))?;
    }
    text.push_str("}")
}

fn presence_word(presence: &Presence) -> &'static str {
    match presence {
        Presence::Mandatory => "",
        Presence::Optional => " OPTIONAL",
        _ => " DEFAULT ..",
    }
}

fn words_of(kind: &Kind) -> &'static str {
    match kind {
        Kind::Bool => "BOOLEAN",
        Kind::Int(_) => "INTEGER",
        Kind::Bits(_) => "BIT STRING",
        Kind::Octets => "OCTET STRING",
        Kind::Null => "NULL",
        Kind::Oid => "OBJECT IDENTIFIER",
        Kind::Enumerated(_) => "ENUMERATED",
        Kind::Chars(CharKind::Numeric) => "NumericString",
        Kind::Chars(CharKind::Printable) => "PrintableString",
        Kind::Chars(CharKind::Ia5) => "IA5String",
        Kind::Chars(CharKind::Visible) => "VisibleString",
        Kind::Chars(CharKind::Utf8) => "UTF8String",
        Kind::Sequence(_) => "SEQUENCE",
        Kind::Set(_) => "SET",
        Kind::Choice(_) => "CHOICE",
        Kind::SequenceOf(_) => "SEQUENCE OF ",
        Kind::SetOf(_) => "SET OF ",
    }
}

fn add_tag(alloc: Global, text: &mut String, tag: &Tag) -> Result<(), AllocError> {
    let number = tag.number;
    let class = match tag.class {
        Class::Universal => "UNIVERSAL ",
        Class::Application => "APPLICATION ",
        Class::Context => "",
        Class::Private => "PRIVATE ",
    };
    text.push_str(&format!(in alloc; "[{class}{number}] ")?)
}

fn add_cons(alloc: Global, text: &mut String, cons: &Cons) -> Result<(), AllocError> {
    let site = cons.site;
    match &cons.rule {
        Rule::Range(Limit::At(low), Limit::At(high)) => {
            text.push_str(&format!(in alloc; " ({low}..{high} at {site})")?)
        }
        _ => text.push_str(&format!(in alloc; " (.. at {site})")?),
    }
}
