//! Types.
ghost use Rattle.std.specs.Prelude.{◌≡◌, ◌+◌, IfOk};

use crate::notation::tags::Prefix;
use crate::notation::unread::Unread;
use crate::notation::words::Words;
use guard_model::{CharKind, Class, Comp, Kind, Named, NamedList, Presence, Tag, Ty};
use std::alloc::Global;
use std::sync::{Arc, ArcSlice, ArcStr};

/// How deep parts may be nested.
pub const DEEPEST: u32 = 1_000;

/// The type that a text writes.
pub fn type_of(alloc: Global, text: &str) -> Result<Box<Ty>, Unread> {
    let mut words = Words::new(text);
    let ty = words.ty(alloc, DEEPEST)?;
    words.end()?;
    Ok(ty)
}

/// The depth that is left to the parts of what is at this depth.
pub fn below(depth: u32) -> Result<u32, Unread>
    ensures { IfOk result (λ left. left + 1 ≡ depth) }
{
    if depth == 0 {
        return Err(Unread::Malformed);
    }
    Ok(depth - 1)
}

fn tagged(alloc: Global, number: u32, kind: Kind) -> Result<Box<Ty>, Unread> {
    let tag = Tag {
        class: Class::Universal,
        number,
    };
    let ty = Ty {
        tags: Vec::from_slice(alloc, &[tag])?,
        kind,
        cons: Vec::new(alloc),
    };
    Ok(Box::new(alloc, ty)?)
}

fn untagged(alloc: Global, kind: Kind) -> Result<Box<Ty>, Unread> {
    let ty = Ty {
        tags: Vec::new(alloc),
        kind,
        cons: Vec::new(alloc),
    };
    Ok(Box::new(alloc, ty)?)
}

/// Puts on a type the tags that are written in front of it.
fn put_tags(ty: &mut Ty, prefixes: &[Prefix]) -> Result<(), Unread> {
    for prefix in prefixes.iter().rev() {
        if !prefix.implicit {
            ty.tags.insert(0, prefix.tag)?;
        } else if let Some(tag) = ty.tags.first_mut() {
            *tag = prefix.tag;
        } else {
            return Err(Unread::Malformed);
        }
    }
    Ok(())
}

impl Words<'_> {
    /// A type, with tags before it and constraints after it.
    #[cycle(notation)]
    pub fn ty(&mut self, alloc: Global, depth: u32) -> Result<Box<Ty>, Unread> {
        let left = below(depth)?;
        let prefixes = self.prefixes(alloc)?;
        let mut ty = self.base(alloc, left)?;
        self.constraints(alloc, &mut ty, left)?;
        put_tags(&mut ty, &prefixes)?;
        Ok(ty)
    }

    fn prefixes(&mut self, alloc: Global) -> Result<Vec<Prefix>, Unread> {
        let mut prefixes = Vec::new(alloc);
        for _ in 0..u32::MAX {
            if !self.is_next("[") {
                break;
            }
            prefixes.push(self.prefix()?)?;
        }
        Ok(prefixes)
    }

    #[cycle(notation)]
    fn base(&mut self, alloc: Global, depth: u32) -> Result<Box<Ty>, Unread> {
        let word = self.word();
        match word {
            "SEQUENCE" => self.sequence(alloc, depth),
            "SET" => self.set_type(alloc, depth),
            "CHOICE" => {
                let alternatives = self.components(alloc, depth)?;
                untagged(alloc, Kind::Choice(alternatives))
            }
            "UNTAGGED" => {
                let mut ty = self.ty(alloc, depth)?;
                ty.tags.clear();
                Ok(ty)
            }
            _ => self.simple(alloc, word),
        }
    }

    /// What follows SEQUENCE. Constraints in front of OF are read after the type of the elements.
    #[cycle(notation)]
    fn sequence(&mut self, alloc: Global, depth: u32) -> Result<Box<Ty>, Unread> {
        let mut in_front = *self;
        let kind = if self.take_of() {
            Kind::SequenceOf(self.ty(alloc, depth)?)
        } else {
            Kind::Sequence(self.components(alloc, depth)?)
        };
        let mut ty = tagged(alloc, 16, kind)?;
        in_front.constraints(alloc, &mut ty, depth)?;
        Ok(ty)
    }

    /// What follows SET.
    #[cycle(notation)]
    fn set_type(&mut self, alloc: Global, depth: u32) -> Result<Box<Ty>, Unread> {
        let mut in_front = *self;
        let kind = if self.take_of() {
            Kind::SetOf(self.ty(alloc, depth)?)
        } else {
            Kind::Set(self.components(alloc, depth)?)
        };
        let mut ty = tagged(alloc, 17, kind)?;
        in_front.constraints(alloc, &mut ty, depth)?;
        Ok(ty)
    }

    /// Components or alternatives in braces.
    #[cycle(notation)]
    fn components(&mut self, alloc: Global, depth: u32) -> Result<Vec<Comp>, Unread> {
        let mut comps = Vec::new(alloc);
        self.expect("{")?;
        if self.take("}") {
            return Ok(comps);
        }
        for _ in 0..u32::MAX {
            self.component(alloc, &mut comps, depth)?;
            if !self.take(",") {
                break;
            }
        }
        self.expect("}")?;
        Ok(comps)
    }

    #[cycle(notation)]
    fn component(
        &mut self,
        alloc: Global,
        comps: &mut Vec<Comp>,
        depth: u32,
    ) -> Result<(), Unread> {
        let name = self.word();
        let ty = self.ty(alloc, depth)?;
        let presence = self.presence(alloc, &ty.kind)?;
        comps.push(Comp {
            name: ArcStr::from_str(alloc, name)?,
            ty: Box::into_inner(ty),
            presence,
        })?;
        Ok(())
    }

    fn presence(&mut self, alloc: Global, kind: &Kind) -> Result<Presence, Unread> {
        if self.take("OPTIONAL") {
            return Ok(Presence::Optional);
        }
        if !self.take("DEFAULT") {
            return Ok(Presence::Mandatory);
        }
        if self.take("PENDING") {
            return Ok(Presence::Pending);
        }
        let value = if self.take("(") {
            self.value_of_another_kind(alloc)?
        } else {
            self.value(alloc, kind)?
        };
        Ok(Presence::Default(Arc::new(alloc, Box::into_inner(value))?))
    }

    /// A type without parts, of which this is the first word.
    pub fn simple(&mut self, alloc: Global, word: &str) -> Result<Box<Ty>, Unread> {
        let (number, kind) = match word {
            "BOOLEAN" => (1, Kind::Bool),
            "INTEGER" => (2, Kind::Int(self.named(alloc)?)),
            "NULL" => (5, Kind::Null),
            "ENUMERATED" => (10, Kind::Enumerated(self.named(alloc)?)),
            _ => self.string(alloc, word)?,
        };
        tagged(alloc, number, kind)
    }

    fn string(&mut self, alloc: Global, word: &str) -> Result<(u32, Kind), Unread> {
        match word {
            "BIT" => {
                self.expect("STRING")?;
                Ok((3, Kind::Bits(self.named(alloc)?)))
            }
            "OCTET" => {
                self.expect("STRING")?;
                Ok((4, Kind::Octets))
            }
            "OBJECT" => {
                self.expect("IDENTIFIER")?;
                Ok((6, Kind::Oid))
            }
            _ => {
                let kind = characters_of(word)?;
                Ok((tag_of_characters(kind), Kind::Chars(kind)))
            }
        }
    }

    /// Named numbers, items or named bits in braces. One without a number has its place as number.
    fn named(&mut self, alloc: Global) -> Result<Arc<NamedList>, Unread> {
        let mut named = Vec::new(alloc);
        if !self.take("{") {
            return Ok(NamedList::shared(alloc, named)?);
        }
        for place in 0..u32::MAX {
            let name = String::from_str(alloc, self.word())?;
            let number = self.number_in_parentheses(i128::from(place))?;
            named.push(Named { name, number })?;
            if !self.take(",") {
                break;
            }
        }
        self.expect("}")?;
        Ok(NamedList::shared(alloc, named)?)
    }

    fn number_in_parentheses(&mut self, otherwise: i128) -> Result<i128, Unread> {
        if !self.take("(") {
            return Ok(otherwise);
        }
        let number = self.number()?;
        self.expect(")")?;
        Ok(number)
    }
}

/// The kind of character string that has this name.
pub(crate) fn characters_of(word: &str) -> Result<CharKind, Unread> {
    match word {
        "UTF8String" => Ok(CharKind::Utf8),
        "NumericString" => Ok(CharKind::Numeric),
        "PrintableString" => Ok(CharKind::Printable),
        "IA5String" => Ok(CharKind::Ia5),
        "VisibleString" => Ok(CharKind::Visible),
        _ => Err(Unread::Malformed),
    }
}

/// The number of the kind's universal tag (X.680 table 8).
fn tag_of_characters(kind: CharKind) -> u32 {
    match kind {
        CharKind::Utf8 => 12,
        CharKind::Numeric => 18,
        CharKind::Printable => 19,
        CharKind::Ia5 => 22,
        CharKind::Visible => 26,
    }
}
