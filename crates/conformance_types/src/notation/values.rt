//! Values of a type, whether or not they fit it.
use crate::notation::octets::{bits_of, bits_of_digits, octets_of};
use crate::notation::types::DEEPEST;
use crate::notation::unread::Unread;
use crate::notation::words::Words;
use guard_model::{Bits, Comp, Kind, Named, Presence, Ty, Value};
use std::alloc::Global;
use std::str;
use std::sync::{Arc, ArcSlice, ArcStr};

/// The value that a text writes in the notation of a type. It need not fit the type.
pub fn value_of(alloc: Global, ty: &Ty, text: &str) -> Result<Box<Value>, Unread> {
    let mut words = Words::new(text);
    let value = words.value(alloc, &ty.kind)?;
    words.end()?;
    Ok(value)
}

/// The value of `TYPE : VALUE`.
pub fn typed_value_of(alloc: Global, text: &str) -> Result<Box<Value>, Unread> {
    let mut words = Words::new(text);
    let ty = words.ty(alloc, DEEPEST)?;
    words.expect(":")?;
    let value = words.value(alloc, &ty.kind)?;
    words.end()?;
    Ok(value)
}

impl Words<'_> {
    #[cycle(values)]
    pub fn value(&mut self, alloc: Global, kind: &Kind) -> Result<Box<Value>, Unread> {
        let value = match kind {
            Kind::Sequence(comps) => Value::Fields(self.fields(alloc, comps)?),
            Kind::Set(comps) => Value::Fields(self.fields(alloc, comps)?),
            Kind::Choice(alternatives) => self.chosen(alloc, alternatives)?,
            Kind::SequenceOf(ty) => Value::Items(self.items(alloc, &ty.kind)?),
            Kind::SetOf(ty) => Value::Items(self.items(alloc, &ty.kind)?),
            _ => self.simple_value(alloc, kind)?,
        };
        Ok(Box::new(alloc, value)?)
    }

    /// Components in their written order, in braces.
    #[cycle(values)]
    fn fields(
        &mut self,
        alloc: Global,
        comps: &[Comp],
    ) -> Result<ArcSlice<Arc<Option<Value>>>, Unread> {
        let mut fields = Vec::new(alloc);
        self.expect("{")?;
        for comp in comps {
            let field = self.field(alloc, comp)?;
            fields.push(Arc::new(alloc, field)?)?;
        }
        self.expect("}")?;
        Ok(ArcSlice::from_vec(fields)?)
    }

    #[cycle(values)]
    fn field(&mut self, alloc: Global, comp: &Comp) -> Result<Option<Value>, Unread> {
        if self.front() != comp.name.as_str() {
            return default_of(&comp.presence);
        }
        self.word();
        let field = if self.take("ABSENT") {
            None
        } else {
            Some(Box::into_inner(self.value(alloc, &comp.ty.kind)?))
        };
        self.take(",");
        Ok(field)
    }

    /// Elements in braces.
    #[cycle(values)]
    fn items(&mut self, alloc: Global, kind: &Kind) -> Result<ArcSlice<Value>, Unread> {
        let mut items = Vec::new(alloc);
        self.expect("{")?;
        for _ in 0..u32::MAX {
            if self.take("}") {
                return Ok(ArcSlice::from_vec(items)?);
            }
            items.push(Box::into_inner(self.value(alloc, kind)?))?;
            self.take(",");
        }
        Err(Unread::Malformed)
    }

    /// `alternative : VALUE`
    #[cycle(values)]
    fn chosen(&mut self, alloc: Global, alternatives: &[Comp]) -> Result<Value, Unread> {
        let name = self.word();
        self.expect(":")?;
        for (place, alternative) in alternatives.iter().enumerate() {
            if alternative.name.as_str() == name {
                let place = u8::try_from(place)?;
                let value = self.value(alloc, &alternative.ty.kind)?;
                let value = Arc::new(alloc, Box::into_inner(value))?;
                return Ok(Value::Chosen(place, value));
            }
        }
        Err(Unread::Malformed)
    }

    fn simple_value(&mut self, alloc: Global, kind: &Kind) -> Result<Value, Unread> {
        match kind {
            Kind::Bool if self.take("TRUE") => Ok(Value::Bool(true)),
            Kind::Bool if self.take("FALSE") => Ok(Value::Bool(false)),
            Kind::Null if self.take("NULL") => Ok(Value::Null),
            Kind::Int(named) => Ok(Value::Int(self.number_of(named.as_slice())?)),
            Kind::Enumerated(items) => Ok(Value::Enumerated(number_of(
                items.as_slice(),
                self.word(),
            )?)),
            Kind::Bits(_) => Ok(Value::Bits(self.bits(alloc)?)),
            Kind::Octets => Ok(Value::Octets(ArcSlice::from_vec(self.octets(alloc)?)?)),
            Kind::Oid => Ok(Value::Oid(ArcSlice::from_vec(self.arcs(alloc)?)?)),
            Kind::Chars(_) => Ok(Value::Chars(ArcStr::from_string(self.characters(alloc)?)?)),
            _ => Err(Unread::Malformed),
        }
    }

    /// A number, or the name of one.
    fn number_of(&mut self, named: &[Named]) -> Result<i128, Unread> {
        let word = self.word();
        match word.parse::<i128>() {
            Ok(number) => Ok(number),
            Err(_) => number_of(named, word),
        }
    }

    /// `'101'B` or `'A5'H`, and perhaps `UNUSED` and a number.
    fn bits(&mut self, alloc: Global) -> Result<Bits, Unread> {
        let text = self.quoted('\'')?;
        let mut bits = if self.take("B") {
            bits_of(alloc, text)?
        } else {
            self.expect("H")?;
            bits_of_digits(alloc, text)?
        };
        if self.take("UNUSED") {
            bits.unused = self.word().parse::<u8>()?;
        }
        Ok(bits)
    }

    /// `'A5'H`
    fn octets(&mut self, alloc: Global) -> Result<Vec<u8>, Unread> {
        let text = self.quoted('\'')?;
        self.expect("H")?;
        octets_of(alloc, text)
    }

    /// `{2 999 3}`
    fn arcs(&mut self, alloc: Global) -> Result<Vec<u128>, Unread> {
        let mut arcs = Vec::new(alloc);
        self.expect("{")?;
        for _ in 0..u32::MAX {
            if self.take("}") {
                return Ok(arcs);
            }
            arcs.push(self.word().parse::<u128>()?)?;
        }
        Err(Unread::Malformed)
    }

    /// `"text"`, or the octets of its UTF-8.
    fn characters(&mut self, alloc: Global) -> Result<String, Unread> {
        if self.is_next("\"") {
            return Ok(String::from_str(alloc, self.quoted('"')?)?);
        }
        let octets = self.octets(alloc)?;
        let text = str::from_utf8(&octets)?;
        Ok(String::from_str(alloc, text)?)
    }

    /// `TYPE : VALUE)`, of a type without parts.
    pub fn value_of_another_kind(&mut self, alloc: Global) -> Result<Box<Value>, Unread> {
        let word = self.word();
        let ty = self.simple(alloc, word)?;
        self.expect(":")?;
        let value = self.value(alloc, &ty.kind)?;
        self.expect(")")?;
        Ok(value)
    }
}

/// The number that has this name.
fn number_of(items: &[Named], name: &str) -> Result<i128, Unread> {
    for item in items {
        if item.name.as_str() == name {
            return Ok(item.number);
        }
    }
    Err(Unread::Malformed)
}

/// What a component that isn't written has as its value.
fn default_of(presence: &Presence) -> Result<Option<Value>, Unread> {
    match presence {
        Presence::Default(value) => Ok(Some(value.copy()?)),
        _ => Ok(None),
    }
}
