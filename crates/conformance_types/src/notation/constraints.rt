//! Constraints.
use crate::notation::types::below;
use crate::notation::unread::Unread;
use crate::notation::words::Words;
use guard_model::{Comp, Cons, Kind, Limit, NamedList, Part, Rule, Site, Ty, Word};
use std::alloc::Global;
use std::sync::{Arc, ArcSlice};

impl Words<'_> {
    /// A site that tells the constraints of one text apart: its column counts the octets from there to the end.
    fn site(&self) -> Site {
        Site {
            text: 1,
            line: 1,
            column: u32::try_from(self.octets_left()).unwrap_or(u32::MAX),
        }
    }

    /// Puts on a type the constraints that are written after it.
    #[cycle(notation)]
    pub fn constraints(&mut self, alloc: Global, ty: &mut Ty, depth: u32) -> Result<(), Unread> {
        for _ in 0..u32::MAX {
            if !self.is_next("(") {
                break;
            }
            let constraint = self.constraint(alloc, &ty.kind, depth)?;
            ty.cons.push(Box::into_inner(constraint))?;
        }
        Ok(())
    }

    /// A set in parentheses.
    #[cycle(notation)]
    fn constraint(&mut self, alloc: Global, kind: &Kind, depth: u32) -> Result<Box<Cons>, Unread> {
        let left = below(depth)?;
        self.expect("(")?;
        let set = self.set(alloc, kind, left)?;
        self.expect(")")?;
        Ok(set)
    }

    /// An element, or elements with one operator between them.
    #[cycle(notation)]
    fn set(&mut self, alloc: Global, kind: &Kind, depth: u32) -> Result<Box<Cons>, Unread> {
        let site = self.site();
        let first = self.element(alloc, kind, depth)?;
        if self.take("EXCEPT") {
            let second = self.element(alloc, kind, depth)?;
            let rule = Rule::Minus(shared(alloc, first)?, shared(alloc, second)?);
            return boxed(alloc, site, rule);
        }
        if self.is_next("|") {
            let all = self.operands(alloc, kind, "|", first, depth)?;
            return boxed(alloc, site, Rule::Any(all));
        }
        if self.is_next("^") {
            let all = self.operands(alloc, kind, "^", first, depth)?;
            return boxed(alloc, site, Rule::Both(all));
        }
        Ok(first)
    }

    /// The first operand and those that follow, each with the operator in front.
    #[cycle(notation)]
    fn operands(
        &mut self,
        alloc: Global,
        kind: &Kind,
        operator: &str,
        first: Box<Cons>,
        depth: u32,
    ) -> Result<ArcSlice<Cons>, Unread> {
        let mut operands = Vec::new(alloc);
        operands.push(Box::into_inner(first))?;
        for _ in 0..u32::MAX {
            if !self.take(operator) || self.is_next(")") {
                break;
            }
            let operand = self.element(alloc, kind, depth)?;
            operands.push(Box::into_inner(operand))?;
        }
        Ok(ArcSlice::from_vec(operands)?)
    }

    #[cycle(notation)]
    fn element(&mut self, alloc: Global, kind: &Kind, depth: u32) -> Result<Box<Cons>, Unread> {
        if self.is_next("(") {
            return self.constraint(alloc, kind, depth);
        }
        let site = self.site();
        let rule = self.rule(alloc, kind, depth)?;
        boxed(alloc, site, rule)
    }

    #[cycle(notation)]
    fn rule(&mut self, alloc: Global, kind: &Kind, depth: u32) -> Result<Rule, Unread> {
        if self.take("INCLUDES") {
            let contained = Box::into_inner(self.ty(alloc, depth)?);
            return Ok(Rule::Inside(Arc::new(alloc, contained)?));
        }
        if self.take("SIZE") {
            let size = Kind::Int(NamedList::shared(alloc, Vec::new(alloc))?);
            let constraint = self.constraint(alloc, &size, depth)?;
            return Ok(Rule::Size(shared(alloc, constraint)?));
        }
        if self.take("ALL EXCEPT") {
            let constraint = self.element(alloc, kind, below(depth)?)?;
            return Ok(Rule::Other(shared(alloc, constraint)?));
        }
        if self.take("WITH COMPONENTS") {
            return self.parts(alloc, components_of(kind), depth);
        }
        if self.take("WITH COMPONENT") {
            let constraint = self.constraint(alloc, element_of(kind), depth)?;
            return Ok(Rule::Each(shared(alloc, constraint)?));
        }
        self.value_or_range(alloc, kind)
    }

    /// Components in braces, with `...` in front of them where they are not all.
    #[cycle(notation)]
    fn parts(&mut self, alloc: Global, comps: &[Comp], depth: u32) -> Result<Rule, Unread> {
        self.expect("{")?;
        let partial = self.take("...");
        self.take(",");
        let mut parts = Vec::new(alloc);
        for _ in 0..u32::MAX {
            if self.take("}") {
                return Ok(Rule::Parts(partial, ArcSlice::from_vec(parts)?));
            }
            self.part(alloc, comps, &mut parts, depth)?;
            self.take(",");
        }
        Err(Unread::Malformed)
    }

    #[cycle(notation)]
    fn part(
        &mut self,
        alloc: Global,
        comps: &[Comp],
        parts: &mut Vec<Part>,
        depth: u32,
    ) -> Result<(), Unread> {
        let site = self.site();
        let (at, comp) = component_of(comps, self.word())?;
        let cons = match comp {
            Some(comp) if self.is_next("(") => {
                let constraint = self.constraint(alloc, &comp.ty.kind, depth)?;
                Some(Box::into_inner(constraint))
            }
            _ => None,
        };
        let word = self.presence_word();
        parts.push(Part {
            site,
            at,
            cons,
            word,
        })?;
        Ok(())
    }

    fn presence_word(&mut self) -> Option<Word> {
        let word = match self.front() {
            "PRESENT" => Word::Present,
            "ABSENT" => Word::Absent,
            "OPTIONAL" => Word::Optional,
            _ => return None,
        };
        self.word();
        Some(word)
    }

    fn value_or_range(&mut self, alloc: Global, kind: &Kind) -> Result<Rule, Unread> {
        if self.take("FROM") {
            return Ok(Rule::Alphabet(self.alphabet(alloc)?));
        }
        let before = *self;
        if let Some(low) = self.low_end() {
            return Ok(Rule::Range(low, self.high_end()?));
        }
        *self = before;
        let value = self.value(alloc, kind)?;
        Ok(Rule::One(Arc::new(alloc, Box::into_inner(value))?))
    }

    /// The low end of a range and the two dots after it.
    fn low_end(&mut self) -> Option<Limit> {
        let word = self.word();
        let out = self.take("<");
        if self.take("..") {
            limit_of(word, out)
        } else {
            None
        }
    }

    fn high_end(&mut self) -> Result<Limit, Unread> {
        let out = self.take("<");
        limit_of(self.word(), out).ok_or(Unread::Malformed)
    }

    /// Ranges of characters in parentheses.
    fn alphabet(&mut self, alloc: Global) -> Result<ArcSlice<(u32, u32)>, Unread> {
        let mut ranges = Vec::new(alloc);
        self.expect("(")?;
        for _ in 0..u32::MAX {
            let low = self.character()?;
            let high = if self.take("..") {
                self.character()?
            } else {
                low
            };
            ranges.push((low, high))?;
            if !self.take("|") {
                break;
            }
        }
        self.expect(")")?;
        Ok(ArcSlice::from_vec(ranges)?)
    }

    /// The code of the one character of a string.
    fn character(&mut self) -> Result<u32, Unread> {
        let mut characters = self.quoted('"')?.chars();
        match (characters.next(), characters.next()) {
            (Some(character), None) => Ok(u32::from(character)),
            _ => Err(Unread::Malformed),
        }
    }
}

fn boxed(alloc: Global, site: Site, rule: Rule) -> Result<Box<Cons>, Unread> {
    Ok(Box::new(alloc, Cons { site, rule })?)
}

fn shared(alloc: Global, constraint: Box<Cons>) -> Result<Arc<Cons>, Unread> {
    Ok(Arc::new(alloc, Box::into_inner(constraint))?)
}

fn limit_of(word: &str, out: bool) -> Option<Limit> {
    if word == "MIN" || word == "MAX" {
        return Some(Limit::Free);
    }
    let number = word.parse::<i128>().ok()?;
    Some(if out {
        Limit::Past(number)
    } else {
        Limit::At(number)
    })
}

/// The kind of the elements of an OF type.
fn element_of(kind: &Kind) -> &Kind {
    match kind {
        Kind::SequenceOf(element) => &element.kind,
        Kind::SetOf(element) => &element.kind,
        _ => kind,
    }
}

fn components_of(kind: &Kind) -> &[Comp] {
    match kind {
        Kind::Sequence(comps) => comps,
        Kind::Set(comps) => comps,
        Kind::Choice(alternatives) => alternatives,
        _ => &[],
    }
}

/// The component with this name, and its place. A number is a place where no component need be.
fn component_of<'a>(comps: &'a [Comp], name: &str) -> Result<(u8, Option<&'a Comp>), Unread> {
    for (place, comp) in comps.iter().enumerate() {
        if comp.name.as_str() == name {
            let place = u8::try_from(place)?;
            return Ok((place, Some(comp)));
        }
    }
    Ok((name.parse::<u8>()?, None))
}
