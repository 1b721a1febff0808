//! Tags.
use crate::notation::unread::Unread;
use crate::notation::words::Words;
use guard_model::{Class, Tag};

/// A tag that is written in front of a type.
#[derive(Clone, Copy)]
pub struct Prefix {
    pub tag: Tag,
    /// Whether it is in place of the type's outermost tag.
    pub implicit: bool,
}

/// The tag that a text writes.
pub fn tag_of(text: &str) -> Result<Tag, Unread> {
    let mut words = Words::new(text);
    let tag = words.tag()?;
    words.end()?;
    Ok(tag)
}

impl Words<'_> {
    /// `[CLASS NUMBER]`
    pub fn tag(&mut self) -> Result<Tag, Unread> {
        self.expect("[")?;
        let class = self.class();
        let number = self.word().parse::<u32>()?;
        self.expect("]")?;
        Ok(Tag { class, number })
    }

    fn class(&mut self) -> Class {
        let class = match self.front() {
            "UNIVERSAL" => Class::Universal,
            "APPLICATION" => Class::Application,
            "PRIVATE" => Class::Private,
            _ => return Class::Context,
        };
        self.word();
        class
    }

    /// A tag and whether it is implicit.
    pub fn prefix(&mut self) -> Result<Prefix, Unread> {
        let tag = self.tag()?;
        let implicit = self.take("IMPLICIT");
        if !implicit {
            self.take("EXPLICIT");
        }
        Ok(Prefix { tag, implicit })
    }
}
