//! The words and marks of a text, one after another.
use crate::notation::unread::Unread;

/// What is left of a text, without the space in front of it.
#[derive(Clone, Copy)]
pub struct Words<'a> {
    left: &'a str,
}

impl<'a> Words<'a> {
    pub fn new(text: &'a str) -> Words<'a> {
        Words {
            left: text.trim_start(),
        }
    }

    /// How many octets are left.
    pub fn octets_left(&self) -> usize {
        self.left.len()
    }

    /// The word in front, which stays: letters, digits and hyphens. It is empty where another character is there.
    pub fn front(&self) -> &'a str {
        match self
            .left
            .find(|c: char| !c.is_ascii_alphanumeric() && c != '-')
        {
            Some(end) => self.left.get(..end).unwrap_or(""),
            None => self.left,
        }
    }

    /// Takes the word in front.
    pub fn word(&mut self) -> &'a str {
        let word = self.front();
        self.take(word);
        word
    }

    /// Whether these characters come next.
    pub fn is_next(&self, mark: &str) -> bool {
        self.left.starts_with(mark)
    }

    /// Takes these characters where they come next, and answers whether they did.
    pub fn take(&mut self, mark: &str) -> bool {
        match self.left.strip_prefix(mark) {
            Some(left) => {
                self.left = left.trim_start();
                true
            }
            None => false,
        }
    }

    /// Takes OF, and constraints in front of it, where they come next, and answers whether they did.
    pub fn take_of(&mut self) -> bool {
        if !self.is_next("(") {
            return self.take("OF");
        }
        match self.left.split_once(") OF") {
            Some((_, left)) => {
                self.left = left.trim_start();
                true
            }
            None => false,
        }
    }

    /// Takes these characters, which must come next.
    pub fn expect(&mut self, mark: &str) -> Result<(), Unread> {
        if self.take(mark) {
            Ok(())
        } else {
            Err(Unread::Malformed)
        }
    }

    /// Takes what comes next, between two such quotes.
    pub fn quoted(&mut self, quote: char) -> Result<&'a str, Unread> {
        let (text, left) = self
            .left
            .strip_prefix(quote)
            .and_then(|left| left.split_once(quote))
            .ok_or(Unread::Malformed)?;
        self.left = left.trim_start();
        Ok(text)
    }

    /// Takes the number in front.
    pub fn number(&mut self) -> Result<i128, Unread> {
        Ok(self.word().parse::<i128>()?)
    }

    /// Nothing must be left after what was read.
    pub fn end(&self) -> Result<(), Unread> {
        if self.left.is_empty() {
            Ok(())
        } else {
            Err(Unread::Malformed)
        }
    }
}
