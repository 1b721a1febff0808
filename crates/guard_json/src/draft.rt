//! An object that is being written, and the values of its members.
ghost use Rattle.std.specs.Prelude.{◌≡◌, ◌&&◌, true, cond, [], IfSome, IfOk, OnOk, option_map, Some, None};
ghost use Rattle.std.specs.Str.{is_utf8};
ghost use Rattle.json.specs.Token.{string};
ghost use Rattle.json.specs.Reads.{token_of};
ghost use Rattle.json.specs.Print.{print};
ghost use Rattle.guard_json.specs.Members.{number_in, name_in, path_in, text_in};
ghost use Rattle.guard_json.specs.inside.Drafting.{is_fine};

use crate::cutting::{is_number, is_path};
use guard_model::OutOfMemory;
use guard_policy::is_name;
use json::{Token, Writer};
use std::alloc::Global;
use std::str::from_utf8;

/// An object that is being written: as JSON so far, whether the line has had its form, and whether there was memory.
#[derive(Drop)]
pub struct Draft {
    writer: Writer,
    has_form: bool,
    has_memory: bool,
}

impl Draft {
    ghost use Rattle.guard_json.specs.Members.{mark, member, only_where};
    ghost use Rattle.guard_json.specs.inside.Drafting.{drafted, are_fine, Adds, Reads};

    /// A draft of nothing.
    pub fn new(alloc: Global) -> Draft
        ensures empty { drafted result ≡ Some [] }
        ensures before { result.writer.before ≡ [] }
        ensures memory { result.has_memory ≡ true }
        ensures fine { are_fine result ≡ true }
    {
        Draft {
            writer: Writer::new(Vec::new(alloc)),
            has_form: true,
            has_memory: true,
        }
    }

    /// Adds a token.
    pub fn put(&mut self, token: Token<'_>)
        requires { is_fine (token_of token) ≡ true }
        ensures { Adds self.old self.new (mark (token_of token.entry)) }
    {
        if self.has_memory {
            self.has_memory = self.writer.token(token).is_ok();
        }
    }

    /// Adds a member that is a number. The line hasn't its form where the word is none.
    pub fn number(&mut self, name: &str, word: &[u8])
        ensures { Adds self.old self.new (member name.now (number_in word.now)) }
    {
        match utf8_where(word, is_number(word)) {
            Some(number) => self.member(name, Token::Number(number)),
            None => self.only_where(false),
        }
    }

    /// Adds a member that is a name. The line hasn't its form where the word is none.
    pub fn name(&mut self, name: &str, word: &[u8])
        ensures { Adds self.old self.new (member name.now (name_in word.now)) }
    {
        self.string(name, utf8_where(word, is_name(word)));
    }

    /// Adds a member that is a path. The line hasn't its form where the word is none.
    pub fn path(&mut self, name: &str, word: &[u8])
        ensures { Adds self.old self.new (member name.now (path_in word.now)) }
    {
        self.string(name, utf8_where(word, is_path(word)));
    }

    /// Adds a member that is any text. The line hasn't its form where the octets aren't UTF-8.
    pub fn text(&mut self, name: &str, octets: &[u8])
        ensures { Adds self.old self.new (member name.now (text_in octets.now)) }
    {
        self.string(name, utf8_where(octets, true));
    }

    fn string(&mut self, name: &str, text: Option<&str>)
        ensures { Adds self.old self.new (member name.now (option_map (λ text. string text.now) text.entry)) }
    {
        match text {
            Some(text) => self.member(name, Token::String(text)),
            None => self.only_where(false),
        }
    }

    fn member(&mut self, name: &str, value: Token<'_>)
        requires { is_fine (token_of value) ≡ true }
        ensures { Adds self.old self.new (member name.now (Some (token_of value.entry))) }
    {
        self.put(Token::Key(name));
        self.put(value);
    }

    /// The line hasn't its form unless this holds.
    pub fn only_where(&mut self, holds: bool)
        ensures { Adds self.old self.new (only_where holds) }
    {
        if !holds {
            self.has_form = false;
        }
    }

    /// The text, where the line had its form.
    pub fn finish(self) -> Result<Option<Vec<u8>>, OutOfMemory>
        requires before { self.writer.before ≡ [] }
        requires fine { are_fine self ≡ true }
        ensures memory { OnOk result (self.has_memory ≡ true) }
        ensures text { IfOk result (λ text. option_map (λ text. text.items) text ≡ option_map print (drafted self)) }
        ensures reads { OnOk result (IfSome (drafted self) Reads) }
    {
        if !self.has_memory {
            return Err(OutOfMemory);
        }
        let text = self.writer.into_inner();
        Ok(if self.has_form { Some(text) } else { None })
    }
}

/// The octets as text, where this holds and they are UTF-8.
fn utf8_where(octets: &[u8], holds: bool) -> Option<&str>
    ensures { option_map (λ text. text.now) result ≡ cond (holds && is_utf8 octets.now) (Some octets.now) None }
{
    if !holds {
        return None;
    }
    match from_utf8(octets) {
        Ok(text) => Some(text),
        Err(_) => None,
    }
}
