//! A place among the tokens of a text, and steps over single tokens.
ghost use Rattle.std.specs.Prelude.{◌≡◌, length, Some, true, false};
ghost use Rattle.guard_model.specs.Answer.{Gives};
ghost use Rattle.guard_syntax.specs.Lexemes.{octets_of, HasSpelling};
ghost use Rattle.guard_syntax.specs.inside.ReadTokens as reading;
ghost use Rattle.guard_syntax.specs.inside.ReadTokens.{failure_of};
ghost use Rattle.guard_syntax.specs.inside.Cursors.{ahead, Reads};

use crate::read_error::{Failure, ReadError};
use guard_lexer::{Token, TokenKind};
use guard_model::Site;

/// What is still to be read: some last tokens of a text, and the text that they borrow their spellings from.
#[derive(Clone, Copy)]
pub struct Cursor<'a, 't> {
    pub text: &'a [u8],
    pub tokens: &'t [Token],
}

/// What was read, and what is still to be read after it.
pub type Read<'a, 't, T> = Result<(T, Cursor<'a, 't>), ReadError>;

impl<'a, 't> Cursor<'a, 't> {
    /// How many tokens are still to be read.
    pub fn len(self) -> usize
        ensures { result ≡ length (ahead self.entry) }
    {
        self.tokens.len()
    }

    pub fn begins_with(self, kind: TokenKind) -> bool
        ensures { result ≡ reading.begins_with kind (ahead self.entry) }
    {
        match self.tokens {
            [first, ..] => first.kind == kind,
            [] => false,
        }
    }

    /// The cursor after the first token; where there is none, the same cursor.
    pub fn behind(self) -> Cursor<'a, 't>
        ensures { ahead result ≡ reading.behind (ahead self.entry) }
    {
        match self.tokens {
            [_, rest @ ..] => Cursor {
                text: self.text,
                tokens: rest,
            },
            [] => self,
        }
    }

    /// The cursor after the first token where it is said to be there, else the same cursor.
    pub fn behind_if(self, there: bool) -> Cursor<'a, 't>
        ensures { ahead result ≡ reading.behind_if there (ahead self.entry) }
    {
        if there { self.behind() } else { self }
    }

    /// The site of the first token; where there is none, a site whose three numbers are 0.
    pub fn site(self) -> Site
        ensures { result ≡ reading.site_at (ahead self.entry) }
    {
        match self.tokens {
            [first, ..] => first.site,
            [] => Site {
                text: 0,
                line: 0,
                column: 0,
            },
        }
    }

    /// The error that reading fails here, where no module goes on so.
    pub fn unexpected(self) -> ReadError
        ensures { failure_of result ≡ Some (Failure.Unexpected (length (ahead self.entry))) }
    {
        ReadError::At(Failure::Unexpected(self.len()))
    }

    /// The error that reading fails here: since a node would be too deep, where the first token begins one, else since
    /// no module goes on so.
    pub fn too_deep(self, begins: bool) -> ReadError
        ensures deep { begins ≡ true → failure_of result ≡ Some (Failure.TooDeep (length (ahead self.entry))) }
        ensures other { begins ≡ false → failure_of result ≡ Some (Failure.Unexpected (length (ahead self.entry))) }
    {
        if begins {
            ReadError::At(Failure::TooDeep(self.len()))
        } else {
            self.unexpected()
        }
    }

    /// The cursor after one token of this kind. Where the first token is of another kind, or there is none, the error
    /// is that reading fails here.
    #[tactic(auto, unfolding(crate::specs::inside::ReadTokens::read_token))]
    pub fn after(self, kind: TokenKind) -> Result<Cursor<'a, 't>, ReadError>
        ensures { Gives ahead failure_of result (reading.read_token kind (ahead self.entry)) }
    {
        if self.begins_with(kind) {
            Ok(self.behind())
        } else {
            Err(self.unexpected())
        }
    }

    /// The spelling of one token of this kind, and the cursor after it. Where the first token is of another kind, or
    /// there is none, the error is that reading fails here. Condition: the kind is no reserved word that the grammar
    /// uses, and no mark.
    #[tactic(auto, unfolding(crate::specs::inside::ReadTokens::read_spelling))]
    pub fn spelling(self, kind: TokenKind) -> Read<'a, 't, &'a [u8]>
        requires { HasSpelling kind }
        ensures { Reads (λ s. s.now) result (reading.read_spelling kind (ahead self.entry)) }
    {
        match self.tokens {
            [first, ..] if first.kind == kind => Ok((octets(self.text, first), self.behind())),
            _ => Err(self.unexpected()),
        }
    }
}

/// The octets of a token in the text. A span that leaves the text is cut.
pub fn octets<'a>(text: &'a [u8], token: &Token) -> &'a [u8]
    ensures { result.now ≡ octets_of text.now token.now }
{
    let end = (token.end as usize).min(text.len());
    let start = (token.start as usize).min(end);
    &text[start..end]
}
