//! Tokens with their bytes, and those that are still to be read.

use crate::lexer::TokenKind;
use crate::mark::Mark;

/// A token of a text, with the place of its first byte.
#[derive(Clone, Copy, Debug)]
pub struct Lexeme<'a> {
    /// What the token is, with its word or mark.
    pub kind: TokenKind,
    /// The place of its first byte, in bytes from 0.
    pub place: u32,
    /// All of its bytes, as they stand in the text.
    pub bytes: &'a [u8],
}

/// The tokens that are still to be read.
#[derive(Clone, Copy, Debug)]
pub struct Cursor<'t, 'a> {
    /// Those tokens, the next one first.
    pub left: &'t [Lexeme<'a>],
}

impl<'t, 'a> Cursor<'t, 'a> {
    ghost use Rattle.std.specs.Prelude.{◌≡◌, ◌≢◌, [], ◌∷◌};
    ghost use Rattle.mini_syntax.specs.declared.expected.Expected.TheVariants as wants;
    ghost use Rattle.mini_syntax.specs.{Internal.Lexemes.{left_of, next_kind, token_seen}, Internal.Phrases.{Awaits}, Tokens.{mark_at}};

    /// What the next token is, and `Wrong` where none is left.
    #[tactic(auto, using(crate::proofs::ReadingLaws::kind_seen))]
    pub(crate) fn kind(&self) -> TokenKind
        ensures { result ≡ next_kind (left_of self.now) }
    {
        match self.left {
            [] => TokenKind::Wrong,
            [first, ..] => first.kind,
        }
    }

    /// Takes the next token.
    pub(crate) fn next(&mut self) -> Lexeme<'a>
        requires { left_of self.old ≢ [] }
        ensures { left_of self.old ≡ token_seen result ∷ left_of self.new }
    {
        match self.left {
            [] => unreachable!(),
            [first, rest @ ..] => {
                self.left = rest;
                *first
            }
        }
    }

    /// Takes a mark, and returns its place.
    pub(crate) fn mark(&mut self, mark: Mark) -> u32
        requires { Awaits (wants.Mark mark ∷ []) (left_of self.old) }
        ensures { left_of self.old ≡ mark_at result mark ∷ left_of self.new }
    {
        self.next().place
    }
}
