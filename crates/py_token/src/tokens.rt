// The tokens of a source.
ghost use Rattle.std.specs.Prelude.{◌≡◌, ◌<◌, ◌≤◌, ◌+◌, ◌-◌, ◌^◌, length, slice_get, Some, IfSome};
ghost use Rattle.py_source.specs.Spans.{bytes_of};
ghost use Rattle.py_token.specs.declared.token.TokenKind.TheVariants.{Name};

use crate::forms::Forms;
use crate::token::{Comment, Token};
use py_layout::Logical;
use py_source::{Span, slice};
use std::marker::Model;

/// The tokens of a source with its text, logical lines, comments and physical lines.
#[derive(Debug, Drop)]
pub struct Tokens<'a> {
    text: &'a str,
    tokens: Vec<Token>,
    lines: Vec<Logical>,
    comments: Vec<Comment>,
    physical: Vec<Span>,
    forms: Forms,
}

impl<'a> Model for Tokens<'a> {
    ghost use Rattle.py_token.specs.Tokenized.{Tokenized};
    ghost use Rattle.py_token.specs.Forms.{HasForms};
    ghost use Rattle.py_token.specs.Spans.{AreParts, AreRoomy};

    ghost Value = { Tokenized };

    ghost view = { λ t. record { text = t.text.now; tokens = t.tokens.items; lines = t.lines.items; comments = t.comments.items; physical = t.physical.items } };

    ghost invariant = { λ t. AreParts t.text.now t.tokens.items × AreRoomy t.tokens.items × HasForms t.text.now t.tokens.items t.forms };
}

impl<'a> Tokens<'a> {
    ghost use Rattle.py_normal_form.specs.NormalForm.{normal_form_of};
    ghost use Rattle.py_token.specs.Forms.{HasForms};
    ghost use Rattle.py_token.specs.Spans.{AreParts, AreRoomy, span_of};

    pub(crate) fn new(
        text: &'a str,
        tokens: Vec<Token>,
        lines: Vec<Logical>,
        comments: Vec<Comment>,
        physical: Vec<Span>,
        forms: Forms,
    ) -> Tokens<'a>
        requires parts { AreParts text.now tokens.items }
        requires room { AreRoomy tokens.items }
        requires forms { HasForms text.now tokens.items forms }
        ensures { result ≡ record { text = text.now; tokens = tokens.items; lines = lines.items; comments = comments.items; physical = physical.items } }
    {
        Tokens {
            text,
            tokens,
            lines,
            comments,
            physical,
            forms,
        }
    }

    /// The text of the source, without a byte order mark.
    pub fn source(&self) -> &'a str
        ensures { result.now ≡ self.now.text }
    {
        self.text
    }

    /// How many tokens there are.
    pub fn count(&self) -> usize
        ensures { result ≡ length self.now.tokens }
    {
        self.tokens.len()
    }

    /// The token with this number, from 0. Each of its bytes has a line and a column below 2^32.
    pub fn token(&self, i: usize) -> Token
        requires { i < length self.now.tokens }
        ensures value { slice_get self.now.tokens i ≡ Some result }
        ensures lines { result.pos.line + (result.end - result.start) ≤ 2 ^ 32 }
        ensures columns { result.pos.col + (result.end - result.start) ≤ 2 ^ 32 }
    {
        self.tokens[i]
    }

    /// The slice of the source that the token is.
    pub fn text(&self, i: usize) -> &'a str
        requires { i < length self.now.tokens }
        ensures value { IfSome (slice_get self.now.tokens i) (λ token. result.now ≡ bytes_of self.now.text (span_of token)) }
        ensures size { IfSome (slice_get self.now.tokens i) (λ token. length result.now ≡ token.end - token.start) }
    {
        let token = self.tokens[i];
        slice(
            self.text,
            Span {
                start: token.start,
                end: token.end,
            },
        )
    }

    /// The normal form NFKC of a name, by which names are compared: the slice of the source where that is its own form.
    pub fn name(&self, i: usize) -> &str
        requires within { i < length self.now.tokens }
        requires name { IfSome (slice_get self.now.tokens i) (λ token. token.kind ≡ Name) }
        ensures { IfSome (slice_get self.now.tokens i) (λ token. result.now ≡ normal_form_of (bytes_of self.now.text (span_of token))) }
    {
        match self.forms.get(&i) {
            Some(form) => form.as_str(),
            None => self.text(i),
        }
    }

    /// The logical lines, by the numbers of their tokens.
    pub fn lines(&self) -> &[Logical]
        ensures { result.now ≡ self.now.lines }
    {
        self.lines.as_slice()
    }

    /// The comments, in the order of the text.
    pub fn comments(&self) -> &[Comment]
        ensures { result.now ≡ self.now.comments }
    {
        self.comments.as_slice()
    }

    /// The physical lines, by their byte places without their line ends.
    pub fn physical(&self) -> &[Span]
        ensures { result.now ≡ self.now.physical }
    {
        self.physical.as_slice()
    }
}
