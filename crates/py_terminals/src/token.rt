// The terminal of a token.
ghost use Rattle.std.specs.Prelude.{◌≡◌, ◌≤◌, ◌<◌, ◌+◌, ◌-◌, ◌^◌, ◌++◌, ◌∷◌, [], length, slice_get, Some, OnOk};
ghost use Rattle.py_terminals.specs.Tokens as spec;

use crate::place::end_line_of;
use crate::spelling::{keyword_symbol, name_symbol, operator_symbol};
use crate::string::has_letter;
use lint_values::Memory;
use py_grammar::Symbol;
use py_line::Line;
use py_token::{Token, TokenKind, Tokens};

fn string_symbol(text: &str) -> Symbol
    ensures { result ≡ spec.string_symbol text.now }
{
    if has_letter(b'b', text.as_bytes()) {
        Symbol::Bytes
    } else {
        Symbol::Str
    }
}

/// The symbol of a token, by its kind and by what is written.
fn symbol_of(kind: TokenKind, text: &str) -> Symbol
    ensures { result ≡ spec.symbol_of kind text.now }
{
    match kind {
        TokenKind::Name => name_symbol(text),
        TokenKind::Keyword => keyword_symbol(text),
        TokenKind::Number => Symbol::Number,
        TokenKind::Str => string_symbol(text),
        TokenKind::FStr => Symbol::FStr,
        TokenKind::Op => operator_symbol(text),
    }
}

/// A name's normal form, and else what is written.
fn text_of<'t>(tokens: &'t Tokens<'t>, i: usize, token: Token) -> &'t str
    requires within { i < length tokens.now.tokens }
    requires here { slice_get tokens.now.tokens i ≡ Some token }
    ensures { result.now ≡ spec.text_of token.kind (spec.written tokens.now.text token) }
{
    match token.kind {
        TokenKind::Name => tokens.name(i),
        TokenKind::Keyword | TokenKind::Number | TokenKind::Str | TokenKind::FStr | TokenKind::Op =>
            tokens.text(i),
    }
}

/// Adds the terminal of a token.
pub(crate) fn push_token(
    tokens: &Tokens,
    i: usize,
    token: Token,
    line: &mut Line,
) -> Result<(), Memory>
    requires within { i < length tokens.now.tokens }
    requires here { slice_get tokens.now.tokens i ≡ Some token }
    requires lines { token.pos.line + (token.end - token.start) ≤ 2 ^ 32 }
    requires columns { token.pos.col + (token.end - token.start) ≤ 2 ^ 32 }
    ensures { OnOk result (line.new ≡ line.old ++ spec.terminal_of token.kind (spec.written tokens.now.text token) token.pos ∷ []) }
{
    let written = tokens.text(i);
    let symbol = symbol_of(token.kind, written);
    let end_line = end_line_of(token.pos, written);
    let text = text_of(tokens, i, token);
    line.push(symbol, token.pos, end_line, text)
}
