// The items, tokens and comments of a text's pieces.
ghost use Rattle.std.specs.Prelude.{◌≡◌, ◌++◌, ◌+◌, ◌<◌, ◌≤◌, ◌^◌, length, take, not, IfOk, OnOk, chars, encode_utf8_all};
ghost use Rattle.py_token.specs.Items.{items_of};
ghost use Rattle.py_token.specs.Scanned.{comment_at, comments_from, kind_of, token_at, tokens_from};
ghost use Rattle.py_token.specs.Settings.{seen};
ghost use Rattle.py_token.specs.Steps.{AreCut, StandsAt};
ghost use Rattle.py_source.specs.Places.{pos_from};

use crate::item::item_of;
use crate::setting::{Setting, seen_as};
use crate::token::{Comment, Token, TokenKind};
use lint_values::{Memory, Pos};
use py_layout::{Item, is_head_behind};
use py_lexeme::{Kind, Piece};
use py_source::{advance, byte_len};
use std::alloc::Global;

/// What a text's pieces are, in three lists.
#[derive(Debug, Drop)]
pub(crate) struct Scanned {
    pub(crate) items: Vec<Item>,
    pub(crate) tokens: Vec<Token>,
    pub(crate) comments: Vec<Comment>,
}

fn kind_of(kind: Kind) -> Option<TokenKind>
    ensures { result ≡ kind_of kind }
{
    match kind {
        Kind::Name => Some(TokenKind::Name),
        Kind::Keyword => Some(TokenKind::Keyword),
        Kind::Number => Some(TokenKind::Number),
        Kind::Str => Some(TokenKind::Str),
        Kind::FStr => Some(TokenKind::FStr),
        Kind::Op => Some(TokenKind::Op),
        Kind::Blank | Kind::LineEnd | Kind::Comment | Kind::Join => None,
    }
}

/// Adds the token of a piece, if it is one.
fn add_token(
    tokens: &mut Vec<Token>,
    kind: Kind,
    start: u32,
    end: u32,
    pos: Pos,
) -> Result<(), Memory>
    ensures { OnOk result (tokens.new.items ≡ tokens.old.items ++ token_at (kind_of kind) start end pos) }
{
    match kind_of(kind) {
        None => Ok(()),
        Some(kind) => {
            tokens.push(Token {
                kind,
                start,
                end,
                pos,
            })?;
            Ok(())
        }
    }
}

/// Adds the comment of a piece, if it is one.
fn add_comment(
    comments: &mut Vec<Comment>,
    kind: Kind,
    alone: bool,
    start: u32,
    end: u32,
    pos: Pos,
) -> Result<(), Memory>
    ensures { OnOk result (comments.new.items ≡ comments.old.items ++ comment_at kind alone start end pos) }
{
    match kind {
        Kind::Comment => {
            comments.push(Comment {
                pos,
                start,
                end,
                alone,
            })?;
            Ok(())
        }
        _ => Ok(()),
    }
}

/// The place behind so many characters, where more follow.
#[tactic(auto, using(crate::proofs::ScanLaws::line_bound, crate::proofs::ScanLaws::col_bound))]
fn pos_behind(at: Pos, rest: &[char], len: usize) -> Pos
    requires within { len ≤ length rest.now }
    requires line { len < length rest.now → at.line + length (encode_utf8_all (take len rest.now)) < 2 ^ 32 }
    requires col { len < length rest.now → at.col + length (encode_utf8_all (take len rest.now)) < 2 ^ 32 }
    ensures value { len < length rest.now → result ≡ pos_from at (length (encode_utf8_all (take len rest.now))) (encode_utf8_all rest.now) }
    ensures line { result.line ≤ at.line + length (encode_utf8_all (take len rest.now)) }
    ensures col { result.col ≤ at.col + length (encode_utf8_all (take len rest.now)) }
{
    if len < rest.len() {
        return advance(at, rest, len);
    }
    at
}

/// The items, tokens and comments of pieces that the text is cut into.
pub(crate) fn scan(
    alloc: Global,
    text: &str,
    characters: &[char],
    pieces: &[Piece],
    setting: Setting,
) -> Result<Scanned, Memory>
    requires same { characters.now ≡ chars text.now }
    requires short { length text.now < 2 ^ 32 }
    requires lines { setting.from.line + length text.now ≤ 2 ^ 32 }
    requires columns { setting.from.col + length text.now ≤ 2 ^ 32 }
    requires cut { AreCut characters.now pieces.now }
    ensures items { IfOk result (λ scanned. scanned.items.items ≡ seen setting.inside (items_of characters.now pieces.now)) }
    ensures tokens { IfOk result (λ scanned. scanned.tokens.items ≡ tokens_from setting.from text.now characters.now pieces.now) }
    ensures comments { IfOk result (λ scanned. scanned.comments.items ≡ comments_from setting.from text.now (not setting.inside) characters.now pieces.now) }
{
    let mut items = Vec::new(alloc);
    let mut tokens = Vec::new(alloc);
    let mut comments = Vec::new(alloc);
    let mut rest = characters;
    let mut at = setting.from;
    let mut start: u32 = 0;
    let mut is_head = !setting.inside;
    for piece in pieces {
        let len = piece.len as usize;
        let (front, behind) = rest.split_at(len);
        let end = start + byte_len(front) as u32;
        let item = item_of(piece.kind, front);
        items.push(seen_as(setting.inside, item))?;
        add_token(&mut tokens, piece.kind, start, end, at)?;
        add_comment(&mut comments, piece.kind, is_head, start, end, at)?;
        is_head = is_head_behind(is_head, item);
        at = pos_behind(at, rest, len);
        start = end;
        rest = behind;
    }
    Ok(Scanned {
        items,
        tokens,
        comments,
    })
}
