// A whole source, read.
ghost use Rattle.std.specs.Prelude.{◌≡◌, ◌<◌, ◌≤◌, ◌^◌, ◌++◌, ◌+◌, length, not, None, IfOk, IfErr, IfSome, OnOk, chars};
ghost use Rattle.lint_values.specs.declared.place.Pos.{Pos};
ghost use Rattle.py_source.specs.Decoding.{IsSourceFault, without_mark};
ghost use Rattle.py_lexeme.specs.Faults.{IsCut};
ghost use Rattle.py_layout.specs.FirstFault as layout_fault;
ghost use Rattle.py_token.specs.FirstFault.{IsFirstFault, IsTextFault, fault_rest, rest_at};
ghost use Rattle.py_token.specs.Items.{all_items, items_of, stop_item};
ghost use Rattle.py_token.specs.Scanned.{comments_from, tokens_from};
ghost use Rattle.py_source.specs.Physical.{ArePhysical};
ghost use Rattle.py_token.specs.Settings.{inside_at, seen, whole};
ghost use Rattle.py_token.specs.Spans.{AreParts, AreRoomy};
ghost use Rattle.py_token.specs.Steps.{AreCut};
ghost use Rattle.py_token.specs.Tokenized.{FaultsOnly, GivesOnly, IsRead, IsTokenized, OnFault, Tokenized};
ghost use Rattle.py_token.specs.declared.fault.TokenCause.{TokenCause};

use crate::fault::{TokenCause, TokenFault, source_cause, text_cause};
use crate::forms::forms_of;
use crate::scan::{Scanned, scan};
use crate::setting::{Setting, inside_at, whole};
use crate::token::{Comment, Token};
use crate::tokens::Tokens;
use lint_values::{Memory, Pos};
use py_layout::{Item, ItemCause, LayoutCause, LayoutFault, Logical, layout};
use py_lexeme::{Cut, Piece, Stop, cut};
use py_source::{SourceFault, advance, characters, decode, physical, pos_at, without_mark};
use std::alloc::Global;

/// A fault of the file as a whole.
#[tactic(auto, using(crate::proofs::FileLaws::source_within, crate::proofs::FileLaws::without_mark_le))]
fn file_fault(bytes: &[u8], fault: SourceFault) -> TokenFault
    requires fault { IsSourceFault bytes.now fault.place fault.cause }
    requires short { length bytes.now < 2 ^ 32 }
    ensures { OnFault (IsFirstFault bytes.now) result }
{
    let pos = pos_at(without_mark(bytes), fault.place);
    TokenFault::At(pos, source_cause(fault.cause))
}

/// The characters from item n on.
fn rest_at<'c>(characters: &'c [char], pieces: &[Piece], n: usize) -> &'c [char]
    requires { AreCut characters.now pieces.now }
    ensures { result.now ≡ rest_at characters.now pieces.now n }
{
    let mut rest = characters;
    let mut left = n;
    for piece in pieces {
        if left == 0 {
            return rest;
        }
        rest = rest.split_at(piece.len as usize).1;
        left -= 1;
    }
    rest
}

/// The characters from the fault on.
fn fault_rest<'c>(
    characters: &'c [char],
    pieces: &[Piece],
    stop: Option<Stop>,
    n: usize,
    cause: LayoutCause,
) -> &'c [char]
    requires cut { AreCut characters.now pieces.now }
    requires stop { IfSome stop (λ s. s.place ≤ length characters.now) }
    ensures { result.now ≡ fault_rest characters.now pieces.now stop n cause }
{
    match cause {
        LayoutCause::AtItem(ItemCause::Stopped) => match stop {
            Some(stop) => characters.split_at(stop.place as usize).1,
            None => rest_at(characters, pieces, n),
        },
        _ => rest_at(characters, pieces, n),
    }
}

/// The fault of a text whose items have this first fault.
fn text_fault(
    text: &str,
    characters: &[char],
    cut: &Cut,
    setting: Setting,
    n: usize,
    cause: LayoutCause,
) -> TokenFault
    requires same { characters.now ≡ chars text.now }
    requires lines { setting.from.line + length text.now ≤ 2 ^ 32 }
    requires columns { setting.from.col + length text.now ≤ 2 ^ 32 }
    requires cut { IsCut characters.now cut.now.pieces.items cut.now.stop }
    requires first { layout_fault.IsFirstFault (seen setting.inside (all_items characters.now cut.now.pieces.items cut.now.stop)) n cause }
    requires within { n < length (seen setting.inside (all_items characters.now cut.now.pieces.items cut.now.stop)) }
    ensures { OnFault (IsTextFault setting text.now) result }
{
    let rest = fault_rest(characters, cut.pieces.as_slice(), cut.stop, n, cause);
    let pos = advance(setting.from, characters, characters.len() - rest.len());
    TokenFault::At(pos, text_cause(cut.stop, cause))
}

/// Adds a stop, where the cut has one.
fn add_stop(items: &mut Vec<Item>, stop: Option<Stop>) -> Result<(), Memory>
    ensures { OnOk result (items.new.items ≡ items.old.items ++ stop_item stop) }
{
    match stop {
        None => Ok(()),
        Some(_) => {
            items.push(Item::Stop)?;
            Ok(())
        }
    }
}

/// The tokens of a text, with its lines.
fn finish<'a>(
    alloc: Global,
    text: &'a str,
    tokens: Vec<Token>,
    comments: Vec<Comment>,
    lines: Vec<Logical>,
) -> Result<Tokens<'a>, Memory>
    requires short { length text.now < 2 ^ 32 }
    requires parts { AreParts text.now tokens.items }
    requires room { AreRoomy tokens.items }
    ensures tokens { IfOk result (λ read. read.tokens ≡ tokens.items) }
    ensures comments { IfOk result (λ read. read.comments ≡ comments.items) }
    ensures lines { IfOk result (λ read. read.lines ≡ lines.items) }
    ensures text { IfOk result (λ read. read.text ≡ text.now) }
    ensures physical { IfOk result (λ read. ArePhysical text.now read.physical) }
{
    let physical = physical(alloc, text)?;
    let forms = forms_of(alloc, text, tokens.as_slice())?;
    Ok(Tokens::new(text, tokens, lines, comments, physical, forms))
}

/// Reads a text that is cut so.
fn read_cut<'a>(
    alloc: Global,
    text: &'a str,
    characters: &[char],
    cut: &Cut,
    setting: Setting,
) -> Result<Tokens<'a>, TokenFault>
    requires same { characters.now ≡ chars text.now }
    requires short { length text.now < 2 ^ 32 }
    requires lines { setting.from.line + length text.now ≤ 2 ^ 32 }
    requires columns { setting.from.col + length text.now ≤ 2 ^ 32 }
    requires cut { IsCut characters.now cut.now.pieces.items cut.now.stop }
    ensures read { IfOk result (IsRead setting text.now) }
    ensures fault { IfErr result (OnFault (IsTextFault setting text.now)) }
{
    let Ok(scanned) = scan(alloc, text, characters, cut.pieces.as_slice(), setting) else {
        return Err(TokenFault::Memory);
    };
    let Scanned {
        mut items,
        tokens,
        comments,
    } = scanned;
    if add_stop(&mut items, cut.stop).is_err() {
        return Err(TokenFault::Memory);
    }
    match layout(alloc, items.as_slice()) {
        Ok(lines) => match finish(alloc, text, tokens, comments, lines) {
            Ok(read) => Ok(read),
            Err(_) => Err(TokenFault::Memory),
        },
        Err(LayoutFault::At(n, cause)) => Err(text_fault(text, characters, cut, setting, n, cause)),
        Err(LayoutFault::Memory) => Err(TokenFault::Memory),
    }
}

/// Reads a text.
fn read<'a>(alloc: Global, text: &'a str, setting: Setting) -> Result<Tokens<'a>, TokenFault>
    requires short { length text.now < 2 ^ 32 }
    requires lines { setting.from.line + length text.now ≤ 2 ^ 32 }
    requires columns { setting.from.col + length text.now ≤ 2 ^ 32 }
    ensures read { IfOk result (IsRead setting text.now) }
    ensures fault { IfErr result (OnFault (IsTextFault setting text.now)) }
{
    let Ok(all) = characters(alloc, text) else {
        return Err(TokenFault::Memory);
    };
    match cut(alloc, all.as_slice()) {
        Ok(pieces) => read_cut(alloc, text, all.as_slice(), &pieces, setting),
        Err(_) => Err(TokenFault::Memory),
    }
}

#[tactic(auto, using(crate::proofs::FileLaws::of_source, crate::proofs::FileLaws::without_mark_le))]
fn read_source<'a>(alloc: Global, bytes: &'a [u8]) -> Result<Tokens<'a>, TokenFault>
    requires { length bytes.now < 2 ^ 32 }
    ensures tokens { IfOk result (IsTokenized bytes.now) }
    ensures fault { IfErr result (OnFault (IsFirstFault bytes.now)) }
{
    match decode(bytes) {
        Ok(text) => read(alloc, text, whole()),
        Err(fault) => Err(file_fault(bytes, fault)),
    }
}

/// The tokens of a source, or its first fault.
pub fn tokenize<'a>(alloc: Global, bytes: &'a [u8]) -> Result<Tokens<'a>, TokenFault>
    requires { length bytes.now < 2 ^ 32 }
    // What is given is what the source is read as.
    ensures tokens { IfOk result (IsTokenized bytes.now) }
    // Whatever the source is read as is given, unless memory runs out.
    ensures every { (read : Tokenized) → IsTokenized bytes.now read → GivesOnly result read }
    // A fault stands first where it is said.
    ensures fault { IfErr result (OnFault (IsFirstFault bytes.now)) }
    // And where one stands first it is answered.
    ensures every_fault { (pos : Pos) (cause : TokenCause) → IsFirstFault bytes.now pos cause → FaultsOnly result pos cause }
{
    read_source(alloc, bytes)
}

/// The tokens of a part of a source that stands inside brackets, as the expression of an f-string's field, or its first
/// fault: line ends and indentation do not count, the brackets around it are not counted, and places count from `at`.
/// There is one logical line, or none where there is no token.
pub fn tokenize_field<'a>(alloc: Global, text: &'a str, at: Pos) -> Result<Tokens<'a>, TokenFault>
    requires lines { at.line + length text.now < 2 ^ 32 }
    requires columns { at.col + length text.now < 2 ^ 32 }
    // What is given is what the part is read as.
    ensures tokens { IfOk result (IsRead (inside_at at) text.now) }
    // Whatever it is read as is given, unless memory runs out.
    ensures every { (read : Tokenized) → IsRead (inside_at at) text.now read → GivesOnly result read }
    // A fault stands first where it is said.
    ensures fault { IfErr result (OnFault (IsTextFault (inside_at at) text.now)) }
    // And where one stands first it is answered.
    ensures every_fault { (pos : Pos) (cause : TokenCause) → IsTextFault (inside_at at) text.now pos cause → FaultsOnly result pos cause }
{
    read(alloc, text, inside_at(at))
}
