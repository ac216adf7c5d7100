// What is shown of a file's bytes.
ghost use Rattle.std.specs.Prelude.{◌≡◌, false, ◌<◌, ◌^◌, length, IfOk};
ghost use Rattle.py_token.specs.Tokenized.{IsTokenized};
ghost use Rattle.pragma_scope.specs.Pragmas.{pragmas_of, skips_file};
ghost use Rattle.check_names.specs.NameRules.{is_package_file, name_messages};
ghost use Rattle.lint_engine.specs.Shown.{alone, found_in, head_of, reason_of, rule_messages, shown_by, shown_of, syntax_error, syntax_reason, IsSourceShown};

use crate::bad_names::bad_name_messages;
use crate::faults::{reason_of, syntax_error, syntax_reason};
use crate::messages::{alone, nothing};
use crate::shown::{shown_by, shown_of};
use check_basic::{check_lines, check_tree, statements};
use file_list::Reading;
use lint_base::{FileId, Memory, Messages, Pos};
use lint_report::Findings;
use options::Options;
use parse_stmt::{SyntaxFault, parse};
use pragma_scope::{Pragmas, skip_file};
use py_token::{TokenFault, Tokens, tokenize};
use scope_bind::Scopes;
use std::alloc::Global;
use tree_nodes::Tree;

// The messages on names of a source.
fn name_messages(
    alloc: Global,
    file: FileId,
    reading: &Reading,
    tree: &Tree,
    options: &Options,
) -> Result<Messages, Memory>
    ensures { IfOk result (λ messages. messages ≡ name_messages options.now file (is_package_file reading.now file) tree.now) }
{
    let scopes = Scopes::build(alloc, tree)?;
    let messages = check_names::check(alloc, file, reading, tree, &scopes, options)?;
    Ok(messages)
}

// The messages of the rules on a source that has a tree.
fn rule_messages(
    alloc: Global,
    file: FileId,
    reading: &Reading,
    bytes: &[u8],
    tokens: &Tokens,
    tree: &Tree,
    options: &Options,
) -> Result<Messages, Memory>
    requires { length bytes.now < 2 ^ 32 }
    ensures { IfOk result (λ messages. messages ≡ rule_messages options.now reading.now file bytes.now tokens.now tree.now) }
{
    let mut messages = check_lines(alloc, file, bytes, options)?;
    messages.append(check_tree(alloc, file, tokens, tree, options)?)?;
    messages.append(name_messages(alloc, file, reading, tree, options)?)?;
    Ok(messages)
}

// What is shown of a source that has a tree.
fn show_parsed(
    alloc: Global,
    file: FileId,
    reading: &Reading,
    bytes: &[u8],
    tokens: &Tokens,
    tree: &Tree,
    options: &Options,
) -> Result<Findings, Memory>
    requires { length bytes.now < 2 ^ 32 }
    ensures shown { IfOk result (λ shown. shown ≡ shown_by options.now (pragmas_of tokens.now tree.now).rows (found_in options.now reading.now file bytes.now tokens.now tree.now)) }
    ensures few { IfOk result (λ shown. shown.statements < 2 ^ 32) }
{
    let pragmas = Pragmas::read(alloc, tokens, tree)?;
    let mut messages = rule_messages(alloc, file, reading, bytes, tokens, tree, options)?;
    messages.append(bad_name_messages(alloc, file, pragmas.bad_names())?)?;
    let found = Findings {
        messages: messages.into_order(alloc)?,
        statements: statements(tree),
    };
    Ok(shown_by(options, &pragmas, found))
}

// What is shown of the one message on a fault of a source.
fn told(
    alloc: Global,
    file: FileId,
    pos: Pos,
    reason: &str,
    options: &Options,
) -> Result<Findings, Memory>
    ensures shown { IfOk result (λ shown. shown ≡ shown_of options.now (alone (syntax_error file pos reason.now))) }
    ensures few { IfOk result (λ shown. shown.statements < 2 ^ 32) }
{
    let found = alone(alloc, syntax_error(alloc, file, pos, reason)?)?;
    Ok(shown_of(options, found))
}

// What is shown of a source that has tokens and is not skipped.
fn show_unskipped(
    alloc: Global,
    file: FileId,
    reading: &Reading,
    bytes: &[u8],
    tokens: &Tokens,
    options: &Options,
) -> Result<Findings, Memory>
    requires tokens { IsTokenized bytes.now tokens.now }
    requires unskipped { skips_file tokens.now ≡ false }
    requires short { length bytes.now < 2 ^ 32 }
    ensures shown { IfOk result (λ shown. IsSourceShown options.now reading.now file bytes.now shown) }
    ensures few { IfOk result (λ shown. shown.statements < 2 ^ 32) }
{
    match parse(alloc, tokens) {
        Ok(tree) => Ok(show_parsed(alloc, file, reading, bytes, tokens, &tree, options)?),
        Err(SyntaxFault::At { line, cause }) => {
            let head = Pos { line, col: 0 };
            Ok(told(alloc, file, head, syntax_reason(cause), options)?)
        }
        Err(SyntaxFault::Memory) => Err(Memory),
    }
}

// What is shown of a source that has tokens: nothing where a pragma skips the file.
fn show_tokens(
    alloc: Global,
    file: FileId,
    reading: &Reading,
    bytes: &[u8],
    tokens: &Tokens,
    options: &Options,
) -> Result<Findings, Memory>
    requires tokens { IsTokenized bytes.now tokens.now }
    requires short { length bytes.now < 2 ^ 32 }
    ensures shown { IfOk result (λ shown. IsSourceShown options.now reading.now file bytes.now shown) }
    ensures few { IfOk result (λ shown. shown.statements < 2 ^ 32) }
{
    if skip_file(tokens) {
        return Ok(nothing(alloc));
    }
    show_unskipped(alloc, file, reading, bytes, tokens, options)
}

// What is shown of a file's bytes.
pub(crate) fn show_source(
    alloc: Global,
    file: FileId,
    reading: &Reading,
    bytes: &[u8],
    options: &Options,
) -> Result<Findings, Memory>
    requires { length bytes.now < 2 ^ 32 }
    ensures shown { IfOk result (λ shown. IsSourceShown options.now reading.now file bytes.now shown) }
    ensures few { IfOk result (λ shown. shown.statements < 2 ^ 32) }
{
    match tokenize(alloc, bytes) {
        Ok(tokens) => Ok(show_tokens(alloc, file, reading, bytes, &tokens, options)?),
        Err(TokenFault::At(pos, cause)) => {
            Ok(told(alloc, file, pos, reason_of(cause), options)?)
        }
        Err(TokenFault::Memory) => Err(Memory),
    }
}
