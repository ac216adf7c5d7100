// Sources as trees.
use lint_values::Memory;
use parse_stmt::{SyntaxFault, parse};
use py_token::{TokenFault, Tokens, tokenize};
use std::alloc::Global;
use tree_nodes::Tree;

// The tree that tokens spell, if they spell one.
fn tree_from(alloc: Global, tokens: &Tokens) -> Result<Option<Tree>, Memory> {
    match parse(alloc, tokens) {
        Ok(tree) => Ok(Some(tree)),
        Err(SyntaxFault::At { .. }) => Ok(None),
        Err(SyntaxFault::Memory) => Err(Memory),
    }
}

/// The tree of a source, if it is Python and shorter than four gigabytes.
pub fn tree_of(alloc: Global, bytes: &[u8]) -> Result<Option<Tree>, Memory> {
    if bytes.len() >= u32::MAX as usize {
        return Ok(None);
    }
    match tokenize(alloc, bytes) {
        Ok(tokens) => tree_from(alloc, &tokens),
        Err(TokenFault::At(..)) => Ok(None),
        Err(TokenFault::Memory) => Err(Memory),
    }
}
