// The innermost block around a comment, found without a look at every block.
ghost use Rattle.std.specs.Prelude.{◌≡◌, ◌≤◌, ◌<◌, IfOk, false, length, take, true};
ghost use Rattle.std.specs.List.Sorted.{IsPartitionPoint};
ghost use Rattle.pragma_scope.specs.Nestings.{Ascend, AreSkips, IsNesting, IsSkip, reaching};
ghost use Rattle.pragma_scope.specs.Regions.{begins_by, holds, innermost};

use crate::block::Block;
use crate::region::{begins_by, innermost_behind, is_before};
use lint_values::Memory;
use py_token::{Comment, Token};
use std::alloc::Global;
use std::marker::Model;

/// Blocks, with the way from each to the nearest before it that ends behind it, and whether no block begins before the one
/// in front of it does.
#[derive(Drop)]
pub(crate) struct Nesting {
    blocks: Vec<Block>,
    skips: Vec<usize>,
    ascend: bool,
}

impl Model for Nesting {
    ghost use Rattle.std.specs.Prelude.{List, ◌≡◌, true};
    ghost use Rattle.pragma_scope.specs.declared.block.Block.{Block};
    ghost use Rattle.pragma_scope.specs.Nestings.{Ascend, IsNesting};

    ghost Value = { List Block };

    ghost view = { λ n. n.blocks.items };

    ghost invariant = { λ n. IsNesting n.blocks.items n.skips.items × (n.ascend ≡ true → Ascend n.blocks.items) };
}

// Whether no block begins before the one in front of it does.
fn ascend(blocks: &[Block]) -> bool
    ensures { result ≡ true → Ascend blocks.now }
{
    for i in 1..blocks.len() {
        if is_before(blocks[i].start, blocks[i - 1].start) {
            return false;
        }
    }
    true
}

// How many of the blocks before the next one are left once all that do not end behind it are dropped from the end.
fn next_skip(blocks: &[Block], skips: &[usize]) -> usize
    requires more { length skips.now < length blocks.now }
    requires skips { AreSkips blocks.now skips.now }
    ensures { IsSkip blocks.now (length skips.now) result }
{
    let last = blocks[skips.len()].last;
    let mut left = skips.len();
    while 0 < left && blocks[left - 1].last <= last {
        left = skips[left - 1];
    }
    left
}

fn skips_of(alloc: Global, blocks: &[Block]) -> Result<Vec<usize>, Memory>
    ensures { IfOk result (λ skips. IsNesting blocks.now skips.items) }
{
    let mut skips = Vec::new(alloc);
    for n in 0..blocks.len() {
        let skip = next_skip(blocks, skips.as_slice());
        skips.push(skip)?;
    }
    Ok(skips)
}

// The last of so many blocks that ends on a line or behind it.
fn reaching(blocks: &[Block], skips: &[usize], line: u32, begun: usize) -> Option<Block>
    requires within { begun ≤ length blocks.now }
    requires nesting { IsNesting blocks.now skips.now }
    ensures { result ≡ reaching line (take begun blocks.now) }
{
    let mut left = begun;
    while 0 < left {
        let block = blocks[left - 1];
        if line <= block.last {
            return Some(block);
        }
        left = skips[left - 1];
    }
    None
}

// How many blocks begin at a token or before it.
fn begun_len(token: Option<Token>, blocks: &[Block]) -> usize
    requires { Ascend blocks.now }
    ensures within { result ≤ length blocks.now }
    ensures point { IsPartitionPoint (λ block. begins_by token block ≡ true) (λ block. begins_by token block ≡ false) blocks.now result }
{
    blocks.partition_point(|block| begins_by(token, *block))
}

// The innermost block that holds a comment, by each block.
fn innermost(token: Option<Token>, comment: Comment, blocks: &[Block]) -> Option<Block>
    ensures { result ≡ innermost token comment blocks.now }
{
    blocks.iter().fold(None, |found, block| {
        innermost_behind(found, token, comment, *block)
    })
}

impl Nesting {
    pub(crate) fn new(alloc: Global, blocks: Vec<Block>) -> Result<Nesting, Memory>
        ensures { IfOk result (λ nesting. nesting ≡ blocks.items) }
    {
        let skips = skips_of(alloc, blocks.as_slice())?;
        let ascend = ascend(blocks.as_slice());
        Ok(Nesting {
            blocks,
            skips,
            ascend,
        })
    }

    /// The innermost block that holds a comment, behind which this token is the first: in a tree of a source by the blocks
    /// around it alone.
    pub(crate) fn innermost(&self, token: Option<Token>, comment: Comment) -> Option<Block>
        ensures { result ≡ innermost token comment self.now }
    {
        let blocks = self.blocks.as_slice();
        if self.ascend {
            let begun = begun_len(token, blocks);
            reaching(blocks, self.skips.as_slice(), comment.pos.line, begun)
        } else {
            innermost(token, comment, blocks)
        }
    }
}
