// The pragmas of a file.
ghost use Rattle.std.specs.Prelude.{◌≡◌, IfOk};
ghost use Rattle.pragma_scope.specs.Pragmas.{pragmas_of, state_of};

use crate::action::all_actions;
use crate::block::blocks_of;
use crate::nesting::Nesting;
use crate::row::{BadName, Row, bad_names_of, rows_of};
use crate::skip::skip_file;
use crate::state::state_of;
use crate::timeline::{Timeline, timelines_of};
use lint_messages::Code;
use lint_values::Memory;
use py_token::Tokens;
use std::alloc::Global;
use std::marker::Model;
use tree_nodes::Tree;

/// The pragmas of a file.
#[derive(Drop)]
pub struct Pragmas {
    rows: Vec<Row>,
    timelines: Vec<Timeline>,
    skips: bool,
    bad_names: Vec<BadName>,
}

impl Model for Pragmas {
    ghost use Rattle.std.specs.Prelude.{All};
    ghost use Rattle.pragma_scope.specs.Pragmas.{PragmaRows};
    ghost use Rattle.pragma_scope.specs.Timelines.{IsTimeline};

    ghost Value = { PragmaRows };

    ghost view = { λ p. record { rows = p.rows.items; skips = p.skips; bad_names = p.bad_names.items } };

    ghost invariant = { λ p. All (λ t. IsTimeline p.rows.items t.code t.steps.items) p.timelines.items };
}

impl Pragmas {
    /// The pragmas of a file, by its tokens and its tree.
    pub fn read(alloc: Global, tokens: &Tokens, tree: &Tree) -> Result<Pragmas, Memory>
        ensures { IfOk result (λ pragmas. pragmas ≡ pragmas_of tokens.now tree.now) }
    {
        let actions = all_actions(alloc, tokens.source(), tokens.comments())?;
        let blocks = Nesting::new(alloc, blocks_of(alloc, tree)?)?;
        let rows = rows_of(alloc, tokens, &blocks, actions.as_slice())?;
        let timelines = timelines_of(alloc, rows.as_slice())?;
        let bad_names = bad_names_of(alloc, actions.as_slice())?;
        Ok(Pragmas {
            rows,
            timelines,
            skips: skip_file(tokens),
            bad_names,
        })
    }

    /// Whether pragmas switch a code on or off on a line, by the last one that acts there and names the code, its
    /// category or `all`. None where there is no such pragma.
    pub fn state(&self, code: Code, line: u32) -> Option<bool>
        ensures { result ≡ state_of self.now.rows code line }
    {
        state_of(self.timelines.as_slice(), self.rows.as_slice(), code, line)
    }

    /// Whether the file is skipped.
    pub fn skips(&self) -> bool
        ensures { result ≡ self.now.skips }
    {
        self.skips
    }

    /// The names in the lists of pragmas that no message can have, by position.
    pub fn bad_names(&self) -> &[BadName]
        ensures { result.now ≡ self.now.bad_names }
    {
        self.bad_names.as_slice()
    }
}
