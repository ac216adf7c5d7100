// What is local to each scope, and what is declared `global` or `nonlocal`.
use crate::table::Table;

/// What nodes make local, and what is declared.
#[derive(Debug, Drop)]
pub(crate) struct Declared {
    pub locals: Table,
    pub globals: Table,
    pub nonlocals: Table,
}
