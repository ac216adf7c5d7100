// The scopes of a tree.
use crate::name_table::NameTable;
use crate::table::Table;
use lint_values::Text;
use scope_rules::Where;

/// The scopes of a tree: of each node where it stands, whether it opens a scope, its name as it is read, and where it
/// leads where it is a name that is read; and tables of binders, reads, stores and deletions of attributes, and the names
/// that are local to each scope.
#[derive(Debug, Drop)]
pub struct Scopes {
    pub(crate) places: Vec<u32>,
    pub(crate) openers: Vec<bool>,
    pub(crate) names: Vec<Option<Text>>,
    pub(crate) answers: Vec<Where>,
    pub(crate) binders: Table,
    pub(crate) loads: Table,
    pub(crate) stores: Table,
    pub(crate) deletes: Table,
    pub(crate) local_names: NameTable,
}
