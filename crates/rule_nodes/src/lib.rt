//! What the rules on trees ask of nodes: their kinds, their names and what they belong to; and messages about them.
#![tactic(auto)]

mod kinds;
mod nodes;
mod parts;

pub use kinds::{
    is_alias, is_as_name, is_base, is_binder, is_class, is_comprehension, is_counted,
    is_counted_clause, is_decorator, is_def, is_docstring, is_ellipsis, is_expression_statement,
    is_handler, is_import_from, is_in_body, is_module, is_no_base, is_owner, is_read_name,
    is_statement, is_walrus,
};
pub use nodes::{is_public, message_at, message_on, message_with, number_text, written};
pub use parts::{has_base, has_decorator};
