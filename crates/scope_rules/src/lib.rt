//! The scopes of a Python module: what binds a name, and where a name that is read leads, as definitions with laws.
#![tactic(auto)]

mod builtin_names;
mod laws;
mod scope;
mod step;

pub use builtin_names::BUILTIN_NAMES;
pub use laws::{
    binders_and_reads_are_in_source_order, local_answers_are_around_the_read,
    reads_have_one_answer, scopes_lie_around_each_other,
};
pub use scope::{ScopeId, Where};
pub use step::Step;
