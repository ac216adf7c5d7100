//! The scopes of a Python module as tables: what binds a name, and where a name that is read leads.
#![tactic(auto)]

mod build;
mod calls;
mod classes;
mod declared;
mod homes;
mod kinds;
mod known;
mod loads;
mod mangling;
mod marks;
mod name_table;
mod names;
mod places;
mod reading;
mod row;
mod scopes;
mod spelling;
mod table;
mod truth;

pub use scope_rules::{ScopeId, Where};
pub use scopes::Scopes;
