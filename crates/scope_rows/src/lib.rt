//! What the rules of `scope_rules` say of small programs: each row is computed from the definitions, and is what Python says.
#![tactic(auto)]

mod rows;

pub use rows::{
    attributes_are_deleted_as_in_python, attributes_are_stored_as_in_python,
    lists_are_as_in_python, names_are_bound_as_in_python, names_are_local_as_in_python,
    names_are_read_as_in_python, nodes_stand_as_in_python, reads_lead_as_in_python,
    scopes_are_opened_as_in_python,
};
