//! Tests of what no clause says: that the rule of call binding is Python's, by rows over the calls of `call_binding`.
#![tactic(auto)]

#[cfg(test)]
mod call_binding_rows;
#[cfg(test)]
mod calls;
