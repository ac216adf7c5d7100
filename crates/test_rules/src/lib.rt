//! Tests of what no clause says: rows over the calls of `check_basic`, `check_names`, `unused_names`, `pragma_scope`, `scope_bind`.
#![tactic(auto)]

#[cfg(test)]
mod check_basic_rows;
#[cfg(test)]
mod check_names_rows;
#[cfg(test)]
mod pragma_scope_rows;
#[cfg(test)]
mod programs;
#[cfg(test)]
mod scope_bind_rows;
#[cfg(test)]
mod unused_names_rows;
