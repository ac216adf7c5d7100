//! Tests of what no clause says: rows over the calls of `infer_sets`, `mro_c3`.
#![tactic(auto)]

#[cfg(test)]
mod infer_sets_rows;
#[cfg(test)]
mod mro_c3_rows;
