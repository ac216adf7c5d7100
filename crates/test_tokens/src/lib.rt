//! Tests of what no clause says: rows over the calls of `py_lexeme`, `py_layout`, `py_normal_form`, `py_token`, `fstr_parse`, `tree_nodes`.
#![tactic(auto)]

#[cfg(test)]
mod fstr_parse_rows;
#[cfg(test)]
mod py_layout_rows;
#[cfg(test)]
mod py_lexeme_rows;
#[cfg(test)]
mod py_normal_form_rows;
#[cfg(test)]
mod py_token_rows;
#[cfg(test)]
mod tree_nodes_rows;
