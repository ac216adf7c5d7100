//! Tests of what no clause says: rows over the calls of `py_terminals`, `read_lines`, `parse_stmt`, `py_blocks`.
#![tactic(auto)]

#[cfg(test)]
mod parse_stmt_rows;
#[cfg(test)]
mod py_blocks_rows;
#[cfg(test)]
mod py_terminals_rows;
#[cfg(test)]
mod read_lines_rows;
