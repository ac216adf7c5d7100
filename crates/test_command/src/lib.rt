//! Tests of what no clause says: rows over the calls of `lint_values`, `lint_outside`, `options`, `file_list`, `lint_report`, `made_text`.
#![tactic(auto)]

#[cfg(test)]
mod file_list_rows;
#[cfg(test)]
mod lint_outside_rows;
#[cfg(test)]
mod lint_report_rows;
#[cfg(test)]
mod lint_values_rows;
#[cfg(test)]
mod made_text_rows;
#[cfg(test)]
mod options_rows;
