//! Logical lines of a source: what each spells, as rows of a builder.
#![tactic(auto)]

mod adding;
mod fault;
mod form;
mod found;
mod line;
mod rows;
mod terminals;

pub use fault::LineFault;
pub use form::LineForm;
pub use line::read_line;
