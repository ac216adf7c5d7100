//! Syntax trees as rows: the kinds of nodes, a builder that takes nodes bottom-up, and the finished tree in preorder.
#![tactic(auto)]

mod builder;
mod finish;
mod kind;
mod label;
mod tree;
mod walk;

pub use builder::TreeBuilder;
pub use kind::Kind;
pub use tree::Tree;
pub use walk::Walk;
