//! Call binding: what a call gives to each parameter of a function.
#![tactic(auto)]

mod arguments;
mod binding;
mod call_shape;
mod fate;
mod kinds;
mod laws;
mod names;
mod nodes;
mod parameter_kind;
mod parameters;
mod places;
mod signature;

pub use binding::{Binding, bind_call};
pub use call_shape::CallShape;
pub use fate::{KeyFate, ParamFate};
pub use laws::{
    bound_arguments_are_given, calls_have_one_binding, keywords_have_one_fate,
    parameters_have_one_fate, plain_arguments_are_taken_once_or_surplus,
};
pub use nodes::{argument, parameter};
pub use parameter_kind::ParameterKind;
pub use signature::Signature;
