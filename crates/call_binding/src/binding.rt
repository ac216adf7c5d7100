// What a call gives to each parameter of a function.
ghost use Rattle.std.specs.Prelude.{◌≡◌, ◌+◌, ◌<◌, ◌^◌, false, length, slice_get, Some};
ghost use Rattle.std.specs.List.{list_any};
ghost use Rattle.call_binding.specs.Parameters.{Fates, takes_position, takes_rest, parameter_at, keyword_at, positions_before};
ghost use Rattle.call_binding.specs.Fates.{by_default, by_keyword, by_place, single_fate, param_fate_of, has_argument, taken_fate, untaken_fate, free_fate, key_fate_of, fates_of, keyword_for};
ghost use Rattle.call_binding.specs.Rule.{var_keyword, left_over, IsBinding, is_missing, is_refused, is_mismatch};

use crate::{CallShape, KeyFate, ParamFate, ParameterKind, Signature};
use std::marker::Model;

/// What a call gives to each parameter of a function, and what becomes of each keyword.
#[derive(Debug, Drop)]
pub struct Binding<'c> {
    signature: &'c Signature<'c>,
    call: &'c CallShape<'c>,
}

impl<'c> Model for Binding<'c> {
    ghost use Rattle.call_binding.specs.Parameters.{Fates};
    ghost use Rattle.call_binding.specs.Fates.{fates_of};

    ghost Value = { Fates };

    ghost view = { λ b. fates_of b.signature.now b.call.now };
}

/// Binds a call without `*` and `**` to a function.
pub fn bind_call<'c>(signature: &'c Signature<'c>, call: &'c CallShape<'c>) -> Binding<'c>
    requires { call.now.starred ≡ false }
    ensures binding { IsBinding signature.now call.now result }
    ensures only { (b : Fates) → IsBinding signature.now call.now b → b ≡ result }
{
    Binding { signature, call }
}

fn takes_rest(kind: ParameterKind) -> bool
    ensures { result ≡ takes_rest kind }
{
    matches!(
        kind,
        ParameterKind::VarPositional | ParameterKind::VarKeyword
    )
}

fn takes_position(kind: ParameterKind) -> bool
    ensures { result ≡ takes_position kind }
{
    matches!(
        kind,
        ParameterKind::PositionalOnly | ParameterKind::PositionalOrKeyword
    )
}

/// A parameter's default, or nothing.
fn by_default(signature: &Signature, i: usize) -> ParamFate
    requires { i < length signature.now.params }
    ensures { result ≡ by_default (parameter_at signature.now.params i) }
{
    if signature.has_default(i) {
        ParamFate::Default
    } else {
        ParamFate::Missing
    }
}

/// The argument with a keyword that goes to a parameter, else its default.
fn by_keyword(signature: &Signature, call: &CallShape, i: usize) -> ParamFate
    requires { i < length signature.now.params }
    ensures { result ≡ by_keyword call.now (parameter_at signature.now.params i) (keyword_for signature.now call.now i) }
{
    match call.keyword_for(signature, i) {
        Some(j) => ParamFate::Arg((call.positionals() + j) as u32),
        None => by_default(signature, i),
    }
}

/// What a parameter gets that takes the value of that number by position.
#[tactic(auto, unfolding(crate::specs::Fates::by_place))]
fn by_place(signature: &Signature, call: &CallShape, i: usize, place: usize) -> ParamFate
    requires { i < length signature.now.params }
    ensures { result ≡ by_place signature.now call.now i (parameter_at signature.now.params i) place }
{
    let receivers = signature.receivers();
    if place < receivers {
        ParamFate::Receiver
    } else if place - receivers < call.positionals() {
        ParamFate::Arg((place - receivers) as u32)
    } else {
        by_keyword(signature, call, i)
    }
}

/// What a parameter gets that is neither `*` nor `**`.
#[tactic(auto, unfolding(crate::specs::Fates::single_fate))]
fn single_fate(signature: &Signature, call: &CallShape, i: usize) -> ParamFate
    requires { i < length signature.now.params }
    ensures { result ≡ single_fate signature.now call.now i (parameter_at signature.now.params i) }
{
    if takes_position(signature.kind(i)) {
        by_place(signature, call, i, signature.positions_before(i))
    } else {
        by_keyword(signature, call, i)
    }
}

/// What a parameter gets.
#[tactic(auto, unfolding(crate::specs::Fates::param_fate_of))]
fn param_fate(signature: &Signature, call: &CallShape, i: usize) -> ParamFate
    requires { i < length signature.now.params }
    ensures { result ≡ param_fate_of signature.now call.now i }
{
    if takes_rest(signature.kind(i)) {
        ParamFate::Rest
    } else {
        single_fate(signature, call, i)
    }
}

fn has_argument(fate: ParamFate, n: usize) -> bool
    ensures { result ≡ has_argument fate n }
{
    match fate {
        ParamFate::Arg(m) => m as usize == n,
        _ => false,
    }
}

/// What becomes of a keyword that goes to a parameter.
#[tactic(auto, unfolding(crate::specs::Fates::taken_fate))]
fn taken_fate(signature: &Signature, call: &CallShape, j: usize, i: usize) -> KeyFate
    requires param { i < length signature.now.params }
    requires keyword { j < length call.now.keywords }
    ensures { result ≡ taken_fate signature.now call.now j i }
{
    let _params = signature.count();
    if has_argument(param_fate(signature, call, i), call.positionals() + j) {
        KeyFate::Takes(i as u32)
    } else {
        KeyFate::Twice(i as u32)
    }
}

/// What becomes of a keyword that goes to no parameter, where there is no `**`.
fn untaken_fate(signature: &Signature, call: &CallShape, j: usize) -> KeyFate
    requires { j < length call.now.keywords }
    ensures { result ≡ untaken_fate signature.now call.now j }
{
    if signature.has_hidden(call.keyword(j)) {
        KeyFate::PositionalOnly
    } else {
        KeyFate::Unexpected
    }
}

/// What becomes of a keyword that goes to no parameter.
#[tactic(auto, unfolding(crate::specs::Fates::free_fate))]
fn free_fate(signature: &Signature, call: &CallShape, j: usize) -> KeyFate
    requires { j < length call.now.keywords }
    ensures { result ≡ free_fate signature.now call.now j (var_keyword signature.now.params) }
{
    let _params = signature.count();
    match signature.var_keyword() {
        Some(rest) => {
            if call.repeats(j) {
                KeyFate::Twice(rest as u32)
            } else {
                KeyFate::Rest
            }
        }
        None => untaken_fate(signature, call, j),
    }
}

/// What becomes of a keyword.
#[tactic(auto, unfolding(crate::specs::Fates::key_fate_of))]
fn key_fate(signature: &Signature, call: &CallShape, j: usize) -> KeyFate
    requires { j < length call.now.keywords }
    ensures { result ≡ key_fate_of signature.now call.now j }
{
    match signature.target(call.keyword(j)) {
        Some(i) => taken_fate(signature, call, j, i),
        None => free_fate(signature, call, j),
    }
}

/// How many values by position nothing takes.
fn left_over(signature: &Signature, call: &CallShape) -> usize
    ensures value { result ≡ left_over signature.now call.now }
    ensures small { result < 2 ^ 32 }
{
    if signature.has_var_positional() {
        0
    } else {
        (signature.receivers() + call.positionals()).saturating_sub(signature.positions())
    }
}

fn is_missing(fate: ParamFate) -> bool
    ensures { result ≡ is_missing fate }
{
    matches!(fate, ParamFate::Missing)
}

fn is_refused(fate: KeyFate) -> bool
    ensures { result ≡ is_refused fate }
{
    matches!(
        fate,
        KeyFate::Twice(_) | KeyFate::PositionalOnly | KeyFate::Unexpected
    )
}

impl<'c> Binding<'c> {
    fn params(&self) -> u32
        ensures { result ≡ length self.now.params }
    {
        self.signature.params()
    }

    fn keywords(&self) -> u32
        ensures { result ≡ length self.now.keywords }
    {
        self.call.keywords()
    }

    /// What a parameter gets.
    #[tactic(auto, unfolding(crate::specs::Fates::fates_of))]
    pub fn param(&self, i: u32) -> ParamFate
        requires { i < length self.now.params }
        ensures { slice_get self.now.params i ≡ Some result }
    {
        param_fate(self.signature, self.call, i as usize)
    }

    /// What becomes of a keyword.
    #[tactic(auto, unfolding(crate::specs::Fates::fates_of))]
    pub fn keyword(&self, j: u32) -> KeyFate
        requires { j < length self.now.keywords }
        ensures { slice_get self.now.keywords j ≡ Some result }
    {
        key_fate(self.signature, self.call, j as usize)
    }

    /// How many values by position nothing takes, the receiver among them.
    #[tactic(auto, unfolding(crate::specs::Fates::fates_of))]
    pub fn surplus(&self) -> u32
        ensures { result ≡ self.now.surplus }
    {
        left_over(self.signature, self.call) as u32
    }

    // Whether a parameter has no value.
    fn misses(&self) -> bool
        ensures { result ≡ list_any is_missing self.now.params }
    {
        for i in 0..self.params() {
            if is_missing(self.param(i)) {
                return true;
            }
        }
        false
    }

    // Whether a name is given twice or not taken.
    fn refuses(&self) -> bool
        ensures { result ≡ list_any is_refused self.now.keywords }
    {
        for j in 0..self.keywords() {
            if is_refused(self.keyword(j)) {
                return true;
            }
        }
        false
    }

    /// Whether the call does not fit: a missing value, a surplus, a name given twice or not taken.
    pub fn is_mismatch(&self) -> bool
        ensures { result ≡ is_mismatch self.now }
    {
        self.misses() || self.surplus() > 0 || self.refuses()
    }
}
