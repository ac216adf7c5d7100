// The rules.

/// The rules on flow and on size, in the order in which they are asked.
#[derive(Clone, Copy, Debug, PartialEq, Eq)]
pub enum Rule {
    Unreachable,
    BareExcept,
    FunctionRedefined,
    NotInLoop,
    ReturnOutsideFunction,
    TooManyReturnStatements,
    TooManyBranches,
    TooManyArguments,
    TooManyStatements,
}

/// All rules, in their order.
pub const ALL_RULES: [Rule; 9] = [
    Rule::Unreachable,
    Rule::BareExcept,
    Rule::FunctionRedefined,
    Rule::NotInLoop,
    Rule::ReturnOutsideFunction,
    Rule::TooManyReturnStatements,
    Rule::TooManyBranches,
    Rule::TooManyArguments,
    Rule::TooManyStatements,
];
