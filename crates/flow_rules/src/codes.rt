// The code of each rule's message.
ghost use Rattle.std.specs.Prelude.{◌≡◌};
ghost use Rattle.flow_rules.specs.Codes.{code_of};

use crate::rule::Rule;
use lint_messages::Code;

/// The code of a rule's message.
pub(crate) fn code_of(rule: Rule) -> Code
    ensures { result ≡ code_of rule }
{
    match rule {
        Rule::Unreachable => Code::Unreachable,
        Rule::BareExcept => Code::BareExcept,
        Rule::FunctionRedefined => Code::FunctionRedefined,
        Rule::NotInLoop => Code::NotInLoop,
        Rule::ReturnOutsideFunction => Code::ReturnOutsideFunction,
        Rule::TooManyReturnStatements => Code::TooManyReturnStatements,
        Rule::TooManyBranches => Code::TooManyBranches,
        Rule::TooManyArguments => Code::TooManyArguments,
        Rule::TooManyStatements => Code::TooManyStatements,
    }
}
