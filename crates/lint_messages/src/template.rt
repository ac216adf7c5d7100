// The texts of the messages: the one table of their words.
ghost use Rattle.std.specs.Prelude.{◌≡◌, ◌++◌, ◌<◌, IfOk, OnOk, map, length, drop, string_bytes};
ghost use Rattle.lint_messages.specs.Templates.{template, argument, behind_arguments, text_of};

use crate::{Code, Message};
use lint_values::{Memory, Text};
use std::alloc::Global;

// The words of a text. Between any two of them stands an argument.
fn template(code: Code) -> &'static [&'static str]
    ensures words { map (λ w. w.now) result.now ≡ template code }
    ensures some { 0 < length result.now }
{
    match code {
        Code::MissingModuleDocstring => &["Missing module docstring"],
        Code::MissingClassDocstring => &["Missing class docstring"],
        Code::MissingFunctionDocstring => &["Missing function or method docstring"],
        Code::LineTooLong => &["Line too long (", "/", ")"],
        Code::TooManyLines => &["Too many lines in module (", "/", ")"],
        Code::TrailingWhitespace => &["Trailing whitespace"],
        Code::MissingFinalNewline => &["Final newline missing"],
        Code::MultipleStatements => &["More than one statement on a single line"],
        Code::MultipleImports => &["Multiple imports on one line (", ")"],
        Code::SyntaxError => &["Parsing failed: '", " (line ", ")'"],
        Code::FunctionRedefined => &["", " already defined line ", ""],
        Code::NotInLoop => &["'", "' not properly in loop"],
        Code::ReturnOutsideFunction => &["Return outside function"],
        Code::InconsistentMro => &["Inconsistent method resolution order for class '", "'"],
        Code::DuplicateBases => &["Duplicate bases for class '", "'"],
        Code::UndefinedVariable => &["Undefined variable '", "'"],
        Code::NoNameInModule => &["No name '", "' in module '", "'"],
        Code::NoMember => &["", " '", "' has no '", "' member"],
        Code::NoValueForParameter => &["No value for argument '", "' in ", " call"],
        Code::TooManyFunctionArgs => &["Too many positional arguments for ", " call"],
        Code::UnexpectedKeywordArg => &["Unexpected keyword argument '", "' in ", " call"],
        Code::RedundantKeywordArg => &[
            "Argument '",
            "' passed by position and keyword in ",
            " call",
        ],
        Code::Fatal => &["No module named ", ""],
        Code::ParseError => &["error while code parsing: ", ""],
        Code::TooManyAncestors => &["Too many ancestors (", "/", ")"],
        Code::TooManyInstanceAttributes => &["Too many instance attributes (", "/", ")"],
        Code::TooFewPublicMethods => &["Too few public methods (", "/", ")"],
        Code::TooManyPublicMethods => &["Too many public methods (", "/", ")"],
        Code::TooManyReturnStatements => &["Too many return statements (", "/", ")"],
        Code::TooManyBranches => &["Too many branches (", "/", ")"],
        Code::TooManyArguments => &["Too many arguments (", "/", ")"],
        Code::TooManyLocals => &["Too many local variables (", "/", ")"],
        Code::TooManyStatements => &["Too many statements (", "/", ")"],
        Code::UnknownOptionValue => &["Unknown option value for '", "', got '", "'"],
        Code::Unreachable => &["Unreachable code"],
        Code::DangerousDefaultValue => &["Dangerous default value ", " as argument"],
        Code::UnnecessaryPass => &["Unnecessary pass statement"],
        Code::AttributeDefinedOutsideInit => &["Attribute '", "' defined outside __init__"],
        Code::SuperInitNotCalled => &["__init__ method from base class '", "' is not called"],
        Code::UnnecessarySemicolon => &["Unnecessary semicolon"],
        Code::WildcardImport => &["Wildcard import ", ""],
        Code::GlobalStatement => &["Using the global statement"],
        Code::UnusedImport => &["", ""],
        Code::UnusedVariable => &["Unused variable '", "'"],
        Code::UnusedArgument => &["Unused argument '", "'"],
        Code::RedefinedBuiltin => &["Redefining built-in '", "'"],
        Code::BareExcept => &["No exception type(s) specified"],
    }
}

// The first argument, or nothing where there is none.
fn first_argument(args: &[Text]) -> &str
    ensures { result.now ≡ argument args.now }
{
    match args {
        [first, ..] => first.as_str(),
        [] => "",
    }
}

fn behind_first(args: &[Text]) -> &[Text]
    ensures { result.now ≡ drop 1 args.now }
{
    match args {
        [_, rest @ ..] => rest,
        [] => args,
    }
}

// Adds each of these words behind its argument.
fn push_behind_arguments(text: &mut String, words: &[&str], args: &[Text]) -> Result<(), Memory>
    ensures { OnOk result (string_bytes text.new ≡ string_bytes text.old ++ behind_arguments (map (λ w. w.now) words.now) args.now) }
{
    let mut args = args;
    for word in words {
        text.push_str(first_argument(args))?;
        text.push_str(word)?;
        args = behind_first(args);
    }
    Ok(())
}

/// The text of a message with its arguments, of which a missing one counts as empty and a surplus one is passed over.
pub fn message_text(alloc: Global, m: &Message) -> Result<Text, Memory>
    ensures { IfOk result (λ text. text ≡ text_of m.now) }
{
    let words = template(m.code);
    let mut text = String::from_str(alloc, words[0])?;
    push_behind_arguments(&mut text, &words[1..], m.args.as_slice())?;
    Ok(Text::from_string(text))
}
