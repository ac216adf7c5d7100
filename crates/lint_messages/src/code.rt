// The codes of the messages: the one table of letters and symbols.
ghost use Rattle.std.specs.Prelude.{◌≡◌};
ghost use Rattle.lint_messages.specs.Codes.{letters, symbol, category, bit};

/// A code, one for each message. The variants stand in the order of their letters, and are ordered so.
#[derive(Clone, Copy, Debug, PartialEq, Eq, PartialOrd, Ord)]
pub enum Code {
    MissingModuleDocstring,
    MissingClassDocstring,
    MissingFunctionDocstring,
    LineTooLong,
    TooManyLines,
    TrailingWhitespace,
    MissingFinalNewline,
    MultipleStatements,
    MultipleImports,
    SyntaxError,
    FunctionRedefined,
    NotInLoop,
    ReturnOutsideFunction,
    InconsistentMro,
    DuplicateBases,
    UndefinedVariable,
    NoNameInModule,
    NoMember,
    NoValueForParameter,
    TooManyFunctionArgs,
    UnexpectedKeywordArg,
    RedundantKeywordArg,
    Fatal,
    ParseError,
    TooManyAncestors,
    TooManyInstanceAttributes,
    TooFewPublicMethods,
    TooManyPublicMethods,
    TooManyReturnStatements,
    TooManyBranches,
    TooManyArguments,
    TooManyLocals,
    TooManyStatements,
    UnknownOptionValue,
    Unreachable,
    DangerousDefaultValue,
    UnnecessaryPass,
    AttributeDefinedOutsideInit,
    SuperInitNotCalled,
    UnnecessarySemicolon,
    WildcardImport,
    GlobalStatement,
    UnusedImport,
    UnusedVariable,
    UnusedArgument,
    RedefinedBuiltin,
    BareExcept,
}

/// All codes, in their order.
pub const ALL_CODES: [Code; 47] = [
    Code::MissingModuleDocstring,
    Code::MissingClassDocstring,
    Code::MissingFunctionDocstring,
    Code::LineTooLong,
    Code::TooManyLines,
    Code::TrailingWhitespace,
    Code::MissingFinalNewline,
    Code::MultipleStatements,
    Code::MultipleImports,
    Code::SyntaxError,
    Code::FunctionRedefined,
    Code::NotInLoop,
    Code::ReturnOutsideFunction,
    Code::InconsistentMro,
    Code::DuplicateBases,
    Code::UndefinedVariable,
    Code::NoNameInModule,
    Code::NoMember,
    Code::NoValueForParameter,
    Code::TooManyFunctionArgs,
    Code::UnexpectedKeywordArg,
    Code::RedundantKeywordArg,
    Code::Fatal,
    Code::ParseError,
    Code::TooManyAncestors,
    Code::TooManyInstanceAttributes,
    Code::TooFewPublicMethods,
    Code::TooManyPublicMethods,
    Code::TooManyReturnStatements,
    Code::TooManyBranches,
    Code::TooManyArguments,
    Code::TooManyLocals,
    Code::TooManyStatements,
    Code::UnknownOptionValue,
    Code::Unreachable,
    Code::DangerousDefaultValue,
    Code::UnnecessaryPass,
    Code::AttributeDefinedOutsideInit,
    Code::SuperInitNotCalled,
    Code::UnnecessarySemicolon,
    Code::WildcardImport,
    Code::GlobalStatement,
    Code::UnusedImport,
    Code::UnusedVariable,
    Code::UnusedArgument,
    Code::RedefinedBuiltin,
    Code::BareExcept,
];

impl Code {
    /// The category's letter and four digits, as `C0301`.
    pub fn letters(self) -> &'static str
        ensures { result.now ≡ letters self }
    {
        match self {
            Code::MissingModuleDocstring => "C0114",
            Code::MissingClassDocstring => "C0115",
            Code::MissingFunctionDocstring => "C0116",
            Code::LineTooLong => "C0301",
            Code::TooManyLines => "C0302",
            Code::TrailingWhitespace => "C0303",
            Code::MissingFinalNewline => "C0304",
            Code::MultipleStatements => "C0321",
            Code::MultipleImports => "C0410",
            Code::SyntaxError => "E0001",
            Code::FunctionRedefined => "E0102",
            Code::NotInLoop => "E0103",
            Code::ReturnOutsideFunction => "E0104",
            Code::InconsistentMro => "E0240",
            Code::DuplicateBases => "E0241",
            Code::UndefinedVariable => "E0602",
            Code::NoNameInModule => "E0611",
            Code::NoMember => "E1101",
            Code::NoValueForParameter => "E1120",
            Code::TooManyFunctionArgs => "E1121",
            Code::UnexpectedKeywordArg => "E1123",
            Code::RedundantKeywordArg => "E1124",
            Code::Fatal => "F0001",
            Code::ParseError => "F0010",
            Code::TooManyAncestors => "R0901",
            Code::TooManyInstanceAttributes => "R0902",
            Code::TooFewPublicMethods => "R0903",
            Code::TooManyPublicMethods => "R0904",
            Code::TooManyReturnStatements => "R0911",
            Code::TooManyBranches => "R0912",
            Code::TooManyArguments => "R0913",
            Code::TooManyLocals => "R0914",
            Code::TooManyStatements => "R0915",
            Code::UnknownOptionValue => "W0012",
            Code::Unreachable => "W0101",
            Code::DangerousDefaultValue => "W0102",
            Code::UnnecessaryPass => "W0107",
            Code::AttributeDefinedOutsideInit => "W0201",
            Code::SuperInitNotCalled => "W0231",
            Code::UnnecessarySemicolon => "W0301",
            Code::WildcardImport => "W0401",
            Code::GlobalStatement => "W0603",
            Code::UnusedImport => "W0611",
            Code::UnusedVariable => "W0612",
            Code::UnusedArgument => "W0613",
            Code::RedefinedBuiltin => "W0622",
            Code::BareExcept => "W0702",
        }
    }

    /// The name in words, as `line-too-long`.
    pub fn symbol(self) -> &'static str
        ensures { result.now ≡ symbol self }
    {
        match self {
            Code::MissingModuleDocstring => "missing-module-docstring",
            Code::MissingClassDocstring => "missing-class-docstring",
            Code::MissingFunctionDocstring => "missing-function-docstring",
            Code::LineTooLong => "line-too-long",
            Code::TooManyLines => "too-many-lines",
            Code::TrailingWhitespace => "trailing-whitespace",
            Code::MissingFinalNewline => "missing-final-newline",
            Code::MultipleStatements => "multiple-statements",
            Code::MultipleImports => "multiple-imports",
            Code::SyntaxError => "syntax-error",
            Code::FunctionRedefined => "function-redefined",
            Code::NotInLoop => "not-in-loop",
            Code::ReturnOutsideFunction => "return-outside-function",
            Code::InconsistentMro => "inconsistent-mro",
            Code::DuplicateBases => "duplicate-bases",
            Code::UndefinedVariable => "undefined-variable",
            Code::NoNameInModule => "no-name-in-module",
            Code::NoMember => "no-member",
            Code::NoValueForParameter => "no-value-for-parameter",
            Code::TooManyFunctionArgs => "too-many-function-args",
            Code::UnexpectedKeywordArg => "unexpected-keyword-arg",
            Code::RedundantKeywordArg => "redundant-keyword-arg",
            Code::Fatal => "fatal",
            Code::ParseError => "parse-error",
            Code::TooManyAncestors => "too-many-ancestors",
            Code::TooManyInstanceAttributes => "too-many-instance-attributes",
            Code::TooFewPublicMethods => "too-few-public-methods",
            Code::TooManyPublicMethods => "too-many-public-methods",
            Code::TooManyReturnStatements => "too-many-return-statements",
            Code::TooManyBranches => "too-many-branches",
            Code::TooManyArguments => "too-many-arguments",
            Code::TooManyLocals => "too-many-locals",
            Code::TooManyStatements => "too-many-statements",
            Code::UnknownOptionValue => "unknown-option-value",
            Code::Unreachable => "unreachable",
            Code::DangerousDefaultValue => "dangerous-default-value",
            Code::UnnecessaryPass => "unnecessary-pass",
            Code::AttributeDefinedOutsideInit => "attribute-defined-outside-init",
            Code::SuperInitNotCalled => "super-init-not-called",
            Code::UnnecessarySemicolon => "unnecessary-semicolon",
            Code::WildcardImport => "wildcard-import",
            Code::GlobalStatement => "global-statement",
            Code::UnusedImport => "unused-import",
            Code::UnusedVariable => "unused-variable",
            Code::UnusedArgument => "unused-argument",
            Code::RedefinedBuiltin => "redefined-builtin",
            Code::BareExcept => "bare-except",
        }
    }

    /// The category's letter: F, E, W, R or C.
    pub fn category(self) -> char
        ensures { result ≡ category self }
    {
        match self {
            Code::MissingModuleDocstring
            | Code::MissingClassDocstring
            | Code::MissingFunctionDocstring
            | Code::LineTooLong
            | Code::TooManyLines
            | Code::TrailingWhitespace
            | Code::MissingFinalNewline
            | Code::MultipleStatements
            | Code::MultipleImports => 'C',
            Code::SyntaxError
            | Code::FunctionRedefined
            | Code::NotInLoop
            | Code::ReturnOutsideFunction
            | Code::InconsistentMro
            | Code::DuplicateBases
            | Code::UndefinedVariable
            | Code::NoNameInModule
            | Code::NoMember
            | Code::NoValueForParameter
            | Code::TooManyFunctionArgs
            | Code::UnexpectedKeywordArg
            | Code::RedundantKeywordArg => 'E',
            Code::Fatal | Code::ParseError => 'F',
            Code::TooManyAncestors
            | Code::TooManyInstanceAttributes
            | Code::TooFewPublicMethods
            | Code::TooManyPublicMethods
            | Code::TooManyReturnStatements
            | Code::TooManyBranches
            | Code::TooManyArguments
            | Code::TooManyLocals
            | Code::TooManyStatements => 'R',
            Code::UnknownOptionValue
            | Code::Unreachable
            | Code::DangerousDefaultValue
            | Code::UnnecessaryPass
            | Code::AttributeDefinedOutsideInit
            | Code::SuperInitNotCalled
            | Code::UnnecessarySemicolon
            | Code::WildcardImport
            | Code::GlobalStatement
            | Code::UnusedImport
            | Code::UnusedVariable
            | Code::UnusedArgument
            | Code::RedefinedBuiltin
            | Code::BareExcept => 'W',
        }
    }

    /// The bit of the exit status.
    pub fn bit(self) -> u8
        ensures { result ≡ bit self }
    {
        match self.category() {
            'F' => 1,
            'E' => 2,
            'W' => 4,
            'R' => 8,
            _ => 16,
        }
    }
}
