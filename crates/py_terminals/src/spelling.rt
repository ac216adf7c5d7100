// How keywords and operators are spelled.
ghost use Rattle.std.specs.Prelude.{◌≡◌, find};
ghost use Rattle.py_terminals.specs.Spelling.{is_spelled, keyword_symbol, name_symbol, operator_symbol, or_none, spelling};

use py_grammar::Symbol;

/// The keywords, those first that are written most.
pub(crate) const KEYWORDS: [Symbol; 35] = [
    Symbol::DefWord,
    Symbol::IfWord,
    Symbol::ReturnWord,
    Symbol::InWord,
    Symbol::ForWord,
    Symbol::NotWord,
    Symbol::NoneWord,
    Symbol::ImportWord,
    Symbol::IsWord,
    Symbol::ElseWord,
    Symbol::TrueWord,
    Symbol::FalseWord,
    Symbol::AndWord,
    Symbol::FromWord,
    Symbol::ClassWord,
    Symbol::OrWord,
    Symbol::TryWord,
    Symbol::ExceptWord,
    Symbol::WithWord,
    Symbol::AsWord,
    Symbol::RaiseWord,
    Symbol::ElifWord,
    Symbol::WhileWord,
    Symbol::PassWord,
    Symbol::YieldWord,
    Symbol::AssertWord,
    Symbol::DelWord,
    Symbol::LambdaWord,
    Symbol::ContinueWord,
    Symbol::BreakWord,
    Symbol::FinallyWord,
    Symbol::AsyncWord,
    Symbol::AwaitWord,
    Symbol::GlobalWord,
    Symbol::NonlocalWord,
];

/// The operators and marks, those first that are written most.
pub(crate) const OPERATORS: [Symbol; 47] = [
    Symbol::LeftParen,
    Symbol::RightParen,
    Symbol::Comma,
    Symbol::Dot,
    Symbol::Assign,
    Symbol::Colon,
    Symbol::LeftBracket,
    Symbol::RightBracket,
    Symbol::LeftBrace,
    Symbol::RightBrace,
    Symbol::Equal,
    Symbol::Plus,
    Symbol::Minus,
    Symbol::Star,
    Symbol::Percent,
    Symbol::Less,
    Symbol::Greater,
    Symbol::NotEqual,
    Symbol::DoubleStar,
    Symbol::Arrow,
    Symbol::PlusAssign,
    Symbol::GreaterEqual,
    Symbol::LessEqual,
    Symbol::Bar,
    Symbol::Slash,
    Symbol::AtSign,
    Symbol::Ampersand,
    Symbol::DoubleSlash,
    Symbol::Walrus,
    Symbol::Semicolon,
    Symbol::LeftShift,
    Symbol::RightShift,
    Symbol::Caret,
    Symbol::Tilde,
    Symbol::MinusAssign,
    Symbol::Ellipsis,
    Symbol::StarAssign,
    Symbol::BarAssign,
    Symbol::SlashAssign,
    Symbol::AmpersandAssign,
    Symbol::PercentAssign,
    Symbol::DoubleSlashAssign,
    Symbol::CaretAssign,
    Symbol::RightShiftAssign,
    Symbol::LeftShiftAssign,
    Symbol::DoubleStarAssign,
    Symbol::AtAssign,
];

/// What is written for a keyword or an operator.
fn spelling(symbol: Symbol) -> &'static str
    ensures { result.now ≡ spelling symbol }
{
    match symbol {
        Symbol::FalseWord => "False",
        Symbol::NoneWord => "None",
        Symbol::TrueWord => "True",
        Symbol::AndWord => "and",
        Symbol::AsWord => "as",
        Symbol::AssertWord => "assert",
        Symbol::AsyncWord => "async",
        Symbol::AwaitWord => "await",
        Symbol::BreakWord => "break",
        Symbol::ClassWord => "class",
        Symbol::ContinueWord => "continue",
        Symbol::DefWord => "def",
        Symbol::DelWord => "del",
        Symbol::ElifWord => "elif",
        Symbol::ElseWord => "else",
        Symbol::ExceptWord => "except",
        Symbol::FinallyWord => "finally",
        Symbol::ForWord => "for",
        Symbol::FromWord => "from",
        Symbol::GlobalWord => "global",
        Symbol::IfWord => "if",
        Symbol::ImportWord => "import",
        Symbol::InWord => "in",
        Symbol::IsWord => "is",
        Symbol::LambdaWord => "lambda",
        Symbol::NonlocalWord => "nonlocal",
        Symbol::NotWord => "not",
        Symbol::OrWord => "or",
        Symbol::PassWord => "pass",
        Symbol::RaiseWord => "raise",
        Symbol::ReturnWord => "return",
        Symbol::TryWord => "try",
        Symbol::WhileWord => "while",
        Symbol::WithWord => "with",
        Symbol::YieldWord => "yield",
        Symbol::Plus => "+",
        Symbol::Minus => "-",
        Symbol::Star => "*",
        Symbol::DoubleStar => "**",
        Symbol::Slash => "/",
        Symbol::DoubleSlash => "//",
        Symbol::Percent => "%",
        Symbol::AtSign => "@",
        Symbol::LeftShift => "<<",
        Symbol::RightShift => ">>",
        Symbol::Ampersand => "&",
        Symbol::Bar => "|",
        Symbol::Caret => "^",
        Symbol::Tilde => "~",
        Symbol::Walrus => ":=",
        Symbol::Less => "<",
        Symbol::Greater => ">",
        Symbol::LessEqual => "<=",
        Symbol::GreaterEqual => ">=",
        Symbol::Equal => "==",
        Symbol::NotEqual => "!=",
        Symbol::LeftParen => "(",
        Symbol::RightParen => ")",
        Symbol::LeftBracket => "[",
        Symbol::RightBracket => "]",
        Symbol::LeftBrace => "{",
        Symbol::RightBrace => "}",
        Symbol::Comma => ",",
        Symbol::Colon => ":",
        Symbol::Dot => ".",
        Symbol::Semicolon => ";",
        Symbol::Assign => "=",
        Symbol::Arrow => "->",
        Symbol::PlusAssign => "+=",
        Symbol::MinusAssign => "-=",
        Symbol::StarAssign => "*=",
        Symbol::SlashAssign => "/=",
        Symbol::DoubleSlashAssign => "//=",
        Symbol::PercentAssign => "%=",
        Symbol::AtAssign => "@=",
        Symbol::AmpersandAssign => "&=",
        Symbol::BarAssign => "|=",
        Symbol::CaretAssign => "^=",
        Symbol::RightShiftAssign => ">>=",
        Symbol::LeftShiftAssign => "<<=",
        Symbol::DoubleStarAssign => "**=",
        Symbol::Ellipsis => "...",
        Symbol::Name
        | Symbol::MatchWord
        | Symbol::CaseWord
        | Symbol::Underscore
        | Symbol::Number
        | Symbol::Str
        | Symbol::Bytes
        | Symbol::FStr
        | Symbol::FStrEnd
        | Symbol::FieldOpen
        | Symbol::FieldClose
        | Symbol::BadField => "",
    }
}

fn is_spelled(text: &str, symbol: Symbol) -> bool
    ensures { result ≡ is_spelled text.now symbol }
{
    text == spelling(symbol)
}

fn or_none(found: Option<Symbol>) -> Symbol
    ensures { result ≡ or_none found }
{
    match found {
        Some(symbol) => symbol,
        None => Symbol::BadField,
    }
}

fn keyword(text: &str) -> Option<Symbol>
    ensures { result ≡ find (is_spelled text.now) KEYWORDS }
{
    KEYWORDS
        .iter()
        .copied()
        .find(|symbol| is_spelled(text, *symbol))
}

fn operator(text: &str) -> Option<Symbol>
    ensures { result ≡ find (is_spelled text.now) OPERATORS }
{
    OPERATORS
        .iter()
        .copied()
        .find(|symbol| is_spelled(text, *symbol))
}

/// The keyword that is written so.
pub(crate) fn keyword_symbol(text: &str) -> Symbol
    ensures { result ≡ keyword_symbol text.now }
{
    or_none(keyword(text))
}

/// The operator that is written so.
pub(crate) fn operator_symbol(text: &str) -> Symbol
    ensures { result ≡ operator_symbol text.now }
{
    or_none(operator(text))
}

/// What a name is: the soft keywords are told by what is written.
pub(crate) fn name_symbol(text: &str) -> Symbol
    ensures { result ≡ name_symbol text.now }
{
    if text == "_" {
        Symbol::Underscore
    } else if text == "match" {
        Symbol::MatchWord
    } else if text == "case" {
        Symbol::CaseWord
    } else {
        Symbol::Name
    }
}
