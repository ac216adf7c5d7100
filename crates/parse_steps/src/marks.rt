// The sets of symbols by which the parser chooses: the symbols of a word of the grammar, and those with which forms begin.
use py_grammar::Symbol;

/// The symbols of `name`.
pub const NAME: &[Symbol] = &[
    Symbol::Name,
    Symbol::MatchWord,
    Symbol::CaseWord,
    Symbol::Underscore,
];
/// The symbols of `capture`.
pub const CAPTURE: &[Symbol] = &[Symbol::Name, Symbol::MatchWord, Symbol::CaseWord];
/// The symbols of `number`.
pub const NUMBER: &[Symbol] = &[Symbol::Number];
/// The symbols of `plain_string`.
pub const PLAIN_STRING: &[Symbol] = &[Symbol::Str];
/// The symbols of `byte_string`.
pub const BYTE_STRING: &[Symbol] = &[Symbol::Bytes];
/// The symbols of `format_string`.
pub const FORMAT_STRING: &[Symbol] = &[Symbol::FStr];
/// The symbols of `format_string_end`.
pub const FORMAT_STRING_END: &[Symbol] = &[Symbol::FStrEnd];
/// The symbols of `field_open`.
pub const FIELD_OPEN: &[Symbol] = &[Symbol::FieldOpen];
/// The symbols of `field_close`.
pub const FIELD_CLOSE: &[Symbol] = &[Symbol::FieldClose];
/// The symbols of `simple_atom`.
pub const SIMPLE_ATOM: &[Symbol] = &[
    Symbol::Name,
    Symbol::MatchWord,
    Symbol::CaseWord,
    Symbol::Underscore,
    Symbol::Number,
    Symbol::NoneWord,
    Symbol::TrueWord,
    Symbol::FalseWord,
    Symbol::Ellipsis,
];
/// The symbols of `constant_word`.
pub const CONSTANT_WORD: &[Symbol] = &[Symbol::NoneWord, Symbol::TrueWord, Symbol::FalseWord];
/// The symbols of `and_word`.
pub const AND_WORD: &[Symbol] = &[Symbol::AndWord];
/// The symbols of `as_word`.
pub const AS_WORD: &[Symbol] = &[Symbol::AsWord];
/// The symbols of `assert_word`.
pub const ASSERT_WORD: &[Symbol] = &[Symbol::AssertWord];
/// The symbols of `async_word`.
pub const ASYNC_WORD: &[Symbol] = &[Symbol::AsyncWord];
/// The symbols of `await_word`.
pub const AWAIT_WORD: &[Symbol] = &[Symbol::AwaitWord];
/// The symbols of `case_word`.
pub const CASE_WORD: &[Symbol] = &[Symbol::CaseWord];
/// The symbols of `class_word`.
pub const CLASS_WORD: &[Symbol] = &[Symbol::ClassWord];
/// The symbols of `def_word`.
pub const DEF_WORD: &[Symbol] = &[Symbol::DefWord];
/// The symbols of `del_word`.
pub const DEL_WORD: &[Symbol] = &[Symbol::DelWord];
/// The symbols of `elif_word`.
pub const ELIF_WORD: &[Symbol] = &[Symbol::ElifWord];
/// The symbols of `else_word`.
pub const ELSE_WORD: &[Symbol] = &[Symbol::ElseWord];
/// The symbols of `except_word`.
pub const EXCEPT_WORD: &[Symbol] = &[Symbol::ExceptWord];
/// The symbols of `finally_word`.
pub const FINALLY_WORD: &[Symbol] = &[Symbol::FinallyWord];
/// The symbols of `for_word`.
pub const FOR_WORD: &[Symbol] = &[Symbol::ForWord];
/// The symbols of `from_word`.
pub const FROM_WORD: &[Symbol] = &[Symbol::FromWord];
/// The symbols of `global_word`.
pub const GLOBAL_WORD: &[Symbol] = &[Symbol::GlobalWord];
/// The symbols of `if_word`.
pub const IF_WORD: &[Symbol] = &[Symbol::IfWord];
/// The symbols of `import_word`.
pub const IMPORT_WORD: &[Symbol] = &[Symbol::ImportWord];
/// The symbols of `in_word`.
pub const IN_WORD: &[Symbol] = &[Symbol::InWord];
/// The symbols of `is_word`.
pub const IS_WORD: &[Symbol] = &[Symbol::IsWord];
/// The symbols of `lambda_word`.
pub const LAMBDA_WORD: &[Symbol] = &[Symbol::LambdaWord];
/// The symbols of `match_word`.
pub const MATCH_WORD: &[Symbol] = &[Symbol::MatchWord];
/// The symbols of `nonlocal_word`.
pub const NONLOCAL_WORD: &[Symbol] = &[Symbol::NonlocalWord];
/// The symbols of `not_word`.
pub const NOT_WORD: &[Symbol] = &[Symbol::NotWord];
/// The symbols of `or_word`.
pub const OR_WORD: &[Symbol] = &[Symbol::OrWord];
/// The symbols of `raise_word`.
pub const RAISE_WORD: &[Symbol] = &[Symbol::RaiseWord];
/// The symbols of `return_word`.
pub const RETURN_WORD: &[Symbol] = &[Symbol::ReturnWord];
/// The symbols of `try_word`.
pub const TRY_WORD: &[Symbol] = &[Symbol::TryWord];
/// The symbols of `while_word`.
pub const WHILE_WORD: &[Symbol] = &[Symbol::WhileWord];
/// The symbols of `with_word`.
pub const WITH_WORD: &[Symbol] = &[Symbol::WithWord];
/// The symbols of `yield_word`.
pub const YIELD_WORD: &[Symbol] = &[Symbol::YieldWord];
/// The symbols of `lone_word`.
pub const LONE_WORD: &[Symbol] = &[Symbol::PassWord, Symbol::BreakWord, Symbol::ContinueWord];
/// The symbols of `left_paren`.
pub const LEFT_PAREN: &[Symbol] = &[Symbol::LeftParen];
/// The symbols of `right_paren`.
pub const RIGHT_PAREN: &[Symbol] = &[Symbol::RightParen];
/// The symbols of `left_bracket`.
pub const LEFT_BRACKET: &[Symbol] = &[Symbol::LeftBracket];
/// The symbols of `right_bracket`.
pub const RIGHT_BRACKET: &[Symbol] = &[Symbol::RightBracket];
/// The symbols of `left_brace`.
pub const LEFT_BRACE: &[Symbol] = &[Symbol::LeftBrace];
/// The symbols of `right_brace`.
pub const RIGHT_BRACE: &[Symbol] = &[Symbol::RightBrace];
/// The symbols of `comma`.
pub const COMMA: &[Symbol] = &[Symbol::Comma];
/// The symbols of `colon`.
pub const COLON: &[Symbol] = &[Symbol::Colon];
/// The symbols of `dot`.
pub const DOT: &[Symbol] = &[Symbol::Dot];
/// The symbols of `dots`.
pub const DOTS: &[Symbol] = &[Symbol::Dot, Symbol::Ellipsis];
/// The symbols of `semicolon`.
pub const SEMICOLON: &[Symbol] = &[Symbol::Semicolon];
/// The symbols of `assign`.
pub const ASSIGN: &[Symbol] = &[Symbol::Assign];
/// The symbols of `walrus`.
pub const WALRUS: &[Symbol] = &[Symbol::Walrus];
/// The symbols of `arrow`.
pub const ARROW: &[Symbol] = &[Symbol::Arrow];
/// The symbols of `at_sign`.
pub const AT_SIGN: &[Symbol] = &[Symbol::AtSign];
/// The symbols of `star`.
pub const STAR: &[Symbol] = &[Symbol::Star];
/// The symbols of `double_star`.
pub const DOUBLE_STAR: &[Symbol] = &[Symbol::DoubleStar];
/// The symbols of `slash`.
pub const SLASH: &[Symbol] = &[Symbol::Slash];
/// The symbols of `bar`.
pub const BAR: &[Symbol] = &[Symbol::Bar];
/// The symbols of `caret`.
pub const CARET: &[Symbol] = &[Symbol::Caret];
/// The symbols of `ampersand`.
pub const AMPERSAND: &[Symbol] = &[Symbol::Ampersand];
/// The symbols of `minus`.
pub const MINUS: &[Symbol] = &[Symbol::Minus];
/// The symbols of `sign`.
pub const SIGN: &[Symbol] = &[Symbol::Plus, Symbol::Minus, Symbol::Tilde];
/// The symbols of `shift_operator`.
pub const SHIFT_OPERATOR: &[Symbol] = &[Symbol::LeftShift, Symbol::RightShift];
/// The symbols of `sum_operator`.
pub const SUM_OPERATOR: &[Symbol] = &[Symbol::Plus, Symbol::Minus];
/// The symbols of `product_operator`.
pub const PRODUCT_OPERATOR: &[Symbol] = &[
    Symbol::Star,
    Symbol::Slash,
    Symbol::DoubleSlash,
    Symbol::Percent,
    Symbol::AtSign,
];
/// The symbols of `comparison_operator`.
pub const COMPARISON_OPERATOR: &[Symbol] = &[
    Symbol::Less,
    Symbol::Greater,
    Symbol::Equal,
    Symbol::GreaterEqual,
    Symbol::LessEqual,
    Symbol::NotEqual,
    Symbol::InWord,
];
/// The symbols of `augmented_operator`.
pub const AUGMENTED_OPERATOR: &[Symbol] = &[
    Symbol::PlusAssign,
    Symbol::MinusAssign,
    Symbol::StarAssign,
    Symbol::SlashAssign,
    Symbol::DoubleSlashAssign,
    Symbol::PercentAssign,
    Symbol::AtAssign,
    Symbol::AmpersandAssign,
    Symbol::BarAssign,
    Symbol::CaretAssign,
    Symbol::RightShiftAssign,
    Symbol::LeftShiftAssign,
    Symbol::DoubleStarAssign,
];
/// The symbols of `opens`.
pub const OPENS: &[Symbol] = &[
    Symbol::LeftParen,
    Symbol::LeftBracket,
    Symbol::LeftBrace,
    Symbol::FieldOpen,
];
/// The symbols of `closes`.
pub const CLOSES: &[Symbol] = &[
    Symbol::RightParen,
    Symbol::RightBracket,
    Symbol::RightBrace,
    Symbol::FieldClose,
];
/// The symbols of `string_first`.
pub const STRING_FIRST: &[Symbol] = &[Symbol::Str, Symbol::FStr];
/// The symbols of `strings_first`.
pub const STRINGS_FIRST: &[Symbol] = &[Symbol::Bytes, Symbol::Str, Symbol::FStr];
/// The symbols of `atom_first`.
pub const ATOM_FIRST: &[Symbol] = &[
    Symbol::Name,
    Symbol::MatchWord,
    Symbol::CaseWord,
    Symbol::Underscore,
    Symbol::Number,
    Symbol::NoneWord,
    Symbol::TrueWord,
    Symbol::FalseWord,
    Symbol::Ellipsis,
    Symbol::Bytes,
    Symbol::Str,
    Symbol::FStr,
    Symbol::LeftParen,
    Symbol::LeftBracket,
    Symbol::LeftBrace,
];
/// The symbols of `power_first`.
pub const POWER_FIRST: &[Symbol] = &[
    Symbol::AwaitWord,
    Symbol::Name,
    Symbol::MatchWord,
    Symbol::CaseWord,
    Symbol::Underscore,
    Symbol::Number,
    Symbol::NoneWord,
    Symbol::TrueWord,
    Symbol::FalseWord,
    Symbol::Ellipsis,
    Symbol::Bytes,
    Symbol::Str,
    Symbol::FStr,
    Symbol::LeftParen,
    Symbol::LeftBracket,
    Symbol::LeftBrace,
];
/// The symbols of `factor_first`.
pub const FACTOR_FIRST: &[Symbol] = &[
    Symbol::Plus,
    Symbol::Minus,
    Symbol::Tilde,
    Symbol::AwaitWord,
    Symbol::Name,
    Symbol::MatchWord,
    Symbol::CaseWord,
    Symbol::Underscore,
    Symbol::Number,
    Symbol::NoneWord,
    Symbol::TrueWord,
    Symbol::FalseWord,
    Symbol::Ellipsis,
    Symbol::Bytes,
    Symbol::Str,
    Symbol::FStr,
    Symbol::LeftParen,
    Symbol::LeftBracket,
    Symbol::LeftBrace,
];
/// The symbols of `not_first`.
pub const NOT_FIRST: &[Symbol] = &[
    Symbol::NotWord,
    Symbol::Plus,
    Symbol::Minus,
    Symbol::Tilde,
    Symbol::AwaitWord,
    Symbol::Name,
    Symbol::MatchWord,
    Symbol::CaseWord,
    Symbol::Underscore,
    Symbol::Number,
    Symbol::NoneWord,
    Symbol::TrueWord,
    Symbol::FalseWord,
    Symbol::Ellipsis,
    Symbol::Bytes,
    Symbol::Str,
    Symbol::FStr,
    Symbol::LeftParen,
    Symbol::LeftBracket,
    Symbol::LeftBrace,
];
/// The symbols of `test_first`.
pub const TEST_FIRST: &[Symbol] = &[
    Symbol::LambdaWord,
    Symbol::NotWord,
    Symbol::Plus,
    Symbol::Minus,
    Symbol::Tilde,
    Symbol::AwaitWord,
    Symbol::Name,
    Symbol::MatchWord,
    Symbol::CaseWord,
    Symbol::Underscore,
    Symbol::Number,
    Symbol::NoneWord,
    Symbol::TrueWord,
    Symbol::FalseWord,
    Symbol::Ellipsis,
    Symbol::Bytes,
    Symbol::Str,
    Symbol::FStr,
    Symbol::LeftParen,
    Symbol::LeftBracket,
    Symbol::LeftBrace,
];
/// The symbols of `element_first`.
pub const ELEMENT_FIRST: &[Symbol] = &[
    Symbol::Star,
    Symbol::LambdaWord,
    Symbol::NotWord,
    Symbol::Plus,
    Symbol::Minus,
    Symbol::Tilde,
    Symbol::AwaitWord,
    Symbol::Name,
    Symbol::MatchWord,
    Symbol::CaseWord,
    Symbol::Underscore,
    Symbol::Number,
    Symbol::NoneWord,
    Symbol::TrueWord,
    Symbol::FalseWord,
    Symbol::Ellipsis,
    Symbol::Bytes,
    Symbol::Str,
    Symbol::FStr,
    Symbol::LeftParen,
    Symbol::LeftBracket,
    Symbol::LeftBrace,
];
/// The symbols of `target_first`.
pub const TARGET_FIRST: &[Symbol] = &[
    Symbol::Star,
    Symbol::Plus,
    Symbol::Minus,
    Symbol::Tilde,
    Symbol::AwaitWord,
    Symbol::Name,
    Symbol::MatchWord,
    Symbol::CaseWord,
    Symbol::Underscore,
    Symbol::Number,
    Symbol::NoneWord,
    Symbol::TrueWord,
    Symbol::FalseWord,
    Symbol::Ellipsis,
    Symbol::Bytes,
    Symbol::Str,
    Symbol::FStr,
    Symbol::LeftParen,
    Symbol::LeftBracket,
    Symbol::LeftBrace,
];
/// The symbols of `value_first`.
pub const VALUE_FIRST: &[Symbol] = &[
    Symbol::YieldWord,
    Symbol::Star,
    Symbol::LambdaWord,
    Symbol::NotWord,
    Symbol::Plus,
    Symbol::Minus,
    Symbol::Tilde,
    Symbol::AwaitWord,
    Symbol::Name,
    Symbol::MatchWord,
    Symbol::CaseWord,
    Symbol::Underscore,
    Symbol::Number,
    Symbol::NoneWord,
    Symbol::TrueWord,
    Symbol::FalseWord,
    Symbol::Ellipsis,
    Symbol::Bytes,
    Symbol::Str,
    Symbol::FStr,
    Symbol::LeftParen,
    Symbol::LeftBracket,
    Symbol::LeftBrace,
];
/// The symbols of `unpacked_first`.
pub const UNPACKED_FIRST: &[Symbol] = &[Symbol::DoubleStar, Symbol::Star];
/// The symbols of `brace_first`.
pub const BRACE_FIRST: &[Symbol] = &[
    Symbol::DoubleStar,
    Symbol::Star,
    Symbol::LambdaWord,
    Symbol::NotWord,
    Symbol::Plus,
    Symbol::Minus,
    Symbol::Tilde,
    Symbol::AwaitWord,
    Symbol::Name,
    Symbol::MatchWord,
    Symbol::CaseWord,
    Symbol::Underscore,
    Symbol::Number,
    Symbol::NoneWord,
    Symbol::TrueWord,
    Symbol::FalseWord,
    Symbol::Ellipsis,
    Symbol::Bytes,
    Symbol::Str,
    Symbol::FStr,
    Symbol::LeftParen,
    Symbol::LeftBracket,
    Symbol::LeftBrace,
];
/// The symbols of `starred_first`.
pub const STARRED_FIRST: &[Symbol] = &[Symbol::Star, Symbol::DoubleStar];
/// The symbols of `argument_first`.
pub const ARGUMENT_FIRST: &[Symbol] = &[
    Symbol::Star,
    Symbol::DoubleStar,
    Symbol::LambdaWord,
    Symbol::NotWord,
    Symbol::Plus,
    Symbol::Minus,
    Symbol::Tilde,
    Symbol::AwaitWord,
    Symbol::Name,
    Symbol::MatchWord,
    Symbol::CaseWord,
    Symbol::Underscore,
    Symbol::Number,
    Symbol::NoneWord,
    Symbol::TrueWord,
    Symbol::FalseWord,
    Symbol::Ellipsis,
    Symbol::Bytes,
    Symbol::Str,
    Symbol::FStr,
    Symbol::LeftParen,
    Symbol::LeftBracket,
    Symbol::LeftBrace,
];
/// The symbols of `slice_first`.
pub const SLICE_FIRST: &[Symbol] = &[
    Symbol::Colon,
    Symbol::LambdaWord,
    Symbol::NotWord,
    Symbol::Plus,
    Symbol::Minus,
    Symbol::Tilde,
    Symbol::AwaitWord,
    Symbol::Name,
    Symbol::MatchWord,
    Symbol::CaseWord,
    Symbol::Underscore,
    Symbol::Number,
    Symbol::NoneWord,
    Symbol::TrueWord,
    Symbol::FalseWord,
    Symbol::Ellipsis,
    Symbol::Bytes,
    Symbol::Str,
    Symbol::FStr,
    Symbol::LeftParen,
    Symbol::LeftBracket,
    Symbol::LeftBrace,
];
/// The symbols of `slices_first`.
pub const SLICES_FIRST: &[Symbol] = &[
    Symbol::Star,
    Symbol::Colon,
    Symbol::LambdaWord,
    Symbol::NotWord,
    Symbol::Plus,
    Symbol::Minus,
    Symbol::Tilde,
    Symbol::AwaitWord,
    Symbol::Name,
    Symbol::MatchWord,
    Symbol::CaseWord,
    Symbol::Underscore,
    Symbol::Number,
    Symbol::NoneWord,
    Symbol::TrueWord,
    Symbol::FalseWord,
    Symbol::Ellipsis,
    Symbol::Bytes,
    Symbol::Str,
    Symbol::FStr,
    Symbol::LeftParen,
    Symbol::LeftBracket,
    Symbol::LeftBrace,
];
/// The symbols of `trailer_first`.
pub const TRAILER_FIRST: &[Symbol] = &[Symbol::Dot, Symbol::LeftParen, Symbol::LeftBracket];
/// The symbols of `clause_first`.
pub const CLAUSE_FIRST: &[Symbol] = &[Symbol::AsyncWord, Symbol::ForWord];
/// The symbols of `clause_or_comma`.
pub const CLAUSE_OR_COMMA: &[Symbol] = &[Symbol::AsyncWord, Symbol::ForWord, Symbol::Comma];
/// The symbols of `comparison_first`.
pub const COMPARISON_FIRST: &[Symbol] = &[
    Symbol::Less,
    Symbol::Greater,
    Symbol::Equal,
    Symbol::GreaterEqual,
    Symbol::LessEqual,
    Symbol::NotEqual,
    Symbol::InWord,
    Symbol::NotWord,
    Symbol::IsWord,
];
/// The symbols of `parameter_first`.
pub const PARAMETER_FIRST: &[Symbol] = &[
    Symbol::Name,
    Symbol::MatchWord,
    Symbol::CaseWord,
    Symbol::Underscore,
    Symbol::Slash,
    Symbol::Star,
    Symbol::DoubleStar,
];
/// The symbols of `signed_first`.
pub const SIGNED_FIRST: &[Symbol] = &[Symbol::Number, Symbol::Minus];
/// The symbols of `literal_first`.
pub const LITERAL_FIRST: &[Symbol] = &[
    Symbol::Number,
    Symbol::Minus,
    Symbol::Bytes,
    Symbol::Str,
    Symbol::FStr,
    Symbol::NoneWord,
    Symbol::TrueWord,
    Symbol::FalseWord,
];
/// The symbols of `pattern_first`.
pub const PATTERN_FIRST: &[Symbol] = &[
    Symbol::Number,
    Symbol::Minus,
    Symbol::Bytes,
    Symbol::Str,
    Symbol::FStr,
    Symbol::NoneWord,
    Symbol::TrueWord,
    Symbol::FalseWord,
    Symbol::Name,
    Symbol::MatchWord,
    Symbol::CaseWord,
    Symbol::Underscore,
    Symbol::LeftParen,
    Symbol::LeftBracket,
    Symbol::LeftBrace,
];
/// The symbols of `sequence_first`.
pub const SEQUENCE_FIRST: &[Symbol] = &[
    Symbol::Star,
    Symbol::Number,
    Symbol::Minus,
    Symbol::Bytes,
    Symbol::Str,
    Symbol::FStr,
    Symbol::NoneWord,
    Symbol::TrueWord,
    Symbol::FalseWord,
    Symbol::Name,
    Symbol::MatchWord,
    Symbol::CaseWord,
    Symbol::Underscore,
    Symbol::LeftParen,
    Symbol::LeftBracket,
    Symbol::LeftBrace,
];
/// The symbols of `mapping_first`.
pub const MAPPING_FIRST: &[Symbol] = &[
    Symbol::DoubleStar,
    Symbol::Number,
    Symbol::Minus,
    Symbol::Bytes,
    Symbol::Str,
    Symbol::FStr,
    Symbol::NoneWord,
    Symbol::TrueWord,
    Symbol::FalseWord,
    Symbol::Name,
    Symbol::MatchWord,
    Symbol::CaseWord,
    Symbol::Underscore,
];
/// The symbols of `keyword_statement_first`.
pub const KEYWORD_STATEMENT_FIRST: &[Symbol] = &[
    Symbol::PassWord,
    Symbol::BreakWord,
    Symbol::ContinueWord,
    Symbol::ReturnWord,
    Symbol::RaiseWord,
    Symbol::GlobalWord,
    Symbol::NonlocalWord,
    Symbol::DelWord,
    Symbol::AssertWord,
    Symbol::ImportWord,
    Symbol::FromWord,
];
/// The symbols of `statement_first`.
pub const STATEMENT_FIRST: &[Symbol] = &[
    Symbol::PassWord,
    Symbol::BreakWord,
    Symbol::ContinueWord,
    Symbol::ReturnWord,
    Symbol::RaiseWord,
    Symbol::GlobalWord,
    Symbol::NonlocalWord,
    Symbol::DelWord,
    Symbol::AssertWord,
    Symbol::ImportWord,
    Symbol::FromWord,
    Symbol::YieldWord,
    Symbol::Star,
    Symbol::LambdaWord,
    Symbol::NotWord,
    Symbol::Plus,
    Symbol::Minus,
    Symbol::Tilde,
    Symbol::AwaitWord,
    Symbol::Name,
    Symbol::MatchWord,
    Symbol::CaseWord,
    Symbol::Underscore,
    Symbol::Number,
    Symbol::NoneWord,
    Symbol::TrueWord,
    Symbol::FalseWord,
    Symbol::Ellipsis,
    Symbol::Bytes,
    Symbol::Str,
    Symbol::FStr,
    Symbol::LeftParen,
    Symbol::LeftBracket,
    Symbol::LeftBrace,
];
/// `+` alone.
pub const PLUS: &[Symbol] = &[Symbol::Plus];
