// The symbols of the grammar.

/// What a token is to the grammar: a name, a literal, a keyword, an operator, or a mark around the fields of an f-string.
#[derive(Clone, Copy, Debug, PartialEq, Eq)]
pub enum Symbol {
    /// An identifier other than the soft keywords.
    Name,
    /// The soft keyword `match`, a name elsewhere.
    MatchWord,
    /// The soft keyword `case`, a name elsewhere.
    CaseWord,
    /// The soft keyword `_`, a name elsewhere.
    Underscore,
    /// A number, as written.
    Number,
    /// A string without `f`.
    Str,
    /// A byte string.
    Bytes,
    /// A string with `f`; its fields and `FStrEnd` stand behind it.
    FStr,
    /// Behind the fields of an f-string.
    FStrEnd,
    /// Before the expression of a field.
    FieldOpen,
    /// Behind a field: its expression and the fields of its format.
    FieldClose,
    /// In place of an expression of a field that is no list of tokens.
    BadField,
    /// `False`.
    FalseWord,
    /// `None`.
    NoneWord,
    /// `True`.
    TrueWord,
    /// `and`.
    AndWord,
    /// `as`.
    AsWord,
    /// `assert`.
    AssertWord,
    /// `async`.
    AsyncWord,
    /// `await`.
    AwaitWord,
    /// `break`.
    BreakWord,
    /// `class`.
    ClassWord,
    /// `continue`.
    ContinueWord,
    /// `def`.
    DefWord,
    /// `del`.
    DelWord,
    /// `elif`.
    ElifWord,
    /// `else`.
    ElseWord,
    /// `except`.
    ExceptWord,
    /// `finally`.
    FinallyWord,
    /// `for`.
    ForWord,
    /// `from`.
    FromWord,
    /// `global`.
    GlobalWord,
    /// `if`.
    IfWord,
    /// `import`.
    ImportWord,
    /// `in`.
    InWord,
    /// `is`.
    IsWord,
    /// `lambda`.
    LambdaWord,
    /// `nonlocal`.
    NonlocalWord,
    /// `not`.
    NotWord,
    /// `or`.
    OrWord,
    /// `pass`.
    PassWord,
    /// `raise`.
    RaiseWord,
    /// `return`.
    ReturnWord,
    /// `try`.
    TryWord,
    /// `while`.
    WhileWord,
    /// `with`.
    WithWord,
    /// `yield`.
    YieldWord,
    /// `+`.
    Plus,
    /// `-`.
    Minus,
    /// `*`.
    Star,
    /// `**`.
    DoubleStar,
    /// `/`.
    Slash,
    /// `//`.
    DoubleSlash,
    /// `%`.
    Percent,
    /// `@`.
    AtSign,
    /// `<<`.
    LeftShift,
    /// `>>`.
    RightShift,
    /// `&`.
    Ampersand,
    /// `|`.
    Bar,
    /// `^`.
    Caret,
    /// `~`.
    Tilde,
    /// `:=`.
    Walrus,
    /// `<`.
    Less,
    /// `>`.
    Greater,
    /// `<=`.
    LessEqual,
    /// `>=`.
    GreaterEqual,
    /// `==`.
    Equal,
    /// `!=`.
    NotEqual,
    /// `(`.
    LeftParen,
    /// `)`.
    RightParen,
    /// `[`.
    LeftBracket,
    /// `]`.
    RightBracket,
    /// `{`.
    LeftBrace,
    /// `}`.
    RightBrace,
    /// `,`.
    Comma,
    /// `:`.
    Colon,
    /// `.`.
    Dot,
    /// `;`.
    Semicolon,
    /// `=`.
    Assign,
    /// `->`.
    Arrow,
    /// `+=`.
    PlusAssign,
    /// `-=`.
    MinusAssign,
    /// `*=`.
    StarAssign,
    /// `/=`.
    SlashAssign,
    /// `//=`.
    DoubleSlashAssign,
    /// `%=`.
    PercentAssign,
    /// `@=`.
    AtAssign,
    /// `&=`.
    AmpersandAssign,
    /// `|=`.
    BarAssign,
    /// `^=`.
    CaretAssign,
    /// `>>=`.
    RightShiftAssign,
    /// `<<=`.
    LeftShiftAssign,
    /// `**=`.
    DoubleStarAssign,
    /// `...`.
    Ellipsis,
}
