// Kinds of nodes.

/// The kind of a node of a syntax tree: one variant for each form of Python 3.11's syntax. The line above a
/// variant says which kids a node has; `specs/Shapes.antt` says so exactly.
#[derive(Clone, Copy, Debug, PartialEq, Eq)]
pub enum Kind {
    /// The root: a docstring, statements.
    Module,

    // Simple statements.
    /// An expression, or one with a star, that stands alone.
    ExpressionStatement,
    /// Targets, then the value: `a = b, c = 1`.
    Assign,
    /// A target, an operator, the value: `a += 1`.
    AugAssign,
    /// A target, its annotation, maybe a value: `a: int = 1`.
    AnnAssign,
    Pass,
    Break,
    Continue,
    /// Maybe a value.
    Return,
    /// Nothing, or what is raised and maybe its cause.
    Raise,
    /// Declared names.
    Global,
    /// Declared names.
    Nonlocal,
    /// Targets.
    Delete,
    /// A test, maybe a message.
    Assert,
    /// Aliases, of dotted names.
    Import,
    /// Has the module's dotted name with its leading dots. Aliases, or the wildcard.
    ImportFrom,

    // Compound statements. Their blocks are the statements among their kids.
    /// A test, statements, `elif` clauses, maybe an `else` clause.
    If,
    /// A test, statements, maybe an `else` clause.
    While,
    /// Targets, what is gone over, statements, maybe an `else` clause.
    For,
    /// As `For`, behind `async`.
    AsyncFor,
    /// Statements, then handlers, an `else` clause, a `finally` clause.
    Try,
    /// Items, statements.
    With,
    /// As `With`, behind `async`.
    AsyncWith,
    /// Has a name. Decorators, parameters, maybe an annotation of the result, maybe a docstring, statements.
    FunctionDef,
    /// As `FunctionDef`, behind `async`.
    AsyncFunctionDef,
    /// Has a name. Decorators, arguments, maybe a docstring, statements.
    ClassDef,
    /// The subject, `case` clauses.
    Match,

    // Clauses of compound statements.
    /// A test, statements.
    Elif,
    /// Statements.
    Else,
    /// Maybe a type and then maybe a name, statements.
    ExceptHandler,
    /// As `ExceptHandler` for `except*`: a type, maybe a name, statements.
    ExceptStarHandler,
    /// Statements.
    Finally,
    /// A pattern, maybe a guard, statements.
    Case,

    // Parts of statements and clauses.
    /// An expression behind `@`.
    Decorator,
    /// Has the string as written. The first statement of a module, class or function, where that is a plain string.
    Docstring,
    /// An expression, maybe a target.
    WithItem,
    /// An expression behind `:` or `->`.
    Annotation,
    /// An expression behind `*`, in the annotation of `*args`.
    StarAnnotation,
    /// Has the imported name, dotted in `import`. Maybe the name behind `as`.
    Alias,
    /// The `*` of `from m import *`.
    ImportWildcard,
    /// Has the name behind the `as` of an import or a handler.
    AsName,
    /// Has a name that `global` or `nonlocal` declares.
    DeclaredName,

    // Parameters. Each has its name, but the mark; then maybe an annotation, and maybe a default.
    /// A parameter before any `*`.
    Parameter,
    /// The `/` behind the parameters that no keyword gives.
    PositionalOnlyMark,
    /// `*args`, without a default.
    StarParameter,
    /// A bare `*`, before the parameters that only a keyword gives.
    KeywordOnlyMark,
    /// A parameter behind `*` or `*args`.
    KeywordOnlyParameter,
    /// `**options`, without a default.
    DoubleStarParameter,

    // Targets: what an assignment, `for`, `with`, `del` or comprehension binds.
    /// Has a name.
    NameTarget,
    /// Has an attribute's name. An expression.
    AttributeTarget,
    /// An expression, and what stands in the brackets.
    SubscriptTarget,
    /// Targets in round brackets or with commas alone.
    TupleTarget,
    /// Targets in square brackets.
    ListTarget,
    /// A target behind `*`.
    StarredTarget,

    // Expressions.
    /// Has a name. The value: `x := 1`.
    NamedExpression,
    /// The value if true, the test, the value if false, as `a if t else b` writes them.
    Conditional,
    /// Parameters, the body.
    Lambda,
    /// Two or more operands of `or`.
    BoolOr,
    /// Two or more operands of `and`.
    BoolAnd,
    /// An operand.
    Not,
    /// Two or more operands, and between each two a comparison's operator.
    Comparison,
    /// Two or more operands of `|`.
    BitwiseOr,
    /// Two or more operands of `^`.
    BitwiseXor,
    /// Two or more operands of `&`.
    BitwiseAnd,
    /// Two or more operands, and between each two `<<` or `>>`.
    Shift,
    /// Two or more operands, and between each two `+` or `-`.
    Sum,
    /// Two or more operands, and between each two `*`, `/`, `//`, `%` or `@`.
    Product,
    /// An operand.
    UnaryPlus,
    /// An operand.
    UnaryMinus,
    /// An operand of `~`.
    UnaryInvert,
    /// A base, an exponent.
    Power,
    /// An operand.
    Await,
    /// Has the attribute's name. An expression.
    Attribute,
    /// What is called, arguments.
    Call,
    /// An expression, and what stands in the brackets.
    Subscript,
    /// Has a name, which is read.
    Name,
    /// Has the number as written.
    NumberLiteral,
    /// Has the strings as written, joined by one blank.
    StringLiteral,
    /// Has the byte strings as written, joined by one blank.
    BytesLiteral,
    /// Has the strings as written, joined by one blank, one of which has an `f`. Its fields.
    FString,
    NoneLiteral,
    TrueLiteral,
    FalseLiteral,
    /// `...`.
    EllipsisLiteral,
    /// Elements.
    Tuple,
    /// Elements.
    List,
    /// One or more elements.
    Set,
    /// Items and unpacked mappings.
    Dict,
    /// An element, comprehension clauses.
    ListComprehension,
    /// An element, comprehension clauses.
    SetComprehension,
    /// An item, comprehension clauses.
    DictComprehension,
    /// An element, comprehension clauses.
    GeneratorExpression,
    /// Maybe a value.
    Yield,
    /// An expression.
    YieldFrom,

    // Parts of expressions.
    /// An expression behind `*`, as an element, in brackets behind a subscript's expression, or alone.
    Starred,
    /// An expression behind `*`.
    StarArgument,
    /// Has the keyword. An expression.
    KeywordArgument,
    /// An expression behind `**`.
    DoubleStarArgument,
    /// Maybe the lower end, a colon, maybe the upper end, and maybe a colon and maybe the step.
    Slice,
    /// A `:` of a slice.
    SliceColon,
    /// Several slices, or one with a comma behind it.
    Slices,
    /// A key, a value.
    DictItem,
    /// An expression behind `**`.
    DictUnpack,
    /// Targets, what is gone over, conditions.
    ComprehensionFor,
    /// As `ComprehensionFor`, behind `async`.
    AsyncComprehensionFor,
    /// A field of an f-string: its expression, the fields of its format.
    Field,

    // Operators between operands.
    Less,
    Greater,
    Equal,
    LessEqual,
    GreaterEqual,
    NotEqual,
    In,
    NotIn,
    Is,
    IsNot,
    Add,
    Subtract,
    Multiply,
    Divide,
    FloorDivide,
    Modulo,
    MatrixMultiply,
    LeftShift,
    RightShift,
    /// `&=`.
    BitAnd,
    /// `^=`.
    BitXor,
    /// `|=`.
    BitOr,
    /// `**=`.
    Exponentiate,

    // Patterns.
    /// Two or more patterns with `|` between them.
    MatchOr,
    /// Has the name behind `as`. A pattern.
    MatchAs,
    /// A constant or a dotted name, which is compared.
    MatchValue,
    /// Has the name that it binds.
    MatchCapture,
    /// `_`.
    MatchWildcard,
    /// Patterns, at most one of which has a star.
    MatchSequence,
    /// Has the name behind `*`.
    MatchStar,
    /// `*_`.
    MatchStarWildcard,
    /// Items, maybe the rest.
    MatchMapping,
    /// A key, a pattern.
    MatchItem,
    /// Has the name behind `**`.
    MatchRest,
    /// The class, patterns, patterns with a keyword.
    MatchClass,
    /// Has the keyword. A pattern.
    MatchKeyword,
}
