// Signatures and calls, each with its tree, kids before their parents, the numbers of the function and of the call,
// whether a receiver comes first, and what the parameters and keywords get, or what does not fit.
// Written by tools/call_rows.py: expected values are those of Python's `inspect.signature(..).bind`.

pub const CALLS: &str = "\
# def f(): pass / f()
Pass/0 FunctionDef:f/1 Name:f/0 Call/1 ExpressionStatement/1 Module/2 | 1 4 plain | fits ;
# def f(): pass / f(a=1)
Pass/0 FunctionDef:f/1 Name:f/0 NumberLiteral:1/0 KeywordArgument:a/1 Call/2 ExpressionStatement/1 Module/2 | 1 4 plain | unexpected 0
# def f(): pass / f(1, c=3)
Pass/0 FunctionDef:f/1 Name:f/0 NumberLiteral:1/0 NumberLiteral:3/0 KeywordArgument:c/1 Call/3 ExpressionStatement/1 Module/2 | 1 4 plain | surplus
# def f(): pass / f(1, 2, c=3)
Pass/0 FunctionDef:f/1 Name:f/0 NumberLiteral:1/0 NumberLiteral:2/0 NumberLiteral:3/0 KeywordArgument:c/1 Call/4 ExpressionStatement/1 Module/2 | 1 4 plain | surplus
# def f(): pass / f(b=1, c=2, x=3)
Pass/0 FunctionDef:f/1 Name:f/0 NumberLiteral:1/0 KeywordArgument:b/1 NumberLiteral:2/0 KeywordArgument:c/1 NumberLiteral:3/0 KeywordArgument:x/1 Call/4 ExpressionStatement/1 Module/2 | 1 4 plain | unexpected 0
# def f(a): pass / f(1, 2, 3)
Parameter:a/0 Pass/0 FunctionDef:f/2 Name:f/0 NumberLiteral:1/0 NumberLiteral:2/0 NumberLiteral:3/0 Call/4 ExpressionStatement/1 Module/2 | 1 5 plain | surplus
# def f(a): pass / f(1, b=2)
Parameter:a/0 Pass/0 FunctionDef:f/2 Name:f/0 NumberLiteral:1/0 NumberLiteral:2/0 KeywordArgument:b/1 Call/3 ExpressionStatement/1 Module/2 | 1 5 plain | unexpected 0
# def f(a): pass / f(1, 2, b=3)
Parameter:a/0 Pass/0 FunctionDef:f/2 Name:f/0 NumberLiteral:1/0 NumberLiteral:2/0 NumberLiteral:3/0 KeywordArgument:b/1 Call/4 ExpressionStatement/1 Module/2 | 1 5 plain | surplus
# def f(a): pass / f(1, 2, d=3)
Parameter:a/0 Pass/0 FunctionDef:f/2 Name:f/0 NumberLiteral:1/0 NumberLiteral:2/0 NumberLiteral:3/0 KeywordArgument:d/1 Call/4 ExpressionStatement/1 Module/2 | 1 5 plain | surplus
# def f(a, b): pass / f(1, 2)
Parameter:a/0 Parameter:b/0 Pass/0 FunctionDef:f/3 Name:f/0 NumberLiteral:1/0 NumberLiteral:2/0 Call/3 ExpressionStatement/1 Module/2 | 1 6 plain | fits a0 a1 ;
# def f(a, b): pass / f(1, a=2)
Parameter:a/0 Parameter:b/0 Pass/0 FunctionDef:f/3 Name:f/0 NumberLiteral:1/0 NumberLiteral:2/0 KeywordArgument:a/1 Call/3 ExpressionStatement/1 Module/2 | 1 6 plain | twice 0
# def f(a, b): pass / f(b=2, a=1)
Parameter:a/0 Parameter:b/0 Pass/0 FunctionDef:f/3 Name:f/0 NumberLiteral:2/0 KeywordArgument:b/1 NumberLiteral:1/0 KeywordArgument:a/1 Call/3 ExpressionStatement/1 Module/2 | 1 6 plain | fits a1 a0 ; t1 t0
# def f(a, b): pass / f(1, x=2)
Parameter:a/0 Parameter:b/0 Pass/0 FunctionDef:f/3 Name:f/0 NumberLiteral:1/0 NumberLiteral:2/0 KeywordArgument:x/1 Call/3 ExpressionStatement/1 Module/2 | 1 6 plain | missing 1
# def f(a=1): pass / f(1)
NumberLiteral:1/0 Parameter:a/1 Pass/0 FunctionDef:f/2 Name:f/0 NumberLiteral:1/0 Call/2 ExpressionStatement/1 Module/2 | 1 6 plain | fits a0 ;
# def f(a=1): pass / f(b=1)
NumberLiteral:1/0 Parameter:a/1 Pass/0 FunctionDef:f/2 Name:f/0 NumberLiteral:1/0 KeywordArgument:b/1 Call/2 ExpressionStatement/1 Module/2 | 1 6 plain | unexpected 0
# def f(a=1): pass / f(a=1, b=2)
NumberLiteral:1/0 Parameter:a/1 Pass/0 FunctionDef:f/2 Name:f/0 NumberLiteral:1/0 KeywordArgument:a/1 NumberLiteral:2/0 KeywordArgument:b/1 Call/3 ExpressionStatement/1 Module/2 | 1 6 plain | unexpected 1
# def f(a=1): pass / f(x=1)
NumberLiteral:1/0 Parameter:a/1 Pass/0 FunctionDef:f/2 Name:f/0 NumberLiteral:1/0 KeywordArgument:x/1 Call/2 ExpressionStatement/1 Module/2 | 1 6 plain | unexpected 0
# def f(a, b=2): pass / f()
Parameter:a/0 NumberLiteral:2/0 Parameter:b/1 Pass/0 FunctionDef:f/3 Name:f/0 Call/1 ExpressionStatement/1 Module/2 | 1 7 plain | missing 0
# def f(a, b=2): pass / f(a=1)
Parameter:a/0 NumberLiteral:2/0 Parameter:b/1 Pass/0 FunctionDef:f/3 Name:f/0 NumberLiteral:1/0 KeywordArgument:a/1 Call/2 ExpressionStatement/1 Module/2 | 1 7 plain | fits a0 D ; t0
# def f(a, b=2): pass / f(1, c=3)
Parameter:a/0 NumberLiteral:2/0 Parameter:b/1 Pass/0 FunctionDef:f/3 Name:f/0 NumberLiteral:1/0 NumberLiteral:3/0 KeywordArgument:c/1 Call/3 ExpressionStatement/1 Module/2 | 1 7 plain | unexpected 0
# def f(a, b=2): pass / f(1, 2, c=3)
Parameter:a/0 NumberLiteral:2/0 Parameter:b/1 Pass/0 FunctionDef:f/3 Name:f/0 NumberLiteral:1/0 NumberLiteral:2/0 NumberLiteral:3/0 KeywordArgument:c/1 Call/4 ExpressionStatement/1 Module/2 | 1 7 plain | unexpected 0
# def f(a, b=2): pass / f(b=1, c=2, x=3)
Parameter:a/0 NumberLiteral:2/0 Parameter:b/1 Pass/0 FunctionDef:f/3 Name:f/0 NumberLiteral:1/0 KeywordArgument:b/1 NumberLiteral:2/0 KeywordArgument:c/1 NumberLiteral:3/0 KeywordArgument:x/1 Call/4 ExpressionStatement/1 Module/2 | 1 7 plain | missing 0
# def f(a=1, b=2): pass / f(1, 2, 3)
NumberLiteral:1/0 Parameter:a/1 NumberLiteral:2/0 Parameter:b/1 Pass/0 FunctionDef:f/3 Name:f/0 NumberLiteral:1/0 NumberLiteral:2/0 NumberLiteral:3/0 Call/4 ExpressionStatement/1 Module/2 | 1 8 plain | surplus
# def f(a=1, b=2): pass / f(1, b=2)
NumberLiteral:1/0 Parameter:a/1 NumberLiteral:2/0 Parameter:b/1 Pass/0 FunctionDef:f/3 Name:f/0 NumberLiteral:1/0 NumberLiteral:2/0 KeywordArgument:b/1 Call/3 ExpressionStatement/1 Module/2 | 1 8 plain | fits a0 a1 ; t1
# def f(a=1, b=2): pass / f(1, 2, b=3)
NumberLiteral:1/0 Parameter:a/1 NumberLiteral:2/0 Parameter:b/1 Pass/0 FunctionDef:f/3 Name:f/0 NumberLiteral:1/0 NumberLiteral:2/0 NumberLiteral:3/0 KeywordArgument:b/1 Call/4 ExpressionStatement/1 Module/2 | 1 8 plain | twice 1
# def f(a=1, b=2): pass / f(1, 2, d=3)
NumberLiteral:1/0 Parameter:a/1 NumberLiteral:2/0 Parameter:b/1 Pass/0 FunctionDef:f/3 Name:f/0 NumberLiteral:1/0 NumberLiteral:2/0 NumberLiteral:3/0 KeywordArgument:d/1 Call/4 ExpressionStatement/1 Module/2 | 1 8 plain | unexpected 0
# def f(a, b, c=3): pass / f(1, 2)
Parameter:a/0 Parameter:b/0 NumberLiteral:3/0 Parameter:c/1 Pass/0 FunctionDef:f/4 Name:f/0 NumberLiteral:1/0 NumberLiteral:2/0 Call/3 ExpressionStatement/1 Module/2 | 1 8 plain | fits a0 a1 D ;
# def f(a, b, c=3): pass / f(1, a=2)
Parameter:a/0 Parameter:b/0 NumberLiteral:3/0 Parameter:c/1 Pass/0 FunctionDef:f/4 Name:f/0 NumberLiteral:1/0 NumberLiteral:2/0 KeywordArgument:a/1 Call/3 ExpressionStatement/1 Module/2 | 1 8 plain | twice 0
# def f(a, b, c=3): pass / f(b=2, a=1)
Parameter:a/0 Parameter:b/0 NumberLiteral:3/0 Parameter:c/1 Pass/0 FunctionDef:f/4 Name:f/0 NumberLiteral:2/0 KeywordArgument:b/1 NumberLiteral:1/0 KeywordArgument:a/1 Call/3 ExpressionStatement/1 Module/2 | 1 8 plain | fits a1 a0 D ; t1 t0
# def f(a, b, c=3): pass / f(1, x=2)
Parameter:a/0 Parameter:b/0 NumberLiteral:3/0 Parameter:c/1 Pass/0 FunctionDef:f/4 Name:f/0 NumberLiteral:1/0 NumberLiteral:2/0 KeywordArgument:x/1 Call/3 ExpressionStatement/1 Module/2 | 1 8 plain | missing 1
# def f(*args): pass / f(1)
StarParameter:args/0 Pass/0 FunctionDef:f/2 Name:f/0 NumberLiteral:1/0 Call/2 ExpressionStatement/1 Module/2 | 1 5 plain | fits * ;
# def f(*args): pass / f(b=1)
StarParameter:args/0 Pass/0 FunctionDef:f/2 Name:f/0 NumberLiteral:1/0 KeywordArgument:b/1 Call/2 ExpressionStatement/1 Module/2 | 1 5 plain | unexpected 0
# def f(*args): pass / f(a=1, b=2)
StarParameter:args/0 Pass/0 FunctionDef:f/2 Name:f/0 NumberLiteral:1/0 KeywordArgument:a/1 NumberLiteral:2/0 KeywordArgument:b/1 Call/3 ExpressionStatement/1 Module/2 | 1 5 plain | unexpected 0
# def f(*args): pass / f(x=1)
StarParameter:args/0 Pass/0 FunctionDef:f/2 Name:f/0 NumberLiteral:1/0 KeywordArgument:x/1 Call/2 ExpressionStatement/1 Module/2 | 1 5 plain | unexpected 0
# def f(a, *args): pass / f()
Parameter:a/0 StarParameter:args/0 Pass/0 FunctionDef:f/3 Name:f/0 Call/1 ExpressionStatement/1 Module/2 | 1 6 plain | missing 0
# def f(a, *args): pass / f(a=1)
Parameter:a/0 StarParameter:args/0 Pass/0 FunctionDef:f/3 Name:f/0 NumberLiteral:1/0 KeywordArgument:a/1 Call/2 ExpressionStatement/1 Module/2 | 1 6 plain | fits a0 * ; t0
# def f(a, *args): pass / f(1, c=3)
Parameter:a/0 StarParameter:args/0 Pass/0 FunctionDef:f/3 Name:f/0 NumberLiteral:1/0 NumberLiteral:3/0 KeywordArgument:c/1 Call/3 ExpressionStatement/1 Module/2 | 1 6 plain | unexpected 0
# def f(a, *args): pass / f(1, 2, c=3)
Parameter:a/0 StarParameter:args/0 Pass/0 FunctionDef:f/3 Name:f/0 NumberLiteral:1/0 NumberLiteral:2/0 NumberLiteral:3/0 KeywordArgument:c/1 Call/4 ExpressionStatement/1 Module/2 | 1 6 plain | unexpected 0
# def f(a, *args): pass / f(b=1, c=2, x=3)
Parameter:a/0 StarParameter:args/0 Pass/0 FunctionDef:f/3 Name:f/0 NumberLiteral:1/0 KeywordArgument:b/1 NumberLiteral:2/0 KeywordArgument:c/1 NumberLiteral:3/0 KeywordArgument:x/1 Call/4 ExpressionStatement/1 Module/2 | 1 6 plain | missing 0
# def f(a, b=2, *args): pass / f(1, 2, 3)
Parameter:a/0 NumberLiteral:2/0 Parameter:b/1 StarParameter:args/0 Pass/0 FunctionDef:f/4 Name:f/0 NumberLiteral:1/0 NumberLiteral:2/0 NumberLiteral:3/0 Call/4 ExpressionStatement/1 Module/2 | 1 8 plain | fits a0 a1 * ;
# def f(a, b=2, *args): pass / f(1, b=2)
Parameter:a/0 NumberLiteral:2/0 Parameter:b/1 StarParameter:args/0 Pass/0 FunctionDef:f/4 Name:f/0 NumberLiteral:1/0 NumberLiteral:2/0 KeywordArgument:b/1 Call/3 ExpressionStatement/1 Module/2 | 1 8 plain | fits a0 a1 * ; t1
# def f(a, b=2, *args): pass / f(1, 2, b=3)
Parameter:a/0 NumberLiteral:2/0 Parameter:b/1 StarParameter:args/0 Pass/0 FunctionDef:f/4 Name:f/0 NumberLiteral:1/0 NumberLiteral:2/0 NumberLiteral:3/0 KeywordArgument:b/1 Call/4 ExpressionStatement/1 Module/2 | 1 8 plain | twice 1
# def f(a, b=2, *args): pass / f(1, 2, d=3)
Parameter:a/0 NumberLiteral:2/0 Parameter:b/1 StarParameter:args/0 Pass/0 FunctionDef:f/4 Name:f/0 NumberLiteral:1/0 NumberLiteral:2/0 NumberLiteral:3/0 KeywordArgument:d/1 Call/4 ExpressionStatement/1 Module/2 | 1 8 plain | unexpected 0
# def f(**options): pass / f(1, 2)
DoubleStarParameter:options/0 Pass/0 FunctionDef:f/2 Name:f/0 NumberLiteral:1/0 NumberLiteral:2/0 Call/3 ExpressionStatement/1 Module/2 | 1 5 plain | surplus
# def f(**options): pass / f(1, a=2)
DoubleStarParameter:options/0 Pass/0 FunctionDef:f/2 Name:f/0 NumberLiteral:1/0 NumberLiteral:2/0 KeywordArgument:a/1 Call/3 ExpressionStatement/1 Module/2 | 1 5 plain | surplus
# def f(**options): pass / f(b=2, a=1)
DoubleStarParameter:options/0 Pass/0 FunctionDef:f/2 Name:f/0 NumberLiteral:2/0 KeywordArgument:b/1 NumberLiteral:1/0 KeywordArgument:a/1 Call/3 ExpressionStatement/1 Module/2 | 1 5 plain | fits * ; * *
# def f(**options): pass / f(1, x=2)
DoubleStarParameter:options/0 Pass/0 FunctionDef:f/2 Name:f/0 NumberLiteral:1/0 NumberLiteral:2/0 KeywordArgument:x/1 Call/3 ExpressionStatement/1 Module/2 | 1 5 plain | surplus
# def f(a, **options): pass / f(1)
Parameter:a/0 DoubleStarParameter:options/0 Pass/0 FunctionDef:f/3 Name:f/0 NumberLiteral:1/0 Call/2 ExpressionStatement/1 Module/2 | 1 6 plain | fits a0 * ;
# def f(a, **options): pass / f(b=1)
Parameter:a/0 DoubleStarParameter:options/0 Pass/0 FunctionDef:f/3 Name:f/0 NumberLiteral:1/0 KeywordArgument:b/1 Call/2 ExpressionStatement/1 Module/2 | 1 6 plain | missing 0
# def f(a, **options): pass / f(a=1, b=2)
Parameter:a/0 DoubleStarParameter:options/0 Pass/0 FunctionDef:f/3 Name:f/0 NumberLiteral:1/0 KeywordArgument:a/1 NumberLiteral:2/0 KeywordArgument:b/1 Call/3 ExpressionStatement/1 Module/2 | 1 6 plain | fits a0 * ; t0 *
# def f(a, **options): pass / f(x=1)
Parameter:a/0 DoubleStarParameter:options/0 Pass/0 FunctionDef:f/3 Name:f/0 NumberLiteral:1/0 KeywordArgument:x/1 Call/2 ExpressionStatement/1 Module/2 | 1 6 plain | missing 0
# def f(a=1, **options): pass / f()
NumberLiteral:1/0 Parameter:a/1 DoubleStarParameter:options/0 Pass/0 FunctionDef:f/3 Name:f/0 Call/1 ExpressionStatement/1 Module/2 | 1 7 plain | fits D * ;
# def f(a=1, **options): pass / f(a=1)
NumberLiteral:1/0 Parameter:a/1 DoubleStarParameter:options/0 Pass/0 FunctionDef:f/3 Name:f/0 NumberLiteral:1/0 KeywordArgument:a/1 Call/2 ExpressionStatement/1 Module/2 | 1 7 plain | fits a0 * ; t0
# def f(a=1, **options): pass / f(1, c=3)
NumberLiteral:1/0 Parameter:a/1 DoubleStarParameter:options/0 Pass/0 FunctionDef:f/3 Name:f/0 NumberLiteral:1/0 NumberLiteral:3/0 KeywordArgument:c/1 Call/3 ExpressionStatement/1 Module/2 | 1 7 plain | fits a0 * ; *
# def f(a=1, **options): pass / f(1, 2, c=3)
NumberLiteral:1/0 Parameter:a/1 DoubleStarParameter:options/0 Pass/0 FunctionDef:f/3 Name:f/0 NumberLiteral:1/0 NumberLiteral:2/0 NumberLiteral:3/0 KeywordArgument:c/1 Call/4 ExpressionStatement/1 Module/2 | 1 7 plain | surplus
# def f(a=1, **options): pass / f(b=1, c=2, x=3)
NumberLiteral:1/0 Parameter:a/1 DoubleStarParameter:options/0 Pass/0 FunctionDef:f/3 Name:f/0 NumberLiteral:1/0 KeywordArgument:b/1 NumberLiteral:2/0 KeywordArgument:c/1 NumberLiteral:3/0 KeywordArgument:x/1 Call/4 ExpressionStatement/1 Module/2 | 1 7 plain | fits D * ; * * *
# def f(*args, **options): pass / f(1, 2, 3)
StarParameter:args/0 DoubleStarParameter:options/0 Pass/0 FunctionDef:f/3 Name:f/0 NumberLiteral:1/0 NumberLiteral:2/0 NumberLiteral:3/0 Call/4 ExpressionStatement/1 Module/2 | 1 6 plain | fits * * ;
# def f(*args, **options): pass / f(1, b=2)
StarParameter:args/0 DoubleStarParameter:options/0 Pass/0 FunctionDef:f/3 Name:f/0 NumberLiteral:1/0 NumberLiteral:2/0 KeywordArgument:b/1 Call/3 ExpressionStatement/1 Module/2 | 1 6 plain | fits * * ; *
# def f(*args, **options): pass / f(1, 2, b=3)
StarParameter:args/0 DoubleStarParameter:options/0 Pass/0 FunctionDef:f/3 Name:f/0 NumberLiteral:1/0 NumberLiteral:2/0 NumberLiteral:3/0 KeywordArgument:b/1 Call/4 ExpressionStatement/1 Module/2 | 1 6 plain | fits * * ; *
# def f(*args, **options): pass / f(1, 2, d=3)
StarParameter:args/0 DoubleStarParameter:options/0 Pass/0 FunctionDef:f/3 Name:f/0 NumberLiteral:1/0 NumberLiteral:2/0 NumberLiteral:3/0 KeywordArgument:d/1 Call/4 ExpressionStatement/1 Module/2 | 1 6 plain | fits * * ; *
# def f(a, *args, **options): pass / f(1, 2)
Parameter:a/0 StarParameter:args/0 DoubleStarParameter:options/0 Pass/0 FunctionDef:f/4 Name:f/0 NumberLiteral:1/0 NumberLiteral:2/0 Call/3 ExpressionStatement/1 Module/2 | 1 7 plain | fits a0 * * ;
# def f(a, *args, **options): pass / f(1, a=2)
Parameter:a/0 StarParameter:args/0 DoubleStarParameter:options/0 Pass/0 FunctionDef:f/4 Name:f/0 NumberLiteral:1/0 NumberLiteral:2/0 KeywordArgument:a/1 Call/3 ExpressionStatement/1 Module/2 | 1 7 plain | twice 0
# def f(a, *args, **options): pass / f(b=2, a=1)
Parameter:a/0 StarParameter:args/0 DoubleStarParameter:options/0 Pass/0 FunctionDef:f/4 Name:f/0 NumberLiteral:2/0 KeywordArgument:b/1 NumberLiteral:1/0 KeywordArgument:a/1 Call/3 ExpressionStatement/1 Module/2 | 1 7 plain | fits a1 * * ; * t0
# def f(a, *args, **options): pass / f(1, x=2)
Parameter:a/0 StarParameter:args/0 DoubleStarParameter:options/0 Pass/0 FunctionDef:f/4 Name:f/0 NumberLiteral:1/0 NumberLiteral:2/0 KeywordArgument:x/1 Call/3 ExpressionStatement/1 Module/2 | 1 7 plain | fits a0 * * ; *
# def f(*, a): pass / f(1)
KeywordOnlyMark/0 KeywordOnlyParameter:a/0 Pass/0 FunctionDef:f/3 Name:f/0 NumberLiteral:1/0 Call/2 ExpressionStatement/1 Module/2 | 1 6 plain | surplus
# def f(*, a): pass / f(b=1)
KeywordOnlyMark/0 KeywordOnlyParameter:a/0 Pass/0 FunctionDef:f/3 Name:f/0 NumberLiteral:1/0 KeywordArgument:b/1 Call/2 ExpressionStatement/1 Module/2 | 1 6 plain | missing 0
# def f(*, a): pass / f(a=1, b=2)
KeywordOnlyMark/0 KeywordOnlyParameter:a/0 Pass/0 FunctionDef:f/3 Name:f/0 NumberLiteral:1/0 KeywordArgument:a/1 NumberLiteral:2/0 KeywordArgument:b/1 Call/3 ExpressionStatement/1 Module/2 | 1 6 plain | unexpected 1
# def f(*, a): pass / f(x=1)
KeywordOnlyMark/0 KeywordOnlyParameter:a/0 Pass/0 FunctionDef:f/3 Name:f/0 NumberLiteral:1/0 KeywordArgument:x/1 Call/2 ExpressionStatement/1 Module/2 | 1 6 plain | missing 0
# def f(*, a=1): pass / f()
KeywordOnlyMark/0 NumberLiteral:1/0 KeywordOnlyParameter:a/1 Pass/0 FunctionDef:f/3 Name:f/0 Call/1 ExpressionStatement/1 Module/2 | 1 7 plain | fits D ;
# def f(*, a=1): pass / f(a=1)
KeywordOnlyMark/0 NumberLiteral:1/0 KeywordOnlyParameter:a/1 Pass/0 FunctionDef:f/3 Name:f/0 NumberLiteral:1/0 KeywordArgument:a/1 Call/2 ExpressionStatement/1 Module/2 | 1 7 plain | fits a0 ; t0
# def f(*, a=1): pass / f(1, c=3)
KeywordOnlyMark/0 NumberLiteral:1/0 KeywordOnlyParameter:a/1 Pass/0 FunctionDef:f/3 Name:f/0 NumberLiteral:1/0 NumberLiteral:3/0 KeywordArgument:c/1 Call/3 ExpressionStatement/1 Module/2 | 1 7 plain | surplus
# def f(*, a=1): pass / f(1, 2, c=3)
KeywordOnlyMark/0 NumberLiteral:1/0 KeywordOnlyParameter:a/1 Pass/0 FunctionDef:f/3 Name:f/0 NumberLiteral:1/0 NumberLiteral:2/0 NumberLiteral:3/0 KeywordArgument:c/1 Call/4 ExpressionStatement/1 Module/2 | 1 7 plain | surplus
# def f(*, a=1): pass / f(b=1, c=2, x=3)
KeywordOnlyMark/0 NumberLiteral:1/0 KeywordOnlyParameter:a/1 Pass/0 FunctionDef:f/3 Name:f/0 NumberLiteral:1/0 KeywordArgument:b/1 NumberLiteral:2/0 KeywordArgument:c/1 NumberLiteral:3/0 KeywordArgument:x/1 Call/4 ExpressionStatement/1 Module/2 | 1 7 plain | unexpected 0
# def f(a, *, b): pass / f(1, 2, 3)
Parameter:a/0 KeywordOnlyMark/0 KeywordOnlyParameter:b/0 Pass/0 FunctionDef:f/4 Name:f/0 NumberLiteral:1/0 NumberLiteral:2/0 NumberLiteral:3/0 Call/4 ExpressionStatement/1 Module/2 | 1 7 plain | surplus
# def f(a, *, b): pass / f(1, b=2)
Parameter:a/0 KeywordOnlyMark/0 KeywordOnlyParameter:b/0 Pass/0 FunctionDef:f/4 Name:f/0 NumberLiteral:1/0 NumberLiteral:2/0 KeywordArgument:b/1 Call/3 ExpressionStatement/1 Module/2 | 1 7 plain | fits a0 a1 ; t1
# def f(a, *, b): pass / f(1, 2, b=3)
Parameter:a/0 KeywordOnlyMark/0 KeywordOnlyParameter:b/0 Pass/0 FunctionDef:f/4 Name:f/0 NumberLiteral:1/0 NumberLiteral:2/0 NumberLiteral:3/0 KeywordArgument:b/1 Call/4 ExpressionStatement/1 Module/2 | 1 7 plain | surplus
# def f(a, *, b): pass / f(1, 2, d=3)
Parameter:a/0 KeywordOnlyMark/0 KeywordOnlyParameter:b/0 Pass/0 FunctionDef:f/4 Name:f/0 NumberLiteral:1/0 NumberLiteral:2/0 NumberLiteral:3/0 KeywordArgument:d/1 Call/4 ExpressionStatement/1 Module/2 | 1 7 plain | surplus
# def f(a, *, b=2): pass / f(1, 2)
Parameter:a/0 KeywordOnlyMark/0 NumberLiteral:2/0 KeywordOnlyParameter:b/1 Pass/0 FunctionDef:f/4 Name:f/0 NumberLiteral:1/0 NumberLiteral:2/0 Call/3 ExpressionStatement/1 Module/2 | 1 8 plain | surplus
# def f(a, *, b=2): pass / f(1, a=2)
Parameter:a/0 KeywordOnlyMark/0 NumberLiteral:2/0 KeywordOnlyParameter:b/1 Pass/0 FunctionDef:f/4 Name:f/0 NumberLiteral:1/0 NumberLiteral:2/0 KeywordArgument:a/1 Call/3 ExpressionStatement/1 Module/2 | 1 8 plain | twice 0
# def f(a, *, b=2): pass / f(b=2, a=1)
Parameter:a/0 KeywordOnlyMark/0 NumberLiteral:2/0 KeywordOnlyParameter:b/1 Pass/0 FunctionDef:f/4 Name:f/0 NumberLiteral:2/0 KeywordArgument:b/1 NumberLiteral:1/0 KeywordArgument:a/1 Call/3 ExpressionStatement/1 Module/2 | 1 8 plain | fits a1 a0 ; t1 t0
# def f(a, *, b=2): pass / f(1, x=2)
Parameter:a/0 KeywordOnlyMark/0 NumberLiteral:2/0 KeywordOnlyParameter:b/1 Pass/0 FunctionDef:f/4 Name:f/0 NumberLiteral:1/0 NumberLiteral:2/0 KeywordArgument:x/1 Call/3 ExpressionStatement/1 Module/2 | 1 8 plain | unexpected 0
# def f(a=1, *, b, c=3): pass / f(1)
NumberLiteral:1/0 Parameter:a/1 KeywordOnlyMark/0 KeywordOnlyParameter:b/0 NumberLiteral:3/0 KeywordOnlyParameter:c/1 Pass/0 FunctionDef:f/5 Name:f/0 NumberLiteral:1/0 Call/2 ExpressionStatement/1 Module/2 | 1 10 plain | missing 1
# def f(a=1, *, b, c=3): pass / f(b=1)
NumberLiteral:1/0 Parameter:a/1 KeywordOnlyMark/0 KeywordOnlyParameter:b/0 NumberLiteral:3/0 KeywordOnlyParameter:c/1 Pass/0 FunctionDef:f/5 Name:f/0 NumberLiteral:1/0 KeywordArgument:b/1 Call/2 ExpressionStatement/1 Module/2 | 1 10 plain | fits D a0 D ; t1
# def f(a=1, *, b, c=3): pass / f(a=1, b=2)
NumberLiteral:1/0 Parameter:a/1 KeywordOnlyMark/0 KeywordOnlyParameter:b/0 NumberLiteral:3/0 KeywordOnlyParameter:c/1 Pass/0 FunctionDef:f/5 Name:f/0 NumberLiteral:1/0 KeywordArgument:a/1 NumberLiteral:2/0 KeywordArgument:b/1 Call/3 ExpressionStatement/1 Module/2 | 1 10 plain | fits a0 a1 D ; t0 t1
# def f(a=1, *, b, c=3): pass / f(x=1)
NumberLiteral:1/0 Parameter:a/1 KeywordOnlyMark/0 KeywordOnlyParameter:b/0 NumberLiteral:3/0 KeywordOnlyParameter:c/1 Pass/0 FunctionDef:f/5 Name:f/0 NumberLiteral:1/0 KeywordArgument:x/1 Call/2 ExpressionStatement/1 Module/2 | 1 10 plain | missing 1
# def f(*args, a): pass / f()
StarParameter:args/0 KeywordOnlyParameter:a/0 Pass/0 FunctionDef:f/3 Name:f/0 Call/1 ExpressionStatement/1 Module/2 | 1 6 plain | missing 1
# def f(*args, a): pass / f(a=1)
StarParameter:args/0 KeywordOnlyParameter:a/0 Pass/0 FunctionDef:f/3 Name:f/0 NumberLiteral:1/0 KeywordArgument:a/1 Call/2 ExpressionStatement/1 Module/2 | 1 6 plain | fits * a0 ; t1
# def f(*args, a): pass / f(1, c=3)
StarParameter:args/0 KeywordOnlyParameter:a/0 Pass/0 FunctionDef:f/3 Name:f/0 NumberLiteral:1/0 NumberLiteral:3/0 KeywordArgument:c/1 Call/3 ExpressionStatement/1 Module/2 | 1 6 plain | missing 1
# def f(*args, a): pass / f(1, 2, c=3)
StarParameter:args/0 KeywordOnlyParameter:a/0 Pass/0 FunctionDef:f/3 Name:f/0 NumberLiteral:1/0 NumberLiteral:2/0 NumberLiteral:3/0 KeywordArgument:c/1 Call/4 ExpressionStatement/1 Module/2 | 1 6 plain | missing 1
# def f(*args, a): pass / f(b=1, c=2, x=3)
StarParameter:args/0 KeywordOnlyParameter:a/0 Pass/0 FunctionDef:f/3 Name:f/0 NumberLiteral:1/0 KeywordArgument:b/1 NumberLiteral:2/0 KeywordArgument:c/1 NumberLiteral:3/0 KeywordArgument:x/1 Call/4 ExpressionStatement/1 Module/2 | 1 6 plain | missing 1
# def f(*args, a=1): pass / f(1, 2, 3)
StarParameter:args/0 NumberLiteral:1/0 KeywordOnlyParameter:a/1 Pass/0 FunctionDef:f/3 Name:f/0 NumberLiteral:1/0 NumberLiteral:2/0 NumberLiteral:3/0 Call/4 ExpressionStatement/1 Module/2 | 1 7 plain | fits * D ;
# def f(*args, a=1): pass / f(1, b=2)
StarParameter:args/0 NumberLiteral:1/0 KeywordOnlyParameter:a/1 Pass/0 FunctionDef:f/3 Name:f/0 NumberLiteral:1/0 NumberLiteral:2/0 KeywordArgument:b/1 Call/3 ExpressionStatement/1 Module/2 | 1 7 plain | unexpected 0
# def f(*args, a=1): pass / f(1, 2, b=3)
StarParameter:args/0 NumberLiteral:1/0 KeywordOnlyParameter:a/1 Pass/0 FunctionDef:f/3 Name:f/0 NumberLiteral:1/0 NumberLiteral:2/0 NumberLiteral:3/0 KeywordArgument:b/1 Call/4 ExpressionStatement/1 Module/2 | 1 7 plain | unexpected 0
# def f(*args, a=1): pass / f(1, 2, d=3)
StarParameter:args/0 NumberLiteral:1/0 KeywordOnlyParameter:a/1 Pass/0 FunctionDef:f/3 Name:f/0 NumberLiteral:1/0 NumberLiteral:2/0 NumberLiteral:3/0 KeywordArgument:d/1 Call/4 ExpressionStatement/1 Module/2 | 1 7 plain | unexpected 0
# def f(a, *args, b=2, **options): pass / f(1, 2)
Parameter:a/0 StarParameter:args/0 NumberLiteral:2/0 KeywordOnlyParameter:b/1 DoubleStarParameter:options/0 Pass/0 FunctionDef:f/5 Name:f/0 NumberLiteral:1/0 NumberLiteral:2/0 Call/3 ExpressionStatement/1 Module/2 | 1 9 plain | fits a0 * D * ;
# def f(a, *args, b=2, **options): pass / f(1, a=2)
Parameter:a/0 StarParameter:args/0 NumberLiteral:2/0 KeywordOnlyParameter:b/1 DoubleStarParameter:options/0 Pass/0 FunctionDef:f/5 Name:f/0 NumberLiteral:1/0 NumberLiteral:2/0 KeywordArgument:a/1 Call/3 ExpressionStatement/1 Module/2 | 1 9 plain | twice 0
# def f(a, *args, b=2, **options): pass / f(b=2, a=1)
Parameter:a/0 StarParameter:args/0 NumberLiteral:2/0 KeywordOnlyParameter:b/1 DoubleStarParameter:options/0 Pass/0 FunctionDef:f/5 Name:f/0 NumberLiteral:2/0 KeywordArgument:b/1 NumberLiteral:1/0 KeywordArgument:a/1 Call/3 ExpressionStatement/1 Module/2 | 1 9 plain | fits a1 * a0 * ; t2 t0
# def f(a, *args, b=2, **options): pass / f(1, x=2)
Parameter:a/0 StarParameter:args/0 NumberLiteral:2/0 KeywordOnlyParameter:b/1 DoubleStarParameter:options/0 Pass/0 FunctionDef:f/5 Name:f/0 NumberLiteral:1/0 NumberLiteral:2/0 KeywordArgument:x/1 Call/3 ExpressionStatement/1 Module/2 | 1 9 plain | fits a0 * D * ; *
# def f(a, /): pass / f(1)
Parameter:a/0 PositionalOnlyMark/0 Pass/0 FunctionDef:f/3 Name:f/0 NumberLiteral:1/0 Call/2 ExpressionStatement/1 Module/2 | 1 6 plain | fits a0 ;
# def f(a, /): pass / f(b=1)
Parameter:a/0 PositionalOnlyMark/0 Pass/0 FunctionDef:f/3 Name:f/0 NumberLiteral:1/0 KeywordArgument:b/1 Call/2 ExpressionStatement/1 Module/2 | 1 6 plain | missing 0
# def f(a, /): pass / f(a=1, b=2)
Parameter:a/0 PositionalOnlyMark/0 Pass/0 FunctionDef:f/3 Name:f/0 NumberLiteral:1/0 KeywordArgument:a/1 NumberLiteral:2/0 KeywordArgument:b/1 Call/3 ExpressionStatement/1 Module/2 | 1 6 plain | hidden 0
# def f(a, /): pass / f(x=1)
Parameter:a/0 PositionalOnlyMark/0 Pass/0 FunctionDef:f/3 Name:f/0 NumberLiteral:1/0 KeywordArgument:x/1 Call/2 ExpressionStatement/1 Module/2 | 1 6 plain | missing 0
# def f(a=1, /): pass / f()
NumberLiteral:1/0 Parameter:a/1 PositionalOnlyMark/0 Pass/0 FunctionDef:f/3 Name:f/0 Call/1 ExpressionStatement/1 Module/2 | 1 7 plain | fits D ;
# def f(a=1, /): pass / f(a=1)
NumberLiteral:1/0 Parameter:a/1 PositionalOnlyMark/0 Pass/0 FunctionDef:f/3 Name:f/0 NumberLiteral:1/0 KeywordArgument:a/1 Call/2 ExpressionStatement/1 Module/2 | 1 7 plain | hidden 0
# def f(a=1, /): pass / f(1, c=3)
NumberLiteral:1/0 Parameter:a/1 PositionalOnlyMark/0 Pass/0 FunctionDef:f/3 Name:f/0 NumberLiteral:1/0 NumberLiteral:3/0 KeywordArgument:c/1 Call/3 ExpressionStatement/1 Module/2 | 1 7 plain | unexpected 0
# def f(a=1, /): pass / f(1, 2, c=3)
NumberLiteral:1/0 Parameter:a/1 PositionalOnlyMark/0 Pass/0 FunctionDef:f/3 Name:f/0 NumberLiteral:1/0 NumberLiteral:2/0 NumberLiteral:3/0 KeywordArgument:c/1 Call/4 ExpressionStatement/1 Module/2 | 1 7 plain | surplus
# def f(a=1, /): pass / f(b=1, c=2, x=3)
NumberLiteral:1/0 Parameter:a/1 PositionalOnlyMark/0 Pass/0 FunctionDef:f/3 Name:f/0 NumberLiteral:1/0 KeywordArgument:b/1 NumberLiteral:2/0 KeywordArgument:c/1 NumberLiteral:3/0 KeywordArgument:x/1 Call/4 ExpressionStatement/1 Module/2 | 1 7 plain | unexpected 0
# def f(a, /, b): pass / f(1, 2, 3)
Parameter:a/0 PositionalOnlyMark/0 Parameter:b/0 Pass/0 FunctionDef:f/4 Name:f/0 NumberLiteral:1/0 NumberLiteral:2/0 NumberLiteral:3/0 Call/4 ExpressionStatement/1 Module/2 | 1 7 plain | surplus
# def f(a, /, b): pass / f(1, b=2)
Parameter:a/0 PositionalOnlyMark/0 Parameter:b/0 Pass/0 FunctionDef:f/4 Name:f/0 NumberLiteral:1/0 NumberLiteral:2/0 KeywordArgument:b/1 Call/3 ExpressionStatement/1 Module/2 | 1 7 plain | fits a0 a1 ; t1
# def f(a, /, b): pass / f(1, 2, b=3)
Parameter:a/0 PositionalOnlyMark/0 Parameter:b/0 Pass/0 FunctionDef:f/4 Name:f/0 NumberLiteral:1/0 NumberLiteral:2/0 NumberLiteral:3/0 KeywordArgument:b/1 Call/4 ExpressionStatement/1 Module/2 | 1 7 plain | twice 1
# def f(a, /, b): pass / f(1, 2, d=3)
Parameter:a/0 PositionalOnlyMark/0 Parameter:b/0 Pass/0 FunctionDef:f/4 Name:f/0 NumberLiteral:1/0 NumberLiteral:2/0 NumberLiteral:3/0 KeywordArgument:d/1 Call/4 ExpressionStatement/1 Module/2 | 1 7 plain | unexpected 0
# def f(a, b=2, /): pass / f(1, 2)
Parameter:a/0 NumberLiteral:2/0 Parameter:b/1 PositionalOnlyMark/0 Pass/0 FunctionDef:f/4 Name:f/0 NumberLiteral:1/0 NumberLiteral:2/0 Call/3 ExpressionStatement/1 Module/2 | 1 8 plain | fits a0 a1 ;
# def f(a, b=2, /): pass / f(1, a=2)
Parameter:a/0 NumberLiteral:2/0 Parameter:b/1 PositionalOnlyMark/0 Pass/0 FunctionDef:f/4 Name:f/0 NumberLiteral:1/0 NumberLiteral:2/0 KeywordArgument:a/1 Call/3 ExpressionStatement/1 Module/2 | 1 8 plain | hidden 0
# def f(a, b=2, /): pass / f(b=2, a=1)
Parameter:a/0 NumberLiteral:2/0 Parameter:b/1 PositionalOnlyMark/0 Pass/0 FunctionDef:f/4 Name:f/0 NumberLiteral:2/0 KeywordArgument:b/1 NumberLiteral:1/0 KeywordArgument:a/1 Call/3 ExpressionStatement/1 Module/2 | 1 8 plain | hidden 1
# def f(a, b=2, /): pass / f(1, x=2)
Parameter:a/0 NumberLiteral:2/0 Parameter:b/1 PositionalOnlyMark/0 Pass/0 FunctionDef:f/4 Name:f/0 NumberLiteral:1/0 NumberLiteral:2/0 KeywordArgument:x/1 Call/3 ExpressionStatement/1 Module/2 | 1 8 plain | unexpected 0
# def f(a, /, b=2, *, c): pass / f(1)
Parameter:a/0 PositionalOnlyMark/0 NumberLiteral:2/0 Parameter:b/1 KeywordOnlyMark/0 KeywordOnlyParameter:c/0 Pass/0 FunctionDef:f/6 Name:f/0 NumberLiteral:1/0 Call/2 ExpressionStatement/1 Module/2 | 1 10 plain | missing 2
# def f(a, /, b=2, *, c): pass / f(b=1)
Parameter:a/0 PositionalOnlyMark/0 NumberLiteral:2/0 Parameter:b/1 KeywordOnlyMark/0 KeywordOnlyParameter:c/0 Pass/0 FunctionDef:f/6 Name:f/0 NumberLiteral:1/0 KeywordArgument:b/1 Call/2 ExpressionStatement/1 Module/2 | 1 10 plain | missing 0
# def f(a, /, b=2, *, c): pass / f(a=1, b=2)
Parameter:a/0 PositionalOnlyMark/0 NumberLiteral:2/0 Parameter:b/1 KeywordOnlyMark/0 KeywordOnlyParameter:c/0 Pass/0 FunctionDef:f/6 Name:f/0 NumberLiteral:1/0 KeywordArgument:a/1 NumberLiteral:2/0 KeywordArgument:b/1 Call/3 ExpressionStatement/1 Module/2 | 1 10 plain | hidden 0
# def f(a, /, b=2, *, c): pass / f(x=1)
Parameter:a/0 PositionalOnlyMark/0 NumberLiteral:2/0 Parameter:b/1 KeywordOnlyMark/0 KeywordOnlyParameter:c/0 Pass/0 FunctionDef:f/6 Name:f/0 NumberLiteral:1/0 KeywordArgument:x/1 Call/2 ExpressionStatement/1 Module/2 | 1 10 plain | missing 0
# def f(a, /, **options): pass / f()
Parameter:a/0 PositionalOnlyMark/0 DoubleStarParameter:options/0 Pass/0 FunctionDef:f/4 Name:f/0 Call/1 ExpressionStatement/1 Module/2 | 1 7 plain | missing 0
# def f(a, /, **options): pass / f(1, c=3)
Parameter:a/0 PositionalOnlyMark/0 DoubleStarParameter:options/0 Pass/0 FunctionDef:f/4 Name:f/0 NumberLiteral:1/0 NumberLiteral:3/0 KeywordArgument:c/1 Call/3 ExpressionStatement/1 Module/2 | 1 7 plain | fits a0 * ; *
# def f(a, /, **options): pass / f(1, 2, c=3)
Parameter:a/0 PositionalOnlyMark/0 DoubleStarParameter:options/0 Pass/0 FunctionDef:f/4 Name:f/0 NumberLiteral:1/0 NumberLiteral:2/0 NumberLiteral:3/0 KeywordArgument:c/1 Call/4 ExpressionStatement/1 Module/2 | 1 7 plain | surplus
# def f(a, /, **options): pass / f(b=1, c=2, x=3)
Parameter:a/0 PositionalOnlyMark/0 DoubleStarParameter:options/0 Pass/0 FunctionDef:f/4 Name:f/0 NumberLiteral:1/0 KeywordArgument:b/1 NumberLiteral:2/0 KeywordArgument:c/1 NumberLiteral:3/0 KeywordArgument:x/1 Call/4 ExpressionStatement/1 Module/2 | 1 7 plain | missing 0
# def f(a, /, *args, b, **options): pass / f(1, 2, 3)
Parameter:a/0 PositionalOnlyMark/0 StarParameter:args/0 KeywordOnlyParameter:b/0 DoubleStarParameter:options/0 Pass/0 FunctionDef:f/6 Name:f/0 NumberLiteral:1/0 NumberLiteral:2/0 NumberLiteral:3/0 Call/4 ExpressionStatement/1 Module/2 | 1 9 plain | missing 2
# def f(a, /, *args, b, **options): pass / f(1, b=2)
Parameter:a/0 PositionalOnlyMark/0 StarParameter:args/0 KeywordOnlyParameter:b/0 DoubleStarParameter:options/0 Pass/0 FunctionDef:f/6 Name:f/0 NumberLiteral:1/0 NumberLiteral:2/0 KeywordArgument:b/1 Call/3 ExpressionStatement/1 Module/2 | 1 9 plain | fits a0 * a1 * ; t2
# def f(a, /, *args, b, **options): pass / f(1, 2, b=3)
Parameter:a/0 PositionalOnlyMark/0 StarParameter:args/0 KeywordOnlyParameter:b/0 DoubleStarParameter:options/0 Pass/0 FunctionDef:f/6 Name:f/0 NumberLiteral:1/0 NumberLiteral:2/0 NumberLiteral:3/0 KeywordArgument:b/1 Call/4 ExpressionStatement/1 Module/2 | 1 9 plain | fits a0 * a2 * ; t2
# def f(a, /, *args, b, **options): pass / f(1, 2, d=3)
Parameter:a/0 PositionalOnlyMark/0 StarParameter:args/0 KeywordOnlyParameter:b/0 DoubleStarParameter:options/0 Pass/0 FunctionDef:f/6 Name:f/0 NumberLiteral:1/0 NumberLiteral:2/0 NumberLiteral:3/0 KeywordArgument:d/1 Call/4 ExpressionStatement/1 Module/2 | 1 9 plain | missing 2
# def f(a, b, /, c, *, d=4): pass / f(1, 2)
Parameter:a/0 Parameter:b/0 PositionalOnlyMark/0 Parameter:c/0 KeywordOnlyMark/0 NumberLiteral:4/0 KeywordOnlyParameter:d/1 Pass/0 FunctionDef:f/7 Name:f/0 NumberLiteral:1/0 NumberLiteral:2/0 Call/3 ExpressionStatement/1 Module/2 | 1 11 plain | missing 2
# def f(a, b, /, c, *, d=4): pass / f(1, a=2)
Parameter:a/0 Parameter:b/0 PositionalOnlyMark/0 Parameter:c/0 KeywordOnlyMark/0 NumberLiteral:4/0 KeywordOnlyParameter:d/1 Pass/0 FunctionDef:f/7 Name:f/0 NumberLiteral:1/0 NumberLiteral:2/0 KeywordArgument:a/1 Call/3 ExpressionStatement/1 Module/2 | 1 11 plain | missing 1
# def f(a, b, /, c, *, d=4): pass / f(b=2, a=1)
Parameter:a/0 Parameter:b/0 PositionalOnlyMark/0 Parameter:c/0 KeywordOnlyMark/0 NumberLiteral:4/0 KeywordOnlyParameter:d/1 Pass/0 FunctionDef:f/7 Name:f/0 NumberLiteral:2/0 KeywordArgument:b/1 NumberLiteral:1/0 KeywordArgument:a/1 Call/3 ExpressionStatement/1 Module/2 | 1 11 plain | hidden 1
# def f(a, b, /, c, *, d=4): pass / f(1, x=2)
Parameter:a/0 Parameter:b/0 PositionalOnlyMark/0 Parameter:c/0 KeywordOnlyMark/0 NumberLiteral:4/0 KeywordOnlyParameter:d/1 Pass/0 FunctionDef:f/7 Name:f/0 NumberLiteral:1/0 NumberLiteral:2/0 KeywordArgument:x/1 Call/3 ExpressionStatement/1 Module/2 | 1 11 plain | missing 1
# def f(self): pass / f(1)
Parameter:self/0 Pass/0 FunctionDef:f/2 Name:f/0 NumberLiteral:1/0 Call/2 ExpressionStatement/1 Module/2 | 1 5 plain | fits a0 ;
# def f(self): pass / f(b=1)
Parameter:self/0 Pass/0 FunctionDef:f/2 Name:f/0 NumberLiteral:1/0 KeywordArgument:b/1 Call/2 ExpressionStatement/1 Module/2 | 1 5 plain | missing 0
# def f(self): pass / f(a=1, b=2)
Parameter:self/0 Pass/0 FunctionDef:f/2 Name:f/0 NumberLiteral:1/0 KeywordArgument:a/1 NumberLiteral:2/0 KeywordArgument:b/1 Call/3 ExpressionStatement/1 Module/2 | 1 5 plain | missing 0
# def f(self): pass / f(x=1)
Parameter:self/0 Pass/0 FunctionDef:f/2 Name:f/0 NumberLiteral:1/0 KeywordArgument:x/1 Call/2 ExpressionStatement/1 Module/2 | 1 5 plain | missing 0
# def f(self, a): pass / f()
Parameter:self/0 Parameter:a/0 Pass/0 FunctionDef:f/3 Name:f/0 Call/1 ExpressionStatement/1 Module/2 | 1 6 plain | missing 0
# def f(self, a): pass / f(a=1)
Parameter:self/0 Parameter:a/0 Pass/0 FunctionDef:f/3 Name:f/0 NumberLiteral:1/0 KeywordArgument:a/1 Call/2 ExpressionStatement/1 Module/2 | 1 6 plain | missing 0
# def f(self, a): pass / f(1, c=3)
Parameter:self/0 Parameter:a/0 Pass/0 FunctionDef:f/3 Name:f/0 NumberLiteral:1/0 NumberLiteral:3/0 KeywordArgument:c/1 Call/3 ExpressionStatement/1 Module/2 | 1 6 plain | missing 1
# def f(self, a): pass / f(1, 2, c=3)
Parameter:self/0 Parameter:a/0 Pass/0 FunctionDef:f/3 Name:f/0 NumberLiteral:1/0 NumberLiteral:2/0 NumberLiteral:3/0 KeywordArgument:c/1 Call/4 ExpressionStatement/1 Module/2 | 1 6 plain | unexpected 0
# def f(self, a): pass / f(b=1, c=2, x=3)
Parameter:self/0 Parameter:a/0 Pass/0 FunctionDef:f/3 Name:f/0 NumberLiteral:1/0 KeywordArgument:b/1 NumberLiteral:2/0 KeywordArgument:c/1 NumberLiteral:3/0 KeywordArgument:x/1 Call/4 ExpressionStatement/1 Module/2 | 1 6 plain | missing 0
# def f(self, a=1, *args): pass / f(1, 2, 3)
Parameter:self/0 NumberLiteral:1/0 Parameter:a/1 StarParameter:args/0 Pass/0 FunctionDef:f/4 Name:f/0 NumberLiteral:1/0 NumberLiteral:2/0 NumberLiteral:3/0 Call/4 ExpressionStatement/1 Module/2 | 1 8 plain | fits a0 a1 * ;
# def f(self, a=1, *args): pass / f(1, b=2)
Parameter:self/0 NumberLiteral:1/0 Parameter:a/1 StarParameter:args/0 Pass/0 FunctionDef:f/4 Name:f/0 NumberLiteral:1/0 NumberLiteral:2/0 KeywordArgument:b/1 Call/3 ExpressionStatement/1 Module/2 | 1 8 plain | unexpected 0
# def f(self, a=1, *args): pass / f(1, 2, b=3)
Parameter:self/0 NumberLiteral:1/0 Parameter:a/1 StarParameter:args/0 Pass/0 FunctionDef:f/4 Name:f/0 NumberLiteral:1/0 NumberLiteral:2/0 NumberLiteral:3/0 KeywordArgument:b/1 Call/4 ExpressionStatement/1 Module/2 | 1 8 plain | unexpected 0
# def f(self, a=1, *args): pass / f(1, 2, d=3)
Parameter:self/0 NumberLiteral:1/0 Parameter:a/1 StarParameter:args/0 Pass/0 FunctionDef:f/4 Name:f/0 NumberLiteral:1/0 NumberLiteral:2/0 NumberLiteral:3/0 KeywordArgument:d/1 Call/4 ExpressionStatement/1 Module/2 | 1 8 plain | unexpected 0
# def f(): pass / f()
Pass/0 FunctionDef:f/1 Name:f/0 Call/1 ExpressionStatement/1 Module/2 | 1 4 received | surplus
# def f(): pass / f(1, 2, b=3)
Pass/0 FunctionDef:f/1 Name:f/0 NumberLiteral:1/0 NumberLiteral:2/0 NumberLiteral:3/0 KeywordArgument:b/1 Call/4 ExpressionStatement/1 Module/2 | 1 4 received | surplus
# def f(a): pass / f(b=1)
Parameter:a/0 Pass/0 FunctionDef:f/2 Name:f/0 NumberLiteral:1/0 KeywordArgument:b/1 Call/2 ExpressionStatement/1 Module/2 | 1 5 received | unexpected 0
# def f(a): pass / f(b=1, c=2, x=3)
Parameter:a/0 Pass/0 FunctionDef:f/2 Name:f/0 NumberLiteral:1/0 KeywordArgument:b/1 NumberLiteral:2/0 KeywordArgument:c/1 NumberLiteral:3/0 KeywordArgument:x/1 Call/4 ExpressionStatement/1 Module/2 | 1 5 received | unexpected 0
# def f(a, b): pass / f(b=2, a=1)
Parameter:a/0 Parameter:b/0 Pass/0 FunctionDef:f/3 Name:f/0 NumberLiteral:2/0 KeywordArgument:b/1 NumberLiteral:1/0 KeywordArgument:a/1 Call/3 ExpressionStatement/1 Module/2 | 1 6 received | twice 0
# def f(a=1): pass / f(a=1)
NumberLiteral:1/0 Parameter:a/1 Pass/0 FunctionDef:f/2 Name:f/0 NumberLiteral:1/0 KeywordArgument:a/1 Call/2 ExpressionStatement/1 Module/2 | 1 6 received | twice 0
# def f(a=1): pass / f(1, 2, d=3)
NumberLiteral:1/0 Parameter:a/1 Pass/0 FunctionDef:f/2 Name:f/0 NumberLiteral:1/0 NumberLiteral:2/0 NumberLiteral:3/0 KeywordArgument:d/1 Call/4 ExpressionStatement/1 Module/2 | 1 6 received | surplus
# def f(a, b=2): pass / f(a=1, b=2)
Parameter:a/0 NumberLiteral:2/0 Parameter:b/1 Pass/0 FunctionDef:f/3 Name:f/0 NumberLiteral:1/0 KeywordArgument:a/1 NumberLiteral:2/0 KeywordArgument:b/1 Call/3 ExpressionStatement/1 Module/2 | 1 7 received | twice 0
# def f(a=1, b=2): pass / f(1, 2, 3)
NumberLiteral:1/0 Parameter:a/1 NumberLiteral:2/0 Parameter:b/1 Pass/0 FunctionDef:f/3 Name:f/0 NumberLiteral:1/0 NumberLiteral:2/0 NumberLiteral:3/0 Call/4 ExpressionStatement/1 Module/2 | 1 8 received | surplus
# def f(a=1, b=2): pass / f(1, x=2)
NumberLiteral:1/0 Parameter:a/1 NumberLiteral:2/0 Parameter:b/1 Pass/0 FunctionDef:f/3 Name:f/0 NumberLiteral:1/0 NumberLiteral:2/0 KeywordArgument:x/1 Call/3 ExpressionStatement/1 Module/2 | 1 8 received | unexpected 0
# def f(a, b, c=3): pass / f(1, c=3)
Parameter:a/0 Parameter:b/0 NumberLiteral:3/0 Parameter:c/1 Pass/0 FunctionDef:f/4 Name:f/0 NumberLiteral:1/0 NumberLiteral:3/0 KeywordArgument:c/1 Call/3 ExpressionStatement/1 Module/2 | 1 8 received | fits R a0 a1 ; t2
# def f(*args): pass / f(1, 2)
StarParameter:args/0 Pass/0 FunctionDef:f/2 Name:f/0 NumberLiteral:1/0 NumberLiteral:2/0 Call/3 ExpressionStatement/1 Module/2 | 1 5 received | fits * ;
# def f(*args): pass / f(x=1)
StarParameter:args/0 Pass/0 FunctionDef:f/2 Name:f/0 NumberLiteral:1/0 KeywordArgument:x/1 Call/2 ExpressionStatement/1 Module/2 | 1 5 received | unexpected 0
# def f(a, *args): pass / f(1, b=2)
Parameter:a/0 StarParameter:args/0 Pass/0 FunctionDef:f/3 Name:f/0 NumberLiteral:1/0 NumberLiteral:2/0 KeywordArgument:b/1 Call/3 ExpressionStatement/1 Module/2 | 1 6 received | unexpected 0
# def f(a, b=2, *args): pass / f(1)
Parameter:a/0 NumberLiteral:2/0 Parameter:b/1 StarParameter:args/0 Pass/0 FunctionDef:f/4 Name:f/0 NumberLiteral:1/0 Call/2 ExpressionStatement/1 Module/2 | 1 8 received | fits R a0 * ;
# def f(a, b=2, *args): pass / f(1, 2, c=3)
Parameter:a/0 NumberLiteral:2/0 Parameter:b/1 StarParameter:args/0 Pass/0 FunctionDef:f/4 Name:f/0 NumberLiteral:1/0 NumberLiteral:2/0 NumberLiteral:3/0 KeywordArgument:c/1 Call/4 ExpressionStatement/1 Module/2 | 1 8 received | unexpected 0
# def f(**options): pass / f(1, a=2)
DoubleStarParameter:options/0 Pass/0 FunctionDef:f/2 Name:f/0 NumberLiteral:1/0 NumberLiteral:2/0 KeywordArgument:a/1 Call/3 ExpressionStatement/1 Module/2 | 1 5 received | surplus
# def f(a, **options): pass / f()
Parameter:a/0 DoubleStarParameter:options/0 Pass/0 FunctionDef:f/3 Name:f/0 Call/1 ExpressionStatement/1 Module/2 | 1 6 received | fits R * ;
# def f(a, **options): pass / f(1, 2, b=3)
Parameter:a/0 DoubleStarParameter:options/0 Pass/0 FunctionDef:f/3 Name:f/0 NumberLiteral:1/0 NumberLiteral:2/0 NumberLiteral:3/0 KeywordArgument:b/1 Call/4 ExpressionStatement/1 Module/2 | 1 6 received | surplus
# def f(a=1, **options): pass / f(b=1)
NumberLiteral:1/0 Parameter:a/1 DoubleStarParameter:options/0 Pass/0 FunctionDef:f/3 Name:f/0 NumberLiteral:1/0 KeywordArgument:b/1 Call/2 ExpressionStatement/1 Module/2 | 1 7 received | fits R * ; *
# def f(a=1, **options): pass / f(b=1, c=2, x=3)
NumberLiteral:1/0 Parameter:a/1 DoubleStarParameter:options/0 Pass/0 FunctionDef:f/3 Name:f/0 NumberLiteral:1/0 KeywordArgument:b/1 NumberLiteral:2/0 KeywordArgument:c/1 NumberLiteral:3/0 KeywordArgument:x/1 Call/4 ExpressionStatement/1 Module/2 | 1 7 received | fits R * ; * * *
# def f(*args, **options): pass / f(b=2, a=1)
StarParameter:args/0 DoubleStarParameter:options/0 Pass/0 FunctionDef:f/3 Name:f/0 NumberLiteral:2/0 KeywordArgument:b/1 NumberLiteral:1/0 KeywordArgument:a/1 Call/3 ExpressionStatement/1 Module/2 | 1 6 received | fits * * ; * *
# def f(a, *args, **options): pass / f(a=1)
Parameter:a/0 StarParameter:args/0 DoubleStarParameter:options/0 Pass/0 FunctionDef:f/4 Name:f/0 NumberLiteral:1/0 KeywordArgument:a/1 Call/2 ExpressionStatement/1 Module/2 | 1 7 received | twice 0
# def f(a, *args, **options): pass / f(1, 2, d=3)
Parameter:a/0 StarParameter:args/0 DoubleStarParameter:options/0 Pass/0 FunctionDef:f/4 Name:f/0 NumberLiteral:1/0 NumberLiteral:2/0 NumberLiteral:3/0 KeywordArgument:d/1 Call/4 ExpressionStatement/1 Module/2 | 1 7 received | fits R * * ; *
# def f(*, a): pass / f(a=1, b=2)
KeywordOnlyMark/0 KeywordOnlyParameter:a/0 Pass/0 FunctionDef:f/3 Name:f/0 NumberLiteral:1/0 KeywordArgument:a/1 NumberLiteral:2/0 KeywordArgument:b/1 Call/3 ExpressionStatement/1 Module/2 | 1 6 received | surplus
# def f(*, a=1): pass / f(1, 2, 3)
KeywordOnlyMark/0 NumberLiteral:1/0 KeywordOnlyParameter:a/1 Pass/0 FunctionDef:f/3 Name:f/0 NumberLiteral:1/0 NumberLiteral:2/0 NumberLiteral:3/0 Call/4 ExpressionStatement/1 Module/2 | 1 7 received | surplus
# def f(*, a=1): pass / f(1, x=2)
KeywordOnlyMark/0 NumberLiteral:1/0 KeywordOnlyParameter:a/1 Pass/0 FunctionDef:f/3 Name:f/0 NumberLiteral:1/0 NumberLiteral:2/0 KeywordArgument:x/1 Call/3 ExpressionStatement/1 Module/2 | 1 7 received | surplus
# def f(a, *, b): pass / f(1, c=3)
Parameter:a/0 KeywordOnlyMark/0 KeywordOnlyParameter:b/0 Pass/0 FunctionDef:f/4 Name:f/0 NumberLiteral:1/0 NumberLiteral:3/0 KeywordArgument:c/1 Call/3 ExpressionStatement/1 Module/2 | 1 7 received | surplus
# def f(a, *, b=2): pass / f(1, 2)
Parameter:a/0 KeywordOnlyMark/0 NumberLiteral:2/0 KeywordOnlyParameter:b/1 Pass/0 FunctionDef:f/4 Name:f/0 NumberLiteral:1/0 NumberLiteral:2/0 Call/3 ExpressionStatement/1 Module/2 | 1 8 received | surplus
# def f(a, *, b=2): pass / f(x=1)
Parameter:a/0 KeywordOnlyMark/0 NumberLiteral:2/0 KeywordOnlyParameter:b/1 Pass/0 FunctionDef:f/4 Name:f/0 NumberLiteral:1/0 KeywordArgument:x/1 Call/2 ExpressionStatement/1 Module/2 | 1 8 received | unexpected 0
# def f(a=1, *, b, c=3): pass / f(1, b=2)
NumberLiteral:1/0 Parameter:a/1 KeywordOnlyMark/0 KeywordOnlyParameter:b/0 NumberLiteral:3/0 KeywordOnlyParameter:c/1 Pass/0 FunctionDef:f/5 Name:f/0 NumberLiteral:1/0 NumberLiteral:2/0 KeywordArgument:b/1 Call/3 ExpressionStatement/1 Module/2 | 1 10 received | surplus
# def f(*args, a): pass / f(1)
StarParameter:args/0 KeywordOnlyParameter:a/0 Pass/0 FunctionDef:f/3 Name:f/0 NumberLiteral:1/0 Call/2 ExpressionStatement/1 Module/2 | 1 6 received | missing 1
# def f(*args, a): pass / f(1, 2, c=3)
StarParameter:args/0 KeywordOnlyParameter:a/0 Pass/0 FunctionDef:f/3 Name:f/0 NumberLiteral:1/0 NumberLiteral:2/0 NumberLiteral:3/0 KeywordArgument:c/1 Call/4 ExpressionStatement/1 Module/2 | 1 6 received | missing 1
# def f(*args, a=1): pass / f(1, a=2)
StarParameter:args/0 NumberLiteral:1/0 KeywordOnlyParameter:a/1 Pass/0 FunctionDef:f/3 Name:f/0 NumberLiteral:1/0 NumberLiteral:2/0 KeywordArgument:a/1 Call/3 ExpressionStatement/1 Module/2 | 1 7 received | fits * a1 ; t1
# def f(a, *args, b=2, **options): pass / f()
Parameter:a/0 StarParameter:args/0 NumberLiteral:2/0 KeywordOnlyParameter:b/1 DoubleStarParameter:options/0 Pass/0 FunctionDef:f/5 Name:f/0 Call/1 ExpressionStatement/1 Module/2 | 1 9 received | fits R * D * ;
# def f(a, *args, b=2, **options): pass / f(1, 2, b=3)
Parameter:a/0 StarParameter:args/0 NumberLiteral:2/0 KeywordOnlyParameter:b/1 DoubleStarParameter:options/0 Pass/0 FunctionDef:f/5 Name:f/0 NumberLiteral:1/0 NumberLiteral:2/0 NumberLiteral:3/0 KeywordArgument:b/1 Call/4 ExpressionStatement/1 Module/2 | 1 9 received | fits R * a2 * ; t2
# def f(a, /): pass / f(b=1)
Parameter:a/0 PositionalOnlyMark/0 Pass/0 FunctionDef:f/3 Name:f/0 NumberLiteral:1/0 KeywordArgument:b/1 Call/2 ExpressionStatement/1 Module/2 | 1 6 received | unexpected 0
# def f(a, /): pass / f(b=1, c=2, x=3)
Parameter:a/0 PositionalOnlyMark/0 Pass/0 FunctionDef:f/3 Name:f/0 NumberLiteral:1/0 KeywordArgument:b/1 NumberLiteral:2/0 KeywordArgument:c/1 NumberLiteral:3/0 KeywordArgument:x/1 Call/4 ExpressionStatement/1 Module/2 | 1 6 received | unexpected 0
# def f(a=1, /): pass / f(b=2, a=1)
NumberLiteral:1/0 Parameter:a/1 PositionalOnlyMark/0 Pass/0 FunctionDef:f/3 Name:f/0 NumberLiteral:2/0 KeywordArgument:b/1 NumberLiteral:1/0 KeywordArgument:a/1 Call/3 ExpressionStatement/1 Module/2 | 1 7 received | unexpected 0
# def f(a, /, b): pass / f(a=1)
Parameter:a/0 PositionalOnlyMark/0 Parameter:b/0 Pass/0 FunctionDef:f/4 Name:f/0 NumberLiteral:1/0 KeywordArgument:a/1 Call/2 ExpressionStatement/1 Module/2 | 1 7 received | missing 1
# def f(a, /, b): pass / f(1, 2, d=3)
Parameter:a/0 PositionalOnlyMark/0 Parameter:b/0 Pass/0 FunctionDef:f/4 Name:f/0 NumberLiteral:1/0 NumberLiteral:2/0 NumberLiteral:3/0 KeywordArgument:d/1 Call/4 ExpressionStatement/1 Module/2 | 1 7 received | surplus
# def f(a, b=2, /): pass / f(a=1, b=2)
Parameter:a/0 NumberLiteral:2/0 Parameter:b/1 PositionalOnlyMark/0 Pass/0 FunctionDef:f/4 Name:f/0 NumberLiteral:1/0 KeywordArgument:a/1 NumberLiteral:2/0 KeywordArgument:b/1 Call/3 ExpressionStatement/1 Module/2 | 1 8 received | hidden 1
# def f(a, /, b=2, *, c): pass / f(1, 2, 3)
Parameter:a/0 PositionalOnlyMark/0 NumberLiteral:2/0 Parameter:b/1 KeywordOnlyMark/0 KeywordOnlyParameter:c/0 Pass/0 FunctionDef:f/6 Name:f/0 NumberLiteral:1/0 NumberLiteral:2/0 NumberLiteral:3/0 Call/4 ExpressionStatement/1 Module/2 | 1 10 received | surplus
# def f(a, /, b=2, *, c): pass / f(1, x=2)
Parameter:a/0 PositionalOnlyMark/0 NumberLiteral:2/0 Parameter:b/1 KeywordOnlyMark/0 KeywordOnlyParameter:c/0 Pass/0 FunctionDef:f/6 Name:f/0 NumberLiteral:1/0 NumberLiteral:2/0 KeywordArgument:x/1 Call/3 ExpressionStatement/1 Module/2 | 1 10 received | missing 2
# def f(a, /, **options): pass / f(1, c=3)
Parameter:a/0 PositionalOnlyMark/0 DoubleStarParameter:options/0 Pass/0 FunctionDef:f/4 Name:f/0 NumberLiteral:1/0 NumberLiteral:3/0 KeywordArgument:c/1 Call/3 ExpressionStatement/1 Module/2 | 1 7 received | surplus
# def f(a, /, *args, b, **options): pass / f(1, 2)
Parameter:a/0 PositionalOnlyMark/0 StarParameter:args/0 KeywordOnlyParameter:b/0 DoubleStarParameter:options/0 Pass/0 FunctionDef:f/6 Name:f/0 NumberLiteral:1/0 NumberLiteral:2/0 Call/3 ExpressionStatement/1 Module/2 | 1 9 received | missing 2
# def f(a, /, *args, b, **options): pass / f(x=1)
Parameter:a/0 PositionalOnlyMark/0 StarParameter:args/0 KeywordOnlyParameter:b/0 DoubleStarParameter:options/0 Pass/0 FunctionDef:f/6 Name:f/0 NumberLiteral:1/0 KeywordArgument:x/1 Call/2 ExpressionStatement/1 Module/2 | 1 9 received | missing 2
# def f(a, b, /, c, *, d=4): pass / f(1, b=2)
Parameter:a/0 Parameter:b/0 PositionalOnlyMark/0 Parameter:c/0 KeywordOnlyMark/0 NumberLiteral:4/0 KeywordOnlyParameter:d/1 Pass/0 FunctionDef:f/7 Name:f/0 NumberLiteral:1/0 NumberLiteral:2/0 KeywordArgument:b/1 Call/3 ExpressionStatement/1 Module/2 | 1 11 received | missing 2
# def f(self): pass / f(1)
Parameter:self/0 Pass/0 FunctionDef:f/2 Name:f/0 NumberLiteral:1/0 Call/2 ExpressionStatement/1 Module/2 | 1 5 received | surplus
# def f(self): pass / f(1, 2, c=3)
Parameter:self/0 Pass/0 FunctionDef:f/2 Name:f/0 NumberLiteral:1/0 NumberLiteral:2/0 NumberLiteral:3/0 KeywordArgument:c/1 Call/4 ExpressionStatement/1 Module/2 | 1 5 received | surplus
# def f(self, a): pass / f(1, a=2)
Parameter:self/0 Parameter:a/0 Pass/0 FunctionDef:f/3 Name:f/0 NumberLiteral:1/0 NumberLiteral:2/0 KeywordArgument:a/1 Call/3 ExpressionStatement/1 Module/2 | 1 6 received | twice 1
# def f(self, a=1, *args): pass / f()
Parameter:self/0 NumberLiteral:1/0 Parameter:a/1 StarParameter:args/0 Pass/0 FunctionDef:f/4 Name:f/0 Call/1 ExpressionStatement/1 Module/2 | 1 8 received | fits R D * ;
# def f(self, a=1, *args): pass / f(1, 2, b=3)
Parameter:self/0 NumberLiteral:1/0 Parameter:a/1 StarParameter:args/0 Pass/0 FunctionDef:f/4 Name:f/0 NumberLiteral:1/0 NumberLiteral:2/0 NumberLiteral:3/0 KeywordArgument:b/1 Call/4 ExpressionStatement/1 Module/2 | 1 8 received | unexpected 0
# g = lambda a, b=2: 1 / g(1)
NameTarget:g/0 Parameter:a/0 NumberLiteral:2/0 Parameter:b/1 NumberLiteral:1/0 Lambda/3 Assign/2 Name:g/0 NumberLiteral:1/0 Call/2 ExpressionStatement/1 Module/2 | 3 9 plain | fits a0 D ;
# g = lambda *args: 1 / g(1, 2)
NameTarget:g/0 StarParameter:args/0 NumberLiteral:1/0 Lambda/2 Assign/2 Name:g/0 NumberLiteral:1/0 NumberLiteral:2/0 Call/3 ExpressionStatement/1 Module/2 | 3 7 plain | fits * ;
# g = lambda a, /, *, b: 1 / g(1, b=2)
NameTarget:g/0 Parameter:a/0 PositionalOnlyMark/0 KeywordOnlyMark/0 KeywordOnlyParameter:b/0 NumberLiteral:1/0 Lambda/5 Assign/2 Name:g/0 NumberLiteral:1/0 NumberLiteral:2/0 KeywordArgument:b/1 Call/3 ExpressionStatement/1 Module/2 | 3 10 plain | fits a0 a1 ; t1
# g = lambda **options: 1 / g(x=1)
NameTarget:g/0 DoubleStarParameter:options/0 NumberLiteral:1/0 Lambda/2 Assign/2 Name:g/0 NumberLiteral:1/0 KeywordArgument:x/1 Call/2 ExpressionStatement/1 Module/2 | 3 7 plain | fits * ; *
# class C: /     def f(__x): pass / C.f(__x=1)
Parameter:__x/0 Pass/0 FunctionDef:f/2 ClassDef:C/1 Name:C/0 Attribute:f/1 NumberLiteral:1/0 KeywordArgument:__x/1 Call/2 ExpressionStatement/1 Module/2 | 2 6 plain | missing 0
# class C: /     def f(__x): pass / C.f(_C__x=1)
Parameter:__x/0 Pass/0 FunctionDef:f/2 ClassDef:C/1 Name:C/0 Attribute:f/1 NumberLiteral:1/0 KeywordArgument:_C__x/1 Call/2 ExpressionStatement/1 Module/2 | 2 6 plain | fits a0 ; t0
# class C: /     def f(__x): pass / C.f(1)
Parameter:__x/0 Pass/0 FunctionDef:f/2 ClassDef:C/1 Name:C/0 Attribute:f/1 NumberLiteral:1/0 Call/2 ExpressionStatement/1 Module/2 | 2 6 plain | fits a0 ;
# class C: /     def f(self, *, __x=1): pass / C().f(_C__x=2)
Parameter:self/0 KeywordOnlyMark/0 NumberLiteral:1/0 KeywordOnlyParameter:__x/1 Pass/0 FunctionDef:f/4 ClassDef:C/1 Name:C/0 Call/1 Attribute:f/1 NumberLiteral:2/0 KeywordArgument:_C__x/1 Call/2 ExpressionStatement/1 Module/2 | 2 9 received | fits R a0 ; t1
# class C: /     def f(self, *, __x=1): pass / C().f(__x=2)
Parameter:self/0 KeywordOnlyMark/0 NumberLiteral:1/0 KeywordOnlyParameter:__x/1 Pass/0 FunctionDef:f/4 ClassDef:C/1 Name:C/0 Call/1 Attribute:f/1 NumberLiteral:2/0 KeywordArgument:__x/1 Call/2 ExpressionStatement/1 Module/2 | 2 9 received | unexpected 0
# class C: /     def f(self, __x__): pass / C().f(__x__=2)
Parameter:self/0 Parameter:__x__/0 Pass/0 FunctionDef:f/3 ClassDef:C/1 Name:C/0 Call/1 Attribute:f/1 NumberLiteral:2/0 KeywordArgument:__x__/1 Call/2 ExpressionStatement/1 Module/2 | 2 7 received | fits R a0 ; t1
# class __C: /     def f(__x): pass / __C.f(_C__x=1)
Parameter:__x/0 Pass/0 FunctionDef:f/2 ClassDef:__C/1 Name:__C/0 Attribute:f/1 NumberLiteral:1/0 KeywordArgument:_C__x/1 Call/2 ExpressionStatement/1 Module/2 | 2 6 plain | fits a0 ; t0
# class _C: /     def f(__x, **options): pass / _C.f(1, __x=2)
Parameter:__x/0 DoubleStarParameter:options/0 Pass/0 FunctionDef:f/3 ClassDef:_C/1 Name:_C/0 Attribute:f/1 NumberLiteral:1/0 NumberLiteral:2/0 KeywordArgument:__x/1 Call/3 ExpressionStatement/1 Module/2 | 2 7 plain | fits a0 * ; *
# class __: /     def f(__x): pass / __.f(__x=1)
Parameter:__x/0 Pass/0 FunctionDef:f/2 ClassDef:__/1 Name:__/0 Attribute:f/1 NumberLiteral:1/0 KeywordArgument:__x/1 Call/2 ExpressionStatement/1 Module/2 | 2 6 plain | fits a0 ; t0
# def f(a): pass / f(*[])
Parameter:a/0 Pass/0 FunctionDef:f/2 Name:f/0 List/0 StarArgument/1 Call/2 ExpressionStatement/1 Module/2 | 1 5 plain | starred
# def f(a): pass / f(**{})
Parameter:a/0 Pass/0 FunctionDef:f/2 Name:f/0 Dict/0 DoubleStarArgument/1 Call/2 ExpressionStatement/1 Module/2 | 1 5 plain | starred
# def f(a): pass / f(1, *[], b=2)
Parameter:a/0 Pass/0 FunctionDef:f/2 Name:f/0 NumberLiteral:1/0 List/0 StarArgument/1 NumberLiteral:2/0 KeywordArgument:b/1 Call/4 ExpressionStatement/1 Module/2 | 1 5 plain | starred
# class C: /     def f(__x): pass /     f(__x=1)
Parameter:__x/0 Pass/0 FunctionDef:f/2 Name:f/0 NumberLiteral:1/0 KeywordArgument:__x/1 Call/2 ExpressionStatement/1 ClassDef:C/2 Module/1 | 2 6 plain | starred
# class C: /     def f(a): pass /     f(1, *[], a=2)
Parameter:a/0 Pass/0 FunctionDef:f/2 Name:f/0 NumberLiteral:1/0 List/0 StarArgument/1 NumberLiteral:2/0 KeywordArgument:a/1 Call/4 ExpressionStatement/1 ClassDef:C/2 Module/1 | 2 6 plain | starred
# class C: /     def f(a): /         f(1, __x=2)
Parameter:a/0 Name:f/0 NumberLiteral:1/0 NumberLiteral:2/0 KeywordArgument:__x/1 Call/3 ExpressionStatement/1 FunctionDef:f/2 ClassDef:C/1 Module/1 | 2 5 plain | starred
# class __: /     def f(a): pass /     f(__x=1)
Parameter:a/0 Pass/0 FunctionDef:f/2 Name:f/0 NumberLiteral:1/0 KeywordArgument:__x/1 Call/2 ExpressionStatement/1 ClassDef:__/2 Module/1 | 2 6 plain | starred
";
