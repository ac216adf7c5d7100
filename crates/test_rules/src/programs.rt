// Small programs, each with its tree, kids before their parents, where each read leads, and the names of each scope.
// Written by tools/scope_rows.py: expected values are those of Python's `symtable`.

pub const PROGRAMS: &str = "\
# class C:
#     a = 1
#     def m(self):
#         return a
NameTarget:a/0 NumberLiteral:1/0 Assign/2 Parameter:self/0 Name:a/0 Return/1 FunctionDef:m/2 ClassDef:C/2 Module/1 | 8=Nowhere | 0=C 1=a,m 5=self
# def f(y):
#     [(last := x) for x in y]
#     return last
Parameter:y/0 Name:x/0 NamedExpression:last/1 NameTarget:x/0 Name:y/0 ComprehensionFor/2 ListComprehension/2 ExpressionStatement/1 Name:last/0 Return/1 FunctionDef:f/3 Module/1 | 6=Local4 9=Local1 11=Local1 | 0=f 1=last,y 4=x
# def f():
#     global x
#     def g():
#         global y
#         y = x
#     x = 1
#     return y
DeclaredName:x/0 Global/1 DeclaredName:y/0 Global/1 NameTarget:y/0 Name:x/0 Assign/2 FunctionDef:g/2 NameTarget:x/0 NumberLiteral:1/0 Assign/2 Name:y/0 Return/1 FunctionDef:f/4 Module/1 | 9=Global 14=Global | 0=f,x,y 1=g 4=
# x = 1
# def f():
#     global x
#     x = 2
#     def g():
#         return x
NameTarget:x/0 NumberLiteral:1/0 Assign/2 DeclaredName:x/0 Global/1 NameTarget:x/0 NumberLiteral:2/0 Assign/2 Name:x/0 Return/1 FunctionDef:g/1 FunctionDef:f/3 Module/2 | 12=Global | 0=f,x 4=g 10=
# a = 1
# def f(b=a, a=2):
#     return a, b
NameTarget:a/0 NumberLiteral:1/0 Assign/2 Name:a/0 Parameter:b/1 NumberLiteral:2/0 Parameter:a/1 Name:a/0 Name:b/0 Tuple/2 Return/1 FunctionDef:f/3 Module/2 | 6=Global 11=Local4 12=Local4 | 0=a,f 4=a,b
# class C:
#     __x = 1
#     def m(self):
#         return self.__y, __x
NameTarget:__x/0 NumberLiteral:1/0 Assign/2 Parameter:self/0 Name:self/0 Attribute:__y/1 Name:__x/0 Tuple/2 Return/1 FunctionDef:m/2 ClassDef:C/2 Module/1 | 10=Local5 11=Nowhere | 0=C 1=_C__x,m 5=self
# def f(x):
#     return [x for x in x]
Parameter:x/0 Name:x/0 NameTarget:x/0 Name:x/0 ComprehensionFor/2 ListComprehension/2 Return/1 FunctionDef:f/2 Module/1 | 5=Local4 8=Local1 | 0=f 1=x 4=x
# x = y
NameTarget:x/0 Name:y/0 Assign/2 Module/1 | 3=Nowhere | 0=x
# print(x)
Name:print/0 Name:x/0 Call/2 ExpressionStatement/1 Module/1 | 3=Builtin 4=Nowhere | 0=
# x: int
# y = x
NameTarget:x/0 Name:int/0 Annotation/1 AnnAssign/2 NameTarget:y/0 Name:x/0 Assign/2 Module/2 | 4=Builtin 7=Global | 0=x,y
# def f():
#     x: int
#     return x
NameTarget:x/0 Name:int/0 Annotation/1 AnnAssign/2 Name:x/0 Return/1 FunctionDef:f/2 Module/1 | 5=Builtin 7=Local1 | 0=f 1=x
# def f():
#     x: int = 1
#     return x
NameTarget:x/0 Name:int/0 Annotation/1 NumberLiteral:1/0 AnnAssign/3 Name:x/0 Return/1 FunctionDef:f/2 Module/1 | 5=Builtin 8=Local1 | 0=f 1=x
# import os
# os
Alias:os/0 Import/1 Name:os/0 ExpressionStatement/1 Module/2 | 4=Global | 0=os
# import os.path
# os, path
Alias:os.path/0 Import/1 Name:os/0 Name:path/0 Tuple/2 ExpressionStatement/1 Module/2 | 5=Global 6=Nowhere | 0=os
# import os.path as p
# p, os, path
AsName:p/0 Alias:os.path/1 Import/1 Name:p/0 Name:os/0 Name:path/0 Tuple/3 ExpressionStatement/1 Module/2 | 6=Global 7=Nowhere 8=Nowhere | 0=p
# from m import a, b as c
# a, b, c
Alias:a/0 AsName:c/0 Alias:b/1 ImportFrom:m/2 Name:a/0 Name:b/0 Name:c/0 Tuple/3 ExpressionStatement/1 Module/2 | 7=Global 8=Nowhere 9=Global | 0=a,c
# from m import *
# a
ImportWildcard/0 ImportFrom:m/1 Name:a/0 ExpressionStatement/1 Module/2 | 4=Nowhere | 0=
# def f(a, /, b, *c, d, **e):
#     return a, b, c, d, e
Parameter:a/0 PositionalOnlyMark/0 Parameter:b/0 StarParameter:c/0 KeywordOnlyParameter:d/0 DoubleStarParameter:e/0 Name:a/0 Name:b/0 Name:c/0 Name:d/0 Name:e/0 Tuple/5 Return/1 FunctionDef:f/7 Module/1 | 10=Local1 11=Local1 12=Local1 13=Local1 14=Local1 | 0=f 1=a,b,c,d,e
# def f(a, *, b=1):
#     return a, b
Parameter:a/0 KeywordOnlyMark/0 NumberLiteral:1/0 KeywordOnlyParameter:b/1 Name:a/0 Name:b/0 Tuple/2 Return/1 FunctionDef:f/4 Module/1 | 8=Local1 9=Local1 | 0=f 1=a,b
# f = lambda a, b=a: (a, b, c)
NameTarget:f/0 Parameter:a/0 Name:a/0 Parameter:b/1 Name:a/0 Name:b/0 Name:c/0 Tuple/3 Lambda/3 Assign/2 Module/1 | 6=Nowhere 8=Local3 9=Local3 10=Nowhere | 0=f 3=a,b
# lambda *a, **b: a or b
StarParameter:a/0 DoubleStarParameter:b/0 Name:a/0 Name:b/0 BoolOr/2 Lambda/3 ExpressionStatement/1 Module/1 | 6=Local2 7=Local2 | 0= 2=a,b
# def f():
#     def g():
#         return x
#     x = 1
Name:x/0 Return/1 FunctionDef:g/1 NameTarget:x/0 NumberLiteral:1/0 Assign/2 FunctionDef:f/2 Module/1 | 4=Free1 | 0=f 1=g,x 2=
# def f():
#     x = 1
#     def g():
#         nonlocal x
#         x = 2
#         return x
#     return x
NameTarget:x/0 NumberLiteral:1/0 Assign/2 DeclaredName:x/0 Nonlocal/1 NameTarget:x/0 NumberLiteral:2/0 Assign/2 Name:x/0 Return/1 FunctionDef:g/3 Name:x/0 Return/1 FunctionDef:f/3 Module/1 | 12=Free1 14=Local1 | 0=f 1=g,x 5=
# def f():
#     x = 1
#     def g():
#         def h():
#             nonlocal x
#             x = 3
#         return x
NameTarget:x/0 NumberLiteral:1/0 Assign/2 DeclaredName:x/0 Nonlocal/1 NameTarget:x/0 NumberLiteral:3/0 Assign/2 FunctionDef:h/2 Name:x/0 Return/1 FunctionDef:g/2 FunctionDef:f/2 Module/1 | 13=Free1 | 0=f 1=g,x 5=h 6=
# def f():
#     x = 1
#     class C:
#         nonlocal x
#         x = 2
#         def m(self):
#             return x
NameTarget:x/0 NumberLiteral:1/0 Assign/2 DeclaredName:x/0 Nonlocal/1 NameTarget:x/0 NumberLiteral:2/0 Assign/2 Parameter:self/0 Name:x/0 Return/1 FunctionDef:m/2 ClassDef:C/3 FunctionDef:f/2 Module/1 | 14=Free1 | 0=f 1=C,x 5=m 11=self
# def f():
#     x = 1
#     class C:
#         x = x
#         y = x
NameTarget:x/0 NumberLiteral:1/0 Assign/2 NameTarget:x/0 Name:x/0 Assign/2 NameTarget:y/0 Name:x/0 Assign/2 ClassDef:C/2 FunctionDef:f/2 Module/1 | 8=Local5 11=Local5 | 0=f 1=C,x 5=x,y
# x = 1
# class C:
#     x = x
#     y = [x for _ in x]
NameTarget:x/0 NumberLiteral:1/0 Assign/2 NameTarget:x/0 Name:x/0 Assign/2 NameTarget:y/0 Name:x/0 NameTarget:_/0 Name:x/0 ComprehensionFor/2 ListComprehension/2 Assign/2 ClassDef:C/2 Module/2 | 7=Local4 11=Global 14=Local4 | 0=C,x 4=x,y 10=_
# class C:
#     x = 1
#     y = [x for _ in x]
NameTarget:x/0 NumberLiteral:1/0 Assign/2 NameTarget:y/0 Name:x/0 NameTarget:_/0 Name:x/0 ComprehensionFor/2 ListComprehension/2 Assign/2 ClassDef:C/2 Module/1 | 8=Nowhere 11=Local1 | 0=C 1=x,y 7=_
# class C:
#     a = [b for b in c if b]
#     d = a, b
NameTarget:a/0 Name:b/0 NameTarget:b/0 Name:c/0 Name:b/0 ComprehensionFor/3 ListComprehension/2 Assign/2 NameTarget:d/0 Name:a/0 Name:b/0 Tuple/2 Assign/2 ClassDef:C/2 Module/1 | 5=Local4 8=Nowhere 9=Local4 13=Local1 14=Nowhere | 0=C 1=a,d 4=b
# x = [y for y in z]
# y
NameTarget:x/0 Name:y/0 NameTarget:y/0 Name:z/0 ComprehensionFor/2 ListComprehension/2 Assign/2 Name:y/0 ExpressionStatement/1 Module/2 | 4=Local3 7=Nowhere 9=Nowhere | 0=x 3=y
# x = {y: z for y, z in w}
NameTarget:x/0 Name:y/0 Name:z/0 DictItem/2 NameTarget:y/0 NameTarget:z/0 TupleTarget/2 Name:w/0 ComprehensionFor/2 DictComprehension/2 Assign/2 Module/1 | 5=Local3 6=Local3 11=Nowhere | 0=x 3=y,z
# x = {y for y in z if y if z}
NameTarget:x/0 Name:y/0 NameTarget:y/0 Name:z/0 Name:y/0 Name:z/0 ComprehensionFor/4 SetComprehension/2 Assign/2 Module/1 | 4=Local3 7=Nowhere 8=Local3 9=Nowhere | 0=x 3=y
# x = (y for y in z for z in y)
NameTarget:x/0 Name:y/0 NameTarget:y/0 Name:z/0 ComprehensionFor/2 NameTarget:z/0 Name:y/0 ComprehensionFor/2 GeneratorExpression/3 Assign/2 Module/1 | 4=Local3 7=Nowhere 10=Local3 | 0=x 3=y,z
# def f(a):
#     return [b for b in a for c in b for d in c]
Parameter:a/0 Name:b/0 NameTarget:b/0 Name:a/0 ComprehensionFor/2 NameTarget:c/0 Name:b/0 ComprehensionFor/2 NameTarget:d/0 Name:c/0 ComprehensionFor/2 ListComprehension/4 Return/1 FunctionDef:f/2 Module/1 | 5=Local4 8=Local1 11=Local4 14=Local4 | 0=f 1=a 4=b,c,d
# def f(a):
#     return [[a for b in a] for c in a]
Parameter:a/0 Name:a/0 NameTarget:b/0 Name:a/0 ComprehensionFor/2 ListComprehension/2 NameTarget:c/0 Name:a/0 ComprehensionFor/2 ListComprehension/2 Return/1 FunctionDef:f/2 Module/1 | 6=Local1 9=Local1 12=Local1 | 0=f 1=a 4=c 5=b
# def f(a):
#     return [lambda: a for b in a]
Parameter:a/0 Name:a/0 Lambda/1 NameTarget:b/0 Name:a/0 ComprehensionFor/2 ListComprehension/2 Return/1 FunctionDef:f/2 Module/1 | 6=Free1 9=Local1 | 0=f 1=a 4=b 5=
# def f(a):
#     return (lambda: [a for b in a])
Parameter:a/0 Name:a/0 NameTarget:b/0 Name:a/0 ComprehensionFor/2 ListComprehension/2 Lambda/1 Return/1 FunctionDef:f/2 Module/1 | 6=Free1 9=Free1 | 0=f 1=a 4= 5=b
# def f(a):
#     return [b for b in [a for a in a]]
Parameter:a/0 Name:b/0 NameTarget:b/0 Name:a/0 NameTarget:a/0 Name:a/0 ComprehensionFor/2 ListComprehension/2 ComprehensionFor/2 ListComprehension/2 Return/1 FunctionDef:f/2 Module/1 | 5=Local4 9=Local8 12=Local1 | 0=f 1=a 4=b 8=a
# def f(a):
#     [[(x := c) for c in b] for b in a]
#     return x
Parameter:a/0 Name:c/0 NamedExpression:x/1 NameTarget:c/0 Name:b/0 ComprehensionFor/2 ListComprehension/2 NameTarget:b/0 Name:a/0 ComprehensionFor/2 ListComprehension/2 ExpressionStatement/1 Name:x/0 Return/1 FunctionDef:f/3 Module/1 | 7=Local5 10=Local4 13=Local1 15=Local1 | 0=f 1=a,x 4=b 5=c
# [(x := y) for y in z]
# x
Name:y/0 NamedExpression:x/1 NameTarget:y/0 Name:z/0 ComprehensionFor/2 ListComprehension/2 ExpressionStatement/1 Name:x/0 ExpressionStatement/1 Module/2 | 4=Local2 7=Nowhere 9=Global | 0=x 2=y
# def f(a):
#     if (n := len(a)) > 1:
#         return n
Parameter:a/0 Name:len/0 Name:a/0 Call/2 NamedExpression:n/1 Greater/0 NumberLiteral:1/0 Comparison/3 Name:n/0 Return/1 If/2 FunctionDef:f/2 Module/1 | 7=Builtin 8=Local1 12=Local1 | 0=f 1=a,n
# def f():
#     for i in range(3):
#         j = i
#     else:
#         k = j
#     return i, k
NameTarget:i/0 Name:range/0 NumberLiteral:3/0 Call/2 NameTarget:j/0 Name:i/0 Assign/2 NameTarget:k/0 Name:j/0 Assign/2 Else/1 For/4 Name:i/0 Name:k/0 Tuple/2 Return/1 FunctionDef:f/2 Module/1 | 5=Builtin 9=Local1 13=Local1 16=Local1 17=Local1 | 0=f 1=i,j,k
# def f(a):
#     with a as b, b as (c, d):
#         return c, d
Parameter:a/0 Name:a/0 NameTarget:b/0 WithItem/2 Name:b/0 NameTarget:c/0 NameTarget:d/0 TupleTarget/2 WithItem/2 Name:c/0 Name:d/0 Tuple/2 Return/1 With/3 FunctionDef:f/2 Module/1 | 5=Local1 8=Local1 14=Local1 15=Local1 | 0=f 1=a,b,c,d
# def f():
#     try:
#         g()
#     except E as e:
#         return e
#     finally:
#         e
Name:g/0 Call/1 ExpressionStatement/1 Name:E/0 AsName:e/0 Name:e/0 Return/1 ExceptHandler/3 Name:e/0 ExpressionStatement/1 Finally/1 Try/3 FunctionDef:f/1 Module/1 | 5=Nowhere 7=Nowhere 10=Local1 13=Local1 | 0=f 1=e
# def f():
#     try:
#         pass
#     except* E as e:
#         e
Pass/0 Name:E/0 AsName:e/0 Name:e/0 ExpressionStatement/1 ExceptStarHandler/3 Try/2 FunctionDef:f/1 Module/1 | 5=Nowhere 8=Local1 | 0=f 1=e
# def f():
#     x = 1
#     del x
#     return x
NameTarget:x/0 NumberLiteral:1/0 Assign/2 NameTarget:x/0 Delete/1 Name:x/0 Return/1 FunctionDef:f/3 Module/1 | 8=Local1 | 0=f 1=x
# def f():
#     del x
NameTarget:x/0 Delete/1 FunctionDef:f/1 Module/1 |  | 0=f 1=x
# x += 1
NameTarget:x/0 Add/0 NumberLiteral:1/0 AugAssign/3 Module/1 |  | 0=x
# def f():
#     x += 1
#     return x
NameTarget:x/0 Add/0 NumberLiteral:1/0 AugAssign/3 Name:x/0 Return/1 FunctionDef:f/2 Module/1 | 7=Local1 | 0=f 1=x
# def f():
#     a.b = 1
#     a.c += b
#     del a.d
Name:a/0 AttributeTarget:b/1 NumberLiteral:1/0 Assign/2 Name:a/0 AttributeTarget:c/1 Add/0 Name:b/0 AugAssign/3 Name:a/0 AttributeTarget:d/1 Delete/1 FunctionDef:f/3 Module/1 | 4=Nowhere 8=Nowhere 10=Nowhere 13=Nowhere | 0=f 1=
# def f():
#     (a, [b, *c]) = d
#     return a, b, c
NameTarget:a/0 NameTarget:b/0 NameTarget:c/0 StarredTarget/1 ListTarget/2 TupleTarget/2 Name:d/0 Assign/2 Name:a/0 Name:b/0 Name:c/0 Tuple/3 Return/1 FunctionDef:f/2 Module/1 | 9=Nowhere 12=Local1 13=Local1 14=Local1 | 0=f 1=a,b,c
# def f():
#     a[b] = c
Name:a/0 Name:b/0 SubscriptTarget/2 Name:c/0 Assign/2 FunctionDef:f/1 Module/1 | 4=Nowhere 5=Nowhere 6=Nowhere | 0=f 1=
# def f(x):
#     match x:
#         case [a, *b]:
#             return a, b
#         case {'k': c, **d}:
#             return c, d
#         case P(e, f=g) as h:
#             return e, f, g, h
#         case i:
#             return i
Parameter:x/0 Name:x/0 MatchCapture:a/0 MatchStar:b/0 MatchSequence/2 Name:a/0 Name:b/0 Tuple/2 Return/1 Case/2 StringLiteral:'k'/0 MatchCapture:c/0 MatchItem/2 MatchRest:d/0 MatchMapping/2 Name:c/0 Name:d/0 Tuple/2 Return/1 Case/2 Name:P/0 MatchCapture:e/0 MatchCapture:g/0 MatchKeyword:f/1 MatchClass/3 MatchAs:h/1 Name:e/0 Name:f/0 Name:g/0 Name:h/0 Tuple/4 Return/1 Case/2 MatchCapture:i/0 Name:i/0 Return/1 Case/2 Match/5 FunctionDef:f/2 Module/1 | 4=Local1 11=Local1 12=Local1 21=Local1 22=Local1 26=Nowhere 32=Local1 33=Global 34=Local1 35=Local1 39=Local1 | 0=f 1=a,b,c,d,e,g,h,i,x
# match x:
#     case Q.r | None:
#         r
#     case (1 | 2) as y if y:
#         y
#     case _:
#         _
Name:x/0 Name:Q/0 Attribute:r/1 MatchValue/1 NoneLiteral/0 MatchValue/1 MatchOr/2 Name:r/0 ExpressionStatement/1 Case/2 NumberLiteral:1/0 MatchValue/1 NumberLiteral:2/0 MatchValue/1 MatchOr/2 MatchAs:y/1 Name:y/0 Name:y/0 ExpressionStatement/1 Case/3 MatchWildcard/0 Name:_/0 ExpressionStatement/1 Case/2 Match/4 Module/1 | 2=Nowhere 7=Nowhere 11=Nowhere 19=Global 21=Global 25=Nowhere | 0=y
# @d
# def f(a: b = c) -> e:
#     return a, b, c, e
Name:d/0 Decorator/1 Name:b/0 Annotation/1 Name:c/0 Parameter:a/2 Name:e/0 Annotation/1 Name:a/0 Name:b/0 Name:c/0 Name:e/0 Tuple/4 Return/1 FunctionDef:f/4 Module/1 | 3=Nowhere 6=Nowhere 7=Nowhere 9=Nowhere 12=Local1 13=Nowhere 14=Nowhere 15=Nowhere | 0=f 1=a
# @d(x)
# class C(B, k=m):
#     x = 1
#     B
Name:d/0 Name:x/0 Call/2 Decorator/1 Name:B/0 Name:m/0 KeywordArgument:k/1 NameTarget:x/0 NumberLiteral:1/0 Assign/2 Name:B/0 ExpressionStatement/1 ClassDef:C/5 Module/1 | 4=Nowhere 5=Nowhere 6=Nowhere 8=Nowhere 13=Nowhere | 0=C 1=x
# class C:
#     def f(self, a=b, *c: d) -> e:
#         return a
#     b = 1
Parameter:self/0 Name:b/0 Parameter:a/1 Name:d/0 Annotation/1 StarParameter:c/1 Name:e/0 Annotation/1 Name:a/0 Return/1 FunctionDef:f/5 NameTarget:b/0 NumberLiteral:1/0 Assign/2 ClassDef:C/2 Module/1 | 5=Local1 8=Nowhere 10=Nowhere 12=Local2 | 0=C 1=b,f 2=a,c,self
# class C:
#     x = 1
#     @x
#     def f(self):
#         return x
NameTarget:x/0 NumberLiteral:1/0 Assign/2 Name:x/0 Decorator/1 Parameter:self/0 Name:x/0 Return/1 FunctionDef:f/3 ClassDef:C/2 Module/1 | 7=Local1 10=Nowhere | 0=C 1=f,x 5=self
# class C:
#     class D:
#         a = 1
#         def m(self):
#             return C, D, a
#     a = D
NameTarget:a/0 NumberLiteral:1/0 Assign/2 Parameter:self/0 Name:C/0 Name:D/0 Name:a/0 Tuple/3 Return/1 FunctionDef:m/2 ClassDef:D/2 NameTarget:a/0 Name:D/0 Assign/2 ClassDef:C/2 Module/1 | 10=Global 11=Nowhere 12=Nowhere 15=Local1 | 0=C 1=D,a 2=a,m 6=self
# def f():
#     class C:
#         pass
#     return C
Pass/0 ClassDef:C/1 Name:C/0 Return/1 FunctionDef:f/2 Module/1 | 5=Local1 | 0=f 1=C 2=
# class C:
#     def m(self):
#         return __class__
Parameter:self/0 Name:__class__/0 Return/1 FunctionDef:m/2 ClassDef:C/1 Module/1 | 5=Builtin | 0=C 1=m 2=self
# def f():
#     return __name__, __x__, ____
Name:__name__/0 Name:__x__/0 Name:____/0 Tuple/3 Return/1 FunctionDef:f/1 Module/1 | 4=Builtin 5=Builtin 6=Nowhere | 0=f 1=
# class _C:
#     __a = 1
#     b = __a
#     def __m(self, __p):
#         return __p
NameTarget:__a/0 NumberLiteral:1/0 Assign/2 NameTarget:b/0 Name:__a/0 Assign/2 Parameter:self/0 Parameter:__p/0 Name:__p/0 Return/1 FunctionDef:__m/3 ClassDef:_C/3 Module/1 | 7=Local1 12=Local8 | 0=_C 1=_C__a,_C__m,b 8=_C__p,self
# class __:
#     __a = 1
#     b = __a
NameTarget:__a/0 NumberLiteral:1/0 Assign/2 NameTarget:b/0 Name:__a/0 Assign/2 ClassDef:__/2 Module/1 | 7=Local1 | 0=__ 1=__a,b
# class A:
#     class _:
#         __x = 1
#         y = __x
#     __x
NameTarget:__x/0 NumberLiteral:1/0 Assign/2 NameTarget:y/0 Name:__x/0 Assign/2 ClassDef:_/2 Name:__x/0 ExpressionStatement/1 ClassDef:A/2 Module/1 | 8=Local2 10=Nowhere | 0=A 1=_ 2=__x,y
# class A:
#     class B:
#         __x = 1
#         y = __x
#     z = __x
NameTarget:__x/0 NumberLiteral:1/0 Assign/2 NameTarget:y/0 Name:__x/0 Assign/2 ClassDef:B/2 NameTarget:z/0 Name:__x/0 Assign/2 ClassDef:A/2 Module/1 | 8=Local2 11=Nowhere | 0=A 1=B,z 2=_B__x,y
# class A:
#     def f(self):
#         __x = 1
#         def g():
#             return __x
#         return __x
Parameter:self/0 NameTarget:__x/0 NumberLiteral:1/0 Assign/2 Name:__x/0 Return/1 FunctionDef:g/1 Name:__x/0 Return/1 FunctionDef:f/4 ClassDef:A/1 Module/1 | 9=Free2 11=Local2 | 0=A 1=f 2=_A__x,g,self 7=
# class A:
#     import __b
#     __b
Alias:__b/0 Import/1 Name:__b/0 ExpressionStatement/1 ClassDef:A/2 Module/1 | 5=Local1 | 0=A 1=_A__b
# class A:
#     from m import b as __b
#     __b
AsName:__b/0 Alias:b/1 ImportFrom:m/1 Name:__b/0 ExpressionStatement/1 ClassDef:A/2 Module/1 | 6=Local1 | 0=A 1=_A__b
# class A:
#     global __x
#     __x = 1
# def f():
#     return _A__x
DeclaredName:__x/0 Global/1 NameTarget:__x/0 NumberLiteral:1/0 Assign/2 ClassDef:A/2 Name:_A__x/0 Return/1 FunctionDef:f/1 Module/2 | 9=Global | 0=A,_A__x,f 1= 7=
# class A:
#     __x__ = 1
#     y = __x__
NameTarget:__x__/0 NumberLiteral:1/0 Assign/2 NameTarget:y/0 Name:__x__/0 Assign/2 ClassDef:A/2 Module/1 | 7=Local1 | 0=A 1=__x__,y
# class A:
#     f(__k=1)
Name:f/0 NumberLiteral:1/0 KeywordArgument:__k/1 Call/2 ExpressionStatement/1 ClassDef:A/1 Module/1 | 4=Nowhere | 0=A 1=
# def f():
#     global g
#     def g():
#         pass
# g
DeclaredName:g/0 Global/1 Pass/0 FunctionDef:g/1 FunctionDef:f/2 Name:g/0 ExpressionStatement/1 Module/2 | 7=Global | 0=f,g 1= 4=
# def f():
#     global C
#     class C:
#         pass
#     return C
DeclaredName:C/0 Global/1 Pass/0 ClassDef:C/1 Name:C/0 Return/1 FunctionDef:f/3 Module/1 | 7=Global | 0=C,f 1= 4=
# def f():
#     global os
#     import os
#     return os
DeclaredName:os/0 Global/1 Alias:os/0 Import/1 Name:os/0 Return/1 FunctionDef:f/3 Module/1 | 7=Global | 0=f,os 1=
# def f():
#     global x
#     return x
DeclaredName:x/0 Global/1 Name:x/0 Return/1 FunctionDef:f/2 Module/1 | 5=Nowhere | 0=f 1=
# def f():
#     global x
#     for x in y:
#         pass
# x
DeclaredName:x/0 Global/1 NameTarget:x/0 Name:y/0 Pass/0 For/3 FunctionDef:f/2 Name:x/0 ExpressionStatement/1 Module/2 | 6=Nowhere 9=Global | 0=f,x 1=
# def f():
#     global print
#     return print
DeclaredName:print/0 Global/1 Name:print/0 Return/1 FunctionDef:f/2 Module/1 | 5=Builtin | 0=f 1=
# class C:
#     global x
#     x = 1
#     y = x
# x
DeclaredName:x/0 Global/1 NameTarget:x/0 NumberLiteral:1/0 Assign/2 NameTarget:y/0 Name:x/0 Assign/2 ClassDef:C/3 Name:x/0 ExpressionStatement/1 Module/2 | 9=Global 11=Global | 0=C,x 1=y
# x = 1
# def f():
#     x = 2
#     class C:
#         global x
#         y = x
#         def m(self):
#             return x
NameTarget:x/0 NumberLiteral:1/0 Assign/2 NameTarget:x/0 NumberLiteral:2/0 Assign/2 DeclaredName:x/0 Global/1 NameTarget:y/0 Name:x/0 Assign/2 Parameter:self/0 Name:x/0 Return/1 FunctionDef:m/2 ClassDef:C/3 FunctionDef:f/2 Module/2 | 13=Global 17=Free4 | 0=f,x 4=C,x 8=m,y 14=self
# def f():
#     x = 1
#     def g():
#         global x
#         def h():
#             return x
#         return x
#     return x
NameTarget:x/0 NumberLiteral:1/0 Assign/2 DeclaredName:x/0 Global/1 Name:x/0 Return/1 FunctionDef:h/1 Name:x/0 Return/1 FunctionDef:g/3 Name:x/0 Return/1 FunctionDef:f/3 Module/1 | 10=Nowhere 12=Nowhere 14=Local1 | 0=f 1=g,x 5=h 8=
# def f():
#     x = 1
#     def g():
#         global x
#         return [x for _ in x]
NameTarget:x/0 NumberLiteral:1/0 Assign/2 DeclaredName:x/0 Global/1 Name:x/0 NameTarget:_/0 Name:x/0 ComprehensionFor/2 ListComprehension/2 Return/1 FunctionDef:g/2 FunctionDef:f/2 Module/1 | 10=Nowhere 13=Nowhere | 0=f 1=g,x 5= 9=_
# def f():
#     x = 1
#     class C:
#         def m(self):
#             return [x for _ in x]
NameTarget:x/0 NumberLiteral:1/0 Assign/2 Parameter:self/0 Name:x/0 NameTarget:_/0 Name:x/0 ComprehensionFor/2 ListComprehension/2 Return/1 FunctionDef:m/2 ClassDef:C/1 FunctionDef:f/2 Module/1 | 10=Free1 13=Free1 | 0=f 1=C,x 5=m 6=self 9=_
# def f():
#     x = 1
#     return [y for y in x if x]
NameTarget:x/0 NumberLiteral:1/0 Assign/2 Name:y/0 NameTarget:y/0 Name:x/0 Name:x/0 ComprehensionFor/3 ListComprehension/2 Return/1 FunctionDef:f/2 Module/1 | 7=Local6 10=Local1 11=Local1 | 0=f 1=x 6=y
# def f(x):
#     class C:
#         y = [x for z in x]
#         w = lambda: y
Parameter:x/0 NameTarget:y/0 Name:x/0 NameTarget:z/0 Name:x/0 ComprehensionFor/2 ListComprehension/2 Assign/2 NameTarget:w/0 Name:y/0 Lambda/1 Assign/2 ClassDef:C/2 FunctionDef:f/2 Module/1 | 7=Free1 10=Free1 14=Nowhere | 0=f 1=C,x 3=w,y 6=z 13=
# async def f(a):
#     async for x in a:
#         await x
#     async with a as b:
#         return [c async for c in b]
Parameter:a/0 NameTarget:x/0 Name:a/0 Name:x/0 Await/1 ExpressionStatement/1 AsyncFor/3 Name:a/0 NameTarget:b/0 WithItem/2 Name:c/0 NameTarget:c/0 Name:b/0 AsyncComprehensionFor/2 ListComprehension/2 Return/1 AsyncWith/2 AsyncFunctionDef:f/3 Module/1 | 5=Local1 8=Local1 11=Local1 15=Local14 18=Local1 | 0=f 1=a,b,x 14=c
# def f(a):
#     yield a
#     b = yield
#     yield from b
Parameter:a/0 Name:a/0 Yield/1 ExpressionStatement/1 NameTarget:b/0 Yield/0 Assign/2 Name:b/0 YieldFrom/1 ExpressionStatement/1 FunctionDef:f/4 Module/1 | 5=Local1 11=Local1 | 0=f 1=a,b
# x = f'{a!r:>{b}}'
NameTarget:x/0 Name:a/0 Name:b/0 Field/1 Field/2 FString:f''/1 Assign/2 Module/1 | 5=Nowhere 7=Nowhere | 0=x
# def f():
#     x = 1
#     return lambda y=x: (x, y)
NameTarget:x/0 NumberLiteral:1/0 Assign/2 Name:x/0 Parameter:y/1 Name:x/0 Name:y/0 Tuple/2 Lambda/2 Return/1 FunctionDef:f/2 Module/1 | 8=Local1 10=Free1 11=Local6 | 0=f 1=x 6=y
# def f():
#     return [lambda: i for i in range(3)]
Name:i/0 Lambda/1 NameTarget:i/0 Name:range/0 NumberLiteral:3/0 Call/2 ComprehensionFor/2 ListComprehension/2 Return/1 FunctionDef:f/1 Module/1 | 5=Free3 9=Builtin | 0=f 1= 3=i 4=
# def f():
#     x = [i for i in i]
#     i = 1
NameTarget:x/0 Name:i/0 NameTarget:i/0 Name:i/0 ComprehensionFor/2 ListComprehension/2 Assign/2 NameTarget:i/0 NumberLiteral:1/0 Assign/2 FunctionDef:f/2 Module/1 | 5=Local4 8=Local1 | 0=f 1=i,x 4=i
# def f():
#     if a:
#         import b
#     else:
#         b = None
#     return b
Name:a/0 Alias:b/0 Import/1 NameTarget:b/0 NoneLiteral/0 Assign/2 Else/1 If/3 Name:b/0 Return/1 FunctionDef:f/2 Module/1 | 3=Nowhere 11=Local1 | 0=f 1=b
# if a:
#     b = 1
# else:
#     c = b
Name:a/0 NameTarget:b/0 NumberLiteral:1/0 Assign/2 NameTarget:c/0 Name:b/0 Assign/2 Else/1 If/3 Module/1 | 2=Nowhere 9=Global | 0=b,c
# while a:
#     a = b
# else:
#     break_ = a
Name:a/0 NameTarget:a/0 Name:b/0 Assign/2 NameTarget:break_/0 Name:a/0 Assign/2 Else/1 While/3 Module/1 | 2=Global 5=Nowhere 9=Global | 0=a,break_
# try:
#     import json
# except ImportError:
#     json = None
# json
Alias:json/0 Import/1 Name:ImportError/0 NameTarget:json/0 NoneLiteral/0 Assign/2 ExceptHandler/2 Try/2 Name:json/0 ExpressionStatement/1 Module/2 | 5=Builtin 10=Global | 0=json
# for a.b in c:
#     a
Name:a/0 AttributeTarget:b/1 Name:c/0 Name:a/0 ExpressionStatement/1 For/3 Module/1 | 3=Nowhere 4=Nowhere 6=Nowhere | 0=
# for a[i] in c:
#     i
Name:a/0 Name:i/0 SubscriptTarget/2 Name:c/0 Name:i/0 ExpressionStatement/1 For/3 Module/1 | 3=Nowhere 4=Nowhere 5=Nowhere 7=Nowhere | 0=
# with open(x) as y.z:
#     y
Name:open/0 Name:x/0 Call/2 Name:y/0 AttributeTarget:z/1 WithItem/2 Name:y/0 ExpressionStatement/1 With/2 Module/1 | 4=Builtin 5=Nowhere 7=Nowhere 9=Nowhere | 0=
# assert a, b
# raise E from e
Name:a/0 Name:b/0 Assert/2 Name:E/0 Name:e/0 Raise/2 Module/2 | 2=Nowhere 3=Nowhere 5=Nowhere 6=Nowhere | 0=
# def f():
#     'doc'
#     return g
# def g():
#     return f
Docstring:'doc'/0 Name:g/0 Return/1 FunctionDef:f/2 Name:f/0 Return/1 FunctionDef:g/1 Module/2 | 4=Global 7=Global | 0=f,g 1= 5=
# def f():
#     return f
Name:f/0 Return/1 FunctionDef:f/1 Module/1 | 3=Global | 0=f 1=
# class C:
#     def m(self):
#         return m, C
Parameter:self/0 Name:m/0 Name:C/0 Tuple/2 Return/1 FunctionDef:m/2 ClassDef:C/1 Module/1 | 6=Nowhere 7=Global | 0=C 1=m 2=self
# class C(C):
#     pass
Name:C/0 Pass/0 ClassDef:C/2 Module/1 | 2=Global | 0=C 1=
# def f(f):
#     return f
Parameter:f/0 Name:f/0 Return/1 FunctionDef:f/2 Module/1 | 4=Local1 | 0=f 1=f
# def f(a, b=lambda: a):
#     return b
Parameter:a/0 Name:a/0 Lambda/1 Parameter:b/1 Name:b/0 Return/1 FunctionDef:f/3 Module/1 | 5=Nowhere 7=Local1 | 0=f 1=a,b 4=
# def f(a):
#     def g(b=a):
#         return a, b
#     return g
Parameter:a/0 Name:a/0 Parameter:b/1 Name:a/0 Name:b/0 Tuple/2 Return/1 FunctionDef:g/2 Name:g/0 Return/1 FunctionDef:f/3 Module/1 | 5=Local1 8=Free1 9=Local3 11=Local1 | 0=f 1=a,g 3=b
# def f(a):
#     return {k: (v, a) for k, v in a if k}
Parameter:a/0 Name:k/0 Name:v/0 Name:a/0 Tuple/2 DictItem/2 NameTarget:k/0 NameTarget:v/0 TupleTarget/2 Name:a/0 Name:k/0 ComprehensionFor/3 DictComprehension/2 Return/1 FunctionDef:f/2 Module/1 | 6=Local4 8=Local4 9=Local1 14=Local1 15=Local4 | 0=f 1=a 4=k,v
# def f():
#     def g():
#         nonlocal x
#         return x
#     x: int = 1
DeclaredName:x/0 Nonlocal/1 Name:x/0 Return/1 FunctionDef:g/2 NameTarget:x/0 Name:int/0 Annotation/1 NumberLiteral:1/0 AnnAssign/3 FunctionDef:f/2 Module/1 | 6=Free1 10=Builtin | 0=f 1=g,x 2=
# def f(x):
#     def g(y):
#         def h(z):
#             return x, y, z
#         return h
#     return g
Parameter:x/0 Parameter:y/0 Parameter:z/0 Name:x/0 Name:y/0 Name:z/0 Tuple/3 Return/1 FunctionDef:h/2 Name:h/0 Return/1 FunctionDef:g/3 Name:g/0 Return/1 FunctionDef:f/3 Module/1 | 9=Free1 10=Free3 11=Local5 13=Local3 15=Local1 | 0=f 1=g,x 3=h,y 5=z
# def f(x):
#     def g():
#         x = 1
#         def h():
#             return x
Parameter:x/0 NameTarget:x/0 NumberLiteral:1/0 Assign/2 Name:x/0 Return/1 FunctionDef:h/1 FunctionDef:g/2 FunctionDef:f/2 Module/1 | 9=Free3 | 0=f 1=g,x 3=h,x 7=
# def f():
#     def x():
#         pass
#     x()
Pass/0 FunctionDef:x/1 Name:x/0 Call/1 ExpressionStatement/1 FunctionDef:f/2 Module/1 | 6=Local1 | 0=f 1=x 2=
# a = b = c
# d = a, b, c
NameTarget:a/0 NameTarget:b/0 Name:c/0 Assign/3 NameTarget:d/0 Name:a/0 Name:b/0 Name:c/0 Tuple/3 Assign/2 Module/2 | 4=Nowhere 8=Global 9=Global 10=Nowhere | 0=a,b,d
# *a, b = c
# a
NameTarget:a/0 StarredTarget/1 NameTarget:b/0 TupleTarget/2 Name:c/0 Assign/2 Name:a/0 ExpressionStatement/1 Module/2 | 6=Nowhere 8=Global | 0=a,b
# x = x if x else (not x, -x)
NameTarget:x/0 Name:x/0 Name:x/0 Name:x/0 Not/1 Name:x/0 UnaryMinus/1 Tuple/2 Conditional/3 Assign/2 Module/1 | 4=Global 5=Global 8=Global 10=Global | 0=x
# x = a < b == c
NameTarget:x/0 Name:a/0 Less/0 Name:b/0 Equal/0 Name:c/0 Comparison/5 Assign/2 Module/1 | 4=Nowhere 6=Nowhere 8=Nowhere | 0=x
# x = [a, {b}, {c: d}, (e,)]
NameTarget:x/0 Name:a/0 Name:b/0 Set/1 Name:c/0 Name:d/0 DictItem/2 Dict/1 Name:e/0 Tuple/1 List/4 Assign/2 Module/1 | 4=Nowhere 6=Nowhere 9=Nowhere 10=Nowhere 12=Nowhere | 0=x
# def f(*, a: b = c, **d: e):
#     return a, d
KeywordOnlyMark/0 Name:b/0 Annotation/1 Name:c/0 KeywordOnlyParameter:a/2 Name:e/0 Annotation/1 DoubleStarParameter:d/1 Name:a/0 Name:d/0 Tuple/2 Return/1 FunctionDef:f/4 Module/1 | 5=Nowhere 6=Nowhere 9=Nowhere 12=Local1 13=Local1 | 0=f 1=a,d
# def f():
#     import a.b, c as d
#     return a, c, d
Alias:a.b/0 AsName:d/0 Alias:c/1 Import/2 Name:a/0 Name:c/0 Name:d/0 Tuple/3 Return/1 FunctionDef:f/2 Module/1 | 8=Local1 9=Nowhere 10=Local1 | 0=f 1=a,d
# x = (lambda: y)
# y = 1
NameTarget:x/0 Name:y/0 Lambda/1 Assign/2 NameTarget:y/0 NumberLiteral:1/0 Assign/2 Module/2 | 4=Global | 0=x,y 3=
# def f():
#     [(g := x) for x in h for y in (g, x)]
Name:x/0 NamedExpression:g/1 NameTarget:x/0 Name:h/0 ComprehensionFor/2 NameTarget:y/0 Name:g/0 Name:x/0 Tuple/2 ComprehensionFor/2 ListComprehension/3 ExpressionStatement/1 FunctionDef:f/1 Module/1 | 5=Local3 8=Nowhere 12=Local1 13=Local3 | 0=f 1=g 3=x,y
";
