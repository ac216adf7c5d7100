// The messages on names.
use super::{held, report_rows, runs, spelled};
use std::alloc::Global;
use std::process::Abort;
use std::test::Fail;
use std::thread::Threads;

// A row is a source, its messages on names and the status, with a bar between them.
fn name_rows<R: Abort + Threads + Sync>(rt: &R, alloc: Global, rows: &str) -> Result<(), Fail> {
    for row in rows.split('\n') {
        let (source, rest) = row.split_once('|').unwrap_or((row, ""));
        let (told, status) = rest.split_once('|').unwrap_or((rest, "no row"));
        let mut files = held(alloc, "t.py", &spelled(alloc, source)?)?;
        let printed = module_lines(alloc, &spelled(alloc, told)?)?;
        let status = status.parse().unwrap_or(u8::MAX);
        runs(rt, alloc, &WORDS, &mut files, printed.as_str(), "", status)?;
    }
    Ok(())
}

// The messages under the line of their module, or nothing where there is none.
pub(super) fn module_lines(alloc: Global, told: &[u8]) -> Result<String, Fail> {
    let told = str::from_utf8(told).unwrap_or("");
    if told.is_empty() {
        return Ok(String::new(alloc));
    }
    Ok(format!(in alloc; "************* Module t\n{told}")?)
}

const WORDS: [&str; 4] = [
    "--disable=all",
    "--enable=E0602,R0914,W0401,W0603,W0611,W0612,W0613,W0622",
    "--score=n",
    "t.py",
];

const EXAMPLES: &str = r#"print(x)~|t.py:1:6: E0602: Undefined variable 'x' (undefined-variable)~|2
x = 1~print(x)~||0
try:~    print(x)~except NameError:~    pass~||0
def f(a, b, c, d, e, f, g, h, i, j, k, l, m, n, o, p):~    pass~|t.py:1:0: R0914: Too many local variables (16/15) (too-many-locals)~|8
def f(a, b, c, d, e, f, g, h, i, j, k, l, m, n, o):~    pass~||0
def f(a, b, c, d, e, f, g, h, i, j, k, l, m, n, o, _x):~    pass~||0
from os import *~|t.py:1:0: W0401: Wildcard import os (wildcard-import)~|4
from os import path~print(path)~||0
def f():~    global x~    x = 1~|t.py:2:4: W0603: Using the global statement (global-statement)~|4
x = 1~def f():~    global x~    print(x)~||0
id = 1~|t.py:1:0: W0622: Redefining built-in 'id' (redefined-builtin)~|4
class A:~    id = 1~||0
import os~|t.py:1:0: W0611: Unused import os (unused-import)~|4
import os~print(os.sep)~||0
import os~__all__ = ["os"]~||0
def f():~    x = 1~|t.py:2:4: W0612: Unused variable 'x' (unused-variable)~|4
def f():~    x = 1~    return x~||0
def f():~    _x = 1~||0
def f(a):~    return 1~|t.py:1:6: W0613: Unused argument 'a' (unused-argument)~|4
def f(a):~    return a~||0
def f(a):~    pass~||0"#;

#[test]
fn the_examples_of_the_messages_hold(rt: HostRuntime) -> Result<(), Fail> {
    name_rows(&rt, rt.alloc(), EXAMPLES)
}

const RULES: &str = r#"print(x)~|t.py:1:6: E0602: Undefined variable 'x' (undefined-variable)~|2
x = 1~print(x)~||0
print(x)~x = 1~||0
class C:~    a = 1~    def m(self):~        return self, a~|t.py:4:21: E0602: Undefined variable 'a' (undefined-variable)~|2
class C:~    a = 1~    b = a~    c = [a for _ in ()]~    d = [i for i in (a,)]~|t.py:4:9: E0602: Undefined variable 'a' (undefined-variable)~|2
print(len([]), int, ArithmeticError, copyright)~||0
print(__file__, __name__, __x__)~||0
print(____, __y, y__)~|t.py:1:6: E0602: Undefined variable '____' (undefined-variable)~t.py:1:12: E0602: Undefined variable '__y' (undefined-variable)~t.py:1:17: E0602: Undefined variable 'y__' (undefined-variable)~|2
class C:~    __x = 1~    y = __x~    def m(self):~        return self, __x~|t.py:5:21: E0602: Undefined variable '__x' (undefined-variable)~|2
def f(a=b):~    return a~|t.py:1:8: E0602: Undefined variable 'b' (undefined-variable)~|2
@deco~def f(x: Int) -> Out:~    return x~|t.py:1:1: E0602: Undefined variable 'deco' (undefined-variable)~t.py:2:9: E0602: Undefined variable 'Int' (undefined-variable)~t.py:2:17: E0602: Undefined variable 'Out' (undefined-variable)~|2
class A(Base, metaclass=Meta):~    pass~|t.py:1:8: E0602: Undefined variable 'Base' (undefined-variable)~t.py:1:24: E0602: Undefined variable 'Meta' (undefined-variable)~|2
print([i for i in range(3)])~print(i)~|t.py:2:6: E0602: Undefined variable 'i' (undefined-variable)~|2
def f():~    return g, h~def g():~    return lambda q: (q, r)~|t.py:2:14: E0602: Undefined variable 'h' (undefined-variable)~t.py:4:25: E0602: Undefined variable 'r' (undefined-variable)~|2
def f():~    def g():~        return x~    x = 1~    return g~||0
x: int~print(x)~y: 'Nope' = 1~||0
x = 1~del x~print(x)~||0
del zz~ww += 1~||0
def f():~    global x~    x = 1~print(x)~|t.py:2:4: W0603: Using the global statement (global-statement)~|4
def f():~    x = 1~    def g():~        nonlocal x~        x = 2~    return g, x~||0
try:~    pass~except ValueError as e:~    pass~print(e)~||0
if (n := 1):~    print(n)~print([m := k for k in ()], m, k)~|t.py:3:31: E0602: Undefined variable 'k' (undefined-variable)~|2
match 1:~    case [y, *r] if y:~        print(y, r, q)~    case {'k': a.b, **s}:~        print(s)~    case Point(z=1):~        pass~|t.py:3:20: E0602: Undefined variable 'q' (undefined-variable)~t.py:4:15: E0602: Undefined variable 'a' (undefined-variable)~t.py:6:9: E0602: Undefined variable 'Point' (undefined-variable)~|2
print(f"{zz} {len('')}")~|t.py:1:9: E0602: Undefined variable 'zz' (undefined-variable)~|2
print(%c3%a9 + %c3%b6)~%c3%a9 = 1~|t.py:1:11: E0602: Undefined variable '%c3%b6' (undefined-variable)~|2
f(k=1).a[b:c]~|t.py:1:0: E0602: Undefined variable 'f' (undefined-variable)~t.py:1:9: E0602: Undefined variable 'b' (undefined-variable)~t.py:1:11: E0602: Undefined variable 'c' (undefined-variable)~|2
async def f():~    async with a as b:~        return await b~|t.py:2:15: E0602: Undefined variable 'a' (undefined-variable)~|2
try:~    x~except NameError:~    pass~||0
try:~    x~except (TypeError, NameError):~    pass~||0
try:~    x~except ((TypeError, NameError), KeyError):~    pass~|t.py:2:4: E0602: Undefined variable 'x' (undefined-variable)~|2
try:~    x~except:~    pass~||0
try:~    x~except* NameError as e:~    print(e)~||0
try:~    x~except Exception:~    pass~|t.py:2:4: E0602: Undefined variable 'x' (undefined-variable)~|2
import builtins~try:~    x~except builtins.NameError:~    pass~|t.py:3:4: E0602: Undefined variable 'x' (undefined-variable)~|2
try:~    x~except ValueError:~    pass~except NameError:~    pass~||0
try:~    x~finally:~    pass~|t.py:2:4: E0602: Undefined variable 'x' (undefined-variable)~|2
try:~    pass~except NameError:~    y~else:~    z~finally:~    w~|t.py:4:4: E0602: Undefined variable 'y' (undefined-variable)~t.py:6:4: E0602: Undefined variable 'z' (undefined-variable)~t.py:8:4: E0602: Undefined variable 'w' (undefined-variable)~|2
try:~    if 1:~        def f():~            return lambda: x~        class C(Base):~            a = y~except NameError:~    z~|t.py:8:4: E0602: Undefined variable 'z' (undefined-variable)~|2
try:~    try:~        x~    except KeyError:~        y~except NameError:~    pass~||0
try:~    pass~except NameError:~    try:~        x~    except ValueError:~        pass~|t.py:5:8: E0602: Undefined variable 'x' (undefined-variable)~|2
def f():~    try:~        pass~    except NameError:~        pass~    return x~|t.py:6:11: E0602: Undefined variable 'x' (undefined-variable)~|2
from os import *~print(zz)~|t.py:1:0: W0401: Wildcard import os (wildcard-import)~|4
from os import path~print(path, zz)~|t.py:2:12: E0602: Undefined variable 'zz' (undefined-variable)~|2
from os.path import *~from . import *~from .a import *~from ..p.q import *~from ... import *~|t.py:1:0: W0401: Wildcard import os.path (wildcard-import)~t.py:2:0: W0401: Wildcard import . (wildcard-import)~t.py:3:0: W0401: Wildcard import .a (wildcard-import)~t.py:4:0: W0401: Wildcard import ..p.q (wildcard-import)~t.py:5:0: W0401: Wildcard import ... (wildcard-import)~|4
if 1:~    from os import *; from sys import *~|t.py:2:4: W0401: Wildcard import os (wildcard-import)~t.py:2:22: W0401: Wildcard import sys (wildcard-import)~|4
zz~def f():~    from os import *~    return ww~|t.py:3:4: W0401: Wildcard import os (wildcard-import)~|4
class C:~    try:~        from a import *~    except ImportError:~        pass~    x = y~|t.py:3:8: W0401: Wildcard import a (wildcard-import)~|4
import os.path~import sys as s~print(os, s)~||0
from  os  import  *  # all~|t.py:1:0: W0401: Wildcard import os (wildcard-import)~|4
x = 1~def f():~    global x~    x = 2~|t.py:3:4: W0603: Using the global statement (global-statement)~|4
x = 1~def f():~    global x~    print(x)~||0
global x~x = 1~||0
a = b = 1~def f():~    global a, b~    if a:~        b += 1~|t.py:3:4: W0603: Using the global statement (global-statement)~|4
a = b = 1~def f():~    global a~    global b~    b = a~|t.py:4:4: W0603: Using the global statement (global-statement)~|4
class C:~    global x~    x = 1~    async def m(self):~        if self:~            global y~            y = 1~|t.py:6:12: W0603: Using the global statement (global-statement)~|4
def f():~    class C:~        global x~        x = 1~    return C~||0
x = 1~def f():~    global x~    def g():~        x = 2~        return x~    return g~||0
x = 1~def f():~    global x~    def g():~        global x~        x = 2~    return g~|t.py:5:8: W0603: Using the global statement (global-statement)~|4
x = 1~def f():~    global x~    return lambda x: x~||0
def f():~    global os~    import os~print(os)~|t.py:2:4: W0603: Using the global statement (global-statement)~|4
def f():~    global d, c~    def d():~        pass~def g():~    global d, c~    class c:~        pass~|t.py:2:4: W0603: Using the global statement (global-statement)~t.py:6:4: W0603: Using the global statement (global-statement)~|4
def f(y):~    global a~    for a in y:~        pass~def g(y):~    global a~    with y as a:~        pass~def h():~    global a~    del a~|t.py:2:4: W0603: Using the global statement (global-statement)~t.py:6:4: W0603: Using the global statement (global-statement)~t.py:10:4: W0603: Using the global statement (global-statement)~|4
def f(y):~    global a~    return [a := i for i in y]~def g(y):~    global a~    match y:~        case a:~            pass~def h():~    global a~    try:~        pass~    except ValueError as a:~        pass~|t.py:2:4: W0603: Using the global statement (global-statement)~t.py:5:4: W0603: Using the global statement (global-statement)~t.py:10:4: W0603: Using the global statement (global-statement)~|4
a = 1~def f(y):~    global a~    return [a for a in y], a~def g():~    global a~    return [[a := 1 for _ in ()] for _ in ()]~|t.py:6:4: W0603: Using the global statement (global-statement)~|4
x = y = 1~def f():~    global x~    x.a = 1~    x[0] = 1~    y = x~    return y~||0
class C:~    def m(self):~        global __x~        __x = self~    def n(self):~        return self, __x~|t.py:3:8: W0603: Using the global statement (global-statement)~|4
list = 1~list = 2~|t.py:1:0: W0622: Redefining built-in 'list' (redefined-builtin)~|4
def f(id, /, len, *vars, map, **zip):~    return id, len, vars, map, zip~|t.py:1:6: W0622: Redefining built-in 'id' (redefined-builtin)~t.py:1:13: W0622: Redefining built-in 'len' (redefined-builtin)~t.py:1:18: W0622: Redefining built-in 'vars' (redefined-builtin)~t.py:1:25: W0622: Redefining built-in 'map' (redefined-builtin)~t.py:1:30: W0622: Redefining built-in 'zip' (redefined-builtin)~|4
def f():~    id = 1~    id = 2~    return id~id = 3~id = 4~|t.py:2:4: W0622: Redefining built-in 'id' (redefined-builtin)~t.py:5:0: W0622: Redefining built-in 'id' (redefined-builtin)~|4
def input():~    pass~class list:~    pass~async def open():~    pass~|t.py:1:0: W0622: Redefining built-in 'input' (redefined-builtin)~t.py:3:0: W0622: Redefining built-in 'list' (redefined-builtin)~t.py:5:0: W0622: Redefining built-in 'open' (redefined-builtin)~|4
class C:~    id = 1~    def list(self):~        return self~    import abs~    class max:~        pass~||0
import numpy as sum, abs.b~from m import open, q as pow~print(sum, abs, open, pow)~|t.py:1:7: W0622: Redefining built-in 'sum' (redefined-builtin)~t.py:1:21: W0622: Redefining built-in 'abs' (redefined-builtin)~t.py:2:14: W0622: Redefining built-in 'open' (redefined-builtin)~t.py:2:20: W0622: Redefining built-in 'pow' (redefined-builtin)~|4
print([id for id in ()], lambda max: max, {min for min in ()})~||0
print([id := i for i in ()])~print(id)~|t.py:1:7: W0622: Redefining built-in 'id' (redefined-builtin)~|4
for id in ():~    pass~with open('') as dir:~    pass~try:~    pass~except ValueError as hash:~    pass~|t.py:1:4: W0622: Redefining built-in 'id' (redefined-builtin)~t.py:3:17: W0622: Redefining built-in 'dir' (redefined-builtin)~t.py:7:21: W0622: Redefining built-in 'hash' (redefined-builtin)~|4
match 1:~    case [id, *all]:~        pass~    case {'a': 1, **dict}:~        pass~    case [1] as list:~        pass~|t.py:2:10: W0622: Redefining built-in 'id' (redefined-builtin)~t.py:2:14: W0622: Redefining built-in 'all' (redefined-builtin)~t.py:4:18: W0622: Redefining built-in 'dict' (redefined-builtin)~t.py:6:9: W0622: Redefining built-in 'list' (redefined-builtin)~|4
id: int~max: int = 1~|t.py:2:0: W0622: Redefining built-in 'max' (redefined-builtin)~|4
id += 1~del max~(min, [sum, *any]) = print()~|t.py:1:0: W0622: Redefining built-in 'id' (redefined-builtin)~t.py:2:4: W0622: Redefining built-in 'max' (redefined-builtin)~t.py:3:1: W0622: Redefining built-in 'min' (redefined-builtin)~t.py:3:7: W0622: Redefining built-in 'sum' (redefined-builtin)~t.py:3:13: W0622: Redefining built-in 'any' (redefined-builtin)~|4
def f():~    global id~    id = 1~id = 2~|t.py:2:4: W0603: Using the global statement (global-statement)~t.py:3:4: W0622: Redefining built-in 'id' (redefined-builtin)~|4
def f():~    id = 1~    def g():~        nonlocal id~        id = 2~    return g, id~|t.py:2:4: W0622: Redefining built-in 'id' (redefined-builtin)~|4
def f():~    def g():~        nonlocal id~        id = 2~    id = 1~    return g, id~|t.py:4:8: W0622: Redefining built-in 'id' (redefined-builtin)~|4
def f():~    global id~    def g(id):~        return id~    return g, id~|t.py:3:10: W0622: Redefining built-in 'id' (redefined-builtin)~|4
__name__ = __doc__ = WindowsError = _ = Foo = 1~IOError = copyright = 1~|t.py:2:0: W0622: Redefining built-in 'IOError' (redefined-builtin)~t.py:2:10: W0622: Redefining built-in 'copyright' (redefined-builtin)~|4
from .m import id as ident, max as max~print(ident, max)~|t.py:1:28: W0622: Redefining built-in 'max' (redefined-builtin)~|4
o = print()~o.id = 1~o[list] = 2~print(max=1)~||0
def f():~    a = b = c = d = e = f = g = h = i = j = k = l = m = n = o = 1~    return a, b, c, d, e, f, g, h, i, j, k, l, m, n, o~||0
def f():~    a = b = c = d = e = f = g = h = i = j = k = l = m = n = o = p = 1~    return a, b, c, d, e, f, g, h, i, j, k, l, m, n, o, p~|t.py:1:0: R0914: Too many local variables (16/15) (too-many-locals)~|8
async def f():~    a = b = c = d = e = f = g = h = i = j = k = l = m = n = o = 1~    a = b = 2~    return a, b, c, d, e, f, g, h, i, j, k, l, m, n, o~||0
class C:~    def m(self):~        a = b = c = d = e = f = g = h = i = j = k = l = m = n = o = self~        return a, b, c, d, e, f, g, h, i, j, k, l, m, n, o~|t.py:2:4: R0914: Too many local variables (16/15) (too-many-locals)~|8
@print~async def f():~    a = b = c = d = e = f = g = h = i = j = k = l = m = n = o = p = q = r = s = t = u = v = w = x = y = z = 1~    return a, b, c, d, e, f, g, h, i, j, k, l, m, n, o, p, q, r, s, t, u, v, w, x, y, z~|t.py:2:0: R0914: Too many local variables (26/15) (too-many-locals)~|8
def f(u, /, v, *w, x=1, **y):~    z = 1~    a = b = c = d = e = f = g = h = i = j = 1~    return a, b, c, d, e, f, g, h, i, j, u, v, w, x, y, z~|t.py:1:0: R0914: Too many local variables (16/15) (too-many-locals)~|8
def f():~    a = b = c = d = e = f = g = h = i = j = k = l = m = n = o = _p = __q = _ = 1~    return a, b, c, d, e, f, g, h, i, j, k, l, m, n, o, _p, __q, _~||0
def f():~    a = b = c = d = e = f = g = h = i = j = k = l = m = n = o = 1~    p: int~    return a, b, c, d, e, f, g, h, i, j, k, l, m, n, o~|t.py:1:0: R0914: Too many local variables (16/15) (too-many-locals)~|8
def f():~    a = b = c = d = e = f = g = h = i = j = k = l = m = n = o = 1~    print([p for p in ()], {q: r for q, r in ()}, lambda s: s)~    return a, b, c, d, e, f, g, h, i, j, k, l, m, n, o~||0
def f():~    a = b = c = d = e = f = g = h = i = j = k = l = m = n = o = 1~    print([p := 1 for _ in ()])~    return a, b, c, d, e, f, g, h, i, j, k, l, m, n, o, p~|t.py:1:0: R0914: Too many local variables (16/15) (too-many-locals)~|8
def f():~    global p~    p = 1~    a = b = c = d = e = f = g = h = i = j = k = l = m = n = o = 1~    return a, b, c, d, e, f, g, h, i, j, k, l, m, n, o, p~|t.py:2:4: W0603: Using the global statement (global-statement)~|4
def f():~    import os.path~    from x import y as q~    class P:~        zz = 1~    def gg():~        return 1~    a = b = c = d = e = f = g = h = i = j = k = l = 1~    return a, b, c, d, e, f, g, h, i, j, k, l, os, P, gg, q~|t.py:1:0: R0914: Too many local variables (16/15) (too-many-locals)~|8
def f():~    for p, (q, *r) in ():~        pass~    with open('') as s:~        pass~    a = b = c = d = e = f = g = h = i = j = k = l = 1~    return a, b, c, d, e, f, g, h, i, j, k, l, p, q, r, s~|t.py:1:0: R0914: Too many local variables (16/15) (too-many-locals)~|8
def f():~    try:~        pass~    except ValueError as p:~        pass~    match 1:~        case [q]:~            pass~    a = b = c = d = e = f = g = h = i = j = k = l = m = n = 1~    return a, b, c, d, e, f, g, h, i, j, k, l, m, n, p, q~|t.py:1:0: R0914: Too many local variables (16/15) (too-many-locals)~|8
def f():~    def g():~        a = b = c = d = e = f = g = h = i = j = k = l = m = n = o = p = 1~        return a, b, c, d, e, f, g, h, i, j, k, l, m, n, o, p~    return g~|t.py:2:4: R0914: Too many local variables (16/15) (too-many-locals)~|8
def f():~    a = b = c = d = e = f = g = h = i = j = k = l = m = n = o = 1~    def gg():~        nonlocal a~        a = a1 = b1 = c1 = d1 = e1 = f1 = g1 = h1 = i1 = j1 = k1 = l1 = m1 = n1 = o1 = 1~        return a1, b1, c1, d1, e1, f1, g1, h1, i1, j1, k1, l1, m1, n1, o1~    return gg, a, b, c, d, e, f, g, h, i, j, k, l, m, n, o~|t.py:1:0: R0914: Too many local variables (16/15) (too-many-locals)~|8
a = b = c = d = e = f = g = h = i = j = k = l = m = n = o = p = q = r = s = t = 1~class C:~    a = b = c = d = e = f = g = h = i = j = k = l = m = n = o = p = q = r = s = t = 1~||0
def f():~    a = 1; a = 2; b = 1; b = 2; c = 1; c = 2; d = 1; d = 2; e = 1; e = 2; f = 1; f = 2; g = 1; g = 2; h = 1; h = 2; i = 1; i = 2; j = 1; j = 2; k = 1; k = 2; l = 1; l = 2; m = 1; m = 2; n = 1; n = 2; o = 1; o = 2~    return a, b, c, d, e, f, g, h, i, j, k, l, m, n, o~||0
def f():~    a: int; b: int; c: int; d: int; e: int; f: int; g: int; h: int; i: int; j: int; k: int; l: int; m: int; n: int; o: int; p: int; q: int~    a = 1~    return a~|t.py:1:0: R0914: Too many local variables (17/15) (too-many-locals)~|8
def f(a, b, c, d, e, f, g, h, i, j, k, l, m, n, o):~    return a, b, c, d, e, f, g, h, i, j, k, l, m, n, o~||0
print(lambda a, b, c, d, e, f, g, h, i, j, k, l, m, n, o, p: (a, b, c, d, e, f, g, h, i, j, k, l, m, n, o, p))~||0
class C:~    def m(self):~        a = b = c = d = e = f = g = h = i = j = k = l = m = n = __q = self~        return __q, a, b, c, d, e, f, g, h, i, j, k, l, m, n~||0"#;

#[test]
fn names_are_told_by_rule(rt: HostRuntime) -> Result<(), Fail> {
    name_rows(&rt, rt.alloc(), RULES)
}

const UNREAD: &str = r#"import os~|t.py:1:0: W0611: Unused import os (unused-import)~|4
import os~print(os)~||0
import os.path~|t.py:1:0: W0611: Unused import os.path (unused-import)~|4
import os.path~print(os.sep)~||0
import numpy as np~|t.py:1:0: W0611: Unused numpy imported as np (unused-import)~|4
import numpy as np~print(np)~||0
import a.b as c~|t.py:1:0: W0611: Unused a.b imported as c (unused-import)~|4
from x import y~|t.py:1:0: W0611: Unused y imported from x (unused-import)~|4
from x import y as z~|t.py:1:0: W0611: Unused y imported from x as z (unused-import)~|4
from x import y as z~print(z)~||0
from . import y~|t.py:1:0: W0611: Unused y imported from . (unused-import)~|4
from ..a.b import c as d~|t.py:1:0: W0611: Unused c imported from ..a.b as d (unused-import)~|4
from x import y as y~||0
import os as os~||0
import a.b as b~|t.py:1:0: W0611: Unused a.b imported as b (unused-import)~|4
from __future__ import annotations~||0
import _thread~||0
import ignored_os~import unused_os~import dummy~import dummy2~|t.py:4:0: W0611: Unused import dummy2 (unused-import)~|4
import os as _os~import sys as ignored_sys~import re as dummy~||0
import os, sys~print(sys)~|t.py:1:0: W0611: Unused import os (unused-import)~|4
import os, sys~|t.py:1:0: W0611: Unused import os (unused-import)~t.py:1:0: W0611: Unused import sys (unused-import)~|4
from x import (~    b,~    a,~)~print(b)~|t.py:1:0: W0611: Unused a imported from x (unused-import)~|4
import os~~__all__ = ['os']~||0
import os~~__all__ = ('os',)~__all__ += ['sys']~||0
import os~import sys~~__all__ = ['sys']~|t.py:1:0: W0611: Unused import os (unused-import)~|4
import os~~__all__ = []~__all__ += ['os']~||0
import os~from x import more~~__all__ = ['a'] + list(more) + ['os']~||0
import os~~__all__ = {'os'}~||0
import os~~__all__: list = ['os']~||0
import os~~__all__ = []~__all__.append('os')~__all__.extend(['os'])~|t.py:1:0: W0611: Unused import os (unused-import)~|4
import os~~__all__ = 'os'~|t.py:1:0: W0611: Unused import os (unused-import)~|4
import os~~names = ['os']~|t.py:1:0: W0611: Unused import os (unused-import)~|4
import os~~~def f():~    __all__ = ['os']~    return __all__~|t.py:1:0: W0611: Unused import os (unused-import)~|4
from x import T~~~def f(a: 'T'):~    return a~||0
from x import T~~~def f(a) -> 'list[T]':~    return a~||0
from x import T~~V: 'T' = None~||0
from x import T~~~def f(a: list['T']):~    return a~||0
from x import T~~~def f(a: 'Table'):~    return a~|t.py:1:0: W0611: Unused T imported from x (unused-import)~|4
from x import T~~V = list('T')~|t.py:1:0: W0611: Unused T imported from x (unused-import)~|4
from x import r~~V: r'T' = None~|t.py:1:0: W0611: Unused r imported from x (unused-import)~|4
import typing~from x import T~~V = typing.cast('T', 1)~|t.py:2:0: W0611: Unused T imported from x (unused-import)~|4
import os~~~def f():~    return os.sep~||0
import os~~~def f():~    os = 1~    return os~|t.py:1:0: W0611: Unused import os (unused-import)~|4
def f():~    import os~|t.py:2:4: W0611: Unused import os (unused-import)~|4
def f():~    import os~    return os~||0
def f():~    import os~    return lambda: os~||0
class C:~    import os~||0
import os~~~class C:~    os = os~||0
def f():~    import os~~    class C:~        os = os~    return C~|t.py:2:4: W0611: Unused import os (unused-import)~|4
try:~    import json~except ImportError:~    json = None~|t.py:2:4: W0611: Unused import json (unused-import)~|4
import os~os += 1~||0
import os~del os~|t.py:1:0: W0611: Unused import os (unused-import)~|4
import os~V = [os for os in ()]~|t.py:1:0: W0611: Unused import os (unused-import)~|4
import os~V = f'{os.sep}'~||0
import os~V = '{os.sep}'~|t.py:1:0: W0611: Unused import os (unused-import)~|4
import os~~~@os.mark~def f():~    pass~||0
import os~~~def f(a: os.PathLike = None):~    return a~||0
def f():~    global os~    import os~|t.py:2:4: W0603: Using the global statement (global-statement)~t.py:3:4: W0611: Unused import os (unused-import)~|4
def f():~    global os~    import os~~~print(os)~|t.py:2:4: W0603: Using the global statement (global-statement)~|4
import xml.dom~import xml.sax~print(xml.dom)~||0
import xml.dom~import xml.sax~|t.py:1:0: W0611: Unused import xml.dom (unused-import)~t.py:2:0: W0611: Unused import xml.sax (unused-import)~|4
from x import *~|t.py:1:0: W0401: Wildcard import x (wildcard-import)~|4
if True:~    import os~else:~    import os~print(os)~||0
import os~import os~|t.py:1:0: W0611: Unused import os (unused-import)~t.py:2:0: W0611: Unused import os (unused-import)~|4
def f():~    x = 1~|t.py:2:4: W0612: Unused variable 'x' (unused-variable)~|4
def f():~    x = 1~    return x~||0
x = 1~||0
class C:~    x = 1~||0
def f():~    x = 1~    x = 2~|t.py:2:4: W0612: Unused variable 'x' (unused-variable)~|4
def f():~    x = 1~~    def g():~        return x~    return g~||0
def f():~    x = 1~~    def g():~        x = 2~        return x~    return g~|t.py:2:4: W0612: Unused variable 'x' (unused-variable)~|4
def f():~    x = 1~    return [x for x in ()]~|t.py:2:4: W0612: Unused variable 'x' (unused-variable)~|4
def f():~    x = 1~    return [x for _ in ()]~||0
def f():~    x = 0~    x += 1~||0
def f():~    x = 0~    del x~|t.py:2:4: W0612: Unused variable 'x' (unused-variable)~|4
def f():~    _x = 1~    _ = 2~    ignored_x = 3~    unused_x = 4~    dummy = 5~||0
def f():~    dummy_x = 1~|t.py:2:4: W0612: Unused variable 'dummy_x' (unused-variable)~|4
def f():~    __x = 1~||0
def f():~    x: int~    return 1~||0
def f():~    x: int = 1~    return 1~|t.py:2:4: W0612: Unused variable 'x' (unused-variable)~|4
def f():~    for i in ():~        pass~|t.py:2:8: W0612: Unused variable 'i' (unused-variable)~|4
def f():~    for a, b in ():~        print(a)~|t.py:2:11: W0612: Unused variable 'b' (unused-variable)~|4
def f():~    with open('a') as h:~        pass~|t.py:2:22: W0612: Unused variable 'h' (unused-variable)~|4
def f():~    try:~        pass~    except OSError as e:~        pass~|t.py:4:22: W0612: Unused variable 'e' (unused-variable)~|4
def f():~    def g():~        pass~|t.py:2:4: W0612: Unused variable 'g' (unused-variable)~|4
def f():~    async def g():~        pass~|t.py:2:4: W0612: Unused variable 'g' (unused-variable)~|4
def f():~    class C:~        pass~|t.py:2:4: W0612: Unused variable 'C' (unused-variable)~|4
def f():~    @staticmethod~    def g():~        pass~|t.py:3:4: W0612: Unused variable 'g' (unused-variable)~|4
def f(a):~    match a:~        case [x, *y]:~            return x~        case {'k': z, **w}:~            return z~|t.py:3:17: W0612: Unused variable 'y' (unused-variable)~t.py:5:22: W0612: Unused variable 'w' (unused-variable)~|4
def f(a):~    match a:~        case int() as n:~            pass~|t.py:3:13: W0612: Unused variable 'n' (unused-variable)~|4
def f(a):~    if (n := len(a)) > 1:~        return 1~    return 2~|t.py:2:8: W0612: Unused variable 'n' (unused-variable)~|4
def f(a):~    return [y := b for b in a]~|t.py:2:12: W0612: Unused variable 'y' (unused-variable)~|4
def f():~    x = 1~    return locals()~||0
def f():~    x = 1~    return lambda: locals()~|t.py:2:4: W0612: Unused variable 'x' (unused-variable)~|4
def f():~    x = 1~~    def g():~        return locals()~    return g~|t.py:2:4: W0612: Unused variable 'x' (unused-variable)~|4
def f():~    x = 1~    return [locals() for _ in ()]~||0
def f():~    x = 1~    return locals~|t.py:2:4: W0612: Unused variable 'x' (unused-variable)~|4
def f():~    x = y = 1~    return y~|t.py:2:4: W0612: Unused variable 'x' (unused-variable)~|4
def f():~    (a, [b, *c]) = ()~    return a, b~|t.py:2:13: W0612: Unused variable 'c' (unused-variable)~|4
def f(x):~    x = 1~|t.py:1:6: W0613: Unused argument 'x' (unused-argument)~|4
def f():~    global x~    x = 1~|t.py:2:4: W0603: Using the global statement (global-statement)~|4
def f():~    x = 1~~    def g():~        nonlocal x~        x = 2~    return g~|t.py:2:4: W0612: Unused variable 'x' (unused-variable)~|4
def f():~    def g():~        nonlocal x~        x = 2~    x = 1~    return g~|t.py:4:8: W0612: Unused variable 'x' (unused-variable)~|4
def f():~    x = 1~~    class C:~        x = x~    return C~|t.py:2:4: W0612: Unused variable 'x' (unused-variable)~|4
def f():~    x = 1~~    class C:~        y = x~    return C~||0
def f():~    import os~    os = 1~|t.py:2:4: W0611: Unused import os (unused-import)~|4
def f():~    %c3%a9, x = ()~    return %c3%a9~|t.py:2:8: W0612: Unused variable 'x' (unused-variable)~|4
f = lambda: (x := 1)~||0
async def f():~    async with f() as g:~        pass~    async for i in f():~        pass~|t.py:2:22: W0612: Unused variable 'g' (unused-variable)~t.py:4:14: W0612: Unused variable 'i' (unused-variable)~|4
class C:~    def m(self):~        __v = self~        w = self~|t.py:4:8: W0612: Unused variable 'w' (unused-variable)~|4
def f(a):~    return 1~|t.py:1:6: W0613: Unused argument 'a' (unused-argument)~|4
def f(a):~    return a~||0
def f(a, b=1, *c, d, e=2, **g):~    return 1~|t.py:1:6: W0613: Unused argument 'a' (unused-argument)~t.py:1:9: W0613: Unused argument 'b' (unused-argument)~t.py:1:14: W0613: Unused argument 'c' (unused-argument)~t.py:1:18: W0613: Unused argument 'd' (unused-argument)~t.py:1:21: W0613: Unused argument 'e' (unused-argument)~t.py:1:26: W0613: Unused argument 'g' (unused-argument)~|4
def f(a, /, b, *, c):~    return a~|t.py:1:12: W0613: Unused argument 'b' (unused-argument)~t.py:1:18: W0613: Unused argument 'c' (unused-argument)~|4
def f(a: int, b: str = ''):~    return a~|t.py:1:14: W0613: Unused argument 'b' (unused-argument)~|4
def f(_a, ignored_b, unused_c, dummy, dummy_d):~    return 1~|t.py:1:38: W0613: Unused argument 'dummy_d' (unused-argument)~|4
def f(a):~    a = 1~    return a~||0
def f(a):~    a = 1~|t.py:1:6: W0613: Unused argument 'a' (unused-argument)~|4
def f(a):~    a += 1~||0
def f(a):~    del a~|t.py:1:6: W0613: Unused argument 'a' (unused-argument)~|4
def f(a):~    return lambda: a~||0
def f(a):~    return lambda a: a~|t.py:1:6: W0613: Unused argument 'a' (unused-argument)~|4
f = lambda a: 1~||0
def f(a):~    return [a for _ in ()]~||0
def f(a):~    return locals()~|t.py:1:6: W0613: Unused argument 'a' (unused-argument)~|4
class C:~    def m(self):~        return 1~||0
class C:~    def m(self, a):~        return 1~|t.py:2:16: W0613: Unused argument 'a' (unused-argument)~|4
class C:~    def m(*args):~        return 1~||0
class C:~    def m(*, a):~        return 1~||0
class C:~    if True:~        def m(self, a):~            return 1~|t.py:3:20: W0613: Unused argument 'a' (unused-argument)~|4
class C:~    def m(self):~        def g(a):~            return 1~        return g~|t.py:3:14: W0613: Unused argument 'a' (unused-argument)~|4
class C:~    @classmethod~    def m(cls, a):~        return 1~||0
class C:~    def __init__(self, a):~        self.b = 1~|t.py:2:23: W0613: Unused argument 'a' (unused-argument)~|4
class C:~    def __call__(self, a):~        return 1~||0
def __call__(a):~    return 1~|t.py:1:13: W0613: Unused argument 'a' (unused-argument)~|4
class C:~    def __m(self, a):~        return 1~|t.py:2:18: W0613: Unused argument 'a' (unused-argument)~|4
class C(Exception):~    def m(self, a):~        return 1~||0
class C(metaclass=type):~    def m(self, a):~        return 1~|t.py:2:16: W0613: Unused argument 'a' (unused-argument)~|4
class C():~    def m(self, a):~        return 1~|t.py:2:16: W0613: Unused argument 'a' (unused-argument)~|4
class C(*()):~    def m(self, a):~        return 1~||0
class C(Exception):~    def m(self):~        def g(a):~            return 1~        return g~|t.py:3:14: W0613: Unused argument 'a' (unused-argument)~|4
@print~def f(a):~    return 1~||0
def f(a):~    pass~||0
def f(a):~    '''Doc.'''~||0
def f(a):~    ...~||0
def f(a):~    raise NotImplementedError~||0
def f(a):~    '''Doc.'''~    pass~    ...~    raise ValueError(1)~||0
def f(a):~    pass~    return~|t.py:1:6: W0613: Unused argument 'a' (unused-argument)~|4
def f(a):~    1~|t.py:1:6: W0613: Unused argument 'a' (unused-argument)~|4
def f(a):~    def g():~        return a~    return g~||0
async def f(a):~    return 1~|t.py:1:12: W0613: Unused argument 'a' (unused-argument)~|4
def f(a):~    import a~    return 1~|t.py:1:6: W0613: Unused argument 'a' (unused-argument)~t.py:2:4: W0611: Unused import a (unused-import)~|4
def f(a, b):~    def g(b):~        return a~    return g~|t.py:1:9: W0613: Unused argument 'b' (unused-argument)~t.py:2:10: W0613: Unused argument 'b' (unused-argument)~|4
def f(%c3%a9, a):~    return %c3%a9~|t.py:1:10: W0613: Unused argument 'a' (unused-argument)~|4
def f(a):~    return f'{a}'~||0
def f(a):~    class C:~        b = a~    return C~||0
def f(a, b=lambda x: 1):~    return a~|t.py:1:9: W0613: Unused argument 'b' (unused-argument)~|4"#;

#[test]
fn names_that_are_never_read_are_told(rt: HostRuntime) -> Result<(), Fail> {
    name_rows(&rt, rt.alloc(), UNREAD)
}

const REPORTS: &str = r#"u.py|"""Doc."""~import os~W = 8~print(f"{os!r:>{W}}")~||10.00|0
u.py|"""Doc."""~import os~W = 8~print(W)~|************* Module u~u.py:2:0: W0611: Unused import os (unused-import)~|6.67|4
--disable=all --enable=W0611 u.py|"""Doc."""~import os~W = 8~print(W)~|************* Module u~u.py:2:0: W0611: Unused import os (unused-import)~|6.67|4
--enable=W0611 --disable=all u.py|"""Doc."""~import os~W = 8~print(W)~|************* Module u~u.py:2:0: W0611: Unused import os (unused-import)~|6.67|4
--enable=W0611 --disable=W0611 u.py|"""Doc."""~import os~W = 8~print(W)~||10.00|0
--disable=all --enable=E s.py|class C:~    a = 1~    def m(self):~        return a~|************* Module s~s.py:4:15: E0602: Undefined variable 'a' (undefined-variable)~|0.00|2
p.py|"""Doc."""~~~def f():  # pylint: disable=unused-variable~    """Doc."""~    a = 1~    b = 2~~~def g():~    """Doc."""~    c = 3~|************* Module p~p.py:12:4: W0612: Unused variable 'c' (unused-variable)~|8.00|4
p.py|"""Doc."""~from os import *~import re~|************* Module p~p.py:2:0: W0401: Wildcard import os (wildcard-import)~p.py:3:0: W0611: Unused import re (unused-import)~|0.00|4
p/__init__.py|"""Doc."""~from os import *~import re~||10.00|0
--additional-builtins=a,_ a.py|"""Doc."""~print(_(a))~||10.00|0
--max-locals=0 a.py|"""Doc."""~print([b for b in (1, 2)])~~~def f(a):~    """Doc."""~    return a~|************* Module a~a.py:5:0: R0914: Too many local variables (1/0) (too-many-locals)~|6.67|8"#;

#[test]
fn names_are_reported_with_their_score(rt: HostRuntime) -> Result<(), Fail> {
    report_rows(&rt, rt.alloc(), REPORTS)
}
