// The messages on the flow of statements and on sizes.
use super::names::module_lines;
use super::{held, runs, spelled, split};
use std::alloc::Global;
use std::process::Abort;
use std::test::Fail;
use std::thread::Threads;

const CODES: &str =
    "--disable=all --enable=E0102,E0103,E0104,R0911,R0912,R0913,R0915,W0101,W0702 --score=n";

// A row is further words, a source, its messages on flow and sizes and the status, with a bar between them.
fn flow_rows<R: Abort + Threads + Sync>(rt: &R, alloc: Global, rows: &str) -> Result<(), Fail> {
    for row in rows.split('\n') {
        let (options, rest) = row.split_once('|').unwrap_or((row, ""));
        let (source, rest) = rest.split_once('|').unwrap_or((rest, ""));
        let (told, status) = rest.split_once('|').unwrap_or((rest, "no row"));
        let mut files = held(alloc, "t.py", &spelled(alloc, source)?)?;
        let printed = module_lines(alloc, &spelled(alloc, told)?)?;
        let words = format!(in alloc;
            "{CODES} {options}{}t.py",
            if options.is_empty() { "" } else { " " }
        )?;
        let words = split(alloc, words.as_str())?;
        let status = status.parse().unwrap_or(u8::MAX);
        runs(rt, alloc, &words, &mut files, printed.as_str(), "", status)?;
    }
    Ok(())
}

const FLOW: &str =
    r#"|def f():~    return 1~    print(2)~|t.py:3:4: W0101: Unreachable code (unreachable)~|4
|def f():~    return 1~||0
|def f():~    print(2)~    return 1~||0
|def f():~    raise E~    g()~|t.py:3:4: W0101: Unreachable code (unreachable)~|4
|for x in y:~    break~    z~|t.py:3:4: W0101: Unreachable code (unreachable)~|4
|while x:~    continue~    z~|t.py:3:4: W0101: Unreachable code (unreachable)~|4
|async def f():~    async for x in y:~        continue~        z~|t.py:4:8: W0101: Unreachable code (unreachable)~|4
|raise E~x~|t.py:2:0: W0101: Unreachable code (unreachable)~|4
|def f():~    return~    a~    b~|t.py:3:4: W0101: Unreachable code (unreachable)~|4
|def f():~    return~    raise E~    a~|t.py:3:4: W0101: Unreachable code (unreachable)~t.py:4:4: W0101: Unreachable code (unreachable)~|4
|def f():~    return~    yield~||0
|def f():~    return~    yield x~||0
|def f():~    return~    yield from x~||0
|def f():~    raise E~    yield~|t.py:3:4: W0101: Unreachable code (unreachable)~|4
|def f():~    return~    x = yield~|t.py:3:4: W0101: Unreachable code (unreachable)~|4
|def f():~    return~    (yield)~||0
|def f():~    return~    yield~    x~||0
|def f():~    if x:~        return~    a~||0
|def f():~    if x:~        return~        a~    else:~        b~|t.py:4:8: W0101: Unreachable code (unreachable)~|4
|def f():~    if x:~        b~    else:~        return~        a~|t.py:6:8: W0101: Unreachable code (unreachable)~|4
|def f():~    if x:~        b~    elif y:~        return~        a~|t.py:6:8: W0101: Unreachable code (unreachable)~|4
|def f():~    try:~        return 1~        a~    except E:~        b~    finally:~        c~|t.py:4:8: W0101: Unreachable code (unreachable)~|4
|def f():~    try:~        return 1~    finally:~        c~||0
|def f():~    try:~        a~    except E:~        raise~        b~|t.py:6:8: W0101: Unreachable code (unreachable)~|4
|def f():~    try:~        a~    finally:~        return~        b~|t.py:6:8: W0101: Unreachable code (unreachable)~|4
|def f():~    return 1; x~|t.py:2:14: W0101: Unreachable code (unreachable)~|4
|def f():~    with x:~        return~        a~|t.py:4:8: W0101: Unreachable code (unreachable)~|4
|def f():~    match x:~        case 1:~            return~            a~|t.py:5:12: W0101: Unreachable code (unreachable)~|4
|def f():~    match x:~        case 1:~            return~        case _:~            a~||0
|def f():~    return~    if x:~        a~|t.py:3:4: W0101: Unreachable code (unreachable)~|4
|def f():~    return~    def g():~        a~|t.py:3:4: W0101: Unreachable code (unreachable)~|4
|def f():~    return~    @d~    def g():~        a~|t.py:4:4: W0101: Unreachable code (unreachable)~|4
|def f():~    raise E~    class A:~        a = 1~|t.py:3:4: W0101: Unreachable code (unreachable)~|4
|def f():~    return~    async def g():~        a~|t.py:3:4: W0101: Unreachable code (unreachable)~|4
|def f():~    for x in y:~        z~    else:~        return~        a~|t.py:6:8: W0101: Unreachable code (unreachable)~|4
|class A:~    raise E~    x = 1~|t.py:3:4: W0101: Unreachable code (unreachable)~|4
|try:~    x~except:~    y~|t.py:3:0: W0702: No exception type(s) specified (bare-except)~|4
|try:~    x~except E:~    y~||0
|try:~    x~except E as e:~    y~||0
|try:~    x~except (A, B):~    y~||0
|try:~    x~except* E:~    y~||0
|try:~    x~except:~    raise~||0
|try:~    x~except:~    y~    raise~||0
|try:~    x~except:~    raise E~||0
|try:~    x~except:~    raise E from e~||0
|try:~    x~except:~    raise~    y~|t.py:5:4: W0101: Unreachable code (unreachable)~|4
|try:~    x~except:~    if y:~        raise~|t.py:3:0: W0702: No exception type(s) specified (bare-except)~|4
|try:~    x~except:~    try:~        raise~    finally:~        y~|t.py:3:0: W0702: No exception type(s) specified (bare-except)~|4
|try:~    x~except:~    def f():~        raise~|t.py:3:0: W0702: No exception type(s) specified (bare-except)~|4
|try:~    x~except E:~    y~except:~    z~|t.py:5:0: W0702: No exception type(s) specified (bare-except)~|4
|try:~    x~except:~    try:~        y~    except:~        raise~|t.py:3:0: W0702: No exception type(s) specified (bare-except)~|4
|try:~    try:~        x~    except:~        y~except E:~    z~|t.py:4:4: W0702: No exception type(s) specified (bare-except)~|4
|def f():~    try:~        x~    except:~        y~    else:~        z~    finally:~        w~|t.py:4:4: W0702: No exception type(s) specified (bare-except)~|4
|try: x~except: y~|t.py:2:0: W0702: No exception type(s) specified (bare-except)~|4
|def f():~    a~def f():~    b~|t.py:3:0: E0102: function already defined line 1 (function-redefined)~|2
|def f():~    a~def g():~    b~||0
|def f():~    a~def f():~    b~def f():~    c~|t.py:3:0: E0102: function already defined line 1 (function-redefined)~t.py:5:0: E0102: function already defined line 3 (function-redefined)~|2
|def _f():~    a~def _f():~    b~||0
|class A:~    def __init__(self):~        a~    def __init__(self):~        b~||0
|def dummy():~    a~def dummy():~    b~|t.py:3:0: E0102: function already defined line 1 (function-redefined)~|2
|def unused_f():~    a~def unused_f():~    b~|t.py:3:0: E0102: function already defined line 1 (function-redefined)~|2
|class A:~    x = 1~class A:~    y = 1~|t.py:3:0: E0102: class already defined line 1 (function-redefined)~|2
|class _A:~    x = 1~class _A:~    y = 1~||0
|class A:~    def f(self):~        a~    def f(self):~        b~|t.py:4:4: E0102: method already defined line 2 (function-redefined)~|2
|class A:~    def f(self):~        a~class B:~    def f(self):~        b~||0
|class A:~    if x:~        def f(self):~            a~        def f(self):~            b~|t.py:5:8: E0102: method already defined line 3 (function-redefined)~|2
|def g():~    def f():~        a~    def f():~        b~|t.py:4:4: E0102: function already defined line 2 (function-redefined)~|2
|def g():~    class A:~        x = 1~    class A:~        y = 1~|t.py:4:4: E0102: class already defined line 2 (function-redefined)~|2
|class B:~    class A:~        x = 1~    class A:~        y = 1~|t.py:4:4: E0102: class already defined line 2 (function-redefined)~|2
|class A:~    def g(self):~        def f():~            a~        def f():~            b~|t.py:5:8: E0102: function already defined line 3 (function-redefined)~|2
|async def f():~    a~def f():~    b~|t.py:3:0: E0102: function already defined line 1 (function-redefined)~|2
|def f():~    a~async def f():~    b~|t.py:3:0: E0102: function already defined line 1 (function-redefined)~|2
|if x:~    def f():~        a~else:~    def f():~        b~||0
|if x:~    def f():~        a~    def f():~        b~|t.py:4:4: E0102: function already defined line 2 (function-redefined)~|2
|if x:~    def f():~        a~def f():~    b~||0
|def f():~    a~if x:~    def f():~        b~||0
|try:~    def f():~        a~except E:~    def f():~        b~||0
|match x:~    case 1:~        def f():~            a~    case 2:~        def f():~            b~||0
|def f():~    a~class f:~    b = 1~||0
|class f:~    b = 1~def f():~    a~||0
|def f():~    a~class f:~    b = 1~def f():~    c~|t.py:5:0: E0102: function already defined line 1 (function-redefined)~|2
|f = 1~def f():~    a~||0
|def f():~    a~f = 1~def f():~    b~|t.py:4:0: E0102: function already defined line 1 (function-redefined)~|2
|def f():~    a~del f~def f():~    b~|t.py:4:0: E0102: function already defined line 1 (function-redefined)~|2
|def f():~    a~@d~def f():~    b~||0
|@d~def f():~    a~def f():~    b~||0
|def f():~    a~@d~def f():~    b~def f():~    c~|t.py:6:0: E0102: function already defined line 1 (function-redefined)~|2
|class A:~    @property~    def f(self):~        a~    @f.setter~    def f(self, x):~        b~||0
|def f(): a~def f(): b~|t.py:2:0: E0102: function already defined line 1 (function-redefined)~|2
|def f():~    def g():~        a~def h():~    def g():~        a~||0
|for x in y:~    def f():~        a~else:~    def f():~        b~||0
|with x:~    def f():~        a~    g~    def f():~        b~|t.py:5:4: E0102: function already defined line 2 (function-redefined)~|2
|break~|t.py:1:0: E0103: 'break' not properly in loop (not-in-loop)~|2
|continue~|t.py:1:0: E0103: 'continue' not properly in loop (not-in-loop)~|2
|for x in y:~    break~||0
|while x:~    continue~||0
|async def f():~    async for x in y:~        break~||0
|if x:~    break~|t.py:2:4: E0103: 'break' not properly in loop (not-in-loop)~|2
|for x in y:~    if x:~        break~    else:~        continue~||0
|for x in y:~    z~else:~    break~|t.py:4:4: E0103: 'break' not properly in loop (not-in-loop)~|2
|while x:~    z~else:~    continue~|t.py:4:4: E0103: 'continue' not properly in loop (not-in-loop)~|2
|for x in y:~    z~else:~    if w:~        break~|t.py:5:8: E0103: 'break' not properly in loop (not-in-loop)~|2
|for x in y:~    for z in x:~        w~    else:~        break~||0
|for x in y:~    z~else:~    for w in x:~        break~||0
|for x in y:~    def f():~        break~|t.py:3:8: E0103: 'break' not properly in loop (not-in-loop)~|2
|for x in y:~    class A:~        continue~|t.py:3:8: E0103: 'continue' not properly in loop (not-in-loop)~|2
|def f():~    for x in y:~        def g():~            while z:~                break~||0
|for x in y:~    try:~        break~    except E:~        continue~    finally:~        continue~||0
|for x in y:~    with z:~        break~||0
|for x in y:~    match z:~        case 1:~            break~||0
|def f():~    break~    a~|t.py:2:4: E0103: 'break' not properly in loop (not-in-loop)~t.py:3:4: W0101: Unreachable code (unreachable)~|6
|class A:~    for x in y:~        break~||0
|for x in y:~    try:~        z~    except E:~        w~    else:~        break~||0
|return~|t.py:1:0: E0104: Return outside function (return-outside-function)~|2
|return 1~|t.py:1:0: E0104: Return outside function (return-outside-function)~|2
|def f():~    return~||0
|async def f():~    return 1~||0
|class A:~    return~|t.py:2:4: E0104: Return outside function (return-outside-function)~|2
|def f():~    class A:~        return~|t.py:3:8: E0104: Return outside function (return-outside-function)~|2
|class A:~    def f(self):~        return~||0
|def f():~    class A:~        def g(self):~            return~||0
|if x:~    return~|t.py:2:4: E0104: Return outside function (return-outside-function)~|2
|for x in y:~    return~|t.py:2:4: E0104: Return outside function (return-outside-function)~|2
|try:~    return~finally:~    x~|t.py:2:4: E0104: Return outside function (return-outside-function)~|2
|return~x~|t.py:1:0: E0104: Return outside function (return-outside-function)~t.py:2:0: W0101: Unreachable code (unreachable)~|6
|class A:~    if x:~        return~|t.py:3:8: E0104: Return outside function (return-outside-function)~|2
|def f():~    if x:~        for y in z:~            return~||0
|def f(x):~    if x: return 1~    if x: return 2~    if x: return 3~    if x: return 4~    if x: return 5~    return 6~||0
|def f(x):~    if x: a~    if x: b~    if x: c~    if x: d~    if x: e~    if x: g~    if x: h~    if x: i~    if x: j~    if x: k~    if x: l~    if x: m~||0
|def f(a, b, c, d, e):~    x~||0
|def f(a, b, c, d, e, *g):~    x~||0
|def f(a, b, c, d, e, **g):~    x~||0
|def f(a, b, c, d, e, _g):~    x~||0
|def f(a, b, c, d, *, e):~    x~||0
|def f(a, b, /, c, d, e):~    x~||0
|class A:~    def f(self, a, b, c, d):~        x~||0
|f = lambda a, b, c, d, e, g: a~||0
|def f(a, b, c, d, e, __g):~    x~||0
|def f():~    a0~    a1~    a2~    a3~    a4~    a5~    a6~    a7~    a8~    a9~    a10~    a11~    a12~    a13~    a14~    a15~    a16~    a17~    a18~    a19~    a20~    a21~    a22~    a23~    a24~    a25~    a26~    a27~    a28~    a29~    a30~    a31~    a32~    a33~    a34~    a35~    a36~    a37~    a38~    a39~    a40~    a41~    a42~    a43~    a44~    a45~    a46~    a47~    a48~    a49~||0
|def f():~    return~    return~    break~|t.py:3:4: W0101: Unreachable code (unreachable)~t.py:4:4: E0103: 'break' not properly in loop (not-in-loop)~t.py:4:4: W0101: Unreachable code (unreachable)~|6"#;

#[test]
fn the_flow_of_statements_is_told(rt: HostRuntime) -> Result<(), Fail> {
    flow_rows(&rt, rt.alloc(), FLOW)
}

const SIZES: &str =
    r#"|def f(x):~    if x: return 1~    if x: return 2~    if x: return 3~    if x: return 4~    if x: return 5~    if x: return 6~    return 7~|t.py:1:0: R0911: Too many return statements (7/6) (too-many-return-statements)~|8
--max-returns=1|def f(x):~    return 1~||0
--max-returns=1|def f(x):~    if x:~        return 1~    return 2~|t.py:1:0: R0911: Too many return statements (2/1) (too-many-return-statements)~|8
--max-returns=0|def f(x):~    return~|t.py:1:0: R0911: Too many return statements (1/0) (too-many-return-statements)~|8
--max-returns=0|def f(x):~    yield~||0
--max-returns=0|async def f(x):~    return~|t.py:1:0: R0911: Too many return statements (1/0) (too-many-return-statements)~|8
--max-returns=1|def f(x):~    def g():~        return 1~    return g~||0
--max-returns=1|def f(x):~    def g():~        if x:~            return 1~        return 2~    return g~|t.py:2:4: R0911: Too many return statements (2/1) (too-many-return-statements)~|8
--max-returns=0|def f(x):~    class A:~        def g(self):~            return 1~|t.py:3:8: R0911: Too many return statements (1/0) (too-many-return-statements)~|8
--max-returns=0|def f(x):~    class A:~        return 1~|t.py:3:8: E0104: Return outside function (return-outside-function)~|2
--max-returns=1|class A:~    @d~    def f(self):~        try:~            return 1~        finally:~            return 2~|t.py:3:4: R0911: Too many return statements (2/1) (too-many-return-statements)~|8
--max-returns=0|def f(x):~    return~    return~|t.py:1:0: R0911: Too many return statements (2/0) (too-many-return-statements)~t.py:3:4: W0101: Unreachable code (unreachable)~|12
--max-branches=0|def f(x):~    x~||0
--max-branches=0|def f(x):~    if x: y~|t.py:1:0: R0912: Too many branches (1/0) (too-many-branches)~|8
--max-branches=1|def f(x):~    if x: y~||0
--max-branches=0|def f(x):~    if x: y~    else: z~|t.py:1:0: R0912: Too many branches (2/0) (too-many-branches)~|8
--max-branches=0|def f(x):~    if x: y~    elif z: w~|t.py:1:0: R0912: Too many branches (2/0) (too-many-branches)~|8
--max-branches=0|def f(x):~    if x: y~    elif z: w~    else: v~|t.py:1:0: R0912: Too many branches (3/0) (too-many-branches)~|8
--max-branches=0|def f(x):~    if x: y~    else:~        if z: w~|t.py:1:0: R0912: Too many branches (3/0) (too-many-branches)~|8
--max-branches=0|def f(x):~    for y in x: z~|t.py:1:0: R0912: Too many branches (1/0) (too-many-branches)~|8
--max-branches=0|def f(x):~    for y in x: z~    else: w~|t.py:1:0: R0912: Too many branches (2/0) (too-many-branches)~|8
--max-branches=0|def f(x):~    while x: z~|t.py:1:0: R0912: Too many branches (1/0) (too-many-branches)~|8
--max-branches=0|def f(x):~    while x: z~    else: w~|t.py:1:0: R0912: Too many branches (2/0) (too-many-branches)~|8
--max-branches=0|async def f(x):~    async for y in x: z~|t.py:1:0: R0912: Too many branches (1/0) (too-many-branches)~|8
--max-branches=0|def f(x):~    try: y~    except E: z~|t.py:1:0: R0912: Too many branches (1/0) (too-many-branches)~|8
--max-branches=0|def f(x):~    try: y~    except E: z~    except F: w~|t.py:1:0: R0912: Too many branches (2/0) (too-many-branches)~|8
--max-branches=0|def f(x):~    try: y~    except E: z~    else: w~|t.py:1:0: R0912: Too many branches (2/0) (too-many-branches)~|8
--max-branches=0|def f(x):~    try: y~    finally: z~|t.py:1:0: R0912: Too many branches (2/0) (too-many-branches)~|8
--max-branches=0|def f(x):~    try: y~    except E: z~    finally: w~|t.py:1:0: R0912: Too many branches (3/0) (too-many-branches)~|8
--max-branches=0|def f(x):~    try: y~    except E: z~    else: w~    finally: v~|t.py:1:0: R0912: Too many branches (4/0) (too-many-branches)~|8
--max-branches=0|def f(x):~    try: y~    except* E: z~    except* F: w~|t.py:1:0: R0912: Too many branches (2/0) (too-many-branches)~|8
--max-branches=0|def f(x):~    match x:~        case 1: y~        case 2: z~        case _: w~|t.py:1:0: R0912: Too many branches (3/0) (too-many-branches)~|8
--max-branches=0|def f(x):~    with x: y~||0
--max-branches=0|def f(x):~    return [y if y else z for y in x if y]~||0
--max-branches=0|def f(x):~    def g():~        if x: y~    return g~|t.py:2:4: R0912: Too many branches (1/0) (too-many-branches)~|8
--max-branches=0|def f(x):~    class A:~        if x: y = 1~    return A~||0
--max-branches=1|def f(x):~    for y in x:~        if y: z~|t.py:1:0: R0912: Too many branches (2/1) (too-many-branches)~|8
|def f(x):~    if x: a~    if x: b~    if x: c~    if x: d~    if x: e~    if x: g~    if x: h~    if x: i~    if x: j~    if x: k~    if x: l~    if x: m~    if x: n~|t.py:1:0: R0912: Too many branches (13/12) (too-many-branches)~|8
|def f(a, b, c, d, e, g):~    x~|t.py:1:0: R0913: Too many arguments (6/5) (too-many-arguments)~|8
|def f(a, b, c, d, e, g, _h):~    x~|t.py:1:0: R0913: Too many arguments (6/5) (too-many-arguments)~|8
|def f(a, b, c, d, *, e, g):~    x~|t.py:1:0: R0913: Too many arguments (6/5) (too-many-arguments)~|8
|def f(a, b, /, c, d, e, g):~    x~|t.py:1:0: R0913: Too many arguments (6/5) (too-many-arguments)~|8
|def f(a, b, c, d, e=1, g=2):~    x~|t.py:1:0: R0913: Too many arguments (6/5) (too-many-arguments)~|8
|def f(a: int, b: int, c: int, d: int, e: int, g: int) -> int:~    x~|t.py:1:0: R0913: Too many arguments (6/5) (too-many-arguments)~|8
|class A:~    def f(self, a, b, c, d, e):~        x~|t.py:2:4: R0913: Too many arguments (6/5) (too-many-arguments)~|8
|async def f(a, b, c, d, e, g):~    x~|t.py:1:0: R0913: Too many arguments (6/5) (too-many-arguments)~|8
|@d~def f(a, b, c, d, e, g):~    x~|t.py:2:0: R0913: Too many arguments (6/5) (too-many-arguments)~|8
|def f(a, b, c, d, e, ignored_g):~    x~|t.py:1:0: R0913: Too many arguments (6/5) (too-many-arguments)~|8
|def f(a, b, c, d, e, unused_g):~    x~|t.py:1:0: R0913: Too many arguments (6/5) (too-many-arguments)~|8
--max-args=0|def f():~    x~||0
--max-args=0|def f(a):~    x~|t.py:1:0: R0913: Too many arguments (1/0) (too-many-arguments)~|8
--max-args=1|def f(a, *args, b, **kw):~    x~|t.py:1:0: R0913: Too many arguments (2/1) (too-many-arguments)~|8
--max-statements=2|def f():~    a~    b~||0
--max-statements=1|def f():~    a~    b~|t.py:1:0: R0915: Too many statements (2/1) (too-many-statements)~|8
--max-statements=0|def f():~    """Doc."""~||0
--max-statements=0|def f():~    """Doc."""~    a~|t.py:1:0: R0915: Too many statements (1/0) (too-many-statements)~|8
--max-statements=0|def f():~    pass~|t.py:1:0: R0915: Too many statements (1/0) (too-many-statements)~|8
--max-statements=0|def f():~    a; b; c~|t.py:1:0: R0915: Too many statements (3/0) (too-many-statements)~|8
--max-statements=0|def f():~    if x: a~|t.py:1:0: R0915: Too many statements (2/0) (too-many-statements)~|8
--max-statements=0|def f():~    if x: a~    else: b~|t.py:1:0: R0915: Too many statements (3/0) (too-many-statements)~|8
--max-statements=0|def f():~    if x: a~    elif y: b~|t.py:1:0: R0915: Too many statements (4/0) (too-many-statements)~|8
--max-statements=0|def f():~    for x in y: a~|t.py:1:0: R0915: Too many statements (2/0) (too-many-statements)~|8
--max-statements=0|def f():~    for x in y: a~    else: b~|t.py:1:0: R0915: Too many statements (3/0) (too-many-statements)~|8
--max-statements=0|def f():~    try: a~    except E: b~|t.py:1:0: R0915: Too many statements (4/0) (too-many-statements)~|8
--max-statements=0|def f():~    try: a~    finally: b~|t.py:1:0: R0915: Too many statements (3/0) (too-many-statements)~|8
--max-statements=0|def f():~    match x:~        case 1: a~        case _: b~|t.py:1:0: R0915: Too many statements (3/0) (too-many-statements)~|8
--max-statements=0|def f():~    with x: a~|t.py:1:0: R0915: Too many statements (2/0) (too-many-statements)~|8
--max-statements=1|def f():~    def g():~        a~||0
--max-statements=1|def f():~    def g():~        a~        b~|t.py:2:4: R0915: Too many statements (2/1) (too-many-statements)~|8
--max-statements=0|def f():~    class A:~        x = 1~        y = 1~|t.py:1:0: R0915: Too many statements (1/0) (too-many-statements)~|8
--max-statements=1|def f():~    @d~    def g():~        a~    return g~|t.py:1:0: R0915: Too many statements (2/1) (too-many-statements)~|8
--max-statements=1|class A:~    def f(self):~        import x~        global y~|t.py:2:4: R0915: Too many statements (2/1) (too-many-statements)~|8
--max-statements=1|async def f():~    await a~    return b~|t.py:1:0: R0915: Too many statements (2/1) (too-many-statements)~|8
--max-statements=1|a~b~c~||0
--max-statements=1|class A:~    a = 1~    b = 1~||0
|def f():~    a0~    a1~    a2~    a3~    a4~    a5~    a6~    a7~    a8~    a9~    a10~    a11~    a12~    a13~    a14~    a15~    a16~    a17~    a18~    a19~    a20~    a21~    a22~    a23~    a24~    a25~    a26~    a27~    a28~    a29~    a30~    a31~    a32~    a33~    a34~    a35~    a36~    a37~    a38~    a39~    a40~    a41~    a42~    a43~    a44~    a45~    a46~    a47~    a48~    a49~    b~|t.py:1:0: R0915: Too many statements (51/50) (too-many-statements)~|8
--max-returns=0 --max-branches=0 --max-args=0 --max-statements=0|def f(a):~    if a: return~|t.py:1:0: R0911: Too many return statements (1/0) (too-many-return-statements)~t.py:1:0: R0912: Too many branches (1/0) (too-many-branches)~t.py:1:0: R0913: Too many arguments (1/0) (too-many-arguments)~t.py:1:0: R0915: Too many statements (2/0) (too-many-statements)~|8"#;

#[test]
fn sizes_are_told(rt: HostRuntime) -> Result<(), Fail> {
    flow_rows(&rt, rt.alloc(), SIZES)
}
