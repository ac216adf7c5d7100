// The rules on docstrings.
use super::tell;
use std::test::Fail;

const MODULES_SAY_WHAT_THEY_DO: &str = r#"||
# only a comment~||
"""Doc."""~|D1000"""Doc."""|
x~|n1000x x1001|1:0 C0114
# first~~x~|n3000x x3001|1:0 C0114
"""Doc."""~x~|D1000"""Doc.""" n2000x x2001|
x~"""Doc."""~|n1000x x1001 s2000"""Doc.""" x2001|1:0 C0114
f"""{x}"""~|n1050x f1041 F1001f"""{x}""" x1001|1:0 C0114
b"Doc."~|b1000b"Doc." x1001|1:0 C0114
("Doc.")~x~|D1010"Doc." n2000x x2001|"#;

#[test]
fn modules_say_what_they_do(rt: HostRuntime) -> Result<(), Fail> {
    tell(&rt, rt.alloc(), MODULES_SAY_WHAT_THEY_DO)
}

const CLASSES_SAY_WHAT_THEY_DO: &str =
    r#""d"~class A:~    """Doc."""~|D1000"d" D3040"""Doc.""" C2001A|
"d"~class A:~    x~|D1000"d" n3040x x3041 C2001A|2:0 C0115
"d"~class _A:~    x~|D1000"d" n3040x x3041 C2001_A|
"d"~class __A:~    x~|D1000"d" n3040x x3041 C2001__A|
"d"~class A(B):~    x~|D1000"d" n2080B n3040x x3041 C2002A|2:0 C0115
"d"~@x~class A:~    x~|D1000"d" n2010x @2001 n4040x x4041 C3002A|3:0 C0115
"d"~def _f():~    class A:~        x~|D1000"d" n4080x x4081 C3041A d2001_f|3:4 C0115
"d"~class _A:~    class B:~        x~|D1000"d" n4080x x4081 C3041B C2001_A|3:4 C0115
"d"~class A: "Doc."~|D1000"d" D2090"Doc." C2001A|
"d"~if x:~    class A:~        x~|D1000"d" n2030x n4080x x4081 C3041A I2002|3:4 C0115"#;

#[test]
fn classes_say_what_they_do(rt: HostRuntime) -> Result<(), Fail> {
    tell(&rt, rt.alloc(), CLASSES_SAY_WHAT_THEY_DO)
}

const FUNCTIONS_SAY_WHAT_THEY_DO: &str = r#""d"~def f():~    "d"~|D1000"d" D3040"d" d2001f|
"d"~def f():~    x~|D1000"d" n3040x x3041 d2001f|2:0 C0116
"d"~def _f():~    x~|D1000"d" n3040x x3041 d2001_f|
"d"~def __f__():~    x~|D1000"d" n3040x x3041 d2001__f__|
"d"~async def f():~    x~|D1000"d" n3040x x3041 q2001f|2:0 C0116
"d"~@x~def f():~    x~|D1000"d" n2010x @2001 n4040x x4041 d3002f|3:0 C0116
"d"~if x:~    def f():~        x~else:~    def g():~        x~|D1000"d" n2030x n4080x x4081 d3041f n7080x x7081 d6041g E5001 I2003|3:4 C0116; 6:4 C0116
"d"~for y in x:~    while x:~        with x:~            def f():~                x~|D1000"d" v2040y n2090x n3100x n4130x o4131 n6160x x6161 d5121f w4082 W3042 R2003|5:12 C0116
"d"~try:~    x~except x:~    def f():~        x~|D1000"d" n3040x x3041 n4070x n6080x x6081 d5041f h4002 T2002|5:4 C0116
"d"~def _f():~    def g():~        x~|D1000"d" n4080x x4081 d3041g d2001_f|
"d"~def _f():~    if x:~        def g():~            x~|D1000"d" n3070x n5120x x5121 d4081g I3042 d2001_f|
"d"~class _A:~    def f(self):~        x~|D1000"d" g3100self n4080x x4081 d3042f C2001_A|3:4 C0116
"d"~class _A(B):~    def f(self):~        x~|D1000"d" n2090B g3100self n4080x x4081 d3042f C2002_A|
"d"~class _A(object):~    def f(self):~        x~|D1000"d" n2090object g3100self n4080x x4081 d3042f C2002_A|
"d"~class _A(*B):~    def f(self):~        x~|D1000"d" n2100B *2091 g3100self n4080x x4081 d3042f C2002_A|
"d"~class _A(metaclass=B):~    def f(self):~        x~|D1000"d" n2190B j2091metaclass g3100self n4080x x4081 d3042f C2002_A|3:4 C0116
"d"~class _A(**B):~    def f(self):~        x~|D1000"d" n2110B z2091 g3100self n4080x x4081 d3042f C2002_A|3:4 C0116
"d"~class _A():~    if x:~        def f(self):~            x~|D1000"d" n3070x g4140self n5120x x5121 d4082f I3042 C2001_A|4:8 C0116
"d"~class _A:~    def __init__(self):~        x~|D1000"d" g3170self n4080x x4081 d3042__init__ C2001_A|
"d"~class _A:~    @f.setter~    def f(self):~        x~|D1000"d" n3050f a3051setter @3041 g4100self n5080x x5081 d4043f C2001_A|
"d"~class _A:~    @f.getter~    def f(self):~        x~|D1000"d" n3050f a3051getter @3041 g4100self n5080x x5081 d4043f C2001_A|4:4 C0116
"d"~class _A:~    @a.f.setter~    def f(self):~        x~|D1000"d" n3050a a3051f a3051setter @3041 g4100self n5080x x5081 d4043f C2001_A|4:4 C0116
"d"~class _A:~    @setter~    def f(self):~        x~|D1000"d" n3050setter @3041 g4100self n5080x x5081 d4043f C2001_A|4:4 C0116
"d"~class _A:~    @x~    @f.setter~    def f(self):~        x~|D1000"d" n3050x @3041 n4050f a4051setter @4041 g5100self n6080x x6081 d5044f C2001_A|
"d"~class _A:~    def _f(self):~        class _B:~            def g(self):~                x~|D1000"d" g3110self g5180self n6160x x6161 d5122g C4081_B d3042_f C2001_A|5:12 C0116"#;

#[test]
fn functions_say_what_they_do(rt: HostRuntime) -> Result<(), Fail> {
    tell(&rt, rt.alloc(), FUNCTIONS_SAY_WHAT_THEY_DO)
}
