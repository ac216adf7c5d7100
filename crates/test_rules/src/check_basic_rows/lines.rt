// The rules on the statements of a line and of a block.
use super::tell;
use std::test::Fail;

const A_LINE_HAS_ONE_STATEMENT: &str = r#""d"~x~y~|D1000"d" n2000x x2001 n3000y x3001|
"d"~x; y~|D1000"d" n2000x x2001 n2030y x2031|2:3 C0321
"d"~x; y; z~|D1000"d" n2000x x2001 n2030y x2031 n2060z x2061|2:3 C0321
"d"; x~|D1000"d" n1050x x1051|
"d"; x; y~|D1000"d" n1050x x1051 n1080y x1081|1:8 C0321
"d"~if x: y~|D1000"d" n2030x n2060y x2061 I2002|2:6 C0321
"d"~if x: y; z~|D1000"d" n2030x n2060y x2061 n2090z x2091 I2003|2:6 C0321
"d"~if x: ...~|D1000"d" n2030x e2060 x2061 I2002|
"d"~if x: ...; y~|D1000"d" n2030x e2060 x2061 n2110y x2111 I2003|2:6 C0321
"d"~x; ...~|D1000"d" n2000x x2001 e2030 x2031|2:3 C0321
"d"~if x:~    y~elif z: y~else: y~|D1000"d" n2030x n3040y x3041 n4050z n4080y x4081 L4002 n5060y x5061 E5001 I2004|4:8 C0321; 5:6 C0321
"d"~if x:~    y~else: ...~|D1000"d" n2030x n3040y x3041 e4060 x4061 E4001 I2003|
"d"~try: x~except y: z~finally: x~|D1000"d" n2050x x2051 n3070y n3100z x3101 h3002 n4090x x4091 y4001 T2003|2:5 C0321; 3:10 C0321; 4:9 C0321
"d"~while x: y~|D1000"d" n2060x n2090y x2091 W2002|2:9 C0321
"d"~for x in y: z~|D1000"d" v2040x n2090y n2120z x2121 R2003|2:12 C0321
"d"~with x: y~|D1000"d" n2050x o2051 n2080y x2081 w2002|2:8 C0321
"d"~class _A: ...~|D1000"d" e2100 x2101 C2001_A|
"d"~def _f(): return~|D1000"d" r2100 d2001_f|2:10 C0321
"d"~def f(): "d"~|D1000"d" D2090"d" d2001f|
"d"~def f(): "d"; x~|D1000"d" D2090"d" n2140x x2141 d2002f|2:14 C0321
"d"~def f(): "d"; ...~|D1000"d" D2090"d" e2140 x2141 d2002f|
"d"~x = (1,~  2); y~|D1000"d" v2000x u20501 u30202 t2042 =2002 n3060y x3061|3:6 C0321
"d"~x; \~y~|D1000"d" n2000x x2001 n3000y x3001|3:0 C0321
"d"~x \~  + y~z~|D1000"d" n2000x +3020 n3040y S2003 x2001 n4000z x4001|
"d"~if x:~    y; z~x~|D1000"d" n2030x n3040y x3041 n3070z x3071 I2003 n4000x x4001|3:7 C0321
"d"~match x:~    case 1: y~|D1000"d" n2060x u30901 k3091 n3120y x3121 K3042 M2002|3:12 C0321
"d"~match x:~    case 1: ...~|D1000"d" n2060x u30901 k3091 e3120 x3121 K3042 M2002|
"d"~if x: (...)~|D1000"d" n2030x e2070 x2061 I2002|
"d"~if x: 1~|D1000"d" n2030x u20601 x2061 I2002|2:6 C0321"#;

#[test]
fn a_line_has_one_statement(rt: HostRuntime) -> Result<(), Fail> {
    tell(&rt, rt.alloc(), A_LINE_HAS_ONE_STATEMENT)
}

const AN_IMPORT_NAMES_ONE_MODULE: &str = r#""d"~import a~|D1000"d" l2070a i2001|
"d"~import a, b~|D1000"d" l2070a l2100b i2002|2:0 C0410 a, b
"d"~import a.b.c, d as e, f~|D1000"d" l2070a.b.c c2160e l2141d l2220f i2003|2:0 C0410 a.b.c, d, f
"d"~from a import b, c~|D1000"d" l2140b l2170c m2002a|
"d"~from a import (b,~  c)~|D1000"d" l2150b l3020c m2002a|
"d"~import a as b~|D1000"d" c2090b l2071a i2001|
"d"~if x:~    import a, a~|D1000"d" n2030x l3110a l3140a i3042 I2002|3:4 C0410 a, a"#;

#[test]
fn an_import_names_one_module(rt: HostRuntime) -> Result<(), Fail> {
    tell(&rt, rt.alloc(), AN_IMPORT_NAMES_ONE_MODULE)
}

const A_PASS_STANDS_ALONE: &str = r#""d"~if x:~    pass~|D1000"d" n2030x p3040 I2002|
"d"~if x:~    pass~    y~|D1000"d" n2030x p3040 n4040y x4041 I2003|3:4 W0107
"d"~if x:~    y~    pass~|D1000"d" n2030x n3040y x3041 p4040 I2003|4:4 W0107
"d"~def f():~    "d"~    pass~|D1000"d" D3040"d" p4040 d2002f|4:4 W0107
"d"~class A:~    "d"~    pass~|D1000"d" D3040"d" p4040 C2002A|4:4 W0107
"d"~pass~|D1000"d" p2000|2:0 W0107
pass~|p1000|1:0 C0114
pass~pass~|p1000 p2000|1:0 C0114; 1:0 W0107; 2:0 W0107
"d"~if x:~    pass~else:~    pass~|D1000"d" n2030x p3040 p5040 E4001 I2003|
"d"~if x:~    pass~elif y:~    pass~    pass~|D1000"d" n2030x p3040 n4050y p5040 p6040 L4003 I2003|5:4 W0107; 6:4 W0107
"d"~try:~    pass~except x:~    pass~else:~    pass~finally:~    pass~|D1000"d" p3040 n4070x p5040 h4002 p7040 E6001 p9040 y8001 T2004|
"d"~try:~    pass~except x:~    y~    pass~|D1000"d" p3040 n4070x n5040y x5041 p6040 h4003 T2002|6:4 W0107
"d"~if x: pass~|D1000"d" n2030x p2060 I2002|2:6 C0321
"d"~class _A:~    if x:~        pass~    y~|D1000"d" n3070x p4080 I3042 n5040y x5041 C2002_A|"#;

#[test]
fn a_pass_stands_alone(rt: HostRuntime) -> Result<(), Fail> {
    tell(&rt, rt.alloc(), A_PASS_STANDS_ALONE)
}

const NO_SEMICOLON_ENDS_A_LINE: &str = r#""d"~x;~|D1000"d" n2000x x2001|2:0 W0301
"d"~x; y~|D1000"d" n2000x x2001 n2030y x2031|2:3 C0321
"d"~x; y;~|D1000"d" n2000x x2001 n2030y x2031|2:0 W0301; 2:3 C0321
"d"~if x:~    y;~|D1000"d" n2030x n3040y x3041 I2002|3:0 W0301
"d"~x = (1,~  2);~|D1000"d" v2000x u20501 u30202 t2042 =2002|3:0 W0301
"d"~x = ";"~|D1000"d" v2000x s2040";" =2002|
"d";~|D1000"d"|1:0 W0301
"d"~x;  # ;~|D1000"d" n2000x x2001|2:0 W0301
"d"~x  # ;~|D1000"d" n2000x x2001|
"d"~if x: y;~|D1000"d" n2030x n2060y x2061 I2002|2:0 W0301; 2:6 C0321
"d"~x;|D1000"d" n2000x x2001|2:0 W0301"#;

#[test]
fn no_semicolon_ends_a_line(rt: HostRuntime) -> Result<(), Fail> {
    tell(&rt, rt.alloc(), NO_SEMICOLON_ENDS_A_LINE)
}
