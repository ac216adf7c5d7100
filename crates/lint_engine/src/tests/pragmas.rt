// Pragmas switch messages on and off, and have files skipped.
use super::report_rows;
use std::test::Fail;

const PRAGMAS: &str =
    r#"a.py|"""Doc."""~def f():  # pylint: disable=missing-function-docstring~    print()~    pass~~~def g():~    pass~|************* Module a~a.py:4:4: W0107: Unnecessary pass statement (unnecessary-pass)~a.py:7:0: C0116: Missing function or method docstring (missing-function-docstring)~|6.00|20
a.py|"""Doc."""~X = 1  # pylint: disable=Bad_Name~|************* Module a~a.py:2:0: W0012: Unknown option value for 'disable', got 'Bad_Name' (unknown-option-value)~|0.00|4
a.py|"""Doc."""~X = 1  # pylint: disable=Bad_Name,unknown-option-value~||10.00|0
a.py|# pylint: disable=all~X = 1 ~||10.00|0
a.py|"""Doc."""~X = 1 ~# pylint: disable=trailing-whitespace~Y = 2 ~# pylint: enable=C~Z = 3 ~|************* Module a~a.py:2:5: C0303: Trailing whitespace (trailing-whitespace)~a.py:6:5: C0303: Trailing whitespace (trailing-whitespace)~|3.33|16
a.py|"""Doc."""~# pylint: disable-next=C0303 ~X = 1 ~|************* Module a~a.py:2:28: C0303: Trailing whitespace (trailing-whitespace)~|0.00|16
--disable=C0303 a.py|"""Doc."""~X = 1 ~Y = 2 # pylint: enable=C0303 ~|************* Module a~a.py:3:28: C0303: Trailing whitespace (trailing-whitespace)~|5.00|16
-E a.py|"""Doc."""~Y = 2 # pylint: enable=C0303 ~|||0
a.py|# pylint: skip-file~X = 1 ~|||0
a.py|# pylint: skip-file~X = = 1 ~|||0
a.py|# pylint: disable=all~X = = 1~|************* Module a~a.py:2:0: E0001: Parsing failed: 'invalid syntax (line 2)' (syntax-error)~||2
a.py|# pylint: skip-file~X = (~|************* Module a~a.py:2:4: E0001: Parsing failed: 'bracket is not closed (line 2)' (syntax-error)~||2"#;

#[test]
fn pragmas_switch_messages(rt: HostRuntime) -> Result<(), Fail> {
    report_rows(&rt, rt.alloc(), PRAGMAS)
}
