// Each call of the files that fails is an entry.
use super::{found, held};
use lint_outside::{Calls, FailingFiles};
use std::test::Fail;

// A package of four files of which one call fails, the first, the second and so on up to none: what is found.
const FAILS: &str = "p=p!
p=p/
p=p!
p/__init__.py=p* p/a.py=p/a.py! p/b.py=p.b p/c.py=p.c
p/__init__.py=p* p/a.py=p.a p/b.py=p/b.py! p/c.py=p.c
p/__init__.py=p* p/a.py=p.a p/b.py=p.b p/c.py=p/c.py!
p/__init__.py=p*! p/a.py=p.a p/b.py=p.b p/c.py=p.c
p/__init__.py=p* p/a.py=p.a! p/b.py=p.b p/c.py=p.c
p/__init__.py=p* p/a.py=p.a p/b.py=p.b! p/c.py=p.c
p/__init__.py=p* p/a.py=p.a p/b.py=p.b p/c.py=p.c!
p/__init__.py=p* p/a.py=p.a p/b.py=p.b p/c.py=p.c";

#[test]
fn a_failing_call_is_an_entry(rt: HostRuntime) -> Result<(), Fail> {
    let alloc = rt.alloc();
    let mut call: u32 = 0;
    for expected in FAILS.split('\n') {
        call = call.saturating_add(1);
        let mut fail = Calls::new(alloc);
        fail.add(call)?;
        let inner = held(alloc, "p/ p/__init__.py p/a.py p/b.py p/c.py")?;
        let mut files = FailingFiles::new(inner, fail);
        let given = found(alloc, &mut files, "p")?;
        assert_eq!(rt; given.as_str().trim(), expected);
        let failures = if call <= 10 { 1 } else { 0 };
        assert_eq!(rt; files.failed().len(), failures);
    }
    Ok(())
}
