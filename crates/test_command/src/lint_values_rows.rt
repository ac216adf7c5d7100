use lint_values::{Bytes, Text, Texts};
use std::test::Fail;

#[test]
fn texts_are_ordered_by_their_bytes(rt: HostRuntime) -> Result<(), Fail> {
    let alloc = rt.alloc();
    let rows = [
        ("", "a", true),
        ("a", "a", false),
        ("Z", "a", true),
        ("ab", "b", true),
        ("\u{7f}", "\u{80}", true),
    ];
    for (first, second, is_below) in rows {
        let first = Text::from_str(alloc, first)?;
        let second = Text::from_str(alloc, second)?;
        assert_eq!(rt; first < second, is_below);
        assert_eq!(rt; first == second, !is_below);
    }
    Ok(())
}

#[test]
fn what_is_taken_over_is_given_back(rt: HostRuntime) -> Result<(), Fail> {
    let alloc = rt.alloc();
    let mut texts = Texts::new(alloc);
    texts.push(Text::from_string(String::from_str(alloc, "x")?))?;
    let texts = Texts::from_vec(texts.into_vec());
    assert_eq!(rt; texts.as_slice().len(), 1);
    let bytes = Bytes::from_vec(Bytes::from_slice(alloc, b"ab")?.into_vec());
    assert_eq!(rt; bytes.as_slice(), b"ab".as_slice());
    assert_eq!(rt; Bytes::new(alloc).as_slice(), b"".as_slice());
    assert_eq!(rt; Text::from_str(alloc, "y")?.into_string().as_str(), "y");
    Ok(())
}

// What may be lent to a thread and handed to one.
fn crosses_threads<T: Send + Sync>(_value: &T) {}

#[test]
fn values_cross_threads(rt: HostRuntime) -> Result<(), Fail> {
    let alloc = rt.alloc();
    crosses_threads(&Text::from_str(alloc, "x")?);
    crosses_threads(&Texts::new(alloc));
    crosses_threads(&Bytes::new(alloc));
    Ok(())
}
