use made_text::{made_reading, made_text};
use std::test::Fail;

#[test]
fn a_text_of_two_classes(rt: HostRuntime) -> Result<(), Fail> {
    let text = made_text(rt.alloc(), 2)?;
    let expected = r#""""Made."""


class C0:
    """Class."""

    def get(self):
        """Get."""
        return self.v0


class C1:
    """Class."""

    def get(self):
        """Get."""
        return self.v1
"#;
    assert_eq!(rt; text.as_slice(), expected.as_bytes());
    Ok(())
}

#[test]
fn the_largest_text_ends_with_its_last_class(rt: HostRuntime) -> Result<(), Fail> {
    let reading = made_reading(rt.alloc(), 20_000)?;
    let text = made_text(rt.alloc(), 20_000)?;
    assert_eq!(rt; reading.count(), 1);
    assert_eq!(rt;
        text.as_slice().iter().filter(|b| **b == b'\n').count(),
        160_001
    );
    assert!(rt; text.as_slice().ends_with(b"        return self.v0\n"));
    Ok(())
}
