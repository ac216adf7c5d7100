// Names and their forms.
use py_normal_form::normal_form;
use std::alloc::Global;
use std::test::Fail;

/// The form of a name, and the name itself where it is its own form.
fn form(alloc: Global, name: &str) -> Result<String, Fail> {
    match normal_form(alloc, name)? {
        None => Ok(String::from_str(alloc, name)?),
        Some(text) => Ok(text.into_string()),
    }
}

#[test]
fn forms(rt: HostRuntime) -> Result<(), Fail> {
    let rows = [
        ("spam_1", "spam_1"),
        ("é", "é"),
        ("e\u{301}", "é"),
        ("ﬁn", "fin"),
        ("ℌ", "H"),
        ("𝐱𝟏", "x1"),
        ("ｉｆ", "if"),
        ("\u{2126}", "\u{3a9}"),
    ];
    for (name, expected) in rows {
        assert_eq!(rt; form(rt.alloc(), name)?.as_str(), expected);
    }
    Ok(())
}
