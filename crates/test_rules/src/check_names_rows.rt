use check_names::check;
use file_list::Reading;
use lint_messages::Code;
use lint_values::{FileId, NodeId, Pos};
use options::{Edits, Options};
use scope_bind::Scopes;
use std::test::Fail;
use tree_nodes::{Kind, TreeBuilder};

#[test]
fn a_name_that_leads_nowhere_is_told(rt: HostRuntime) -> Result<(), Fail> {
    let alloc = rt.alloc();
    let pos = Pos { line: 1, col: 0 };
    let mut builder = TreeBuilder::new(alloc);
    let name = builder.push(Kind::Name, pos, 1, Some("x"), &[])?;
    let statement = builder.push(Kind::ExpressionStatement, pos, 1, None, &[name])?;
    let root = builder.push(Kind::Module, pos, 1, None, &[statement])?;
    let tree = builder.finish(root)?;
    let scopes = Scopes::build(alloc, &tree)?;
    let options = Options::of(alloc, &Edits::new(alloc), &Edits::new(alloc))?;
    let reading = Reading::new(alloc);
    let found = check(alloc, FileId(0), &reading, &tree, &scopes, &options)?;
    assert_eq!(rt; found.as_slice().len(), 1);
    for message in found.as_slice() {
        assert_eq!(rt; message.code, Code::UndefinedVariable);
        assert_eq!(rt; message.node, Some(NodeId(2)));
        assert_eq!(rt; message.args.as_slice().len(), 1);
    }
    Ok(())
}
