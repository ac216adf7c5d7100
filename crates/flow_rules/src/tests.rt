// The rules, over small trees.
use crate::check_flow;
use crate::codes::code_of;
use crate::rule::Rule;
use lint_messages::Messages;
use lint_values::{FileId, NodeId, Pos};
use options::{Edits, Options};
use std::alloc::Global;
use std::process::Abort;
use std::test::Fail;
use tree_nodes::{Kind, Tree, TreeBuilder};

// The messages of a tree, with the defaults of all options.
fn told(alloc: Global, tree: &Tree) -> Result<Messages, Fail> {
    let none = Edits::new(alloc);
    let options = Options::of(alloc, &none, &none)?;
    Ok(check_flow(alloc, FileId(0), tree, &options)?)
}

// There is one message: of this rule, of this node, with these arguments, joined by blanks.
fn is_told(
    rt: &impl Abort,
    alloc: Global,
    tree: &Tree,
    rule: Rule,
    node: u32,
    args: &str,
) -> Result<(), Fail> {
    let found = told(alloc, tree)?;
    assert_eq!(rt; found.as_slice().len(), 1);
    for message in found.as_slice() {
        assert_eq!(rt; message.code, code_of(rule));
        assert_eq!(rt; message.node, Some(NodeId(node)));
        let mut text = String::new(alloc);
        for arg in message.args.as_slice() {
            text.push_str(arg.as_str())?;
            text.push_str(" ")?;
        }
        assert_eq!(rt; text.as_str(), args);
    }
    Ok(())
}

const AT: Pos = Pos { line: 3, col: 0 };

#[test]
fn what_stands_behind_return_is_told(rt: HostRuntime) -> Result<(), Fail> {
    let alloc = rt.alloc();
    let mut builder = TreeBuilder::new(alloc);
    let jump = builder.push(Kind::Return, AT, 3, None, &[])?;
    let behind = builder.push(Kind::Pass, AT, 3, None, &[])?;
    let function = builder.push(Kind::FunctionDef, AT, 3, Some("f"), &[jump, behind])?;
    let root = builder.push(Kind::Module, AT, 3, None, &[function])?;
    let tree = builder.finish(root)?;
    is_told(&rt, alloc, &tree, Rule::Unreachable, 3, "")
}

#[test]
fn a_second_function_of_a_name_is_told(rt: HostRuntime) -> Result<(), Fail> {
    let alloc = rt.alloc();
    let mut builder = TreeBuilder::new(alloc);
    let body = builder.push(Kind::Pass, AT, 3, None, &[])?;
    let first = builder.push(Kind::FunctionDef, AT, 3, Some("f"), &[body])?;
    let second = builder.push(Kind::AsyncFunctionDef, AT, 3, Some("f"), &[body])?;
    let class = builder.push(Kind::ClassDef, AT, 3, Some("A"), &[first, second])?;
    let root = builder.push(Kind::Module, AT, 3, None, &[class])?;
    let tree = builder.finish(root)?;
    is_told(&rt, alloc, &tree, Rule::FunctionRedefined, 4, "method 3 ")
}

#[test]
fn a_sixth_parameter_is_told(rt: HostRuntime) -> Result<(), Fail> {
    let alloc = rt.alloc();
    let mut builder = TreeBuilder::new(alloc);
    let one = builder.push(Kind::Parameter, AT, 3, Some("a"), &[])?;
    let rest = builder.push(Kind::StarParameter, AT, 3, Some("b"), &[])?;
    let key = builder.push(Kind::KeywordOnlyParameter, AT, 3, Some("c"), &[])?;
    let hidden = builder.push(Kind::KeywordOnlyParameter, AT, 3, Some("_d"), &[])?;
    let body = builder.push(Kind::Pass, AT, 3, None, &[])?;
    let kids = [one, one, one, one, rest, key, key, hidden, body];
    let function = builder.push(Kind::FunctionDef, AT, 3, Some("f"), &kids)?;
    let root = builder.push(Kind::Module, AT, 3, None, &[function])?;
    let tree = builder.finish(root)?;
    is_told(&rt, alloc, &tree, Rule::TooManyArguments, 1, "6 5 ")
}
