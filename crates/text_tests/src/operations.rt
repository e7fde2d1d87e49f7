//! `json_patch`: JSON Patch (RFC 6902).
use json_patch::{OpsFault, PatchFault, apply, ops_tree, read_ops};
use json_tree::{Tree, read, text};
use std::alloc::{AllocError, Global};
use std::test::Fail;

/// Examples of RFC 6902, appendix A, and others: a document, operations, and the result or the fault.
const EXAMPLES: &str =
    r#"{"foo":"bar"} | [{"op":"add","path":"/baz","value":"qux"}] | {"baz":"qux","foo":"bar"}
{"baz":"qux","foo":"bar"} | [{"op":"remove","path":"/baz"}] | {"foo":"bar"}
{"baz":"qux","foo":"bar"} | [{"op":"replace","path":"/baz","value":"boo"}] | {"baz":"boo","foo":"bar"}
{"foo":"bar"} | [{"op":"add","path":"/child","value":{"grandchild":{}}}] | {"child":{"grandchild":{}},"foo":"bar"}
{"foo":"bar"} | [{"op":"add","path":"/baz","value":"qux","xyz":123}] | {"baz":"qux","foo":"bar"}
{"foo":"bar"} | [{"op":"add","path":"/baz/bat","value":"qux"}] | NoParent(0)
{"a~/b":{"c":1}} | [{"op":"replace","path":"/a~0~1b/c","value":null}] | {"a~/b":{"c":null}}
{"a":{}} | [] | {"a":{}}
{"a":{}} | [{"op":"add","path":"/a/b","value":1},{"op":"replace","path":"/a/b","value":2}] | {"a":{"b":2}}
{"a":{}} | [{"op":"add","path":"/a/b","value":1},{"op":"remove","path":"/b"}] | NoTarget(1)
{"a":[1]} | [{"op":"remove","path":"/a/0"}] | NoTarget(0)
{"a":1} | [{"op":"add","path":"","value":2}] | 2
{"a":1} | [{"op":"replace","path":"","value":3}] | 3
{"a":1} | [{"op":"remove","path":""}] | NoTarget(0)
1 | {} | BadOp(0)
1 | [{"op":"remove","path":""},{"op":"test","path":"","value":1}] | BadOp(1)
1 | [{"op":"add","path":"/a"}] | BadOp(0)
1 | [{"op":"remove","path":"/a~2"}] | BadOp(0)"#;

fn tree_of(alloc: Global, given: &str) -> Result<Tree, AllocError> {
    read(alloc, given.as_bytes()).map_err(|_| AllocError)
}

fn printed(alloc: Global, tree: &Tree) -> Result<String, AllocError> {
    String::from_utf8(text(alloc, tree)?).map_err(|_| AllocError)
}

/// The text of what the operations make of the target, or the fault.
fn outcome(alloc: Global, target: &str, operations: &str) -> Result<String, AllocError> {
    let ops = match read_ops(alloc, &tree_of(alloc, operations)?) {
        Ok(ops) => ops,
        Err(OpsFault::Memory) => return Err(AllocError),
        Err(fault) => return format!(in alloc; "{fault:?}"),
    };
    match apply(tree_of(alloc, target)?, ops.as_slice()) {
        Ok(tree) => printed(alloc, &tree),
        Err(PatchFault::Memory) => Err(AllocError),
        Err(fault) => format!(in alloc; "{fault:?}"),
    }
}

#[test]
fn operations_are_applied(rt: HostRuntime) -> Result<(), Fail> {
    let alloc = rt.alloc();
    for line in EXAMPLES.lines() {
        let (target, rest) = line.split_once(" | ").unwrap_or((line, ""));
        let (operations, expected) = rest.split_once(" | ").unwrap_or((rest, ""));
        let found = outcome(alloc, target, operations)?;
        assert!(rt;
            found.as_str() == expected,
            "{operations} on {target} gave {found}"
        );
    }
    Ok(())
}

#[test]
fn operations_are_written_as_they_are_read(rt: HostRuntime) -> Result<(), Fail> {
    let alloc = rt.alloc();
    let given =
        r#"[{"op":"add","path":"/a~1b","value":{"c":[]}},{"op":"remove","path":""},{"op":"replace","path":"/~0","value":1}]"#;
    let ops = read_ops(alloc, &tree_of(alloc, given)?).map_err(|_| AllocError)?;
    let found = printed(alloc, &ops_tree(alloc, ops.as_slice())?)?;
    assert!(rt; found.as_str() == given, "it became {found}");
    Ok(())
}
