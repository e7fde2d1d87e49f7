//! `json_patch`: JSON Merge Patch (RFC 7396).
use json_patch::merge;
use json_tree::{Tree, read, text};
use std::alloc::{AllocError, Global};
use std::test::Fail;

/// The table of RFC 7396, appendix A: a document, a patch and the result, and after it the example of section 3 and
/// nulls inside a list.
const EXAMPLES: &str = r#"{"a":"b"} | {"a":"c"} | {"a":"c"}
{"a":"b"} | {"b":"c"} | {"a":"b","b":"c"}
{"a":"b"} | {"a":null} | {}
{"a":"b","b":"c"} | {"a":null} | {"b":"c"}
{"a":["b"]} | {"a":"c"} | {"a":"c"}
{"a":"c"} | {"a":["b"]} | {"a":["b"]}
{"a":{"b":"c"}} | {"a":{"b":"d","c":null}} | {"a":{"b":"d"}}
{"a":[{"b":"c"}]} | {"a":[1]} | {"a":[1]}
["a","b"] | ["c","d"] | ["c","d"]
{"a":"b"} | ["c"] | ["c"]
{"a":"foo"} | null | null
{"a":"foo"} | "bar" | "bar"
{"e":null} | {"a":1} | {"a":1,"e":null}
[1,2] | {"a":"b","c":null} | {"a":"b"}
{} | {"a":{"bb":{"ccc":null}}} | {"a":{"bb":{}}}
{"title":"Goodbye!","author":{"givenName":"John","familyName":"Doe"},"tags":["example","sample"],"content":"This will be unchanged"} | {"title":"Hello!","phoneNumber":"+01-123-456-7890","author":{"familyName":null},"tags":["example"]} | {"author":{"givenName":"John"},"content":"This will be unchanged","phoneNumber":"+01-123-456-7890","tags":["example"],"title":"Hello!"}
{} | {"a":[null,{"b":null}]} | {"a":[null,{"b":null}]}"#;

fn tree_of(alloc: Global, given: &str) -> Result<Tree, AllocError> {
    read(alloc, given.as_bytes()).map_err(|_| AllocError)
}

fn merged(alloc: Global, target: &str, patch: &str) -> Result<Vec<u8>, AllocError> {
    let tree = merge(alloc, tree_of(alloc, target)?, &tree_of(alloc, patch)?)?;
    text(alloc, &tree)
}

#[test]
fn examples_of_the_rfc_merge(rt: HostRuntime) -> Result<(), Fail> {
    let alloc = rt.alloc();
    for line in EXAMPLES.lines() {
        let (target, rest) = line.split_once(" | ").unwrap_or((line, ""));
        let (patch, expected) = rest.split_once(" | ").unwrap_or((rest, ""));
        let found = merged(alloc, target, patch)?;
        assert!(rt;
            found.as_slice() == expected.as_bytes(),
            "{target} by {patch}"
        );
    }
    Ok(())
}
