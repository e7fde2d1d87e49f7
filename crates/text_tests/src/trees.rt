//! `json_tree`: trees and their texts.
use json_tree::{Tree, TreeFault, read, text};
use std::alloc::{AllocError, Global};
use std::test::Fail;

/// JSON texts (RFC 8259), each before ` => ` and the compact text of its tree, or the fault.
const TEXTS: &str = r#"null => null
true => true
nul => Syntax
"" => ""
'a' => Syntax
"\"\\\/\b\f\n\r\t" => "\"\\/\b\f\n\r\t"
"\u0041\u00e9\u20AC" => "Aé€"
"\ud83d\ude00" => "😀"
"\ude00\ud83d" => Syntax
"\x41" => Syntax
-0 => NotWhole
-1 => NotWhole
1.0 => NotWhole
1E+2 => NotWhole
1e400 => Syntax
01 => Syntax
.5 => Syntax
NaN => Syntax
18446744073709551615 => 18446744073709551615
18446744073709551616 => NotWhole
[1,"a",null,[true]] => [1,"a",null,[true]]
["exactly twenty-four byte","one more than twenty-four"] => ["exactly twenty-four byte","one more than twenty-four"]
[1,] => Syntax
[1.5,nul] => Syntax
[1,[2,[-3]]] => NotWhole
{"a":{"c":1,"b":[{}]},"":3} => {"":3,"a":{"b":[{}],"c":1}}
{"a":1,"b":3,"\u0061":2} => {"a":2,"b":3}
{"a":[-1],"b":0,"a":2} => {"a":2,"b":0}
{"a":2,"a":1.5} => NotWhole
{"a":1,} => Syntax
{a:1} => Syntax
  { "a" : [ 1 , true ] }   => {"a":[1,true]}
1 2 => Syntax
1/**/ => Syntax"#;

/// The compact text of the tree that the bytes stand for, or the fault.
fn outcome(alloc: Global, bytes: &[u8]) -> Result<String, AllocError> {
    match read(alloc, bytes) {
        Ok(tree) => printed(alloc, &tree),
        Err(TreeFault::Memory) => Err(AllocError),
        Err(fault) => format!(in alloc; "{fault:?}"),
    }
}

fn printed(alloc: Global, tree: &Tree) -> Result<String, AllocError> {
    String::from_utf8(text(alloc, tree)?).map_err(|_| AllocError)
}

#[test]
fn texts_read_as_their_values(rt: HostRuntime) -> Result<(), Fail> {
    let alloc = rt.alloc();
    for line in TEXTS.lines() {
        let (given, expected) = line.split_once(" => ").unwrap_or((line, ""));
        let found = outcome(alloc, given.as_bytes())?;
        assert!(rt; found.as_str() == expected, "{given} gave {found}");
    }
    Ok(())
}

/// Whether the bytes are refused as no JSON text.
fn is_refused(alloc: Global, bytes: &[u8]) -> Result<bool, AllocError> {
    Ok(outcome(alloc, bytes)?.as_str() == "Syntax")
}

/// So many arrays, one inside the other.
fn nested(alloc: Global, depth: usize) -> Result<String, AllocError> {
    let mut nested = String::new(alloc);
    for _ in 0..depth {
        nested.push('[')?;
    }
    for _ in 0..depth {
        nested.push(']')?;
    }
    Ok(nested)
}

#[test]
fn texts_nest_to_127(rt: HostRuntime) -> Result<(), Fail> {
    let alloc = rt.alloc();
    let deepest = nested(alloc, 127)?;
    let found = outcome(alloc, deepest.as_bytes())?;
    assert!(rt; found.as_str() == deepest.as_str(), "127 deep gave {found}");
    let deeper = nested(alloc, 128)?;
    assert!(rt; is_refused(alloc, deeper.as_bytes())?, "128 deep");
    Ok(())
}

/// Compiles only if the value may be shared between threads.
fn shareable<T: Send + Sync>(_value: &T) {}

#[test]
fn texts_are_escaped(rt: HostRuntime) -> Result<(), Fail> {
    let alloc = rt.alloc();
    let tree = Tree::text(alloc, "/ \" \\ \u{8}\u{c}\n\r\t \0\u{1f} \u{7f} é\u{2028}😀")?;
    let expected = "\"/ \\\" \\\\ \\b\\f\\n\\r\\t \\u0000\\u001f \u{7f} é\u{2028}😀\"";
    assert_eq!(rt; printed(alloc, &tree)?.as_str(), expected);
    shareable(&tree);
    Ok(())
}
