//! `alto_asks`.
use alto_asks::{AskFault, optional_text, read_ask, required_text};
use json_tree::Name;
use std::alloc::{AllocError, Global};
use std::test::Fail;

/// Request bodies, each with what is found where it must have a text at `a`: the text in brackets, or the fault.
const REQUIRED: &str = r#" => Bad { code: Syntax, field: None, value: None }
{ => Bad { code: Syntax, field: None, value: None }
["a"] => Bad { code: Syntax, field: None, value: None }
"a" => Bad { code: Syntax, field: None, value: None }
null => Bad { code: Syntax, field: None, value: None }
{"a":"x","b":-1} => Bad { code: Syntax, field: None, value: None }
{} => Bad { code: MissingField, field: Some("a"), value: None }
{"A":"x"} => Bad { code: MissingField, field: Some("a"), value: None }
{"a":null} => Bad { code: InvalidFieldType, field: Some("a"), value: None }
{"a":7} => Bad { code: InvalidFieldType, field: Some("a"), value: None }
{"a":["x"]} => Bad { code: InvalidFieldType, field: Some("a"), value: None }
{"a":""} => []
 {"a" : "x"}  => [x]
{"a":7,"a":"x"} => [x]"#;

/// The same where it may have a text at `a`, which is `nothing` where it has none.
const OPTIONAL: &str = r#"{ => Bad { code: Syntax, field: None, value: None }
{} => [nothing]
{"A":"x"} => [nothing]
{"a":null} => Bad { code: InvalidFieldType, field: Some("a"), value: None }
{"a":7} => Bad { code: InvalidFieldType, field: Some("a"), value: None }
{"a":""} => []
{"a":7,"a":"x"} => [x]"#;

/// The text that a body must have at `a`.
fn required_at_a(alloc: Global, body: &str) -> Result<Name, AskFault> {
    let ask = read_ask(alloc, body.as_bytes())?;
    let text = required_text(alloc, &ask, "a")?;
    Ok(Name::from_str(alloc, text)?)
}

/// The text that a body may have at `a`.
fn optional_at_a(alloc: Global, body: &str) -> Result<Name, AskFault> {
    let ask = read_ask(alloc, body.as_bytes())?;
    let text = optional_text(alloc, &ask, "a")?.unwrap_or("nothing");
    Ok(Name::from_str(alloc, text)?)
}

/// What came out, as the tables have it.
fn outcome(alloc: Global, found: Result<Name, AskFault>) -> Result<String, AllocError> {
    match found {
        Ok(text) => format!(in alloc; "[{}]", text.as_str()),
        Err(fault) => format!(in alloc; "{fault:?}"),
    }
}

#[test]
fn request_bodies_are_objects_of_texts(rt: HostRuntime) -> Result<(), Fail> {
    let alloc = rt.alloc();
    for line in REQUIRED.lines() {
        let (body, expected) = line.split_once(" => ").unwrap_or((line, ""));
        let found = outcome(alloc, required_at_a(alloc, body))?;
        assert_eq!(rt; found.as_str(), expected, "{body}");
    }
    for line in OPTIONAL.lines() {
        let (body, expected) = line.split_once(" => ").unwrap_or((line, ""));
        let found = outcome(alloc, optional_at_a(alloc, body))?;
        assert_eq!(rt; found.as_str(), expected, "{body}");
    }
    Ok(())
}
