//! `edit_forms`: bodies as a whole, what they are read as or their first fault.
use alto_edits::Edit;
use edit_forms::{FormFault, read_csv, read_json};
use std::alloc::{AllocError, Global};
use std::test::Fail;

/// Bodies of CSV behind what each is read as: how many edits, or the fault. In them `~` stands for a line feed, `^` for
/// the byte order mark and `!` for a byte that UTF-8 never has.
const CSV: &str = r#"Empty |
Empty | ^
Empty | op,net,a,b,c,d~
Empty | ^op,net,a,b,c,d~
1 | net-add,metro,,,,
1 | ^net-add,metro,,,,~
1 | ^op,net,a,b,c,d~net-add,metro,,,,~
2 | net-add,metro,,,,~pid-add,metro,east,,,~
1 | "net-add","metro",,,,~
1 | prop-put,metro,ipv4:192.0.2.0/24,color,t,"a ""b"", c"~
BadColumn(1, 1) | op,net,a,b,c,d~op,net,a,b,c,d~
BadColumn(1, 1) | OP,net,a,b,c,d~net-add,metro,,,,~
BadColumn(1, 1) | op,net,a,b,c,d ~net-add,metro,,,,~
BadRecord(1) | op,net,a,b,c~net-add,metro,,,,~
BadColumn(2, 1) | net-add,metro,,,,~op,net,a,b,c,d~
BadColumn(2, 1) | net-add,metro,,,,~^net-add,metro,,,,~
BadRecord(1) | net-add~
BadRecord(1) | net-add,metro,,,~
BadRecord(1) | net-add,metro,,,,,~
BadRecord(1) | op,net,a,b,c,d~net-add,metro,,,~
BadRecord(2) | net-add,metro,,,,~net-add,metro,,,~
BadColumn(1, 2) | net-add,me tro,,,,~net-add,metro,,,~
BadRecord(1) | net-add,me tro,,,~net-put,metro,,,,~
BadColumn(1, 1) |  net-add,metro,,,,~
BadColumn(1, 1) | Net-add,metro,,,,~
BadColumn(1, 1) | ,metro,,,,~
BadColumn(1, 2) | net-add,metro ,,,,~
BadColumn(1, 2) | net-add,,,,,~
BadColumn(1, 5) | net-add,metro,,, ,~
BadColumn(1, 2) | net-add,me!tro,,,,~
BadColumn(1, 1) | net-add!,me!tro,,,,~
BadColumn(1, 3) | net-add,metro,!,,,~
BadColumn(1, 6) | prop-put,metro,ipv4:192.0.2.0/24,color,t,a!~
BadColumn(1, 6) | prop-put,metro,ipv4:192.0.2.0/24,color,t,"a~b"~"#;

/// The same of bodies of JSON.
const JSON: &str = r#"Syntax |
Syntax | {}
Syntax | []
Syntax | [["net-add","metro"]]
Syntax | {"edits":{}}
Syntax | {"edits":null}
Syntax | {"edits":"net-add"}
Syntax | {"edits":[["net-add","metro"]]} x
Syntax | {"edits":[["net-add","metro"]],"n":1.5}
Syntax | {"edits":[["net-add","me!tro"]]}
Empty | {"edits":[]}
1 | {"edits":[["net-add","metro"]]}
1 | {"edits":[["net-add","metro","","","",""]]}
1 | {"note":[1,{}],"edits":[["net-add","metro"]]}
2 | {"edits":[["net-add","metro"],["pid-add","metro","east"]]}
BadRecord(1) | {"edits":[[]]}
BadRecord(1) | {"edits":[["net-add"]]}
BadRecord(1) | {"edits":[["net-add","metro","","","","",""]]}
BadRecord(1) | {"edits":["net-add,metro,,,,"]}
BadRecord(1) | {"edits":[["net-add",7]]}
BadRecord(1) | {"edits":[["net-add","metro",null]]}
BadRecord(2) | {"edits":[["net-add","metro"],{}]}
BadColumn(1, 1) | {"edits":[["op","net","a","b","c","d"],["net-add","metro"]]}
BadColumn(1, 3) | {"edits":[["pid-add","metro"],[]]}
BadColumn(2, 3) | {"edits":[["net-add","metro"],["pid-add","metro","ea.st"]]}
BadColumn(1, 2) | {"edits":[["net-add"," metro"]]}"#;

/// The bytes that a line stands for.
fn bytes_of(alloc: Global, line: &str) -> Result<Vec<u8>, AllocError> {
    let text = line.replace(alloc, "^", "\u{feff}")?;
    let mut bytes = text.as_bytes().to_vec(alloc)?;
    for byte in bytes.iter_mut() {
        *byte = byte_of(*byte);
    }
    Ok(bytes)
}

fn byte_of(byte: u8) -> u8 {
    match byte {
        b'~' => b'\n',
        b'!' => 0xff,
        _ => byte,
    }
}

/// How many edits a body is read as, or the fault.
fn outcome(alloc: Global, read: Result<Vec<Edit>, FormFault>) -> Result<String, AllocError> {
    match read {
        Ok(edits) => format!(in alloc; "{}", edits.len()),
        Err(fault) => format!(in alloc; "{fault:?}"),
    }
}

#[test]
fn bodies_are_read_whole_or_refused_by_their_first_fault(rt: HostRuntime) -> Result<(), Fail> {
    let alloc = rt.alloc();
    for line in CSV.lines() {
        let (expected, body) = line.split_once(" |").unwrap_or((line, ""));
        let body = bytes_of(alloc, body.get(1..).unwrap_or(""))?;
        let found = outcome(alloc, read_csv(alloc, &body))?;
        assert_eq!(rt; found.as_str(), expected, "{line}");
    }
    for line in JSON.lines() {
        let (expected, body) = line.split_once(" |").unwrap_or((line, ""));
        let body = bytes_of(alloc, body.get(1..).unwrap_or(""))?;
        let found = outcome(alloc, read_json(alloc, &body))?;
        assert_eq!(rt; found.as_str(), expected, "{line}");
    }
    Ok(())
}
