//! `json_tree`: pointers.
use json_tree::{Name, PointerFault, print_pointer, read_pointer};
use std::alloc::{AllocError, Global};
use std::test::Fail;

/// The pointers of RFC 6901, section 5, and others, each before ` => ` and its names in brackets, or the fault.
const POINTERS: &str = r#"/foo => [foo]
/foo/0 => [foo][0]
/ => []
/a~1b => [a/b]
/c%d => [c%d]
/i\j => [i\j]
/k"l => [k"l]
/m~0n => [m~n]
/~01 => [~1]
/~10/~0~1/ => [/0][~/][]
a/b => BadAt(0)
/a~ => BadAt(3)
/a~/b => BadAt(3)
/a/é~2 => BadAt(6)
~0 => BadAt(0)"#;

fn in_brackets(alloc: Global, names: &[Name]) -> Result<String, AllocError> {
    let mut text = String::new(alloc);
    for name in names {
        text.push('[')?;
        text.push_str(name.as_str())?;
        text.push(']')?;
    }
    Ok(text)
}

/// The names of the pointer, which prints as itself again, or the fault.
fn outcome(alloc: Global, given: &str) -> Result<String, AllocError> {
    match read_pointer(alloc, given) {
        Ok(names) => {
            let printed = print_pointer(alloc, names.as_slice())?;
            if printed.as_slice() == given.as_bytes() {
                in_brackets(alloc, names.as_slice())
            } else {
                String::from_str(alloc, "another pointer")
            }
        }
        Err(PointerFault::Memory) => Err(AllocError),
        Err(fault) => format!(in alloc; "{fault:?}"),
    }
}

#[test]
fn pointers_read_as_their_names(rt: HostRuntime) -> Result<(), Fail> {
    let alloc = rt.alloc();
    for line in POINTERS.lines() {
        let (given, expected) = line.split_once(" => ").unwrap_or((line, ""));
        let found = outcome(alloc, given)?;
        assert!(rt; found.as_str() == expected, "{given} gave {found}");
    }
    Ok(())
}
