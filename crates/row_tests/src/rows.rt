//! `alto_rows`: stores of rows.
use alto_addr::{print_prefix, read_prefix};
use alto_names::{ImportId, NetName, PidName};
use alto_rows::{
    Batch, Entity, Key, PackedPrefix, PlainRows, Resource, RowStore, Span, Value, Write,
    prefixes_of, rows_in, walk_from,
};
use std::test::Fail;

fn net(rt: &HostRuntime, word: &str) -> Result<NetName, Fail> {
    Ok(NetName::read(rt.alloc(), word.as_bytes())?)
}

fn pid(rt: &HostRuntime, word: &str) -> Result<PidName, Fail> {
    Ok(PidName::read(rt.alloc(), word.as_bytes())?)
}

/// The first word of a line, and those behind it.
fn split(line: &str) -> (&str, &str) {
    line.split_once(' ').unwrap_or((line, ""))
}

/// The key that a line names by its kind and its fields; a line of no other kind names the window.
fn key_of(rt: &HostRuntime, line: &str) -> Result<Key, Fail> {
    let (kind, fields) = split(line);
    let (of, fields) = split(fields);
    let (first, fields) = split(fields);
    match kind {
        "net" => Ok(Key::Net(net(rt, of)?)),
        "pid" => Ok(Key::Pid(net(rt, of)?, pid(rt, first)?)),
        "prefix" => prefix_key(rt, of, first, fields),
        "seq" => Ok(Key::Seq(Resource::Net(net(rt, of)?))),
        _ => Ok(Key::Window),
    }
}

fn prefix_key(rt: &HostRuntime, of: &str, owner: &str, prefix: &str) -> Result<Key, Fail> {
    Ok(Key::Prefix(
        net(rt, of)?,
        pid(rt, owner)?,
        PackedPrefix::new(&read_prefix(prefix.as_bytes())?),
    ))
}

/// The write that a line names: `-` deletes a key, `.` puts no value, and a digit puts a number.
fn write_of(rt: &HostRuntime, line: &str) -> Result<Write, Fail> {
    let (sign, key) = split(line);
    let value = match sign {
        "-" => None,
        "8" => Some(Value::Num(8)),
        "9" => Some(Value::Num(9)),
        _ => Some(Value::Unit),
    };
    Ok(Write {
        key: key_of(rt, key)?,
        value,
    })
}

fn writes_of(rt: &HostRuntime, text: &str) -> Result<Vec<Write>, Fail> {
    let mut writes = Vec::new(rt.alloc());
    for line in text.lines() {
        writes.push(write_of(rt, line)?)?;
    }
    Ok(writes)
}

fn rows_of(rt: &HostRuntime, text: &str) -> Result<PlainRows, Fail> {
    let writes = writes_of(rt, text)?;
    Ok(PlainRows::empty(rt.alloc())?.with(rt.alloc(), &writes)?)
}

/// All rows, as they are printed for debugging.
fn listing(rt: &HostRuntime, rows: &PlainRows) -> Result<String, Fail> {
    let mut text = String::new(rt.alloc());
    for (key, value) in walk_from(rows, &Key::Epoch) {
        let row = format!(in rt.alloc(); "{key:?}={value:?} ")?;
        text.push_str(row.as_str())?;
    }
    Ok(text)
}

const ROWS: &str = "9 seq east\n. net west\n. pid east pid1\n. net east\n8 window";

#[test]
fn writes_make_the_rows(rt: HostRuntime) -> Result<(), Fail> {
    let first = rows_of(&rt, ROWS)?;
    let writes = writes_of(&rt, "8 window\n- net north\n- net west\n9 window")?;
    let second = first.with(rt.alloc(), &writes)?;
    let before = listing(&rt, &first)?;
    let after = listing(&rt, &second)?;
    assert_eq!(rt;
        before.as_str(),
        "Window=Num(8) Net(east)=Unit Net(west)=Unit Pid(east, pid1)=Unit Seq(Net(east))=Num(9) "
    );
    assert_eq!(rt;
        after.as_str(),
        "Window=Num(9) Net(east)=Unit Pid(east, pid1)=Unit Seq(Net(east))=Num(9) "
    );
    Ok(())
}

/// Prefixes of two PIDs of `metro`, and one of another network.
const PREFIXES: &str = "\
. prefix metro west 192.0.2.0/24
. prefix metro east 2001:db8::/32
. prefix metro east 198.51.100.0/24
. prefix metrop east 203.0.113.0/24";

#[test]
fn prefixes_come_with_their_pids(rt: HostRuntime) -> Result<(), Fail> {
    let rows = rows_of(&rt, PREFIXES)?;
    let mut text = String::new(rt.alloc());
    for (prefix, pid) in &prefixes_of(rt.alloc(), &rows, &net(&rt, "metro")?)? {
        text.push_str(print_prefix(rt.alloc(), prefix)?.as_str())?;
        text.push_str(format!(in rt.alloc(); " {pid} ")?.as_str())?;
    }
    assert_eq!(rt;
        text.as_str(),
        "198.51.100.0/24 east 2001:db8::/32 east 192.0.2.0/24 west "
    );
    Ok(())
}

fn crosses_threads<T: Send + Sync>(_value: &T) {}

#[test]
fn rows_and_batches_cross_threads(rt: HostRuntime) -> Result<(), Fail> {
    let rows = PlainRows::empty(rt.alloc())?;
    let batch = Batch {
        id: ImportId::read(rt.alloc(), b"first")?,
        digest: [0; 32],
        moment: 1,
        writes: Vec::new(rt.alloc()),
    };
    crosses_threads(&batch);
    crosses_threads(&Key::Window);
    crosses_threads(&Entity::Pid(pid(&rt, "east")?));
    crosses_threads(&Value::Unit);
    crosses_threads(&Span::Nets);
    crosses_threads(&rows_in(&rows, Span::Nets));
    crosses_threads(&rows);
    Ok(())
}
