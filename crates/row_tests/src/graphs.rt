//! `tips_graph`.
use alto_names::{NetName, PidName};
use alto_rows::{Key, PlainRows, RowStore};
use std::sync::Arc;
use std::test::Fail;
use tips_graph::Graph;

#[test]
fn a_push_shares_its_rows_and_leaves_the_graph(rt: HostRuntime) -> Result<(), Fail> {
    let alloc = rt.alloc();
    let before = Graph::<PlainRows>::empty(alloc, 2)?;
    let rows = Arc::new(alloc, PlainRows::empty(alloc)?)?;
    let after = before.push(alloc, &rows, [Key::Window, Key::Epoch].to_vec(alloc)?)?;
    assert_eq!(rt; (before.last(), after.last()), (0, 1));
    assert_eq!(rt; Arc::strong_count(&rows), 2);
    Ok(())
}

#[test]
fn a_cut_leaves_the_later_numbers(rt: HostRuntime) -> Result<(), Fail> {
    let alloc = rt.alloc();
    let rows = Arc::new(alloc, PlainRows::empty(alloc)?)?;
    let first = Graph::<PlainRows>::resume(alloc, 8, 4)?.push(
        alloc,
        &rows,
        [Key::Epoch].to_vec(alloc)?,
    )?;
    let second = first.push(alloc, &rows, [Key::Window].to_vec(alloc)?)?;
    let cut = second.cut(alloc, 6, &rows)?;
    assert_eq!(rt; (second.first(), second.last()), (5, 6));
    assert_eq!(rt; (cut.first(), cut.last()), (6, 6));
    Ok(())
}

/// The keys of 600 PIDs whose names begin with a letter.
fn pid_keys(rt: &HostRuntime, letter: &str) -> Result<Vec<Key>, Fail> {
    let alloc = rt.alloc();
    let net = NetName::read(alloc, b"metro")?;
    let mut keys = Vec::new(alloc);
    for number in 0..600 {
        let name = format!(in alloc; "{letter}{number}")?;
        let pid = PidName::read(alloc, name.as_bytes())?;
        keys.push(Key::Pid(net.clone()?, pid))?;
    }
    Ok(keys)
}

/// How many keys an edge has.
fn keys_of(rt: &HostRuntime, graph: &Graph<PlainRows>, i: u64, j: u64) -> Result<usize, Fail> {
    match graph.span(rt.alloc(), i, j)? {
        Some(keys) => Ok(keys.len()),
        None => Ok(0),
    }
}

#[test]
fn an_edge_over_many_keys_has_those_of_its_steps(rt: HostRuntime) -> Result<(), Fail> {
    let alloc = rt.alloc();
    let rows = Arc::new(alloc, PlainRows::empty(alloc)?)?;
    let start = Graph::<PlainRows>::resume(alloc, 8, 3)?.push(
        alloc,
        &rows,
        [Key::Epoch].to_vec(alloc)?,
    )?;
    let fifth = start.push(alloc, &rows, pid_keys(&rt, "a")?)?;
    let sixth = fifth.push(alloc, &rows, pid_keys(&rt, "b")?)?;
    let seventh = sixth.push(alloc, &rows, pid_keys(&rt, "a")?)?;
    let graph = seventh.push(alloc, &rows, pid_keys(&rt, "c")?)?;
    assert_eq!(rt; keys_of(&rt, &graph, 4, 5)?, 600);
    assert_eq!(rt; keys_of(&rt, &graph, 4, 6)?, 1_200);
    assert_eq!(rt; keys_of(&rt, &graph, 6, 8)?, 1_200);
    assert_eq!(rt; keys_of(&rt, &graph, 4, 8)?, 1_800);
    assert_eq!(rt; graph.kept_span(4, 6).is_none(), true);
    assert_eq!(rt; graph.kept_span(5, 6).is_some(), true);
    Ok(())
}
