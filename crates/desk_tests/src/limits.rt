//! `alto_desk`, through it `alto_rules` and `alto_edits`: each limit, where it is reached and one step past it.
use crate::desks::{MemDesk, imported, new_desk};
use alto_rows::RowStore;
use std::alloc::Global;
use std::process::Abort;
use std::test::Fail;

/// One record for each number from the first to before the last, with the number in the place of `#`.
fn records(alloc: Global, record: &str, first: u32, last: u32) -> Result<String, Fail> {
    let (before, behind) = record.split_once('#').unwrap_or((record, ""));
    let mut text = String::new(alloc);
    for number in first..last {
        let line = format!(in alloc; "{before}{number}{behind}\n")?;
        text.push_str(line.as_str())?;
    }
    Ok(text)
}

/// The same record again and again.
fn again(alloc: Global, record: &str, count: usize) -> Result<String, Fail> {
    let line = format!(in alloc; "{record}\n")?;
    Ok(line.as_str().repeat(alloc, count)?)
}

/// That imports are answered so, each with its body behind ` | `, where `~` ends a record.
fn are_answered(
    rt: &(impl Abort + AllocGlobal),
    desk: &mut MemDesk,
    table: &str,
) -> Result<(), Fail> {
    let alloc = rt.alloc();
    for line in table.lines() {
        let (expected, body) = line.split_once(" | ").unwrap_or((line, ""));
        let body = body.replace(alloc, "~", "\n")?;
        is_answered(rt, desk, body.as_str(), expected)?;
    }
    Ok(())
}

/// That an import, under an id of its own, is answered so.
fn is_answered(
    rt: &(impl Abort + AllocGlobal),
    desk: &mut MemDesk,
    body: &str,
    expected: &str,
) -> Result<(), Fail> {
    let id = format!(in rt.alloc(); "i{}", desk.front().n)?;
    let answer = imported(rt.alloc(), desk, id.as_str(), body)?;
    assert_eq!(rt; answer.as_str(), expected, "{}", first_line(body));
    Ok(())
}

fn first_line(body: &str) -> &str {
    body.lines().next().unwrap_or("")
}

/// A desk with the network `a`.
fn desk_with(rt: &(impl Abort + AllocGlobal), body: &str) -> Result<MemDesk, Fail> {
    let mut desk = new_desk(rt.alloc())?;
    is_answered(rt, &mut desk, "net-add,a,,,,", "1")?;
    is_answered(rt, &mut desk, body, "2")?;
    Ok(desk)
}

#[test]
fn eight_networks(rt: HostRuntime) -> Result<(), Fail> {
    let seven = records(rt.alloc(), "net-add,n#,,,,", 1, 8)?;
    let mut desk = desk_with(&rt, seven.as_str())?;
    are_answered(
        &rt,
        &mut desk,
        "row 1 G2 | net-add,n8,,,,
row 1 G1 | net-add,n7,,,,
row 3 G2 | net-drop,n7,,,,~net-add,n8,,,,~net-add,n7,,,,
3 | net-drop,n7,,,,~net-add,n8,,,,
row 1 G2 | net-add,n7,,,,",
    )
}

#[test]
fn a_thousand_and_twenty_four_pids(rt: HostRuntime) -> Result<(), Fail> {
    let pids = records(rt.alloc(), "pid-add,a,p#,,,", 0, 1_024)?;
    let mut desk = desk_with(&rt, pids.as_str())?;
    are_answered(
        &rt,
        &mut desk,
        "row 1 G5 | pid-add,a,q,,,
row 1 G4 | pid-add,a,p0,,,
row 3 G5 | pid-drop,a,p0,,,~pid-add,a,q,,,~pid-add,a,p0,,,
3 | net-add,b,,,,~pid-add,b,q,,,
4 | pid-drop,a,p0,,,~pid-add,a,q,,,
row 1 G5 | pid-add,a,p0,,,",
    )
}

#[test]
fn sixteen_thousand_prefixes(rt: HostRuntime) -> Result<(), Fail> {
    let mut desk = desk_with(&rt, "pid-add,a,p,,,\npid-add,a,q,,,")?;
    for high in 0..64u32 {
        let record = format!(in rt.alloc(); "prefix-put,a,p,10.{high}.#.0/24,,")?;
        let body = records(rt.alloc(), record.as_str(), 0, 256)?;
        let number = format!(in rt.alloc(); "{}", high.saturating_add(3))?;
        is_answered(&rt, &mut desk, body.as_str(), number.as_str())?;
    }
    are_answered(
        &rt,
        &mut desk,
        "row 1 G7 | prefix-put,a,p,10.64.0.0/24,,
row 1 G6 | prefix-put,a,r,10.64.0.0/24,,
67 | prefix-put,a,p,10.63.255.0/24,,~prefix-put,a,q,10.63.255.0/24,,
row 1 G7 | prefix-put,a,q,2001:db8::/32,,
row 2 G7 | prefix-put,a,q,10.0.0.0/24,,~prefix-put,a,q,10.64.0.0/24,,
68 | prefix-del,a,p,10.0.0.0/24,,~prefix-put,a,q,10.64.0.0/24,,
row 1 G7 | prefix-put,a,p,10.0.0.0/24,,
69 | pid-drop,a,q,,,~prefix-put,a,p,10.0.0.0/24,,~prefix-put,a,p,10.63.255.0/24,,
row 1 G7 | prefix-put,a,p,10.64.0.0/24,,",
    )
}

#[test]
fn eight_metrics(rt: HostRuntime) -> Result<(), Fail> {
    let metrics = records(rt.alloc(), "metric-add,a,m#,,,", 0, 8)?;
    let mut desk = desk_with(&rt, metrics.as_str())?;
    are_answered(
        &rt,
        &mut desk,
        "row 1 G10 | metric-add,a,m8,,,
row 1 G9 | metric-add,a,m7,,,
row 3 G10 | metric-drop,a,m0,,,~metric-add,a,m8,,,~metric-add,a,m0,,,
3 | net-add,b,,,,~metric-add,b,m8,,,
4 | metric-drop,a,m0,,,~metric-add,a,m8,,,
row 1 G10 | metric-add,a,m0,,,",
    )
}

/// Costs of a metric between the PIDs `p0` to `p511`, from one pair to before another, each pair as one number.
fn costs(alloc: Global, metric: &str, first: u32, last: u32) -> Result<String, Fail> {
    let mut text = String::new(alloc);
    for pair in first..last {
        let line = format!(in alloc; "cost-put,a,{metric},p{},p{},7\n", pair / 512, pair % 512)?;
        text.push_str(line.as_str())?;
    }
    Ok(text)
}

/// Puts costs of a metric from the first pair to before this one, by imports of up to 16,383 edits.
fn put_costs(
    rt: &(impl Abort + AllocGlobal),
    desk: &mut MemDesk,
    metric: &str,
    last: u32,
) -> Result<(), Fail> {
    for part in 0..17u32 {
        let first = part.saturating_mul(16_383).min(last);
        let end = first.saturating_add(16_383).min(last);
        if first < end {
            let body = costs(rt.alloc(), metric, first, end)?;
            let number = format!(in rt.alloc(); "{}", desk.front().n.saturating_add(1))?;
            is_answered(rt, desk, body.as_str(), number.as_str())?;
        }
    }
    Ok(())
}

#[test]
fn pairs_and_rows(rt: HostRuntime) -> Result<(), Fail> {
    let pids = records(rt.alloc(), "pid-add,a,p#,,,", 0, 513)?;
    let mut desk = desk_with(&rt, pids.as_str())?;
    is_answered(&rt, &mut desk, "metric-add,a,m,,,", "3")?;
    put_costs(&rt, &mut desk, "m", 262_144)?;
    are_answered(
        &rt,
        &mut desk,
        "row 1 G12 | cost-put,a,m,p512,p0,1
row 1 G6 | cost-put,a,m,q,p0,1
21 | cost-put,a,m,p0,p0,1
row 3 G12 | cost-del,a,m,p0,p0,~cost-put,a,m,p512,p0,1~cost-put,a,m,p0,p0,1
22 | cost-del,a,m,p0,p0,~cost-put,a,m,p512,p0,1
row 1 G12 | cost-put,a,m,p0,p0,1
23 | metric-add,a,o,,,~cost-put,a,o,p512,p0,1",
    )?;
    // The epoch, the window, the network, 513 PIDs, two metrics, 262,145 costs, and the version rows of four maps.
    assert_eq!(rt; desk.front().rows.len(), 262_667);
    put_costs(&rt, &mut desk, "o", 137_333)?;
    assert_eq!(rt; desk.front().rows.len(), 400_000);
    are_answered(
        &rt,
        &mut desk,
        "row 0 G16 | ane-add,a,core,,,
33 | cost-put,a,o,p0,p0,1
34 | cost-del,a,o,p0,p0,~ane-add,a,core,,,
row 0 G16 | cost-put,a,o,p0,p0,1",
    )?;
    let more = costs(rt.alloc(), "o", 137_333, 153_717)?;
    is_answered(&rt, &mut desk, more.as_str(), "row 0 G16")
}

/// A record that makes one write and touches no map.
const SET: &str = "ane-set,a,core,max-reservable-bandwidth,5,";

#[test]
fn writes_of_one_import(rt: HostRuntime) -> Result<(), Fail> {
    let mut desk = desk_with(&rt, "pid-add,a,p,,,\nmetric-add,a,m,,,\nane-add,a,core,,,")?;
    let cost = "cost-put,a,m,p,p,7";
    let most = again(rt.alloc(), SET, 16_384)?;
    is_answered(&rt, &mut desk, most.as_str(), "3")?;
    let more = again(rt.alloc(), SET, 16_385)?;
    is_answered(&rt, &mut desk, more.as_str(), "row 0 G17")?;
    // A cost brings the version row of its map.
    let most = again(rt.alloc(), cost, 16_383)?;
    is_answered(&rt, &mut desk, most.as_str(), "4")?;
    let more = again(rt.alloc(), cost, 16_384)?;
    is_answered(&rt, &mut desk, more.as_str(), "row 0 G17")?;
    let broken = format!(in rt.alloc(); "{more}pid-add,a,p,,,")?;
    is_answered(&rt, &mut desk, broken.as_str(), "row 16385 G4")
}

#[test]
fn writes_of_all_imports(rt: HostRuntime) -> Result<(), Fail> {
    // The network and the version rows of its two maps, and two elements: five writes.
    let mut desk = desk_with(&rt, "ane-add,a,core,,,\nane-add,a,tail,,,")?;
    let most = again(rt.alloc(), SET, 16_384)?;
    for number in 3..34u32 {
        let number = format!(in rt.alloc(); "{number}")?;
        is_answered(&rt, &mut desk, most.as_str(), number.as_str())?;
    }
    let left = again(rt.alloc(), SET, 16_380)?;
    is_answered(&rt, &mut desk, left.as_str(), "row 0 G18")?;
    let left = again(rt.alloc(), SET, 16_379)?;
    is_answered(&rt, &mut desk, left.as_str(), "34")?;
    is_answered(&rt, &mut desk, SET, "row 0 G18")?;
    let more = again(rt.alloc(), SET, 16_385)?;
    is_answered(&rt, &mut desk, more.as_str(), "row 0 G17")?;
    is_answered(&rt, &mut desk, "ane-add,a,core,,,", "row 1 G14")
}

#[test]
fn imports_past_the_base(rt: HostRuntime) -> Result<(), Fail> {
    let mut desk = desk_with(&rt, "ane-add,a,core,,,")?;
    for number in 3..4_097u32 {
        let number = format!(in rt.alloc(); "{number}")?;
        is_answered(&rt, &mut desk, SET, number.as_str())?;
    }
    is_answered(&rt, &mut desk, SET, "row 0 G18")?;
    is_answered(&rt, &mut desk, "ane-add,a,core,,,", "row 1 G14")?;
    let known = imported(rt.alloc(), &mut desk, "i4095", "ane-add,a,core,,,")?;
    assert_eq!(rt;
        known.as_str(),
        "4096",
        "a known import is told its receipt"
    );
    Ok(())
}
