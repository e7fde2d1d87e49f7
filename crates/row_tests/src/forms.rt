//! `edit_forms`.
use alto_edits::Edit;
use edit_forms::{FormFault, read_csv, read_json};
use std::alloc::{AllocError, Global};
use std::test::Fail;

/// A line of each operation, and the edit that it reads as.
const OPERATIONS: &str = "net-add,metro,,,,|NetAdd { net: metro }
net-drop,metro,,,,|NetDrop { net: metro }
pid-add,metro,east,,,|PidAdd { net: metro, pid: east }
pid-drop,metro,east,,,|PidDrop { net: metro, pid: east }
prefix-put,metro,east,192.0.2.0/24,,|PrefixPut { net: metro, pid: east, prefix: Prefix { addr: V4(3221225984), len: 24 } }
prefix-del,metro,east,::1/128,,|PrefixDel { net: metro, pid: east, prefix: Prefix { addr: V6(1), len: 128 } }
metric-add,metro,routingcost,,,|MetricAdd { net: metro, metric: routingcost }
metric-drop,metro,routingcost,,,|MetricDrop { net: metro, metric: routingcost }
cost-put,metro,hops,east,west,5|CostPut { net: metro, metric: hops, source: east, destination: west, cost: 5 }
cost-del,metro,hops,east,west,|CostDel { net: metro, metric: hops, source: east, destination: west }
prop-put,metro,metro.pid:east,color,t,red|PropPut { net: metro, entity: Pid(east), name: color, value: Text(\"red\") }
prop-put,metro,metro.pid:east,color,n,07|PropPut { net: metro, entity: Pid(east), name: color, value: Number(7) }
prop-del,metro,metro.pid:east,color,,|PropDel { net: metro, entity: Pid(east), name: color }
ane-add,metro,core,,,|AneAdd { net: metro, ane: core }
ane-set,metro,core,max-reservable-bandwidth,1000,|AneSet { net: metro, ane: core, name: max-reservable-bandwidth, number: 1000 }
path-put,metro,east,west,core tail,|PathPut { net: metro, source: east, destination: west, anes: AneNames { names: [core, tail] } }
path-del,metro,east,west,,|PathDel { net: metro, source: east, destination: west }";

/// Lines at a limit and one step past it, each with what it reads as where it is the second of a body. In them `~`
/// stands for U+007F, `^` for 64 letters and `%` for 21 names, each behind a space.
const LIMITS: &str = "net-put,metro,,,,|BadColumn(2, 1)
net-drop,me.tro,,,,|BadColumn(2, 2)
net-drop,metro,,,,x|BadColumn(2, 6)
pid-drop,metro,,x,,|BadColumn(2, 3)
prefix-put,metro,east,192.0.2.0,,|BadColumn(2, 4)
prefix-put,metro,east,192.0.2.1/24,,|BadColumn(2, 4)
prefix-del,metro,east,192.0.2.0/33,,|BadColumn(2, 4)
prefix-del,metro,east,192.0.2.0/24,x,|BadColumn(2, 5)
metric-add,metro,routing@cost,,,|BadColumn(2, 3)
cost-put,metro,hops,east,west,9007199254740991|reads
cost-put,metro,hops,east,west,9007199254740992|BadColumn(2, 6)
cost-put,metro,hops,east,west,0000000000000005|reads
cost-put,metro,hops,east,west,00000000000000005|BadColumn(2, 6)
cost-put,metro,hops,east,west,|BadColumn(2, 6)
cost-put,metro,hops,east,west,+5|BadColumn(2, 6)
cost-put,metro,hops,ea.st,we.st,5|BadColumn(2, 4)
cost-del,metro,hops,east,west,5|BadColumn(2, 6)
prop-put,metro,ipv4:192.0.2.1,color,t,|reads
prop-put,metro,ipv6:2001:DB8::/32,color,t,^^^^|reads
prop-put,metro,ipv6:192.0.2.1,color,t,red|BadColumn(2, 3)
prop-put,metro,rural.pid:east,color,t,red|BadColumn(2, 3)
prop-put,metro,metro.pid:east,color,t,a^^^^|BadColumn(2, 6)
prop-put,metro,metro.pid:east,color,t,red~|BadColumn(2, 6)
prop-put,metro,metro.pid:east,color,T,red|BadColumn(2, 5)
prop-put,metro,metro.pid:east,color,n,red|BadColumn(2, 6)
prop-del,metro,metro.pid:east,co@lor,,|BadColumn(2, 4)
ane-add,metro,co.re,,,|BadColumn(2, 3)
ane-set,metro,core,max-bandwidth,1000,|BadColumn(2, 4)
ane-set,metro,core,max-reservable-bandwidth,,|BadColumn(2, 5)
path-put,metro,east,west,a%%%,|reads
path-put,metro,east,west,a b%%%,|BadColumn(2, 5)
path-put,metro,east,west,,|BadColumn(2, 5)
path-put,metro,east,west,core  tail,|BadColumn(2, 5)
path-put,metro,east,west,core ,|BadColumn(2, 5)
path-del,metro,east,,,|BadColumn(2, 4)";

/// The body of CSV that a line with marks stands for.
fn csv_of(alloc: Global, line: &str) -> Result<String, AllocError> {
    let letters = "a".repeat(alloc, 64)?;
    let names = " b".repeat(alloc, 21)?;
    let line = line.replace(alloc, "~", "\u{7f}")?;
    let line = line.as_str().replace(alloc, "^", letters.as_str())?;
    line.as_str().replace(alloc, "%", names.as_str())
}

/// The same lines as a body of JSON.
fn json_of(alloc: Global, csv: &str) -> Result<String, AllocError> {
    let items = csv.replace(alloc, ",", "\",\"")?;
    let items = items.as_str().replace(alloc, "\n", "\"],[\"")?;
    format!(in alloc; "{{\"edits\":[[\"{items}\"]]}}")
}

/// The one edit that a body reads as, or the fault.
fn edit_text(alloc: Global, read: Result<Vec<Edit>, FormFault>) -> Result<String, AllocError> {
    match read {
        Ok(edits) => match edits.first() {
            Some(edit) => format!(in alloc; "{edit:?}"),
            None => Ok(String::new(alloc)),
        },
        Err(fault) => format!(in alloc; "{fault:?}"),
    }
}

/// The fault of a body, or that it reads.
fn fault_text(alloc: Global, read: Result<Vec<Edit>, FormFault>) -> Result<String, AllocError> {
    match read {
        Ok(_) => String::from_str(alloc, "reads"),
        Err(fault) => format!(in alloc; "{fault:?}"),
    }
}

#[test]
fn a_line_of_each_operation_reads_as_its_edit(rt: HostRuntime) -> Result<(), Fail> {
    let alloc = rt.alloc();
    for case in OPERATIONS.lines() {
        let (line, expected) = case.split_once('|').unwrap_or((case, ""));
        let json = json_of(alloc, line)?;
        let from_csv = edit_text(alloc, read_csv(alloc, line.as_bytes()))?;
        let from_json = edit_text(alloc, read_json(alloc, json.as_bytes()))?;
        assert_eq!(rt; from_csv.as_str(), expected, "{case}");
        assert_eq!(rt; from_json.as_str(), expected, "{case}");
    }
    Ok(())
}

#[test]
fn lines_past_a_limit_are_refused_by_row_and_column(rt: HostRuntime) -> Result<(), Fail> {
    let alloc = rt.alloc();
    for case in LIMITS.lines() {
        let (marked, expected) = case.split_once('|').unwrap_or((case, ""));
        let line = csv_of(alloc, marked)?;
        let csv = format!(in alloc; "net-add,metro,,,,\n{line}")?;
        let json = json_of(alloc, csv.as_str())?;
        let from_csv = fault_text(alloc, read_csv(alloc, csv.as_bytes()))?;
        let from_json = fault_text(alloc, read_json(alloc, json.as_bytes()))?;
        assert_eq!(rt; from_csv.as_str(), expected, "{case}");
        assert_eq!(rt; from_json.as_str(), expected, "{case}");
    }
    Ok(())
}
