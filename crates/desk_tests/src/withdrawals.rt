//! `alto_desk`, through it `alto_rules` and `alto_edits`: the rows and the numbers that imports lead to.
use crate::desks::{found, imported, listing, new_desk};
use std::process::Abort;
use std::test::Fail;

/// Imports in turn, `~` between their records, behind what there is after each: batches, rows, and the kept numbers of
/// each declared resource. The window is 8, so the ninth number takes the place of the first.
const PIDS: &str = "\
1 with 5 rows, metro 1-1, metro:prop 1-1 | net-add,metro,,,,
2 with 7 rows, metro 1-2, metro:prop 1-2 | pid-add,metro,east,,,~pid-add,metro,west,,,
3 with 9 rows, metro 1-3, metro:prop 1-3 | prefix-put,metro,east,192.0.2.0/24,,~prefix-put,metro,west,0.0.0.0/0,,
4 with 12 rows, metro 1-3, metro:cost:routingcost 1-1, metro:prop 1-3 | metric-add,metro,routingcost,,,~cost-put,metro,routingcost,east,west,7
5 with 13 rows, metro 1-4, metro:cost:routingcost 1-2, metro:prop 1-4 | pid-add,metro,north,,,
6 with 10 rows, metro 1-5, metro:cost:routingcost 1-3, metro:prop 1-5 | pid-drop,metro,east,,,
7 with 11 rows, metro 1-6, metro:cost:routingcost 1-4, metro:prop 1-6 | pid-add,metro,east,,,
8 with 12 rows, metro 1-7, metro:cost:routingcost 1-5, metro:prop 1-7 | prefix-put,metro,east,198.51.100.0/24,,
9 with 13 rows, metro 1-8, metro:cost:routingcost 1-6, metro:prop 1-8 | prefix-put,metro,east,2001:db8::/32,,
10 with 13 rows, metro 2-9, metro:cost:routingcost 1-7, metro:prop 2-9 | prefix-put,metro,east,2001:db8::/32,,
11 with 13 rows, metro 3-10, metro:cost:routingcost 1-8, metro:prop 3-10 | prefix-put,metro,west,2001:db8::/32,,
12 with 14 rows, metro 3-10, metro:cost:routingcost 1-8, metro:prop 3-10 | ane-add,metro,core,,,
13 with 16 rows, metro 3-10, metro:cost:routingcost 1-8, metro:prop 3-10 | path-put,metro,east,west,core,~path-put,metro,north,east,core,
14 with 17 rows, metro 3-10, metro:cost:routingcost 1-8, metro:prop 4-11 | prop-put,metro,metro.pid:east,color,t,red
15 with 18 rows, metro 3-10, metro:cost:routingcost 2-9, metro:prop 4-11 | cost-put,metro,routingcost,west,east,7
16 with 12 rows, metro 4-11, metro:cost:routingcost 3-10, metro:prop 5-12 | pid-drop,metro,east,,,";

/// The same of metrics and networks that are withdrawn and declared again. What isn't declared has no number, and goes
/// on from its last where it is declared again; an import that withdraws and declares a thing leaves what was kept.
const WITHDRAWALS: &str = "\
1 with 9 rows, metro 1-1, metro:cost:routingcost 1-1, metro:prop 1-1 | net-add,metro,,,,~pid-add,metro,east,,,~metric-add,metro,routingcost,,,~cost-put,metro,routingcost,east,east,7
2 with 8 rows, metro 1-1, metro:cost:routingcost 1-2, metro:prop 1-1 | metric-drop,metro,routingcost,,,~metric-add,metro,routingcost,,,
3 with 7 rows, metro 1-1, metro:prop 1-1 | metric-drop,metro,routingcost,,,
4 with 8 rows, metro 1-2, metro:prop 1-2 | pid-add,metro,west,,,
row 1 G11 | metric-drop,metro,routingcost,,,
row 1 G11 | cost-put,metro,routingcost,east,west,1
5 with 9 rows, metro 1-2, metro:cost:routingcost 3-3, metro:prop 1-2 | metric-add,metro,routingcost,,,
6 with 9 rows, metro 1-3, metro:cost:routingcost 3-4, metro:prop 1-3 | prefix-put,metro,west,192.0.2.0/24,,~pid-drop,metro,west,,,~pid-add,metro,north,,,
7 with 5 rows | net-drop,metro,,,,
row 1 G3 | net-drop,metro,,,,
row 1 G3 | pid-add,metro,east,,,
8 with 8 rows, rural 1-1, rural:prop 1-1 | net-add,rural,,,,
9 with 9 rows, metro 4-4, rural 1-1, metro:prop 4-4, rural:prop 1-1 | net-add,metro,,,,
row 1 G6 | pid-drop,metro,east,,,
10 with 10 rows, metro 4-4, rural 1-1, metro:cost:routingcost 5-5, metro:prop 4-4, rural:prop 1-1 | metric-add,metro,routingcost,,,
11 with 9 rows, metro 4-5, rural 1-1, metro:prop 4-5, rural:prop 1-1 | net-drop,metro,,,,~net-add,metro,,,,
12 with 10 rows, metro 4-5, rural 1-1, metro:cost:routingcost 6-6, metro:prop 4-5, rural:prop 1-1 | metric-add,metro,routingcost,,,
13 with 8 rows, rural 1-1, rural:prop 1-1 | net-drop,metro,,,,
14 with 9 rows, metro 6-6, rural 1-1, metro:prop 6-6, rural:prop 1-1 | net-add,metro,,,,
15 with 8 rows, rural 1-1, rural:prop 1-1 | net-add,temporary,,,,~net-drop,temporary,,,,~net-drop,metro,,,,";

/// That each import of a table is answered as its line says.
fn are_answered(rt: &(impl Abort + AllocGlobal), table: &str) -> Result<(), Fail> {
    let alloc = rt.alloc();
    let mut desk = new_desk(alloc)?;
    for line in table.lines() {
        let (expected, body) = line.split_once(" | ").unwrap_or((line, ""));
        let body = body.replace(alloc, "~", "\n")?;
        let id = format!(in alloc; "i{}", desk.front().n)?;
        let answer = imported(alloc, &mut desk, id.as_str(), body.as_str())?;
        if answer.as_str().starts_with("row") {
            assert_eq!(rt; answer.as_str(), expected, "{line}");
        } else {
            let after = listing(alloc, &desk)?;
            assert_eq!(rt; after.as_str(), expected, "{line}");
        }
    }
    Ok(())
}

#[test]
fn edits_of_pids_lead_to_these_rows_and_numbers(rt: HostRuntime) -> Result<(), Fail> {
    are_answered(&rt, PIDS)
}

#[test]
fn a_withdrawn_resource_goes_on_where_it_is_declared_again(rt: HostRuntime) -> Result<(), Fail> {
    are_answered(&rt, WITHDRAWALS)
}

/// Ids, each with the id of the declared resource that it names.
const IDS: &str = "\
metro metro
metro:prop metro:prop
metro:cost:routingcost metro:cost:routingcost
metro:cost:hops none
metro:cost none
metrop none
rural none
rural:prop none";

#[test]
fn an_id_names_a_declared_resource(rt: HostRuntime) -> Result<(), Fail> {
    let alloc = rt.alloc();
    let mut desk = new_desk(alloc)?;
    let first = "net-add,metro,,,,\nmetric-add,metro,routingcost,,,\nnet-add,rural,,,,";
    imported(alloc, &mut desk, "i1", first)?;
    imported(alloc, &mut desk, "i2", "net-drop,rural,,,,")?;
    for line in IDS.lines() {
        let (id, expected) = line.split_once(' ').unwrap_or((line, ""));
        let name = found(alloc, &desk, id)?;
        assert_eq!(rt; name.as_str(), expected, "{id}");
    }
    Ok(())
}
