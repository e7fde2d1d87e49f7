//! `alto_desk`, through it `alto_rules` and `alto_edits`: each rule by an import that breaks it, the first of two where
//! both stand, and that a refused import leaves everything.
use crate::desks::{imported, listing, new_desk};
use std::process::Abort;
use std::test::Fail;

/// What the imports of the table meet: two PIDs of a network, with a row of each kind.
const BEFORE: &str = "\
net-add,metro,,,,
pid-add,metro,east,,,
pid-add,metro,west,,,
prefix-put,metro,east,192.0.2.0/24,,
metric-add,metro,routingcost,,,
cost-put,metro,routingcost,east,west,7
prop-put,metro,ipv4:192.0.2.0/24,color,t,red
prop-put,metro,metro.pid:east,color,n,5
ane-add,metro,core,,,
ane-set,metro,core,max-reservable-bandwidth,1000,
path-put,metro,east,west,core,
";

/// Imports, `~` between their records, behind what each is answered.
const REFUSED: &str = "\
row 1 G1 | net-add,metro,,,,
row 1 G3 | net-drop,rural,,,,
row 1 G3 | net-drop,metrop,,,,
row 1 G3 | pid-add,rural,east,,,
row 1 G3 | pid-drop,rural,east,,,
row 1 G3 | prefix-put,rural,east,192.0.2.0/24,,
row 1 G3 | prefix-del,rural,east,192.0.2.0/24,,
row 1 G3 | metric-add,rural,routingcost,,,
row 1 G3 | metric-drop,rural,routingcost,,,
row 1 G3 | cost-put,rural,routingcost,east,west,7
row 1 G3 | cost-del,rural,routingcost,east,west,
row 1 G3 | prop-put,rural,ipv4:192.0.2.0/24,color,t,red
row 1 G3 | prop-put,rural,rural.pid:east,color,t,red
row 1 G3 | prop-del,rural,ipv4:192.0.2.0/24,color,,
row 1 G3 | ane-add,rural,core,,,
row 1 G3 | ane-set,rural,core,max-reservable-bandwidth,1,
row 1 G3 | path-put,rural,east,west,core,
row 1 G3 | path-del,rural,east,west,,
row 1 G4 | pid-add,metro,east,,,
row 1 G6 | pid-drop,metro,north,,,
row 1 G6 | pid-drop,metro,eas,,,
row 1 G6 | prefix-put,metro,north,192.0.2.0/24,,
row 1 G6 | prefix-del,metro,north,192.0.2.0/24,,
row 1 G6 | cost-put,metro,routingcost,north,west,1
row 1 G6 | cost-put,metro,routingcost,east,north,1
row 1 G6 | cost-put,metro,hops,east,north,1
row 1 G6 | cost-del,metro,routingcost,north,west,
row 1 G6 | cost-del,metro,hops,east,north,
row 1 G6 | prop-put,metro,metro.pid:north,color,n,1
row 1 G6 | prop-del,metro,metro.pid:north,color,,
row 1 G6 | path-put,metro,north,west,core,
row 1 G6 | path-put,metro,east,north,tail,
row 1 G6 | path-del,metro,north,west,,
row 1 G6 | path-del,metro,east,north,,
row 1 G8 | prefix-del,metro,west,192.0.2.0/24,,
row 1 G8 | prefix-del,metro,east,192.0.2.0/25,,
row 1 G9 | metric-add,metro,routingcost,,,
row 1 G11 | cost-put,metro,hops,east,west,1
row 1 G11 | cost-del,metro,hops,east,west,
row 1 G11 | metric-drop,metro,hops,,,
row 1 G13 | cost-del,metro,routingcost,west,east,
row 1 G13 | prop-del,metro,ipv4:192.0.2.0/25,color,,
row 1 G13 | prop-del,metro,metro.pid:east,size,,
row 1 G13 | prop-del,metro,metro.pid:west,color,,
row 1 G13 | path-del,metro,west,east,,
row 1 G14 | ane-add,metro,core,,,
row 1 G15 | ane-set,metro,tail,max-reservable-bandwidth,1,
row 1 G15 | path-put,metro,east,west,core tail,";

/// The same of imports that break a rule by what their earlier records did.
const REFUSED_LATER: &str = "\
row 2 G1 | net-add,rural,,,,~net-add,rural,,,,
row 2 G3 | net-drop,metro,,,,~pid-add,metro,east,,,
row 2 G3 | net-drop,metro,,,,~net-drop,metro,,,,
row 2 G4 | pid-add,metro,north,,,~pid-add,metro,north,,,
row 2 G6 | pid-drop,metro,east,,,~pid-drop,metro,east,,,
row 2 G6 | pid-drop,metro,west,,,~cost-del,metro,routingcost,east,west,
row 2 G8 | prefix-put,metro,west,192.0.2.0/24,,~prefix-del,metro,east,192.0.2.0/24,,
row 2 G9 | metric-add,metro,hops,,,~metric-add,metro,hops,,,
row 2 G11 | metric-drop,metro,routingcost,,,~metric-drop,metro,routingcost,,,
row 2 G11 | metric-drop,metro,routingcost,,,~cost-del,metro,routingcost,east,west,
row 2 G13 | prop-del,metro,metro.pid:east,color,,~prop-del,metro,metro.pid:east,color,,
row 2 G14 | ane-add,metro,tail,,,~ane-add,metro,tail,,,
row 2 G15 | ane-add,metro,tail,,,~path-put,metro,east,west,tail rim,
row 3 G6 | net-drop,metro,,,,~net-add,metro,,,,~pid-drop,metro,east,,,
row 3 G8 | pid-drop,metro,east,,,~pid-add,metro,east,,,~prefix-del,metro,east,192.0.2.0/24,,
row 3 G11 | net-drop,metro,,,,~net-add,metro,,,,~metric-drop,metro,routingcost,,,
row 3 G13 | pid-drop,metro,east,,,~pid-add,metro,east,,,~cost-del,metro,routingcost,east,west,
row 3 G13 | pid-drop,metro,west,,,~pid-add,metro,west,,,~cost-del,metro,routingcost,east,west,
row 3 G13 | pid-drop,metro,east,,,~pid-add,metro,east,,,~prop-del,metro,metro.pid:east,color,,
row 3 G13 | pid-drop,metro,east,,,~pid-add,metro,east,,,~path-del,metro,east,west,,
row 3 G13 | pid-drop,metro,west,,,~pid-add,metro,west,,,~path-del,metro,east,west,,
row 3 G13 | metric-drop,metro,routingcost,,,~metric-add,metro,routingcost,,,~cost-del,metro,routingcost,east,west,
row 3 G13 | net-drop,metro,,,,~net-add,metro,,,,~prop-del,metro,ipv4:192.0.2.0/24,color,,
row 3 G15 | net-drop,metro,,,,~net-add,metro,,,,~ane-set,metro,core,max-reservable-bandwidth,1,
row 1 G9 | metric-add,metro,routingcost,,,~net-add,metro,,,,
row 2 G14 | pid-add,metro,north,,,~ane-add,metro,core,,,~pid-add,metro,north,,,";

/// An import that finds each row of the first one, and takes all away but the network and its version rows.
const AFTER: &str = "\
path-del,metro,east,west,,
ane-set,metro,core,max-reservable-bandwidth,1,
prop-del,metro,metro.pid:east,color,,
prop-del,metro,ipv4:192.0.2.0/24,color,,
cost-del,metro,routingcost,east,west,
metric-drop,metro,routingcost,,,
prefix-del,metro,east,192.0.2.0/24,,
pid-drop,metro,west,,,
pid-drop,metro,east,,,
";

/// That each import of a table is refused as its line says, and leaves the numbers and the count of rows.
fn are_refused(rt: &(impl Abort + AllocGlobal), table: &str) -> Result<(), Fail> {
    let alloc = rt.alloc();
    let mut desk = new_desk(alloc)?;
    let first = imported(alloc, &mut desk, "i1", BEFORE)?;
    assert_eq!(rt; first.as_str(), "1");
    let before = listing(alloc, &desk)?;
    for line in table.lines() {
        let (expected, body) = line.split_once(" | ").unwrap_or((line, ""));
        let body = body.replace(alloc, "~", "\n")?;
        let answer = imported(alloc, &mut desk, "i2", body.as_str())?;
        assert_eq!(rt; answer.as_str(), expected, "{line}");
        let after = listing(alloc, &desk)?;
        assert_eq!(rt; after.as_str(), before.as_str(), "{line}");
    }
    let last = imported(alloc, &mut desk, "i2", AFTER)?;
    assert_eq!(rt; last.as_str(), "2");
    // The epoch, the window, the network, the ANE, its bandwidth, and the version rows of three maps.
    let after = listing(alloc, &desk)?;
    assert_eq!(rt; after.as_str(), "2 with 8 rows, metro 1-2, metro:prop 1-2");
    Ok(())
}

#[test]
fn the_first_broken_rule_refuses_an_import(rt: HostRuntime) -> Result<(), Fail> {
    are_refused(&rt, REFUSED)
}

#[test]
fn a_record_meets_what_the_earlier_ones_did(rt: HostRuntime) -> Result<(), Fail> {
    are_refused(&rt, REFUSED_LATER)
}
