//! The costs that a version keeps by source beside those that its rows give, after imports that a generator draws.
use crate::desks::{MemDesk, imported, new_desk};
use crate::draws::Draws;
use alto_names::{Metric, NetName, PidName};
use alto_rows::{Key, RowStore, Value};
use cost_tables::PidText;
use std::alloc::{AllocError, Global};
use std::test::Fail;

/// So many PIDs have costs; one more is asked for and has none.
const PIDS: u32 = 9;

/// What is there before the first cost.
const DECLARED: &str = "\
net-add,metro,,,,
metric-add,metro,hopcount,,,
metric-add,metro,routingcost,,,
pid-add,metro,p0,,,
pid-add,metro,p1,,,
pid-add,metro,p2,,,
pid-add,metro,p3,,,
pid-add,metro,p4,,,
pid-add,metro,p5,,,
pid-add,metro,p6,,,
pid-add,metro,p7,,,
pid-add,metro,p8,,,
";

/// A cost, which 4 bytes seldom don't hold.
fn cost_drawn(draws: &mut Draws) -> u64 {
    let cost = u64::from(draws.draw() % 100);
    if draws.draw() % 20 == 0 {
        4_294_967_295 + cost
    } else {
        cost
    }
}

/// An import of so many edits: most put a cost, and some take one away.
fn import_of(alloc: Global, draws: &mut Draws, count: u32) -> Result<String, AllocError> {
    let mut body = String::new(alloc);
    for _edit in 0..count {
        let metric = if draws.draw() % 4 == 0 {
            "hopcount"
        } else {
            "routingcost"
        };
        let (source, destination) = (draws.draw() % PIDS, draws.draw() % PIDS);
        let cost = cost_drawn(draws);
        let line = match draws.draw() % 30 {
            0 => format!(in alloc; "cost-del,metro,{metric},p{source},p{destination},\n")?,
            _ => format!(in alloc; "cost-put,metro,{metric},p{source},p{destination},{cost}\n")?,
        };
        body.push_str(line.as_str())?;
    }
    Ok(body)
}

/// The PIDs that are asked for.
fn pids(alloc: Global) -> Result<Vec<PidName>, Fail> {
    let mut pids = Vec::new(alloc);
    for number in 0..=PIDS {
        let name = format!(in alloc; "p{number}")?;
        pids.push(PidName::read(alloc, name.as_bytes())?)?;
    }
    Ok(pids)
}

fn texts_of(alloc: Global, pids: &[PidName]) -> Result<Vec<PidText<'_>>, AllocError> {
    let mut texts = Vec::with_capacity(alloc, pids.len())?;
    for pid in pids {
        texts.push(PidText::of(pid))?;
    }
    Ok(texts)
}

/// The cost that a row gives.
fn cost_of(rows: &impl RowStore, key: &Key) -> Option<u64> {
    match rows.get(key) {
        Some(Value::Num(cost)) => Some(*cost),
        _ => None,
    }
}

/// How many costs there are, where tables and rows tell the same of each pair; else the key of the first difference.
fn compared(alloc: Global, desk: &MemDesk) -> Result<String, Fail> {
    let net = NetName::read(alloc, b"metro")?;
    let front = desk.front();
    let pids = pids(alloc)?;
    let texts = texts_of(alloc, &pids)?;
    let mut count: u32 = 0;
    for word in ["hopcount", "latency", "routingcost"] {
        let metric = Metric::read(alloc, word.as_bytes())?;
        let told = front
            .costs()
            .costs_between(alloc, &net, &metric, &texts, &texts)?;
        for (at, source) in pids.iter().enumerate() {
            let costs = told.from_source(at).unwrap_or(&[]);
            for (cost, destination) in costs.iter().zip(&pids) {
                let (src, dst) = (source.clone()?, destination.clone()?);
                let key = Key::Cost(net.clone()?, metric.clone()?, src, dst);
                if *cost != cost_of(&*front.rows, &key) {
                    return Ok(format!(in alloc; "{key:?}")?);
                }
                count = count.saturating_add(u32::from(cost.is_some()));
            }
        }
    }
    Ok(format!(in alloc; "{count} costs")?)
}

#[test]
fn tables_tell_the_costs_of_the_rows(rt: HostRuntime) -> Result<(), Fail> {
    let alloc = rt.alloc();
    let mut desk = new_desk(alloc)?;
    assert_eq!(rt; imported(alloc, &mut desk, "i0", DECLARED)?.as_str(), "1");
    assert_eq!(rt; compared(alloc, &desk)?.as_str(), "0 costs");
    let mut draws = Draws(3);
    for number in 1..60 {
        let count = 1 + draws.draw() % 12;
        let body = import_of(alloc, &mut draws, count)?;
        let id = format!(in alloc; "i{number}")?;
        let answer = imported(alloc, &mut desk, id.as_str(), body.as_str())?;
        let costs = compared(alloc, &desk)?;
        assert!(rt; costs.as_str().ends_with(" costs"), "{answer} {costs}");
    }
    let last = "cost-put,metro,routingcost,p8,p8,5\ncost-del,metro,routingcost,p8,p8,\n";
    assert_eq!(rt;
        imported(alloc, &mut desk, "put", last)?
            .as_str()
            .starts_with("row"),
        false
    );
    assert!(rt; compared(alloc, &desk)?.as_str().ends_with(" costs"));
    Ok(())
}
