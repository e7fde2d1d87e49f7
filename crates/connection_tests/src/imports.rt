//! Connections with long imports, and with many.
use crate::talks::Talk;
use std::alloc::{AllocError, Global};
use std::test::Fail;

impl Talk {
    /// Adds an import of CSV records, `~` behind each, that is accepted as the batch of this number.
    fn add_import(&mut self, alloc: Global, n: u64, records: &str) -> Result<(), AllocError> {
        let line = format!(in alloc;
            "POST /edits/i{n} | Content-Type: text/csv~ | {records} | 200 OK | json | {{\"moment\":100,\"n\":{n}}}"
        )?;
        self.add(alloc, line.as_str())
    }

    /// Whether the program gives each request its reply.
    fn is_served(&self, alloc: Global) -> Result<bool, AllocError> {
        self.is_answered(alloc, 30, Vec::new(alloc))
    }
}

/// One record for each number from 0 to before the count, with the number in the place of `#`.
fn records(alloc: Global, record: &str, count: u32) -> Result<String, AllocError> {
    let (before, behind) = record.split_once('#').unwrap_or((record, ""));
    let mut text = String::new(alloc);
    for number in 0..count {
        let line = format!(in alloc; "{before}{number}{behind}~")?;
        text.push_str(line.as_str())?;
    }
    Ok(text)
}

/// The view after three hundred imports that touch the map, with the last eight numbers.
const THREE_HUNDRED: &str = r#"POST /tips | Content-Type: application/alto-tipsparams+json~
    | {"resource-id":"metro","tag":"e1-296"}
    | 200 OK | alto-tips+json | {"tips-view-summary":{"updates-graph-summary":{"end-seq":301,
    "start-edge-rec":{"seq-i":296,"seq-j":300},"start-seq":294}},"tips-view-uri":"http://localhost/tips/metro"}"#;

#[test]
fn three_hundred_imports_behind_one_of_as_many_edits_as_may_be(
    rt: HostRuntime,
) -> Result<(), Fail> {
    let alloc = rt.alloc();
    let mut talk = Talk::new(alloc);
    talk.add_import(alloc, 1, "net-add,metro,,,,~")?;
    // Abstract network elements touch no map, so that each of the 16,384 writes is an edit's.
    let most = records(alloc, "ane-add,metro,link#,,,", 16_384)?;
    talk.add_import(alloc, 2, most.as_str())?;
    for n in 3..303 {
        let one = format!(in alloc; "pid-add,metro,p{n},,,~")?;
        talk.add_import(alloc, n, one.as_str())?;
    }
    talk.add_lines(alloc, THREE_HUNDRED)?;
    assert!(rt; talk.is_served(alloc)?);
    Ok(())
}

/// The views and edges of a cost map behind thirty-one imports of which each but the first puts one cost.
const THIRTY_COSTS: &str = r#"POST /tips | Content-Type: application/alto-tipsparams+json~
    | {"resource-id":"metro:cost:routingcost","tag":"e1-20"}
    | 200 OK | alto-tips+json | {"tips-view-summary":{"updates-graph-summary":{"end-seq":31,
    "start-edge-rec":{"seq-i":0,"seq-j":31},"start-seq":24}},
    "tips-view-uri":"http://localhost/tips/metro:cost:routingcost"}
POST /tips | Content-Type: application/alto-tipsparams+json~
    | {"resource-id":"metro:cost:routingcost","tag":"e1-24"}
    | 200 OK | alto-tips+json | {"tips-view-summary":{"updates-graph-summary":{"end-seq":31,
    "start-edge-rec":{"seq-i":24,"seq-j":28},"start-seq":24}},
    "tips-view-uri":"http://localhost/tips/metro:cost:routingcost"}
GET /tips/metro:cost:routingcost/ug/24/28 | |
    | 200 OK | merge-patch+json | {"cost-map":{"p0":{"p24":1024,"p25":1025,"p26":1026,"p27":1027}}}
GET /tips/metro:cost:routingcost/ug/28/30 | | | 200 OK | merge-patch+json | {"cost-map":{"p0":{"p28":1028,"p29":1029}}}
GET /tips/metro:cost:routingcost/ug/30/31 | | | 200 OK | merge-patch+json | {"cost-map":{"p0":{"p30":1030}}}
GET /tips/metro:cost:routingcost/ug/23/24 | | | 410 Gone | json | {"start-seq":24,"status":410}"#;

/// The records of a network of an ordinary size: 40 PIDs, 600 prefixes, and a cost for each pair.
fn ordinary_network(alloc: Global) -> Result<String, AllocError> {
    let mut text = String::from_str(alloc, "net-add,metro,,,,~metric-add,metro,routingcost,,,~")?;
    text.push_str(records(alloc, "pid-add,metro,p#,,,", 40)?.as_str())?;
    for block in 0..3u32 {
        let prefix = format!(in alloc; "prefix-put,metro,p{block},10.{block}.#.0/24,,")?;
        text.push_str(records(alloc, prefix.as_str(), 200)?.as_str())?;
    }
    for source in 0..40u32 {
        let cost = format!(in alloc; "cost-put,metro,routingcost,p{source},p#,1")?;
        text.push_str(records(alloc, cost.as_str(), 40)?.as_str())?;
    }
    Ok(text)
}

#[test]
fn a_cost_map_is_followed_through_thirty_imports(rt: HostRuntime) -> Result<(), Fail> {
    let alloc = rt.alloc();
    let mut talk = Talk::new(alloc);
    let network = ordinary_network(alloc)?;
    talk.add_import(alloc, 1, network.as_str())?;
    for n in 2..32u64 {
        let (pid, cost) = (n - 1, n + 999);
        let one = format!(in alloc; "cost-put,metro,routingcost,p0,p{pid},{cost}~")?;
        talk.add_import(alloc, n, one.as_str())?;
    }
    talk.add_lines(alloc, THIRTY_COSTS)?;
    assert!(rt; talk.is_served(alloc)?);
    Ok(())
}

/// The bytes of the longest body.
const LONGEST_BODY: usize = 4_194_304;

/// A JSON import with a member that is passed over, as long as a body may be.
fn longest_import(alloc: Global) -> Result<String, AllocError> {
    let edits = r#"{"edits":[["net-add","metro"]],"note":""#;
    let end = "\"}";
    let note = "x".repeat(alloc, LONGEST_BODY - edits.len() - end.len())?;
    format!(in alloc; "{edits}{note}{end}")
}

#[test]
fn the_longest_body_is_read(rt: HostRuntime) -> Result<(), Fail> {
    let alloc = rt.alloc();
    let body = longest_import(alloc)?;
    assert_eq!(rt; body.len(), LONGEST_BODY);
    let mut talk = Talk::new(alloc);
    let line = format!(in alloc;
        "POST /edits/i1 | Content-Type: application/json~ | {body} | 200 OK | json | {{\"moment\":100,\"n\":1}}"
    )?;
    talk.add(alloc, line.as_str())?;
    assert!(rt; talk.is_served(alloc)?);
    Ok(())
}

/// The numbers that make a drill: x becomes 6364136223846793005 x + 1442695040888963407 modulo 2^64, and a draw is x
/// divided by 2^33.
#[derive(Drop)]
struct Draws {
    x: u64,
}

impl Draws {
    /// The next draw.
    fn next(&mut self) -> u64 {
        self.x = self
            .x
            .wrapping_mul(6_364_136_223_846_793_005)
            .wrapping_add(1_442_695_040_888_963_407);
        self.x / 8_589_934_592
    }
}

/// The records of a drill's import from the second on.
fn drill_records(alloc: Global, k: u64, draws: &mut Draws) -> Result<String, AllocError> {
    let mut text = String::new(alloc);
    if k % 5 == 0 {
        let pid = (k / 5) % 8;
        let anew = format!(in alloc; "pid-drop,d,p{pid},,,~pid-add,d,p{pid},,,~")?;
        text.push_str(anew.as_str())?;
    }
    let (high, low, pid) = (k / 256, k % 256, draws.next() % 8);
    let prefix = format!(in alloc; "prefix-put,d,p{pid},10.{high}.{low}.0/24,,~")?;
    text.push_str(prefix.as_str())?;
    let (source, destination, cost) = (draws.next() % 8, draws.next() % 8, draws.next() % 1_000);
    let cost = format!(in alloc; "cost-put,d,routingcost,p{source},p{destination},{cost}~")?;
    text.push_str(cost.as_str())?;
    let (pid, color) = (draws.next() % 8, draws.next() % 1_000);
    let color = format!(in alloc; "prop-put,d,d.pid:p{pid},color,n,{color}~")?;
    text.push_str(color.as_str())?;
    Ok(text)
}

/// The view after a drill of forty imports: each touches the map, and the last eight numbers are kept.
const DRILLED: &str =
    r#"POST /tips | Content-Type: application/alto-tipsparams+json~ | {"resource-id":"d","tag":"e1-36"}
    | 200 OK | alto-tips+json | {"tips-view-summary":{"updates-graph-summary":{"end-seq":40,
    "start-edge-rec":{"seq-i":36,"seq-j":40},"start-seq":33}},"tips-view-uri":"http://localhost/tips/d"}
POST /tips | Content-Type: application/alto-tipsparams+json~ | {"resource-id":"d","tag":"e1-40"}
    | 200 OK | alto-tips+json | {"tips-view-summary":{"updates-graph-summary":{"end-seq":40,
    "start-edge-rec":{"seq-i":40,"seq-j":41},"start-seq":33}},"tips-view-uri":"http://localhost/tips/d"}"#;

#[test]
fn a_drill_of_forty_imports_is_accepted(rt: HostRuntime) -> Result<(), Fail> {
    let alloc = rt.alloc();
    let mut talk = Talk::new(alloc);
    let pids = records(alloc, "pid-add,d,p#,,,", 8)?;
    let first = format!(in alloc; "net-add,d,,,,~{pids}metric-add,d,routingcost,,,~")?;
    talk.add_import(alloc, 1, first.as_str())?;
    let mut draws = Draws { x: 7 };
    for k in 2..=40 {
        let body = drill_records(alloc, k, &mut draws)?;
        talk.add_import(alloc, k, body.as_str())?;
    }
    talk.add_lines(alloc, DRILLED)?;
    assert!(rt; talk.is_served(alloc)?);
    Ok(())
}
