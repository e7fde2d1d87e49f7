//! Path vectors and the directory, by their replies.
use crate::maps::SCRIPT;
use crate::queries::are_served_so;
use crate::talks::{Talk, joined};
use std::test::Fail;

/// Each fault of the body of a path vector.
const PATH_FAULTS: &str =
    r#"POST /pathvector/metro | Content-Type: application/alto-costmapfilter+json~ | {}
    | 400 Bad Request | alto-error+json | {"meta":{"code":"E_MISSING_FIELD","field":"cost-type"}}
POST /pathvector/metro | Content-Type: application/alto-costmapfilter+json~ | {"cost-type":[]}
    | 400 Bad Request | alto-error+json | {"meta":{"code":"E_INVALID_FIELD_TYPE","field":"cost-type"}}
POST /pathvector/metro | Content-Type: application/alto-costmapfilter+json~ | {"cost-type":{}}
    | 400 Bad Request | alto-error+json | {"meta":{"code":"E_MISSING_FIELD","field":"cost-type/cost-mode"}}
POST /pathvector/metro | Content-Type: application/alto-costmapfilter+json~
    | {"cost-type":{"cost-mode":7}}
    | 400 Bad Request | alto-error+json | {"meta":{"code":"E_INVALID_FIELD_TYPE","field":"cost-type/cost-mode"}}
POST /pathvector/metro | Content-Type: application/alto-costmapfilter+json~
    | {"cost-type":{"cost-mode":"numerical","cost-metric":7}}
    | 400 Bad Request | alto-error+json | {"meta":{"code":"E_INVALID_FIELD_VALUE","field":"cost-type/cost-mode",
    "value":"numerical"}}
POST /pathvector/metro | Content-Type: application/alto-costmapfilter+json~
    | {"cost-type":{"cost-mode":"array"}}
    | 400 Bad Request | alto-error+json | {"meta":{"code":"E_MISSING_FIELD","field":"cost-type/cost-metric"}}
POST /pathvector/metro | Content-Type: application/alto-costmapfilter+json~
    | {"cost-type":{"cost-mode":"array","cost-metric":7}}
    | 400 Bad Request | alto-error+json | {"meta":{"code":"E_INVALID_FIELD_TYPE","field":"cost-type/cost-metric"}}
POST /pathvector/metro | Content-Type: application/alto-costmapfilter+json~
    | {"cost-type":{"cost-mode":"array","cost-metric":"routingcost"}}
    | 400 Bad Request | alto-error+json | {"meta":{"code":"E_INVALID_FIELD_VALUE","field":"cost-type/cost-metric",
    "value":"routingcost"}}
POST /pathvector/metro | Content-Type: application/alto-costmapfilter+json~
    | {"cost-type":{"cost-mode":"array","cost-metric":"ane-path"},"constraints":[]}
    | 400 Bad Request | alto-error+json | {"meta":{"code":"E_INVALID_FIELD_VALUE","field":"constraints"}}
POST /pathvector/metro | Content-Type: application/alto-costmapfilter+json~
    | {"cost-type":{"cost-mode":"array","cost-metric":"ane-path"},"or-constraints":7,"pids":7}
    | 400 Bad Request | alto-error+json | {"meta":{"code":"E_INVALID_FIELD_VALUE","field":"or-constraints"}}
POST /pathvector/metro | Content-Type: application/alto-costmapfilter+json~
    | {"cost-type":{"cost-mode":"array","cost-metric":"ane-path"},"or-constraints":[],"constraints":null}
    | 400 Bad Request | alto-error+json | {"meta":{"code":"E_INVALID_FIELD_VALUE","field":"constraints"}}
POST /pathvector/metro | Content-Type: application/alto-costmapfilter+json~
    | {"cost-type":{"cost-mode":"array","cost-metric":"ane-path"},"pids":["east"]}
    | 400 Bad Request | alto-error+json | {"meta":{"code":"E_INVALID_FIELD_TYPE","field":"pids"}}
POST /pathvector/metro | Content-Type: application/alto-costmapfilter+json~
    | {"cost-type":{"cost-mode":"array","cost-metric":"ane-path"},"pids":{"dsts":7,"srcs":["east",7]}}
    | 400 Bad Request | alto-error+json | {"meta":{"code":"E_INVALID_FIELD_TYPE","field":"pids/srcs"}}
POST /pathvector/metro | Content-Type: application/alto-costmapfilter+json~
    | {"cost-type":{"cost-mode":"array","cost-metric":"ane-path"},"pids":{"dsts":null},"ane-property-names":7}
    | 400 Bad Request | alto-error+json | {"meta":{"code":"E_INVALID_FIELD_TYPE","field":"pids/dsts"}}
POST /pathvector/metro | Content-Type: application/alto-costmapfilter+json~
    | {"cost-type":{"cost-mode":"array","cost-metric":"ane-path"},"ane-property-names":"max-reservable-bandwidth"}
    | 400 Bad Request | alto-error+json | {"meta":{"code":"E_INVALID_FIELD_TYPE","field":"ane-property-names"}}
POST /pathvector/metro | Content-Type: application/alto-costmapfilter+json~
    | {"cost-type":{"cost-mode":"array","cost-metric":"ane-path"},"ane-property-names":["max-reservable-bandwidth",7]}
    | 400 Bad Request | alto-error+json | {"meta":{"code":"E_INVALID_FIELD_TYPE","field":"ane-property-names"}}
POST /pathvector/metro | Content-Type: application/alto-costmapfilter+json~
    | {"cost-type":{"cost-mode":"array","cost-metric":"ane-path"},"ane-property-names":["max-reservable-bandwidth",
    "color"]}
    | 400 Bad Request | alto-error+json | {"meta":{"code":"E_INVALID_FIELD_VALUE","field":"ane-property-names",
    "value":"color"}}
POST /pathvector/other | Content-Type: application/alto-costmapfilter+json~ | {}
    | 404 Not Found | json | {"status":404,"why":"resource"}
POST /pathvector/metro | Content-Type: application/alto-costmap+json~ | {}
    | 415 Unsupported Media Type | json | {"status":415}
GET /pathvector/metro | | | 405 Method Not Allowed | json~Allow: POST | {"status":405}"#;

/// A third PID, two abstract network elements and two paths that share one.
const PATH_SCRIPT: &str = r#"POST /edits/i5 | Content-Type: text/csv~
    | pid-add,metro,north,,,~ane-add,metro,core,,,~ane-add,metro,tail,,,~ane-set,metro,core,max-reservable-bandwidth,
    1000,~path-put,metro,east,west,core,~path-put,metro,east,north,core tail,~
    | 200 OK | json | {"moment":100,"n":5}"#;

/// The directory of no network, of one, and of two with metrics and properties.
const DIRECTORY: &str =
    r#"GET /directory | | | 200 OK | alto-directory+json | {"meta":{"cost-types":{}},"resources":{}}
POST /edits/i1 | Content-Type: text/csv~ | net-add,metro,,,,~ | 200 OK | json | {"moment":100,"n":1}
GET /directory | |
    | 200 OK | alto-directory+json | {"meta":{"cost-types":{"path-vector":{"cost-metric":"ane-path",
    "cost-mode":"array"}},"default-alto-network-map":"metro"},
    "resources":{"alto:tips":{"accepts":"application/alto-tipsparams+json",
    "capabilities":{"incremental-change-media-types":{"metro":"application/merge-patch+json,
    application/json-patch+json","metro:prop":"application/merge-patch+json,application/json-patch+json"}},
    "media-type":"application/alto-tips+json","uri":"/tips","uses":["metro","metro:prop"]},
    "metro":{"media-type":"application/alto-networkmap+json","uri":"/maps/metro"},
    "metro:filter":{"accepts":"application/alto-networkmapfilter+json","media-type":"application/alto-networkmap+json",
    "uri":"/filter/net/metro","uses":["metro"]},"metro:path":{"accepts":"application/alto-costmapfilter+json",
    "capabilities":{"ane-property-names":["max-reservable-bandwidth"],"cost-type-names":["path-vector"]},
    "media-type":"multipart/related;type=application/alto-costmap+json","uri":"/pathvector/metro","uses":["metro"]},
    "metro:prop":{"capabilities":{"mappings":{}},"media-type":"application/alto-propmap+json","uri":"/maps/metro:prop",
    "uses":["metro"]},"metro:props":{"accepts":"application/alto-propmapparams+json",
    "capabilities":{"mappings":{"ipv4":["metro.pid"],"ipv6":["metro.pid"]}},
    "media-type":"application/alto-propmap+json","uri":"/filter/prop/metro","uses":["metro"]}}}
POST /edits/i2 | Content-Type: text/csv~
    | net-add,alpha,,,,~pid-add,metro,east,,,~metric-add,metro,routingcost,,,~metric-add,metro,hopcount,,,~metric-add,
    alpha,delay,,,~prop-put,metro,ipv4:192.0.2.0/24,region,t,lab~prop-put,metro,ipv4:0.0.0.0/0,asn,n,64496~prop-put,
    metro,metro.pid:east,color,n,7~prop-put,alpha,ipv6:2001:db8::1,region,t,lab~ane-add,metro,core,,,~
    | 200 OK | json | {"moment":100,"n":2}
GET /directory | |
    | 200 OK | alto-directory+json | {"meta":{"cost-types":{"num-delay":{"cost-metric":"delay",
    "cost-mode":"numerical"},"num-hopcount":{"cost-metric":"hopcount","cost-mode":"numerical"},
    "num-routingcost":{"cost-metric":"routingcost","cost-mode":"numerical"},"ord-delay":{"cost-metric":"delay",
    "cost-mode":"ordinal"},"ord-hopcount":{"cost-metric":"hopcount","cost-mode":"ordinal"},
    "ord-routingcost":{"cost-metric":"routingcost","cost-mode":"ordinal"},"path-vector":{"cost-metric":"ane-path",
    "cost-mode":"array"}},"default-alto-network-map":"alpha"},
    "resources":{"alpha":{"media-type":"application/alto-networkmap+json","uri":"/maps/alpha"},
    "alpha:cost:delay":{"capabilities":{"cost-type-names":["num-delay"]},"media-type":"application/alto-costmap+json",
    "uri":"/maps/alpha:cost:delay","uses":["alpha"]},"alpha:costs":{"accepts":"application/alto-costmapfilter+json",
    "capabilities":{"cost-constraints":true,"cost-type-names":["num-delay","ord-delay"],"max-cost-types":8,
    "testable-cost-type-names":["num-delay"]},"media-type":"application/alto-costmap+json","uri":"/filter/cost/alpha",
    "uses":["alpha"]},"alpha:ends":{"accepts":"application/alto-endpointcostparams+json",
    "capabilities":{"cost-constraints":true,"cost-type-names":["num-delay","ord-delay"],"max-cost-types":8,
    "testable-cost-type-names":["num-delay"]},"media-type":"application/alto-endpointcost+json",
    "uri":"/endpointcost/alpha"},"alpha:filter":{"accepts":"application/alto-networkmapfilter+json",
    "media-type":"application/alto-networkmap+json","uri":"/filter/net/alpha","uses":["alpha"]},
    "alpha:path":{"accepts":"application/alto-costmapfilter+json",
    "capabilities":{"ane-property-names":["max-reservable-bandwidth"],"cost-type-names":["path-vector"]},
    "media-type":"multipart/related;type=application/alto-costmap+json","uri":"/pathvector/alpha","uses":["alpha"]},
    "alpha:prop":{"capabilities":{"mappings":{"ipv6":["region"]}},"media-type":"application/alto-propmap+json",
    "uri":"/maps/alpha:prop","uses":["alpha"]},"alpha:props":{"accepts":"application/alto-propmapparams+json",
    "capabilities":{"mappings":{"ipv4":["alpha.pid"],"ipv6":["alpha.pid","region"]}},
    "media-type":"application/alto-propmap+json","uri":"/filter/prop/alpha","uses":["alpha"]},
    "alto:tips":{"accepts":"application/alto-tipsparams+json",
    "capabilities":{"incremental-change-media-types":{"alpha":"application/merge-patch+json,
    application/json-patch+json","alpha:cost:delay":"application/merge-patch+json,application/json-patch+json",
    "alpha:prop":"application/merge-patch+json,application/json-patch+json",
    "metro":"application/merge-patch+json,application/json-patch+json",
    "metro:cost:hopcount":"application/merge-patch+json,application/json-patch+json",
    "metro:cost:routingcost":"application/merge-patch+json,application/json-patch+json",
    "metro:prop":"application/merge-patch+json,application/json-patch+json"}},
    "media-type":"application/alto-tips+json","uri":"/tips","uses":["alpha","alpha:cost:delay","alpha:prop","metro",
    "metro:cost:hopcount","metro:cost:routingcost","metro:prop"]},
    "metro":{"media-type":"application/alto-networkmap+json","uri":"/maps/metro"},
    "metro:cost:hopcount":{"capabilities":{"cost-type-names":["num-hopcount"]},
    "media-type":"application/alto-costmap+json","uri":"/maps/metro:cost:hopcount","uses":["metro"]},
    "metro:cost:routingcost":{"capabilities":{"cost-type-names":["num-routingcost"]},
    "media-type":"application/alto-costmap+json","uri":"/maps/metro:cost:routingcost","uses":["metro"]},
    "metro:costs":{"accepts":"application/alto-costmapfilter+json","capabilities":{"cost-constraints":true,
    "cost-type-names":["num-hopcount","num-routingcost","ord-hopcount","ord-routingcost"],"max-cost-types":8,
    "testable-cost-type-names":["num-hopcount","num-routingcost"]},"media-type":"application/alto-costmap+json",
    "uri":"/filter/cost/metro","uses":["metro"]},"metro:ends":{"accepts":"application/alto-endpointcostparams+json",
    "capabilities":{"cost-constraints":true,"cost-type-names":["num-hopcount","num-routingcost","ord-hopcount",
    "ord-routingcost"],"max-cost-types":8,"testable-cost-type-names":["num-hopcount","num-routingcost"]},
    "media-type":"application/alto-endpointcost+json","uri":"/endpointcost/metro"},
    "metro:filter":{"accepts":"application/alto-networkmapfilter+json","media-type":"application/alto-networkmap+json",
    "uri":"/filter/net/metro","uses":["metro"]},"metro:path":{"accepts":"application/alto-costmapfilter+json",
    "capabilities":{"ane-property-names":["max-reservable-bandwidth"],"cost-type-names":["path-vector"]},
    "media-type":"multipart/related;type=application/alto-costmap+json","uri":"/pathvector/metro","uses":["metro"]},
    "metro:prop":{"capabilities":{"mappings":{"ipv4":["asn","region"],"metro.pid":["color"]}},
    "media-type":"application/alto-propmap+json","uri":"/maps/metro:prop","uses":["metro"]},
    "metro:props":{"accepts":"application/alto-propmapparams+json","capabilities":{"mappings":{"ipv4":["asn",
    "metro.pid","region"],"ipv6":["metro.pid"],"metro.pid":["color"]}},"media-type":"application/alto-propmap+json",
    "uri":"/filter/prop/metro","uses":["metro"]}}}
POST /edits/i3 | Content-Type: text/csv~
    | net-drop,alpha,,,,~metric-drop,metro,routingcost,,,~metric-drop,metro,hopcount,,,~prop-del,metro,
    ipv4:192.0.2.0/24,region,,~prop-del,metro,ipv4:0.0.0.0/0,asn,,~prop-del,metro,metro.pid:east,color,,~
    | 200 OK | json | {"moment":100,"n":3}
GET /directory | |
    | 200 OK | alto-directory+json | {"meta":{"cost-types":{"path-vector":{"cost-metric":"ane-path",
    "cost-mode":"array"}},"default-alto-network-map":"metro"},
    "resources":{"alto:tips":{"accepts":"application/alto-tipsparams+json",
    "capabilities":{"incremental-change-media-types":{"metro":"application/merge-patch+json,
    application/json-patch+json","metro:prop":"application/merge-patch+json,application/json-patch+json"}},
    "media-type":"application/alto-tips+json","uri":"/tips","uses":["metro","metro:prop"]},
    "metro":{"media-type":"application/alto-networkmap+json","uri":"/maps/metro"},
    "metro:filter":{"accepts":"application/alto-networkmapfilter+json","media-type":"application/alto-networkmap+json",
    "uri":"/filter/net/metro","uses":["metro"]},"metro:path":{"accepts":"application/alto-costmapfilter+json",
    "capabilities":{"ane-property-names":["max-reservable-bandwidth"],"cost-type-names":["path-vector"]},
    "media-type":"multipart/related;type=application/alto-costmap+json","uri":"/pathvector/metro","uses":["metro"]},
    "metro:prop":{"capabilities":{"mappings":{}},"media-type":"application/alto-propmap+json","uri":"/maps/metro:prop",
    "uses":["metro"]},"metro:props":{"accepts":"application/alto-propmapparams+json",
    "capabilities":{"mappings":{"ipv4":["metro.pid"],"ipv6":["metro.pid"]}},
    "media-type":"application/alto-propmap+json","uri":"/filter/prop/metro","uses":["metro"]}}}
POST /directory | | | 405 Method Not Allowed | json~Allow: GET | {"status":405}"#;

/// The fields and the body of a request for two pairs that share an abstract network element, and its reply.
const PATH_REQUEST: &str =
    r#"POST /pathvector/metro | Content-Type: application/alto-costmapfilter+json~
    | {"cost-type":{"cost-mode":"array","cost-metric":"ane-path"},"pids":{"srcs":["east"],"dsts":["west","north"]},
    "ane-property-names":["max-reservable-bandwidth"]}"#;

const PATH_TYPE: &str =
    r#"multipart/related;boundary=alto-part;type="application/alto-costmap+json""#;

const PATH_REPLY: &str = r#"--alto-part
Content-ID: <costmap@alto>
Content-Type: application/alto-costmap+json

{"cost-map":{"east":{"north":["core","tail"],"west":["core"]}},"meta":{"cost-type":{"cost-metric":"ane-path",
    "cost-mode":"array"},"dependent-vtags":[{"resource-id":"metro","tag":"e1-4"}],
    "vtag":{"resource-id":"metro:path.costmap","tag":"e1-5"}}}
--alto-part
Content-ID: <propmap@alto>
Content-Type: application/alto-propmap+json

{"meta":{"dependent-vtags":[{"resource-id":"metro:path.costmap","tag":"e1-5"}]},
    "property-map":{".ane:core":{"max-reservable-bandwidth":1000},".ane:tail":{}}}
--alto-part--
"#;

#[test]
fn the_directory_tells_each_resource(rt: HostRuntime) -> Result<(), Fail> {
    let alloc = rt.alloc();
    assert!(rt; are_served_so(alloc, &[DIRECTORY])?);
    Ok(())
}

#[test]
fn path_vectors_are_two_parts(rt: HostRuntime) -> Result<(), Fail> {
    let alloc = rt.alloc();
    assert!(rt; are_served_so(alloc, &[SCRIPT, PATH_FAULTS])?, "faults");
    let mut talk = Talk::new(alloc);
    talk.add_lines(alloc, SCRIPT)?;
    talk.add_lines(alloc, PATH_SCRIPT)?;
    let body = joined(alloc, PATH_REPLY)?;
    let body = body.as_str().replace(alloc, "\n", "\r\n")?;
    talk.add_reply(alloc, PATH_REQUEST, PATH_TYPE, body.as_str())?;
    let served = talk.is_answered(alloc, 30, Vec::new(alloc))?;
    assert!(rt; served, "both parts");
    Ok(())
}
