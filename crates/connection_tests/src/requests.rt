//! The requests of connections, each with its reply.
use crate::talks::{Talk, joined};
use std::test::Fail;

/// The requests of one connection, each with its reply, in six parts: the method and the target, the fields and the
/// body of the request, where `~` stands for an end of line; the status, the media type and further fields, and the
/// body of the reply.
const TALK: &str = r#"GET /maps/metro | | | 404 Not Found | json | {"status":404,"why":"resource"}
POST /edits/i1 | Content-Type: text/csv~ | net-add,metro,,,,~ | 200 OK | json | {"moment":100,"n":1}
GET /maps/metro?x=1 | |
    | 200 OK | alto-networkmap+json | {"meta":{"vtag":{"resource-id":"metro","tag":"e1-1"}},"network-map":{}}
POST /edits/i2 | Content-Type: Text/CSV ; charset=utf-8~ | net-add,metro,,,,~
    | 422 Unprocessable Content | json | {"row":1,"rule":"G1","status":422}
POST /edits/i2 | Content-Type: text/csv~
    | pid-add,metro,east,,,~pid-add,other,east,,,~pid-add,metro,west,,,~
    | 422 Unprocessable Content | json | {"row":2,"rule":"G3","status":422}
POST /edits/i2 | Content-Type: text/csv~
    | pid-add,metro,east,,,~pid-add,metro,east,,,~pid-add,metro,west,,,~
    | 422 Unprocessable Content | json | {"row":2,"rule":"G4","status":422}
POST /edits/i2 | Content-Type: text/csv~ | pid-add,metro,east,,~
    | 400 Bad Request | json | {"column":0,"row":1,"status":400}
POST /edits/i2 | Content-Type: text/csv~ | pid-add,metro,ea.st,,,~
    | 400 Bad Request | json | {"column":3,"row":1,"status":400}
POST /edits/i2 | Content-Type: text/csv~ | pid-add,metro,east,,,~pid-put,metro,east,,,~
    | 400 Bad Request | json | {"column":1,"row":2,"status":400}
POST /edits/i2 | Content-Type: text/csv~ | | 400 Bad Request | json | {"column":0,"row":0,"status":400}
POST /edits/i2 | Content-Type: application/json~ | {"edits":[["pid-add","metro","ea.st"]]}
    | 400 Bad Request | json | {"column":3,"row":1,"status":400}
POST /edits/i2 | Content-Type: application/json~ | {} | 400 Bad Request | json | {"column":0,"row":0,"status":400}
POST /edits/i2 | Content-Type: text/plain~ | | 415 Unsupported Media Type | json | {"status":415}
POST /edits/i%202 | Content-Type: text/csv~ | | 400 Bad Request | json | {"column":0,"row":0,"status":400}
GET /maps/metro | |
    | 200 OK | alto-networkmap+json | {"meta":{"vtag":{"resource-id":"metro","tag":"e1-1"}},"network-map":{}}
POST /edits/i2 | Content-Type: application/json~ | {"edits":[["pid-add","metro","east"]]}
    | 200 OK | json | {"moment":100,"n":2}
GET http://alto.example/maps/m%65tro | |
    | 200 OK | alto-networkmap+json | {"meta":{"vtag":{"resource-id":"metro","tag":"e1-2"}},"network-map":{"east":{}}}
POST /edits/i3 | Content-Type: text/csv~ | pid-add,metro,west,,,~ | 200 OK | json | {"moment":100,"n":3}
POST /edits/i%31 | Content-Type: text/csv~ | net-add,metro,,,,~ | 200 OK | json | {"moment":100,"n":1}
POST /edits/i1 | Content-Type: text/csv~ | net-add,other,,,,~ | 409 Conflict | json | {"n":1,"status":409}
GET /tips/metro/ug/0/1 | |
    | 200 OK | alto-networkmap+json | {"meta":{"vtag":{"resource-id":"metro","tag":"e1-1"}},"network-map":{}}
GET /tips/metro/ug/0/2 | |
    | 200 OK | alto-networkmap+json | {"meta":{"vtag":{"resource-id":"metro","tag":"e1-2"}},"network-map":{"east":{}}}
GET /tips/metro/ug/0/3 | |
    | 200 OK | alto-networkmap+json | {"meta":{"vtag":{"resource-id":"metro","tag":"e1-3"}},"network-map":{"east":{},
    "west":{}}}
GET /tips/metro/ug/1/2 | | | 200 OK | merge-patch+json | {"meta":{"vtag":{"tag":"e1-2"}},"network-map":{"east":{}}}
GET /tips/metro/ug/2/%33 | | | 200 OK | merge-patch+json | {"meta":{"vtag":{"tag":"e1-3"}},"network-map":{"west":{}}}
GET /tips/metro/ug/0/0 | | | 404 Not Found | json | {"status":404,"why":"edge"}
GET /tips/metro/ug/3/2 | | | 404 Not Found | json | {"status":404,"why":"edge"}
GET /tips/metro/ug/5/7 | | | 404 Not Found | json | {"status":404,"why":"edge"}
GET /tips/metro/ug/01/2 | | | 404 Not Found | json | {"status":404,"why":"edge"}
GET /tips/metro/ug/1/+2 | | | 404 Not Found | json | {"status":404,"why":"edge"}
GET /tips/metro/ug/0/1234567890123456789 | | | 404 Not Found | json | {"status":404,"why":"edge"}
GET /tips/metro/ug/0/123456789012345678 | | | 425 Too Early | json | {"end-seq":3,"status":425}
GET /tips/metro/ug/0/4 | | | 425 Too Early | json | {"end-seq":3,"status":425}
GET /tips/metro/ug/5/6 | | | 425 Too Early | json | {"end-seq":3,"status":425}
GET /tips/metro/ug/3/4 | | | 425 Too Early | json | {"end-seq":3,"status":425}
GET /tips/other/ug/0/1 | | | 404 Not Found | json | {"status":404,"why":"resource"}
GET /tips/metro:prop/ug/0/1 | |
    | 200 OK | alto-propmap+json | {"meta":{"dependent-vtags":[{"resource-id":"metro","tag":"e1-1"}]},"property-map":{}}
GET /tips/metro/ug/1 | | | 404 Not Found | json | {"status":404,"why":"route"}
POST /tips | Content-Type: application/alto-tipsparams+json; a=b~
    | {"resource-id":"metro","tag":"e1-2"}
    | 200 OK | alto-tips+json | {"tips-view-summary":{"updates-graph-summary":{"end-seq":3,"start-edge-rec":{"seq-i":2,
    "seq-j":3},"start-seq":1}},"tips-view-uri":"http://localhost/tips/metro"}
POST /tips | Host: alto.example:8080~Content-Type: application/alto-tipsparams+json~
    | {"resource-id":"metro","tag":"e1-3"}
    | 200 OK | alto-tips+json | {"tips-view-summary":{"updates-graph-summary":{"end-seq":3,"start-edge-rec":{"seq-i":3,
    "seq-j":4},"start-seq":1}},"tips-view-uri":"http://alto.example:8080/tips/metro"}
POST /tips | Host: [::1]:80~Content-Type: application/alto-tipsparams+json~
    | {"resource-id":"metro"}
    | 200 OK | alto-tips+json | {"tips-view-summary":{"updates-graph-summary":{"end-seq":3,"start-edge-rec":{"seq-i":0,
    "seq-j":3},"start-seq":1}},"tips-view-uri":"http://[::1]:80/tips/metro"}
POST /tips | Host: no/host~Content-Type: application/alto-tipsparams+json~
    | {"unknown":7,"resource-id":"metro","tag":"e2-2"}
    | 200 OK | alto-tips+json | {"tips-view-summary":{"updates-graph-summary":{"end-seq":3,"start-edge-rec":{"seq-i":0,
    "seq-j":3},"start-seq":1}},"tips-view-uri":"http://localhost/tips/metro"}
POST /tips | Content-Type: application/alto-tipsparams+json~ | {"resource-id":"metro"
    | 400 Bad Request | alto-error+json | {"meta":{"code":"E_SYNTAX"}}
POST /tips | Content-Type: application/alto-tipsparams+json~ | {"a":1.5,"resource-id":"metro"}
    | 400 Bad Request | alto-error+json | {"meta":{"code":"E_SYNTAX"}}
POST /tips | Content-Type: application/alto-tipsparams+json~ | {"tag":7}
    | 400 Bad Request | alto-error+json | {"meta":{"code":"E_MISSING_FIELD","field":"resource-id"}}
POST /tips | Content-Type: application/alto-tipsparams+json~ | {"resource-id":7,"tag":7}
    | 400 Bad Request | alto-error+json | {"meta":{"code":"E_INVALID_FIELD_TYPE","field":"resource-id"}}
POST /tips | Content-Type: application/alto-tipsparams+json~ | {"resource-id":"metro:props","tag":7}
    | 400 Bad Request | alto-error+json | {"meta":{"code":"E_INVALID_FIELD_VALUE","field":"resource-id",
    "value":"metro:props"}}
POST /tips | Content-Type: application/alto-tipsparams+json~ | {"resource-id":"metro","tag":7}
    | 400 Bad Request | alto-error+json | {"meta":{"code":"E_INVALID_FIELD_TYPE","field":"tag"}}
POST /tips | Content-Type: application/json~ | {"resource-id":"metro"}
    | 415 Unsupported Media Type | json | {"status":415}
PUT /maps/metro | | | 405 Method Not Allowed | json~Allow: GET | {"status":405}
GET /tips | | | 405 Method Not Allowed | json~Allow: POST | {"status":405}
GET /map/metro | | | 404 Not Found | json | {"status":404,"why":"route"}
POST /edits/i4 | Content-Type: text/csv~ | prefix-put,metro,east,192.0.2.0/24,,~ | 200 OK | json | {"moment":100,"n":4}
GET /maps/metro | |
    | 200 OK | alto-networkmap+json | {"meta":{"vtag":{"resource-id":"metro","tag":"e1-4"}},
    "network-map":{"east":{"ipv4":["192.0.2.0/24"]},"west":{}}}
GET /tips/metro/ug/3/4 | |
    | 200 OK | merge-patch+json | {"meta":{"vtag":{"tag":"e1-4"}},"network-map":{"east":{"ipv4":["192.0.2.0/24"]}}}
GET /tips/metro/ug/2/4 | |
    | 200 OK | merge-patch+json | {"meta":{"vtag":{"tag":"e1-4"}},"network-map":{"east":{"ipv4":["192.0.2.0/24"]},
    "west":{}}}
GET /tips/metro/ug/3/4 | Accept: application/json-patch+json~ |
    | 200 OK | json-patch+json | [{"op":"replace","path":"/meta/vtag/tag","value":"e1-4"},{"op":"add",
    "path":"/network-map/east/ipv4","value":["192.0.2.0/24"]}]
GET /tips/metro/ug/2/4 | Accept: text/html, application/json-patch+json;q=0.5~ |
    | 200 OK | json-patch+json | [{"op":"replace","path":"/meta/vtag/tag","value":"e1-4"},{"op":"add",
    "path":"/network-map/east/ipv4","value":["192.0.2.0/24"]},{"op":"add","path":"/network-map/west","value":{}}]
GET /tips/metro/ug/3/4 | Accept: application/json-patch+json,application/merge-patch+json;q=0.1~ |
    | 200 OK | merge-patch+json | {"meta":{"vtag":{"tag":"e1-4"}},"network-map":{"east":{"ipv4":["192.0.2.0/24"]}}}
GET /tips/metro/ug/3/4 | Accept: application/JSON-Patch+json~ |
    | 200 OK | merge-patch+json | {"meta":{"vtag":{"tag":"e1-4"}},"network-map":{"east":{"ipv4":["192.0.2.0/24"]}}}
GET /tips/metro/ug/0/4 | Accept: application/json-patch+json~ |
    | 200 OK | alto-networkmap+json | {"meta":{"vtag":{"resource-id":"metro","tag":"e1-4"}},
    "network-map":{"east":{"ipv4":["192.0.2.0/24"]},"west":{}}}
POST /filter/net/metro | Content-Type: application/alto-networkmapfilter+json~
    | {"pids":["east","nowhere"],"address-types":["ipv6"]}
    | 200 OK | alto-networkmap+json | {"meta":{"vtag":{"resource-id":"metro","tag":"e1-4"}},"network-map":{"east":{}}}
POST /filter/net/metro | Content-Type: application/alto-networkmapfilter+json~
    | {"pids":["west","east","west"],"address-types":["ipv6","ipv4"]}
    | 200 OK | alto-networkmap+json | {"meta":{"vtag":{"resource-id":"metro","tag":"e1-4"}},
    "network-map":{"east":{"ipv4":["192.0.2.0/24"]},"west":{}}}
POST /filter/net/metro | Content-Type: application/alto-networkmapfilter+json~
    | {"pids":[],"address-types":[]}
    | 200 OK | alto-networkmap+json | {"meta":{"vtag":{"resource-id":"metro","tag":"e1-4"}},
    "network-map":{"east":{"ipv4":["192.0.2.0/24"]},"west":{}}}
POST /filter/net/metro | Content-Type: application/alto-networkmapfilter+json~ | {"pids":["no pid"]}
    | 200 OK | alto-networkmap+json | {"meta":{"vtag":{"resource-id":"metro","tag":"e1-4"}},"network-map":{}}
POST /filter/net/metro | Content-Type: application/alto-networkmapfilter+json~ | {}
    | 400 Bad Request | alto-error+json | {"meta":{"code":"E_MISSING_FIELD","field":"pids"}}
POST /filter/net/metro | Content-Type: application/alto-networkmapfilter+json~ | {"address-types":7}
    | 400 Bad Request | alto-error+json | {"meta":{"code":"E_MISSING_FIELD","field":"pids"}}
POST /filter/net/metro | Content-Type: application/alto-networkmapfilter+json~ | {"pids":"east"}
    | 400 Bad Request | alto-error+json | {"meta":{"code":"E_INVALID_FIELD_TYPE","field":"pids"}}
POST /filter/net/metro | Content-Type: application/alto-networkmapfilter+json~
    | {"pids":null,"address-types":7}
    | 400 Bad Request | alto-error+json | {"meta":{"code":"E_INVALID_FIELD_TYPE","field":"pids"}}
POST /filter/net/metro | Content-Type: application/alto-networkmapfilter+json~
    | {"pids":["east",7],"address-types":["ipv5"]}
    | 400 Bad Request | alto-error+json | {"meta":{"code":"E_INVALID_FIELD_TYPE","field":"pids"}}
POST /filter/net/metro | Content-Type: application/alto-networkmapfilter+json~
    | {"pids":[],"address-types":"ipv4"}
    | 400 Bad Request | alto-error+json | {"meta":{"code":"E_INVALID_FIELD_TYPE","field":"address-types"}}
POST /filter/net/metro | Content-Type: application/alto-networkmapfilter+json~
    | {"pids":[],"address-types":["ipv4","ipv5",7]}
    | 400 Bad Request | alto-error+json | {"meta":{"code":"E_INVALID_FIELD_VALUE","field":"address-types",
    "value":"ipv5"}}
POST /filter/net/metro | Content-Type: application/alto-networkmapfilter+json~
    | {"pids":[],"address-types":["IPv4"]}
    | 400 Bad Request | alto-error+json | {"meta":{"code":"E_INVALID_FIELD_VALUE","field":"address-types",
    "value":"IPv4"}}
POST /filter/net/metro | Content-Type: application/alto-networkmapfilter+json~ | []
    | 400 Bad Request | alto-error+json | {"meta":{"code":"E_SYNTAX"}}
POST /filter/net/other | Content-Type: application/alto-networkmapfilter+json~ | {}
    | 404 Not Found | json | {"status":404,"why":"resource"}
POST /filter/net/metro:prop | Content-Type: application/alto-networkmapfilter+json~ | {"pids":[]}
    | 404 Not Found | json | {"status":404,"why":"resource"}
POST /filter/net/metro | Content-Type: application/json~ | {"pids":[]}
    | 415 Unsupported Media Type | json | {"status":415}
GET /filter/net/metro | | | 405 Method Not Allowed | json~Allow: POST | {"status":405}
POST /edits/i5 | Content-Type: text/csv~ | pid-drop,metro,east,,,~ | 200 OK | json | {"moment":100,"n":5}
GET /tips/metro/ug/4/5 | | | 200 OK | merge-patch+json | {"meta":{"vtag":{"tag":"e1-5"}},"network-map":{"east":null}}
POST /edits/i6 | Content-Type: text/csv~ | net-drop,metro,,,,~ | 200 OK | json | {"moment":100,"n":6}
GET /maps/metro | | | 404 Not Found | json | {"status":404,"why":"resource"}
GET /tips/metro/ug/0/5 | | | 404 Not Found | json | {"status":404,"why":"resource"}
POST /edits/i7 | Content-Type: text/csv~ | net-add,metro,,,,~ | 200 OK | json | {"moment":100,"n":7}
GET /tips/metro/ug/0/6 | |
    | 200 OK | alto-networkmap+json | {"meta":{"vtag":{"resource-id":"metro","tag":"e1-6"}},"network-map":{}}
GET /tips/metro/ug/4/6 | | | 410 Gone | json | {"start-seq":6,"status":410}"#;

/// Views and edges after thirty-one imports, of which the last eight numbers are kept.
const LATER_TALK: &str = r#"POST /tips | Host: h~Content-Type: application/alto-tipsparams+json~
    | {"resource-id":"metro","tag":"e1-20"}
    | 200 OK | alto-tips+json | {"tips-view-summary":{"updates-graph-summary":{"end-seq":31,
    "start-edge-rec":{"seq-i":0,"seq-j":31},"start-seq":24}},"tips-view-uri":"http://h/tips/metro"}
POST /tips | Host: h~Content-Type: application/alto-tipsparams+json~
    | {"resource-id":"metro","tag":"e1-24"}
    | 200 OK | alto-tips+json | {"tips-view-summary":{"updates-graph-summary":{"end-seq":31,
    "start-edge-rec":{"seq-i":24,"seq-j":28},"start-seq":24}},"tips-view-uri":"http://h/tips/metro"}
GET /tips/metro/ug/0/23 | | | 410 Gone | json | {"start-seq":24,"status":410}
GET /tips/metro/ug/23/24 | | | 410 Gone | json | {"start-seq":24,"status":410}
GET /tips/metro/ug/24/28 | |
    | 200 OK | merge-patch+json | {"meta":{"vtag":{"tag":"e1-28"}},"network-map":{"q25":{},"q26":{},"q27":{},"q28":{}}}
GET /tips/metro/ug/28/30 | |
    | 200 OK | merge-patch+json | {"meta":{"vtag":{"tag":"e1-30"}},"network-map":{"q29":{},"q30":{}}}
GET /tips/metro/ug/30/31 | | | 200 OK | merge-patch+json | {"meta":{"vtag":{"tag":"e1-31"}},"network-map":{"q31":{}}}"#;

#[test]
fn each_request_has_its_reply(rt: HostRuntime) -> Result<(), Fail> {
    let alloc = rt.alloc();
    let mut talk = Talk::new(alloc);
    let lines = joined(alloc, TALK)?;
    for line in lines.as_str().lines() {
        talk.add(alloc, line)?;
        assert!(rt; talk.is_answered(alloc, 30, Vec::new(alloc))?, "{line}");
    }
    let ones = vec![in alloc; 1usize]?;
    assert!(rt; talk.is_answered(alloc, 3, ones)?, "byte by byte");
    Ok(())
}

#[test]
fn views_and_edges_behind_thirty_one_imports(rt: HostRuntime) -> Result<(), Fail> {
    let alloc = rt.alloc();
    let mut talk = Talk::new(alloc);
    talk.add_lines(
        alloc,
        r#"POST /edits/i1 | Content-Type: text/csv~ | net-add,metro,,,,~ | 200 OK | json | {"moment":100,"n":1}"#,
    )?;
    for n in 2..=31 {
        let line = format!(in alloc;
            "POST /edits/i{n} | Content-Type: text/csv~ | pid-add,metro,q{n},,,~ \
             | 200 OK | json | {{\"moment\":100,\"n\":{n}}}"
        )?;
        talk.add(alloc, line.as_str())?;
    }
    talk.add_lines(alloc, LATER_TALK)?;
    assert!(rt; talk.is_answered(alloc, 30, Vec::new(alloc))?);
    Ok(())
}
