//! Endpoint costs and filtered property maps, by their replies.
use crate::maps::SCRIPT;
use crate::talks::Talk;
use std::alloc::{AllocError, Global};
use std::test::Fail;

/// Endpoint costs behind the four imports, over a console, which tells no address, and each fault of their bodies.
const ENDPOINTS: &str =
    r#"POST /endpointcost/metro | Content-Type: application/alto-endpointcostparams+json~
    | {"cost-type":{"cost-mode":"numerical","cost-metric":"routingcost"},"endpoints":{"srcs":["ipv4:192.0.2.9"],
    "dsts":["ipv4:203.0.113.5","ipv6:2001:db8::1"]}}
    | 200 OK | alto-endpointcost+json | {"endpoint-cost-map":{"ipv4:192.0.2.9":{"ipv4:203.0.113.5":7}},
    "meta":{"cost-type":{"cost-metric":"routingcost","cost-mode":"numerical"}}}
POST /endpointcost/metro | Content-Type: application/alto-endpointcostparams+json~
    | {"cost-type":{"cost-mode":"numerical","cost-metric":"routingcost"},"endpoints":{"srcs":[],
    "dsts":["ipv4:203.0.113.5"]}}
    | 200 OK | alto-endpointcost+json | {"endpoint-cost-map":{},"meta":{"cost-type":{"cost-metric":"routingcost",
    "cost-mode":"numerical"}}}
POST /endpointcost/metro | Content-Type: application/alto-endpointcostparams+json~
    | {"cost-type":{"cost-mode":"numerical","cost-metric":"routingcost"},"endpoints":{"srcs":["ipv4:192.0.2.9"]}}
    | 200 OK | alto-endpointcost+json | {"endpoint-cost-map":{},"meta":{"cost-type":{"cost-metric":"routingcost",
    "cost-mode":"numerical"}}}
POST /endpointcost/metro | Content-Type: application/alto-endpointcostparams+json~
    | {"cost-type":{"cost-mode":"numerical","cost-metric":"routingcost"},"endpoints":{}}
    | 200 OK | alto-endpointcost+json | {"endpoint-cost-map":{},"meta":{"cost-type":{"cost-metric":"routingcost",
    "cost-mode":"numerical"}}}
POST /endpointcost/metro | Content-Type: application/alto-endpointcostparams+json~
    | {"cost-type":{"cost-mode":"numerical","cost-metric":"routingcost"},"endpoints":{"srcs":["ipv4:192.0.2.9",
    "ipv4:203.0.113.5","ipv4:192.0.2.9"],"dsts":["ipv4:203.0.113.5","ipv4:203.0.113.5"]}}
    | 200 OK | alto-endpointcost+json | {"endpoint-cost-map":{"ipv4:192.0.2.9":{"ipv4:203.0.113.5":7}},
    "meta":{"cost-type":{"cost-metric":"routingcost","cost-mode":"numerical"}}}
POST /endpointcost/metro | Content-Type: application/alto-endpointcostparams+json~
    | {"cost-type":{"cost-mode":"numerical","cost-metric":"routingcost"},"endpoints":{"srcs":["ipv4:192.0.2.9"],
    "dsts":["ipv4:203.0.113.5"]},"constraints":["gt 7"]}
    | 200 OK | alto-endpointcost+json | {"endpoint-cost-map":{},"meta":{"cost-type":{"cost-metric":"routingcost",
    "cost-mode":"numerical"}}}
POST /endpointcost/metro | Content-Type: application/alto-endpointcostparams+json~
    | {"cost-type":{"cost-mode":"numerical","cost-metric":"routingcost"},"endpoints":{"srcs":["ipv4:192.0.2.9"],
    "dsts":["ipv4:203.0.113.5"]},"or-constraints":[["gt 7"],["ge 7"]]}
    | 200 OK | alto-endpointcost+json | {"endpoint-cost-map":{"ipv4:192.0.2.9":{"ipv4:203.0.113.5":7}},
    "meta":{"cost-type":{"cost-metric":"routingcost","cost-mode":"numerical"}}}
POST /edits/i5 | Content-Type: text/csv~
    | metric-add,metro,hopcount,,,~cost-put,metro,hopcount,west,east,2~prefix-put,metro,east,2001:db8::/32,,~
    | 200 OK | json | {"moment":100,"n":5}
POST /endpointcost/metro | Content-Type: application/alto-endpointcostparams+json~
    | {"multi-cost-types":[{"cost-mode":"numerical","cost-metric":"routingcost"},{"cost-mode":"numerical",
    "cost-metric":"hopcount"}],"endpoints":{"srcs":["ipv4:203.0.113.5","ipv4:192.0.2.9"],"dsts":["ipv4:192.0.2.9",
    "ipv4:203.0.113.5","ipv6:2001:DB8:0::1"]}}
    | 200 OK | alto-endpointcost+json | {"endpoint-cost-map":{"ipv4:192.0.2.9":{"ipv4:203.0.113.5":[7,null]},
    "ipv4:203.0.113.5":{"ipv4:192.0.2.9":[null,2],"ipv6:2001:db8::1":[null,2]}},
    "meta":{"multi-cost-types":[{"cost-metric":"routingcost","cost-mode":"numerical"},{"cost-metric":"hopcount",
    "cost-mode":"numerical"}]}}
POST /endpointcost/metro | Content-Type: application/alto-endpointcostparams+json~
    | {"cost-type":{"cost-mode":"ordinal","cost-metric":"routingcost"},"endpoints":{"srcs":["ipv4:192.0.2.9"],
    "dsts":["ipv4:203.0.113.5"]}}
    | 200 OK | alto-endpointcost+json | {"endpoint-cost-map":{"ipv4:192.0.2.9":{"ipv4:203.0.113.5":1}},
    "meta":{"cost-type":{"cost-metric":"routingcost","cost-mode":"ordinal"}}}
POST /endpointcost/metro | Content-Type: application/alto-endpointcostparams+json~ | {}
    | 400 Bad Request | alto-error+json | {"meta":{"code":"E_MISSING_FIELD","field":"cost-type"}}
POST /endpointcost/metro | Content-Type: application/alto-endpointcostparams+json~ | []
    | 400 Bad Request | alto-error+json | {"meta":{"code":"E_SYNTAX"}}
POST /endpointcost/metro | Content-Type: application/alto-endpointcostparams+json~
    | {"cost-type":7,"endpoints":7}
    | 400 Bad Request | alto-error+json | {"meta":{"code":"E_INVALID_FIELD_TYPE","field":"cost-type"}}
POST /endpointcost/metro | Content-Type: application/alto-endpointcostparams+json~
    | {"cost-type":{"cost-mode":"numerical","cost-metric":"routingcost"},"constraints":["x"],"endpoints":7}
    | 400 Bad Request | alto-error+json | {"meta":{"code":"E_INVALID_FIELD_VALUE","field":"constraints","value":"x"}}
POST /endpointcost/metro | Content-Type: application/alto-endpointcostparams+json~
    | {"cost-type":{"cost-mode":"numerical","cost-metric":"routingcost"}}
    | 400 Bad Request | alto-error+json | {"meta":{"code":"E_MISSING_FIELD","field":"endpoints"}}
POST /endpointcost/metro | Content-Type: application/alto-endpointcostparams+json~
    | {"cost-type":{"cost-mode":"numerical","cost-metric":"routingcost"},"endpoints":null}
    | 400 Bad Request | alto-error+json | {"meta":{"code":"E_INVALID_FIELD_TYPE","field":"endpoints"}}
POST /endpointcost/metro | Content-Type: application/alto-endpointcostparams+json~
    | {"cost-type":{"cost-mode":"numerical","cost-metric":"routingcost"},"endpoints":["ipv4:192.0.2.9"]}
    | 400 Bad Request | alto-error+json | {"meta":{"code":"E_INVALID_FIELD_TYPE","field":"endpoints"}}
POST /endpointcost/metro | Content-Type: application/alto-endpointcostparams+json~
    | {"cost-type":{"cost-mode":"numerical","cost-metric":"routingcost"},"endpoints":{"dsts":7,"srcs":7}}
    | 400 Bad Request | alto-error+json | {"meta":{"code":"E_INVALID_FIELD_TYPE","field":"endpoints/srcs"}}
POST /endpointcost/metro | Content-Type: application/alto-endpointcostparams+json~
    | {"cost-type":{"cost-mode":"numerical","cost-metric":"routingcost"},"endpoints":{"srcs":["ipv4:192.0.2.9",7]}}
    | 400 Bad Request | alto-error+json | {"meta":{"code":"E_INVALID_FIELD_TYPE","field":"endpoints/srcs"}}
POST /endpointcost/metro | Content-Type: application/alto-endpointcostparams+json~
    | {"cost-type":{"cost-mode":"numerical","cost-metric":"routingcost"},"endpoints":{"srcs":["ipv4:192.0.2.9",
    "192.0.2.9"],"dsts":7}}
    | 400 Bad Request | alto-error+json | {"meta":{"code":"E_INVALID_FIELD_VALUE","field":"endpoints/srcs",
    "value":"192.0.2.9"}}
POST /endpointcost/metro | Content-Type: application/alto-endpointcostparams+json~
    | {"cost-type":{"cost-mode":"numerical","cost-metric":"routingcost"},"endpoints":{"srcs":["ipv4:192.0.2.9/32"]}}
    | 400 Bad Request | alto-error+json | {"meta":{"code":"E_INVALID_FIELD_VALUE","field":"endpoints/srcs",
    "value":"ipv4:192.0.2.9/32"}}
POST /endpointcost/metro | Content-Type: application/alto-endpointcostparams+json~
    | {"cost-type":{"cost-mode":"numerical","cost-metric":"routingcost"},"endpoints":{"srcs":["ipv6:192.0.2.9"]}}
    | 400 Bad Request | alto-error+json | {"meta":{"code":"E_INVALID_FIELD_VALUE","field":"endpoints/srcs",
    "value":"ipv6:192.0.2.9"}}
POST /endpointcost/metro | Content-Type: application/alto-endpointcostparams+json~
    | {"cost-type":{"cost-mode":"numerical","cost-metric":"routingcost"},"endpoints":{"dsts":null}}
    | 400 Bad Request | alto-error+json | {"meta":{"code":"E_INVALID_FIELD_TYPE","field":"endpoints/dsts"}}
POST /endpointcost/metro | Content-Type: application/alto-endpointcostparams+json~
    | {"cost-type":{"cost-mode":"numerical","cost-metric":"routingcost"},"endpoints":{"dsts":["ipv4:0.0.0.0","east",7]}}
    | 400 Bad Request | alto-error+json | {"meta":{"code":"E_INVALID_FIELD_VALUE","field":"endpoints/dsts",
    "value":"east"}}
POST /endpointcost/other | Content-Type: application/alto-endpointcostparams+json~ | {}
    | 404 Not Found | json | {"status":404,"why":"resource"}
POST /endpointcost/metro | Content-Type: application/alto-costmapfilter+json~ | {}
    | 415 Unsupported Media Type | json | {"status":415}
GET /endpointcost/metro | | | 405 Method Not Allowed | json~Allow: POST | {"status":405}"#;

/// Filtered property maps behind the four imports: inherited properties and PIDs of addresses, and each fault of their
/// bodies.
const PROPERTY_FILTERS: &str = r#"POST /edits/i5 | Content-Type: text/csv~
    | prop-put,metro,ipv4:192.0.0.0/16,region,t,north~prop-put,metro,ipv4:192.0.2.0/24,region,t,lab~
    | 200 OK | json | {"moment":100,"n":5}
POST /filter/prop/metro | Content-Type: application/alto-propmapparams+json~
    | {"entities":["ipv4:192.0.2.9"],"properties":["region","metro.pid"]}
    | 200 OK | alto-propmap+json | {"meta":{"dependent-vtags":[{"resource-id":"metro","tag":"e1-3"}]},
    "property-map":{"ipv4:192.0.2.9":{"metro.pid":"east","region":"lab"}}}
POST /filter/prop/metro | Content-Type: application/alto-propmapparams+json~
    | {"entities":[],"properties":[]}
    | 200 OK | alto-propmap+json | {"meta":{"dependent-vtags":[{"resource-id":"metro","tag":"e1-3"}]},
    "property-map":{"ipv4:192.0.0.0/16":{"region":"north"},"ipv4:192.0.2.0/24":{"region":"lab"}}}
POST /filter/prop/metro | Content-Type: application/alto-propmapparams+json~
    | {"entities":["ipv4:193.0.0.1","ipv4:192.0.3.1"],"properties":["region"]}
    | 200 OK | alto-propmap+json | {"meta":{"dependent-vtags":[{"resource-id":"metro","tag":"e1-3"}]},
    "property-map":{"ipv4:192.0.3.1":{"region":"north"}}}
POST /filter/prop/metro | Content-Type: application/alto-propmapparams+json~
    | {"entities":["ipv4:192.0.2.0/24"],"properties":["metro.pid"]}
    | 200 OK | alto-propmap+json | {"meta":{"dependent-vtags":[{"resource-id":"metro","tag":"e1-3"}]},"property-map":{}}
POST /filter/prop/metro | Content-Type: application/alto-propmapparams+json~
    | {"entities":["ipv4:192.0.2.128/25"],"properties":["metro.pid","region"]}
    | 200 OK | alto-propmap+json | {"meta":{"dependent-vtags":[{"resource-id":"metro","tag":"e1-3"}]},
    "property-map":{"ipv4:192.0.2.128/25":{"region":"lab"}}}
POST /filter/prop/metro | Content-Type: application/alto-propmapparams+json~
    | {"entities":["ipv4:192.0.2.9/32"],"properties":["metro.pid"]}
    | 200 OK | alto-propmap+json | {"meta":{"dependent-vtags":[{"resource-id":"metro","tag":"e1-3"}]},
    "property-map":{"ipv4:192.0.2.9":{"metro.pid":"east"}}}
POST /filter/prop/metro | Content-Type: application/alto-propmapparams+json~
    | {"entities":["ipv4:0.0.0.0/0","ipv6:2001:db8::1","metro.pid:nobody"],"properties":[]}
    | 200 OK | alto-propmap+json | {"meta":{"dependent-vtags":[{"resource-id":"metro","tag":"e1-3"}]},"property-map":{}}
POST /edits/i6 | Content-Type: text/csv~
    | prop-put,metro,ipv4:192.0.2.0/25,color,t,red~prop-put,metro,ipv4:192.0.2.0/24,speed,n,5~prop-put,metro,
    metro.pid:east,color,n,7~prop-put,metro,ipv4:192.0.2.7/32,color,t,blue~prop-put,metro,ipv6:::/0,region,t,six~
    | 200 OK | json | {"moment":100,"n":6}
POST /filter/prop/metro | Content-Type: application/alto-propmapparams+json~
    | {"entities":["ipv4:192.0.2.9","metro.pid:east","metro.pid:west","ipv4:192.0.2.9"],"properties":[]}
    | 200 OK | alto-propmap+json | {"meta":{"dependent-vtags":[{"resource-id":"metro","tag":"e1-3"}]},
    "property-map":{"ipv4:192.0.2.9":{"color":"red","metro.pid":"east","region":"lab","speed":5},
    "metro.pid:east":{"color":7}}}
POST /filter/prop/metro | Content-Type: application/alto-propmapparams+json~
    | {"entities":["ipv4:192.0.2.7","ipv4:192.0.2.0/26"],"properties":["color","speed","color","nope"]}
    | 200 OK | alto-propmap+json | {"meta":{"dependent-vtags":[{"resource-id":"metro","tag":"e1-3"}]},
    "property-map":{"ipv4:192.0.2.0/26":{"color":"red","speed":5},"ipv4:192.0.2.7":{"color":"blue","speed":5}}}
POST /filter/prop/metro | Content-Type: application/alto-propmapparams+json~
    | {"entities":[],"properties":["speed","metro.pid"]}
    | 200 OK | alto-propmap+json | {"meta":{"dependent-vtags":[{"resource-id":"metro","tag":"e1-3"}]},
    "property-map":{"ipv4:192.0.2.0/24":{"speed":5},"ipv4:192.0.2.0/25":{"speed":5},
    "ipv4:192.0.2.7":{"metro.pid":"east","speed":5}}}
POST /filter/prop/metro | Content-Type: application/alto-propmapparams+json~
    | {"entities":["ipv6:2001:db8::1","ipv6:2001:db8::/32"],"properties":["region","metro.pid"]}
    | 200 OK | alto-propmap+json | {"meta":{"dependent-vtags":[{"resource-id":"metro","tag":"e1-3"}]},
    "property-map":{"ipv6:2001:db8::/32":{"region":"six"},"ipv6:2001:db8::1":{"region":"six"}}}
POST /filter/prop/metro | Content-Type: application/alto-propmapparams+json~
    | {"entities":["ipv4:192.0.2.9"],"properties":["other.pid","ane","max-reservable-bandwidth"]}
    | 200 OK | alto-propmap+json | {"meta":{"dependent-vtags":[{"resource-id":"metro","tag":"e1-3"}]},"property-map":{}}
POST /filter/prop/metro | Content-Type: application/alto-propmapparams+json~ | {}
    | 400 Bad Request | alto-error+json | {"meta":{"code":"E_MISSING_FIELD","field":"entities"}}
POST /filter/prop/metro | Content-Type: application/alto-propmapparams+json~ | {"properties":7}
    | 400 Bad Request | alto-error+json | {"meta":{"code":"E_MISSING_FIELD","field":"entities"}}
POST /filter/prop/metro | Content-Type: application/alto-propmapparams+json~
    | {"entities":7,"properties":7}
    | 400 Bad Request | alto-error+json | {"meta":{"code":"E_INVALID_FIELD_TYPE","field":"entities"}}
POST /filter/prop/metro | Content-Type: application/alto-propmapparams+json~
    | {"entities":["ipv4:192.0.2.9",7]}
    | 400 Bad Request | alto-error+json | {"meta":{"code":"E_INVALID_FIELD_TYPE","field":"entities"}}
POST /filter/prop/metro | Content-Type: application/alto-propmapparams+json~
    | {"entities":["other.pid:east"]}
    | 400 Bad Request | alto-error+json | {"meta":{"code":"E_INVALID_FIELD_VALUE","field":"entities",
    "value":"other.pid:east"}}
POST /filter/prop/metro | Content-Type: application/alto-propmapparams+json~
    | {"entities":["ipv4:192.0.2.1/24"],"properties":7}
    | 400 Bad Request | alto-error+json | {"meta":{"code":"E_INVALID_FIELD_VALUE","field":"entities",
    "value":"ipv4:192.0.2.1/24"}}
POST /filter/prop/metro | Content-Type: application/alto-propmapparams+json~
    | {"entities":["metro.pid:ea.st"]}
    | 400 Bad Request | alto-error+json | {"meta":{"code":"E_INVALID_FIELD_VALUE","field":"entities",
    "value":"metro.pid:ea.st"}}
POST /filter/prop/metro | Content-Type: application/alto-propmapparams+json~ | {"entities":["east"]}
    | 400 Bad Request | alto-error+json | {"meta":{"code":"E_INVALID_FIELD_VALUE","field":"entities","value":"east"}}
POST /filter/prop/metro | Content-Type: application/alto-propmapparams+json~ | {"entities":[]}
    | 400 Bad Request | alto-error+json | {"meta":{"code":"E_MISSING_FIELD","field":"properties"}}
POST /filter/prop/metro | Content-Type: application/alto-propmapparams+json~
    | {"entities":[],"properties":null}
    | 400 Bad Request | alto-error+json | {"meta":{"code":"E_INVALID_FIELD_TYPE","field":"properties"}}
POST /filter/prop/metro | Content-Type: application/alto-propmapparams+json~
    | {"entities":[],"properties":["region",7]}
    | 400 Bad Request | alto-error+json | {"meta":{"code":"E_INVALID_FIELD_TYPE","field":"properties"}}
POST /filter/prop/metro | Content-Type: application/alto-propmapparams+json~
    | {"entities":[],"properties":[7.5]}
    | 400 Bad Request | alto-error+json | {"meta":{"code":"E_SYNTAX"}}
POST /filter/prop/other | Content-Type: application/alto-propmapparams+json~ | {}
    | 404 Not Found | json | {"status":404,"why":"resource"}
POST /filter/prop/metro | Content-Type: application/alto-propmap+json~ | {}
    | 415 Unsupported Media Type | json | {"status":415}
GET /filter/prop/metro | | | 405 Method Not Allowed | json~Allow: POST | {"status":405}"#;

/// Whether these tables are answered so, one after the other.
pub(crate) fn are_served_so(alloc: Global, tables: &[&str]) -> Result<bool, AllocError> {
    let mut talk = Talk::new(alloc);
    for table in tables {
        talk.add_lines(alloc, table)?;
    }
    talk.is_answered(alloc, 30, Vec::new(alloc))
}

#[test]
fn endpoint_costs_are_told(rt: HostRuntime) -> Result<(), Fail> {
    let alloc = rt.alloc();
    assert!(rt; are_served_so(alloc, &[SCRIPT, ENDPOINTS])?);
    Ok(())
}

#[test]
fn properties_are_inherited(rt: HostRuntime) -> Result<(), Fail> {
    let alloc = rt.alloc();
    assert!(rt; are_served_so(alloc, &[SCRIPT, PROPERTY_FILTERS])?);
    Ok(())
}
