//! Cost maps, property maps and look-ups, by their replies.
use crate::talks::Talk;
use std::alloc::{AllocError, Global};
use std::test::Fail;

/// Four imports: a network, two PIDs, their prefixes, and a metric with one cost.
pub(crate) const SCRIPT: &str =
    r#"POST /edits/i1 | Content-Type: text/csv~ | net-add,metro,,,,~ | 200 OK | json | {"moment":100,"n":1}
POST /edits/i2 | Content-Type: text/csv~ | pid-add,metro,east,,,~pid-add,metro,west,,,~
    | 200 OK | json | {"moment":100,"n":2}
POST /edits/i3 | Content-Type: text/csv~
    | prefix-put,metro,east,192.0.2.0/24,,~prefix-put,metro,west,0.0.0.0/0,,~
    | 200 OK | json | {"moment":100,"n":3}
POST /edits/i4 | Content-Type: text/csv~
    | metric-add,metro,routingcost,,,~cost-put,metro,routingcost,east,west,7~
    | 200 OK | json | {"moment":100,"n":4}"#;

/// A cost map behind these imports: its document, its view, edges in both forms, and costs at the limit.
const COSTS: &str = r#"GET /maps/metro:cost:routingcost | |
    | 200 OK | alto-costmap+json | {"cost-map":{"east":{"west":7}},"meta":{"cost-type":{"cost-metric":"routingcost",
    "cost-mode":"numerical"},"dependent-vtags":[{"resource-id":"metro","tag":"e1-3"}]}}
GET /maps/metro:cost:hopcount | | | 404 Not Found | json | {"status":404,"why":"resource"}
GET /maps/metro:cost: | | | 404 Not Found | json | {"status":404,"why":"resource"}
GET /tips/metro:cost:routingcost/ug/0/1 | |
    | 200 OK | alto-costmap+json | {"cost-map":{"east":{"west":7}},"meta":{"cost-type":{"cost-metric":"routingcost",
    "cost-mode":"numerical"},"dependent-vtags":[{"resource-id":"metro","tag":"e1-3"}]}}
POST /tips | Content-Type: application/alto-tipsparams+json~
    | {"resource-id":"metro:cost:routingcost","tag":"e1-1"}
    | 200 OK | alto-tips+json | {"tips-view-summary":{"updates-graph-summary":{"end-seq":1,"start-edge-rec":{"seq-i":1,
    "seq-j":2},"start-seq":1}},"tips-view-uri":"http://localhost/tips/metro:cost:routingcost"}
POST /tips | Content-Type: application/alto-tipsparams+json~ | {"resource-id":"metro:cost:hopcount"}
    | 400 Bad Request | alto-error+json | {"meta":{"code":"E_INVALID_FIELD_VALUE","field":"resource-id",
    "value":"metro:cost:hopcount"}}
POST /edits/i5 | Content-Type: text/csv~ | pid-add,metro,north,,,~ | 200 OK | json | {"moment":100,"n":5}
GET /tips/metro:cost:routingcost/ug/1/2 | |
    | 200 OK | merge-patch+json | {"meta":{"dependent-vtags":[{"resource-id":"metro","tag":"e1-4"}]}}
GET /tips/metro:cost:routingcost/ug/1/2 | Accept: application/json-patch+json~ |
    | 200 OK | json-patch+json | [{"op":"replace","path":"/meta/dependent-vtags","value":[{"resource-id":"metro",
    "tag":"e1-4"}]}]
POST /edits/i6 | Content-Type: text/csv~ | cost-del,metro,routingcost,east,west,~ | 200 OK | json | {"moment":100,"n":6}
GET /tips/metro:cost:routingcost/ug/2/3 | | | 200 OK | merge-patch+json | {"cost-map":{"east":null}}
GET /tips/metro:cost:routingcost/ug/2/3 | Accept: application/json-patch+json~ |
    | 200 OK | json-patch+json | [{"op":"remove","path":"/cost-map/east"}]
GET /maps/metro:cost:routingcost | |
    | 200 OK | alto-costmap+json | {"cost-map":{},"meta":{"cost-type":{"cost-metric":"routingcost",
    "cost-mode":"numerical"},"dependent-vtags":[{"resource-id":"metro","tag":"e1-4"}]}}
POST /edits/i7 | Content-Type: text/csv~
    | cost-put,metro,routingcost,east,west,9~cost-put,metro,routingcost,west,east,9007199254740991~
    | 200 OK | json | {"moment":100,"n":7}
GET /tips/metro:cost:routingcost/ug/3/4 | |
    | 200 OK | merge-patch+json | {"cost-map":{"east":{"west":9},"west":{"east":9007199254740991}}}
GET /tips/metro:cost:routingcost/ug/3/4 | Accept: application/json-patch+json~ |
    | 200 OK | json-patch+json | [{"op":"add","path":"/cost-map/east","value":{"west":9}},{"op":"add",
    "path":"/cost-map/west","value":{"east":9007199254740991}}]
POST /edits/i8 | Content-Type: text/csv~
    | cost-put,metro,routingcost,east,north,0~cost-del,metro,routingcost,east,west,~
    | 200 OK | json | {"moment":100,"n":8}
GET /tips/metro:cost:routingcost/ug/4/5 | | | 200 OK | merge-patch+json | {"cost-map":{"east":{"north":0,"west":null}}}
GET /tips/metro:cost:routingcost/ug/4/5 | Accept: application/json-patch+json~ |
    | 200 OK | json-patch+json | [{"op":"add","path":"/cost-map/east/north","value":0},{"op":"remove",
    "path":"/cost-map/east/west"}]
GET /tips/metro:cost:routingcost/ug/2/4 | |
    | 200 OK | merge-patch+json | {"cost-map":{"east":{"west":9},"west":{"east":9007199254740991}}}
POST /edits/i9 | Content-Type: text/csv~ | cost-put,metro,routingcost,east,west,9007199254740992~
    | 400 Bad Request | json | {"column":6,"row":1,"status":400}
GET /tips/metro:cost:routingcost/ug/5/6 | | | 425 Too Early | json | {"end-seq":5,"status":425}
GET /maps/metro:cost:routingcost | |
    | 200 OK | alto-costmap+json | {"cost-map":{"east":{"north":0},"west":{"east":9007199254740991}},
    "meta":{"cost-type":{"cost-metric":"routingcost","cost-mode":"numerical"},
    "dependent-vtags":[{"resource-id":"metro","tag":"e1-4"}]}}
POST /edits/i10 | Content-Type: text/csv~ | metric-drop,metro,routingcost,,,~ | 200 OK | json | {"moment":100,"n":9}
GET /maps/metro:cost:routingcost | | | 404 Not Found | json | {"status":404,"why":"resource"}
GET /tips/metro:cost:routingcost/ug/0/5 | | | 404 Not Found | json | {"status":404,"why":"resource"}"#;

/// A PID that is dropped and declared again, in the network map and in the cost map.
const DROPPED: &str =
    r#"POST /edits/i5 | Content-Type: text/csv~ | pid-add,metro,north,,,~ | 200 OK | json | {"moment":100,"n":5}
POST /edits/i6 | Content-Type: text/csv~ | pid-drop,metro,east,,,~ | 200 OK | json | {"moment":100,"n":6}
POST /edits/i7 | Content-Type: text/csv~ | pid-add,metro,east,,,~ | 200 OK | json | {"moment":100,"n":7}
POST /edits/i8 | Content-Type: text/csv~ | prefix-put,metro,east,198.51.100.0/24,,~
    | 200 OK | json | {"moment":100,"n":8}
POST /edits/i9 | Content-Type: text/csv~ | prefix-put,metro,east,2001:db8::/32,,~ | 200 OK | json | {"moment":100,"n":9}
GET /tips/metro/ug/4/5 | | | 200 OK | merge-patch+json | {"meta":{"vtag":{"tag":"e1-5"}},"network-map":{"east":null}}
GET /tips/metro/ug/5/6 | | | 200 OK | merge-patch+json | {"meta":{"vtag":{"tag":"e1-6"}},"network-map":{"east":{}}}
GET /tips/metro/ug/4/6 | |
    | 200 OK | merge-patch+json | {"meta":{"vtag":{"tag":"e1-6"}},"network-map":{"east":{"ipv4":null}}}
GET /tips/metro/ug/4/8 | |
    | 200 OK | merge-patch+json | {"meta":{"vtag":{"tag":"e1-8"}},"network-map":{"east":{"ipv4":["198.51.100.0/24"],
    "ipv6":["2001:db8::/32"]}}}
GET /tips/metro:cost:routingcost/ug/2/4 | |
    | 200 OK | merge-patch+json | {"cost-map":{"east":null},"meta":{"dependent-vtags":[{"resource-id":"metro",
    "tag":"e1-6"}]}}"#;

/// A property map behind the four imports: entities in the order of their texts, escaped pointers, numbers and texts.
const PROPERTIES: &str = r#"GET /maps/metro:prop | |
    | 200 OK | alto-propmap+json | {"meta":{"dependent-vtags":[{"resource-id":"metro","tag":"e1-3"}]},"property-map":{}}
POST /edits/i5 | Content-Type: text/csv~
    | prop-put,metro,ipv4:192.0.0.0/16,region,t,north~prop-put,metro,ipv4:192.0.2.0/24,region,t,lab~
    | 200 OK | json | {"moment":100,"n":5}
GET /maps/metro:prop | |
    | 200 OK | alto-propmap+json | {"meta":{"dependent-vtags":[{"resource-id":"metro","tag":"e1-3"}]},
    "property-map":{"ipv4:192.0.0.0/16":{"region":"north"},"ipv4:192.0.2.0/24":{"region":"lab"}}}
GET /tips/metro:prop/ug/3/4 | |
    | 200 OK | merge-patch+json | {"property-map":{"ipv4:192.0.0.0/16":{"region":"north"},
    "ipv4:192.0.2.0/24":{"region":"lab"}}}
GET /tips/metro:prop/ug/3/4 | Accept: application/json-patch+json~ |
    | 200 OK | json-patch+json | [{"op":"add","path":"/property-map/ipv4:192.0.0.0~116","value":{"region":"north"}},
    {"op":"add","path":"/property-map/ipv4:192.0.2.0~124","value":{"region":"lab"}}]
POST /edits/i6 | Content-Type: application/json~
    | {"edits":[["prop-put","metro","metro.pid:east","color","n","7"],["prop-put","metro","ipv4:203.0.113.0/24",
    "region","t","\"\\ é"],["prop-put","metro","ipv4:1.2.3.4/32","region","t",""],["prop-put","metro",
    "ipv6:2001:DB8::/32","speed","n","0"]]}
    | 200 OK | json | {"moment":100,"n":6}
GET /maps/metro:prop | |
    | 200 OK | alto-propmap+json | {"meta":{"dependent-vtags":[{"resource-id":"metro","tag":"e1-3"}]},
    "property-map":{"ipv4:1.2.3.4":{"region":""},"ipv4:192.0.0.0/16":{"region":"north"},
    "ipv4:192.0.2.0/24":{"region":"lab"},"ipv4:203.0.113.0/24":{"region":"\"\\ é"},"ipv6:2001:db8::/32":{"speed":0},
    "metro.pid:east":{"color":7}}}
POST /edits/i7 | Content-Type: text/csv~
    | prop-del,metro,ipv4:192.0.2.0/24,region,,~prop-put,metro,metro.pid:east,color,t,red~pid-add,metro,north,,,~
    | 200 OK | json | {"moment":100,"n":7}
GET /tips/metro:prop/ug/5/6 | |
    | 200 OK | merge-patch+json | {"meta":{"dependent-vtags":[{"resource-id":"metro","tag":"e1-4"}]},
    "property-map":{"ipv4:192.0.2.0/24":null,"metro.pid:east":{"color":"red"}}}
GET /tips/metro:prop/ug/5/6 | Accept: application/json-patch+json~ |
    | 200 OK | json-patch+json | [{"op":"replace","path":"/meta/dependent-vtags","value":[{"resource-id":"metro",
    "tag":"e1-4"}]},{"op":"remove","path":"/property-map/ipv4:192.0.2.0~124"},{"op":"add",
    "path":"/property-map/metro.pid:east/color","value":"red"}]
GET /tips/metro:prop/ug/4/6 | |
    | 200 OK | merge-patch+json | {"meta":{"dependent-vtags":[{"resource-id":"metro","tag":"e1-4"}]},
    "property-map":{"ipv4:1.2.3.4":{"region":""},"ipv4:192.0.2.0/24":null,"ipv4:203.0.113.0/24":{"region":"\"\\ é"},
    "ipv6:2001:db8::/32":{"speed":0},"metro.pid:east":{"color":"red"}}}
GET /tips/metro:prop/ug/6/7 | | | 425 Too Early | json | {"end-seq":6,"status":425}"#;

/// Filtered cost maps behind the four imports, of one cost type and of several, and each fault of their bodies.
const FILTERS: &str = r#"POST /edits/i5 | Content-Type: text/csv~
    | metric-add,metro,hopcount,,,~cost-put,metro,hopcount,west,east,2~
    | 200 OK | json | {"moment":100,"n":5}
POST /filter/cost/metro | Content-Type: application/alto-costmapfilter+json~
    | {"multi-cost-types":[{"cost-mode":"numerical","cost-metric":"routingcost"},{"cost-mode":"numerical",
    "cost-metric":"hopcount"}],"or-constraints":[["[0] le 10"],["[1] gt 1.5"]]}
    | 200 OK | alto-costmap+json | {"cost-map":{"east":{"west":[7,null]},"west":{"east":[null,2]}},
    "meta":{"dependent-vtags":[{"resource-id":"metro","tag":"e1-3"}],"multi-cost-types":[{"cost-metric":"routingcost",
    "cost-mode":"numerical"},{"cost-metric":"hopcount","cost-mode":"numerical"}]}}
POST /filter/cost/metro | Content-Type: application/alto-costmapfilter+json~
    | {"multi-cost-types":[{"cost-mode":"numerical","cost-metric":"routingcost"},{"cost-mode":"numerical",
    "cost-metric":"hopcount"}],"or-constraints":[["[0] le 10","[1] gt 1.5"]]}
    | 200 OK | alto-costmap+json | {"cost-map":{},"meta":{"dependent-vtags":[{"resource-id":"metro","tag":"e1-3"}],
    "multi-cost-types":[{"cost-metric":"routingcost","cost-mode":"numerical"},{"cost-metric":"hopcount",
    "cost-mode":"numerical"}]}}
POST /filter/cost/metro | Content-Type: application/alto-costmapfilter+json~
    | {"multi-cost-types":[{"cost-mode":"numerical","cost-metric":"routingcost"},{"cost-mode":"numerical",
    "cost-metric":"hopcount"}],"pids":{"srcs":["west","nowhere"],"dsts":[]}}
    | 200 OK | alto-costmap+json | {"cost-map":{"west":{"east":[null,2]}},
    "meta":{"dependent-vtags":[{"resource-id":"metro","tag":"e1-3"}],"multi-cost-types":[{"cost-metric":"routingcost",
    "cost-mode":"numerical"},{"cost-metric":"hopcount","cost-mode":"numerical"}]}}
POST /filter/cost/metro | Content-Type: application/alto-costmapfilter+json~
    | {"cost-type":{"cost-mode":"numerical","cost-metric":"routingcost"}}
    | 200 OK | alto-costmap+json | {"cost-map":{"east":{"west":7}},"meta":{"cost-type":{"cost-metric":"routingcost",
    "cost-mode":"numerical"},"dependent-vtags":[{"resource-id":"metro","tag":"e1-3"}]}}
POST /filter/cost/metro | Content-Type: application/alto-costmapfilter+json~
    | {"cost-type":{"cost-mode":"numerical","cost-metric":"routingcost"},"constraints":["[0]  ge\t7","lt 7.000001"],
    "or-constraints":[]}
    | 200 OK | alto-costmap+json | {"cost-map":{"east":{"west":7}},"meta":{"cost-type":{"cost-metric":"routingcost",
    "cost-mode":"numerical"},"dependent-vtags":[{"resource-id":"metro","tag":"e1-3"}]}}
POST /filter/cost/metro | Content-Type: application/alto-costmapfilter+json~
    | {"cost-type":{"cost-mode":"numerical","cost-metric":"routingcost"},"constraints":["lt 7"]}
    | 200 OK | alto-costmap+json | {"cost-map":{},"meta":{"cost-type":{"cost-metric":"routingcost",
    "cost-mode":"numerical"},"dependent-vtags":[{"resource-id":"metro","tag":"e1-3"}]}}
POST /filter/cost/metro | Content-Type: application/alto-costmapfilter+json~
    | {"cost-type":{"cost-mode":"numerical","cost-metric":"routingcost"},
    "testable-cost-types":[{"cost-mode":"numerical","cost-metric":"hopcount"}],"constraints":["ge 0"]}
    | 200 OK | alto-costmap+json | {"cost-map":{},"meta":{"cost-type":{"cost-metric":"routingcost",
    "cost-mode":"numerical"},"dependent-vtags":[{"resource-id":"metro","tag":"e1-3"}]}}
POST /filter/cost/metro | Content-Type: application/alto-costmapfilter+json~
    | {"cost-type":{"cost-mode":"numerical","cost-metric":"routingcost"},"pids":{"srcs":["east","west"],
    "dsts":["west"]}}
    | 200 OK | alto-costmap+json | {"cost-map":{"east":{"west":7}},"meta":{"cost-type":{"cost-metric":"routingcost",
    "cost-mode":"numerical"},"dependent-vtags":[{"resource-id":"metro","tag":"e1-3"}]}}
POST /filter/cost/metro | Content-Type: application/alto-costmapfilter+json~
    | {"cost-type":{"cost-mode":"numerical","cost-metric":"routingcost"},"pids":{"dsts":["east"]}}
    | 200 OK | alto-costmap+json | {"cost-map":{},"meta":{"cost-type":{"cost-metric":"routingcost",
    "cost-mode":"numerical"},"dependent-vtags":[{"resource-id":"metro","tag":"e1-3"}]}}
POST /filter/cost/metro | Content-Type: application/alto-costmapfilter+json~
    | {"cost-type":{"cost-mode":"numerical","cost-metric":"routingcost"},"pids":{"srcs":["no pid"]}}
    | 200 OK | alto-costmap+json | {"cost-map":{},"meta":{"cost-type":{"cost-metric":"routingcost",
    "cost-mode":"numerical"},"dependent-vtags":[{"resource-id":"metro","tag":"e1-3"}]}}
POST /edits/i6 | Content-Type: text/csv~
    | cost-put,metro,routingcost,west,east,7~cost-put,metro,routingcost,west,west,2~
    | 200 OK | json | {"moment":100,"n":6}
POST /filter/cost/metro | Content-Type: application/alto-costmapfilter+json~
    | {"cost-type":{"cost-mode":"ordinal","cost-metric":"routingcost"}}
    | 200 OK | alto-costmap+json | {"cost-map":{"east":{"west":2},"west":{"east":2,"west":1}},
    "meta":{"cost-type":{"cost-metric":"routingcost","cost-mode":"ordinal"},"dependent-vtags":[{"resource-id":"metro",
    "tag":"e1-3"}]}}
POST /filter/cost/metro | Content-Type: application/alto-costmapfilter+json~
    | {"cost-type":{"cost-mode":"ordinal","cost-metric":"routingcost"},"pids":{"srcs":["east"]}}
    | 200 OK | alto-costmap+json | {"cost-map":{"east":{"west":2}},"meta":{"cost-type":{"cost-metric":"routingcost",
    "cost-mode":"ordinal"},"dependent-vtags":[{"resource-id":"metro","tag":"e1-3"}]}}
POST /filter/cost/metro | Content-Type: application/alto-costmapfilter+json~
    | {"cost-type":{"cost-mode":"ordinal","cost-metric":"routingcost"},"testable-cost-types":[{"cost-mode":"numerical",
    "cost-metric":"routingcost"}],"constraints":["eq 7"]}
    | 200 OK | alto-costmap+json | {"cost-map":{"east":{"west":2},"west":{"east":2}},
    "meta":{"cost-type":{"cost-metric":"routingcost","cost-mode":"ordinal"},"dependent-vtags":[{"resource-id":"metro",
    "tag":"e1-3"}]}}
POST /filter/cost/metro | Content-Type: application/alto-costmapfilter+json~
    | {"cost-type":{"cost-mode":"ordinal","cost-metric":"routingcost"},"constraints":["le 1"]}
    | 400 Bad Request | alto-error+json | {"meta":{"code":"E_INVALID_FIELD_VALUE","field":"constraints","value":"le 1"}}
POST /filter/cost/metro | Content-Type: application/alto-costmapfilter+json~ | {"a":1.5}
    | 400 Bad Request | alto-error+json | {"meta":{"code":"E_SYNTAX"}}
POST /filter/cost/metro | Content-Type: application/alto-costmapfilter+json~ | {}
    | 400 Bad Request | alto-error+json | {"meta":{"code":"E_MISSING_FIELD","field":"cost-type"}}
POST /filter/cost/metro | Content-Type: application/alto-costmapfilter+json~ | {"cost-type":null}
    | 400 Bad Request | alto-error+json | {"meta":{"code":"E_INVALID_FIELD_TYPE","field":"cost-type"}}
POST /filter/cost/metro | Content-Type: application/alto-costmapfilter+json~ | {"cost-type":{}}
    | 400 Bad Request | alto-error+json | {"meta":{"code":"E_MISSING_FIELD","field":"cost-type/cost-mode"}}
POST /filter/cost/metro | Content-Type: application/alto-costmapfilter+json~
    | {"cost-type":{"cost-mode":7}}
    | 400 Bad Request | alto-error+json | {"meta":{"code":"E_INVALID_FIELD_TYPE","field":"cost-type/cost-mode"}}
POST /filter/cost/metro | Content-Type: application/alto-costmapfilter+json~
    | {"cost-type":{"cost-mode":"array"}}
    | 400 Bad Request | alto-error+json | {"meta":{"code":"E_INVALID_FIELD_VALUE","field":"cost-type/cost-mode",
    "value":"array"}}
POST /filter/cost/metro | Content-Type: application/alto-costmapfilter+json~
    | {"cost-type":{"cost-mode":"ordinal"}}
    | 400 Bad Request | alto-error+json | {"meta":{"code":"E_MISSING_FIELD","field":"cost-type/cost-metric"}}
POST /filter/cost/metro | Content-Type: application/alto-costmapfilter+json~
    | {"cost-type":{"cost-mode":"ordinal","cost-metric":"nope"}}
    | 400 Bad Request | alto-error+json | {"meta":{"code":"E_INVALID_FIELD_VALUE","field":"cost-type/cost-metric",
    "value":"nope"}}
POST /filter/cost/metro | Content-Type: application/alto-costmapfilter+json~
    | {"cost-type":{"cost-mode":"numerical","cost-metric":"routingcost"},"multi-cost-types":[]}
    | 400 Bad Request | alto-error+json | {"meta":{"code":"E_INVALID_FIELD_VALUE","field":"multi-cost-types"}}
POST /filter/cost/metro | Content-Type: application/alto-costmapfilter+json~
    | {"cost-type":{"cost-mode":"numerical","cost-metric":"routingcost"},"multi-cost-types":7}
    | 400 Bad Request | alto-error+json | {"meta":{"code":"E_INVALID_FIELD_TYPE","field":"multi-cost-types"}}
POST /filter/cost/metro | Content-Type: application/alto-costmapfilter+json~
    | {"multi-cost-types":[]}
    | 400 Bad Request | alto-error+json | {"meta":{"code":"E_INVALID_FIELD_VALUE","field":"multi-cost-types"}}
POST /filter/cost/metro | Content-Type: application/alto-costmapfilter+json~
    | {"multi-cost-types":[{"cost-mode":"numerical","cost-metric":"routingcost"},{"cost-mode":"numerical",
    "cost-metric":"routingcost"},{"cost-mode":"numerical","cost-metric":"routingcost"},{"cost-mode":"numerical",
    "cost-metric":"routingcost"},{"cost-mode":"numerical","cost-metric":"routingcost"},{"cost-mode":"numerical",
    "cost-metric":"routingcost"},{"cost-mode":"numerical","cost-metric":"routingcost"},{"cost-mode":"numerical",
    "cost-metric":"routingcost"},{"cost-mode":"numerical","cost-metric":"routingcost"}]}
    | 400 Bad Request | alto-error+json | {"meta":{"code":"E_INVALID_FIELD_VALUE","field":"multi-cost-types"}}
POST /filter/cost/metro | Content-Type: application/alto-costmapfilter+json~
    | {"multi-cost-types":[{"cost-mode":"numerical","cost-metric":"routingcost"},7]}
    | 400 Bad Request | alto-error+json | {"meta":{"code":"E_INVALID_FIELD_TYPE","field":"multi-cost-types"}}
POST /filter/cost/metro | Content-Type: application/alto-costmapfilter+json~
    | {"cost-type":{"cost-mode":"numerical","cost-metric":"routingcost"},"testable-cost-types":7}
    | 400 Bad Request | alto-error+json | {"meta":{"code":"E_INVALID_FIELD_TYPE","field":"testable-cost-types"}}
POST /filter/cost/metro | Content-Type: application/alto-costmapfilter+json~
    | {"cost-type":{"cost-mode":"numerical","cost-metric":"routingcost"},"testable-cost-types":[],
    "constraints":["le 3"]}
    | 400 Bad Request | alto-error+json | {"meta":{"code":"E_INVALID_FIELD_VALUE","field":"constraints","value":"le 3"}}
POST /filter/cost/metro | Content-Type: application/alto-costmapfilter+json~
    | {"cost-type":{"cost-mode":"numerical","cost-metric":"routingcost"},"constraints":"le 3"}
    | 400 Bad Request | alto-error+json | {"meta":{"code":"E_INVALID_FIELD_TYPE","field":"constraints"}}
POST /filter/cost/metro | Content-Type: application/alto-costmapfilter+json~
    | {"cost-type":{"cost-mode":"numerical","cost-metric":"routingcost"},"constraints":["le 3",7]}
    | 400 Bad Request | alto-error+json | {"meta":{"code":"E_INVALID_FIELD_TYPE","field":"constraints"}}
POST /filter/cost/metro | Content-Type: application/alto-costmapfilter+json~
    | {"cost-type":{"cost-mode":"numerical","cost-metric":"routingcost"},"constraints":["le 3","[1] le 3"]}
    | 400 Bad Request | alto-error+json | {"meta":{"code":"E_INVALID_FIELD_VALUE","field":"constraints",
    "value":"[1] le 3"}}
POST /filter/cost/metro | Content-Type: application/alto-costmapfilter+json~
    | {"cost-type":{"cost-mode":"numerical","cost-metric":"routingcost"},"constraints":["le three"]}
    | 400 Bad Request | alto-error+json | {"meta":{"code":"E_INVALID_FIELD_VALUE","field":"constraints",
    "value":"le three"}}
POST /filter/cost/metro | Content-Type: application/alto-costmapfilter+json~
    | {"cost-type":{"cost-mode":"numerical","cost-metric":"routingcost"},"constraints":[],"or-constraints":[["le 3"]]}
    | 400 Bad Request | alto-error+json | {"meta":{"code":"E_INVALID_FIELD_VALUE","field":"or-constraints"}}
POST /filter/cost/metro | Content-Type: application/alto-costmapfilter+json~
    | {"cost-type":{"cost-mode":"numerical","cost-metric":"routingcost"},"or-constraints":["le 3"]}
    | 400 Bad Request | alto-error+json | {"meta":{"code":"E_INVALID_FIELD_TYPE","field":"or-constraints"}}
POST /filter/cost/metro | Content-Type: application/alto-costmapfilter+json~
    | {"cost-type":{"cost-mode":"numerical","cost-metric":"routingcost"},"or-constraints":[["le 3"],["3"]],"pids":7}
    | 400 Bad Request | alto-error+json | {"meta":{"code":"E_INVALID_FIELD_VALUE","field":"or-constraints","value":"3"}}
POST /filter/cost/metro | Content-Type: application/alto-costmapfilter+json~
    | {"cost-type":{"cost-mode":"numerical","cost-metric":"routingcost"},"pids":[]}
    | 400 Bad Request | alto-error+json | {"meta":{"code":"E_INVALID_FIELD_TYPE","field":"pids"}}
POST /filter/cost/metro | Content-Type: application/alto-costmapfilter+json~
    | {"cost-type":{"cost-mode":"numerical","cost-metric":"routingcost"},"pids":{"dsts":7,"srcs":7}}
    | 400 Bad Request | alto-error+json | {"meta":{"code":"E_INVALID_FIELD_TYPE","field":"pids/srcs"}}
POST /filter/cost/metro | Content-Type: application/alto-costmapfilter+json~
    | {"cost-type":{"cost-mode":"numerical","cost-metric":"routingcost"},"pids":{"dsts":["east",7]}}
    | 400 Bad Request | alto-error+json | {"meta":{"code":"E_INVALID_FIELD_TYPE","field":"pids/dsts"}}
POST /filter/cost/other | Content-Type: application/alto-costmapfilter+json~ | {}
    | 404 Not Found | json | {"status":404,"why":"resource"}
POST /filter/cost/metro | Content-Type: application/alto-networkmapfilter+json~ | {}
    | 415 Unsupported Media Type | json | {"status":415}
GET /filter/cost/metro | | | 405 Method Not Allowed | json~Allow: POST | {"status":405}"#;

/// Look-ups behind the four imports: the first and the last address of a prefix, those beside it, and what is no
/// address.
const LOOKUPS: &str = r#"GET /lookup/metro/ipv4:192.0.2.0 | | | 200 OK | json | {"pid":"east"}
GET /lookup/metro/ipv4:192.0.2.255 | | | 200 OK | json | {"pid":"east"}
GET /lookup/metro/ipv4%3A192.0.2.9 | | | 200 OK | json | {"pid":"east"}
GET /lookup/metro/ipv4:192.0.1.255 | | | 200 OK | json | {"pid":"west"}
GET /lookup/metro/ipv4:192.0.3.0 | | | 200 OK | json | {"pid":"west"}
GET /lookup/metro/ipv6:::1 | | | 200 OK | json | {"pid":null}
GET /lookup/metro/ipv4:1.2.3 | | | 404 Not Found | json | {"status":404,"why":"resource"}
GET /lookup/metro/192.0.2.0 | | | 404 Not Found | json | {"status":404,"why":"resource"}
GET /lookup/other/ipv4:192.0.2.0 | | | 404 Not Found | json | {"status":404,"why":"resource"}
POST /lookup/metro/ipv4:192.0.2.0 | | | 405 Method Not Allowed | json~Allow: GET | {"status":405}
POST /edits/i5 | Content-Type: text/csv~
    | prefix-put,metro,west,192.0.2.0/24,,~prefix-put,metro,east,2001:db8::/32,,~
    | 200 OK | json | {"moment":100,"n":5}
GET /lookup/metro/ipv4:192.0.2.0 | | | 200 OK | json | {"pid":"west"}
GET /lookup/metro/ipv6:2001:DB8::7 | | | 200 OK | json | {"pid":"east"}
GET /lookup/metro/ipv6:2001:db9:: | | | 200 OK | json | {"pid":null}"#;

/// Whether the lines of a table are answered so behind the four imports.
fn is_served_so(alloc: Global, table: &str) -> Result<bool, AllocError> {
    let mut talk = Talk::new(alloc);
    talk.add_lines(alloc, SCRIPT)?;
    talk.add_lines(alloc, table)?;
    talk.is_answered(alloc, 30, Vec::new(alloc))
}

#[test]
fn cost_maps_are_followed(rt: HostRuntime) -> Result<(), Fail> {
    let alloc = rt.alloc();
    assert!(rt; is_served_so(alloc, COSTS)?, "costs");
    assert!(rt; is_served_so(alloc, DROPPED)?, "a dropped PID");
    Ok(())
}

#[test]
fn property_maps_are_followed(rt: HostRuntime) -> Result<(), Fail> {
    let alloc = rt.alloc();
    assert!(rt; is_served_so(alloc, PROPERTIES)?);
    Ok(())
}

#[test]
fn cost_maps_are_filtered(rt: HostRuntime) -> Result<(), Fail> {
    let alloc = rt.alloc();
    assert!(rt; is_served_so(alloc, FILTERS)?);
    Ok(())
}

#[test]
fn addresses_are_looked_up(rt: HostRuntime) -> Result<(), Fail> {
    let alloc = rt.alloc();
    assert!(rt; is_served_so(alloc, LOOKUPS)?);
    Ok(())
}
