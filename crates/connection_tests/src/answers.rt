//! Heads that are refused, paths, and texts of faults.
use crate::talks::{Talk, parted, reply};
use alto_answers::{Place, Query, Routes, Side};
use alto_book::EditFault;
use alto_replies::{edit_reply, reply_bytes};
use std::test::Fail;

/// Heads that are refused, each with its status; `~` stands for an end of line.
const REFUSED_HEADS: &str = "GET /maps/metro HTTP/9.9~~ | 400 Bad Request
GET /maps/metro HTTP/1.1~Transfer-Encoding: chunked~~ | 501 Not Implemented
POST /tips HTTP/1.1~~ | 411 Length Required
POST /tips HTTP/1.1~Content-Length: 4194305~~ | 413 Content Too Large
POST /tips HTTP/1.1~Content-Length: +1~~ | 400 Bad Request
POST /tips HTTP/1.1~Content-Length: 0~Content-Length: 0~~ | 400 Bad Request";

/// Paths, each with the place that a client is led to, and the place that the operator is led to.
const PATHS: &str = "/maps/metro | maps | none
/maps/a%2Fb | maps | none
/maps//x | none | none
/maps/ | none | none
/maps/metro/ | none | none
maps/metro | none | none
/filter/net/metro | filter | none
/filter/net/ | none | none
/filter/cost/metro | costs | none
/filter/prop/metro | properties | none
/endpointcost/metro | endpoints | none
/endpointcost/ | none | none
/pathvector/metro | paths | none
/directory | directory | none
/directory/ | none | none
/lookup/metro/ipv4:192.0.2.1 | lookup | none
/lookup/metro/ | none | none
/edits/i1 | none | edits
/tips | tips | none
/tips/ | none | none
/tips/metro | none | none
/tips/metro/ug/0/1 | edge | none
/tips/metro/ug/0/1/ | none | none
/tips/metro/up/0/1 | none | none";

#[test]
fn refused_heads_close(rt: HostRuntime) -> Result<(), Fail> {
    let alloc = rt.alloc();
    for line in REFUSED_HEADS.lines() {
        let (head, status) = parted(line);
        let code = status.trim().get(..3).unwrap_or("");
        let body = format!(in alloc; "{{\"status\":{code}}}")?;
        let head = head.replace(alloc, "~", "\r\n")?;
        let talk = Talk {
            input: format!(in alloc; "{head}GET /maps/metro HTTP/1.1\r\n\r\n")?,
            output: reply(
                alloc,
                status.trim(),
                "json~Connection: close",
                body.as_str(),
            )?,
        };
        assert!(rt; talk.is_answered(alloc, 30, Vec::new(alloc))?, "{line}");
    }
    Ok(())
}

/// The word for a place in the table of paths.
fn word(place: Option<Place>) -> &'static str {
    match place {
        Some(Place::Maps) => "maps",
        Some(Place::Edits) => "edits",
        Some(Place::Lookup) => "lookup",
        Some(Place::Query(Query::NetworkMap)) => "filter",
        Some(Place::Query(Query::CostMap)) => "costs",
        Some(Place::Query(Query::EndpointCosts)) => "endpoints",
        Some(Place::Query(Query::PropertyMap)) => "properties",
        Some(Place::Query(Query::PathVector)) => "paths",
        Some(Place::Directory) => "directory",
        Some(Place::Tips) => "tips",
        Some(Place::Edge) => "edge",
        None => "none",
    }
}

#[test]
fn paths_lead_where_the_side_has_a_route(rt: HostRuntime) -> Result<(), Fail> {
    let public = Routes::new(rt.alloc(), Side::Public)?;
    let operator = Routes::new(rt.alloc(), Side::Operator)?;
    let both = Routes::new(rt.alloc(), Side::Both)?;
    for line in PATHS.lines() {
        let (path, places) = parted(line);
        let (at_public, at_operator) = parted(places);
        let path = path.as_bytes();
        assert_eq!(rt; word(public.place(path)), at_public, "{line}");
        assert_eq!(rt; word(operator.place(path)), at_operator.trim(), "{line}");
        assert!(rt;
            both.place(path) == public.place(path).or(operator.place(path)),
            "{line}"
        );
    }
    Ok(())
}

#[test]
fn a_lost_batch_is_told_as_503(rt: HostRuntime) -> Result<(), Fail> {
    let lost = edit_reply(rt.alloc(), Err(EditFault::Keeper))?;
    let found = reply_bytes(rt.alloc(), &lost, false)?;
    let expected = reply(
        rt.alloc(),
        "503 Service Unavailable",
        "json",
        "{\"status\":503}",
    )?;
    assert!(rt; found.as_slice() == expected.as_bytes());
    Ok(())
}

#[test]
fn faults_of_imports_are_printed(rt: HostRuntime) -> Result<(), Fail> {
    let fault = EditFault::OtherBody { n: 1 };
    let printed = format!(in rt.alloc();
        "{fault} / {} / {}",
        EditFault::Keeper,
        EditFault::Memory
    )?;
    assert_eq!(rt;
        printed.as_str(),
        "batch 1 has this id and another body / the records of the batches couldn't be kept / out of memory"
    );
    Ok(())
}
