//! `alto_http`.
use alto_http::{HeadFault, Intake, MemLink, Request, read_request};
use std::alloc::{AllocError, Global};
use std::test::Fail;

/// A GET behind a line break, and then a POST with a body.
const TWO: &[u8] =
    b"\r\nGET /directory HTTP/1.1\r\nHOST: alto.example\r\nHost: other\r\nAccept: a/b\r\n\r\n\
POST /edits/7 HTTP/1.1\nContent-Type:  text/csv\t\nContent-Length: 18\nConnection: keep-alive, Close\n\nnet-add,metro,,,,\n";

/// A connection, with what was read ahead of it.
#[derive(Drop)]
struct Connection {
    intake: Intake,
    link: MemLink,
}

fn connect(alloc: Global, link: MemLink) -> Result<Connection, AllocError> {
    Ok(Connection {
        intake: Intake::new(alloc)?,
        link,
    })
}

/// The answer of a read: the target, or a name of the fault.
fn answer(read: &Result<Option<Request>, HeadFault>) -> &[u8] {
    match read {
        Ok(Some(request)) => &request.target,
        Ok(None) => b"end",
        Err(HeadFault::BadHead) => b"400",
        Err(HeadFault::NoLength) => b"411",
        Err(HeadFault::BodyTooLarge) => b"413",
        Err(HeadFault::Coded) => b"501",
        Err(HeadFault::Cut) => b"cut",
        Err(_) => b"other",
    }
}

fn answers(alloc: Global, connection: &mut Connection, expected: &[u8]) -> bool {
    answer(&read_request(alloc, &mut connection.intake, &mut connection.link)) == expected
}

fn holds(value: &Option<Vec<u8>>, expected: &[u8]) -> bool {
    match value {
        Some(bytes) => bytes.as_slice() == expected,
        None => false,
    }
}

fn is_the_get(request: &Request) -> bool {
    holds(&request.host, b"alto.example") && holds(&request.accept, b"a/b") && !request.close
}

fn is_the_post(request: &Request) -> bool {
    request.body.as_slice() == b"net-add,metro,,,,\n".as_slice()
        && holds(&request.content_type, b"text/csv")
        && request.close
}

fn gives_both(alloc: Global, connection: &mut Connection) -> bool {
    let first = read_request(alloc, &mut connection.intake, &mut connection.link);
    let second = read_request(alloc, &mut connection.intake, &mut connection.link);
    matches!(&first, Ok(Some(request)) if is_the_get(request))
        && matches!(&second, Ok(Some(request)) if is_the_post(request))
}

fn two_in_pieces(alloc: Global, size: usize) -> Result<Connection, AllocError> {
    let sizes = [size].to_vec(alloc)?;
    connect(alloc, MemLink::new(alloc, TWO, 0)?.with_sizes(sizes))
}

#[test]
fn two_requests_come_whole_in_any_pieces(rt: HostRuntime) -> Result<(), Fail> {
    for size in [1, 7, 100, 1000] {
        let mut connection = two_in_pieces(rt.alloc(), size)?;
        assert!(rt;
            gives_both(rt.alloc(), &mut connection),
            "in pieces of {size}"
        );
        assert!(rt;
            answers(rt.alloc(), &mut connection, b"end"),
            "then the end"
        );
    }
    Ok(())
}

/// What answers a head, and behind `=` the head, with a bar for each line feed.
const HEADS: &str = "\
/maps/%FF=GET /maps/%FF HTTP/1.1||
http://alto.example/a?b=GET http://alto.example/a?b HTTP/1.1||
400=GET  /a HTTP/1.1||
400=GET /a HTTP/1.1|Host: a| b||
400=GET /a HTTP/1.1|Host : a||
400=GET /a HTTP/9.9||
400=GET /a HTTP/1.1|Content-Length: 1, 1||a
400=POST /a HTTP/1.1|Content-Length: 4194305|content-length: 4194305||a
413=POST /a HTTP/1.1|Content-Length: 99999999999999999999||
411=POST /a HTTP/1.1||
501=POST /a HTTP/1.1|TRANSFER-ENCODING:|Content-Length: x||
/a=POST /a HTTP/1.1|Content-Length: 007||abcdefg
cut=POST /a HTTP/1.1|Content-Length: 007||abcdef
cut=GET /a HTTP/9.9|Host: a|
";

fn line_feed_of(byte: u8) -> u8 {
    if byte == b'|' { b'\n' } else { byte }
}

fn with_line_feeds(alloc: Global, head: &str) -> Result<Vec<u8>, AllocError> {
    let mut bytes = head.as_bytes().to_vec(alloc)?;
    for byte in bytes.iter_mut() {
        *byte = line_feed_of(*byte);
    }
    Ok(bytes)
}

fn is_answered(alloc: Global, row: &str) -> Result<bool, AllocError> {
    let Some((expected, head)) = row.split_once('=') else {
        return Ok(false);
    };
    let head = with_line_feeds(alloc, head)?;
    let mut connection = connect(alloc, MemLink::new(alloc, &head, 0)?)?;
    Ok(answers(alloc, &mut connection, expected.as_bytes()))
}

#[test]
fn the_first_check_that_fails_is_answered(rt: HostRuntime) -> Result<(), Fail> {
    for row in HEADS.lines() {
        assert!(rt; is_answered(rt.alloc(), row)?, "{row}");
    }
    Ok(())
}
