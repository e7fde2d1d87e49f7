ghost use Rattle.std.specs.Prelude.{◌≡◌};

use std::marker::Model;

/// The method of a request.
#[derive(Clone, Copy, Debug, PartialEq, Eq)]
pub enum Verb {
    /// `GET`
    Get,
    /// `POST`
    Post,
    /// Any other bytes.
    Other,
}

/// A request whose head passed the checks, with its whole body. Field values stand without the
/// white space around them. Of repeated fields the first counts.
#[derive(Drop)]
pub struct Request {
    pub verb: Verb,
    /// The request target, as it was sent.
    pub target: Vec<u8>,
    pub content_type: Option<Vec<u8>>,
    pub accept: Option<Vec<u8>>,
    pub host: Option<Vec<u8>>,
    /// Whether the connection closes after the answer.
    pub close: bool,
    pub body: Vec<u8>,
}

impl Model for Request {
    ghost use Rattle.std.specs.Prelude.{option_map};
    ghost use Rattle.alto_http.specs.Request.{RequestData};

    ghost Value = { RequestData };

    ghost view = { λ r. record {
      verb = r.verb;
      target = r.target.items;
      content_type = option_map (λ v. v.items) r.content_type;
      accept = option_map (λ v. v.items) r.accept;
      host = option_map (λ v. v.items) r.host;
      close = r.close;
      body = r.body.items;
    } };
}

impl Request {
    /// The same request with this body.
    pub(crate) fn with_body(mut self, body: Vec<u8>) -> Request
        ensures { result ≡ record self { body = body.items } }
    {
        self.body = body;
        self
    }
}
