use crate::body::Body;
use alto_http::Verb;
use std::marker::Model;

/// A reply, but for whether the connection closes after it.
#[derive(Drop)]
pub struct Reply {
    /// The status code (RFC 9110, section 15).
    pub status: u16,
    /// The media type of the body.
    pub content_type: &'static str,
    /// The method that the target allows, with status 405.
    pub allow: Option<Verb>,
    /// The body.
    pub body: Body,
}

impl Model for Reply {
    ghost use Rattle.alto_replies.specs.Reply.{ReplyData};

    ghost Value = { ReplyData };

    ghost view = { λ reply. record {
      status = reply.status;
      content_type = reply.content_type.now;
      allow = reply.allow;
      body = reply.body;
    } };
}
