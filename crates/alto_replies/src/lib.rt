//! Replies and their bytes (RFC 9112): documents, receipts, refusals by status, and the errors of ALTO (RFC 7285,
//! section 8.5).
//!
//! ```text
//! HTTP/1.1 404 Not Found
//! Content-Type: application/json
//! Content-Length: 28
//!
//! {"status":404,"why":"route"}
//! ```
#![tactic(auto)]

mod body;
mod errors;
mod replies;
mod reply;
mod writing;

pub use body::{Body, BodyParts};
pub use errors::{alto_error, reply_or_error};
pub use replies::{
    bad_form, document_reply, edit_reply, form_reply, gone, head_status, not_found, ok_reply,
    status_alone, too_early, wrong_method,
};
pub use reply::Reply;
pub use writing::{reply_bytes, write_reply};
