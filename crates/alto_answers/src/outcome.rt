use alto_book::Command;
use alto_replies::Reply;
use alto_rows::Resource;

/// What a request comes to at a version.
#[derive(Drop)]
pub enum Answer {
    /// It is answered.
    Reply(Reply),
    /// It asks for the edge of a resource that comes next, from its last number.
    Hold {
        /// The resource.
        resource: Resource,
        /// The last number.
        i: u64,
        /// The number that hasn't come yet.
        j: u64,
    },
    /// It brings an import, which is to be accepted or refused.
    Edit(Command),
}
