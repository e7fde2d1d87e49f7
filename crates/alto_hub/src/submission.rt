use alto_desk::Command;
use std::marker::Model;

/// An import that is sent to a desk at a moment, in seconds since 1970.
#[derive(Drop)]
pub struct Submission {
    pub command: Command,
    pub moment: u64,
}

impl Model for Submission {
    ghost use Rattle.alto_hub.specs.History.{Submitted};

    ghost Value = { Submitted };

    ghost view = { λ submission. (submission.command, submission.moment) };
}
