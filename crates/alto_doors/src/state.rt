ghost use Rattle.std.specs.Prelude.{◌≡◌, true};
ghost use Rattle.alto_http.specs.Link.{one_more};
ghost use Rattle.alto_doors.specs.Door.{given_back, is_served, just_opened};

use alto_http::Failed;

/// How many faults of a door end its worker.
pub(crate) const MOST_FAULTS: u64 = 1_000;

/// What has happened to a door since it was opened.
#[derive(Clone, Copy, Debug, PartialEq, Eq)]
pub struct DoorState {
    /// How many accepts have failed. It stops at the last number of 64 bits.
    pub faults: u64,
    /// Whether it gave a link that hasn't come back.
    pub is_out: bool,
    /// Whether it has told that no connection comes any more.
    pub has_ended: bool,
}

impl DoorState {
    /// The state of a door that was just opened.
    pub fn new() -> DoorState
        ensures { result ≡ just_opened }
    {
        DoorState {
            faults: 0,
            is_out: false,
            has_ended: false,
        }
    }

    /// A link was given.
    pub fn give(&mut self)
        ensures { self.new ≡ record self.old { is_out = true } }
    {
        self.is_out = true;
    }

    /// It was told that no connection comes any more.
    pub fn end(&mut self)
        ensures { self.new ≡ record self.old { has_ended = true } }
    {
        self.has_ended = true;
    }

    /// An accept failed, which is counted.
    pub fn fail(&mut self) -> Failed
        ensures { self.new ≡ record self.old { faults = one_more self.old.faults } }
    {
        self.faults = self.faults.saturating_add(1);
        Failed
    }

    /// The link came back.
    pub fn give_back(&mut self)
        ensures { self.new ≡ given_back self.old }
    {
        self.is_out = false;
    }

    /// Whether a door that is closed now was served to its end.
    pub fn is_served(&self) -> bool
        ensures { result ≡ is_served self.now }
    {
        !self.is_out && (self.has_ended || self.faults >= MOST_FAULTS)
    }
}
