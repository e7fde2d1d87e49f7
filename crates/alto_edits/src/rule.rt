use std::alloc::{AllocError, AllocFailed};
use std::error::Error;
use std::fmt;

/// A rule that an edit or a batch may break, by the name that clients see.
#[derive(Clone, Copy, Debug, PartialEq, Eq)]
pub enum Rule {
    /// `net-add` of a network that is declared.
    G1,
    /// `net-add` while 8 networks are declared.
    G2,
    /// An edit of a network that isn't declared.
    G3,
    /// `pid-add` of a PID that is declared.
    G4,
    /// `pid-add` while the network has 1,024 PIDs.
    G5,
    /// An edit that names a PID that isn't declared.
    G6,
    /// `prefix-put` of a prefix that is in no PID of the network, while the network has 16,384 prefixes.
    G7,
    /// `prefix-del` of a prefix that isn't in that PID.
    G8,
    /// `metric-add` of a metric that is declared.
    G9,
    /// `metric-add` while the network has 8 metrics.
    G10,
    /// `cost-put`, `cost-del` or `metric-drop` of a metric that isn't declared.
    G11,
    /// `cost-put` of a new pair while the metric has 262,144 pairs.
    G12,
    /// `cost-del`, `prop-del` or `path-del` of a row that isn't there.
    G13,
    /// `ane-add` of an abstract network element that is declared.
    G14,
    /// `ane-set` or `path-put` of an abstract network element that isn't declared.
    G15,
    /// More than 400,000 rows after the batch.
    G16,
    /// More than 16,384 writes in the batch, those of versions counted.
    G17,
    /// 4,096 batches are kept, or with this batch's more than 524,288 writes.
    G18,
}

/// What is kept past a book's base, before the batch at hand.
#[derive(Clone, Copy, Debug, PartialEq, Eq)]
pub struct Past {
    /// Batches.
    pub batches: u32,
    /// Writes of those batches.
    pub writes: u32,
}

/// Why edits make no batch.
#[derive(Clone, Copy, Debug, PartialEq, Eq)]
pub enum CompileFault {
    /// The edit of this number, from 1, is the first that breaks a rule, and this is its first rule; row 0 stands for
    /// the batch as a whole.
    Broken {
        /// The edit's number.
        row: u64,
        /// The rule.
        rule: Rule,
    },
    /// The memory couldn't be had.
    Memory,
}

impl From<AllocError> for CompileFault {
    ghost use Rattle.std.specs.Prelude.{◌≡◌};
    ghost use Rattle.alto_edits.specs.declared.rule.CompileFault.TheVariants.{Memory};

    ghost from_gives = { λ _ fault. fault ≡ Memory };

    fn from(_: AllocError) -> CompileFault {
        CompileFault::Memory
    }
}

impl<T: Drop> From<AllocFailed<T>> for CompileFault {
    ghost use Rattle.std.specs.Prelude.{◌≡◌};
    ghost use Rattle.alto_edits.specs.declared.rule.CompileFault.TheVariants.{Memory};

    ghost from_gives = { λ _ fault. fault ≡ Memory };

    fn from(_: AllocFailed<T>) -> CompileFault {
        CompileFault::Memory
    }
}

impl fmt::Display for Rule {
    ghost use Rattle.std.specs.Prelude.{Some};
    ghost use Rattle.alto_edits.specs.Text.{name_of};

    ghost output = { λ rule. Some (name_of rule) };

    fn fmt<W: fmt::Write>(&self, f: &mut fmt::Formatter<W>) -> fmt::Result {
        f.write_str(match self {
            Rule::G1 => "G1",
            Rule::G2 => "G2",
            Rule::G3 => "G3",
            Rule::G4 => "G4",
            Rule::G5 => "G5",
            Rule::G6 => "G6",
            Rule::G7 => "G7",
            Rule::G8 => "G8",
            Rule::G9 => "G9",
            Rule::G10 => "G10",
            Rule::G11 => "G11",
            Rule::G12 => "G12",
            Rule::G13 => "G13",
            Rule::G14 => "G14",
            Rule::G15 => "G15",
            Rule::G16 => "G16",
            Rule::G17 => "G17",
            Rule::G18 => "G18",
        })
    }
}

impl fmt::Display for CompileFault {
    ghost use Rattle.std.specs.Prelude.{Some};
    ghost use Rattle.alto_edits.specs.Text.{text_of};

    ghost output = { λ fault. Some (text_of fault) };

    fn fmt<W: fmt::Write>(&self, f: &mut fmt::Formatter<W>) -> fmt::Result {
        match self {
            CompileFault::Broken { row, rule } => write!(f, "edit {row} breaks rule {rule}"),
            CompileFault::Memory => write!(f, "out of memory"),
        }
    }
}

impl Error for CompileFault {}
