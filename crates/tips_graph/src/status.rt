ghost use Rattle.std.specs.Prelude.{◌≡◌, ◌<◌, ◌^◌};
ghost use Rattle.tips_graph.specs.Edges as edges;

/// Whether an edge of an updates graph can be had (RFC 9569, section 3).
#[derive(Clone, Copy, Debug, PartialEq, Eq)]
pub enum EdgeStatus {
    /// No graph has an edge between such numbers.
    Absent,
    /// It leads from or to a number that is kept no more.
    Gone,
    /// It is the step after the last number, which hasn't come yet.
    Awaited,
    /// It leads past the last number.
    Ahead,
    /// It can be had.
    Here,
}

/// The status of an edge, where these are the first and the last number that are kept.
pub(crate) fn edge_status(first: u64, last: u64, i: u64, j: u64) -> EdgeStatus
    requires { last < 2 ^ 63 }
    ensures { result ≡ edges.edge_status first last i j }
{
    if !is_shape(i, j) {
        EdgeStatus::Absent
    } else if (0 < i && i < first) || j < first {
        EdgeStatus::Gone
    } else if i == last && j == last + 1 {
        EdgeStatus::Awaited
    } else if last < j {
        EdgeStatus::Ahead
    } else {
        EdgeStatus::Here
    }
}

/// Whether a graph may have an edge between two numbers.
fn is_shape(i: u64, j: u64) -> bool
    ensures { result ≡ edges.is_shape i j }
{
    if i == 0 {
        return 0 < j;
    }
    i < j
        && match j - i {
            1 => true,
            2 => i % 2 == 0,
            4 => i % 4 == 0,
            8 => i % 8 == 0,
            16 => i % 16 == 0,
            _ => false,
        }
}

/// The longest stride from a version that is below the last to one that isn't past it.
pub(crate) fn longest_stride(last: u64, i: u64) -> u64
    requires below { i < last }
    requires room { last < 2 ^ 63 }
    ensures { result ≡ edges.longest_stride last i }
{
    if i % 16 == 0 && i + 16 <= last {
        16
    } else if i % 8 == 0 && i + 8 <= last {
        8
    } else if i % 4 == 0 && i + 4 <= last {
        4
    } else if i % 2 == 0 && i + 2 <= last {
        2
    } else {
        1
    }
}
