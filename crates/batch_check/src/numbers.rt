ghost use Rattle.std.specs.Prelude.{◌≡◌, Decides, IfOk};
ghost use Rattle.std.specs.List.{list_all};
ghost use Rattle.alto_rows.specs.Good.{AreGood};
ghost use Rattle.alto_rows.specs.Span.{count_in};
ghost use Rattle.alto_edits.specs.Limits.{AreWithin};
ghost use Rattle.batch_check.specs.Numbers as told;
ghost use Rattle.batch_check.specs.Numbers.{IsRoomFor};

use alto_edits::Past;
use alto_names::NetName;
use alto_rows::{Key, RowStore, Span, Value, Within, Write, rows_in};
use std::alloc::AllocError;

/// The most rows.
const MOST_ROWS: usize = 400_000;
/// The most networks.
const MOST_NETS: usize = 8;
/// The most PIDs of a network.
const MOST_PIDS: usize = 1024;
/// The most prefixes of a network.
const MOST_PREFIXES: usize = 16_384;
/// The most metrics of a network.
const MOST_METRICS: usize = 8;
/// The most costs in a metric.
const MOST_COSTS: usize = 262_144;
/// The most writes of a batch.
const MOST_WRITES: usize = 16_384;
/// The most batches past a base.
const MOST_BATCHES: u32 = 4096;
/// The most writes past a base.
const MOST_WRITES_KEPT: u64 = 524_288;

/// Whether the rows after a batch, its writes and what is kept with it are within the numbers. Two searches for each
/// declared network and metric.
pub fn keeps_numbers<R: RowStore>(
    next: &R,
    writes: &[Write],
    past: Past,
) -> Result<bool, AllocError>
    requires { AreGood (R.rows next.now) }
    ensures { IfOk result (λ keeps. Decides keeps (AreWithin (R.rows next.now) × IsRoomFor writes.now past)) }
{
    if !is_room_for(writes, past) {
        return Ok(false);
    }
    are_within(next)
}

/// Whether a batch has no more writes than it may, and it and its writes may be kept with those past the base.
fn is_room_for(writes: &[Write], past: Past) -> bool
    ensures { Decides result (IsRoomFor writes.now past) }
{
    let count = writes.len();
    count <= MOST_WRITES
        && past.batches < MOST_BATCHES
        && u64::from(past.writes) + count as u64 <= MOST_WRITES_KEPT
}

/// Whether good rows are within the numbers. Two searches for each declared network and metric.
pub fn are_within<R: RowStore>(rows: &R) -> Result<bool, AllocError>
    requires { AreGood (R.rows rows.now) }
    ensures { IfOk result (λ within. Decides within (AreWithin (R.rows rows.now))) }
{
    if rows.len() > MOST_ROWS || rows.count_in(&Span::Nets) > MOST_NETS {
        return Ok(false);
    }
    nets_fit(rows)
}

/// Whether each declared network has no more PIDs, prefixes, metrics and costs than it may.
fn nets_fit<R: RowStore>(rows: &R) -> Result<bool, AllocError>
    ensures { IfOk result (λ fit. fit ≡ told.nets_fit (R.rows rows.now)) }
{
    let mut nets = rows_in(rows, Span::Nets);
    let fit = all_nets_fit(rows, &mut nets);
    drop(nets);
    fit
}

/// Whether each network that the rows of a walk declare does. The walk is only borrowed: it is let go in one place.
fn all_nets_fit<R: RowStore>(rows: &R, nets: &mut Within<R>) -> Result<bool, AllocError>
    ensures { IfOk result (λ fit. fit ≡ list_all (told.row_fits (R.rows rows.now)) nets.old) }
{
    while let Some(row) = nets.next() {
        if !row_fits(rows, row)? {
            return Ok(false);
        }
    }
    Ok(true)
}

/// Whether the network that a row declares has no more than it may.
fn row_fits<R: RowStore>(rows: &R, row: &(Key, Value)) -> Result<bool, AllocError>
    ensures { IfOk result (λ fits. fits ≡ told.row_fits (R.rows rows.now) row.now) }
{
    match &row.0 {
        Key::Net(net) => net_fits(rows, net),
        _ => Ok(true),
    }
}

/// Whether a network has no more PIDs, prefixes, metrics and costs than it may.
fn net_fits<R: RowStore>(rows: &R, net: &NetName) -> Result<bool, AllocError>
    ensures { IfOk result (λ fits. fits ≡ told.net_fits (R.rows rows.now) net.now) }
{
    let pids = count_of(rows, Span::Pids(net.clone()?));
    let prefixes = count_of(rows, Span::Prefixes(net.clone()?));
    let metrics = count_of(rows, Span::Metrics(net.clone()?));
    let costs_fit = metrics_fit(rows, net)?;
    Ok(pids <= MOST_PIDS && prefixes <= MOST_PREFIXES && metrics <= MOST_METRICS && costs_fit)
}

/// Whether each metric of a network has no more costs than it may.
fn metrics_fit<R: RowStore>(rows: &R, net: &NetName) -> Result<bool, AllocError>
    ensures { IfOk result (λ fit. fit ≡ told.metrics_fit (R.rows rows.now) net.now) }
{
    let mut metrics = rows_in(rows, Span::Metrics(net.clone()?));
    let fit = all_metrics_fit(rows, &mut metrics);
    drop(metrics);
    fit
}

/// Whether each metric that the rows of a walk declare has.
fn all_metrics_fit<R: RowStore>(rows: &R, metrics: &mut Within<R>) -> Result<bool, AllocError>
    ensures { IfOk result (λ fit. fit ≡ list_all (told.metric_fits (R.rows rows.now)) metrics.old) }
{
    while let Some(row) = metrics.next() {
        if !metric_fits(rows, row)? {
            return Ok(false);
        }
    }
    Ok(true)
}

/// Whether the metric that a row declares has no more costs than it may.
fn metric_fits<R: RowStore>(rows: &R, row: &(Key, Value)) -> Result<bool, AllocError>
    ensures { IfOk result (λ fits. fits ≡ told.metric_fits (R.rows rows.now) row.now) }
{
    match &row.0 {
        Key::Metric(net, metric) => {
            let costs = count_of(rows, Span::CostsIn(net.clone()?, metric.clone()?));
            Ok(costs <= MOST_COSTS)
        }
        _ => Ok(true),
    }
}

/// How many keys of a span have rows. Two searches. The span is let go here, and in no caller.
fn count_of<R: RowStore>(rows: &R, span: Span) -> usize
    ensures { result ≡ count_in (R.rows rows.now) span }
{
    let count = rows.count_in(&span);
    drop(span);
    count
}
