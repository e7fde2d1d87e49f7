ghost use Rattle.std.specs.Prelude.{◌≡◌, ◌&&◌, ◌++◌, ◌∷◌, [], IfOk, OnOk, true, filter, map};
ghost use Rattle.std.specs.List.{list_any};
ghost use Rattle.std.specs.BTreeSet.{IsOrdered, Updates, contains};
ghost use Rattle.std.specs.Map.{keys_of};
ghost use Rattle.alto_rows.specs.declared.key.Key.{Key};
ghost use Rattle.alto_rows.specs.declared.key.Key.TheVariants as keys;
ghost use Rattle.alto_rows.specs.Order.{key_cmp};
ghost use Rattle.alto_rows.specs.Rows.{AreSorted, has_row};
ghost use Rattle.std.specs.Ordering.{is_eq};
ghost use Rattle.alto_rows.specs.Span.{rows_in};
ghost use Rattle.alto_edits.specs.Writes.{deleting, withdrawing};
ghost use Rattle.alto_rules.specs.Draft.{drafted_rows, wrote};
ghost use Rattle.alto_rules.specs.Parts.{edit_key};
ghost use Rattle.alto_rules.specs.Withdrawal.{HasPicked, has_key, is_of, is_pid, is_withdrawn, is_written_key};
ghost use Rattle.alto_rules.specs.Withdrawal.{named_in, names_key, spans_of, withdraws};

use crate::draft::Draft;
use crate::parts::edit_key;
use crate::written::copied;
use alto_edits::Edit;
use alto_names::{Metric, NetName, PidName};
use alto_rows::{Entity, Key, RowStore, Span, Within, Write, rows_in};
use std::alloc::{AllocError, Global};
use std::collections::BTreeSet;

impl<'a, R: RowStore> Draft<'a, R> {
    /// The draft with the deletions of all rows that name what the network, the PID or the metric of an edit declares.
    /// It walks the spans that can name the key and the keys that were written, with a search for each that does.
    pub fn withdraw(self, edit: &Edit) -> Result<Self, AllocError>
        requires { withdraws (edit_key edit.now) ≡ true }
        ensures { IfOk result (λ draft. draft
            ≡ wrote self.entry (withdrawing (drafted_rows self.entry) (edit_key edit.now))) }
    {
        let declared = edit_key(edit)?;
        let keys = self.withdrawn(&declared)?;
        self.without(keys)
    }

    /// The draft with the deletions of keys, in their order.
    fn without(self, keys: BTreeSet<Key>) -> Result<Self, AllocError>
        ensures deleted { IfOk result (λ draft. draft ≡ wrote self.entry (map deleting keys.keys)) }
        ensures ordered { IsOrdered key_cmp keys }
    {
        let mut draft = self;
        for key in keys {
            draft = draft.write(key, None)?;
        }
        Ok(draft)
    }

    /// The keys that have rows after the writes and name what a key declares.
    fn withdrawn(&self, declared: &Key) -> Result<BTreeSet<Key>, AllocError>
        requires { withdraws declared.now ≡ true }
        ensures keys { IfOk result (λ all. (at : Key) → contains key_cmp all at
            ≡ is_withdrawn (drafted_rows self.now) declared.now at) }
        ensures sorted { AreSorted (drafted_rows self.now) }
    {
        let spans = spans_of(*self.writes.allocator(), declared)?;
        let all = self.with_spans(declared, spans)?;
        self.with_written(all, declared, &self.writes)
    }

    /// The keys of some spans that have rows before and after the writes and name what a key declares.
    fn with_spans(&self, declared: &Key, spans: Vec<Span>) -> Result<BTreeSet<Key>, AllocError>
        ensures { IfOk result (λ all. (at : Key) → contains key_cmp all at
            ≡ (is_withdrawn (drafted_rows self.now) declared.now at
            && list_any (λ span. has_row (rows_in self.now.rows span) at) spans.items)) }
    {
        let mut all = BTreeSet::new(*self.writes.allocator());
        for span in spans {
            all = self.with_span(all, declared, span)?;
        }
        Ok(all)
    }

    /// The keys with those of a span that have rows before and after the writes and name what a key declares.
    fn with_span(
        &self,
        keys: BTreeSet<Key>,
        declared: &Key,
        span: Span,
    ) -> Result<BTreeSet<Key>, AllocError>
        ensures { IfOk result (λ all. HasPicked (is_withdrawn (drafted_rows self.now) declared.now)
            (has_row (rows_in self.now.rows span)) keys all) }
    {
        let named = named_in(*self.writes.allocator(), self.rows, span, declared)?;
        self.with_keys(keys, declared, &named)
    }

    /// The keys with those of some that have rows after the writes and name what a key declares.
    fn with_keys(
        &self,
        keys: BTreeSet<Key>,
        declared: &Key,
        these: &[Key],
    ) -> Result<BTreeSet<Key>, AllocError>
        ensures { IfOk result (λ all. HasPicked (is_withdrawn (drafted_rows self.now) declared.now)
            (has_key these.now) keys all) }
    {
        let mut all = keys;
        for key in these {
            all = self.with_named(all, declared, key)?;
        }
        Ok(all)
    }

    /// The keys with those of the written ones that have rows after the writes and name what a key declares.
    fn with_written(
        &self,
        keys: BTreeSet<Key>,
        declared: &Key,
        writes: &[Write],
    ) -> Result<BTreeSet<Key>, AllocError>
        ensures { IfOk result (λ all. HasPicked (is_withdrawn (drafted_rows self.now) declared.now)
            (is_written_key writes.now) keys all) }
    {
        let mut all = keys;
        for write in writes {
            all = self.with_named(all, declared, &write.key)?;
        }
        Ok(all)
    }

    /// The keys with one more, where it has a row after the writes and names what a key declares.
    fn with_named(
        &self,
        keys: BTreeSet<Key>,
        declared: &Key,
        key: &Key,
    ) -> Result<BTreeSet<Key>, AllocError>
        ensures { IfOk result (λ all. HasPicked (is_withdrawn (drafted_rows self.now) declared.now)
            (λ at. is_eq (key_cmp key.now at)) keys all) }
    {
        if !names(declared, key) {
            return Ok(keys);
        }
        if !self.has(key) {
            return Ok(keys);
        }
        with_key(keys, key)
    }
}

/// The keys of a span that have rows and name what a key declares. One walk over the span.
pub fn named_in<R: RowStore>(
    alloc: Global,
    rows: &R,
    span: Span,
    declared: &Key,
) -> Result<Vec<Key>, AllocError>
    ensures { IfOk result (λ keys. keys.items ≡ named_in (R.rows rows.now) span declared.now) }
{
    let mut walk = rows_in(rows, span);
    let keys = named_left(alloc, &mut walk, declared);
    // a call: dropped in place at each exit of a loop the walk takes long to prove
    drop(walk);
    keys
}

/// The keys of the rows of a walk that name what a key declares.
fn named_left<R: RowStore>(
    alloc: Global,
    walk: &mut Within<R>,
    declared: &Key,
) -> Result<Vec<Key>, AllocError>
    ensures { IfOk result (λ keys. keys.items ≡ filter (names_key declared.now) (keys_of walk.old)) }
{
    let mut keys = Vec::new(alloc);
    while let Some(row) = walk.next() {
        keys = with_name(keys, declared, &row.0)?;
    }
    Ok(keys)
}

/// The keys with one more, where it names what a key declares.
fn with_name(keys: Vec<Key>, declared: &Key, key: &Key) -> Result<Vec<Key>, AllocError>
    ensures { IfOk result (λ all. all.items ≡ keys.items ++ filter (names_key declared.now) (key.now ∷ [])) }
{
    if !names(declared, key) {
        return Ok(keys);
    }
    let mut all = keys;
    all.push(copied(key)?)?;
    Ok(all)
}

/// The keys with one more.
fn with_key(keys: BTreeSet<Key>, key: &Key) -> Result<BTreeSet<Key>, AllocError>
    ensures { IfOk result (λ all. Updates key_cmp keys all key.now true) }
{
    let mut all = keys;
    all.insert(copied(key)?)?;
    Ok(all)
}

/// Whether a row of a key names what the key of a network, a PID or a metric declares.
fn names(declared: &Key, key: &Key) -> bool
    ensures { result ≡ names_key declared.now key.now }
{
    match declared {
        Key::Net(net) => is_of(net, key),
        Key::Pid(net, pid) => names_pid(net, pid, key),
        Key::Metric(net, metric) => names_metric(net, metric, key),
        _ => false,
    }
}

/// Whether a row of a key names a PID.
fn names_pid(net: &NetName, pid: &PidName, key: &Key) -> bool
    ensures { result ≡ names_key (keys.Pid net.now pid.now) key.now }
{
    match key {
        Key::Pid(of, other) | Key::Prefix(of, other, _) => net == of && pid == other,
        Key::Cost(of, _, source, destination) | Key::Path(of, source, destination) => {
            net == of && (pid == source || pid == destination)
        }
        Key::Prop(of, entity, _) => net == of && is_pid(pid, entity),
        _ => false,
    }
}

/// Whether an entity is a PID.
fn is_pid(pid: &PidName, entity: &Entity) -> bool
    ensures { result ≡ is_pid pid.now entity.now }
{
    match entity {
        Entity::Pid(other) => pid == other,
        Entity::Block(_) => false,
    }
}

/// Whether a row of a key names a metric.
fn names_metric(net: &NetName, metric: &Metric, key: &Key) -> bool
    ensures { result ≡ names_key (keys.Metric net.now metric.now) key.now }
{
    match key {
        Key::Metric(of, other) | Key::Cost(of, other, _, _) => net == of && metric == other,
        _ => false,
    }
}

/// Whether a key is that of a network or of something in it, the versions aside.
fn is_of(net: &NetName, key: &Key) -> bool
    ensures { result ≡ is_of net.now key.now }
{
    match key {
        Key::Net(of)
        | Key::Pid(of, _)
        | Key::Prefix(of, _, _)
        | Key::Metric(of, _)
        | Key::Cost(of, _, _, _)
        | Key::Prop(of, _, _)
        | Key::Ane(of, _)
        | Key::AneProp(of, _, _)
        | Key::Path(of, _, _) => net == of,
        Key::Epoch | Key::Window | Key::Seq(_) => false,
    }
}

/// The spans that have all keys that can name what a key declares.
fn spans_of(alloc: Global, declared: &Key) -> Result<Vec<Span>, AllocError>
    ensures { IfOk result (λ spans. spans.items ≡ spans_of declared.now) }
{
    match declared {
        Key::Net(net) => spans_of_net(alloc, net),
        Key::Pid(net, pid) => spans_of_pid(alloc, net, pid),
        Key::Metric(net, metric) => spans_of_metric(alloc, net, metric),
        _ => Ok(Vec::new(alloc)),
    }
}

/// Adds a span at the end.
fn add_span(spans: &mut Vec<Span>, span: Span) -> Result<(), AllocError>
    ensures { OnOk result (spans.new.items ≡ spans.old.items ++ span ∷ []) }
{
    spans.push(span)?;
    Ok(())
}

/// The spans of a network.
fn spans_of_net(alloc: Global, net: &NetName) -> Result<Vec<Span>, AllocError>
    ensures { IfOk result (λ spans. spans.items ≡ spans_of (keys.Net net.now)) }
{
    let mut spans = Vec::new(alloc);
    add_span(&mut spans, Span::Nets)?;
    add_span(&mut spans, Span::Pids(net.clone()?))?;
    add_span(&mut spans, Span::Prefixes(net.clone()?))?;
    add_span(&mut spans, Span::Metrics(net.clone()?))?;
    add_span(&mut spans, Span::Costs(net.clone()?))?;
    add_span(&mut spans, Span::Props(net.clone()?))?;
    add_span(&mut spans, Span::Anes(net.clone()?))?;
    add_span(&mut spans, Span::AneProps(net.clone()?))?;
    add_span(&mut spans, Span::Paths(net.clone()?))?;
    Ok(spans)
}

/// The spans that can name a PID.
fn spans_of_pid(alloc: Global, net: &NetName, pid: &PidName) -> Result<Vec<Span>, AllocError>
    ensures { IfOk result (λ spans. spans.items ≡ spans_of (keys.Pid net.now pid.now)) }
{
    let mut spans = Vec::new(alloc);
    add_span(&mut spans, Span::Pids(net.clone()?))?;
    add_span(&mut spans, Span::PrefixesOf(net.clone()?, pid.clone()?))?;
    add_span(&mut spans, Span::Costs(net.clone()?))?;
    add_span(
        &mut spans,
        Span::PropsOf(net.clone()?, Entity::Pid(pid.clone()?)),
    )?;
    add_span(&mut spans, Span::Paths(net.clone()?))?;
    Ok(spans)
}

/// The spans that can name a metric.
fn spans_of_metric(alloc: Global, net: &NetName, metric: &Metric) -> Result<Vec<Span>, AllocError>
    ensures { IfOk result (λ spans. spans.items ≡ spans_of (keys.Metric net.now metric.now)) }
{
    let mut spans = Vec::new(alloc);
    add_span(&mut spans, Span::Metrics(net.clone()?))?;
    add_span(&mut spans, Span::CostsIn(net.clone()?, metric.clone()?))?;
    Ok(spans)
}
