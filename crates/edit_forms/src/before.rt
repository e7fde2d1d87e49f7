use alto_edits::Edit;
use alto_names::{Metric, NetName, PidName};

/// What a record is likely to name again: names of the edit read before it. What the record reads as doesn't depend on
/// them.
#[derive(Clone, Copy)]
pub(crate) struct Before<'a> {
    pub(crate) net: Option<&'a NetName>,
    pub(crate) metric: Option<&'a Metric>,
    pub(crate) source: Option<&'a PidName>,
}

impl<'a> Before<'a> {
    /// Those of the last of the edits if it is a `cost-put`, else none. Takes constant time.
    pub(crate) fn of(edits: &'a [Edit]) -> Before<'a> {
        match edits.last() {
            Some(
                Edit::CostPut {
                    net,
                    metric,
                    source,
                    ..
                },
            ) => Before {
                net: Some(net),
                metric: Some(metric),
                source: Some(source),
            },
            _ => Before {
                net: None,
                metric: None,
                source: None,
            },
        }
    }
}
