ghost use Rattle.std.specs.Prelude.{◌≡◌};
ghost use Rattle.std.specs.List.{find};
ghost use Rattle.edit_forms.specs.Operations.{operation_in, operation_name, same_text};

/// An operation of an import, by its name.
#[derive(Clone, Copy, Debug, PartialEq, Eq)]
pub(crate) enum Operation {
    NetAdd,
    NetDrop,
    PidAdd,
    PidDrop,
    PrefixPut,
    PrefixDel,
    MetricAdd,
    MetricDrop,
    CostPut,
    CostDel,
    PropPut,
    PropDel,
    AneAdd,
    AneSet,
    PathPut,
    PathDel,
}

/// Every operation.
const OPERATIONS: [Operation; 16] = [
    Operation::NetAdd,
    Operation::NetDrop,
    Operation::PidAdd,
    Operation::PidDrop,
    Operation::PrefixPut,
    Operation::PrefixDel,
    Operation::MetricAdd,
    Operation::MetricDrop,
    Operation::CostPut,
    Operation::CostDel,
    Operation::PropPut,
    Operation::PropDel,
    Operation::AneAdd,
    Operation::AneSet,
    Operation::PathPut,
    Operation::PathDel,
];

impl Operation {
    /// The operation whose name stands in the first column, if one does.
    pub(crate) fn read(text: &[u8]) -> Option<Operation>
        ensures { result ≡ operation_in text.now }
    {
        first_named(&OPERATIONS, text)
    }

    /// The name of the operation.
    fn name(&self) -> &'static [u8]
        ensures { result.now ≡ operation_name self.now }
    {
        match self {
            Operation::NetAdd => b"net-add",
            Operation::NetDrop => b"net-drop",
            Operation::PidAdd => b"pid-add",
            Operation::PidDrop => b"pid-drop",
            Operation::PrefixPut => b"prefix-put",
            Operation::PrefixDel => b"prefix-del",
            Operation::MetricAdd => b"metric-add",
            Operation::MetricDrop => b"metric-drop",
            Operation::CostPut => b"cost-put",
            Operation::CostDel => b"cost-del",
            Operation::PropPut => b"prop-put",
            Operation::PropDel => b"prop-del",
            Operation::AneAdd => b"ane-add",
            Operation::AneSet => b"ane-set",
            Operation::PathPut => b"path-put",
            Operation::PathDel => b"path-del",
        }
    }
}

/// The first of these operations that has this name.
fn first_named(operations: &[Operation], text: &[u8]) -> Option<Operation>
    ensures { result ≡ find (λ operation. same_text (operation_name operation) text.now) operations.now }
{
    for operation in operations {
        if operation.name() == text {
            return Some(*operation);
        }
    }
    None
}
