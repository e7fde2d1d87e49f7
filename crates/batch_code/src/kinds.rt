ghost use Rattle.std.specs.Prelude.{◌≡◌, ◌≢◌, MatchOption};
ghost use Rattle.batch_code.specs.Grammar.{form_number, key_number, resource_number, shape_of};
ghost use Rattle.batch_code.specs.declared.kinds.Form.{Form as TheForm};
ghost use Rattle.batch_code.specs.declared.kinds.KeyKind.{KeyKind as TheKind};
ghost use Rattle.batch_code.specs.declared.kinds.ResourceKind.{ResourceKind as TheResourceKind};

/// The kinds of keys that are stored in batches.
#[derive(Clone, Copy)]
pub(crate) enum KeyKind {
    Net,
    Pid,
    Prefix,
    Metric,
    Cost,
    Prop,
    Ane,
    AneProp,
    Path,
    Seq,
}

/// Which values the keys of a kind have.
#[derive(Clone, Copy)]
pub(crate) enum Shape {
    /// Nothing.
    Unit,
    /// A number that a float tells from its neighbours.
    Amount,
    /// Such a number, or a text.
    Property,
    /// Names of abstract network elements.
    Names,
    /// A number from 1, never deleted.
    Version,
}

/// The forms of values, and a deletion.
#[derive(Clone, Copy)]
pub(crate) enum Form {
    Deletion,
    Unit,
    Number,
    Text,
    Names,
}

/// The kinds of resources.
#[derive(Clone, Copy)]
pub(crate) enum ResourceKind {
    Net,
    Cost,
    Prop,
}

impl KeyKind {
    /// The kind with this number.
    pub(crate) fn of(number: u8) -> Option<KeyKind>
        ensures { MatchOption result ((kind : TheKind) → number ≢ key_number kind) (λ kind. number ≡ key_number kind) }
    {
        match number {
            3 => Some(KeyKind::Net),
            4 => Some(KeyKind::Pid),
            5 => Some(KeyKind::Prefix),
            6 => Some(KeyKind::Metric),
            7 => Some(KeyKind::Cost),
            8 => Some(KeyKind::Prop),
            9 => Some(KeyKind::Ane),
            10 => Some(KeyKind::AneProp),
            11 => Some(KeyKind::Path),
            12 => Some(KeyKind::Seq),
            _ => None,
        }
    }

    /// Which values such keys have.
    pub(crate) fn shape(self) -> Shape
        ensures { result ≡ shape_of self }
    {
        match self {
            KeyKind::Cost | KeyKind::AneProp => Shape::Amount,
            KeyKind::Prop => Shape::Property,
            KeyKind::Path => Shape::Names,
            KeyKind::Seq => Shape::Version,
            _ => Shape::Unit,
        }
    }
}

impl Form {
    /// The form with this number.
    pub(crate) fn of(number: u8) -> Option<Form>
        ensures { MatchOption result ((form : TheForm) → number ≢ form_number form)
            (λ form. number ≡ form_number form) }
    {
        match number {
            0 => Some(Form::Deletion),
            1 => Some(Form::Unit),
            2 => Some(Form::Number),
            3 => Some(Form::Text),
            4 => Some(Form::Names),
            _ => None,
        }
    }
}

impl ResourceKind {
    /// The kind with this number.
    pub(crate) fn of(number: u8) -> Option<ResourceKind>
        ensures { MatchOption result ((kind : TheResourceKind) → number ≢ resource_number kind)
            (λ kind. number ≡ resource_number kind) }
    {
        match number {
            1 => Some(ResourceKind::Net),
            2 => Some(ResourceKind::Cost),
            3 => Some(ResourceKind::Prop),
            _ => None,
        }
    }
}
