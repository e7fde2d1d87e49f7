ghost use Rattle.std.specs.Prelude.{◌≡◌, option_map};
ghost use Rattle.tips_graph.specs.Shortcuts.{list_of};

use alto_rows::{Key, RowStore};
use std::marker::Model;
use std::sync::Arc;

/// What is kept for one number: the rows at it, the keys of its push, and for each longer edge that ends at it the keys
/// of all pushes that the edge leads over. There is no list where no such edge began at a kept number, and where it
/// would have many keys.
#[derive(Drop)]
pub(crate) struct Step<R: RowStore> {
    pub(crate) rows: Arc<R>,
    pub(crate) keys: Vec<Key>,
    pub(crate) twos: Option<Vec<Key>>,
    pub(crate) fours: Option<Vec<Key>>,
    pub(crate) eights: Option<Vec<Key>>,
    pub(crate) sixteens: Option<Vec<Key>>,
}

impl<R: RowStore> Model for Step<R> {
    ghost use Rattle.std.specs.Prelude.{option_map};
    ghost use Rattle.std.specs.Arc.{arc_value};
    ghost use Rattle.tips_graph.specs.Shortcuts.{StepData};

    ghost Value = { StepData };

    ghost view = { λ step. record {
      rows = R.rows (arc_value step.rows);
      keys = step.keys.items;
      twos = option_map (λ keys. keys.items) step.twos;
      fours = option_map (λ keys. keys.items) step.fours;
      eights = option_map (λ keys. keys.items) step.eights;
      sixteens = option_map (λ keys. keys.items) step.sixteens;
    } };
}

impl<R: RowStore> Step<R> {
    /// The keys of the edge that leads here by a stride, where they are kept.
    pub(crate) fn list(&self, stride: u64) -> Option<&[Key]>
        ensures { option_map (λ keys. keys.now) result ≡ list_of self.now stride }
    {
        match stride {
            1 => Some(&self.keys),
            2 => self.twos.as_deref(),
            4 => self.fours.as_deref(),
            8 => self.eights.as_deref(),
            _ => self.sixteens.as_deref(),
        }
    }
}
