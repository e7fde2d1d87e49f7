ghost use Rattle.std.specs.Prelude.{◌≡◌, IfOk};
ghost use Rattle.std.specs.Arc.{arc_value};

use crate::mark::Mark;
use alto_desk::Front;
use left_right::Absorb;
use row_chunks::Chunks;
use std::alloc::AllocError;
use std::sync::Arc;

/// What readers see: a version, with the mark that its history was reached.
#[derive(Drop)]
pub struct Published {
    pub front: Arc<Front<Chunks>>,
    pub mark: Mark,
}

impl Published {
    /// Shares a version once more.
    pub fn new(front: &Arc<Front<Chunks>>, mark: &Mark) -> Result<Published, AllocError>
        ensures { IfOk result (λ published. (arc_value published.front ≡ arc_value front.now)
            × (published.mark ≡ mark.now)) }
    {
        Ok(Published {
            front: Arc::try_clone(front)?,
            mark: mark.again(),
        })
    }
}

impl Absorb<Published> for Published {
    ghost use Rattle.std.specs.Arc.{arc_value};

    type State = (Front<Chunks>, Mark);

    ghost state = { λ published. (arc_value published.front, published.mark) };

    ghost applied = { λ _ published. (arc_value published.front, published.mark) };

    fn absorb_first(
        &mut self,
        operation: &Published,
        _other: &Published,
    ) -> Result<(), AllocError> {
        self.front = Arc::try_clone(&operation.front)?;
        self.mark = operation.mark.again();
        Ok(())
    }
}
