// A state whose words are shared.

ghost use Rattle.std.specs.Prelude.{◌≡◌};
ghost use Rattle.table.specs.State.{Lay};
ghost use Rattle.table.specs.Layout.{Lay-prop};
ghost use Rattle.table.specs.declared.Touched.TheVariants.{Nothing};

use crate::Used;
use crate::read::ReadState;

// It is read as a State is, and nothing is changed through it.
#[derive(Clone, Copy)]
pub struct SharedState<'a> {
    pub words: &'a [u32],
    pub used: Used,
    pub ghost lay: { Lay words.now used } by { Lay-prop words.now used },
}

impl<'a> SharedState<'a> {
    // Refused (must-fail/): no node in use (shared_without_nodes).
    pub fn new(words: &'a [u32], used: Used) -> SharedState<'a>
        requires { Lay words.now used }
        ensures { (result.words.now ≡ words.now) × (result.used ≡ used) }
    {
        SharedState { words, used }
    }
}

// Refused (must-fail/): other counts (shared_counts_of_none), words from another place (shared_words_late).
impl ReadState for SharedState<'_> {
    // No row of it is saved, so that none is noted. A `&` has no name of its own that a change could follow.
    ghost state = { λ s. record { words = record { ref_ptr = s.words.ref_ptr; ghost_name = 0; now = s.words.now }; used = s.used; saved = 0; touched = Nothing; lay = s.lay } };

    fn words(&self) -> &[u32] {
        self.words
    }

    fn used(&self) -> Used {
        self.used
    }
}
