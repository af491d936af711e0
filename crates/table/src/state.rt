// The state of a job: the words that the caller lends, and the counts of the rows in use.

ghost use Rattle.std.specs.Prelude.{◌≡◌};
ghost use Rattle.table.specs.State.{Lay};
ghost use Rattle.table.specs.Layout.{Lay-prop};

use crate::{Touched, TypingError, Used};
use refusals::Refusal;

// What a step that does not succeed says.
#[derive(Clone, Copy)]
pub enum Stop {
    Failed(TypingError),
    Refused(Refusal),
}

#[derive(Drop)]
pub struct State<'a> {
    pub words: &'a mut [u32],
    pub used: Used,
    // The rows of so many variables were saved, and these were touched since: it is they that have to be saved again, and put back.
    pub saved: u32,
    pub touched: Touched,
    pub ghost lay: { Lay words.now used } by { Lay-prop words.now used },
}

impl<'a> State<'a> {
    pub fn new(words: &'a mut [u32], used: Used) -> State<'a>
        requires { Lay words.old used }
        ensures { (result.words.now ≡ words.old) × ((result.used ≡ used) × ((result.words.ghost_name ≡ words.entry.ghost_name) × (result.saved ≡ 0))) }
    {
        State {
            words,
            used,
            saved: 0,
            touched: Touched::Nothing,
        }
    }
}
