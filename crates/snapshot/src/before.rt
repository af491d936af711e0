// What a record that goes wrong goes back to.

ghost use Rattle.std.specs.Prelude.{◌≡◌, ◌≤◌, length};
ghost use Rattle.std.specs.Coded.{le_prop};

use table::{Touched, Used};

// The counts at entry, the rows of the variables as they were saved then, and which of them were touched since.
#[derive(Clone, Copy)]
pub struct Before<'a> {
    pub used: Used,
    pub saved: &'a [u32],
    pub touched: Touched,
    pub ghost long: { 5120 ≤ length saved.now } by { le_prop },
}

impl Before<'_> {
    // .. where these were touched since.
    pub fn since(self, touched: Touched) -> Self
        ensures { (result.used ≡ self.entry.used) × ((result.saved.now ≡ self.entry.saved.now) × (result.touched ≡ touched)) }
    {
        Before {
            used: self.used,
            saved: self.saved,
            touched,
        }
    }
}
