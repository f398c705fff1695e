ghost use Rattle.std.specs.Prelude.{◌≡◌};
ghost use Rattle.domain.specs.Meaning.{Tells};
ghost use Rattle.judge.specs.Calls.{Fits, lent};

use net::{CELLS, Net};

// A net, and memory that a caller lends for judging it: for the codes of a claim, and for the counts before and after.
#[derive(Drop)]
pub struct Judge<'n, 'm> {
    pub net: &'n Net,
    pub codes: &'m mut [i32],
    pub before: &'m mut [u32],
    pub after: &'m mut [u32],
}

impl<'n, 'm> Judge<'n, 'm> {
    // Whether each part of the memory has the stated length.
    pub(crate) fn is_measured(&self) -> bool
        ensures { Tells result (Fits (lent self.now)) }
    {
        self.codes.len() == CELLS && self.before.len() == CELLS && self.after.len() == CELLS
    }

    // The codes, to read. A loan of the field itself would leave a proof without what stands there.
    pub(crate) fn codes(&self) -> &[i32]
        ensures { result.now ≡ self.now.codes.now }
    {
        self.codes
    }
}
