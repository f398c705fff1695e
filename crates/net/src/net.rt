ghost use Rattle.net.specs.Held.{HoldsNoMore};
ghost use Rattle.net.specs.WellFormed.{WellFormed};
ghost use Rattle.net.specs.System.{told_by};

use crate::parts::Parts;

mod ask;

// How many cells there are: 16 places of at most 64 elements.
pub const CELLS: usize = 1024;

// A net with its initial marking and its claims. `Net::new` and `read` alone write its parts: so every net is well-formed, its
// terms of their sorts and its numbers in their ranges, and holds no arc and no byte but those that it tells.
#[derive(Drop)]
pub struct Net {
    pub(crate) parts: Parts,
    ghost well_formed: { ∥ WellFormed (told_by parts) ∥₁ },
    ghost no_more: { ∥ HoldsNoMore parts.transitions ∥₁ },
}
