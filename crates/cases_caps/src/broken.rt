// Breaches, as the examples write them.
ghost use Rattle.std.specs.Prelude.{◌≡◌, [], ◌∷◌, Err};

use judge::{Breach, Verdict};
use net::Firing;

// That a claim breaks at a transition, in its first mode, with both values.
pub fn broken<V: Drop>(transition: usize, before: V, after: V) -> Verdict<V>
    ensures { result ≡ Err (record { firing = record { transition = transition; mode = 0 ∷ 0 ∷ 0 ∷ 0 ∷ [] }; before = before; after = after }) }
{
    Err(Breach {
        firing: Firing {
            transition,
            mode: [0; 4],
        },
        before,
        after,
    })
}
