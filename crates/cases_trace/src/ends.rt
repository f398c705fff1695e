// How a replay ends, as the examples write it.
ghost use Rattle.std.specs.Prelude.{◌≡◌, Some, None};
ghost use Rattle.term.specs.Faults.{number_of};

use trace::Replayed;

// How many commands were carried out, and the number and the place of the fault, both 0 where the replay is done.
pub type Ended = (u32, u8, usize);

pub fn ended(replayed: Replayed) -> Ended
    ensures { elim replayed.stop [ Some s ↦ result ≡ (replayed.carried, number_of s.fault, s.place) | None ↦ result ≡ (replayed.carried, 0, 0) ] }
{
    match replayed.stop {
        Some(stop) => (replayed.carried, stop.fault.number(), stop.place),
        None => (replayed.carried, 0, 0),
    }
}
