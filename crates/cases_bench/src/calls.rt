// The calls of a bench, as the examples write them.
ghost use Rattle.bench.specs.Standing.{lent_of};
ghost use Rattle.cases_bench.specs.Made.{Made};
ghost use Rattle.net.specs.Of.{system};

use bench::{Bench, Firing};
use term::Fault;

// A call of a bench.
#[derive(Clone, Copy)]
pub enum Call {
    Fire(usize, [u8; 4]),
    Back,
    Restart,
}

// Makes a call.
pub fn make(bench: &mut Bench, call: Call) -> Result<(), Fault>
    ensures { Made (system bench.old.net.now) call (lent_of bench.old) (lent_of bench.new) result }
{
    match call {
        Call::Fire(transition, mode) => bench.fire(Firing { transition, mode }),
        Call::Back => bench.back(),
        Call::Restart => {
            bench.restart();
            Ok(())
        }
    }
}
