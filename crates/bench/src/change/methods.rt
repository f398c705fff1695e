ghost use Rattle.format.specs.declared.command.Direction.TheVariants.{In, Out};
ghost use Rattle.net.specs.Nets.{arcs_of, given, side, taken};
ghost use Rattle.net.specs.Runs.{Counted};
ghost use Rattle.net.specs.Of.{system};

use super::Change;
use format::Direction;
use net::{CELLS, Firing, Net};

// Takes what the firing's arcs of one direction have, and puts what those of the other have.
fn counted(net: &Net, f: Firing, takes: Direction, puts: Direction) -> Change
    ensures takes { Counted result.takes (side (system net.now) f.mode (arcs_of (system net.now) f.transition takes)) }
    ensures puts { Counted result.puts (side (system net.now) f.mode (arcs_of (system net.now) f.transition puts)) }
{
    let mut change = Change {
        takes: [0; CELLS],
        puts: [0; CELLS],
    };
    net.count(f, takes, &mut change.takes);
    net.count(f, puts, &mut change.puts);
    change
}

impl Change {
    // The change that a firing makes.
    pub(crate) fn of(net: &Net, f: Firing) -> Change
        ensures takes { Counted result.takes (taken (system net.now) f.transition f.mode) }
        ensures puts { Counted result.puts (given (system net.now) f.transition f.mode) }
    {
        counted(net, f, Direction::In, Direction::Out)
    }

    // The change that undoes a firing.
    pub(crate) fn undoing(net: &Net, f: Firing) -> Change
        ensures takes { Counted result.takes (given (system net.now) f.transition f.mode) }
        ensures puts { Counted result.puts (taken (system net.now) f.transition f.mode) }
    {
        counted(net, f, Direction::Out, Direction::In)
    }
}
