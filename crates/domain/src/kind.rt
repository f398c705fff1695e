// The kinds of claims that a file can hold, each with its domain.
use crate::Modulo;

mod methods;

#[derive(Clone, Copy, PartialEq, Eq, Debug)]
pub enum Kind {
    Equal,
    NeverRises,
    NeverFalls,
    Modulo(Modulo),
    Trap,
    Siphon,
}
