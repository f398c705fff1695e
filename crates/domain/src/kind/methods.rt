ghost use Rattle.std.specs.Prelude.{◌≡◌};
ghost use Rattle.domain.specs.Kinds.{KindAt, kind_measures, kind_weighs};

use super::Kind;
use crate::{Equal, Modulo, NeverRises, Siphon, Turned, WeightDomain};

impl Kind {
    // The kind that a file names by its number; only residues have a modulus. A method and no TryFrom: two numbers
    // would have to be paired for it.
    pub fn from_number(kind: u8, modulus: u16) -> Option<Kind>
        ensures { KindAt kind modulus result }
    {
        match (kind, modulus) {
            (1, 0) => Some(Kind::Equal),
            (2, 0) => Some(Kind::NeverRises),
            (3, 0) => Some(Kind::NeverFalls),
            (4, k) => Modulo::new(u32::from(k)).map(Kind::Modulo),
            (5, 0) => Some(Kind::Trap),
            (6, 0) => Some(Kind::Siphon),
            _ => None,
        }
    }

    // Whether the code stands for a weight under this kind. A match, here and in the judge: each domain is a type of
    // its own, so that no closure or dyn can stand for all of them.
    pub fn is_weight(&self, code: i32) -> bool
        ensures { result ≡ kind_weighs self.now code }
    {
        match self {
            Kind::Equal => Equal.is_weight(code),
            Kind::NeverRises => NeverRises.is_weight(code),
            Kind::NeverFalls => Turned(NeverRises).is_weight(code),
            Kind::Modulo(m) => m.is_weight(code),
            Kind::Trap => Turned(Siphon).is_weight(code),
            Kind::Siphon => Siphon.is_weight(code),
        }
    }

    // Whether the kind's domain can say how many copies fit.
    pub fn is_measuring(&self) -> bool
        ensures { result ≡ kind_measures self.now }
    {
        matches!(self, Kind::Equal | Kind::NeverRises | Kind::Siphon)
    }
}
