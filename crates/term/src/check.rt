ghost use Rattle.std.specs.Prelude.{◌≡◌, ℕ, ◌<◌, ◌≤◌, List, length, nat_eq, IfOk};
ghost use Rattle.term.specs.Check.{Checked, application_at, check_bag, check_term, checked, constant_at, equality_at, flexible_at, front_of, head_at, in_term, onward, spot, variable_at};
ghost use Rattle.term.specs.Meaning.{of};
ghost use Rattle.term.specs.Shape.{Flexible, Passed, PassedBag};

use crate::fault::{Fault, FileFault, Stage};
use crate::signature::{Arguments, Signature};

// What a term or a bag is checked against: `ends` is the length of the file.
#[derive(Clone, Copy)]
pub struct Checker<'s> {
    pub signature: Signature<'s>,
    pub variables: &'s [u8],
    pub ends: usize,
}

// What stands at the front of a term: the sorts of the parts that follow, and where they begin.
#[derive(Clone, Copy)]
pub(crate) struct Head<'f> {
    pub(crate) parts: Arguments,
    pub(crate) rest: &'f [u8],
}

impl<'s> Checker<'s> {
    // A fault at the byte `k` of what is left. It stands beside the one of net files' commands, whose stage is another.
    fn refused(&self, fault: Fault, bytes: &[u8], k: usize) -> FileFault
        requires { k ≤ length bytes.now }
        ensures { result ≡ in_term fault (spot bytes.now self.now.ends k) }
    {
        FileFault {
            fault,
            place: self.ends.saturating_sub(bytes.len()) + k,
            stage: Stage::Term,
        }
    }

    // The file ends within a term or a bag.
    fn ended(&self) -> FileFault
        ensures { result ≡ in_term Fault.Ends self.now.ends }
    {
        FileFault {
            fault: Fault::Ends,
            place: self.ends,
            stage: Stage::Term,
        }
    }

    // number of a variable
    fn variable<'f>(&self, bytes: &'f [u8], want: u8) -> Result<Head<'f>, FileFault>
        ensures value { front_of result ≡ variable_at self.now.variables.now want bytes.now self.now.ends }
    {
        let [_, number, rest @ ..] = bytes else {
            return Err(self.ended());
        };
        match self.variables.get(*number as usize) {
            None => Err(self.refused(Fault::Range, bytes, 1)),
            Some(sort) if *sort != want => Err(self.refused(Fault::Sort, bytes, 1)),
            Some(_) => Ok(Head {
                parts: Arguments::None,
                rest,
            }),
        }
    }

    // sort, element
    fn constant<'f>(&self, bytes: &'f [u8], want: u8) -> Result<Head<'f>, FileFault>
        ensures value { front_of result ≡ constant_at (of self.now.signature) want bytes.now self.now.ends }
    {
        let sizes = self.signature.sizes;
        match bytes {
            [_, sort, ..] if *sort as usize >= sizes.len() => Err(self.refused(
                Fault::Range,
                bytes,
                1,
            )),
            [_, sort, ..] if *sort != want => Err(self.refused(Fault::Sort, bytes, 1)),
            [_, sort, element, ..] if *element >= sizes[*sort as usize] => Err(self.refused(
                Fault::Range,
                bytes,
                2,
            )),
            [_, _, _, rest @ ..] => Ok(Head {
                parts: Arguments::None,
                rest,
            }),
            _ => Err(self.ended()),
        }
    }

    // number of an operation
    fn application<'f>(&self, bytes: &'f [u8], want: u8) -> Result<Head<'f>, FileFault>
        ensures value { front_of result ≡ application_at (of self.now.signature) want bytes.now self.now.ends }
    {
        let [_, number, rest @ ..] = bytes else {
            return Err(self.ended());
        };
        match self.signature.operations.get(*number as usize) {
            None => Err(self.refused(Fault::Range, bytes, 1)),
            Some(o) if o.result != want => Err(self.refused(Fault::Sort, bytes, 1)),
            Some(o) => Ok(Head {
                parts: o.arguments,
                rest,
            }),
        }
    }

    // sort of both parts
    fn equality<'f>(&self, bytes: &'f [u8], want: u8) -> Result<Head<'f>, FileFault>
        ensures value { front_of result ≡ equality_at (of self.now.signature) want bytes.now self.now.ends }
    {
        match bytes {
            _ if want != 0 => Err(self.refused(Fault::Sort, bytes, 0)),
            [_, sort, ..] if *sort as usize >= self.signature.sizes.len() => Err(self.refused(
                Fault::Range,
                bytes,
                1,
            )),
            [_, sort, rest @ ..] => Ok(Head {
                parts: Arguments::Two(*sort, *sort),
                rest,
            }),
            _ => Err(self.ended()),
        }
    }

    // The front of a term of sort `want`; not and `and` have parts of sort 0.
    fn head<'f>(&self, bytes: &'f [u8], depth: u8, want: u8) -> Result<Head<'f>, FileFault>
        ensures value { front_of result ≡ head_at (of self.now.signature) self.now.variables.now (nat_eq depth 0) want bytes.now self.now.ends }
    {
        match bytes {
            [] => Err(self.ended()),
            [0x20..=0x25, ..] if depth == 0 => Err(self.refused(Fault::Deep, bytes, 0)),
            [0x20, ..] => self.variable(bytes, want),
            [0x21, ..] => self.constant(bytes, want),
            [0x22, ..] => self.application(bytes, want),
            [0x23, ..] => self.equality(bytes, want),
            [0x24 | 0x25, ..] if want != 0 => Err(self.refused(Fault::Sort, bytes, 0)),
            [0x24, rest @ ..] => Ok(Head {
                parts: Arguments::One(0),
                rest,
            }),
            [0x25, rest @ ..] => Ok(Head {
                parts: Arguments::Two(0, 0),
                rest,
            }),
            [_, ..] => Err(self.refused(Fault::NoCommand, bytes, 0)),
        }
    }

    // Checks a term of sort `want`, of at most the depth `depth`, and gives what follows it.
    #[tactic(auto, using(crate::proofs::Steps::shorter))]
    pub fn term<'f>(&self, bytes: &'f [u8], depth: u8, want: u8) -> Result<&'f [u8], FileFault>
        ensures value { checked result ≡ check_term (of self.now.signature) self.now.variables.now self.now.ends depth want bytes.now }
        ensures shorter { IfOk result (λ t. length t.now < length bytes.now) }
        ensures passed { IfOk result (λ t. Passed (of self.now.signature) self.now.variables.now depth want bytes.now t.now) }
    {
        let head = self.head(bytes, depth, want)?;
        match head.parts {
            Arguments::None => Ok(head.rest),
            Arguments::One(a) => self.term(head.rest, depth - 1, a),
            Arguments::Two(a, b) | Arguments::More(a, b) => {
                let rest = self.term(head.rest, depth - 1, a)?;
                self.term(rest, depth - 1, b)
            }
        }
    }

    // Checks a bag over the sort `want`, of at most the depth `depth`, and gives what follows it.
    pub fn bag<'f>(&self, bytes: &'f [u8], depth: u8, want: u8) -> Result<&'f [u8], FileFault>
        ensures value { checked result ≡ check_bag (of self.now.signature) self.now.variables.now self.now.ends depth want bytes.now }
        ensures shorter { IfOk result (λ t. length t.now < length bytes.now) }
        ensures passed { IfOk result (λ t. PassedBag (of self.now.signature) self.now.variables.now depth want bytes.now t.now) }
    {
        match bytes {
            [] => Err(self.ended()),
            [0x30..=0x33, ..] if depth == 0 => Err(self.refused(Fault::Deep, bytes, 0)),
            [0x30, rest @ ..] => Ok(rest),
            [0x31, rest @ ..] => self.term(rest, depth - 1, want),
            [0x32, rest @ ..] => {
                let rest = self.bag(rest, depth - 1, want)?;
                self.bag(rest, depth - 1, want)
            }
            [0x33, ..] => {
                let (argument, rest) = self.flexible(bytes, want)?;
                self.term(rest, depth - 1, argument)
            }
            [_, ..] => Err(self.refused(Fault::NoCommand, bytes, 0)),
        }
    }

    // The argument sort of a bag operation over `want`, and what follows its number.
    fn flexible<'f>(&self, bytes: &'f [u8], want: u8) -> Result<(u8, &'f [u8]), FileFault>
        ensures value { (t : ℕ → List ℕ → Checked) → onward t result ≡ flexible_at (of self.now.signature) t want bytes.now self.now.ends }
        ensures found { IfOk result (λ h. Flexible (of self.now.signature) want bytes.now h.0 h.1.now) }
    {
        let [_, number, rest @ ..] = bytes else {
            return Err(self.ended());
        };
        match self.signature.bags.get(*number as usize) {
            None => Err(self.refused(Fault::Range, bytes, 1)),
            Some(o) if o.result != want => Err(self.refused(Fault::Sort, bytes, 1)),
            Some(o) => Ok((o.argument, rest)),
        }
    }
}
