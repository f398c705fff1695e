ghost use Rattle.std.specs.Prelude.{◌≡◌, ◌<◌, false};
ghost use Rattle.term.specs.Meaning.{of, value as value_of};
ghost use Rattle.term.specs.Prefix.{begins, term_at};

use crate::signature::{Arguments, Signature, at};

// What a term or a bag is evaluated in.
#[derive(Clone, Copy)]
pub struct Evaluator<'s> {
    pub signature: Signature<'s>,
    pub mode: &'s [u8],
}

impl<'s> Evaluator<'s> {
    // The element that the term at the front of `bytes` means, and what follows the term.
    pub fn value<'f>(&self, bytes: &'f [u8], depth: u8) -> (u8, &'f [u8])
        ensures value { result.0 ≡ value_of (of self.now.signature) self.now.mode.now (term_at (of self.now.signature) depth bytes.now).0 }
        ensures rest { result.1.now ≡ (term_at (of self.now.signature) depth bytes.now).1 }
    {
        let mut rest = bytes;
        let element = self.next(&mut rest, depth);
        (element, rest)
    }

    // The same, as a step: `bytes` moves past the term. The parts of a term are evaluated by this one and not by `value`,
    // whose pair would be kept in memory for each call, which is slower.
    #[cycle(terms)]
    fn next<'f>(&self, bytes: &mut &'f [u8], depth: u8) -> u8
        ensures value { result ≡ value_of (of self.now.signature) self.now.mode.now (term_at (of self.now.signature) depth bytes.old.now).0 }
        ensures rest { bytes.new.now ≡ (term_at (of self.now.signature) depth bytes.old.now).1 }
    {
        if depth == 0 {
            return 0;
        }
        if let [0x20, v, rest @ ..] = *bytes {
            *bytes = rest;
            return at(self.mode, *v as usize);
        }
        self.next_other(bytes, depth)
    }

    // The same of a term that is no variable. On its own, so that `next` is short and inlined where it is called: half of
    // all parts are variables, and cost no call then. Inlined itself, this would make `next` long again.
    #[cycle(terms)]
    #[inline(never)]
    fn next_other<'f>(&self, bytes: &mut &'f [u8], depth: u8) -> u8
        requires deep { 0 < depth }
        requires other { begins 0x20 1 bytes.old.now ≡ false }
        ensures value { result ≡ value_of (of self.now.signature) self.now.mode.now (term_at (of self.now.signature) depth bytes.old.now).0 }
        ensures rest { bytes.new.now ≡ (term_at (of self.now.signature) depth bytes.old.now).1 }
    {
        match *bytes {
            [0x21, _, element, rest @ ..] => {
                *bytes = rest;
                *element
            }
            [0x22, k, rest @ ..] => {
                *bytes = rest;
                let o = self.signature.operation(*k);
                match o.arguments {
                    Arguments::None => self.signature.result(o, 0, 0),
                    Arguments::One(_) => {
                        let a = self.next(bytes, depth - 1);
                        self.signature.result(o, a, 0)
                    }
                    Arguments::Two(_, _) | Arguments::More(_, _) => {
                        let a = self.next(bytes, depth - 1);
                        let b = self.next(bytes, depth - 1);
                        self.signature.result(o, a, b)
                    }
                }
            }
            [0x23, _, rest @ ..] => {
                *bytes = rest;
                let a = self.next(bytes, depth - 1);
                let b = self.next(bytes, depth - 1);
                u8::from(a == b)
            }
            [0x24, rest @ ..] => {
                *bytes = rest;
                let a = self.next(bytes, depth - 1);
                u8::from(a == 0)
            }
            [0x25, rest @ ..] => {
                *bytes = rest;
                let a = self.next(bytes, depth - 1);
                let b = self.next(bytes, depth - 1);
                u8::from(a == 1 && b == 1)
            }
            _ => 0,
        }
    }
}
