// The operands of each command, taken apart by slice patterns. Each is checked at its own byte.
ghost use Rattle.std.specs.Prelude.{◌≡◌, ◌<◌, ◌≤◌, length, nat_le, IfSome, IfOk};
ghost use Rattle.term.specs.Meaning.{of, size_of};
ghost use Rattle.format.specs.Commands.{arguments_of, fault, seen};
ghost use Rattle.format.specs.Format.{arc_at, bag_operation_at, claim_at, combinations, counts_at, element_weight_at, end_at, first_bad, fitting, front_of, guard_at, in_command, mode_count, operation_at, parse_at, parts_of, place_at, place_size, place_weight_at, setting_of, sort_at, table_at, tokens_at, transition_at, variable_sizes};
ghost use Rattle.term.specs.Check.{spot};
ghost use Rattle.format.specs.Reads.{Reads};

use crate::command::{Code, Command, Direction};
use domain::Kind;
use term::{Arguments, Checker, Fault, FileFault, Stage};

// The deepest that a term or a bag may be.
pub const DEPTH: u8 = 16;

// The most modes that a transition may have.
pub const MODES: u32 = 65536;

// A command and what follows it.
type Parsed<'f> = Result<(Command<'f>, &'f [u8]), FileFault>;

// Some bytes and what follows them.
type Halves<'f> = Result<(&'f [u8], &'f [u8]), FileFault>;

// A fault at a byte of a command.
pub fn refused(fault: Fault, place: usize) -> FileFault
    ensures { result ≡ in_command fault place }
{
    FileFault {
        fault,
        place,
        stage: Stage::Command,
    }
}

// The size of a sort, 0 where it is not declared.
pub fn size(sizes: &[u8], sort: u8) -> u8
    ensures { result ≡ size_of sizes.now sort }
{
    sizes.get(sort as usize).copied().unwrap_or(0)
}

// The size of a place's sort, 0 where there is no such place.
pub fn place_size(sizes: &[u8], places: &[u8], place: u8) -> u8
    ensures { result ≡ place_size sizes.now places.now place }
{
    places
        .get(place as usize)
        .map_or(0, |sort| size(sizes, *sort))
}

// Whether a sort byte fits: a declared sort where it is used, else 0.
fn fits(sizes: &[u8], used: bool, sort: u8) -> bool
    ensures { result ≡ fitting sizes.now used sort }
{
    if used {
        (sort as usize) < sizes.len()
    } else {
        sort == 0
    }
}

// The first byte that is not below `size`.
fn first_bad(bytes: &[u8], size: u8) -> Option<usize>
    ensures value { result ≡ first_bad size bytes.now }
    ensures within { IfSome result (λ i. i < length bytes.now) }
{
    bytes.iter().position(|b| *b >= size)
}

// The sorts of the arguments of an operation that has so many.
fn arguments(arity: u8, first: u8, second: u8) -> Arguments
    ensures { result ≡ arguments_of arity first second }
{
    match arity {
        0 => Arguments::None,
        1 => Arguments::One(first),
        2 => Arguments::Two(first, second),
        _ => Arguments::More(first, second),
    }
}

// How many combinations of arguments an operation has; of more than two, the first two count.
fn rows(sizes: &[u8], arguments: Arguments) -> usize
    ensures { result ≡ combinations sizes.now arguments }
{
    match arguments {
        Arguments::None => 1,
        Arguments::One(a) => size(sizes, a) as usize,
        Arguments::Two(a, b) | Arguments::More(a, b) => {
            size(sizes, a) as usize * size(sizes, b) as usize
        }
    }
}

// How many elements each of four variables has, of which the first have the given sorts; 1 for an unused one.
pub fn variable_sizes(sizes: &[u8], sorts: &[u8]) -> [u8; 4]
    ensures { result ≡ variable_sizes sizes.now (length sorts.now) sorts.now }
{
    let size_at = |v: usize| sorts.get(v).map_or(1, |sort| size(sizes, *sort));
    [size_at(0), size_at(1), size_at(2), size_at(3)]
}

// How many modes there are.
pub fn modes(sizes: [u8; 4]) -> u32
    ensures { result ≡ mode_count sizes }
{
    let [a, b, c, d] = sizes;
    (u32::from(a) * u32::from(b)) * (u32::from(c) * u32::from(d))
}

// What stands in `bytes` before `rest`, which is its end.
fn before<'f>(bytes: &'f [u8], rest: &[u8]) -> &'f [u8]
    ensures { result.now ≡ front_of bytes.now rest.now }
{
    let n = bytes.len().saturating_sub(rest.len());
    &bytes[0..n]
}

// What the operands of a command are read by: what terms and bags are checked against, the sorts of the places, and
// the kind of the newest claim. What is left of the file begins at the file's length less its own.
#[derive(Clone, Copy)]
pub struct Context<'a> {
    pub checker: Checker<'a>,
    pub places: &'a [u8],
    pub kind: Kind,
}

impl<'a> Context<'a> {
    // A fault at the byte `k` of what is left.
    fn bad(&self, fault: Fault, bytes: &[u8], k: usize) -> FileFault
        requires { k ≤ length bytes.now }
        ensures { result ≡ in_command fault (spot bytes.now self.now.checker.ends k) }
    {
        refused(fault, self.checker.ends.saturating_sub(bytes.len()) + k)
    }

    // An operand at the byte `k` that is out of its range.
    fn out_of_range<'f>(&self, bytes: &[u8], k: usize) -> Parsed<'f>
        requires { k ≤ length bytes.now }
        ensures { seen result ≡ fault (in_command Fault.Range (spot bytes.now self.now.checker.ends k)) }
    {
        Err(self.bad(Fault::Range, bytes, k))
    }

    // Whether there is no place of this number yet.
    fn lacks_place(&self, place: u8) -> bool
        ensures { result ≡ nat_le (length self.now.places.now) place }
    {
        self.places.len() <= place as usize
    }

    // The file ends within a command.
    fn cut(&self) -> FileFault
        ensures { result ≡ in_command Fault.Ends self.now.checker.ends }
    {
        refused(Fault::Ends, self.checker.ends)
    }

    // size, 1 to 64
    fn sort<'f>(&self, bytes: &'f [u8]) -> Parsed<'f>
        ensures { Reads self.now bytes.now result (sort_at bytes.now self.now.checker.ends) }
    {
        match bytes {
            [_, size, ..] if !(1..=64).contains(size) => self.out_of_range(bytes, 1),
            [_, size, rest @ ..] => Ok((Command::Sort { size: *size }, rest)),
            _ => Err(self.cut()),
        }
    }

    // The next `count` bytes, and what follows them.
    fn counts<'f>(&self, bytes: &'f [u8], count: usize) -> Halves<'f>
        ensures value { parts_of result ≡ counts_at bytes.now self.now.checker.ends count }
        ensures within { IfOk result (λ x. length x.1.now ≤ length bytes.now) }
    {
        bytes.split_at_checked(count).ok_or(self.cut())
    }

    // The next `count` bytes, each below `size`, and what follows them.
    fn table<'f>(&self, bytes: &'f [u8], count: usize, size: u8) -> Halves<'f>
        ensures value { parts_of result ≡ table_at bytes.now self.now.checker.ends count size }
        ensures within { IfOk result (λ x. length x.1.now ≤ length bytes.now) }
    {
        let here = count.min(bytes.len());
        if let Some(i) = first_bad(&bytes[..here], size) {
            return Err(self.bad(Fault::Range, bytes, i));
        }
        self.counts(bytes, count)
    }

    // number of arguments, two argument sorts, result sort, one result for each combination of arguments
    fn operation<'f>(&self, bytes: &'f [u8]) -> Parsed<'f>
        ensures { Reads self.now bytes.now result (operation_at self.now.checker.signature.sizes.now bytes.now self.now.checker.ends) }
    {
        let sizes = self.checker.signature.sizes;
        match bytes {
            [_, arity, ..] if *arity > 2 => self.out_of_range(bytes, 1),
            [_, arity, first, ..] if !fits(sizes, 0 < *arity, *first) => self.out_of_range(
                bytes, 2,
            ),
            [_, arity, _, second, ..] if !fits(sizes, 1 < *arity, *second) => self.out_of_range(
                bytes, 3,
            ),
            [_, _, _, _, result, ..] if *result as usize >= sizes.len() => self.out_of_range(
                bytes, 4,
            ),
            [_, arity, first, second, result, rest @ ..] => {
                let arguments = arguments(*arity, *first, *second);
                let count = rows(sizes, arguments);
                let (table, rest) = self.table(rest, count, size(sizes, *result))?;
                let command = Command::Operation {
                    arguments,
                    result: *result,
                    table,
                };
                Ok((command, rest))
            }
            _ => Err(self.cut()),
        }
    }

    // argument sort, result sort, for each argument one count for each element of the result sort
    fn bag_operation<'f>(&self, bytes: &'f [u8]) -> Parsed<'f>
        ensures { Reads self.now bytes.now result (bag_operation_at self.now.checker.signature.sizes.now bytes.now self.now.checker.ends) }
    {
        let sizes = self.checker.signature.sizes;
        match bytes {
            [_, argument, ..] if *argument as usize >= sizes.len() => self.out_of_range(bytes, 1),
            [_, _, result, ..] if *result as usize >= sizes.len() => self.out_of_range(bytes, 2),
            [_, argument, result, rest @ ..] => {
                let count = size(sizes, *argument) as usize * size(sizes, *result) as usize;
                let (table, rest) = self.counts(rest, count)?;
                let command = Command::BagOperation {
                    argument: *argument,
                    result: *result,
                    table,
                };
                Ok((command, rest))
            }
            _ => Err(self.cut()),
        }
    }

    // sort
    fn place<'f>(&self, bytes: &'f [u8]) -> Parsed<'f>
        ensures { Reads self.now bytes.now result (place_at self.now.checker.signature.sizes.now bytes.now self.now.checker.ends) }
    {
        match bytes {
            [_, sort, ..] if *sort as usize >= self.checker.signature.sizes.len() =>
                self.out_of_range(bytes, 1),
            [_, sort, rest @ ..] => Ok((Command::Place { sort: *sort }, rest)),
            _ => Err(self.cut()),
        }
    }

    // place, element, two-byte count
    fn tokens<'f>(&self, bytes: &'f [u8]) -> Parsed<'f>
        ensures { Reads self.now bytes.now result (tokens_at self.now.checker.signature.sizes.now self.now.places.now bytes.now self.now.checker.ends) }
    {
        match bytes {
            [_, place, ..] if self.lacks_place(*place) => self.out_of_range(bytes, 1),
            [_, place, element, ..] if *element >= self.place_size(*place) => self.out_of_range(
                bytes, 2,
            ),
            [_, place, element, high, low, rest @ ..] => {
                let command = Command::Tokens {
                    place: *place,
                    element: *element,
                    count: u16::from_be_bytes([*high, *low]),
                };
                Ok((command, rest))
            }
            _ => Err(self.cut()),
        }
    }

    // number of variables, four sorts; the modes are counted at the last sort byte
    fn transition<'f>(&self, bytes: &'f [u8]) -> Parsed<'f>
        ensures { Reads self.now bytes.now result (transition_at self.now.checker.signature.sizes.now bytes.now self.now.checker.ends) }
    {
        let sizes = self.checker.signature.sizes;
        match bytes {
            [_, count, ..] if *count > 4 => self.out_of_range(bytes, 1),
            [_, count, a, ..] if !fits(sizes, 0 < *count, *a) => self.out_of_range(bytes, 2),
            [_, count, _, b, ..] if !fits(sizes, 1 < *count, *b) => self.out_of_range(bytes, 3),
            [_, count, _, _, c, ..] if !fits(sizes, 2 < *count, *c) => self.out_of_range(bytes, 4),
            [_, count, _, _, _, d, ..] if !fits(sizes, 3 < *count, *d) => self.out_of_range(
                bytes, 5,
            ),
            [_, count, _, _, _, _, rest @ ..] => {
                let sorts = &bytes[2..2 + *count as usize];
                if modes(variable_sizes(sizes, sorts)) > MODES {
                    return Err(self.bad(Fault::Modes, bytes, 5));
                }
                Ok((Command::Transition { sorts }, rest))
            }
            _ => Err(self.cut()),
        }
    }

    // a term of sort 0
    fn guard<'f>(&self, bytes: &'f [u8]) -> Parsed<'f>
        ensures { Reads self.now bytes.now result (guard_at (of self.now.checker.signature) self.now.checker.variables.now bytes.now self.now.checker.ends) }
    {
        match bytes {
            [_, term @ ..] => {
                let rest = self.checker.term(term, DEPTH, 0)?;
                let command = Command::Guard {
                    term: before(term, rest),
                };
                Ok((command, rest))
            }
            _ => Err(self.cut()),
        }
    }

    // place, a bag over its sort
    fn arc<'f>(&self, direction: Direction, bytes: &'f [u8]) -> Parsed<'f>
        ensures { Reads self.now bytes.now result (arc_at (of self.now.checker.signature) self.now.places.now direction self.now.checker.variables.now bytes.now self.now.checker.ends) }
    {
        match bytes {
            [_, place, ..] if self.lacks_place(*place) => self.out_of_range(bytes, 1),
            [_, place, bag @ ..] => {
                let sort = self.places[*place as usize];
                let rest = self.checker.bag(bag, DEPTH, sort)?;
                let command = Command::Arc {
                    direction,
                    place: *place,
                    bag: before(bag, rest),
                };
                Ok((command, rest))
            }
            _ => Err(self.cut()),
        }
    }

    // kind, 1 to 6, two-byte modulus, which is 0 but for kind 4
    fn claim<'f>(&self, bytes: &'f [u8]) -> Parsed<'f>
        ensures { Reads self.now bytes.now result (claim_at bytes.now self.now.checker.ends) }
    {
        match bytes {
            [_, kind, ..] if *kind < 1 || *kind > 6 => self.out_of_range(bytes, 1),
            [_, kind, high, low, rest @ ..] => {
                let modulus = u16::from_be_bytes([*high, *low]);
                let Some(kind) = Kind::from_number(*kind, modulus) else {
                    return Err(self.bad(Fault::Range, bytes, 3));
                };
                Ok((Command::Claim { kind }, rest))
            }
            _ => Err(self.cut()),
        }
    }

    // place, four-byte signed code
    fn place_weight<'f>(&self, bytes: &'f [u8]) -> Parsed<'f>
        ensures { Reads self.now bytes.now result (place_weight_at self.now.places.now self.now.kind bytes.now self.now.checker.ends) }
    {
        match bytes {
            [_, place, ..] if self.lacks_place(*place) => self.out_of_range(bytes, 1),
            [_, place, a, b, c, d, rest @ ..] => {
                let code = i32::from_be_bytes([*a, *b, *c, *d]);
                if !self.kind.is_weight(code) {
                    return self.out_of_range(bytes, 5);
                }
                let command = Command::PlaceWeight {
                    place: *place,
                    code,
                };
                Ok((command, rest))
            }
            _ => Err(self.cut()),
        }
    }

    // place, element, four-byte signed code
    fn element_weight<'f>(&self, bytes: &'f [u8]) -> Parsed<'f>
        ensures { Reads self.now bytes.now result (element_weight_at self.now.checker.signature.sizes.now self.now.places.now self.now.kind bytes.now self.now.checker.ends) }
    {
        match bytes {
            [_, place, ..] if self.lacks_place(*place) => self.out_of_range(bytes, 1),
            [_, place, element, ..] if *element >= self.place_size(*place) => self.out_of_range(
                bytes, 2,
            ),
            [_, place, element, a, b, c, d, rest @ ..] => {
                let code = i32::from_be_bytes([*a, *b, *c, *d]);
                if !self.kind.is_weight(code) {
                    return self.out_of_range(bytes, 6);
                }
                let command = Command::ElementWeight {
                    place: *place,
                    element: *element,
                    code,
                };
                Ok((command, rest))
            }
            _ => Err(self.cut()),
        }
    }

    // nothing, and nothing may follow
    fn end<'f>(&self, bytes: &'f [u8]) -> Parsed<'f>
        ensures { Reads self.now bytes.now result (end_at bytes.now self.now.checker.ends) }
    {
        match bytes {
            [_, _, ..] => Err(FileFault {
                stage: Stage::File,
                ..self.bad(Fault::Trailing, bytes, 1)
            }),
            [_, rest @ ..] => Ok((Command::End, rest)),
            _ => Err(self.cut()),
        }
    }

    // The size of a place's sort, 0 where there is no such place.
    fn place_size(&self, place: u8) -> u8
        ensures { result ≡ place_size self.now.checker.signature.sizes.now self.now.places.now place }
    {
        place_size(self.checker.signature.sizes, self.places, place)
    }

    // The command of the given code at the front of `bytes`, with its operands, and what follows it.
    pub fn parse<'f>(&self, code: Code, bytes: &'f [u8]) -> Parsed<'f>
        ensures { Reads self.now bytes.now result (parse_at (setting_of self.now) code bytes.now) }
    {
        match code {
            Code::Sort => self.sort(bytes),
            Code::Operation => self.operation(bytes),
            Code::BagOperation => self.bag_operation(bytes),
            Code::Place => self.place(bytes),
            Code::Tokens => self.tokens(bytes),
            Code::Transition => self.transition(bytes),
            Code::Guard => self.guard(bytes),
            Code::InArc => self.arc(Direction::In, bytes),
            Code::OutArc => self.arc(Direction::Out, bytes),
            Code::Claim => self.claim(bytes),
            Code::PlaceWeight => self.place_weight(bytes),
            Code::ElementWeight => self.element_weight(bytes),
            Code::End => self.end(bytes),
        }
    }
}
