ghost use Rattle.std.specs.Prelude.{◌≡◌, ◌+◌, ◌*◌, ◌<◌, drop, length, slice_index, take};
ghost use Rattle.term.specs.Meaning.{of, operation as op_of, bag_operation as bag_of, result as result_of, size};

// The sorts of an operation's arguments.
#[derive(Clone, Copy, PartialEq, Eq, Debug)]
pub enum Arguments {
    None,
    One(u8),
    Two(u8, u8),
    // Three and more, which no file tells but who calls may give: the first two are read alone, and a result stands at the
    // sum of both.
    More(u8, u8),
}

// An operation: the sorts of its arguments and of its result, and where its results begin in the tables, the first argument
// slowest.
#[derive(Clone, Copy, PartialEq, Eq, Debug)]
pub struct Operation {
    pub arguments: Arguments,
    pub result: u8,
    pub table: u32,
}

// A bag operation: where its rows begin in the tables, for each argument a row of counts, one for each element of the
// result sort.
#[derive(Clone, Copy, PartialEq, Eq, Debug)]
pub struct BagOperation {
    pub argument: u8,
    pub result: u8,
    pub table: u32,
}

// Sorts by their sizes, operations and bag operations, with the tables of both.
#[derive(Clone, Copy)]
pub struct Signature<'s> {
    pub sizes: &'s [u8],
    pub operations: &'s [Operation],
    pub bags: &'s [BagOperation],
    pub tables: &'s [u8],
}

// What stands at `i`, 0 past the end.
pub(crate) fn at(bytes: &[u8], i: usize) -> u8
    ensures { result ≡ slice_index bytes.now i }
{
    bytes.get(i).copied().unwrap_or(0)
}

impl<'s> Signature<'s> {
    // The operation `k`, or one without arguments at the front of the tables.
    pub(crate) fn operation(&self, k: u8) -> Operation
        ensures { result ≡ op_of (of self.now) k }
    {
        let operation = self.operations.get(k as usize);
        operation.copied().unwrap_or(Operation {
            arguments: Arguments::None,
            result: 0,
            table: 0,
        })
    }

    // The bag operation `k`, or one of sort 0 at the front of the tables.
    pub(crate) fn bag_operation(&self, k: u8) -> BagOperation
        ensures { result ≡ bag_of (of self.now) k }
    {
        let operation = self.bags.get(k as usize);
        operation.copied().unwrap_or(BagOperation {
            argument: 0,
            result: 0,
            table: 0,
        })
    }

    // What an operation gives at the arguments `a` and `b`.
    pub(crate) fn result(&self, o: Operation, a: u8, b: u8) -> u8
        ensures { result ≡ result_of (of self.now) o a b }
    {
        let width = match o.arguments {
            Arguments::Two(_, second) => at(self.sizes, second as usize),
            Arguments::None | Arguments::One(_) | Arguments::More(_, _) => 1,
        };
        let from = o.table as usize;
        at(
            self.tables,
            from + (a as usize * width as usize + b as usize),
        )
    }

    // What a bag operation gives at `argument`: a count for each element of its result sort, as far as the tables go.
    pub(crate) fn row(&self, o: BagOperation, argument: u8) -> &'s [u8]
        ensures few { length result.now < 256 }
        ensures value { result.now ≡ take (size (of self.now) o.result) (drop (o.table + argument * size (of self.now) o.result) self.now.tables.now) }
    {
        let tables = self.tables;
        let size = at(self.sizes, o.result as usize) as usize;
        let from = (o.table as usize + argument as usize * size).min(tables.len());
        let to = (from + size).min(tables.len());
        &tables[from..to]
    }
}
