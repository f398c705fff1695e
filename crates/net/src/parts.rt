ghost use Rattle.std.specs.Prelude.{◌≡◌, slice_index};

use crate::net::CELLS;
use domain::Kind;
use extent::Extent;
use term::{BagOperation, Operation};
use transitions::Transitions;

mod ask;
mod build;
mod extent;
mod transitions;

// An arc: its place, and which of the bytes of all transitions are its bag.
#[derive(Clone, Copy)]
pub struct Arc {
    pub(crate) place: u8,
    pub(crate) bag: Extent,
}

// A transition: which of the bytes of all transitions are the sorts of its variables and its guard, how many elements each
// of four variables has (1 for an unused one), and which of all arcs take its tokens and put them.
#[derive(Clone, Copy)]
pub struct Transition {
    pub(crate) sorts: Extent,
    pub(crate) sizes: [u8; 4],
    pub(crate) guard: Option<Extent>,
    pub(crate) takes: Extent,
    pub(crate) puts: Extent,
}

// A claim: its kind, and a code for each cell.
#[derive(Drop)]
pub struct Claim {
    pub(crate) kind: Kind,
    pub(crate) codes: [i32; CELLS],
}

// What a net is made of; the tables are those of all operations and bag operations, one after the other. Sort 0 is always
// there and has two elements.
#[derive(Drop)]
pub struct Parts {
    pub(crate) sizes: Vec<u8>,
    pub(crate) operations: Vec<Operation>,
    pub(crate) bags: Vec<BagOperation>,
    pub(crate) tables: Vec<u8>,
    pub(crate) places: Vec<u8>,
    pub(crate) initial: [u16; CELLS],
    pub(crate) transitions: Transitions,
    pub(crate) claims: Vec<Claim>,
    ghost first: { slice_index sizes.items 0 ≡ 2 },
}
