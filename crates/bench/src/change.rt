use net::CELLS;

mod methods;

// What a firing takes from each cell, and what it puts there: two lists, since a net counts one side at a time.
#[derive(Drop)]
pub struct Change {
    pub takes: [u32; CELLS],
    pub puts: [u32; CELLS],
}
