ghost use Rattle.std.specs.Prelude.{◌≡◌, length};
ghost use Rattle.net.specs.declared.net.TheConstants.{CELLS};

mod methods;

pub use methods::measure;

// Lent memory of the stated length: a count for each cell. Who knows the length, as after `measure`, makes it of its one
// field.
#[derive(Drop)]
pub struct Counts<'c> {
    pub cells: &'c mut [u16],
    ghost long: { length cells.now ≡ CELLS },
}
