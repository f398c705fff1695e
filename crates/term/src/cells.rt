ghost use Rattle.std.specs.Prelude.{◌≡◌};
ghost use Rattle.term.specs.Worth.{cell_at};

// The number of the cell of a place and an element: each place has 64 cells.
pub fn cell(place: u8, element: u8) -> usize
    ensures { result ≡ cell_at place element }
{
    64 * place as usize + element as usize
}
