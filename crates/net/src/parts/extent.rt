// Parts of a list that others share.
ghost use Rattle.std.specs.Prelude.{◌≡◌};
ghost use Rattle.net.specs.Extents.{part_of};

// A part of a list: how many stand before it, and how many it has.
#[derive(Clone, Copy)]
pub(crate) struct Extent {
    pub(crate) from: usize,
    pub(crate) len: usize,
}

// What a part of a list has, as far as the list goes.
pub(crate) fn cut<T>(items: &[T], part: Extent) -> &[T]
    ensures { result.now ≡ part_of part items.now }
{
    let from = part.from.min(items.len());
    let len = part.len.min(items.len() - from);
    &items[from..from + len]
}
