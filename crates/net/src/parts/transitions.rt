ghost use Rattle.net.specs.Extents.{PartsInPlace};

use super::{Arc, Transition};

mod ask;
mod build;

// Transitions one after the other, the arcs by which they take and those by which they put, and the bytes of sorts, guards
// and bags. Each list grows at its end alone, so that a part of it stays what it is; the newest transition's arcs stand last.
#[derive(Drop)]
pub(crate) struct Transitions {
    pub(crate) list: Vec<Transition>,
    pub(crate) takes: Vec<Arc>,
    pub(crate) puts: Vec<Arc>,
    pub(crate) bytes: Vec<u8>,
    ghost in_place: { PartsInPlace list.items takes.items puts.items bytes.items },
}
