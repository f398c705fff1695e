// Transitions as they are read.
ghost use Rattle.std.specs.Prelude.{◌≡◌, ◌+◌, ◌-◌, ◌^◌, ◌≤◌, [], ◌∷◌, ◌++◌, None, Some, length, min, sum_by, vec_len, IfOk, OnErr, OnOk};
ghost use Rattle.format.specs.Commands.{arc, guard};
ghost use Rattle.net.specs.Extents.{NothingLeft, end_of, part_of};
ghost use Rattle.net.specs.Held.{Fits, HoldsNoMore};
ghost use Rattle.net.specs.Reading.{guarded, linked, renew};
ghost use Rattle.net.specs.System.{arcs_in, no_transition, transitions_told};

use super::Transitions;
use crate::parts::extent::Extent;
use crate::parts::{Arc, Transition};
use format::Direction;
use std::alloc::{AllocError, Global};

impl Transition {
    // How many arcs there are, both directions together. Where their parts are within the lists the bound is far off, but
    // the types do not say so.
    fn arc_count(&self) -> usize
        ensures { result ≡ min (self.now.takes.len + self.now.puts.len) (2 ^ 64 - 1) }
    {
        self.takes.len.saturating_add(self.puts.len)
    }

    fn set_guard(&mut self, term: Extent)
        ensures { self.new ≡ record self.old { guard = Some term } }
    {
        self.guard = Some(term);
    }
}

// Puts an arc behind the others and into the part that ends with them.
fn link(arcs: &mut Vec<Arc>, part: &mut Extent, arc: Arc) -> Result<(), AllocError>
    requires { end_of part.old ≡ vec_len arcs.old }
    ensures ok { OnOk result ((arcs.new.items ≡ arcs.old.items ++ arc ∷ []) × (part.new ≡ record part.old { len = part.old.len + 1 })) }
    ensures err { OnErr result ((arcs.new.items ≡ arcs.old.items) × (part.new ≡ part.old)) }
{
    arcs.push(arc)?;
    part.len += 1;
    Ok(())
}

impl Transitions {
    pub(crate) fn new(heap: Global) -> Transitions
        ensures told { transitions_told result ≡ [] }
        ensures nothing { NothingLeft result.takes.items result.puts.items result.bytes.items }
    {
        Transitions {
            list: Vec::new(heap),
            takes: Vec::new(heap),
            puts: Vec::new(heap),
            bytes: Vec::new(heap),
        }
    }

    pub(crate) fn clear(&mut self)
        ensures told { transitions_told self.new ≡ [] }
        ensures nothing { NothingLeft self.new.takes.items self.new.puts.items self.new.bytes.items }
    {
        self.list.clear();
        self.takes.clear();
        self.puts.clear();
        self.bytes.clear();
    }

    pub(crate) fn len(&self) -> usize
        ensures { result ≡ length (transitions_told self.now) }
    {
        self.list.len()
    }

    // How many arcs there are.
    pub(crate) fn arc_count(&self) -> usize
        ensures { result ≡ min (sum_by arcs_in (transitions_told self.now)) (2 ^ 64 - 1) }
    {
        self.list
            .iter()
            .fold(0, |n: usize, t| n.saturating_add(t.arc_count()))
    }

    // Puts bytes behind the others, and gives where they stand.
    fn keep(&mut self, bytes: &[u8]) -> Result<Extent, AllocError>
        ensures told { transitions_told self.new ≡ transitions_told self.old }
        ensures more { OnOk result (vec_len self.new.bytes ≡ vec_len self.old.bytes + length bytes.now) }
        ensures place { IfOk result (λ e. (e.from ≡ vec_len self.old.bytes) × (e.len ≡ length bytes.now)) }
        ensures bytes { IfOk result (λ e. part_of e self.new.bytes.items ≡ bytes.now) }
        ensures within { IfOk result (λ e. end_of e ≤ length self.new.bytes.items) }
        ensures others { (self.new.list ≡ self.old.list) × (self.new.takes ≡ self.old.takes) × (self.new.puts ≡ self.old.puts) }
    {
        let from = self.bytes.len();
        self.bytes.extend_from_slice(bytes)?;
        Ok(Extent {
            from,
            len: bytes.len(),
        })
    }

    // Adds a transition with variables of these sorts, which have so many elements.
    pub(crate) fn push(&mut self, sorts: &[u8], sizes: [u8; 4]) -> Result<(), AllocError>
        ensures told { OnOk result (transitions_told self.new ≡ transitions_told self.old ++ (record { sorts = sorts.now; sizes = sizes; guard = None; takes = []; puts = [] }) ∷ []) }
        ensures no_more { OnOk result (HoldsNoMore self.old → HoldsNoMore self.new) }
    {
        let sorts = self.keep(sorts)?;
        let takes = Extent {
            from: self.takes.len(),
            len: 0,
        };
        let puts = Extent {
            from: self.puts.len(),
            len: 0,
        };
        self.list.push(Transition {
            sorts,
            sizes,
            guard: None,
            takes,
            puts,
        })?;
        Ok(())
    }

    // Gives the newest transition a guard.
    pub(crate) fn set_guard(&mut self, term: &[u8]) -> Result<(), AllocError>
        ensures told { OnOk result (transitions_told self.new ≡ renew (transitions_told self.old) no_transition (guarded term.now)) }
        ensures no_more { OnOk result (Fits (guard term.now) (transitions_told self.old) → HoldsNoMore self.old → HoldsNoMore self.new) }
    {
        let term = self.keep(term)?;
        if let Some(t) = self.list.last_mut() {
            t.set_guard(term);
        }
        Ok(())
    }

    // Gives the newest transition an arc.
    pub(crate) fn add_arc(
        &mut self,
        direction: Direction,
        place: u8,
        bag: &[u8],
    ) -> Result<(), AllocError>
        ensures told { OnOk result (transitions_told self.new ≡ renew (transitions_told self.old) no_transition (linked direction (record { place = place; bag = bag.now }))) }
        ensures no_more { OnOk result (Fits (arc direction place bag.now) (transitions_told self.old) → HoldsNoMore self.old → HoldsNoMore self.new) }
    {
        let bag = self.keep(bag)?;
        let arc = Arc { place, bag };
        let Some(t) = self.list.last_mut() else {
            return Ok(());
        };
        match direction {
            Direction::In => link(&mut self.takes, &mut t.takes, arc),
            Direction::Out => link(&mut self.puts, &mut t.puts, arc),
        }
    }
}
