// What is asked of transitions.
ghost use Rattle.std.specs.Prelude.{◌≡◌, map, option_map, slice_index_or, MatchOption};
ghost use Rattle.net.specs.Reading.{newest};
ghost use Rattle.net.specs.System.{arc_told, no_transition, towards, transition_told, transitions_told};

use super::Transitions;
use crate::parts::extent::cut;
use crate::parts::{Arc, Transition};
use format::Direction;

impl Transitions {
    // The transition of this number.
    pub(crate) fn get(&self, t: usize) -> Option<&Transition>
        ensures { MatchOption result (slice_index_or (transitions_told self.now) t no_transition ≡ no_transition) (λ x. slice_index_or (transitions_told self.now) t no_transition ≡ transition_told self.now.takes.items self.now.puts.items self.now.bytes.items x.now) }
    {
        self.list.get(t)
    }

    // The sorts of the newest transition's variables.
    pub(crate) fn variables(&self) -> &[u8]
        ensures { result.now ≡ (newest (transitions_told self.now) no_transition).sorts }
    {
        self.list
            .last()
            .map_or(&[], |t| cut(self.bytes.as_slice(), t.sorts))
    }

    // The guard of a transition.
    pub(crate) fn guard(&self, t: usize) -> Option<&[u8]>
        ensures { option_map (λ x. x.now) result ≡ (slice_index_or (transitions_told self.now) t no_transition).guard }
    {
        let term = self.get(t)?.guard?;
        Some(cut(self.bytes.as_slice(), term))
    }

    // The arcs of a transition that go one way.
    pub(crate) fn arcs(&self, t: usize, direction: Direction) -> &[Arc]
        ensures { map (arc_told self.now.bytes.items) result.now ≡ towards direction (slice_index_or (transitions_told self.now) t no_transition).takes (slice_index_or (transitions_told self.now) t no_transition).puts }
    {
        let Some(t) = self.get(t) else {
            return &[];
        };
        match direction {
            Direction::In => cut(self.takes.as_slice(), t.takes),
            Direction::Out => cut(self.puts.as_slice(), t.puts),
        }
    }

    // The bag of an arc.
    pub(crate) fn bag(&self, arc: &Arc) -> &[u8]
        ensures { result.now ≡ (arc_told self.now.bytes.items arc.now).bag }
    {
        cut(self.bytes.as_slice(), arc.bag)
    }
}
