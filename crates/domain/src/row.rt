ghost use Rattle.std.specs.Prelude.{◌≡◌, take};
ghost use Rattle.domain.specs.Meaning.{longest_row};

// A row has few entries, so that its sum stays small.
const LONGEST_ROW: usize = 255;

// The counts that a row can have: cut here, since a `take` on the pairs of a row makes its sum slower.
#[tactic(auto, using(std::proofs::lemmas::List::take_min))]
pub(crate) fn counted(counts: &[u8]) -> &[u8]
    ensures { result.now ≡ take longest_row counts.now }
{
    &counts[..LONGEST_ROW.min(counts.len())]
}
