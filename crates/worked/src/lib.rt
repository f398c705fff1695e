//! The worked examples on the small net: one table, with one proof.
#![tactic(auto)]

ghost use Rattle.std.specs.Prelude.{◌≡◌, length};
ghost use Rattle.worked.specs.Small.{small};
ghost use Rattle.worked.specs.Table.{WorkedExamples, table};

// The file of the small net: sorts and places, tokens, two transitions, a claim and the end.
pub fn small_net() -> &'static [u8]
    ensures { result.now ≡ small }
{
    b"\x01\x02\x01\x01\x04\x01\x04\x01\x04\x02\
        \x05\x00\x00\x00\x01\x05\x00\x01\x00\x01\x05\x02\x00\x00\x01\
        \x06\x01\x01\x00\x00\x00\x08\x00\x31\x20\x00\x08\x02\x31\x21\x02\x00\x09\x01\x31\x20\x00\
        \x06\x01\x01\x00\x00\x00\x08\x01\x31\x20\x00\x09\x00\x31\x20\x00\x09\x02\x31\x21\x02\x00\
        \x0A\x01\x00\x00\x0B\x01\x00\x00\x00\x01\x0B\x02\x00\x00\x00\x01\x0F"
}

// How many worked examples there are. Each of them holds: what is read, judged, measured and fired is as its row says.
pub fn worked_examples() -> usize
    ensures number { result ≡ length table }
    ensures hold { WorkedExamples }
{
    37
}
