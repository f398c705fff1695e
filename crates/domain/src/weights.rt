use crate::WeightDomain;

// The weights of the cells of a net: a code for each, as a domain reads them.
#[derive(Drop)]
pub struct Weights<'a, D: WeightDomain> {
    pub domain: &'a D,
    pub codes: &'a [i32],
}
