use net::Firing;

// How a claim breaks: the first firing whose values before and after are not related, with both values.
#[derive(PartialEq, Eq, Debug, Drop)]
pub struct Breach<V> {
    pub firing: Firing,
    pub before: V,
    pub after: V,
}

// What a judge answers under a domain: how many modes have a true guard, all of them related, or the breach.
pub type Verdict<V> = Result<u32, Breach<V>>;

// The same by kind, without the values.
pub type Outcome = Result<u32, Firing>;
