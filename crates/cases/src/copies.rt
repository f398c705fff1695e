// Types that others may ask to copy.
use net::parts::{Arc, Transition};
use std::test::Fail;
use term::{BagOperation, Operation};

fn can_be_copied<T: Copy>() {}

#[test]
fn what_a_net_is_made_of_can_be_copied(rt: HostRuntime) -> Result<(), Fail> {
    can_be_copied::<Arc>();
    can_be_copied::<Transition>();
    can_be_copied::<Operation>();
    can_be_copied::<BagOperation>();
    Ok(())
}
