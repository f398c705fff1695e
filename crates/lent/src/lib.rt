// A list that grows in memory which its maker lends it.
#![tactic(auto)]

mod list;

pub use list::{Full, LentList};

#[cfg(test)]
mod tests {
    use super::*;

    #[test]
    fn holds_what_was_pushed(rt: HostRuntime) {
        let mut memory = [0u8; 2];
        let mut list = LentList::new(&mut memory);
        assert!(rt; list.len() == 0);
        assert!(rt; list.capacity() == 2);
        assert!(rt; list.push(7).is_ok());
        assert!(rt; list.push(8).is_ok());
        assert!(rt; list.push(9).is_err());
        assert!(rt; list.get(1) == Some(8));
        assert_eq!(rt; list.as_slice(), [7, 8].as_slice());
        assert!(rt; list.get(2).is_none());
        assert!(rt; list.pop() == Some(8));
        assert!(rt; list.len() == 1);
        list.clear();
        assert!(rt; list.pop().is_none());
    }
}
