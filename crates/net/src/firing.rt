// A transition and the mode that it fires in.
#[derive(Clone, Copy, PartialEq, Eq, Debug)]
pub struct Firing {
    pub transition: usize,
    pub mode: [u8; 4],
}
