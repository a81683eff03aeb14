// How far the walks of check and write have come.

// The bytes read or written so far, and the plays left.
#[derive(Clone, Copy)]
pub struct State {
    pub at: usize,
    pub left: u32,
}
