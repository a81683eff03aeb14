// One node of a game graph, as it is handed in.

// The side on turn (0 Black, 1 White), the score where the game ends or 255, and the first `count` of the targets. They are
// plain numbers, since any numbers may be handed in, and a node with others than these is refused with 15.
#[derive(Clone, Copy, Default)]
pub struct Node {
    pub turn: u8,
    pub score: u8,
    pub count: u8,
    pub targets: [u8; 4],
}
