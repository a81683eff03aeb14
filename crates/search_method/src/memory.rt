// The work memory that a caller lends to the search.
ghost use Rattle.std.specs.Prelude.{◌≡◌, length};
ghost use Rattle.search_method.specs.Refusals.{memory_suffices};

// Line records for a game of 96 moves, and move records for the 64 moves of each line.
pub const LINES: usize = 97;

pub const MOVES: usize = 6_208;

// A record for each line that is being expanded, and one for each of its moves. What they are is the search's own: what
// only has to know whether there are enough is generic in both.
#[derive(Drop)]
pub struct WorkMemory<'a, L, M> {
    pub lines: &'a mut [L],
    pub moves: &'a mut [M],
}

impl<L, M> WorkMemory<'_, L, M> {
    // Whether a game of 96 moves fits.
    pub fn suffices(&self) -> bool
        ensures { result ≡ memory_suffices (length self.now.lines.now) (length self.now.moves.now) }
    {
        self.lines.len() >= LINES && self.moves.len() >= MOVES
    }
}
