// The work memory of a search: a record for each line that is being expanded, and a pair for each of its moves.
use search_method::kinds::Pair;
use search_method::memory::WorkMemory;
use store::entry::Key;

// What is kept of a line while it is expanded: its key, whether Black is on turn, whether it is path-independent, and
// the limits under which it is expanded.
#[derive(Clone, Copy, Default)]
pub struct LineRecord {
    pub key: Key,
    pub black: bool,
    pub independent: bool,
    pub limit: Pair,
}

pub type SearchMemory<'a> = WorkMemory<'a, LineRecord, Pair>;
