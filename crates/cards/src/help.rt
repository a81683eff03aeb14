// What `--help` prints.
pub(crate) const HELP: &str = "cards [--quiet] [--out DIR] [FILE]
Settles a batch of cards, one a line, from FILE or else from standard input.

A card: POSITION [repeat] [limit=N] [floor=N] [slots=N] [tablet=N] [budget=N] [line=K,K,..] [proof=HEX | proof=@FILE]
  POSITION     G, the size 3 to 7, :, the side on turn B or W, :, and a byte . B or W for each point by rows: G3:B:WB.......
  repeat       a repeated position is a draw
  limit=N      a line of N moves is a draw; rules are laid over one another in the order in which they stand
  floor=N      what is asked: 2, does Black win (without the word); 1, does Black at least draw
  slots=N      the size of the table (65536); tablet=N that of the second session's (64)
  budget=N     the most plays for each call (50000000)
  line=K,K,..  moves to play first, by number from 0
  proof=..     a proof that was posted, in hexadecimal digits or in a file: it is only checked
Blank lines and lines that begin with # are passed over.

For each card: card N: at least F yes or no, bytes B, plays P; or card N: refused R, with place, depth and the game's own number;
or card N: not a card, field F. Unless --quiet: the board, what solving answered, the proof, and that it was checked again.
--out DIR writes each accepted proof to DIR/card-N.proof. The last line counts the cards. docs/CARDS.md has more.";
