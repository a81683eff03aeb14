// How fast plays are: walks the game tree of a position depth first, playing and taking back every move, up to a number of
// plays, and prints how many it made. The number is the last argument that is one, or 200000.
#![tactic(auto)]

use atari_go::atari::AtariGo;
use game::interface::Game;
use std::{env, io};
use texts::number;

// Walks d moves deep below the present line with this many plays left, and tells how many are left then.
fn walk<G: Game>(game: &mut G, d: u32, plays: u64) -> u64 {
    let mut left = plays;
    if d == 0 {
        return left;
    }
    for k in 0..game.moves() {
        if left > 0 && game.play(k).is_ok() {
            left = walk(game, d - 1, left - 1);
            let _ = game.take_back();
        }
    }
    left
}

// The plays of a walk from the position of a text; 0 where it is refused.
fn plays(text: &[u8], limit: u64) -> u64 {
    AtariGo::read(text).map_or(0, |mut game| {
        limit.saturating_sub(walk(&mut game, 49, limit))
    })
}

// The last number among the arguments, or 200000 where none is a number.
fn read_limit(rt: &HostRuntime) -> io::Result<u64> {
    Ok(
        env::args(rt)?
            .skip(1)
            .filter_map(|word| number(&word))
            .last()
            .unwrap_or(200_000),
    )
}

// Walks, and prints the number of plays made.
fn main(rt: HostRuntime) -> anyhow::Result<()> {
    let made = plays(b"G4:B:.....BW..WB.....", read_limit(&rt)?);
    println!(rt; "{made}")?;
    Ok(())
}
