// Atari Go on examples, worked out by hand: texts that are refused, captures, ends, and calls that are refused.
#![tactic(auto)]

#[cfg(test)]
mod tests {
    use atari_go::atari::AtariGo;
    use game::interface::{Bounded, Game};
    use game::kinds::Score;
    use game::refusal::{PositionRefusal, Refusal};
    use std::test::Fail;

    // The number and the place of the refusal of a text that is out of form at this byte.
    fn out_of_form(place: usize) -> Option<(u8, usize)> {
        Some((14, place))
    }

    // The same of a text where the group at this point has no liberty.
    fn not_allowed(place: usize) -> Option<(u8, usize)> {
        Some((15, place))
    }

    fn refusal(text: &[u8]) -> Option<(u8, usize)> {
        AtariGo::read(text)
            .err()
            .map(|refusal| (refusal.number(), refusal.place()))
    }

    // The number of moves and the height of a position.
    fn counts(text: &[u8]) -> Result<(u32, u32), PositionRefusal> {
        AtariGo::read(text).map(|game| (game.moves(), game.height()))
    }

    // What came of a move: the words a and b and the points of the score after it, or the number of its refusal.
    type After = Result<(u64, u64, Option<u8>), u8>;

    // What came of a move of a position.
    fn after(text: &[u8], k: u32) -> Result<After, PositionRefusal> {
        let mut game = AtariGo::read(text)?;
        Ok(
            game.play(k)
                .map(|()| (game.a(), game.b(), game.score().map(Score::points)))
                .map_err(Refusal::number),
        )
    }

    #[test]
    fn texts_out_of_form(rt: HostRuntime) {
        assert_eq!(rt; refusal(b""), out_of_form(0));
        assert_eq!(rt; refusal(b"g3:B:........."), out_of_form(0));
        assert_eq!(rt; refusal(b"G2:B:...."), out_of_form(1));
        assert_eq!(rt; refusal(b"G8:B:"), out_of_form(1));
        assert_eq!(rt; refusal(b"G3;B:........."), out_of_form(2));
        assert_eq!(rt; refusal(b"G3:b:........."), out_of_form(3));
        assert_eq!(rt; refusal(b"G3:B;........."), out_of_form(4));
        assert_eq!(rt; refusal(b"G3:B:....w...."), out_of_form(9));
        assert_eq!(rt; refusal(b"G3:B:........"), out_of_form(13));
        assert_eq!(rt; refusal(b"G3:B:.........."), out_of_form(14));
        assert_eq!(rt; refusal(b"G3:B:.........\r"), out_of_form(14));
        assert_eq!(rt; refusal(b"G3"), out_of_form(2));
    }

    #[test]
    fn groups_without_liberty(rt: HostRuntime) {
        assert_eq!(rt; refusal(b"G3:B:.BWBW...."), None);
        assert_eq!(rt; refusal(b"G3:B:.BW.BW.BB"), not_allowed(2));
        assert_eq!(rt; refusal(b"G3:B:BWBW.WBWB"), not_allowed(0));
        assert_eq!(rt; refusal(b"G3:B:WB.B....."), not_allowed(0));
    }

    #[test]
    fn sizes(rt: HostRuntime) {
        assert_eq!(rt; counts(b"G3:B:........."), Ok((9, 9)));
        assert_eq!(rt; counts(b"G4:W:................"), Ok((16, 16)));
        assert_eq!(rt; counts(b"G5:B:........................."), Ok((25, 25)));
        assert_eq!(rt;
            counts(b"G6:W:...................................."),
            Ok((36, 36))
        );
        assert_eq!(rt;
            counts(b"G7:B:................................................."),
            Ok((49, 49))
        );
        assert_eq!(rt; counts(b"G3:B:WB......."), Ok((7, 7)));
    }

    // In the corner, on the edge, two groups by their shared liberty, and no capture.
    #[test]
    fn captures(rt: HostRuntime) -> Result<(), Fail> {
        assert_eq!(rt;
            after(b"G3:B:WB.......", 1)?,
            Ok((10, 1 + (1 << 49), Some(2)))
        );
        assert_eq!(rt; after(b"G3:B:WB.......", 0)?, Ok((6, 1 + (1 << 49), None)));
        assert_eq!(rt; after(b"G3:W:WBW......", 1)?, Ok((2, 21, Some(0))));
        assert_eq!(rt; after(b"G3:W:B.BWBW...", 0)?, Ok((21, 42, Some(0))));
        Ok(())
    }

    // Black fills every point but the corner, where it would have no liberty: it has no move, and has lost.
    #[test]
    fn no_move(rt: HostRuntime) {
        assert_eq!(rt; counts(b"G3:W:.BBBBBBBB"), Ok((1, 1)));
        assert_eq!(rt; counts(b"G3:B:.BBBBBBBB"), Ok((0, 1)));
    }

    #[test]
    fn refused_calls(rt: HostRuntime) -> Result<(), Fail> {
        assert_eq!(rt; after(b"G3:B:WB.......", 7)?, Err(1));
        assert_eq!(rt; after(b"G3:B:WB.......", 4294967295)?, Err(1));
        assert_eq!(rt; after(b"G3:B:.BBBBBBBB", 0)?, Err(2));
        let mut game = AtariGo::read(b"G3:B:WB.......")?;
        assert_eq!(rt; game.take_back().map_err(Refusal::number), Err(4));
        assert_eq!(rt; game.play(1), Ok(()));
        assert_eq!(rt; game.play(0).map_err(Refusal::number), Err(2));
        assert_eq!(rt; game.level(), 6);
        assert_eq!(rt; game.earlier(0).a, 2);
        assert_eq!(rt; game.take_back(), Ok(()));
        assert_eq!(rt; game.a(), 2);
        assert_eq!(rt; game.played(), 0);
        Ok(())
    }
}
