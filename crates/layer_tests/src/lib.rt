// Tests of the rule layers and of the game graph, on small graphs whose answers are worked out by hand.
#![tactic(auto)]

#[cfg(test)]
mod tests {
    use game::interface::{Bounded, Game, Layer};
    use game::kinds::Score;
    use game::refusal::{PositionRefusal, Refusal};
    use graph::graph::Graph;
    use graph_rules::node::Node;
    use layers::limit::Limit;
    use layers::repeat::Repeat;
    use std::test::Fail;

    // The search tests have these nodes too: each crate of tests states its own graph, so that it is read alone.

    // A node that goes on; targets that are not counted are 0.
    fn going(turn: u8, count: u8, first: u8, second: u8) -> Node {
        Node {
            turn,
            score: 255,
            count,
            targets: [first, second, 0, 0],
        }
    }

    fn end(score: u8) -> Node {
        Node {
            turn: 0,
            score,
            count: 0,
            targets: [0; 4],
        }
    }

    // 0 White to 1, 2; 1 Black to 3, 4; 2 White to 3; 3 White to 1; 4 is won by Black.
    fn fork() -> Result<Graph, PositionRefusal> {
        Graph::new(&[
            going(1, 2, 1, 2),
            going(0, 2, 3, 4),
            going(1, 1, 3, 0),
            going(1, 1, 1, 0),
            end(2),
        ])
    }

    // One node that leads to itself.
    fn endless() -> Result<Graph, PositionRefusal> {
        Graph::new(&[going(0, 1, 0, 0)])
    }

    // Plays the moves until one is refused, and tells whether all of them were accepted.
    fn walk<G: Game>(game: &mut G, moves: &[u32]) -> bool {
        moves.iter().all(|k| game.play(*k).is_ok())
    }

    // What is told of the present line: its length, the moves, and the points of the score where it is over.
    fn told<G: Game>(game: &G) -> (u32, u32, Option<u8>) {
        (game.played(), game.moves(), game.score().map(Score::points))
    }

    #[test]
    fn limit_over_repeat(rt: HostRuntime) -> Result<(), Fail> {
        let mut game = Limit::over(Repeat::over(fork()?, ()), 10);
        assert_eq!(rt; game.height(), 10);
        assert!(rt; walk(&mut game, &[0, 0]));
        assert_eq!(rt; told(&game), (2, 1, None));
        assert!(rt; walk(&mut game, &[0]));
        assert_eq!(rt; told(&game), (3, 0, Some(1)));
        assert_eq!(rt; game.play(0).map_err(Refusal::number), Err(2));
        Ok(())
    }

    #[test]
    fn another_way_to_the_same_node(rt: HostRuntime) -> Result<(), Fail> {
        let mut game = Limit::over(Repeat::over(fork()?, ()), 10);
        assert!(rt; walk(&mut game, &[1, 0, 0]));
        assert_eq!(rt; told(&game), (3, 2, None));
        assert!(rt; walk(&mut game, &[1]));
        assert_eq!(rt; told(&game), (4, 0, Some(2)));
        Ok(())
    }

    #[test]
    fn repeat_over_limit(rt: HostRuntime) -> Result<(), Fail> {
        let mut game = Repeat::over(Limit::over(fork()?, 2), ());
        assert_eq!(rt; game.height(), 2);
        assert!(rt; walk(&mut game, &[1, 0]));
        assert_eq!(rt; told(&game), (2, 0, Some(1)));
        assert_eq!(rt; game.play(0).map_err(Refusal::number), Err(2));
        Ok(())
    }

    // At the empty line the contexts are 3 under the lower limit and 256 * 3 + 5 on top. After a move the level has been
    // there before, so only the lower limit's 2 is left, and the line is not path-independent.
    #[test]
    fn three_deep(rt: HostRuntime) -> Result<(), Fail> {
        let mut game = Limit::over(Repeat::over(Limit::over(fork()?, 3), ()), 5);
        assert_eq!(rt; game.height(), 5);
        assert_eq!(rt; (game.independent(), game.context()), (true, 773));
        assert!(rt; walk(&mut game, &[1]));
        assert_eq!(rt; (game.independent(), game.context()), (false, 2));
        assert!(rt; walk(&mut game, &[0, 0]));
        assert_eq!(rt; told(&game), (3, 0, Some(1)));
        Ok(())
    }

    // The height of one node that leads to itself under this limit, and what is told of its empty line.
    fn limited(limit: u32) -> Result<(u32, u32, Option<u8>), PositionRefusal> {
        let game = Limit::over(endless()?, limit);
        let (_, moves, points) = told(&game);
        Ok((game.height(), moves, points))
    }

    #[test]
    fn limits_are_cut_down(rt: HostRuntime) -> Result<(), Fail> {
        assert_eq!(rt; limited(0)?, (0, 0, Some(1)));
        assert_eq!(rt; limited(1)?, (1, 1, None));
        assert_eq!(rt; limited(96)?, (96, 1, None));
        assert_eq!(rt; limited(97)?, (96, 1, None));
        assert_eq!(rt; limited(4_294_967_295)?, (96, 1, None));
        Ok(())
    }

    #[test]
    fn what_is_over_below_keeps_its_score(rt: HostRuntime) -> Result<(), Fail> {
        let mut game = Limit::over(Graph::new(&[end(0)])?, 0);
        assert_eq!(rt; told(&game), (0, 0, Some(0)));
        assert_eq!(rt; game.play(0).map_err(Refusal::number), Err(2));
        Ok(())
    }

    // How many of 200 plays of move 0 are accepted, and what comes of the next, a refusal by its number.
    fn run_on<G: Game>(game: &mut G) -> (u32, Result<(), u8>) {
        for _ in 0..200 {
            let _ = game.play(0);
        }
        (game.played(), game.play(0).map_err(Refusal::number))
    }

    #[test]
    fn a_line_of_96_moves(rt: HostRuntime) -> Result<(), Fail> {
        assert_eq!(rt; run_on(&mut endless()?), (96, Err(3)));
        assert_eq!(rt; run_on(&mut Limit::over(endless()?, 97)), (96, Err(2)));
        assert_eq!(rt; run_on(&mut Limit::over(endless()?, 95)), (95, Err(2)));
        assert_eq!(rt; run_on(&mut Repeat::over(endless()?, ())), (1, Err(2)));
        Ok(())
    }

    #[test]
    fn made_at_the_empty_line(rt: HostRuntime) -> Result<(), Fail> {
        let mut below = fork()?;
        assert!(rt; walk(&mut below, &[1, 0]));
        assert_eq!(rt; below.earlier(1).a, 2);
        assert_eq!(rt; below.earlier(9).a, 3);
        let mut game = Repeat::over(below, ());
        assert_eq!(rt; (game.played(), game.a()), (0, 0));
        assert!(rt; game.take_back().is_err());
        Ok(())
    }

    // The number and the place of the refusal of nodes that are not allowed, which shows at this place.
    fn not_allowed(place: usize) -> Option<(u8, usize)> {
        Some((15, place))
    }

    // The same of these nodes.
    fn refused(nodes: &[Node]) -> Option<(u8, usize)> {
        Graph::new(nodes)
            .err()
            .map(|refusal| (refusal.number(), refusal.place()))
    }

    // The same of 64 nodes of which one, at this place, is another.
    fn refused_with(place: usize, node: Node) -> Option<(u8, usize)> {
        let mut nodes = [going(1, 1, 63, 200); 64];
        if let Some(at) = nodes.get_mut(place) {
            *at = node;
        }
        refused(&nodes)
    }

    #[test]
    fn numbers_of_nodes(rt: HostRuntime) {
        assert_eq!(rt; refused(&[]), not_allowed(0));
        assert_eq!(rt; refused(&[going(0, 1, 0, 0); 65]), not_allowed(64));
        assert_eq!(rt; refused(&[going(2, 1, 0, 0); 65]), not_allowed(64));
        assert_eq!(rt; refused_with(64, end(0)), None);
    }

    #[test]
    fn a_bad_first_node(rt: HostRuntime) {
        assert_eq!(rt; refused_with(0, going(2, 1, 0, 0)), not_allowed(0));
        assert_eq!(rt; refused_with(0, going(0, 0, 0, 0)), not_allowed(0));
        assert_eq!(rt; refused_with(0, going(0, 5, 0, 0)), not_allowed(0));
        assert_eq!(rt; refused_with(0, going(0, 1, 64, 0)), not_allowed(0));
        assert_eq!(rt; refused_with(0, end(3)), not_allowed(0));
    }

    #[test]
    fn a_bad_last_node(rt: HostRuntime) {
        assert_eq!(rt; refused_with(63, going(2, 1, 0, 0)), not_allowed(63));
        assert_eq!(rt; refused_with(63, going(0, 0, 0, 0)), not_allowed(63));
        assert_eq!(rt; refused_with(63, going(0, 5, 0, 0)), not_allowed(63));
        assert_eq!(rt; refused_with(63, going(0, 2, 63, 64)), not_allowed(63));
        assert_eq!(rt; refused_with(63, end(254)), not_allowed(63));
    }

    #[test]
    fn an_end_has_no_targets(rt: HostRuntime) {
        let node = Node {
            score: 2,
            ..going(0, 1, 0, 0)
        };
        assert_eq!(rt; refused_with(0, node), not_allowed(0));
        assert_eq!(rt; refused_with(63, node), not_allowed(63));
        assert_eq!(rt; refused_with(63, end(2)), None);
    }

    // Eight limits, the lowest of 1 and the others of 0: at the empty line the context word is 1 shifted by seven bytes.
    #[test]
    fn a_context_of_57_bits_is_not_shifted(rt: HostRuntime) -> Result<(), Fail> {
        let two = Limit::over(Limit::over(endless()?, 1), 0);
        let four = Limit::over(Limit::over(two, 0), 0);
        let six = Limit::over(Limit::over(four, 0), 0);
        let eight = Limit::over(Limit::over(six, 0), 0);
        assert_eq!(rt;
            (eight.independent(), eight.context()),
            (true, 72_057_594_037_927_936)
        );
        let nine = Limit::over(eight, 7);
        assert_eq!(rt;
            (nine.independent(), nine.context()),
            (false, 72_057_594_037_927_936)
        );
        Ok(())
    }

    // The lowest of 0 and the others of 96 give the greatest context word below that, seven bytes of 0x60.
    #[test]
    fn a_context_of_56_bits_is_shifted(rt: HostRuntime) -> Result<(), Fail> {
        let two = Limit::over(Limit::over(endless()?, 0), 96);
        let four = Limit::over(Limit::over(two, 96), 96);
        let six = Limit::over(Limit::over(four, 96), 96);
        let eight = Limit::over(Limit::over(six, 96), 96);
        assert_eq!(rt;
            (eight.independent(), eight.context()),
            (true, 0x60606060606060)
        );
        let nine = Limit::over(eight, 7);
        assert_eq!(rt;
            (nine.independent(), nine.context()),
            (true, 0x6060606060606007)
        );
        Ok(())
    }
}
