// Tests of the search on a small graph: over a store that holds nothing, whose answers are worked out by hand, and over
// tables, whose answers were worked out by a program apart from this one.
#![tactic(auto)]

#[cfg(test)]
mod tests {
    use game::interface::{Game, Layer};
    use game::refusal::PositionRefusal;
    use graph::graph::Graph;
    use graph_rules::node::Node;
    use layers::limit::Limit;
    use layers::repeat::Repeat;
    use search::memory::LineRecord;
    use search::solve::solve;
    use search_method::kinds::{Answer, Pair, SolveRefusal};
    use search_method::memory::WorkMemory;
    use std::test::Fail;
    use store::entry::{Entry, Key};
    use store::interface::Store;
    use store::null::Null;
    use store::table::Table;

    // The layer tests have these nodes too: each crate of tests states its own graph, so that it is read alone.

    // A node that goes on; targets that are not counted are 0.
    fn going(turn: u8, count: u8, first: u8, second: u8) -> Node {
        Node {
            turn,
            score: 255,
            count,
            targets: [first, second, 0, 0],
        }
    }

    fn end(score: u8) -> Node {
        Node {
            turn: 0,
            score,
            count: 0,
            targets: [0; 4],
        }
    }

    // 0 White to 1, 2; 1 Black to 3, 4; 2 White to 3; 3 White to 1; 4 is won by Black.
    fn fork() -> Result<Graph, PositionRefusal> {
        Graph::new(&[
            going(1, 2, 1, 2),
            going(0, 2, 3, 4),
            going(1, 1, 3, 0),
            going(1, 1, 1, 0),
            end(2),
        ])
    }

    // The same under both layers, after these moves.
    fn fork_at(limit: u32, moves: &[u32]) -> Result<Limit<Repeat<Graph>>, PositionRefusal> {
        let mut game = Limit::over(Repeat::over(fork()?, ()), limit);
        for k in moves {
            let _ = game.play(*k);
        }
        Ok(game)
    }

    // What stands in the work memory before a call does not matter.
    fn stale(n: u32) -> LineRecord {
        LineRecord {
            key: Key {
                a: 7,
                b: 7,
                context: 7,
                floor: 7,
            },
            black: true,
            independent: true,
            limit: Pair { pn: n, dn: n },
        }
    }

    type Answered = Result<Answer, SolveRefusal>;

    fn yes(best: u8, count: u32) -> Answered {
        let yes = true;
        Ok(Answer::Solved { yes, best, count })
    }

    fn no(best: u8, count: u32) -> Answered {
        let yes = false;
        Ok(Answer::Solved { yes, best, count })
    }

    fn out_of_budget(count: u32) -> Answered {
        Ok(Answer::OutOfBudget { count })
    }

    // What a search answers with so much work memory.
    fn answered<S: Store>(
        game: &mut Limit<Repeat<Graph>>,
        store: &mut S,
        floor: u32,
        budget: u32,
        lines: usize,
        moves: usize,
    ) -> Answered {
        let mut records = [stale(3); 97];
        let mut pairs = [Pair { pn: 9, dn: 0 }; 6_208];
        let lines = &mut records[0..lines.min(97)];
        let moves = &mut pairs[0..moves.min(6_208)];
        let mut memory = WorkMemory { lines, moves };
        solve(game, store, floor, budget, &mut memory)
    }

    // The answer at a line of the fork over a store that holds nothing.
    fn bare(
        limit: u32,
        moves: &[u32],
        floor: u32,
        budget: u32,
    ) -> Result<Answered, PositionRefusal> {
        Ok(answered(
            &mut fork_at(limit, moves)?,
            &mut Null,
            floor,
            budget,
            97,
            6_208,
        ))
    }

    #[test]
    fn without_a_store(rt: HostRuntime) -> Result<(), Fail> {
        assert_eq!(rt; bare(10, &[], 2, 4_294_967_295)?, yes(255, 12));
        assert_eq!(rt; bare(10, &[], 2, 12)?, yes(255, 12));
        assert_eq!(rt; bare(10, &[], 2, 11)?, out_of_budget(11));
        assert_eq!(rt; bare(10, &[], 2, 0)?, out_of_budget(0));
        assert_eq!(rt; bare(10, &[0, 0], 2, 100)?, no(0, 1));
        assert_eq!(rt; bare(10, &[1, 0], 2, 100)?, yes(255, 4));
        Ok(())
    }

    #[test]
    fn a_line_that_is_over(rt: HostRuntime) -> Result<(), Fail> {
        assert_eq!(rt; bare(0, &[], 1, 0)?, yes(255, 0));
        assert_eq!(rt; bare(0, &[], 2, 0)?, no(255, 0));
        assert_eq!(rt; bare(10, &[0, 1], 2, 0)?, yes(255, 0));
        Ok(())
    }

    // Refused: the floor goes before the memory, and the game stays at its line.
    #[test]
    fn refusals(rt: HostRuntime) -> Result<(), Fail> {
        let mut game = fork_at(10, &[1, 0])?;
        assert_eq!(rt;
            answered(&mut game, &mut Null, 0, 100, 97, 6_208).map_err(SolveRefusal::number),
            Err(5)
        );
        assert_eq!(rt;
            answered(&mut game, &mut Null, 3, 100, 96, 6_208).map_err(SolveRefusal::number),
            Err(5)
        );
        assert_eq!(rt;
            answered(&mut game, &mut Null, 258, 100, 97, 6_208).map_err(SolveRefusal::number),
            Err(5)
        );
        assert_eq!(rt;
            answered(&mut game, &mut Null, 2, 100, 96, 6_208).map_err(SolveRefusal::number),
            Err(6)
        );
        assert_eq!(rt;
            answered(&mut game, &mut Null, 1, 100, 97, 6_207).map_err(SolveRefusal::number),
            Err(6)
        );
        assert_eq!(rt; game.played(), 2);
        assert_eq!(rt;
            answered(&mut game, &mut Null, 2, 100, 97, 6_208),
            yes(255, 4)
        );
        assert_eq!(rt; game.played(), 2);
        Ok(())
    }

    // Seven searches, one after another, over a table of these slots.
    fn seven(slots: &mut [Option<Entry>]) -> Result<[Answered; 7], PositionRefusal> {
        let mut table = Table::new(slots);
        let asked: [(&[u32], u32, u32); 7] = [
            (&[], 2, 1000),
            (&[], 2, 1000),
            (&[0, 0], 2, 1000),
            (&[1, 0], 2, 1000),
            (&[], 1, 1000),
            (&[], 1, 5),
            (&[], 1, 1000),
        ];
        let mut answers = [out_of_budget(0); 7];
        for (answer, (moves, floor, budget)) in answers.iter_mut().zip(asked) {
            let mut game = fork_at(10, moves)?;
            *answer = answered(&mut game, &mut table, floor, budget, 97, 6_208);
        }
        Ok(answers)
    }

    #[test]
    fn over_a_table_of_seven_slots(rt: HostRuntime) -> Result<(), Fail> {
        let answers = seven(&mut [None; 7])?;
        assert_eq!(rt; answers[0], yes(255, 10));
        assert_eq!(rt; answers[1], yes(255, 6));
        assert_eq!(rt; answers[2], no(0, 1));
        assert_eq!(rt; answers[3], yes(255, 2));
        assert_eq!(rt; answers[4], yes(255, 10));
        assert_eq!(rt; answers[5], out_of_budget(5));
        assert_eq!(rt; answers[6], yes(255, 12));
        Ok(())
    }

    #[test]
    fn over_a_table_of_three_slots(rt: HostRuntime) -> Result<(), Fail> {
        let answers = seven(&mut [None; 3])?;
        assert_eq!(rt; answers[0], yes(255, 10));
        assert_eq!(rt; answers[1], yes(255, 12));
        assert_eq!(rt; answers[3], yes(255, 4));
        assert_eq!(rt; answers[6], yes(255, 10));
        Ok(())
    }
}
