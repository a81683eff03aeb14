// Tests of two sessions over a small graph, each with exchanges whose answers are worked out by hand.
#![tactic(auto)]

#[cfg(test)]
mod tests {
    use game::interface::{Game, Layer};
    use game::refusal::{PositionRefusal, Refusal};
    use graph::graph::Graph;
    use graph_rules::node::Node;
    use layers::limit::Limit;
    use layers::repeat::Repeat;
    use search::memory::LineRecord;
    use search_method::kinds::{Answer, Pair};
    use search_method::memory::WorkMemory;
    use session::request::{Exchange, Reply, Request};
    use session::run::in_two_sessions;
    use std::test::Fail;
    use store::null::Null;

    // The search tests have these nodes too: each crate of tests states its own graph, so that it is read alone.

    // A node that goes on; targets that are not counted are 0.
    fn going(turn: u8, count: u8, first: u8, second: u8) -> Node {
        Node {
            turn,
            score: 255,
            count,
            targets: [first, second, 0, 0],
        }
    }

    fn end(score: u8) -> Node {
        Node {
            turn: 0,
            score,
            count: 0,
            targets: [0; 4],
        }
    }

    // 0 White to 1, 2; 1 Black to 3, 4; 2 White to 3; 3 White to 1; 4 is won by Black. Under both layers.
    fn fork() -> Result<Limit<Repeat<Graph>>, PositionRefusal> {
        let graph = Graph::new(&[
            going(1, 2, 1, 2),
            going(0, 2, 3, 4),
            going(1, 1, 3, 0),
            going(1, 1, 1, 0),
            end(2),
        ])?;
        Ok(Limit::over(Repeat::over(graph, ()), 10))
    }

    // A request beside a reply that another call left there.
    fn asked(request: Request) -> Exchange {
        Exchange {
            request,
            reply: Some(Reply::Done(Err(Refusal::AtStart))),
        }
    }

    // What a reply says, in numbers.
    #[derive(Clone, Copy, PartialEq, Eq, Debug)]
    enum Said {
        Nothing,
        Done,
        Refused(u8),
        Solved(bool, u8, u32),
        OutOfBudget(u32),
        Written(bool, usize, u32),
        Accepted(u8, bool, usize, u32),
        Faulty(u8, usize, u32),
    }

    fn reply_of(exchange: &Exchange) -> Said {
        match &exchange.reply {
            None => Said::Nothing,
            Some(Reply::Done(Ok(()))) => Said::Done,
            Some(Reply::Done(Err(refusal))) => Said::Refused(refusal.number()),
            Some(Reply::Solved(Ok(Answer::Solved { yes, best, count }))) => {
                Said::Solved(*yes, *best, *count)
            }
            Some(Reply::Solved(Ok(Answer::OutOfBudget { count }))) => Said::OutOfBudget(*count),
            Some(Reply::Solved(Err(refusal))) => Said::Refused(refusal.number()),
            Some(Reply::Written(Ok(proof))) => Said::Written(proof.yes, proof.length, proof.plays),
            Some(Reply::Written(Err(refusal))) => Said::Refused(refusal.number()),
            Some(Reply::Checked(Ok(proof))) => {
                Said::Accepted(proof.floor(), proof.yes(), proof.length(), proof.plays())
            }
            Some(Reply::Checked(Err(fault))) => {
                Said::Faulty(fault.number(), fault.place, fault.depth)
            }
        }
    }

    #[test]
    fn replies_stand_beside_their_requests(rt: HostRuntime) -> Result<(), Fail> {
        let floor = 2;
        let budget = 100;
        let mut first = [
            asked(Request::Solve { floor, budget }),
            asked(Request::Play { k: 0 }),
            asked(Request::Play { k: 0 }),
            asked(Request::Solve { floor, budget }),
            asked(Request::Play { k: 9 }),
            asked(Request::TakeBack),
            asked(Request::Solve { floor: 0, budget }),
        ];
        let mut second = [
            asked(Request::Play { k: 1 }),
            asked(Request::Play { k: 0 }),
            asked(Request::Write { floor, budget }),
            asked(Request::CheckWritten { budget }),
            asked(Request::Check { length: 2, budget }),
            asked(Request::Solve { floor, budget: 3 }),
        ];
        let mut bytes = [9; 5];
        let mut lines = [LineRecord::default(); 97];
        let mut moves = [Pair::default(); 6_208];
        let (one, two) = in_two_sessions(
            fork()?,
            Null,
            &mut first,
            fork()?,
            Null,
            &mut second,
            &mut bytes,
            &mut WorkMemory {
                lines: &mut lines,
                moves: &mut moves,
            },
        );
        assert_eq!(rt; one.close().0.played(), 1);
        assert_eq!(rt; two.close().0.played(), 2);
        assert_eq!(rt; reply_of(&first[0]), Said::Solved(true, 255, 12));
        assert_eq!(rt; reply_of(&first[1]), Said::Done);
        assert_eq!(rt; reply_of(&first[2]), Said::Done);
        assert_eq!(rt; reply_of(&first[3]), Said::Solved(false, 0, 1));
        assert_eq!(rt; reply_of(&first[4]), Said::Refused(1));
        assert_eq!(rt; reply_of(&first[5]), Said::Done);
        assert_eq!(rt; reply_of(&first[6]), Said::Refused(5));
        assert!(rt; matches!(first[4].request, Request::Play { k: 9 }));
        assert_eq!(rt; reply_of(&second[0]), Said::Done);
        assert_eq!(rt; reply_of(&second[1]), Said::Done);
        assert_eq!(rt; reply_of(&second[2]), Said::Written(true, 3, 8));
        assert_eq!(rt; reply_of(&second[3]), Said::Accepted(2, true, 3, 2));
        assert_eq!(rt; reply_of(&second[4]), Said::Faulty(9, 2, 1));
        assert_eq!(rt; reply_of(&second[5]), Said::OutOfBudget(3));
        assert_eq!(rt; bytes, [2, 1, 1, 9, 9]);
        Ok(())
    }
}
