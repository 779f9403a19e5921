// Examples of stamping, of what a batch takes and leaves, and of counting.
#![tactic(auto)]

#[cfg(test)]
mod tests {
    use batches::batch::stamping::next_pair;
    use batches::batch::{Batch, BatchFault};
    use batches::counting::{copies, count_for, count_from};
    use batches::keeping::keep_left;
    use records::mask::Mask;
    use records::notice::{Action, Decided, Handed, Notice};
    use records::stamp::{Pair, Stamp};

    fn pair(clock: u32, step: u16) -> Pair {
        Pair { clock, step }
    }

    fn handed(dispatcher: u8, count: u16, clock: u32, to: u8) -> Handed {
        Handed {
            notice: Notice {
                source: 1,
                dispatcher,
                count,
                to: Mask { bits: to },
                home: 0,
                berth: 4,
                action: Action::Take,
                vessel: 7,
            },
            clock,
        }
    }

    fn decided(to: u8, port: u8) -> Decided {
        Decided {
            notice: handed(0, 1, 100, to).notice,
            stamp: Stamp {
                pair: pair(100, 0),
                port,
            },
        }
    }

    #[test]
    fn the_stamping_rule(rt: HostRuntime) {
        assert_eq!(rt; next_pair(None, 100), Some(pair(100, 0)));
        assert_eq!(rt; next_pair(None, 0), Some(pair(0, 0)));
        assert_eq!(rt; next_pair(Some(pair(99, 7)), 100), Some(pair(100, 0)));
        assert_eq!(rt; next_pair(Some(pair(100, 0)), 100), Some(pair(100, 1)));
        assert_eq!(rt; next_pair(Some(pair(100, 1)), 90), Some(pair(100, 2)));
        assert_eq!(rt;
            next_pair(Some(pair(100, 65534)), 100),
            Some(pair(100, 65535))
        );
        assert_eq!(rt; next_pair(Some(pair(100, 65535)), 100), None);
        assert_eq!(rt; next_pair(Some(pair(100, 65535)), 101), Some(pair(101, 0)));
    }

    // How many notices the batch has, and clock and step of the first four of them; or why there is none.
    fn stamps(
        floor: Option<Pair>,
        undecided: &[Handed],
        cuts: &[u16; 4],
    ) -> Result<(usize, [Pair; 4]), BatchFault> {
        let batch = Batch::stamp(1, floor, undecided, cuts)?;
        let mut found = [pair(0, 0); 4];
        for (place, d) in found.iter_mut().zip(batch.list()) {
            *place = d.stamp.pair;
        }
        Ok((batch.list().len(), found))
    }

    #[test]
    fn a_batch(rt: HostRuntime) {
        // by clock, dispatcher, count; dispatcher 0's second notice is above his cut
        let undecided = [
            handed(0, 1, 90, 3),
            handed(2, 5, 90, 3),
            handed(0, 2, 95, 3),
            handed(3, 1, 200, 3),
        ];
        let none = pair(0, 0);
        assert_eq!(rt;
            stamps(None, &undecided, &[1, 0, 5, 1]),
            Ok((3, [pair(90, 0), pair(90, 1), pair(200, 0), none]))
        );
        // above a floor of its own second
        assert_eq!(rt;
            stamps(Some(pair(150, 9)), &undecided, &[1, 0, 5, 1]),
            Ok((3, [pair(150, 10), pair(150, 11), pair(200, 0), none]))
        );
        assert_eq!(rt; stamps(None, &undecided, &[0, 0, 4, 0]), Ok((0, [none; 4])));
        // one step too many refuses the whole batch
        assert_eq!(rt;
            stamps(Some(pair(150, 65534)), &undecided, &[1, 0, 5, 1]),
            Err(BatchFault::StepUsedUp)
        );
        assert_eq!(rt;
            stamps(Some(pair(150, 65534)), &undecided, &[1, 0, 4, 1]),
            Ok((2, [pair(150, 65535), pair(200, 0), none, none]))
        );
        let first = |stamped: (usize, [Pair; 4])| stamped.0;
        assert_eq!(rt;
            stamps(None, &[undecided[0]; 16], &[1, 0, 0, 0]).map(first),
            Ok(16)
        );
        assert_eq!(rt;
            stamps(None, &[undecided[0]; 17], &[1, 0, 0, 0]).map(first),
            Err(BatchFault::TooMany)
        );
    }

    #[test]
    fn what_it_leaves(rt: HostRuntime) {
        let mut notices = [
            handed(0, 1, 90, 3),
            handed(2, 5, 90, 3),
            handed(0, 2, 95, 3),
            handed(3, 1, 200, 3),
        ];
        assert_eq!(rt; keep_left(&mut notices, &[1, 0, 4, 0]), 3);
        assert_eq!(rt; notices[0].notice.dispatcher, 2);
        assert_eq!(rt; notices[1].notice.count, 2);
        assert_eq!(rt; notices[2].notice.dispatcher, 3);
        assert_eq!(rt; keep_left(&mut notices[0..3], &[9, 9, 9, 9]), 0);
        assert_eq!(rt; keep_left(&mut [], &[0, 0, 0, 0]), 0);
    }

    #[test]
    fn counting(rt: HostRuntime) {
        let ds = [decided(0, 1), decided(255, 1), decided(2, 2), decided(3, 7)];
        assert_eq!(rt; count_for(&ds, 0), 2);
        assert_eq!(rt; count_for(&ds, 1), 3);
        assert_eq!(rt; count_for(&ds, 7), 1);
        assert_eq!(rt; count_for(&ds, 8), 0);
        assert_eq!(rt; count_from(&ds, 1), 2);
        assert_eq!(rt; count_from(&ds, 0), 0);
        // none, seven others, the own bit alone, one other
        assert_eq!(rt; copies(&ds, 1), 8);
        assert_eq!(rt; copies(&ds[2..3], 1), 0);
        assert_eq!(rt; copies(&ds[1..2], 8), 8);
    }
}
