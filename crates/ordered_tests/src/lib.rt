// What a caller of the ordered list learns, and the list tried on both kinds of notice.
#![tactic(auto)]

ghost use Rattle.records.specs.Keys.{handed_before};
ghost use Rattle.std.specs.Prelude.{◌≡◌, if◌then◌else◌, Some, Ok};

use ordered::{Entry, Full, insert, take_first};
use records::Handed;

// The earlier of two undecided notices: the second only where it is before the first.
pub fn earlier(one: Handed, two: Handed) -> Result<Option<Handed>, Full>
    ensures { result ≡ Ok (Some (if handed_before two one then two else one)) }
{
    let mut places = [one; 2];
    insert(&mut places, 0, one)?;
    insert(&mut places, 1, two)?;
    Ok(take_first(&mut places, 2))
}

#[cfg(test)]
mod tests {
    use super::*;
    use ordered::{Entry, Sorted};
    use records::{Action, Decided, Mask, Notice, Pair, Stamp};

    fn notice(dispatcher: u8, count: u16, vessel: u16) -> Notice {
        Notice {
            source: 0,
            dispatcher,
            count,
            to: Mask { bits: 1 },
            home: 0,
            berth: 0,
            action: Action::Take,
            vessel,
        }
    }

    fn handed(clock: u32, dispatcher: u8, count: u16, vessel: u16) -> Handed {
        Handed {
            notice: notice(dispatcher, count, vessel),
            clock,
        }
    }

    fn decided(clock: u32, step: u16, port: u8, vessel: u16) -> Decided {
        Decided {
            notice: notice(0, 1, vessel),
            stamp: Stamp {
                pair: Pair { clock, step },
                port,
            },
        }
    }

    // Vessels 1, 2 and 3, the last two with equal keys, and two spare places.
    fn three() -> [Handed; 5] {
        [
            handed(10, 1, 5, 1),
            handed(20, 1, 5, 2),
            handed(20, 1, 5, 3),
            handed(0, 0, 1, 90),
            handed(0, 0, 1, 91),
        ]
    }

    fn vessels(places: [Handed; 5]) -> [u16; 5] {
        let [a, b, c, d, e] = places;
        [
            a.notice.vessel,
            b.notice.vessel,
            c.notice.vessel,
            d.notice.vessel,
            e.notice.vessel,
        ]
    }

    // Each key is tried against the three: in front of all, between, among equals, behind all.
    #[test]
    fn inserts_by_clock_dispatcher_count(rt: HostRuntime) {
        let cases = [
            (handed(9, 3, 65535, 7), 0, [7, 1, 2, 3, 91]),
            (handed(10, 0, 6, 7), 0, [7, 1, 2, 3, 91]),
            (handed(10, 1, 4, 7), 0, [7, 1, 2, 3, 91]),
            (handed(10, 1, 5, 7), 1, [1, 7, 2, 3, 91]),
            (handed(10, 1, 6, 7), 1, [1, 7, 2, 3, 91]),
            (handed(10, 2, 4, 7), 1, [1, 7, 2, 3, 91]),
            (handed(20, 1, 4, 7), 1, [1, 7, 2, 3, 91]),
            (handed(20, 1, 5, 7), 3, [1, 2, 3, 7, 91]),
            (handed(21, 0, 1, 7), 3, [1, 2, 3, 7, 91]),
            (handed(4294967295, 3, 65535, 7), 3, [1, 2, 3, 7, 91]),
        ];
        for (x, place, expected) in cases {
            let mut places = three();
            assert_eq!(rt; insert(&mut places, 3, x), Ok(place));
            assert_eq!(rt; vessels(places), expected);
        }
    }

    // Only the first `len` places count: what lies behind is spare, whatever it holds.
    #[test]
    fn inserts_into_none_and_into_the_last_place(rt: HostRuntime) {
        let x = handed(15, 0, 1, 7);
        let cases = [
            (0, Ok(0), [7, 2, 3, 90, 91]),
            (1, Ok(1), [1, 7, 3, 90, 91]),
            (2, Ok(1), [1, 7, 2, 90, 91]),
            (5, Err(Full), [1, 2, 3, 90, 91]),
            (6, Err(Full), [1, 2, 3, 90, 91]),
            (18446744073709551615, Err(Full), [1, 2, 3, 90, 91]),
        ];
        for (len, answer, expected) in cases {
            let mut places = three();
            assert_eq!(rt; insert(&mut places, len, x), answer);
            assert_eq!(rt; vessels(places), expected);
        }
        let mut none: [Handed; 0] = [];
        assert_eq!(rt; insert(&mut none, 0, x), Err(Full));
    }

    #[test]
    fn takes_the_first(rt: HostRuntime) {
        let first = three()[0];
        let cases = [
            (0, None, [1, 2, 3, 90, 91]),
            (1, Some(first), [1, 2, 3, 90, 91]),
            (2, Some(first), [2, 1, 3, 90, 91]),
            (3, Some(first), [2, 3, 1, 90, 91]),
            (5, Some(first), [2, 3, 90, 91, 1]),
            (6, None, [1, 2, 3, 90, 91]),
        ];
        for (len, answer, expected) in cases {
            let mut places = three();
            assert_eq!(rt; take_first(&mut places, len), answer);
            assert_eq!(rt; vessels(places), expected);
        }
        let mut none: [Handed; 0] = [];
        assert_eq!(rt; take_first(&mut none, 0), None);
    }

    // Of each pair of keys the left one is before the right one, and not the other way round.
    #[test]
    fn orders_undecided_notices(rt: HostRuntime) {
        let cases = [
            (handed(0, 3, 65535, 1), handed(1, 0, 1, 1)),
            (handed(4294967294, 3, 2, 1), handed(4294967295, 0, 1, 1)),
            (handed(7, 0, 65535, 1), handed(7, 1, 1, 1)),
            (handed(7, 2, 2, 1), handed(7, 3, 1, 1)),
            (handed(7, 3, 1, 1), handed(7, 3, 2, 1)),
            (handed(7, 3, 65534, 1), handed(7, 3, 65535, 1)),
        ];
        for (x, y) in cases {
            assert!(rt; x.is_before(&y));
            assert!(rt; !y.is_before(&x));
            assert!(rt; !x.is_before(&x));
            assert_eq!(rt; earlier(x, y), Ok(Some(x)));
            assert_eq!(rt; earlier(y, x), Ok(Some(x)));
        }
        assert!(rt; !handed(7, 3, 1, 1).is_before(&handed(7, 3, 1, 2)));
    }

    #[test]
    fn orders_decided_notices(rt: HostRuntime) {
        let cases = [
            (decided(100, 0, 7, 1), decided(100, 1, 0, 1)),
            (decided(99, 65535, 7, 1), decided(100, 0, 0, 1)),
            (decided(0, 0, 0, 1), decided(4294967295, 0, 0, 1)),
            (decided(100, 65534, 7, 1), decided(100, 65535, 0, 1)),
            (decided(100, 1, 6, 1), decided(100, 1, 7, 1)),
        ];
        for (x, y) in cases {
            assert!(rt; x.is_before(&y));
            assert!(rt; !y.is_before(&x));
            assert!(rt; !x.is_before(&x));
            assert!(rt; x.stamp.is_before(y.stamp));
            assert!(rt; !y.stamp.is_before(x.stamp));
        }
        assert!(rt; !decided(7, 3, 1, 1).is_before(&decided(7, 3, 1, 2)));
    }

    // A pair leaves the port aside.
    #[test]
    fn orders_pairs(rt: HostRuntime) {
        let cases = [
            ((100, 0), (100, 1)),
            ((100, 65534), (100, 65535)),
            ((99, 65535), (100, 0)),
        ];
        for ((clock, step), (clock_after, step_after)) in cases {
            let x = Pair { clock, step };
            let y = Pair {
                clock: clock_after,
                step: step_after,
            };
            assert!(rt; x.is_before(y));
            assert!(rt; !y.is_before(x));
            assert!(rt; !x.is_before(x));
        }
    }

    // Put in out of order, taken by rising stamp.
    #[test]
    fn keeps_decided_notices_by_stamp(rt: HostRuntime) {
        let mut places = [decided(0, 0, 0, 0); 4];
        assert_eq!(rt; insert(&mut places, 0, decided(100, 1, 0, 1)), Ok(0));
        assert_eq!(rt; insert(&mut places, 1, decided(100, 0, 7, 2)), Ok(0));
        assert_eq!(rt; insert(&mut places, 2, decided(100, 1, 1, 3)), Ok(2));
        assert_eq!(rt; insert(&mut places, 3, decided(100, 0, 6, 4)), Ok(0));
        assert_eq!(rt; insert(&mut places, 4, decided(1, 1, 1, 5)), Err(Full));
        assert_eq!(rt; take_first(&mut places, 4), Some(decided(100, 0, 6, 4)));
        assert_eq!(rt; take_first(&mut places, 3), Some(decided(100, 0, 7, 2)));
        assert_eq!(rt; take_first(&mut places, 2), Some(decided(100, 1, 0, 1)));
        assert_eq!(rt; take_first(&mut places, 1), Some(decided(100, 1, 1, 3)));
        assert_eq!(rt; take_first(&mut places, 0), None);
    }

    // A list of three places in memory of its own: a fourth entry is refused, the first leaves, another comes last, and those of
    // clock 20 stay; then none does.
    #[test]
    fn sorted_in_its_own_memory(rt: HostRuntime) {
        let mut list: Sorted<Handed, 3> = Sorted::new();
        assert_eq!(rt; list.take_first(), None);
        assert_eq!(rt; list.insert(handed(20, 1, 5, 1)), Ok(0));
        assert_eq!(rt; list.insert(handed(10, 1, 5, 2)), Ok(0));
        assert_eq!(rt; list.insert(handed(20, 1, 5, 3)), Ok(2));
        assert_eq!(rt; list.insert(handed(5, 1, 5, 4)), Err(Full));
        assert_eq!(rt;
            list.as_slice(),
            [
                handed(10, 1, 5, 2),
                handed(20, 1, 5, 1),
                handed(20, 1, 5, 3)
            ]
            .as_slice()
        );
        assert_eq!(rt; list.take_first(), Some(handed(10, 1, 5, 2)));
        assert_eq!(rt; list.insert(handed(30, 1, 5, 5)), Ok(2));
        assert_eq!(rt;
            list.as_slice(),
            [
                handed(20, 1, 5, 1),
                handed(20, 1, 5, 3),
                handed(30, 1, 5, 5)
            ]
            .as_slice()
        );
        list.retain(|e| e.clock == 20);
        assert_eq!(rt;
            list.as_slice(),
            [handed(20, 1, 5, 1), handed(20, 1, 5, 3)].as_slice()
        );
        list.retain(|e| e.clock < 20);
        assert_eq!(rt; list.take_first(), None);
        list.retain(|_| true);
        assert_eq!(rt; list.take_first(), None);
    }
}
