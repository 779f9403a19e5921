// Which numbers a board takes: ports 0 to 7, berths 0 to 15, vessels 1 to 65,535.
use boards::board::Board;
use boards::first_come::FirstCome;
use boards::queue::Queue;
use boards::spot::Spot;
use records::notice::Action;
use std::process::Abort;

// A take on an empty board: taken, it is read back; out of range, it clashes and nothing is there to read.
fn check_take<B: Board>(rt: &impl Abort, board: &mut B, at: Spot, vessel: u16, outcome: u8) {
    board.empty();
    assert_eq!(rt; board.apply(at, Action::Take, vessel).number(), outcome);
    let (len, first) = if outcome == 1 { (1, vessel) } else { (0, 0) };
    assert_eq!(rt; board.len(at), len);
    assert_eq!(rt; board.vessel_at(at, 0), first);
    assert_eq!(rt; board.vessel_at(at, 1), 0);
    assert_eq!(rt; board.vessel_at(at, 1023), 0);
}

fn check_ranges<B: Board>(rt: &impl Abort, board: &mut B) {
    check_take(rt, board, Spot::new(0, 0, 0), 1, 1);
    check_take(rt, board, Spot::new(7, 7, 15), 65535, 1);
    check_take(rt, board, Spot::new(8, 7, 15), 1, 3);
    check_take(rt, board, Spot::new(7, 8, 15), 1, 3);
    check_take(rt, board, Spot::new(7, 7, 16), 1, 3);
    check_take(rt, board, Spot::new(7, 7, 15), 0, 3);
    check_take(rt, board, Spot::new(255, 0, 0), 1, 3);
    check_take(rt, board, Spot::new(0, 255, 0), 1, 3);
    check_take(rt, board, Spot::new(0, 0, 255), 1, 3);
}

// Only the list of its berth at its watching port changes.
fn check_one_list<B: Board>(rt: &impl Abort, board: &mut B) {
    let at = Spot::new(1, 2, 3);
    board.empty();
    assert_eq!(rt; board.apply(at, Action::Take, 500).number(), 1);
    // out of range, these would lie beside it
    assert_eq!(rt;
        board
            .apply(Spot::new(1, 1, 19), Action::Leave, 500)
            .number(),
        3
    );
    assert_eq!(rt;
        board
            .apply(Spot::new(0, 10, 3), Action::Leave, 500)
            .number(),
        3
    );
    assert_eq!(rt; board.apply(at, Action::Leave, 0).number(), 3);
    assert_eq!(rt; board.vessel_at(at, 0), 500);
    for watching in 0..8u8 {
        for home in 0..8u8 {
            for berth in 0..16u8 {
                let other = Spot::new(watching, home, berth);
                assert_eq!(rt; board.len(other), usize::from(other == at));
            }
        }
    }
}

// The first list and the last are emptied too.
fn check_emptied<B: Board>(rt: &impl Abort, board: &mut B) {
    assert_eq!(rt;
        board.apply(Spot::new(0, 0, 0), Action::Take, 5).number(),
        1
    );
    assert_eq!(rt;
        board.apply(Spot::new(7, 7, 15), Action::Take, 6).number(),
        1
    );
    board.empty();
    assert_eq!(rt; board.len(Spot::new(0, 0, 0)), 0);
    assert_eq!(rt; board.len(Spot::new(7, 7, 15)), 0);
    assert_eq!(rt; board.vessel_at(Spot::new(0, 0, 0), 0), 0);
    assert_eq!(rt; board.vessel_at(Spot::new(7, 7, 15), 0), 0);
}

#[test]
fn first_come_ranges(rt: HostRuntime) {
    check_ranges(&rt, &mut FirstCome::new());
}

#[test]
fn queue_ranges(rt: HostRuntime) {
    check_ranges(&rt, &mut Queue::new());
}

#[test]
fn one_list(rt: HostRuntime) {
    check_one_list(&rt, &mut FirstCome::new());
    check_one_list(&rt, &mut Queue::new());
}

#[test]
fn emptied(rt: HostRuntime) {
    check_emptied(&rt, &mut FirstCome::new());
    check_emptied(&rt, &mut Queue::new());
}
