// What each kind of board makes of a notice, at one berth.
use boards::board::Board;
use boards::first_come::FirstCome;
use boards::queue::Queue;
use boards::spot::Spot;
use records::notice::Action;
use std::process::Abort;

// Berth 5 of port 2, at watching port 3.
const SPOT: Spot = Spot {
    watching: 3,
    home: 2,
    berth: 5,
};

// A notice about it: the number of its outcome.
fn turn<B: Board>(board: &mut B, action: Action, vessel: u16) -> u8 {
    board.apply(SPOT, action, vessel).number()
}

// The list there has exactly these vessels, with 0 at every place behind them.
fn check_list<B: Board>(rt: &impl Abort, board: &B, vessels: &[u16]) {
    assert_eq!(rt; board.len(SPOT), vessels.len());
    for (place, vessel) in vessels.iter().enumerate() {
        assert_eq!(rt; board.vessel_at(SPOT, place), *vessel);
    }
    for place in vessels.len()..6 {
        assert_eq!(rt; board.vessel_at(SPOT, place), 0);
    }
}

#[test]
fn first_come(rt: HostRuntime) {
    let mut board = FirstCome::new();
    check_list(&rt, &board, &[]);
    assert_eq!(rt; turn(&mut board, Action::Leave, 7), 3);
    check_list(&rt, &board, &[]);
    assert_eq!(rt; turn(&mut board, Action::Take, 7), 1);
    check_list(&rt, &board, &[7]);
    assert_eq!(rt; turn(&mut board, Action::Take, 9), 3);
    assert_eq!(rt; turn(&mut board, Action::Take, 7), 3);
    assert_eq!(rt; turn(&mut board, Action::Leave, 9), 3);
    check_list(&rt, &board, &[7]);
    assert_eq!(rt; turn(&mut board, Action::Leave, 7), 2);
    check_list(&rt, &board, &[]);
    assert_eq!(rt; turn(&mut board, Action::Leave, 7), 3);
    assert_eq!(rt; turn(&mut board, Action::Take, 9), 1);
    check_list(&rt, &board, &[9]);
}

#[test]
fn queue_seven_then_nine(rt: HostRuntime) {
    let mut board = Queue::new();
    assert_eq!(rt; turn(&mut board, Action::Take, 7), 1);
    assert_eq!(rt; turn(&mut board, Action::Take, 9), 4);
    check_list(&rt, &board, &[7, 9]);
    assert_eq!(rt; turn(&mut board, Action::Leave, 7), 2);
    check_list(&rt, &board, &[9]);
}

#[test]
fn queue_of_four(rt: HostRuntime) {
    let mut board = Queue::new();
    check_list(&rt, &board, &[]);
    assert_eq!(rt; turn(&mut board, Action::Leave, 9), 3);
    assert_eq!(rt; turn(&mut board, Action::Take, 9), 1);
    assert_eq!(rt; turn(&mut board, Action::Take, 9), 3);
    assert_eq!(rt; turn(&mut board, Action::Take, 7), 4);
    assert_eq!(rt; turn(&mut board, Action::Take, 7), 3);
    assert_eq!(rt; turn(&mut board, Action::Take, 1), 4);
    check_list(&rt, &board, &[9, 7, 1]);
    assert_eq!(rt; turn(&mut board, Action::Take, 2), 4);
    check_list(&rt, &board, &[9, 7, 1, 2]);
    // a fifth, listed or not
    assert_eq!(rt; turn(&mut board, Action::Take, 3), 3);
    assert_eq!(rt; turn(&mut board, Action::Take, 2), 3);
    assert_eq!(rt; turn(&mut board, Action::Leave, 3), 3);
    check_list(&rt, &board, &[9, 7, 1, 2]);
}

#[test]
fn queue_leaves_from_every_place(rt: HostRuntime) {
    let mut board = Queue::new();
    assert_eq!(rt; turn(&mut board, Action::Take, 9), 1);
    assert_eq!(rt; turn(&mut board, Action::Take, 7), 4);
    assert_eq!(rt; turn(&mut board, Action::Take, 1), 4);
    assert_eq!(rt; turn(&mut board, Action::Take, 2), 4);
    assert_eq!(rt; turn(&mut board, Action::Leave, 1), 2);
    check_list(&rt, &board, &[9, 7, 2]);
    // who left can come again, behind the others
    assert_eq!(rt; turn(&mut board, Action::Take, 1), 4);
    check_list(&rt, &board, &[9, 7, 2, 1]);
    assert_eq!(rt; turn(&mut board, Action::Leave, 1), 2);
    check_list(&rt, &board, &[9, 7, 2]);
    assert_eq!(rt; turn(&mut board, Action::Leave, 9), 2);
    check_list(&rt, &board, &[7, 2]);
    assert_eq!(rt; turn(&mut board, Action::Leave, 9), 3);
    assert_eq!(rt; turn(&mut board, Action::Leave, 2), 2);
    assert_eq!(rt; turn(&mut board, Action::Leave, 7), 2);
    check_list(&rt, &board, &[]);
    assert_eq!(rt; turn(&mut board, Action::Leave, 7), 3);
}
