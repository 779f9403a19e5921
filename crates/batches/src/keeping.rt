// What a batch takes of the undecided notices, and what it leaves.
ghost use Rattle.std.specs.Prelude.{◌≡◌, ◌≤◌, length, take};
ghost use Rattle.model.specs.Batches.{within, left};

use records::notice::Handed;

// Whether the notice's count is at most its dispatcher's cut, which is 0 where there is no such dispatcher.
pub fn is_within(notice: &Handed, cuts: &[u16; 4]) -> bool
    ensures { result ≡ within cuts.now notice.now }
{
    let cut = cuts
        .get(notice.notice.dispatcher as usize)
        .copied()
        .unwrap_or(0);
    notice.notice.count <= cut
}

// Moves the notices above their cuts to the front, in their order, and tells how many they are.
pub fn keep_left(notices: &mut [Handed], cuts: &[u16; 4]) -> usize
    ensures kept { take result notices.new ≡ left cuts.now notices.old }
    ensures few { result ≤ length notices.old }
{
    // by places, since what is kept moves within the slice that is walked
    let mut k = 0;
    for i in 0..notices.len() {
        let n = notices[i];
        if !is_within(&n, cuts) {
            notices[k] = n;
            k += 1;
        }
    }
    k
}
