// Answers and refusals of a net, added behind a text.
ghost use Rattle.std.specs.Prelude.{◌+◌, ◌≤◌, length};
ghost use Rattle.answers.specs.Answers.{pair_text, stamp_text, released_text, answer_text, holders_text, result_text};
ghost use Rattle.answers.specs.Texts.{text_of, Added};

use super::Text;
use crate::answer::Answer;
use boards::outcome::Outcome;
use records::fault::NetFault;
use records::notice::Decided;
use records::stamp::{Pair, Stamp};

impl Text {
    fn add_pair(&mut self, pair: Pair)
        requires { length (text_of self.old) + 42 ≤ 191 }
        ensures added { Added self.old self.new (pair_text pair) }
        ensures short { length (text_of self.new) ≤ length (text_of self.old) + 42 }
    {
        self.add_item(b' ', pair.clock as usize);
        self.add_item(b'.', pair.step as usize);
    }

    fn add_stamp(&mut self, stamp: Stamp)
        requires { length (text_of self.old) + 63 ≤ 191 }
        ensures added { Added self.old self.new (stamp_text stamp) }
        ensures short { length (text_of self.new) ≤ length (text_of self.old) + 63 }
    {
        self.add_pair(stamp.pair);
        self.add_item(b'.', stamp.port as usize);
    }

    // Adds what is told of a release.
    fn add_released(&mut self, decided: Decided, outcome: Outcome)
        requires { length (text_of self.old) + 147 ≤ 191 }
        ensures added { Added self.old self.new (released_text decided outcome) }
        ensures short { length (text_of self.new) ≤ length (text_of self.old) + 147 }
    {
        self.add_stamp(decided.stamp);
        self.add_item(b' ', decided.notice.home as usize);
        self.add_item(b'/', decided.notice.berth as usize);
        self.add_item(b' ', decided.notice.vessel as usize);
        self.add_item(b' ', outcome.number() as usize);
    }

    // Adds the details of an answer.
    fn add_answer(&mut self, answer: Answer)
        requires { length (text_of self.old) + 147 ≤ 191 }
        ensures added { Added self.old self.new (answer_text answer) }
        ensures short { length (text_of self.new) ≤ length (text_of self.old) + 147 }
    {
        match answer {
            Answer::Count(count) => self.add_item(b' ', count as usize),
            Answer::Batch { notices, copies } => {
                self.add_item(b' ', notices);
                self.add_item(b' ', copies);
            }
            Answer::Clearance(pair) => self.add_pair(pair),
            Answer::Done => {}
            Answer::Released { notice, outcome } => self.add_released(notice, outcome),
        }
    }

    // Adds the holders, where there are any.
    fn add_holders(&mut self, fault: NetFault)
        requires { length (text_of self.old) + 21 ≤ 191 }
        ensures added { Added self.old self.new (holders_text fault) }
        ensures short { length (text_of self.new) ≤ length (text_of self.old) + 21 }
    {
        if let NetFault::Held(holders) = fault {
            self.add_item(b' ', holders.bits as usize);
        }
    }

    // Adds 0 and the details of the answer, or the number and the details of the refusal.
    pub(crate) fn add_result(&mut self, res: Result<Answer, NetFault>)
        requires { length (text_of self.old) + 168 ≤ 191 }
        ensures added { Added self.old self.new (result_text res) }
        ensures short { length (text_of self.new) ≤ length (text_of self.old) + 168 }
    {
        match res {
            Ok(answer) => {
                self.add_item(b' ', 0);
                self.add_answer(answer);
            }
            Err(fault) => {
                self.add_item(b' ', fault.number() as usize);
                self.add_holders(fault);
            }
        }
    }
}
