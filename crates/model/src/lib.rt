// What a net means, what each call does to it, and the law of one order. The functions compute nothing: each promises a
// theorem, for whoever builds on it.
#![tactic(auto)]

ghost use Rattle.std.specs.Prelude.{ℕ};
ghost use Rattle.boards.specs.Rules.{Rule};
ghost use Rattle.model.specs.Answers.{OneAnswer};
ghost use Rattle.model.specs.Calls.{Call};
ghost use Rattle.model.specs.Edges.{Edges};
ghost use Rattle.model.specs.Law.{LawOfOneOrder};
ghost use Rattle.model.specs.Runs.{LateLink};
ghost use Rattle.model.specs.Views.{View};

// One order at every port: for every run of calls, whatever the depth of the wire, what it let arrive, and the rule of the
// boards.
pub fn law_of_one_order()
    ensures { LawOfOneOrder }
{}

// Each call has exactly one answer: it is refused, or leads to a next net, the same but for what has arrived on its lines.
pub fn one_answer_to_each_call()
    ensures { (depth : ℕ) (rule : Rule) (v : View) (c : Call) → OneAnswer depth rule v c }
{}

// A run of two ports with a late link and two releases can be had.
pub fn late_link()
    ensures { (rule : Rule) → LateLink rule }
{}

// The rules at their edges.
pub fn edges()
    ensures { Edges }
{}
