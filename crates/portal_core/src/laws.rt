//! Laws of the portal: those of its rules, and those on the best result and on honest lists.

ghost use Rattle.std.specs.Prelude.{◌≡◌, List, true, false};
ghost use Rattle.std.specs.Prelude.{◌↔◌};
ghost use Rattle.portal_rules.specs.Words.{Key};
ghost use Rattle.portal_rules.specs.World.{World, is_published, is_second};
ghost use Rattle.portal_rules.specs.Good.{Good};
ghost use Rattle.portal_core.specs.Honest.{HasBest, HonestIsBest, HonestOverBoth, HonestOverRuns};
ghost use Rattle.portal_core.specs.Honest.{LeftFindsNone, NoGroupGains, ShowsBest};
ghost use Rattle.portal_core.specs.Honest.{NoGroupGainsOverBoth, NoGroupGainsOverRuns};
ghost use Rattle.portal_core.specs.Honest.{ShorterNeverHarm, WhyNot};
ghost use Rattle.portal_rules.specs.Calls.{AbstractCall};
ghost use Rattle.portal_rules.specs.Answer.{Answer};
ghost use Rattle.portal_rules.specs.Run.{Request, Step, Run, AllAnswered};
ghost use Rattle.portal_rules.specs.Run.{HasForm};
ghost use Rattle.portal_core.specs.Replies.{HasReply};
ghost use Rattle.portal_core.specs.Unseen.{OrderUndeducible, OthersPurged};
ghost use Rattle.portal_core.specs.Unseen.{ListsSeenByChoiceAlone};
ghost use Rattle.portal_core.specs.Saved.{SavedCounts, SavedSinceNew};
ghost use Rattle.portal_core.specs.examples.WorkedRuns.{TellsNothing, TellsChoice};
ghost use Rattle.portal_core.specs.examples.WorkedRuns.{TellsSubmitted};
ghost use Rattle.std.specs.List.{AllByRecursion};

pub use portal_rules::laws::{
    catalogue_whole, heard_once, least_is_told, legal_is_taken, named_by_code, one_run,
    others_unseen, places_unseen, played_alone, replies_told, results_stay, round_opens, run_good,
    same_replies, step_good, step_once, worked_replies,
};

/// Law: from a good world, each call whose rows have the forms of their roll has a step. Requests
/// have a run without a 503 exactly if each is such a call, or has a refusal other than 503.
pub fn run_exists()
    ensures step { (w : World) (code : Key) (ask : AbstractCall) → Good w → HasForm ask
        → (reply : Answer) × (v : World) × Step w code ask reply v }
    ensures run { (w : World) (asked : List Request) → Good w
        → ((told : List Answer) × (after : List World) × Run w asked told after × AllAnswered told)
        ↔ AllByRecursion (λ r. HasReply r.wish) asked }
{}

/// Law: replies leave the order within students' lists open until published. For each run without a
/// 503, and each other order within its lists, stored or submitted, there is a run without a 503
/// whose replies are equal, up to and including the first accepted move to published. Replies that
/// contain a student's list are excepted.
pub fn order_undeducible()
    ensures { OrderUndeducible }
{}

/// Law: until ranking opens, no request of another student or lecturer tells on a caller's replies.
/// Strike out of a run without a 503 the requests of all but the caller and the office. Those that
/// remain have a run without a 503, which gives the caller the same replies and last view.
pub fn others_purged()
    ensures { OthersPurged }
{}

/// Law: until published, a lecturer learns of lists only which of the own projects each contains, and
/// of no other ranking. Take two runs whose worlds, request for request, are the same but for the
/// rest. A lecturer who gets no 503 and asks the same in both gets the same replies.
pub fn lists_seen_by_choice_alone()
    ensures { ListsSeenByChoiceAlone }
{}

/// Law: the last list or ranking that was accepted counts, as requests and replies tell. In a world
/// that a run reaches, each student's list is the last one of the current round that was submitted
/// with this code and accepted, or empty. So is each lecturer's ranking; if none was submitted, it
/// is missing, or the order of keys that the office filled in. Nothing else changes them.
pub fn saved_counts()
    ensures kept { SavedCounts }
    ensures new { SavedSinceNew }
{}

/// Law: a step that publishes a result publishes the student-optimal one. If a good world shows
/// only student-optimal results, so does each world that a run reaches. A good world of the first
/// round shows none before it is published.
pub fn published_best()
    ensures step { (w v : World) (code : Key) (ask : AbstractCall) (reply : Answer)
        → Good w → is_published w.phase ≡ false → Step w code ask reply v
        → is_published v.phase ≡ true → HasBest v }
    ensures run { (w : World) (asked : List Request) (told : List Answer) (after : List World)
        → ShowsBest w → Run w asked told after → AllByRecursion ShowsBest after }
    ensures start { (w : World) → Good w → is_second w.round ≡ false → is_published w.phase ≡ false
        → ShowsBest w }
{}

/// Law: by the honest list, no good world with another list shows the student a better project. The
/// world with the honest list is good, and published with its best result. Both worlds are of one
/// round, and differ at most in that student's list. Each lecturer orders the students on both
/// rankings alike.
pub fn honest_is_best()
    ensures { HonestIsBest }
{}

/// Law: by what the portal shows, a student gains nothing by waiting for the second round. By the
/// honest list, what is shown with it in the first round is at least as good as what a second round
/// shows. The two first rounds differ at most in this student's list. The same holds for each
/// second round that a run reaches from such a published first round.
pub fn honest_over_both()
    ensures worlds { HonestOverBoth }
    ensures runs { HonestOverRuns }
{}

/// Law: in a good second-round world, no project that a student listed in the first is in the
/// catalogue, but for the own one and those listed below it: each other is full, or its lecturer
/// is.
pub fn left_finds_none()
    ensures { LeftFindsNone }
{}

/// Law: no lists of a group make the portal show every member something better. Some member is
/// shown nothing better than with honest lists, by that member's honest list. The two worlds are as
/// in `honest_is_best`, but may differ in all lists of the group. At least one member takes part in
/// the round.
pub fn no_group_gains()
    ensures { NoGroupGains }
{}

/// Law: nor do they over both rounds, whoever of the group waits for the second. Whatever lists and
/// rankings the second round has, some member is shown nothing better than with honest lists in the
/// first, by that member's honest list. The same holds for each second round that a run reaches.
pub fn no_group_gains_over_both()
    ensures worlds { NoGroupGainsOverBoth }
    ensures runs { NoGroupGainsOverRuns }
{}

/// Law: students whose lists lose some last entries, or all, harm nobody else. By the own list, who
/// keeps it is shown nothing better in a good world with the whole lists. The world with the
/// shorter ones is good, and published with its best result. Both worlds differ as in
/// `no_group_gains`.
pub fn shorter_never_harm()
    ensures { ShorterNeverHarm }
{}

/// Law: in a published first round, there is a reason for each project that a student listed before
/// the own result. It is full, and its lecturer ranks each student there higher; or its lecturer is
/// full, and ranks each own student higher. By `played_alone`, the same holds in the second round.
pub fn why_not()
    ensures { WhyNot }
{}

/// Law: runs in a small example world, worked out.
pub fn worked_runs()
    ensures nothing { TellsNothing }
    ensures choice { TellsChoice }
    ensures submitted { TellsSubmitted }
{}
