//! Laws of the portal: privacy, good worlds, runs, refusals and results.

ghost use Rattle.std.specs.Prelude.{◌≡◌, ◌⊎◌, ◌++◌, ◌∷◌, List, map, codes, true, false, Some};
ghost use Rattle.std.specs.Prelude.{None};
ghost use Rattle.portal_rules.specs.Words.{Key, equals, has};
ghost use Rattle.portal_rules.specs.World.{World, Lecturer, in_play, first, is_second};
ghost use Rattle.portal_rules.specs.World.{student_key, applicants_of, is_from_ranking, SecondRound};
ghost use Rattle.portal_rules.specs.World.{changed};
ghost use Rattle.portal_rules.specs.Alone.{alone};
ghost use Rattle.portal_rules.specs.Good.{Good, KeepsCapacities, codes_of, IsChoice, IsRanking};
ghost use Rattle.portal_rules.specs.Good.{instance};
ghost use Rattle.portal_rules.specs.Faults.{ListFault, fault_at, choice_fault, ranking_fault};
ghost use Rattle.portal_rules.specs.Faults.{lacks_one, RollRefusal, Faulty, Took, take_rows};
ghost use Rattle.portal_rules.specs.Faults.{lecturer_roll, project_roll, student_roll, AreFresh};
ghost use Rattle.portal_rules.specs.Faults.{wrong_choice, wrong_rank, NoneWrong, IsFirstWrong};
ghost use Rattle.portal_rules.specs.Faults.{IsFirstRefused};
ghost use Rattle.portal_rules.specs.Calls.{OfficeSees, AbstractCall};
ghost use Rattle.portal_rules.specs.declared.rows.LecturerRow.{LecturerRow};
ghost use Rattle.portal_rules.specs.declared.rows.Person.{Person};
ghost use Rattle.portal_rules.specs.declared.rows.StudentRow.{StudentRow};
ghost use Rattle.portal_rules.specs.Answer.{Answer, own};
ghost use Rattle.portal_rules.specs.View.{view, catalogue, office_sees, lecturer_sees, student_sees};
ghost use Rattle.portal_rules.specs.View.{ShowsStill};
ghost use Rattle.portal_rules.specs.declared.view.View.TheVariants as sees;
ghost use Rattle.portal_rules.specs.declared.rows.Listing.{Listing};
ghost use Rattle.portal_rules.specs.declared.rows.ProjectRow.{ProjectRow};
ghost use Rattle.portal_rules.specs.Run.{Request, Step, Serves, Calls, Run, AllAnswered, end_of};
ghost use Rattle.portal_rules.specs.Run.{OpensSecond, OpensOnce};
ghost use Rattle.portal_rules.specs.Heard.{IsMember, IsIdle, is_move_or_add, HeardItem, Heard};
ghost use Rattle.portal_rules.specs.Heard.{replies_to, SameUpToListOrder, SameRequest};
ghost use Rattle.portal_rules.specs.Heard.{AlikeUntilPublished};
ghost use Rattle.portal_rules.specs.Told.{replies_from, view_from};
ghost use Rattle.portal_rules.specs.declared.phase.Phase.TheVariants.{Choosing, Published};
ghost use Rattle.portal_rules.specs.declared.phase.Round.TheVariants.{First, Second};
ghost use Rattle.std.specs.List.{AllZip, AllByRecursion};
ghost use Rattle.portal_rules.specs.examples.Worked.{TellsApplicants, TellsMoves, TellsResult};
ghost use Rattle.portal_rules.specs.examples.Worked.{TellsOpening};

/// Law: a caller's first view and what the caller hears determine the caller's replies and last view,
/// by one function for all runs, if no reply to this caller is 503. Others may get a 503.
pub fn replies_told()
    ensures { (c : Key) (w : World) (asked : List Request) (told : List Answer)
        (after : List World) (items : List HeardItem)
        → Run w asked told after → AllAnswered (replies_to c asked told) → Heard c w asked after items
        → (replies_to c asked told ≡ replies_from (view w c) items)
        × (view (end_of w after) c ≡ view_from (view w c) items) }
{}

/// Law: take two runs in which a caller gets no 503, starts with the same view and hears the same.
/// They give the caller the same replies and end with the same view. In a run without a 503, no
/// caller gets one.
pub fn same_replies()
    ensures same { (c : Key) (w v : World) (asked others : List Request) (told said : List Answer)
        (after later : List World) (items : List HeardItem)
        → Run w asked told after → AllAnswered (replies_to c asked told) → Heard c w asked after items
        → Run v others said later → AllAnswered (replies_to c others said)
        → Heard c v others later items → view w c ≡ view v c
        → (replies_to c asked told ≡ replies_to c others said)
        × (view (end_of w after) c ≡ view (end_of v later) c) }
    ensures answered { (c : Key) (asked : List Request) (told : List Answer)
        → AllAnswered told → AllAnswered (replies_to c asked told) }
{}

/// Law: in a good world, a student's or lecturer's call changes only the caller's and the office's
/// view. Except after moves and new rows, the caller's new view follows from the old view and the
/// call. Removing another's request that changes nothing leaves a caller's replies unchanged.
pub fn others_unseen()
    ensures others { (w v : World) (c d : Key) (ask : AbstractCall) (reply : Answer)
        → Good w → Step w d ask reply v → IsMember (view w d)
        → equals d c ≡ false → equals w.office c ≡ false → view v c ≡ view w c }
    ensures own_list { (w v : World) (c : Key) (ask : AbstractCall) (reply : Answer)
        → Step w c ask reply v → is_move_or_add (Calls ask) ≡ false
        → view v c ≡ own (view w c) ask }
    ensures struck { (c : Key) (w v : World) (before : List Request) (r : Request)
        (rest : List Request) (told : List Answer) (a : Answer) (said : List Answer)
        (after later : List World)
        → Run w before told after → Serves (end_of w after) r a v → Run v rest said later
        → equals r.code c ≡ false → IsIdle (end_of w after) r
        → Run w (before ++ rest) (told ++ said) (after ++ later)
        × (replies_to c (before ++ rest) (told ++ said)
        ≡ replies_to c (before ++ r ∷ rest) (told ++ a ∷ said)) }
{}

/// Law: each run has exactly one list of what a caller hears.
pub fn heard_once()
    ensures there { (c : Key) (w : World) (asked : List Request) (after : List World)
        → (items : List HeardItem) × Heard c w asked after items }
    ensures once { (c : Key) (w : World) (asked : List Request) (after : List World)
        (items others : List HeardItem)
        → Heard c w asked after items → Heard c w asked after others → items ≡ others }
{}

/// Law: a step from a good world leads to a good world. There, the results of both rounds together
/// keep within the capacities of the rolls. A step in the second round stays in it, and leaves the
/// first round as it was published.
pub fn step_good()
    ensures good { (w v : World) (code : Key) (ask : AbstractCall) (reply : Answer) → Good w
        → Step w code ask reply v → Good v }
    ensures capacities { (w v : World) (code : Key) (ask : AbstractCall) (reply : Answer) → Good w
        → Step w code ask reply v → KeepsCapacities v }
    ensures first { (w v : World) (code : Key) (ask : AbstractCall) (reply : Answer)
        → is_second w.round ≡ true → Step w code ask reply v
        → (v.round ≡ w.round) × (first v ≡ first w) }
{}

/// Law: each world that a run reaches from a good world is good. So every published result is
/// stable.
pub fn run_good()
    ensures { (w : World) (asked : List Request) (told : List Answer) (after : List World)
        → Good w → Run w asked told after → AllByRecursion Good after }
{}

/// Law: what a good world shows of a result stays shown in each world that a step or a run reaches.
/// A student sees the project, a lecturer the students at each own project, the office all pairs.
/// Each phase of the second round shows the whole result of the first. A student who is shown no
/// project may be shown one later.
pub fn results_stay()
    ensures step { (w v : World) (c code : Key) (ask : AbstractCall) (reply : Answer) → Good w
        → Step w code ask reply v → ShowsStill (view w c) (view v c) }
    ensures run { (w : World) (c : Key) (asked : List Request) (told : List Answer)
        (after : List World) → Good w → Run w asked told after
        → AllByRecursion (λ v. ShowsStill (view w c) (view v c)) after }
    ensures first { (w : World) (c : Key) → Good w → ShowsStill (view (first w) c) (view w c) }
{}

/// Law: only one request changes the round: the office's move to choosing that names the second
/// round, once the first is published. The reply has that phase and that round. If the world was
/// good, the second round keeps the first as it was published. In a run, the second round lasts to
/// the end.
pub fn round_opens()
    ensures step { (w v : World) (code : Key) (ask : AbstractCall) (reply : Answer)
        → Step w code ask reply v
        → (v.round ≡ w.round) ⊎ OpensSecond w code (Calls ask) reply v }
    ensures run { (w : World) (asked : List Request) (told : List Answer) (after : List World)
        → Run w asked told after → OpensOnce w asked told after }
    ensures opens { (w v : World) (reply : Answer) → w.round ≡ First → w.phase ≡ Published
        → Step w w.office (AbstractCall.Move Choosing (Some Second)) reply v
        → OpensSecond w w.office (Calls (AbstractCall.Move Choosing (Some Second))) reply v }
    ensures kept { (w : World) → Good w → w.round ≡ First → w.phase ≡ Published
        → first (changed w SecondRound) ≡ w }
{}

/// Law: the world, code and call of a step determine its reply and the next world.
pub fn step_once()
    ensures { (w v u : World) (code : Key) (ask : AbstractCall) (a b : Answer)
        → Step w code ask a v → Step w code ask b u → (a ≡ b) × (v ≡ u) }
{}

/// Law: two runs without a 503, from the same world and with the same requests, give equal replies
/// and leave equal worlds after each request.
pub fn one_run()
    ensures { (w : World) (asked : List Request) (told said : List Answer)
        (after later : List World)
        → Run w asked told after → AllAnswered told → Run w asked said later → AllAnswered said
        → (told ≡ said) × (after ≡ later) }
{}

/// Law: a list of at most 20 known projects, none twice, has no fault. Nor has a ranking of each
/// applicant once and nobody else, or new rows that are not bad, within the limit. A student with a
/// project of the first round is refused nevertheless.
pub fn legal_is_taken()
    ensures choices { (catalogue : List Listing) (list : List Key)
        → IsChoice (map (λ (l : Listing). l.key) catalogue) list
        → choice_fault catalogue list ≡ None }
    ensures rankings { (w : World) (l : Lecturer) (list : List Key)
        → is_from_ranking w.phase ≡ true
        → IsRanking (map student_key (applicants_of w l.row.key)) list
        → ranking_fault (lecturer_sees w l).applicants list ≡ None }
    ensures lecturers { (v : OfficeSees) (rows : List LecturerRow)
        → AreFresh (lecturer_roll v) v.lecturers rows
        → take_rows (lecturer_roll v) 1 v.lecturers rows ≡ Took rows 0 }
    ensures projects { (v : OfficeSees) (rows : List ProjectRow)
        → AreFresh (project_roll v) v.projects rows
        → take_rows (project_roll v) 1 v.projects rows ≡ Took rows 0 }
    ensures students { (v : OfficeSees) (rows : List StudentRow)
        → AreFresh (student_roll v) v.students rows
        → take_rows (student_roll v) 1 v.students rows ≡ Took rows 0 }
{}

/// Law: the refusal of a student's list, a ranking or a roll reports the first fault and its kind.
/// A missing applicant is reported at position 0, and only if no position has a fault. A full roll
/// is reported without a row.
pub fn least_is_told()
    ensures choices { (catalogue : List Listing) (list : List Key) (fault : ListFault)
        → choice_fault catalogue list ≡ Some fault
        → IsFirstWrong (wrong_choice catalogue) list fault }
    ensures rankings { (applicants : List (Key × List Person)) (list : List Key) (fault : ListFault)
        → ranking_fault applicants list ≡ Some fault
        → IsFirstWrong (wrong_rank applicants) list fault
        ⊎ ((fault ≡ fault_at 0 (codes "missing")) × NoneWrong (wrong_rank applicants) list
        × (lacks_one applicants list ≡ true)) }
    ensures lecturers { (v : OfficeSees) (rows : List LecturerRow) (fault : RollRefusal)
        → take_rows (lecturer_roll v) 1 v.lecturers rows ≡ Faulty fault
        → IsFirstRefused (lecturer_roll v) v.lecturers rows fault }
    ensures projects { (v : OfficeSees) (rows : List ProjectRow) (fault : RollRefusal)
        → take_rows (project_roll v) 1 v.projects rows ≡ Faulty fault
        → IsFirstRefused (project_roll v) v.projects rows fault }
    ensures students { (v : OfficeSees) (rows : List StudentRow) (fault : RollRefusal)
        → take_rows (student_roll v) 1 v.students rows ≡ Faulty fault
        → IsFirstRefused (student_roll v) v.students rows fault }
{}

/// Law: in a good world, the catalogue shows exactly the projects that take part in the round.
pub fn catalogue_whole()
    ensures { (w : World) → Good w
        → map (λ (l : Listing). l.key) (catalogue w)
        ≡ map (λ (p : ProjectRow). p.key) (in_play w).projects }
{}

/// Law: the rows that take part in a good world's round form a good world with the same instance.
pub fn played_alone()
    ensures { (w : World) → Good w
        → Good (alone (in_play w)) × (instance (alone (in_play w)) ≡ instance w) }
{}

/// Law: take two runs without a 503 that differ at most in the order within students' lists, stored
/// or submitted. Their replies are equal up to and including the first accepted move to published.
/// Replies that contain a student's list are excepted.
pub fn places_unseen()
    ensures { (v w : World) (asked others : List Request) (told said : List Answer)
        (after later : List World)
        → SameUpToListOrder v w → AllZip SameRequest asked others
        → Run v asked told after → AllAnswered told → Run w others said later → AllAnswered said
        → AlikeUntilPublished asked told told said }
{}

/// Law: in a good world, a known code identifies its owner and role, an unknown code nobody.
pub fn named_by_code()
    ensures office { (w : World) → Good w → view w w.office ≡ sees.Office (office_sees w) }
    ensures lecturers { (w : World) → Good w
        → AllByRecursion (λ l. view w l.row.code ≡ sees.Lecturer (lecturer_sees w l)) w.lecturers }
    ensures students { (w : World) → Good w
        → AllByRecursion (λ s. view w s.row.code ≡ sees.Student (student_sees w s)) w.students }
    ensures others { (w : World) (c : Key) → Good w → has (codes_of w) c ≡ false
        → view w c ≡ sees.Nobody }
{}

/// Law: the replies in a small example world, worked out.
pub fn worked_replies()
    ensures applicants { TellsApplicants }
    ensures moves { TellsMoves }
    ensures result { TellsResult }
    ensures opening { TellsOpening }
{}
