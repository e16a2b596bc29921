//! Laws of stable matchings: best ones exist, honest lists are best, waiting never pays.
//! Those of `specs/ByNumber` are lemmas for the laws of worlds in `portal_core`.

ghost use Rattle.std.specs.Prelude.{◌≡◌, ◌↔◌, ℕ, ◌∷◌, [], Some, None};
ghost use Rattle.spa_model.specs.Spa.{Blocks, IsBest, IsLawful, IsStable};
ghost use Rattle.spa_model.specs.declared.letter.Letter.TheVariants.{C};
ghost use Rattle.spa_honest.specs.Honest.{SameAssigned, BestThereIs, OrderHonestly, WhyNot};
ghost use Rattle.spa_honest.specs.Honest.{BlockedOutside, DropoutStaysLocal, LecturersWorst};
ghost use Rattle.spa_honest.specs.Honest.{NobodyGains, HasRoom, MoreRoomNeverHarms};
ghost use Rattle.spa_honest.specs.Honest.{MorePlacesNeverHarm, NoRankingPays, first_with};
ghost use Rattle.spa_honest.specs.ByNumber.{HonestIsBest, LeftFindsNone, WaitingNeverPays};
ghost use Rattle.spa_honest.specs.ByNumber.{NoGroupGains, NoGroupGainsOverBoth};
ghost use Rattle.spa_honest.specs.ByNumber.{ShorterNeverHarm};
ghost use Rattle.spa_honest.specs.examples.Example.{bells, example, honest_list, kites, safe_list};
ghost use Rattle.spa_honest.specs.examples.Example.{cem, short_list, tides};
ghost use Rattle.spa_honest.specs.examples.Varied.{ben_first, judged, lee, popular_alone};
ghost use Rattle.spa_honest.specs.examples.Varied.{popular_first, ranked, swap, two_ways};
ghost use Rattle.spa_honest.specs.examples.Waiting.{at_once, second_alone, waiting};

/// Law: all stable matchings of an instance assign the same students, and equally many to each
/// lecturer. So the choice of a stable matching does not decide who gets no project. A project of a
/// lecturer with room has as many students in all of them; if it has room too, the same ones.
pub fn same_assigned()
    ensures { SameAssigned }
{}

/// Law: each lawful instance has a student-optimal stable matching.
pub fn best_there_is()
    ensures { BestThereIs }
{}

/// Law: what is best for the students is worst for the lecturers. Of the first k students whom a
/// lecturer ranks, for each k, every stable matching gives the lecturer at least as many.
pub fn lecturers_worst()
    ensures { LecturersWorst }
{}

/// Law: suppose that a matching gives a student a better project than the best stable one does.
/// Some student to whom it gives nothing better blocks it. So two students who like to swap may
/// not.
pub fn blocked_outside()
    ensures { BlockedOutside }
{}

/// Law: if a student drops out of a stable matching, and all others keep their projects, any pair
/// of another student that blocks then is at a project of the lecturer whom the student had.
pub fn dropout_stays_local()
    ensures { DropoutStaysLocal }
{}

/// Law: in an instance, judged by the honest list, no other list gives a student a better project.
/// This holds whatever the other students list. Each lecturer has to order the same students alike.
pub fn honest_is_best()
    ensures { HonestIsBest }
{}

/// Law: each project that a student would rather have than what a stable matching gives, if it
/// gives one, is full, or its lecturer is.
pub fn left_finds_none()
    ensures { LeftFindsNone }
{}

/// Law: a student of an instance gains nothing by waiting. Suppose that a stable matching gives the
/// student no project, whatever the student listed. Judged by the honest list, no project that
/// still has room is better than what the honest list gives.
pub fn waiting_never_pays()
    ensures { WaitingNeverPays }
{}

/// Law: in an instance, no lists that a group submits give every member a better project. At least
/// one member gets nothing better than with honest lists, judged by that member's honest list. Each
/// lecturer has to order the same students alike.
pub fn no_group_gains()
    ensures { NoGroupGains }
{}

/// Law: nor do they over both rounds, whoever of the group waits. A second round may place those
/// whom the first left wherever there is room, by any lists and rankings. Some member still gets
/// nothing better than with honest lists in the first round, judged by that member's honest list.
pub fn no_group_gains_over_both()
    ensures { NoGroupGainsOverBoth }
{}

/// Law: of all lists of the same projects, or of some of them, the honest order is best for a
/// student. So whoever likes more projects than a list holds orders the listed ones honestly.
pub fn order_honestly()
    ensures { OrderHonestly }
{}

/// Law: a matching is stable exactly if there is a reason for each project that a student would
/// rather have. It is full, and its lecturer ranks each student there higher; or its lecturer is
/// full, and ranks each own student higher.
pub fn why_not()
    ensures { WhyNot }
{}

/// Law: students whose lists lose some last entries, or all, harm nobody else. With the whole
/// lists, no stable matching gives a student who keeps the own list a better project. Each lecturer
/// has to order the same students alike.
pub fn shorter_never_harm()
    ensures { ShorterNeverHarm }
{}

/// Law: more places give no student a worse project, if each lecturer's limit grows by at least as
/// many as the own projects together. A limit that is no bar to the own projects need not grow.
pub fn more_room_never_harms()
    ensures { MoreRoomNeverHarms }
{}

/// Law: more places at a project, and none for its lecturer, may give a student a worse project. In
/// the example, let Ann list Tides, then Bells, and let Tides get a second place. Ann moves there,
/// and Cem, whom Lee ranks last, loses Kites to the limit.
pub fn more_places_may_harm()
    ensures { MorePlacesNeverHarm → ⊥ }
{}

/// Law: one member of a group may gain by dishonest lists. In the example, Ann puts Bells first and
/// gets it, although it is her last choice. Cem then gets Kites.
pub fn one_may_gain()
    ensures { NobodyGains → ⊥ }
{}

/// Law: a lecturer may gain by a dishonest ranking. In the example, Lee judges Ann first, then Ben,
/// then Cem, and gets Ann and Cem. With Ben put first, Lee gets Ann and Ben. If Ann lists only
/// Tides, that ranking costs Lee Ann.
pub fn a_ranking_may_pay()
    ensures pays { NoRankingPays → ⊥ }
    ensures lawful { IsLawful (ranked popular_first judged)
        × IsLawful (ranked popular_first ben_first) × IsLawful (ranked popular_alone judged)
        × IsLawful (ranked popular_alone ben_first) }
    ensures honest { IsBest (ranked popular_first judged) (Some tides ∷ None ∷ Some kites ∷ []) }
    ensures dishonest { IsBest (ranked popular_first ben_first)
        (Some kites ∷ Some tides ∷ Some bells ∷ []) }
    ensures honest_alone { IsBest (ranked popular_alone judged)
        (Some tides ∷ None ∷ Some kites ∷ []) }
    ensures dishonest_alone { IsBest (ranked popular_alone ben_first)
        (None ∷ Some tides ∷ Some kites ∷ []) }
{}

/// Law: in an example with two stable matchings, the students' best gives Lee Ann at Kites. The
/// other one gives Lee Ben, whom Lee ranks first, at Tides.
pub fn two_ways_example()
    ensures lawful { IsLawful two_ways }
    ensures best { IsBest two_ways (Some kites ∷ Some bells ∷ None ∷ []) }
    ensures other { IsStable two_ways (Some bells ∷ Some tides ∷ None ∷ []) }
    ensures first { (first_with two_ways (Some kites ∷ Some bells ∷ None ∷ []) lee 1 ≡ 0)
        × (first_with two_ways (Some bells ∷ Some tides ∷ None ∷ []) lee 1 ≡ 1) }
{}

/// Law: in an example, Ann and Ben would both gain by swapping Tides and Bells. Cem, who gets no
/// project either way, then blocks with Tides, since Lee ranks Cem above Ben.
pub fn swap_example()
    ensures lawful { IsLawful swap }
    ensures best { IsBest swap (Some tides ∷ Some bells ∷ None ∷ []) }
    ensures blocked { Blocks swap (Some bells ∷ Some tides ∷ None ∷ []) cem tides C }
{}

/// Law: in the example, the honest list gives Ann Kites. With the safe project first, she gets
/// Bells, her last choice. Without the popular project on the list, she still gets Kites.
pub fn worked_example()
    ensures lawful { IsLawful (example honest_list) × IsLawful (example safe_list)
        × IsLawful (example short_list) }
    ensures honest { IsBest (example honest_list) (Some kites ∷ Some tides ∷ Some bells ∷ []) }
    ensures safe { IsBest (example safe_list) (Some bells ∷ Some tides ∷ Some kites ∷ []) }
    ensures short { IsBest (example short_list) (Some kites ∷ Some tides ∷ Some bells ∷ []) }
{}

/// Law: no law tells a student which projects to list. In the example of waiting, let a list have
/// room for one project. Tides, Ann's first choice, then gives her no project, and Kites, her
/// second, gives her Kites.
pub fn limited_example()
    ensures lawful { IsLawful waiting × IsLawful second_alone }
    ensures first { IsBest waiting (None ∷ Some tides ∷ Some kites ∷ None ∷ []) }
    ensures second { IsBest second_alone (Some kites ∷ Some tides ∷ Some bells ∷ None ∷ []) }
{}

/// Law: in an example of waiting, the honest list gives Ann Kites at once. If she lists only Tides,
/// she gets no project, and only Bells, her last choice, has room.
pub fn waited_example()
    ensures lawful { IsLawful at_once × IsLawful waiting }
    ensures at_once { IsBest at_once (Some kites ∷ Some tides ∷ Some bells ∷ None ∷ []) }
    ensures waiting { IsBest waiting (None ∷ Some tides ∷ Some kites ∷ None ∷ []) }
    ensures room { (p : ℕ) → HasRoom waiting (None ∷ Some tides ∷ Some kites ∷ None ∷ []) p
        ↔ p ≡ bells }
{}
