//! Tests the second round of a small department, opened by the office or made from rows.

use crate::tests::portal::{OFFICE, Portal};
use crate::tests::rows::{
    AFTER_FIRST, IN_CHOOSING, IN_RANKING, OPENED, Sketch, add, have_fault, rows_of,
};
use portal_core::{Call, Phase, Round};
use portal_list::{ListKeeper, RowsFault};
use std::process::Abort;

const S1: &str = "ann-code-1";

const S3: &str = "cyr-code-3";

const L1: &str = "lee-code-01";

const L2: &str = "moe-code-02";

/// The catalogue after the opening. The next three are replies to two `Me` calls and to `Status`.
const LEFT: &str =
    "{\"projects\":[{\"capacity\":1,\"id\":\"P3\",\"lecturer\":\"L2\",\"lecturer_name\":\"Moe\",\"title\":\"Bells\"}]}";

const S3_ME: &str =
    "{\"key\":\"S3\",\"name\":\"Cyr\",\"phase\":\"choosing\",\"role\":\"student\",\"round\":2}";

const L1_ME: &str =
    "{\"capacity\":2,\"key\":\"L1\",\"name\":\"Lee\",\"phase\":\"choosing\",\"role\":\"lecturer\",\"round\":2}";

const STATUS: &str =
    "{\"assigned\":2,\"lecturers\":2,\"phase\":\"choosing\",\"projects\":3,\"round\":2,\"still_to_rank\":[],\"students\":3,\"unassigned\":[\"S3\"],\"without_list\":[\"S3\"]}";

/// The first result, as L1 is shown it.
const L1_RESULT: &str =
    "{\"projects\":[{\"id\":\"P1\",\"students\":[{\"key\":\"S2\",\"name\":\"Roe, Bea\"}]},{\"id\":\"P2\",\"students\":[{\"key\":\"S1\",\"name\":\"Ann\"}]}]}";

/// The replies to `Applicants` of L1 and L2 in the second round's ranking.
const L1_APPLICANTS: &str =
    "{\"projects\":[{\"applicants\":[],\"id\":\"P1\"},{\"applicants\":[],\"id\":\"P2\"}]}";

const L2_APPLICANTS: &str =
    "{\"projects\":[{\"applicants\":[{\"key\":\"S3\",\"name\":\"Cyr\"}],\"id\":\"P3\"}]}";

/// The status when the second round is published.
const PLAYED: &str =
    "{\"assigned\":3,\"lecturers\":2,\"phase\":\"published\",\"projects\":3,\"round\":2,\"still_to_rank\":[],\"students\":3,\"unassigned\":[],\"without_list\":[]}";

const WRONG_PHASE: &str = "{\"error\":\"wrong_phase\"}";

/// The published first round, and the opened second one.
const FIRST: &Sketch = &AFTER_FIRST;

const SECOND: &Sketch = &OPENED;

/// Checks the reply when the student with this code chooses these projects.
fn chooses(
    rt: &(impl Abort + AllocGlobal),
    portal: &mut Portal,
    code: &str,
    keys: &[&str],
    status: u16,
    reply: &str,
) {
    let mut list = Vec::new(rt.alloc());
    for key in keys {
        let text = key.as_bytes().to_vec(rt.alloc());
        add(rt, &mut list, text.expect(rt, "memory"));
    }
    portal.answers(rt, code, Call::SetChoices(list), status, reply);
}

/// Checks that the office may not move to this phase of this round.
fn is_refused(
    rt: &(impl Abort + AllocGlobal),
    portal: &mut Portal,
    phase: Phase,
    round: Option<Round>,
) {
    portal.answers(rt, OFFICE, Call::Move { phase, round }, 409, WRONG_PHASE);
}

/// Opens the second round as the office.
fn opens(rt: &(impl Abort + AllocGlobal), portal: &mut Portal) {
    let reply = "{\"phase\":\"choosing\",\"round\":2}";
    let (phase, round) = (Phase::Choosing, Some(Round::Second));
    portal.answers(rt, OFFICE, Call::Move { phase, round }, 200, reply);
}

/// Checks what each role is shown when the second round begins.
fn is_offered(rt: &(impl Abort + AllocGlobal), portal: &mut Portal) {
    for code in [OFFICE, L1, S1, S3] {
        portal.answers(rt, code, Call::Catalogue, 200, LEFT);
    }
    portal.answers(rt, S3, Call::Me, 200, S3_ME);
    portal.answers(rt, S1, Call::Result, 200, "{\"project\":\"P2\"}");
    portal.answers(rt, S1, Call::ShowChoices, 200, "{\"projects\":[]}");
    portal.answers(rt, S3, Call::Result, 200, "{\"project\":null}");
    portal.answers(rt, L1, Call::Me, 200, L1_ME);
    portal.answers(rt, L1, Call::Result, 200, L1_RESULT);
    portal.answers(rt, OFFICE, Call::Status, 200, STATUS);
}

#[test]
fn the_office_opens_the_second_round(rt: HostRuntime) {
    is_offered(&rt, &mut Portal::of(&rt, SECOND));
    let mut portal = Portal::of(&rt, FIRST);
    is_refused(&rt, &mut portal, Phase::Choosing, None);
    is_refused(&rt, &mut portal, Phase::Choosing, Some(Round::First));
    is_refused(&rt, &mut portal, Phase::Ranking, Some(Round::Second));
    is_refused(&rt, &mut portal, Phase::Published, Some(Round::Second));
    opens(&rt, &mut portal);
    is_offered(&rt, &mut portal);
    is_refused(&rt, &mut portal, Phase::Published, None);
    is_refused(&rt, &mut portal, Phase::Published, Some(Round::First));
    opens(&rt, &mut portal);
}

/// Unpublished first rounds, and the phase of a second one to which each may not move.
const UNPUBLISHED: &[(Sketch, Phase)] = &[
    (IN_CHOOSING, Phase::Ranking),
    (IN_RANKING, Phase::Choosing),
];

#[test]
fn an_unpublished_round_is_followed_by_none(rt: HostRuntime) {
    for (sketch, phase) in UNPUBLISHED {
        let portal = &mut Portal::of(&rt, sketch);
        is_refused(&rt, portal, *phase, Some(Round::Second));
    }
}

/// Checks that only a student without a project may choose, and only what is left.
fn is_chosen(rt: &(impl Abort + AllocGlobal), portal: &mut Portal) {
    chooses(rt, portal, S1, &[], 409, "{\"error\":\"already_placed\"}");
    let unknown = "{\"at\":1,\"error\":\"bad_list\",\"fault\":\"unknown_project\"}";
    chooses(rt, portal, S3, &["P1"], 422, unknown);
    chooses(rt, portal, S3, &["P3"], 200, "{\"projects\":[\"P3\"]}");
    let ranking = "{\"phase\":\"ranking\",\"round\":2}";
    let (phase, round) = (Phase::Ranking, None);
    portal.answers(rt, OFFICE, Call::Move { phase, round }, 200, ranking);
    chooses(rt, portal, S1, &[], 409, WRONG_PHASE);
}

/// Checks what is shown in the second round's ranking, and publishes it once it is filled in.
fn is_ranked(rt: &(impl Abort + AllocGlobal), portal: &mut Portal) {
    portal.answers(rt, S3, Call::Result, 200, "{\"project\":null}");
    portal.answers(rt, L1, Call::Result, 200, L1_RESULT);
    portal.answers(rt, L2, Call::Applicants, 200, L2_APPLICANTS);
    portal.answers(rt, L1, Call::Applicants, 200, L1_APPLICANTS);
    let missing = "{\"error\":\"still_to_rank\",\"lecturers\":[\"L2\"]}";
    let (phase, round) = (Phase::Published, None);
    portal.answers(rt, OFFICE, Call::Move { phase, round }, 409, missing);
    portal.answers(rt, OFFICE, Call::FillRankings, 200, "{\"filled\":[\"L2\"]}");
    portal.answers(rt, L2, Call::ShowRanking, 200, "{\"students\":[\"S3\"]}");
    let published = "{\"phase\":\"published\",\"round\":2}";
    portal.answers(rt, OFFICE, Call::Move { phase, round }, 200, published);
}

#[test]
fn the_second_round_is_played(rt: HostRuntime) {
    let mut portal = Portal::of(&rt, FIRST);
    opens(&rt, &mut portal);
    is_chosen(&rt, &mut portal);
    is_ranked(&rt, &mut portal);
    portal.answers(&rt, S3, Call::Result, 200, "{\"project\":\"P3\"}");
    portal.answers(&rt, S1, Call::Result, 200, "{\"project\":\"P2\"}");
    portal.answers(&rt, OFFICE, Call::Status, 200, PLAYED);
}

/// A published second round.
const PUBLISHED: Sketch = Sketch {
    phase: Phase::Published,
    choices: &[("S1", &[]), ("S2", &[]), ("S3", &["P3"])],
    rankings: &[("L2", &["S3"])],
    pairs: &[("S3", "P3")],
    ..OPENED
};

const LAST: &Sketch = &PUBLISHED;

/// Rows of no second round.
const BAD: &[Sketch] = &[
    Sketch {
        phase: Phase::Setup,
        ..OPENED
    },
    Sketch {
        choices: &[("S1", &[]), ("S2", &[]), ("S3", &["P1"])],
        ..OPENED
    },
    Sketch {
        choices: &[("S1", &["P3"]), ("S2", &[]), ("S3", &[])],
        ..OPENED
    },
    Sketch {
        earlier_choices: &[("S1", &["P1", "P2"]), ("S2", &["P1", "P3"])],
        ..OPENED
    },
    Sketch {
        earlier_choices: &[("S1", &["P1", "P1"]), ("S2", &["P1", "P3"]), ("S3", &[])],
        ..OPENED
    },
    Sketch {
        earlier_rankings: &[("L1", &["S2", "S1"])],
        ..OPENED
    },
    Sketch {
        earlier_pairs: &[("S1", "P2")],
        ..AFTER_FIRST
    },
    Sketch {
        pairs: &[("S1", "P3"), ("S3", "P3")],
        ..PUBLISHED
    },
];

/// Rows of a sound world that is not good.
const NOT_GOOD: &[Sketch] = &[
    Sketch {
        earlier_pairs: &[("S1", "P1"), ("S2", "P3")],
        ..OPENED
    },
    Sketch {
        earlier_pairs: &[("S1", "P3"), ("S2", "P1")],
        ..OPENED
    },
    Sketch {
        pairs: &[],
        ..PUBLISHED
    },
];

#[test]
fn rows_of_no_second_round_are_refused(rt: HostRuntime) {
    have_fault(&rt, BAD, Some(RowsFault::NotGood));
}

/// Returns whether a keeper of the sketch's rows has a good world.
fn is_good(rt: &(impl Abort + AllocGlobal), sketch: &Sketch) -> bool {
    let keeper = ListKeeper::from_rows(rt.alloc(), rows_of(rt, sketch)).expect(rt, "a keeper");
    keeper.is_good(rt.alloc()).expect(rt, "memory")
}

#[test]
fn a_round_that_is_not_good_is_told(rt: HostRuntime) {
    assert!(rt; is_good(&rt, SECOND));
    for at in 0..NOT_GOOD.len() {
        assert!(rt; !is_good(&rt, &NOT_GOOD[at]), "at {at}");
    }
}

#[test]
fn a_published_second_round_is_taken(rt: HostRuntime) {
    let project = "{\"project\":\"P3\"}";
    Portal::of(&rt, LAST).answers(&rt, S3, Call::Result, 200, project);
}
