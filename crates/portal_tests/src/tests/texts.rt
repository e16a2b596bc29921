//! Tests the text of the status of the worked world.

use crate::tests::rows::{add, code, key, lecturers, pairs, students};
use portal_core::{OfficeView, Phase, Round};
use portal_reports::status_text;
use portal_rolls::read_projects;
use std::process::Abort;
use std::rc::Rc;

/// Wraps rows so that a view can share them.
fn shared<X: Drop>(rt: &(impl Abort + AllocGlobal), rows: Vec<X>) -> Rc<Vec<X>> {
    Rc::new(rt.alloc(), rows).expect(rt, "memory")
}

/// Returns the office's view of the published worked world, with this round in it.
fn worked(rt: &(impl Abort + AllocGlobal), round: Round) -> OfficeView {
    let text = b"id,lecturer,title,capacity\nP1,L1,Tides,1\nP2,L1,Kites,1\nP3,L2,Bells,1\n";
    let projects = read_projects(rt.alloc(), text).expect(rt, "a roll");
    let mut without_list = Vec::new(rt.alloc());
    add(rt, &mut without_list, key(rt, "S3"));
    OfficeView {
        round,
        phase: Phase::Published,
        office_code: code(rt, "office-code-0"),
        lecturers: shared(rt, lecturers(rt, 1)),
        projects: shared(rt, projects),
        students: shared(rt, students(rt, "ann-code-1")),
        catalogue: shared(rt, Vec::new(rt.alloc())),
        without_list,
        still_to_rank: Vec::new(rt.alloc()),
        pairs: pairs(rt, &[("S1", "P2"), ("S2", "P1")]),
    }
}

/// The text of the worked world with each round in it.
const TEXTS: &[(Round, &str)] = &[
    (
        Round::First,
        "phase           published\nlecturers            2\nprojects             3\nstudents             3\nwithout list         1\nstill to rank        0\nassigned             2\n",
    ),
    (
        Round::Second,
        "phase           published\nround                2\nlecturers            2\nprojects             3\nstudents             3\nwithout list         1\nstill to rank        0\nassigned             2\n",
    ),
];

#[test]
fn the_state_of_each_round_as_text(rt: HostRuntime) {
    for (round, wanted) in TEXTS {
        let text = status_text(rt.alloc(), &worked(&rt, *round)).expect(&rt, "memory");
        assert!(rt; text.as_slice() == wanted.as_bytes(), "{wanted}");
    }
}
