//! Builds instances and matchings from records.

use super::chance::add;
use super::plain::Places;
use portal_rolls::read_instance;
use spa_model::{Instance, InstanceRows, Matching, PairLine};
use std::fmt::{Debug, Display};
use std::process::Abort;

/// Two students who both list both projects. Each project has its own lecturer.
pub(crate) const TWO_LECTURERS: &str =
    "L,L1,2,S2 S1\nL,L2,1,S1 S2\nP,P1,1,L1\nP,P2,1,L2\nS,S1,,P1 P2\nS,S2,,P2 P1\n";

/// Two students who list one project each. One lecturer offers both, and takes one student.
pub(crate) const ONE_LECTURER: &str = "L,L1,1,S2 S1\nP,P1,1,L1\nP,P2,1,L1\nS,S1,,P1\nS,S2,,P2\n";

/// Two students and two lecturers, with two stable matchings.
pub(crate) const TWO_STABLE: &str =
    "L,L1,1,S2 S1\nL,L2,1,S1 S2\nP,P1,1,L1\nP,P2,1,L2\nS,S1,,P1 P2\nS,S2,,P2 P1\n";

/// Three students who list one project, with room for all. Its lecturer takes two students.
pub(crate) const FULL_LECTURER: &str = "L,L1,2,S3 S1 S2\nP,P1,5,L1\nS,S1,,P1\nS,S2,,P1\nS,S3,,P1\n";

/// Checks what must be so, and shows the text or number if it is not.
pub(crate) fn is_so(rt: &impl Abort, so: bool, shown: impl Display + Drop) {
    assert!(rt; so, "{shown}");
}

/// Checks that the value is the wanted one, and shows both and the text if it is not.
pub(crate) fn is_same<X: PartialEq + Debug>(rt: &impl Abort, found: &X, wanted: &X, text: &str) {
    assert_eq!(rt; found, wanted, "{text}");
}

/// Reads the rows of the records, numbered from 1, and the pairs.
pub(crate) fn read(
    rt: &(impl Abort + AllocGlobal),
    records: &str,
) -> (InstanceRows, Vec<PairLine>) {
    let text = format!(in rt.alloc(); "kind,key,value,list\n{records}").expect(rt, "memory");
    read_instance(rt.alloc(), text.as_bytes()).expect(rt, "records")
}

/// Builds the instance of the records.
pub(crate) fn instance_of(rt: &(impl Abort + AllocGlobal), records: &str) -> Instance {
    let (rows, _) = read(rt, records);
    Instance::build(rt.alloc(), rows).expect(rt, "an instance")
}

/// Reads the pairs of the records.
pub(crate) fn pairs_of(rt: &(impl Abort + AllocGlobal), records: &str) -> Vec<PairLine> {
    let (_, pairs) = read(rt, records);
    pairs
}

/// Builds the matching of the pairs in the records.
pub(crate) fn matching_of(
    rt: &(impl Abort + AllocGlobal),
    instance: &Instance,
    records: &str,
) -> Matching {
    let pairs = pairs_of(rt, records);
    Matching::build(rt.alloc(), instance, pairs).expect(rt, "a matching")
}

/// Checks that the matching fits the instance, and returns the project of each student.
pub(crate) fn projects_of(
    rt: &(impl Abort + AllocGlobal),
    instance: &Instance,
    matching: &Matching,
) -> Places {
    assert!(rt; instance.fits(matching));
    let mut projects = Vec::new(rt.alloc());
    for s in 0..instance.students() {
        add(rt, &mut projects, instance.project_of(matching, s));
    }
    projects
}
