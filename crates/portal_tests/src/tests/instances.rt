//! Tests the reading of instance files.

use crate::tests::readers::is_fault;
use portal_rolls::{RollFault, read_instance};
use spa_rows::{InstanceRows, PairLine};
use std::process::Abort;

/// Checks that there are one lecturer, two projects and one student, who lists both, and one pair,
/// of the fifth row.
fn are_rows(rt: &impl Abort, rows: &InstanceRows, pairs: &[PairLine]) {
    assert!(rt; rows.lecturers.len() == 1);
    assert!(rt; rows.projects.len() == 2);
    assert!(rt; rows.students.len() == 1);
    assert!(rt; rows.students[0].list.len() == 2);
    assert!(rt; pairs.len() == 1);
    let pair = &pairs[0];
    assert!(rt; pair.row == 5);
}

#[test]
fn rows_of_a_file(rt: HostRuntime) {
    let text = b"kind,key,value,list\nL,L1,1,S1\nP,P1,1,L1\nP,P2,1,L1\nS,S1,,P1 P2\nM,S1,P2,\n";
    let file = read_instance(rt.alloc(), text).expect(&rt, "an instance");
    are_rows(&rt, &file.0, &file.1);
}

/// Files, and the fault of each.
const FILES: &[(&[u8], RollFault)] = &[
    (b"", RollFault::NoHeader),
    (b"kind,key\n", RollFault::BadHeader),
    (b"kind,key,value,list\nL,L1,1\n", RollFault::FieldCount(1)),
    (
        b"kind,key,value,list\nL,L1,1,\nX,\xff,1,\n",
        RollFault::NotText(2),
    ),
    (b"kind,key,value,list\nX,L1,1,\n", RollFault::BadField(1, 1)),
    (b"kind,key,value,list\nL,L1,x,\n", RollFault::BadField(1, 3)),
    (
        b"\xef\xbb\xbfkind,key,value,list\r\nM,S1,P1,x\r\n",
        RollFault::BadField(1, 4),
    ),
];

#[test]
fn faults(rt: HostRuntime) {
    for (text, fault) in FILES {
        let found = read_instance(rt.alloc(), *text).err();
        is_fault(&rt, found, Some(*fault), *text);
    }
    let text = b"kind,key,value,list\nL,L1,1,\n";
    is_fault(&rt, read_instance(rt.alloc(), text).err(), None, text);
}
