//! Plays a department at every limit from setup to published.

use crate::tests::portal::{OFFICE, Portal};
use crate::tests::rows::{add, put};
use portal_core::{Call, Phase};
use portal_rolls::{read_lecturers, read_projects, read_students};
use std::process::Abort;

const LECTURERS: u64 = 300;

const PROJECTS: u64 = 1000;

const STUDENTS: u64 = 2000;

const CHOICES: u64 = 20;

/// Returns the student's project at this place of the list.
fn project_of(student: u64, place: u64) -> u64 {
    student.wrapping_mul(7).wrapping_add(place.wrapping_mul(37)) % PROJECTS
}

/// Returns whether the student lists a project of the lecturer.
fn is_applicant(student: u64, lecturer: u64) -> bool {
    for place in 0..CHOICES {
        if project_of(student, place) % LECTURERS == lecturer {
            return true;
        }
    }
    false
}

/// Returns the roll of this many rows. Each begins with the letter and its number. Between the two
/// texts it holds its number, or its lecturer's if it is a project.
fn roll(
    rt: &(impl Abort + AllocGlobal),
    columns: &str,
    letter: char,
    count: u64,
    texts: (&str, &str),
) -> String {
    let (before, after) = texts;
    let mut text = columns.to_string(rt.alloc()).expect(rt, "memory");
    for i in 0..count {
        let n = if letter == 'P' { i % LECTURERS } else { i };
        let row = format!(in rt.alloc(); "{letter}{i},{before}{n}{after}\n");
        put(rt, &mut text, row);
    }
    text
}

/// Returns the key of this letter and number, as a call has it.
fn key(rt: &(impl Abort + AllocGlobal), letter: char, number: u64) -> Vec<u8> {
    let text = format!(in rt.alloc(); "{letter}{number}").expect(rt, "memory");
    text.into_bytes()
}

/// Returns the student's list as a call has it.
fn choice(rt: &(impl Abort + AllocGlobal), student: u64) -> Vec<Vec<u8>> {
    let mut list = Vec::new(rt.alloc());
    for place in 0..CHOICES {
        add(rt, &mut list, key(rt, 'P', project_of(student, place)));
    }
    list
}

/// Returns the lecturer's ranking as a call has it: all applicants, the highest number first.
fn ranking(rt: &(impl Abort + AllocGlobal), lecturer: u64) -> Vec<Vec<u8>> {
    let mut list = Vec::new(rt.alloc());
    for s in (0..STUDENTS).rev() {
        if is_applicant(s, lecturer) {
            add(rt, &mut list, key(rt, 'S', s));
        }
    }
    list
}

/// Sends the rankings of all lecturers or the lists of all students.
fn send(rt: &(impl Abort + AllocGlobal), portal: &mut Portal, word: &str, count: u64, ranks: bool) {
    for i in 0..count {
        let code = format!(in rt.alloc(); "{word}-code-{i}").expect(rt, "memory");
        if ranks {
            portal.accepts(rt, &code, Call::SetRanking(ranking(rt, i)));
        } else {
            portal.accepts(rt, &code, Call::SetChoices(choice(rt, i)));
        }
    }
}

/// Adds the rolls as the office.
fn add_rolls(rt: &(impl Abort + AllocGlobal), portal: &mut Portal) {
    let texts = ("Lee,lect-code-", ",7");
    let text = roll(rt, "id,name,code,capacity\n", 'L', LECTURERS, texts);
    let rows = read_lecturers(rt.alloc(), text.as_bytes()).expect(rt, "a roll of lecturers");
    let reply = r#"{"added":300,"same":0}"#;
    portal.answers(rt, OFFICE, Call::AddLecturers(rows), 200, reply);
    let texts = ("L", ",Tides,2");
    let text = roll(rt, "id,lecturer,title,capacity\n", 'P', PROJECTS, texts);
    let rows = read_projects(rt.alloc(), text.as_bytes()).expect(rt, "a roll of projects");
    let reply = r#"{"added":1000,"same":0}"#;
    portal.answers(rt, OFFICE, Call::AddProjects(rows), 200, reply);
    let texts = ("Ann,stud-code-", "");
    let text = roll(rt, "id,name,code\n", 'S', STUDENTS, texts);
    let rows = read_students(rt.alloc(), text.as_bytes()).expect(rt, "a roll of students");
    let reply = r#"{"added":2000,"same":0}"#;
    portal.answers(rt, OFFICE, Call::AddStudents(rows), 200, reply);
}

/// Moves to this phase as the office.
fn moves(rt: &(impl Abort + AllocGlobal), portal: &mut Portal, phase: Phase) {
    portal.accepts(rt, OFFICE, Call::Move { phase, round: None });
}

#[test]
fn a_department_at_every_limit(rt: HostRuntime) {
    let mut portal = Portal::new(&rt);
    add_rolls(&rt, &mut portal);
    moves(&rt, &mut portal, Phase::Choosing);
    send(&rt, &mut portal, "stud", STUDENTS, false);
    moves(&rt, &mut portal, Phase::Ranking);
    send(&rt, &mut portal, "lect", LECTURERS, true);
    moves(&rt, &mut portal, Phase::Published);
    portal.accepts(&rt, OFFICE, Call::Status);
}
