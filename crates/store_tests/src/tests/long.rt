//! Plays long years by `Desk::respond`, with twenty rows in each roll, and a student who asks 1,000
//! times.

use crate::tests::steps::{new_desk, new_lists};
use portal_core::Keeper;
use portal_desk::Desk;
use portal_fixtures::{Line, lines, reply_to_line};
use std::process::Abort;

/// The numbers of the students, the projects and the lecturers.
const NUMBERS: [&str; 20] = [
    "01", "02", "03", "04", "05", "06", "07", "08", "09", "10", "11", "12", "13", "14", "15", "16",
    "17", "18", "19", "20",
];

/// The first ten numbers. `OTHER_TEN` has the others.
const FIRST_TEN: [&str; 10] = ["01", "02", "03", "04", "05", "06", "07", "08", "09", "10"];

const OTHER_TEN: [&str; 10] = ["11", "12", "13", "14", "15", "16", "17", "18", "19", "20"];

/// Repeats the template for each number, which replaces each `#`.
fn each(rt: &(impl Abort + AllocGlobal), template: &str, numbers: &[&str]) -> String {
    let mut text = String::new(rt.alloc());
    for number in numbers {
        let one = template
            .replace(rt.alloc(), "#", number)
            .expect(rt, "memory");
        text.push_str(one.as_str()).expect(rt, "memory");
    }
    text
}

/// Checks that the line's request gets its reply from `Desk::respond`.
fn answers<K: Keeper>(rt: &(impl Abort + AllocGlobal), desk: &mut Desk<K>, line: &Line) {
    let found = reply_to_line(rt.alloc(), desk, line).expect(rt, "memory");
    let wanted = line.reply(rt.alloc()).expect(rt, "memory");
    assert!(rt; found.as_slice() == wanted.as_bytes(), "{}", line.text);
}

/// Checks so each line of the scripts.
fn plays<K: Keeper>(rt: &(impl Abort + AllocGlobal), desk: &mut Desk<K>, scripts: &[&str]) {
    for script in scripts {
        for line in &lines(rt.alloc(), script).expect(rt, "memory") {
            answers(rt, desk, line);
        }
    }
}

/// Returns a line that uploads a roll of twenty rows.
fn loads(rt: &(impl Abort + AllocGlobal), request: &str, row: &str) -> String {
    let rows = each(rt, row, &NUMBERS);
    let line = format!(in rt.alloc(); "office  POST /rolls/{request}\\n{rows}  200 {ADDED}\n");
    line.expect(rt, "memory")
}

const ADDED: &str = r#"{"added":20,"same":0}"#;

/// Uploads the three rolls. Each lecturer offers one project.
fn loads_all<K: Keeper>(rt: &(impl Abort + AllocGlobal), desk: &mut Desk<K>) {
    let lecturers = loads(
        rt,
        "lecturers id,name,code,capacity",
        r"L#,L#,lect-code-#,1\n",
    );
    let projects = loads(rt, "projects id,lecturer,title,capacity", r"P#,L#,P#,1\n");
    let students = loads(rt, "students id,name,code", r"S#,S#,stud-code-#\n");
    let scripts = [lecturers.as_str(), projects.as_str(), students.as_str()];
    plays(rt, desk, &scripts);
}

/// Moves to this phase as the office.
fn moves<K: Keeper>(rt: &(impl Abort + AllocGlobal), desk: &mut Desk<K>, phase: &str) {
    let line = format!(in rt.alloc(); "office  POST /phase {phase}  200 {phase}");
    plays(rt, desk, &[line.expect(rt, "memory").as_str()]);
}

/// Submits the same list for each of these numbers.
fn puts_all<K: Keeper>(
    rt: &(impl Abort + AllocGlobal),
    desk: &mut Desk<K>,
    request: &str,
    numbers: &[&str],
    list: &str,
) {
    let line = format!(in rt.alloc(); "{request} {list}  200 {list}\n").expect(rt, "memory");
    plays(rt, desk, &[each(rt, line.as_str(), numbers).as_str()]);
}

/// The request that submits a student's list. `RANKS` submits a lecturer's ranking.
const CHOOSES: &str = "stud-code-#  PUT /choices";

const RANKS: &str = "lect-code-#  PUT /ranking";

/// Each list, and the reply to it.
const LIST: &str =
    r#"{"projects":["P01","P02","P03","P04","P05","P06","P07","P08","P09","P10","P11","P12","P13","P14","P15","P16","P17","P18","P19","P20"]}"#;

/// Each ranking, and the reply to it.
const RANKING: &str =
    r#"{"students":["S01","S02","S03","S04","S05","S06","S07","S08","S09","S10","S11","S12","S13","S14","S15","S16","S17","S18","S19","S20"]}"#;

/// Asks 1,000 times for the first student's result.
fn asks_on<K: Keeper>(rt: &(impl Abort + AllocGlobal), desk: &mut Desk<K>) {
    let line = Line::new(r#"stud-code-01  GET /result  200 {"project":"P01"}"#);
    for _ in 0..1_000 {
        answers(rt, desk, &line);
    }
}

/// Checks that each student has the project of the same number.
fn have_all<K: Keeper>(rt: &(impl Abort + AllocGlobal), desk: &mut Desk<K>) {
    let line = "stud-code-#  GET /result  200 {\"project\":\"P#\"}\n";
    plays(rt, desk, &[each(rt, line, &NUMBERS).as_str()]);
}

/// Plays a year of one round.
fn runs<K: Keeper + Drop>(rt: &(impl Abort + AllocGlobal), desk: Desk<K>) {
    let mut desk = desk;
    let desk = &mut desk;
    loads_all(rt, desk);
    moves(rt, desk, r#"{"phase":"choosing"}"#);
    puts_all(rt, desk, CHOOSES, &NUMBERS, LIST);
    moves(rt, desk, r#"{"phase":"ranking"}"#);
    puts_all(rt, desk, RANKS, &NUMBERS, RANKING);
    moves(rt, desk, r#"{"phase":"published"}"#);
    asks_on(rt, desk);
    have_all(rt, desk);
}

/// Each ranking of a first round in which only ten students choose.
const FIRST_RANKING: &str =
    r#"{"students":["S01","S02","S03","S04","S05","S06","S07","S08","S09","S10"]}"#;

/// Each list of the second round: the projects that the first has left.
const SECOND_LIST: &str =
    r#"{"projects":["P11","P12","P13","P14","P15","P16","P17","P18","P19","P20"]}"#;

/// Each ranking of the second round.
const SECOND_RANKING: &str =
    r#"{"students":["S11","S12","S13","S14","S15","S16","S17","S18","S19","S20"]}"#;

/// Plays a year in which ten students get a project in the first round and ten in the second.
fn runs_twice<K: Keeper + Drop>(rt: &(impl Abort + AllocGlobal), desk: Desk<K>) {
    let mut desk = desk;
    let desk = &mut desk;
    loads_all(rt, desk);
    moves(rt, desk, r#"{"phase":"choosing"}"#);
    puts_all(rt, desk, CHOOSES, &FIRST_TEN, LIST);
    moves(rt, desk, r#"{"phase":"ranking"}"#);
    puts_all(rt, desk, RANKS, &NUMBERS, FIRST_RANKING);
    moves(rt, desk, r#"{"phase":"published"}"#);
    moves(rt, desk, r#"{"phase":"choosing","round":2}"#);
    puts_all(rt, desk, CHOOSES, &OTHER_TEN, SECOND_LIST);
    moves(rt, desk, r#"{"phase":"ranking","round":2}"#);
    puts_all(rt, desk, RANKS, &OTHER_TEN, SECOND_RANKING);
    moves(rt, desk, r#"{"phase":"published","round":2}"#);
    asks_on(rt, desk);
    have_all(rt, desk);
}

#[test]
fn a_long_run_of_two_rounds(rt: HostRuntime) {
    runs_twice(&rt, new_desk(&rt));
    runs_twice(&rt, new_lists(&rt));
}

#[test]
fn a_long_run(rt: HostRuntime) {
    runs(&rt, new_desk(&rt));
    runs(&rt, new_lists(&rt));
}
