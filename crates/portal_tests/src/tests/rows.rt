//! Tests keepers in lists that are made from good and bad rows of a database.

use crate::tests::readers::same;
use portal_core::{Code, LecturerRow, Name, Phase, ProjectRow, Round, StudentRow, listings_of};
use portal_list::{ListKeeper, RowsFault, WorldRows};
use portal_rolls::{read_lecturers, read_students};
use spa_rows::Key;
use std::fmt::Debug;
use std::process::Abort;

/// Appends the item to the list.
pub(crate) fn add<X: Drop>(rt: &impl Abort, list: &mut Vec<X>, item: X) {
    list.push(item).expect(rt, "memory");
}

/// Appends a text that was made.
pub(crate) fn put<E: Debug>(rt: &impl Abort, text: &mut String, more: Result<String, E>) {
    let more = more.expect(rt, "memory");
    text.push_str(&more).expect(rt, "memory");
}

/// Parses a key.
pub(crate) fn key(rt: &(impl Abort + AllocGlobal), text: &str) -> Key {
    Key::parse(rt.alloc(), text.as_bytes()).expect(rt, "a key")
}

/// Parses a name.
pub(crate) fn name(rt: &(impl Abort + AllocGlobal), text: &str) -> Name {
    Name::parse(rt.alloc(), text.as_bytes()).expect(rt, "a name")
}

/// Parses a code.
pub(crate) fn code(rt: &(impl Abort + AllocGlobal), text: &str) -> Code {
    Code::parse(rt.alloc(), text.as_bytes()).expect(rt, "a code")
}

fn project(rt: &(impl Abort + AllocGlobal), text: &str, lecturer: &str, title: &str) -> ProjectRow {
    ProjectRow {
        key: key(rt, text),
        lecturer: key(rt, lecturer),
        title: name(rt, title),
        capacity: 1,
    }
}

/// Returns the two lecturers, the second of them with this capacity.
pub(crate) fn lecturers(rt: &(impl Abort + AllocGlobal), capacity: u32) -> Vec<LecturerRow> {
    let text = b"id,name,code,capacity\nL1,Lee,lee-code-01,2\nL2,Moe,moe-code-02,1\n";
    let mut rows = read_lecturers(rt.alloc(), text).expect(rt, "a roll");
    if let Some(second) = rows.get_mut(1) {
        second.capacity = capacity;
    }
    rows
}

fn projects(rt: &(impl Abort + AllocGlobal), keys: &[&str]) -> Vec<ProjectRow> {
    let mut rows = Vec::new(rt.alloc());
    for text in keys {
        add(rt, &mut rows, project(rt, *text, "L1", "Tides"));
    }
    add(rt, &mut rows, project(rt, "P3", "L2", "Bells"));
    rows
}

/// Returns the three students, the first of them with this code.
pub(crate) fn students(rt: &(impl Abort + AllocGlobal), word: &str) -> Vec<StudentRow> {
    let rows = "S2,\"Roe, Bea\",bea-code-2\nS3,Cyr,cyr-code-3\n";
    let text = format!(in rt.alloc(); "id,name,code\nS1,Ann,{word}\n{rows}").expect(rt, "memory");
    read_students(rt.alloc(), text.as_bytes()).expect(rt, "a roll")
}

fn keys(rt: &(impl Abort + AllocGlobal), texts: &[&str]) -> Vec<Key> {
    let mut keys = Vec::new(rt.alloc());
    for text in texts {
        add(rt, &mut keys, key(rt, *text));
    }
    keys
}

type Lists<'a> = &'a [(&'a str, &'a [&'a str])];

fn lists(rt: &(impl Abort + AllocGlobal), owners: Lists) -> Vec<(Key, Vec<Key>)> {
    let mut lists = Vec::new(rt.alloc());
    for (owner, texts) in owners {
        add(rt, &mut lists, (key(rt, *owner), keys(rt, *texts)));
    }
    lists
}

/// Parses pairs of keys.
pub(crate) fn pairs(rt: &(impl Abort + AllocGlobal), places: Pairs) -> Vec<(Key, Key)> {
    let mut pairs = Vec::new(rt.alloc());
    for (student, project) in places {
        add(rt, &mut pairs, (key(rt, *student), key(rt, *project)));
    }
    pairs
}

type Pairs<'a> = &'a [(&'a str, &'a str)];

/// Returns the catalogue of the two lecturers and these projects as a text: the key, the title and
/// the lecturer's name of each listing.
fn catalogue(rt: &(impl Abort + AllocGlobal), projects: &[ProjectRow]) -> String {
    let mut text = String::new(rt.alloc());
    let listings = listings_of(rt.alloc(), &lecturers(rt, 1), projects).expect(rt, "memory");
    for listing in &listings {
        let key = listing.key.as_str();
        let title = listing.title.as_str();
        let lecturer = listing.lecturer_name.as_str();
        let line = format!(in rt.alloc(); "{key} {title} {lecturer}/");
        put(rt, &mut text, line);
    }
    text
}

#[test]
fn the_catalogue_of_rows(rt: HostRuntime) {
    let mut offered = projects(&rt, &["P1"]);
    add(&rt, &mut offered, project(&rt, "P4", "L9", "Gales"));
    let text = catalogue(&rt, &offered);
    same(&rt, text.as_str(), "P1 Tides Lee/P3 Bells Moe/");
}

/// The rows of a world with two lecturers and three students, which tests may spoil.
#[derive(Clone, Copy)]
pub(crate) struct Sketch {
    pub round: Round,
    pub phase: Phase,
    pub capacity: u32,
    pub code: &'static str,
    pub projects: &'static [&'static str],
    pub choices: Lists<'static>,
    pub rankings: Lists<'static>,
    pub pairs: Pairs<'static>,
    pub earlier_choices: Lists<'static>,
    pub earlier_rankings: Lists<'static>,
    pub earlier_pairs: Pairs<'static>,
}

/// The lists, the rankings and the result of the first round.
const CHOICES: Lists<'static> = &[("S1", &["P1", "P2"]), ("S2", &["P1", "P3"]), ("S3", &[])];

const RANKINGS: Lists<'static> = &[("L1", &["S2", "S1"]), ("L2", &["S2"])];

const PAIRS: Pairs<'static> = &[("S1", "P2"), ("S2", "P1")];

/// A published first round.
pub(crate) const AFTER_FIRST: Sketch = Sketch {
    round: Round::First,
    phase: Phase::Published,
    capacity: 1,
    code: "ann-code-1",
    projects: &["P1", "P2"],
    choices: CHOICES,
    rankings: RANKINGS,
    pairs: PAIRS,
    earlier_choices: &[],
    earlier_rankings: &[],
    earlier_pairs: &[],
};

/// A second round in choosing.
pub(crate) const OPENED: Sketch = Sketch {
    round: Round::Second,
    phase: Phase::Choosing,
    choices: &[("S1", &[]), ("S2", &[]), ("S3", &[])],
    rankings: &[],
    pairs: &[],
    earlier_choices: CHOICES,
    earlier_rankings: RANKINGS,
    earlier_pairs: PAIRS,
    ..AFTER_FIRST
};

/// A first round in ranking.
pub(crate) const IN_RANKING: Sketch = Sketch {
    phase: Phase::Ranking,
    pairs: &[],
    ..AFTER_FIRST
};

/// A first round in choosing.
pub(crate) const IN_CHOOSING: Sketch = Sketch {
    phase: Phase::Choosing,
    rankings: &[],
    ..IN_RANKING
};

/// A first round in setup.
const IN_SETUP: Sketch = Sketch {
    phase: Phase::Setup,
    choices: &[("S1", &[]), ("S2", &[]), ("S3", &[])],
    ..IN_CHOOSING
};

/// Builds the rows of the sketch.
pub(crate) fn rows_of(rt: &(impl Abort + AllocGlobal), sketch: &Sketch) -> WorldRows {
    WorldRows {
        round: sketch.round,
        phase: sketch.phase,
        office: code(rt, "office-code-0"),
        lecturers: lecturers(rt, sketch.capacity),
        projects: projects(rt, sketch.projects),
        students: students(rt, sketch.code),
        choices: lists(rt, sketch.choices),
        rankings: lists(rt, sketch.rankings),
        pairs: pairs(rt, sketch.pairs),
        earlier_choices: lists(rt, sketch.earlier_choices),
        earlier_rankings: lists(rt, sketch.earlier_rankings),
        earlier_pairs: pairs(rt, sketch.earlier_pairs),
    }
}

/// Checks that the rows of each sketch are refused with this fault, or make a keeper.
pub(crate) fn have_fault(
    rt: &(impl Abort + AllocGlobal),
    sketches: &[Sketch],
    fault: Option<RowsFault>,
) {
    for at in 0..sketches.len() {
        let found = ListKeeper::from_rows(rt.alloc(), rows_of(rt, &sketches[at])).err();
        assert!(rt; found == fault, "at {at}: {found:?}");
    }
}

/// Rows of each phase.
const TAKEN: &[Sketch] = &[IN_SETUP, IN_CHOOSING, IN_RANKING, AFTER_FIRST];

#[test]
fn each_phase_is_taken(rt: HostRuntime) {
    have_fault(&rt, TAKEN, None);
}

/// Rows of an early phase with what comes later, then with bad lists, rankings and rolls.
const BAD: &[Sketch] = &[
    Sketch {
        phase: Phase::Setup,
        ..IN_CHOOSING
    },
    Sketch {
        phase: Phase::Choosing,
        ..IN_RANKING
    },
    Sketch {
        phase: Phase::Ranking,
        ..AFTER_FIRST
    },
    Sketch {
        choices: &[("S1", &["P1", "P9x"]), ("S2", &[]), ("S3", &[])],
        ..IN_CHOOSING
    },
    Sketch {
        choices: &[("S1", &["P1", "P1"]), ("S2", &[]), ("S3", &[])],
        ..IN_CHOOSING
    },
    Sketch {
        choices: &[("S1", &["P1"]), ("S2", &[])],
        ..IN_CHOOSING
    },
    Sketch {
        choices: &[("S1", &[]), ("S2", &[]), ("S3", &[]), ("S9", &[])],
        ..IN_CHOOSING
    },
    Sketch {
        rankings: &[("L1", &["S2"])],
        ..IN_RANKING
    },
    Sketch {
        rankings: &[("L2", &["S1"])],
        ..IN_RANKING
    },
    Sketch {
        rankings: &[("L1", &["S2", "S1"])],
        ..AFTER_FIRST
    },
    Sketch {
        projects: &["P2", "P1"],
        ..IN_SETUP
    },
    Sketch {
        code: "office-code-0",
        ..IN_SETUP
    },
    Sketch {
        capacity: 201,
        ..IN_SETUP
    },
];

#[test]
fn bad_rows_are_refused(rt: HostRuntime) {
    have_fault(&rt, BAD, Some(RowsFault::NotGood));
}
