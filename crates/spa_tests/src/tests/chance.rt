//! Generates pseudorandom instances, the same in each run.

use std::fmt::{Display, Write};
use std::process::Abort;

#[derive(Drop)]
pub(crate) struct Chance {
    pub(crate) state: u64,
}

impl Chance {
    /// Returns a pseudorandom number below `n`, or 0.
    fn below(&mut self, n: u64) -> u64 {
        let state = self.state.wrapping_mul(6_364_136_223_846_793_005);
        self.state = state.wrapping_add(1_442_695_040_888_963_407);
        (self.state >> 33) % n.max(1)
    }

    /// Returns a pseudorandom capacity.
    fn capacity(&mut self) -> u64 {
        self.below(3).wrapping_add(1)
    }

    /// Returns up to `turns` different numbers below `n`.
    fn some(&mut self, rt: &(impl Abort + AllocGlobal), n: u64, turns: u64) -> Vec<u64> {
        let mut list = Vec::new(rt.alloc());
        for _ in 0..turns {
            let number = self.below(n);
            if !list.contains(&number) {
                add(rt, &mut list, number);
            }
        }
        list
    }
}

/// Appends a key for each number, separated by spaces: the letter, then the number plus 10. Then
/// ends the line.
pub(crate) fn put_words(rt: &impl Abort, text: &mut String, letter: &str, numbers: &[u64]) {
    let mut space = "";
    for number in numbers {
        let key = number.wrapping_add(10);
        put(rt, text, format_args!("{space}{letter}{key}"));
        space = " ";
    }
    put(rt, text, "\n");
}

/// Appends a formatted text.
pub(crate) fn put(rt: &impl Abort, text: &mut String, more: impl Display + Drop) {
    text.write_fmt(more).expect(rt, "memory");
}

/// Appends the item to the list.
pub(crate) fn add<X: Drop>(rt: &impl Abort, list: &mut Vec<X>, item: X) {
    list.push(item).expect(rt, "memory");
}

/// Returns whether the lecturer offers one of these projects.
fn finds(owners: &[u64], list: &[u64], lecturer: u64) -> bool {
    for p in list {
        if owners.get(*p as usize) == Some(&lecturer) {
            return true;
        }
    }
    false
}

/// Returns the numbers below `n` in a pseudorandom order.
fn shuffled(rt: &(impl Abort + AllocGlobal), chance: &mut Chance, n: u64) -> Vec<u64> {
    let mut order = chance.some(rt, n, 4 * n.min(100));
    for s in 0..n {
        if !order.contains(&s) {
            add(rt, &mut order, s);
        }
    }
    order
}

/// Appends the lecturer's record, with the students who list a project of the lecturer in a
/// pseudorandom order.
fn put_ranking(
    rt: &(impl Abort + AllocGlobal),
    chance: &mut Chance,
    owners: &[u64],
    choices: &[Vec<u64>],
    lecturer: u64,
    records: &mut String,
) {
    let mut list = Vec::new(rt.alloc());
    for s in &shuffled(rt, chance, choices.len() as u64) {
        match choices.get(*s as usize) {
            Some(own) if finds(owners, own, lecturer) => add(rt, &mut list, *s),
            _ => {}
        }
    }
    let (l, capacity) = (lecturer.wrapping_add(10), chance.capacity());
    put(rt, records, format_args!("L,L{l},{capacity},"));
    put_words(rt, records, "S", &list);
}

/// Generates lists for up to seven students, appends their records, and returns the lists.
fn lists(
    rt: &(impl Abort + AllocGlobal),
    chance: &mut Chance,
    projects: u64,
    records: &mut String,
) -> Vec<Vec<u64>> {
    let mut choices = Vec::new(rt.alloc());
    for s in 0..chance.below(7).wrapping_add(1) {
        let list = chance.some(rt, projects, 5);
        put(rt, records, format_args!("S,S{},,", s.wrapping_add(10)));
        put_words(rt, records, "P", &list);
        add(rt, &mut choices, list);
    }
    choices
}

/// Generates lecturers and capacities of these projects, appends the records, and returns the
/// lecturers.
fn owners(
    rt: &(impl Abort + AllocGlobal),
    chance: &mut Chance,
    lecturers: u64,
    projects: u64,
    records: &mut String,
) -> Vec<u64> {
    let mut owners = Vec::new(rt.alloc());
    for p in 10..projects.wrapping_add(10) {
        let owner = chance.below(lecturers);
        let (capacity, key) = (chance.capacity(), owner.wrapping_add(10));
        put(rt, records, format_args!("P,P{p},{capacity},L{key}\n"));
        add(rt, &mut owners, owner);
    }
    owners
}

/// Generates the records of an instance with up to seven students, six projects and three
/// lecturers. All capacities are from 1 to 3.
pub(crate) fn generated(rt: &(impl Abort + AllocGlobal), chance: &mut Chance) -> String {
    let mut records = String::new(rt.alloc());
    let lecturers = chance.below(3).wrapping_add(1);
    let projects = chance.below(6).wrapping_add(1);
    let owners = owners(rt, chance, lecturers, projects, &mut records);
    let choices = lists(rt, chance, projects, &mut records);
    for lecturer in 0..lecturers {
        put_ranking(rt, chance, &owners, &choices, lecturer, &mut records);
    }
    records
}
