//! A call, and the decision on it: a reply, and an act such as a change.

ghost use Rattle.std.specs.Prelude.{◌≡◌};
ghost use Rattle.portal_rules.specs.Meaning.{reply_model};
ghost use Rattle.portal_rules.specs.Run as run;

use crate::phase::{Phase, Round};
use crate::rows::{LecturerRow, ProjectRow, StudentRow};
use serde_json::Value;
use spa_rows::Key;

/// A call: what a request asks for.
#[derive(Drop)]
pub enum Call {
    Me,
    Catalogue,
    ShowChoices,
    /// Replaces the student's own list of projects, best first.
    SetChoices(Vec<Vec<u8>>),
    Applicants,
    ShowRanking,
    /// Replaces the lecturer's own ranking of all applicants, best first.
    SetRanking(Vec<Vec<u8>>),
    Result,
    AddLecturers(Vec<LecturerRow>),
    AddProjects(Vec<ProjectRow>),
    AddStudents(Vec<StudentRow>),
    /// Moves to this phase of the given round; `None` stands for the current round.
    Move { phase: Phase, round: Option<Round> },
    Status,
    Allocation,
    /// The result as CSV.
    AllocationCsv,
    /// The result as plain text.
    Report,
    /// Gives each lecturer who is still to rank a ranking: the applicants in the order of keys.
    FillRankings,
}

/// The body of a reply.
#[derive(Drop)]
pub enum Body {
    Json(Value),
    Csv(Vec<u8>),
    Plain(Vec<u8>),
    /// The body of a 503 reply, after a fault of memory or the store.
    Unavailable,
}

/// A reply. `allow` lists the methods of the path if the request used another one.
#[derive(Drop)]
pub struct Reply {
    pub status: u16,
    pub allow: &'static str,
    pub body: Body,
}

impl Reply {
    /// Returns the 503 reply to a fault of memory or the store. Allocates no memory.
    pub fn unavailable() -> Reply
        ensures { reply_model result ≡ run.unavailable }
    {
        Reply {
            status: 503,
            allow: "",
            body: Body::Unavailable,
        }
    }
}

/// A change of the world.
#[derive(Drop)]
pub enum Change {
    Choices { student: Key, projects: Vec<Key> },
    Ranking { lecturer: Key, students: Vec<Key> },
    /// New rows of the roll of lecturers.
    Lecturers(Vec<LecturerRow>),
    /// New rows of the roll of projects.
    Projects(Vec<ProjectRow>),
    /// New rows of the roll of students.
    Students(Vec<StudentRow>),
    Phase(Phase),
    /// The current round's result, as pairs of a student and a project; the phase becomes
    /// published.
    Result(Vec<(Key, Key)>),
    /// A ranking for each lecturer who is still to rank: the applicants in the order of keys.
    Fill,
    /// The opening of the second round, if the first is published. Lists, rankings and placements
    /// become the earlier ones.
    SecondRound,
}

/// A text that shows the result to the office.
#[derive(Clone, Copy, Debug, PartialEq, Eq)]
pub enum Sheet {
    Csv,
    Report,
}

/// What a call does.
#[derive(Drop)]
pub enum Act {
    Nothing,
    Apply(Change),
    /// Solves the world's instance and publishes the matching.
    Publish,
    /// Writes the sheet into the reply's body, an empty `Csv` or `Plain`.
    Render(Sheet),
}

/// The decision on a call: its reply and its act.
#[derive(Drop)]
pub struct Decision {
    pub reply: Reply,
    pub act: Act,
}
