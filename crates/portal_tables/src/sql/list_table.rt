//! The four tables of lists: students' lists and lecturers' rankings in each round.

ghost use Rattle.std.specs.Prelude.{◌≡◌};
ghost use Rattle.portal_tables.specs.Tables.{names};
ghost use Rattle.portal_tables.specs.QueryTexts as asked;
ghost use Rattle.portal_tables.specs.inner.Texts as texts;

use portal_rules::Round;

/// The tables of lists.
#[derive(Clone, Copy, Drop)]
pub enum Lists {
    /// Students' lists of projects in a round.
    Choices(Round),
    /// Lecturers' rankings of students in a round.
    Rankings(Round),
}

/// The statement that inserts eight rows into these three columns.
macro_rules! insert_eight {
    ($into:literal) => {
        concat!(
            "INSERT INTO ",
            $into,
            " VALUES (?1, ?2, ?3), (?4, ?5, ?6), (?7, ?8, ?9), (?10, ?11, ?12), \
             (?13, ?14, ?15), (?16, ?17, ?18), (?19, ?20, ?21), (?22, ?23, ?24)"
        )
    };
}

impl Lists {
    /// Returns the statement that deletes one owner's rows.
    pub(crate) fn clear_text(self) -> &'static str
        ensures { result.now ≡ texts.clear_text (names self) }
    {
        match self {
            Lists::Choices(Round::First) => "DELETE FROM choice WHERE student = ?1",
            Lists::Rankings(Round::First) => "DELETE FROM ranking WHERE lecturer = ?1",
            Lists::Choices(Round::Second) => "DELETE FROM choice2 WHERE student = ?1",
            Lists::Rankings(Round::Second) => "DELETE FROM ranking2 WHERE lecturer = ?1",
        }
    }

    /// Returns the statement that inserts one row.
    pub(crate) fn add_text(self) -> &'static str
        ensures { result.now ≡ texts.add_text (names self) }
    {
        match self {
            Lists::Choices(Round::First) => {
                "INSERT INTO choice (student, place, project) VALUES (?1, ?2, ?3)"
            }
            Lists::Rankings(Round::First) => {
                "INSERT INTO ranking (lecturer, place, student) VALUES (?1, ?2, ?3)"
            }
            Lists::Choices(Round::Second) => {
                "INSERT INTO choice2 (student, place, project) VALUES (?1, ?2, ?3)"
            }
            Lists::Rankings(Round::Second) => {
                "INSERT INTO ranking2 (lecturer, place, student) VALUES (?1, ?2, ?3)"
            }
        }
    }

    /// Returns the statement that inserts eight rows.
    pub(crate) fn add_eight_text(self) -> &'static str
        ensures { result.now ≡ texts.add_eight_text (names self) }
    {
        match self {
            Lists::Choices(Round::First) => insert_eight!("choice (student, place, project)"),
            Lists::Rankings(Round::First) => insert_eight!("ranking (lecturer, place, student)"),
            Lists::Choices(Round::Second) => insert_eight!("choice2 (student, place, project)"),
            Lists::Rankings(Round::Second) => insert_eight!("ranking2 (lecturer, place, student)"),
        }
    }

    /// Returns the query of all rows.
    pub(crate) fn all_text(self) -> &'static str
        ensures { result.now ≡ asked.all_text (names self) }
    {
        match self {
            Lists::Choices(Round::First) => "SELECT student, place, project FROM choice",
            Lists::Rankings(Round::First) => "SELECT lecturer, place, student FROM ranking",
            Lists::Choices(Round::Second) => "SELECT student, place, project FROM choice2",
            Lists::Rankings(Round::Second) => "SELECT lecturer, place, student FROM ranking2",
        }
    }

    /// Returns the query of one owner's list.
    pub(crate) fn list_text(self) -> &'static str
        ensures { result.now ≡ asked.list_text (names self) }
    {
        match self {
            Lists::Choices(Round::First) => {
                "SELECT place, project FROM choice WHERE student = ?1 ORDER BY place"
            }
            Lists::Rankings(Round::First) => {
                "SELECT place, student FROM ranking WHERE lecturer = ?1 ORDER BY place"
            }
            Lists::Choices(Round::Second) => {
                "SELECT place, project FROM choice2 WHERE student = ?1 ORDER BY place"
            }
            Lists::Rankings(Round::Second) => {
                "SELECT place, student FROM ranking2 WHERE lecturer = ?1 ORDER BY place"
            }
        }
    }
}
