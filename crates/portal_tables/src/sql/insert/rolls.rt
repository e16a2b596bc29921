//! Defines the INSERT statements for the rolls.

ghost use Rattle.portal_tables.specs.Tables.{lecturer_tree, project_tree, student_tree};
ghost use Rattle.portal_tables.specs.inner.RowChanges.{lecturer_new, lecturer_values, project_new};
ghost use Rattle.portal_tables.specs.inner.RowChanges.{student_new, student_values};

use super::Target;
use portal_rules::{LecturerRow, ProjectRow, StudentRow};
use sqlite::Alter;
use sqlite::types::{ToSql, ValueRef};
use std::alloc::AllocError;

/// The roll of lecturers. A new lecturer has no ranking yet.
#[derive(Clone, Copy, Drop)]
pub struct Lecturers;

impl Target<LecturerRow> for Lecturers {
    ghost tree = { λ _. lecturer_tree };

    ghost cells = { lecturer_new };

    ghost values = { lecturer_values };

    fn text<S: Alter>(&self) -> &'static str {
        "INSERT INTO lecturer (key, name, code, capacity, ranked) VALUES (?1, ?2, ?3, ?4, 0)"
    }

    fn text_of_eight<S: Alter>(&self) -> &'static str {
        "INSERT INTO lecturer (key, name, code, capacity, ranked) VALUES (?1, ?2, ?3, ?4, 0), \
         (?5, ?6, ?7, ?8, 0), (?9, ?10, ?11, ?12, 0), (?13, ?14, ?15, ?16, 0), \
         (?17, ?18, ?19, ?20, 0), (?21, ?22, ?23, ?24, 0), (?25, ?26, ?27, ?28, 0), \
         (?29, ?30, ?31, ?32, 0)"
    }

    fn put_values<'v>(row: &'v LecturerRow, all: &mut Vec<ValueRef<'v>>) -> Result<(), AllocError> {
        all.extend_from_slice(&[
            ValueRef::Text(row.key.as_bytes()),
            ValueRef::Text(row.name.as_bytes()),
            ValueRef::Text(row.code.as_bytes()),
            row.capacity.to_sql(),
        ])
    }
}

/// The roll of projects.
#[derive(Clone, Copy, Drop)]
pub struct Projects;

impl Target<ProjectRow> for Projects {
    ghost tree = { λ _. project_tree };

    ghost cells = { project_new };

    ghost values = { project_new };

    fn text<S: Alter>(&self) -> &'static str {
        "INSERT INTO project (key, lecturer, title, capacity) VALUES (?1, ?2, ?3, ?4)"
    }

    fn text_of_eight<S: Alter>(&self) -> &'static str {
        "INSERT INTO project (key, lecturer, title, capacity) VALUES (?1, ?2, ?3, ?4), \
         (?5, ?6, ?7, ?8), (?9, ?10, ?11, ?12), (?13, ?14, ?15, ?16), (?17, ?18, ?19, ?20), \
         (?21, ?22, ?23, ?24), (?25, ?26, ?27, ?28), (?29, ?30, ?31, ?32)"
    }

    fn put_values<'v>(row: &'v ProjectRow, all: &mut Vec<ValueRef<'v>>) -> Result<(), AllocError> {
        all.extend_from_slice(&[
            ValueRef::Text(row.key.as_bytes()),
            ValueRef::Text(row.lecturer.as_bytes()),
            ValueRef::Text(row.title.as_bytes()),
            row.capacity.to_sql(),
        ])
    }
}

/// The roll of students. A new student has no assigned project.
#[derive(Clone, Copy, Drop)]
pub struct Students;

impl Target<StudentRow> for Students {
    ghost tree = { λ _. student_tree };

    ghost cells = { student_new };

    ghost values = { student_values };

    fn text<S: Alter>(&self) -> &'static str {
        "INSERT INTO student (key, name, code) VALUES (?1, ?2, ?3)"
    }

    fn text_of_eight<S: Alter>(&self) -> &'static str {
        "INSERT INTO student (key, name, code) VALUES (?1, ?2, ?3), (?4, ?5, ?6), (?7, ?8, ?9), \
         (?10, ?11, ?12), (?13, ?14, ?15), (?16, ?17, ?18), (?19, ?20, ?21), (?22, ?23, ?24)"
    }

    fn put_values<'v>(row: &'v StudentRow, all: &mut Vec<ValueRef<'v>>) -> Result<(), AllocError> {
        all.extend_from_slice(&[
            ValueRef::Text(row.key.as_bytes()),
            ValueRef::Text(row.name.as_bytes()),
            ValueRef::Text(row.code.as_bytes()),
        ])
    }
}
