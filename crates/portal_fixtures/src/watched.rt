//! Scripted years in which callers look at the world after changes.

use crate::worked::{
    LISTS, PUBLICATION, ROLLS, SECOND_LISTS, SECOND_OPENING, SECOND_PUBLICATION, SECOND_TO_RANKING,
    TO_RANKING,
};

const OTHER_PLACES: &str = r#"
ann  PUT /choices {"projects":["P2","P1"]}  200 {"projects":["P2","P1"]}
"#;

const SAME_APPLICANTS: &str = r#"
lee  GET /applicants  200 {"projects":[{"applicants":[{"key":"S1","name":"Ann"},{"key":"S2","name":"Roe, Bea"}],"id":"P1"},{"applicants":[{"key":"S1","name":"Ann"}],"id":"P2"}]}
ann  GET /choices     200 {"projects":["P2","P1"]}
"#;

const WATCHED_LISTS: &str = r#"
office  GET /status                            200 {"lecturers":2,"phase":"choosing","projects":3,"still_to_rank":[],"students":3,"without_list":["S3"]}
cyr     PUT /choices {"projects":["P3"]}       200 {"projects":["P3"]}
office  GET /status                            200 {"lecturers":2,"phase":"choosing","projects":3,"still_to_rank":[],"students":3,"without_list":[]}
cyr     PUT /choices {"projects":[]}           200 {"projects":[]}
office  GET /status                            200 {"lecturers":2,"phase":"choosing","projects":3,"still_to_rank":[],"students":3,"without_list":["S3"]}
ann     PUT /choices {"projects":["P1","P2"]}  200 {"projects":["P1","P2"]}
office  GET /status                            200 {"lecturers":2,"phase":"choosing","projects":3,"still_to_rank":[],"students":3,"without_list":["S3"]}
"#;

const WATCHED_RANKINGS: &str = r#"
office  GET /status                       200 {"lecturers":2,"phase":"ranking","projects":3,"still_to_rank":["L1","L2"],"students":3,"without_list":["S3"]}
moe     PUT /ranking {"students":["S2"]}  200 {"students":["S2"]}
office  GET /status                       200 {"lecturers":2,"phase":"ranking","projects":3,"still_to_rank":["L1"],"students":3,"without_list":["S3"]}
moe     PUT /ranking {"students":["S2"]}  200 {"students":["S2"]}
office  GET /status                       200 {"lecturers":2,"phase":"ranking","projects":3,"still_to_rank":["L1"],"students":3,"without_list":["S3"]}
office  POST /ranking/fill {}             200 {"filled":["L1"]}
office  GET /status                       200 {"lecturers":2,"phase":"ranking","projects":3,"still_to_rank":[],"students":3,"without_list":["S3"]}
"#;

const WATCHED_SECOND: &str = r#"
office  GET /status                       200 {"assigned":2,"lecturers":2,"phase":"choosing","projects":3,"round":2,"still_to_rank":[],"students":3,"unassigned":["S3"],"without_list":[]}
cyr     PUT /choices {"projects":[]}      200 {"projects":[]}
office  GET /status                       200 {"assigned":2,"lecturers":2,"phase":"choosing","projects":3,"round":2,"still_to_rank":[],"students":3,"unassigned":["S3"],"without_list":["S3"]}
cyr     PUT /choices {"projects":["P3"]}  200 {"projects":["P3"]}
office  GET /status                       200 {"assigned":2,"lecturers":2,"phase":"choosing","projects":3,"round":2,"still_to_rank":[],"students":3,"unassigned":["S3"],"without_list":[]}
"#;

const WATCHED_AGAIN: &str = r#"
office  GET /status                       200 {"assigned":2,"lecturers":2,"phase":"ranking","projects":3,"round":2,"still_to_rank":["L2"],"students":3,"unassigned":["S3"],"without_list":[]}
moe     PUT /ranking {"students":["S3"]}  200 {"students":["S3"]}
office  GET /status                       200 {"assigned":2,"lecturers":2,"phase":"ranking","projects":3,"round":2,"still_to_rank":[],"students":3,"unassigned":["S3"],"without_list":[]}
office  POST /ranking/fill {}             200 {"filled":[]}
"#;

pub const NO_PLACE_IS_SEEN: &[&str] = &[ROLLS, LISTS, OTHER_PLACES, TO_RANKING, SAME_APPLICANTS];

pub const WATCHED: &[&str] = &[ROLLS, LISTS, WATCHED_LISTS, TO_RANKING, WATCHED_RANKINGS];

pub const WATCHED_TWICE: &[&str] = &[
    ROLLS,
    LISTS,
    TO_RANKING,
    PUBLICATION,
    SECOND_OPENING,
    SECOND_LISTS,
    WATCHED_SECOND,
    SECOND_TO_RANKING,
    WATCHED_AGAIN,
    SECOND_PUBLICATION,
];
