//! Scripted years in which rankings are filled, replaced or not needed.

use crate::worked::{LISTS, ROLLS, TO_RANKING};

const ONE_RANKED: &str = r#"
lee     POST /ranking/fill {}                  403 {"error":"not_yours"}
lee     PUT /ranking {"students":["S2","S1"]}  200 {"students":["S2","S1"]}
office  POST /ranking/fill {}                  200 {"filled":["L2"]}
office  POST /ranking/fill {}                  200 {"filled":[]}
moe     GET /ranking                           200 {"students":["S2"]}
lee     GET /ranking                           200 {"students":["S2","S1"]}
"#;

const BEA_FIRST: &str = r#"
office  POST /phase {"phase":"published"}  200 {"phase":"published"}
ann     GET /result                        200 {"project":"P2"}
bea     GET /result                        200 {"project":"P1"}
cyr     GET /result                        200 {"project":null}
"#;

const NOBODY_RANKED: &str = r#"
office  POST /ranking/fill {}              200 {"filled":["L1","L2"]}
lee     GET /ranking                       200 {"students":["S1","S2"]}
office  POST /phase {"phase":"published"}  200 {"phase":"published"}
ann     GET /result                        200 {"project":"P1"}
bea     GET /result                        200 {"project":"P3"}
cyr     GET /result                        200 {"project":null}
"#;

const REPLACED: &str = r#"
office  POST /ranking/fill {}                  200 {"filled":["L1","L2"]}
lee     PUT /ranking {"students":["S2","S1"]}  200 {"students":["S2","S1"]}
office  POST /ranking/fill {}                  200 {"filled":[]}
lee     GET /ranking                           200 {"students":["S2","S1"]}
"#;

const NO_APPLICANT: &str = r#"
# A list is emptied.
bea     PUT /choices {"projects":[]}       200 {"projects":[]}
bea     GET /choices                       200 {"projects":[]}
# The second lecturer has no applicant, and need not rank.
bea     PUT /choices {"projects":["P1"]}   200 {"projects":["P1"]}
office  POST /ranking/fill {}              409 {"error":"wrong_phase"}
office  POST /phase {"phase":"ranking"}    200 {"phase":"ranking"}
office  POST /phase {"phase":"published"}  409 {"error":"still_to_rank","lecturers":["L1"]}
lee     PUT /ranking {"students":["S2","S1"]}  200 {"students":["S2","S1"]}
office  POST /phase {"phase":"published"}  200 {"phase":"published"}
"#;

pub const ONE_IS_FILLED: &[&str] = &[ROLLS, LISTS, TO_RANKING, ONE_RANKED, BEA_FIRST];

pub const ALL_ARE_FILLED: &[&str] = &[ROLLS, LISTS, TO_RANKING, NOBODY_RANKED];

pub const ONE_IS_REPLACED: &[&str] = &[ROLLS, LISTS, TO_RANKING, REPLACED, BEA_FIRST];

pub const ONE_IS_NOT_OWED: &[&str] = &[ROLLS, LISTS, NO_APPLICANT];
