//! Two runs of the first round that differ in what one lecturer may not see.

use crate::worked::{LISTS, ROLLS, TO_RANKING};

const TO_CHOOSING: &str = r#"
office  POST /phase {"phase":"choosing"}  200 {"phase":"choosing"}
"#;

const TURNED_LISTS: &str = r#"
ann  PUT /choices {"projects":["P2","P1"]}  200 {"projects":["P2","P1"]}
bea  PUT /choices {"projects":["P1","P3"]}  200 {"projects":["P1","P3"]}
"#;

/// The lecturer's calls and replies in ranking.
const HEARD: &str = r#"
lee     GET /me                                200 {"capacity":2,"key":"L1","name":"Lee","phase":"ranking","role":"lecturer"}
lee     GET /catalogue                         200 {"projects":[{"capacity":1,"id":"P1","lecturer":"L1","lecturer_name":"Lee","title":"Tides"},{"capacity":1,"id":"P2","lecturer":"L1","lecturer_name":"Lee","title":"Kites"},{"capacity":1,"id":"P3","lecturer":"L2","lecturer_name":"Moe","title":"Bells"}]}
lee     GET /applicants                        200 {"projects":[{"applicants":[{"key":"S1","name":"Ann"},{"key":"S2","name":"Roe, Bea"}],"id":"P1"},{"applicants":[{"key":"S1","name":"Ann"}],"id":"P2"}]}
lee     GET /ranking                           200 {"students":null}
lee     PUT /ranking {"students":["S2","S1"]}  200 {"students":["S2","S1"]}
moe     PUT /ranking {"students":["S2"]}       200 {"students":["S2"]}
office  POST /phase {"phase":"published"}      200 {"phase":"published"}
"#;

/// The results that the lecturer and two students are shown.
const PLACED: &str = r#"
lee  GET /result  200 {"projects":[{"id":"P1","students":[{"key":"S2","name":"Roe, Bea"}]},{"id":"P2","students":[{"key":"S1","name":"Ann"}]}]}
ann  GET /result  200 {"project":"P2"}
bea  GET /result  200 {"project":"P1"}
"#;

const OTHERS_CHOOSING: &str = r#"among
bea  GET /me  200 {"key":"S2","name":"Roe, Bea","phase":"choosing","role":"student"}
cyr  GET /me  200 {"key":"S3","name":"Cyr","phase":"choosing","role":"student"}
moe  GET /me  200 {"capacity":1,"key":"L2","name":"Moe","phase":"choosing","role":"lecturer"}
"#;

const OTHERS_RANKING: &str = r#"among
bea  GET /me  200 {"key":"S2","name":"Roe, Bea","phase":"ranking","role":"student"}
cyr  GET /me  200 {"key":"S3","name":"Cyr","phase":"ranking","role":"student"}
moe  GET /me  200 {"capacity":1,"key":"L2","name":"Moe","phase":"ranking","role":"lecturer"}
"#;

const OTHERS_PUBLISHED: &str = r#"among
bea  GET /me  200 {"key":"S2","name":"Roe, Bea","phase":"published","role":"student"}
cyr  GET /me  200 {"key":"S3","name":"Cyr","phase":"published","role":"student"}
moe  GET /me  200 {"capacity":1,"key":"L2","name":"Moe","phase":"published","role":"lecturer"}
"#;

/// The first run.
pub const PLAIN: &[&str] = &[ROLLS, LISTS, TO_RANKING, HEARD, PLACED];

/// The second run: one list has another order, and others ask between the calls. The lecturer's
/// calls and replies are equal to the byte.
pub const TURNED: &[&str] = &[
    ROLLS,
    TO_CHOOSING,
    OTHERS_CHOOSING,
    TURNED_LISTS,
    TO_RANKING,
    OTHERS_RANKING,
    HEARD,
    OTHERS_PUBLISHED,
    PLACED,
];
