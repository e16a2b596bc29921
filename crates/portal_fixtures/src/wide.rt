//! Scripts of a wider department. The first round leaves room at P3, P4 and P5, and five students
//! without a project. P2 has room too, but its lecturer is full. In the second round S6 and S9 get
//! nothing: Moe can take only two more students, and P5 has one place left.

/// The rolls.
pub const ROLLS: &str = r#"
office  POST /rolls/lecturers id,name,code,capacity\nL1,Lee,lee-code-01,2\nL2,Moe,moe-code-02,3\nL3,Poe,poe-code-03,5\n  200 {"added":3,"same":0}
office  POST /rolls/projects id,lecturer,title,capacity\nP1,L1,Tides,1\nP2,L1,Kites,2\nP3,L2,Bells,2\nP4,L2,Waves,2\nP5,L3,Rings,2\n  200 {"added":5,"same":0}
office  POST /rolls/students id,name,code\nS1,Ann,stud-code-1\nS2,Bea,stud-code-2\nS3,Cyr,stud-code-3\nS4,Dee,stud-code-4\nS5,Eva,stud-code-5\nS6,Fay,stud-code-6\nS7,Gil,stud-code-7\nS8,Hal,stud-code-8\nS9,Ida,stud-code-9\n  200 {"added":9,"same":0}
"#;

/// The lists of the first round.
pub const CHOOSING: &str = r#"
office       POST /phase {"phase":"choosing"}  200 {"phase":"choosing"}
stud-code-1  PUT /choices {"projects":["P1"]}  200 {"projects":["P1"]}
stud-code-2  PUT /choices {"projects":["P2"]}  200 {"projects":["P2"]}
stud-code-3  PUT /choices {"projects":["P3"]}  200 {"projects":["P3"]}
stud-code-7  PUT /choices {"projects":["P5"]}  200 {"projects":["P5"]}
"#;

/// Its rankings.
pub const RANKING: &str = r#"
office  POST /phase {"phase":"ranking"}        200 {"phase":"ranking"}
lee     PUT /ranking {"students":["S1","S2"]}  200 {"students":["S1","S2"]}
moe     PUT /ranking {"students":["S3"]}       200 {"students":["S3"]}
poe     PUT /ranking {"students":["S7"]}       200 {"students":["S7"]}
"#;

/// Its publication. Each of the four students gets the listed project.
pub const PUBLISHED: &str = r#"
office  POST /phase {"phase":"published"}  200 {"phase":"published"}
"#;

/// The opening of the second round, and its lists.
pub const SECOND_CHOOSING: &str = r#"
office       POST /phase {"phase":"choosing","round":2}  200 {"phase":"choosing","round":2}
stud-code-4  PUT /choices {"projects":["P3","P4"]}       200 {"projects":["P3","P4"]}
stud-code-5  PUT /choices {"projects":["P3","P4"]}       200 {"projects":["P3","P4"]}
stud-code-6  PUT /choices {"projects":["P4"]}            200 {"projects":["P4"]}
stud-code-8  PUT /choices {"projects":["P5"]}            200 {"projects":["P5"]}
stud-code-9  PUT /choices {"projects":["P5"]}            200 {"projects":["P5"]}
"#;

/// Its rankings.
pub const SECOND_RANKING: &str = r#"
office  POST /phase {"phase":"ranking"}             200 {"phase":"ranking","round":2}
moe     PUT /ranking {"students":["S4","S5","S6"]}  200 {"students":["S4","S5","S6"]}
poe     PUT /ranking {"students":["S8","S9"]}       200 {"students":["S8","S9"]}
"#;

/// Its publication: S4 gets P3, S5 gets P4 and S8 gets P5.
pub const SECOND_PUBLISHED: &str = r#"
office  POST /phase {"phase":"published"}  200 {"phase":"published","round":2}
"#;

/// Both rounds.
pub const WIDE_YEAR: &[&str] = &[
    ROLLS,
    CHOOSING,
    RANKING,
    PUBLISHED,
    SECOND_CHOOSING,
    SECOND_RANKING,
    SECOND_PUBLISHED,
];

const OPENING: &str = r#"
office  POST /phase {"phase":"choosing","round":2}  200 {"phase":"choosing","round":2}
"#;

/// The students' lists in one run of the second round.
const PLAIN_LISTS: &str = r#"
stud-code-4  PUT /choices {"projects":["P3","P4"]}  200 {"projects":["P3","P4"]}
stud-code-5  PUT /choices {"projects":["P3","P4"]}  200 {"projects":["P3","P4"]}
stud-code-6  PUT /choices {"projects":["P4"]}       200 {"projects":["P4"]}
"#;

/// The same in the other run, where S5 lists P4 before P3. The results are the same.
const TURNED_LISTS: &str = r#"
stud-code-4  PUT /choices {"projects":["P3","P4"]}  200 {"projects":["P3","P4"]}
stud-code-5  PUT /choices {"projects":["P4","P3"]}  200 {"projects":["P4","P3"]}
stud-code-6  PUT /choices {"projects":["P4"]}       200 {"projects":["P4"]}
"#;

/// A lecturer's calls and replies, in both runs.
const HEARD: &str = r#"
# The lecturer's calls and replies in choosing.
moe     GET /me                                     200 {"capacity":3,"key":"L2","name":"Moe","phase":"choosing","role":"lecturer","round":2}
moe     GET /catalogue                              200 {"projects":[{"capacity":1,"id":"P3","lecturer":"L2","lecturer_name":"Moe","title":"Bells"},{"capacity":2,"id":"P4","lecturer":"L2","lecturer_name":"Moe","title":"Waves"},{"capacity":1,"id":"P5","lecturer":"L3","lecturer_name":"Poe","title":"Rings"}]}
moe     GET /applicants                             409 {"error":"wrong_phase"}
moe     GET /result                                 200 {"projects":[{"id":"P3","students":[{"key":"S3","name":"Cyr"}]},{"id":"P4","students":[]}]}
office  POST /phase {"phase":"ranking"}             200 {"phase":"ranking","round":2}
# Those in ranking.
moe     GET /applicants                             200 {"projects":[{"applicants":[{"key":"S4","name":"Dee"},{"key":"S5","name":"Eva"}],"id":"P3"},{"applicants":[{"key":"S4","name":"Dee"},{"key":"S5","name":"Eva"},{"key":"S6","name":"Fay"}],"id":"P4"}]}
moe     GET /ranking                                200 {"students":null}
moe     PUT /ranking {"students":["S5","S6"]}       422 {"at":0,"error":"bad_list","fault":"missing"}
moe     PUT /ranking {"students":["S4","S5","S6"]}  200 {"students":["S4","S5","S6"]}
moe     GET /ranking                                200 {"students":["S4","S5","S6"]}
moe     GET /result                                 200 {"projects":[{"id":"P3","students":[{"key":"S3","name":"Cyr"}]},{"id":"P4","students":[]}]}
office  POST /phase {"phase":"published"}           200 {"phase":"published","round":2}
# Those in published.
moe     GET /me                                     200 {"capacity":3,"key":"L2","name":"Moe","phase":"published","role":"lecturer","round":2}
moe     GET /result                                 200 {"projects":[{"id":"P3","students":[{"key":"S3","name":"Cyr"},{"key":"S4","name":"Dee"}]},{"id":"P4","students":[{"key":"S5","name":"Eva"}]}]}
"#;

/// Requests of other callers, played before each later line of `TURNED`.
const OTHERS: &str = r#"among
stud-code-1  GET /me         200
stud-code-4  GET /me         200
stud-code-9  GET /catalogue  200
stud-code-7  GET /result     200
lee          GET /me         200
office       GET /status     200
"#;

pub const PLAIN: &[&str] = &[
    ROLLS,
    CHOOSING,
    RANKING,
    PUBLISHED,
    OPENING,
    PLAIN_LISTS,
    HEARD,
];

pub const TURNED: &[&str] = &[
    ROLLS,
    CHOOSING,
    RANKING,
    PUBLISHED,
    OTHERS,
    OPENING,
    TURNED_LISTS,
    HEARD,
];
