//! Scripts of the worked world: two lecturers, three projects and three students. In the first
//! round S1 gets P2, S2 gets P1 and S3 nothing. In the second round S3 gets P3.

/// The rolls.
pub const ENROLLED: &str = r#"
office  POST /rolls/lecturers id,name,code,capacity\nL1,Lee,lee-code-01,2\nL2,Moe,moe-code-02,1\n  200 {"added":2,"same":0}
office  POST /rolls/projects id,lecturer,title,capacity\nP1,L1,Tides,1\nP2,L1,Kites,1\nP3,L2,Bells,1\n  200 {"added":3,"same":0}
office  POST /rolls/students id,name,code\nS1,Ann,ann-code-1\nS2,"Roe, Bea",bea-code-2\nS3,Cyr,cyr-code-3\n  200 {"added":3,"same":0}
"#;

/// The same rolls, with one student uploaded twice.
pub const ROLLS: &str = r#"
office  POST /rolls/lecturers id,name,code,capacity\nL1,Lee,lee-code-01,2\nL2,Moe,moe-code-02,1\n  200 {"added":2,"same":0}
office  POST /rolls/projects id,lecturer,title,capacity\nP1,L1,Tides,1\nP2,L1,Kites,1\nP3,L2,Bells,1\n  200 {"added":3,"same":0}
office  POST /rolls/students id,name,code\nS1,Ann,ann-code-1\nS2,"Roe, Bea",bea-code-2\n  200 {"added":2,"same":0}
office  POST /rolls/students id,name,code\nS3,Cyr,cyr-code-3\nS1,Ann,ann-code-1\n  200 {"added":1,"same":1}
"#;

/// The move to choosing, and the lists.
pub const LISTS: &str = r#"
office  POST /phase {"phase":"choosing"}       200 {"phase":"choosing"}
ann     PUT /choices {"projects":["P1","P2"]}  200 {"projects":["P1","P2"]}
bea     PUT /choices {"projects":["P1","P3"]}  200 {"projects":["P1","P3"]}
"#;

pub const TO_RANKING: &str = r#"
office  POST /phase {"phase":"ranking"}  200 {"phase":"ranking"}
"#;

/// The rankings and the publication.
pub const RANKED: &str = r#"
lee     PUT /ranking {"students":["S2","S1"]}  200 {"students":["S2","S1"]}
moe     PUT /ranking {"students":["S2"]}       200 {"students":["S2"]}
office  POST /phase {"phase":"published"}      200 {"phase":"published"}
"#;

/// The same, with a publication that is refused because it is too early.
pub const PUBLICATION: &str = r#"
lee     PUT /ranking {"students":["S2","S1"]}  200 {"students":["S2","S1"]}
office  POST /phase {"phase":"published"}      409 {"error":"still_to_rank","lecturers":["L2"]}
moe     PUT /ranking {"students":["S2"]}       200 {"students":["S2"]}
office  POST /phase {"phase":"published"}      200 {"phase":"published"}
"#;

/// A year in setup. The next three are in the later phases.
pub const IN_SETUP: &[&str] = &[ROLLS];

pub const IN_CHOOSING: &[&str] = &[ROLLS, LISTS];

pub const IN_RANKING: &[&str] = &[ROLLS, LISTS, TO_RANKING];

pub const IN_PUBLISHED: &[&str] = &[ROLLS, LISTS, TO_RANKING, PUBLICATION];

/// The whole first round.
pub const FIRST_ROUND: &[&str] = &[ENROLLED, LISTS, TO_RANKING, RANKED];

/// The first result, as S1 is shown it.
pub const RESULT: &str = r#"
ann  GET /result  200 {"project":"P2"}
"#;

pub const SECOND_OPENING: &str = r#"
office  POST /phase {"phase":"choosing","round":2}  200 {"phase":"choosing","round":2}
"#;

/// The list of S3, who has no project.
pub const SECOND_LISTS: &str = r#"
cyr  PUT /choices {"projects":["P3"]}  200 {"projects":["P3"]}
"#;

pub const SECOND_TO_RANKING: &str = r#"
office  POST /phase {"phase":"ranking"}  200 {"phase":"ranking","round":2}
"#;

/// The ranking, the publication and the result that S3 is shown.
pub const SECOND_PUBLICATION: &str = r#"
moe     PUT /ranking {"students":["S3"]}   200 {"students":["S3"]}
office  POST /phase {"phase":"published"}  200 {"phase":"published","round":2}
cyr     GET /result                        200 {"project":"P3"}
"#;

/// Both rounds. From the first publication on, each phase shows S1 the first result.
pub const TWO_ROUNDS: &[&str] = &[
    ROLLS,
    LISTS,
    TO_RANKING,
    PUBLICATION,
    RESULT,
    SECOND_OPENING,
    SECOND_LISTS,
    RESULT,
    SECOND_TO_RANKING,
    RESULT,
    SECOND_PUBLICATION,
    RESULT,
];

const FILLED: &str = r#"
office  POST /ranking/fill {}  200 {"filled":["L2"]}
"#;

const SECOND_PUBLISHED: &str = r#"
office  POST /phase {"phase":"published"}  200 {"phase":"published","round":2}
"#;

/// A second round in choosing. The next three go further.
pub const REOPENED: &[&str] = &[ENROLLED, LISTS, TO_RANKING, RANKED, SECOND_OPENING];

pub const RANKING_AGAIN: &[&str] = &[
    ENROLLED,
    LISTS,
    TO_RANKING,
    RANKED,
    SECOND_OPENING,
    SECOND_LISTS,
    SECOND_TO_RANKING,
];

pub const RANKED_AGAIN: &[&str] = &[
    ENROLLED,
    LISTS,
    TO_RANKING,
    RANKED,
    SECOND_OPENING,
    SECOND_LISTS,
    SECOND_TO_RANKING,
    FILLED,
];

pub const PUBLISHED_AGAIN: &[&str] = &[
    ENROLLED,
    LISTS,
    TO_RANKING,
    RANKED,
    SECOND_OPENING,
    SECOND_LISTS,
    SECOND_TO_RANKING,
    FILLED,
    SECOND_PUBLISHED,
];
