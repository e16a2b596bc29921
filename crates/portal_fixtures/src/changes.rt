//! Scripted years with each kind of change, for tests of failing disks.

/// The three rolls.
pub const SETUP: &str = r#"
office  POST /rolls/lecturers id,name,code,capacity\nL1,Lee,lee-code-01,2\nL2,Moe,moe-code-02,1\n  200 {"added":2,"same":0}
office  POST /rolls/projects id,lecturer,title,capacity\nP1,L1,Tides,1\nP2,L1,Kites,1\nP3,L2,Bells,1\n  200 {"added":3,"same":0}
office  POST /rolls/students id,name,code\nS1,Ann,ann-code-1\nS2,Bea,bea-code-2\nS3,Cyr,cyr-code-3\n  200 {"added":3,"same":0}
"#;

/// The move to choosing, two lists, and a replacement of the first.
pub const CHOOSING: &str = r#"
office  POST /phase {"phase":"choosing"}       200 {"phase":"choosing"}
ann     PUT /choices {"projects":["P1","P2"]}  200 {"projects":["P1","P2"]}
bea     PUT /choices {"projects":["P1","P3"]}  200 {"projects":["P1","P3"]}
ann     PUT /choices {"projects":["P2","P1"]}  200 {"projects":["P2","P1"]}
"#;

/// The move to ranking, a ranking, its replacement, and a fill of the missing ranking.
pub const RANKING: &str = r#"
office  POST /phase {"phase":"ranking"}        200 {"phase":"ranking"}
lee     PUT /ranking {"students":["S1","S2"]}  200 {"students":["S1","S2"]}
lee     PUT /ranking {"students":["S2","S1"]}  200 {"students":["S2","S1"]}
office  POST /ranking/fill {}                  200 {"filled":["L2"]}
"#;

pub const PUBLICATION: &str = r#"
office  POST /phase {"phase":"published"}  200 {"phase":"published"}
"#;

/// A year of one round, for `checks/years`. `BOTH_ROUNDS` has two.
pub const ONE_ROUND: &[&str] = &[SETUP, CHOOSING, RANKING, PUBLICATION];

/// A first round that leaves projects with room, and students without a project.
pub const FIRST: &str = r#"
office       POST /rolls/lecturers id,name,code,capacity\nL1,Lee,lee-code-01,2\nL2,Moe,moe-code-02,3\nL3,Poe,poe-code-03,5\n  200 {"added":3,"same":0}
office       POST /rolls/projects id,lecturer,title,capacity\nP1,L1,Tides,1\nP3,L2,Bells,2\nP4,L2,Waves,2\nP5,L3,Rings,2\n  200 {"added":4,"same":0}
office       POST /rolls/students id,name,code\nS1,Ann,stud-code-1\nS4,Dee,stud-code-4\nS5,Eva,stud-code-5\nS8,Hal,stud-code-8\n  200 {"added":4,"same":0}
office       POST /phase {"phase":"choosing"}   200 {"phase":"choosing"}
stud-code-1  PUT /choices {"projects":["P1"]}   200 {"projects":["P1"]}
office       POST /phase {"phase":"ranking"}    200 {"phase":"ranking"}
lee          PUT /ranking {"students":["S1"]}   200 {"students":["S1"]}
office       POST /phase {"phase":"published"}  200 {"phase":"published"}
"#;

/// The opening of the second round, two lists, and a replacement of the first.
pub const OPENED: &str = r#"
office       POST /phase {"phase":"choosing","round":2}  200 {"phase":"choosing","round":2}
stud-code-4  PUT /choices {"projects":["P3","P4"]}       200 {"projects":["P3","P4"]}
stud-code-5  PUT /choices {"projects":["P4","P5"]}       200 {"projects":["P4","P5"]}
stud-code-4  PUT /choices {"projects":["P4","P3"]}       200 {"projects":["P4","P3"]}
"#;

/// The move to ranking, a ranking, its replacement, and a fill of the missing ranking.
pub const RANKED: &str = r#"
office  POST /phase {"phase":"ranking"}        200 {"phase":"ranking","round":2}
moe     PUT /ranking {"students":["S4","S5"]}  200 {"students":["S4","S5"]}
moe     PUT /ranking {"students":["S5","S4"]}  200 {"students":["S5","S4"]}
office  POST /ranking/fill {}                  200 {"filled":["L3"]}
"#;

pub const SECOND_PUBLICATION: &str = r#"
office  POST /phase {"phase":"published"}  200 {"phase":"published","round":2}
"#;

pub const BOTH_ROUNDS: &[&str] = &[FIRST, OPENED, RANKED, SECOND_PUBLICATION];
