//! Scripted years with unusual rolls and lists.

const ONE_KEY: &str = r#"
office  POST /rolls/lecturers id,name,code,capacity\nA1,Lee,lee-code-01,2\n  200 {"added":1,"same":0}
office  POST /rolls/students id,name,code\nA1,Ann,ann-code-1\n  200 {"added":1,"same":0}
lee     GET /me          200 {"capacity":2,"key":"A1","name":"Lee","phase":"setup","role":"lecturer"}
ann     GET /me          200 {"key":"A1","name":"Ann","phase":"setup","role":"student"}
ann     GET /applicants  403 {"error":"not_yours"}
moe     GET /me          403 {"error":"no_caller"}
"#;

const OTHER_ENDS: &str = r#"
office  POST /rolls/students \u{feff}id,name,code\r\nS1,Ann,ann-code-1\r\nS2,"Roe, Bea",bea-code-2\r\n  200 {"added":2,"same":0}
"#;

const FAULTY_ROLLS: &str = r#"
office  POST /rolls/students id,name,code\nS1,Ann,ann-code-1\nS1,Ann,ann-code-1\n  200 {"added":1,"same":1}
office  POST /rolls/students id,name,code\nS4,Dee,office-code-0\n  409 {"error":"roll_conflict","row":1}
office  POST /rolls/projects id,lecturer,title,capacity\nP9,L9,Tops,1\n  422 {"error":"bad_row","row":1}
"#;

const LONG_LISTS: &str = r#"
# A department with one lecturer, 21 projects and one student, in choosing.
office  POST /rolls/lecturers id,name,code,capacity\nL1,Lee,lee-code-01,2\n  200 {"added":1,"same":0}
office  POST /rolls/projects id,lecturer,title,capacity\nP01,L1,Tides,1\nP02,L1,Tides,1\nP03,L1,Tides,1\nP04,L1,Tides,1\nP05,L1,Tides,1\nP06,L1,Tides,1\nP07,L1,Tides,1\nP08,L1,Tides,1\nP09,L1,Tides,1\nP10,L1,Tides,1\nP11,L1,Tides,1\nP12,L1,Tides,1\nP13,L1,Tides,1\nP14,L1,Tides,1\nP15,L1,Tides,1\nP16,L1,Tides,1\nP17,L1,Tides,1\nP18,L1,Tides,1\nP19,L1,Tides,1\nP20,L1,Tides,1\nP21,L1,Tides,1\n  200 {"added":21,"same":0}
office  POST /rolls/students id,name,code\nS1,Ann,ann-code-1\n  200 {"added":1,"same":0}
office  POST /phase {"phase":"choosing"}         200 {"phase":"choosing"}
# A list of twenty, and lists that are refused and leave it.
ann     PUT /choices {"projects":["P01","P02","P03","P04","P05","P06","P07","P08","P09","P10","P11","P12","P13","P14","P15","P16","P17","P18","P19","P20"]}  200 {"projects":["P01","P02","P03","P04","P05","P06","P07","P08","P09","P10","P11","P12","P13","P14","P15","P16","P17","P18","P19","P20"]}
ann     PUT /choices {"projects":["P01","P02","P03","P04","P05","P06","P07","P08","P09","P10","P11","P12","P13","P14","P15","P16","P17","P18","P19","P20","P21"]}  422 {"at":21,"error":"bad_list","fault":"too_long"}
ann     GET /choices                             200 {"projects":["P01","P02","P03","P04","P05","P06","P07","P08","P09","P10","P11","P12","P13","P14","P15","P16","P17","P18","P19","P20"]}
ann     PUT /choices {"projects":["P01","P01"]}  422 {"at":2,"error":"bad_list","fault":"repeated"}
ann     GET /choices                             200 {"projects":["P01","P02","P03","P04","P05","P06","P07","P08","P09","P10","P11","P12","P13","P14","P15","P16","P17","P18","P19","P20"]}
ann     PUT /choices {"projects":["P01","P9x"]}  422 {"at":2,"error":"bad_list","fault":"unknown_project"}
ann     GET /choices                             200 {"projects":["P01","P02","P03","P04","P05","P06","P07","P08","P09","P10","P11","P12","P13","P14","P15","P16","P17","P18","P19","P20"]}
"#;

pub const ONE_KEY_NAMES_TWO: &[&str] = &[ONE_KEY];

pub const OTHER_LINE_ENDS: &[&str] = &[OTHER_ENDS];

pub const FAULTY_ROWS: &[&str] = &[FAULTY_ROLLS];

pub const LIST_OF_TWENTY: &[&str] = &[LONG_LISTS];
