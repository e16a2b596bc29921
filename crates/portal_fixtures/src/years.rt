//! The scripted first round of the worked world, with requests that each phase refuses.

use crate::worked::{LISTS, PUBLICATION, ROLLS, TO_RANKING};

const SETUP: &str = r#"
office  POST /rolls/students id,name,code\nS1,Ann,ann-code-1\nS2,"Roe, Bea",bea-code-2\n  200 {"added":0,"same":2}
office  POST /rolls/students id,name,code\nS1,Anna,ann-code-1\nS2,"Roe, Bea",bea-code-2\n  409 {"error":"roll_conflict","row":1}
office  POST /rolls/students id,name,code\nS1,Ann,ann-code-1\nS2,"Roe, Bea",bea-code-2\n  200 {"added":0,"same":2}
nobody  PUT /choices {"projects":["P1"]}  403 {"error":"no_caller"}
office  GET /me                           200 {"phase":"setup","role":"office"}
ann     GET /me                           200 {"key":"S1","name":"Ann","phase":"setup","role":"student"}
lee     GET /me                           200 {"capacity":2,"key":"L1","name":"Lee","phase":"setup","role":"lecturer"}
nobody  GET /me                           403 {"error":"no_caller"}
"#;

const CHOOSING: &str = r#"
nobody  PUT /choices {"projects":["P1"]}        403 {"error":"no_caller"}
office  POST /phase {"phase":"choosing"}        200 {"phase":"choosing"}
office  POST /phase {"phase":"published"}       409 {"error":"wrong_phase"}
ann     PUT /choices {"projects":["P1","P1"]}   422 {"at":2,"error":"bad_list","fault":"repeated"}
ann     PUT /choices {"projects":["P1","P9x"]}  422 {"at":2,"error":"bad_list","fault":"unknown_project"}
ann     GET /choices                            200 {"projects":["P1","P2"]}
ann     PUT /choices {"projects":["P2","P1"]}   200 {"projects":["P2","P1"]}
ann     PUT /choices {"projects":["P2","P1"]}   200 {"projects":["P2","P1"]}
ann     GET /choices                            200 {"projects":["P2","P1"]}
bea     GET /choices                            200 {"projects":["P1","P3"]}
ann     PUT /choices {"projects":["P1","P2"]}   200 {"projects":["P1","P2"]}
lee     GET /applicants                         409 {"error":"wrong_phase"}
ann     GET /applicants                         403 {"error":"not_yours"}
"#;

const RANKING: &str = r#"
# In ranking: a caller whom nobody knows, and what is of other phases.
nobody  PUT /choices {"projects":["P1"]}       403 {"error":"no_caller"}
office  POST /rolls/students id,name,code\n    409 {"error":"wrong_phase"}
office  GET /report                            409 {"error":"wrong_phase"}
office  GET /allocation.csv                    409 {"error":"wrong_phase"}
# In ranking: who chose what, and rankings that are refused.
lee     GET /applicants                        200 {"projects":[{"applicants":[{"key":"S1","name":"Ann"},{"key":"S2","name":"Roe, Bea"}],"id":"P1"},{"applicants":[{"key":"S1","name":"Ann"}],"id":"P2"}]}
lee     PUT /ranking {"students":["S2"]}       422 {"at":0,"error":"bad_list","fault":"missing"}
lee     PUT /ranking {"students":["S1","S3"]}  422 {"at":2,"error":"bad_list","fault":"not_an_applicant"}
lee     GET /ranking                           200 {"students":null}
ann     GET /choices                           200 {"projects":["P1","P2"]}
"#;

const PUBLISHED: &str = r#"
# In published: who has what.
ann     GET /result                          200 {"project":"P2"}
bea     GET /result                          200 {"project":"P1"}
cyr     GET /result                          200 {"project":null}
lee     GET /result                          200 {"projects":[{"id":"P1","students":[{"key":"S2","name":"Roe, Bea"}]},{"id":"P2","students":[{"key":"S1","name":"Ann"}]}]}
office  GET /status                          200 {"assigned":2,"lecturers":2,"phase":"published","projects":3,"still_to_rank":[],"students":3,"unassigned":["S3"],"without_list":["S3"]}
office  PUT /choices {"projects":[]}         403 {"error":"not_yours"}
# In published: what nobody but the office may ask, and what the office may not.
ann     POST /rolls/students id,name,code\n  403 {"error":"not_yours"}
nobody  PUT /choices {"projects":["P1"]}     403 {"error":"no_caller"}
ann     GET /report                          403 {"error":"not_yours"}
ann     GET /allocation.csv                  403 {"error":"not_yours"}
office  GET /choices                         403 {"error":"not_yours"}
office  GET /allocation                      200 {"pairs":[{"project":"P2","student":"S1"},{"project":"P1","student":"S2"}]}
"#;

pub const WORKED_YEAR: &[&str] = &[
    ROLLS,
    SETUP,
    LISTS,
    CHOOSING,
    TO_RANKING,
    RANKING,
    PUBLICATION,
    PUBLISHED,
];
