//! The scripted second round of the worked world, with what each caller may ask.

use crate::worked::{ENROLLED, LISTS, RANKED, TO_RANKING};

const SECOND: &str = r#"
# No move but one opens the second round, and nobody but the office makes it.
office  POST /phase {"phase":"choosing"}             409 {"error":"wrong_phase"}
office  POST /phase {"phase":"choosing","round":1}   409 {"error":"wrong_phase"}
office  POST /phase {"phase":"ranking","round":2}    409 {"error":"wrong_phase"}
office  POST /phase {"phase":"published","round":2}  409 {"error":"wrong_phase"}
lee     POST /phase {"phase":"choosing","round":2}   403 {"error":"not_yours"}
office  POST /phase {"phase":"published","round":1}  200 {"phase":"published"}
# The office opens it, which it may ask for again, and everybody is shown what is left.
office  POST /phase {"phase":"choosing","round":2}   200 {"phase":"choosing","round":2}
office  POST /phase {"phase":"choosing"}             200 {"phase":"choosing","round":2}
cyr     GET /catalogue                               200 {"projects":[{"capacity":1,"id":"P3","lecturer":"L2","lecturer_name":"Moe","title":"Bells"}]}
lee     GET /catalogue                               200 {"projects":[{"capacity":1,"id":"P3","lecturer":"L2","lecturer_name":"Moe","title":"Bells"}]}
cyr     GET /me                                      200 {"key":"S3","name":"Cyr","phase":"choosing","role":"student","round":2}
lee     GET /me                                      200 {"capacity":2,"key":"L1","name":"Lee","phase":"choosing","role":"lecturer","round":2}
office  GET /me                                      200 {"phase":"choosing","role":"office","round":2}
office  GET /status                                  200 {"assigned":2,"lecturers":2,"phase":"choosing","projects":3,"round":2,"still_to_rank":[],"students":3,"unassigned":["S3"],"without_list":["S3"]}
# Who has a project makes no list; who has none makes one of what is left.
ann     PUT /choices {"projects":[]}                 409 {"error":"already_placed"}
ann     PUT /choices {"projects":["P9","P9"]}        409 {"error":"already_placed"}
ann     GET /choices                                 200 {"projects":[]}
ann     GET /result                                  200 {"project":"P2"}
cyr     GET /result                                  200 {"project":null}
cyr     PUT /choices {"projects":["P1"]}             422 {"at":1,"error":"bad_list","fault":"unknown_project"}
cyr     PUT /choices {"projects":["P3","P3"]}        422 {"at":2,"error":"bad_list","fault":"repeated"}
cyr     GET /choices                                 200 {"projects":[]}
cyr     PUT /choices {"projects":["P3"]}             200 {"projects":["P3"]}
cyr     GET /choices                                 200 {"projects":["P3"]}
moe     GET /applicants                              409 {"error":"wrong_phase"}
office  POST /rolls/students id,name,code\n          409 {"error":"wrong_phase"}
office  POST /phase {"phase":"published"}            409 {"error":"wrong_phase"}
office  POST /phase {"phase":"ranking","round":1}    409 {"error":"wrong_phase"}
# The lists are closed.
office  POST /phase {"phase":"ranking","round":2}    200 {"phase":"ranking","round":2}
office  POST /phase {"phase":"ranking"}              200 {"phase":"ranking","round":2}
# The applicants are those of this round, and so is who is still to rank.
moe     GET /applicants                              200 {"projects":[{"applicants":[{"key":"S3","name":"Cyr"}],"id":"P3"}]}
lee     GET /applicants                              200 {"projects":[{"applicants":[],"id":"P1"},{"applicants":[],"id":"P2"}]}
lee     GET /ranking                                 200 {"students":null}
moe     PUT /ranking {"students":["S2"]}             422 {"at":1,"error":"bad_list","fault":"not_an_applicant"}
cyr     PUT /choices {"projects":[]}                 409 {"error":"wrong_phase"}
office  GET /status                                  200 {"assigned":2,"lecturers":2,"phase":"ranking","projects":3,"round":2,"still_to_rank":["L2"],"students":3,"unassigned":["S3"],"without_list":[]}
office  POST /phase {"phase":"published"}            409 {"error":"still_to_rank","lecturers":["L2"]}
office  POST /ranking/fill {}                        200 {"filled":["L2"]}
office  POST /ranking/fill {}                        200 {"filled":[]}
moe     GET /ranking                                 200 {"students":["S3"]}
moe     GET /result                                  200 {"projects":[{"id":"P3","students":[]}]}
office  GET /allocation                              200 {"pairs":[{"project":"P2","student":"S1"},{"project":"P1","student":"S2"}]}
office  POST /phase {"phase":"published"}            200 {"phase":"published","round":2}
# The results of both rounds are shown together, and there is no third.
cyr     GET /result                                  200 {"project":"P3"}
ann     GET /result                                  200 {"project":"P2"}
moe     GET /result                                  200 {"projects":[{"id":"P3","students":[{"key":"S3","name":"Cyr"}]}]}
lee     GET /result                                  200 {"projects":[{"id":"P1","students":[{"key":"S2","name":"Roe, Bea"}]},{"id":"P2","students":[{"key":"S1","name":"Ann"}]}]}
office  GET /allocation                              200 {"pairs":[{"project":"P2","student":"S1"},{"project":"P1","student":"S2"},{"project":"P3","student":"S3"}]}
office  GET /status                                  200 {"assigned":3,"lecturers":2,"phase":"published","projects":3,"round":2,"still_to_rank":[],"students":3,"unassigned":[],"without_list":[]}
cyr     GET /me                                      200 {"key":"S3","name":"Cyr","phase":"published","role":"student","round":2}
cyr     GET /catalogue                               200 {"projects":[{"capacity":1,"id":"P3","lecturer":"L2","lecturer_name":"Moe","title":"Bells"}]}
office  POST /phase {"phase":"choosing"}             409 {"error":"wrong_phase"}
office  POST /phase {"phase":"choosing","round":2}   409 {"error":"wrong_phase"}
office  POST /phase {"phase":"published","round":1}  409 {"error":"wrong_phase"}
"#;

pub const SECOND_ROUND: &[&str] = &[ENROLLED, LISTS, TO_RANKING, RANKED, SECOND];
