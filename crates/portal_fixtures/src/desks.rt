//! Makes a desk over the empty world in setup, in lists, and shows what a desk holds.

use crate::callers::OFFICE;
use crate::script::lines;
use portal_core::{Code, Keeper};
use portal_desk::{Counted, Desk};
use portal_list::ListKeeper;
use std::alloc::{AllocError, Global};

/// Returns the office's code.
pub fn office_code(alloc: Global) -> Result<Code, AllocError> {
    let Ok(code) = Code::parse(alloc, OFFICE.as_bytes()) else {
        return Err(AllocError);
    };
    Ok(code)
}

/// Makes a desk over the empty world in setup, in lists.
pub fn fresh_lists(alloc: Global) -> Result<Desk<ListKeeper>, AllocError> {
    let office = office_code(alloc)?;
    Ok(Desk::new(ListKeeper::new(alloc, office)))
}

/// Serves one connection with these bytes. Returns the output, whether or not serving fails.
pub fn output_for<K: Keeper>(alloc: Global, desk: &mut Desk<K>, bytes: &[u8]) -> Vec<u8> {
    let mut source = Counted::new(bytes);
    let mut sink = Counted::new(Vec::new(alloc));
    let _served = desk.serve(alloc, &mut source, &mut sink);
    sink.into_inner()
}

/// Requests that show a world: its phase, rolls, lists, rankings and result.
pub const SEEN: &str = r#"
office       GET /status
office       GET /catalogue
office       GET /report
lee          GET /ranking
lee          GET /applicants
moe          GET /ranking
ann          GET /choices
bea          GET /choices
cyr          GET /me
stud-code-4  GET /choices
stud-code-5  GET /choices
"#;

/// Sends the requests of `SEEN` on one connection, and returns the output.
pub fn world_output<K: Keeper>(alloc: Global, desk: &mut Desk<K>) -> Result<Vec<u8>, AllocError> {
    let mut text = String::new(alloc);
    let asked = lines(alloc, SEEN)?;
    for line in &asked {
        let request = line.request(alloc)?;
        text.push_str(request.as_str())?;
    }
    Ok(output_for(alloc, desk, text.as_bytes()))
}
