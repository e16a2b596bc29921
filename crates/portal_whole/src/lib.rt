//! Proves PROMISES.md's headline for streams served over a store in memory (`replies_in_memory`).
#![tactic(auto)]

ghost use Rattle.std.specs.Prelude.{IfSome, map};
ghost use Rattle.portal_store.specs.World.{first_world};
ghost use Rattle.portal_whole.specs.Whole.{KeepsPromise};

use portal_core::Code;
use portal_core::laws::{published_best, run_good};
use portal_desk::{Desk, serve_streams};
use portal_store::Store;
use portal_store::laws::{disk_in_memory, unbroken_in_memory};
use std::alloc::Global;

/// Serves streams one after another over a new store in memory, and returns what was written for
/// each. A reply 503 leaves the world as it was. Returns `None` if making the store or serving a
/// stream fails, or memory runs out.
pub fn replies_in_memory(alloc: Global, office: Code, streams: &[&[u8]]) -> Option<Vec<Vec<u8>>>
    ensures promised { IfSome result (λ texts. KeepsPromise (first_world office)
        (map (λ stream. stream.now) streams.now) (map (λ text. text.items) texts.items)) }
{
    run_good();
    published_best();
    disk_in_memory();
    unbroken_in_memory();
    let Ok(store) = Store::create_memory(alloc, office) else {
        return None;
    };
    let mut desk = Desk::new(store);
    serve_streams(alloc, &mut desk, streams)
}
