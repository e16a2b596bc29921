//! Makes calls to a keeper of a good world, and checks the replies.

ghost use Rattle.portal_rules.specs.Meaning.{call_model};
ghost use Rattle.portal_rules.specs.Run.{HasForm};

use crate::tests::readers::same;
use crate::tests::rows::{Sketch, rows_of};
use portal_core::{Body, Call, Code};
use portal_desk::play;
use portal_list::ListKeeper;
use std::marker::Model;
use std::process::Abort;

/// A keeper of a good world.
#[derive(Drop)]
pub(crate) struct Portal {
    keeper: ListKeeper,
}

impl Model for Portal {
    ghost use Rattle.portal_rules.specs.World.{World};
    ghost use Rattle.portal_rules.specs.Good.{Good};

    ghost Value = { World };

    ghost view = { λ p. p.keeper };

    ghost invariant = { λ p. Good p.keeper };
}

pub(crate) const OFFICE: &str = "office-code-0";

/// Checks that the body is this JSON.
fn is_json(rt: &(impl Abort + AllocGlobal), body: &Body, wanted: &str) {
    match body {
        Body::Json(value) => {
            let text = value.to_string(rt.alloc()).expect(rt, "memory");
            same(rt, text.as_str(), wanted);
        }
        _ => assert!(rt; false, "no JSON"),
    }
}

impl Portal {
    /// Makes a keeper of the empty world in setup.
    pub(crate) fn new(rt: &(impl Abort + AllocGlobal)) -> Portal {
        let office = Code::parse(rt.alloc(), OFFICE.as_bytes()).expect(rt, "a code");
        Portal {
            keeper: ListKeeper::new(rt.alloc(), office),
        }
    }

    /// Makes a keeper of the world of the sketch, and checks that it is good.
    pub(crate) fn of(rt: &(impl Abort + AllocGlobal), sketch: &Sketch) -> Portal {
        let keeper = ListKeeper::from_rows(rt.alloc(), rows_of(rt, sketch));
        let keeper = keeper.expect(rt, "rows of a sound world");
        assert!(rt; keeper.is_good(rt.alloc()).expect(rt, "memory"));
        Portal { keeper }
    }

    /// Checks that a call of the caller with this code gets this status, and returns the body.
    fn reply(
        &mut self,
        rt: &(impl Abort + AllocGlobal),
        code: &str,
        call: Call,
        status: u16,
    ) -> Body
        requires { HasForm (call_model call) }
    {
        let reply = play(rt.alloc(), &mut self.keeper, code.as_bytes(), &call);
        let reply = reply.expect(rt, "memory");
        assert_eq!(rt; reply.status, status);
        reply.body
    }

    /// Checks that a call of the caller with this code gets this status and body.
    pub(crate) fn answers(
        &mut self,
        rt: &(impl Abort + AllocGlobal),
        code: &str,
        call: Call,
        status: u16,
        body: &str,
    )
        requires { HasForm (call_model call) }
    {
        is_json(rt, &self.reply(rt, code, call, status), body);
    }

    /// Checks that a call of the caller with this code is accepted.
    pub(crate) fn accepts(&mut self, rt: &(impl Abort + AllocGlobal), code: &str, call: Call)
        requires { HasForm (call_model call) }
    {
        self.reply(rt, code, call, 200);
    }
}
