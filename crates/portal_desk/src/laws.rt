//! Laws on the bytes of replies: privacy, and "The headline" of PROMISES.md.

ghost use Rattle.std.specs.Prelude.{◌≡◌, ℕ, List};
ghost use Rattle.std.specs.List.{AllByRecursion, AllZip};
ghost use Rattle.portal_rules.specs.World.{World};
ghost use Rattle.portal_rules.specs.Heard.{SameUpToListOrder, SameRequest};
ghost use Rattle.portal_rules.specs.Good.{Good};
ghost use Rattle.portal_rules.specs.Run.{Request, Run, AllAnswered};
ghost use Rattle.portal_core.specs.Replies.{HasReply};
ghost use Rattle.portal_wire.specs.Conversation.{Exchange, requests_of, replies_of, Requests, Last};
ghost use Rattle.portal_desk.specs.Headline.{IsServed, MainPromise, ServesAnswered};
ghost use Rattle.portal_desk.specs.Headline.{AlikeTexts, IsLikeAll};
ghost use Rattle.portal_desk.specs.Session.{Session};

use portal_core::Keeper;
use portal_core::laws::{published_best, run_good};

/// Law on the reply bytes of any two lists of streams, each list served stream after stream: a
/// caller's first view and what the caller hears determine them. If a caller gets no 503 in two
/// runs, starts with the same view and hears the same in both, then the caller's replies and last
/// view are equal. Now let no reply be 503, and let the first worlds and the requests differ at
/// most in the order within students' lists. Then all replies are equal, up to and including the
/// first accepted move to published, except replies with a student's list. A refusal that ends a
/// stream belongs to no caller: it depends on the stream alone (`stream_once` of `portal_wire`).
pub fn same_bytes()
    ensures replies { (w : World) (es : List Exchange) (worlds : List World)
        → Run w (requests_of es) (replies_of es) worlds → IsLikeAll w es worlds }
    ensures places { (w v : World) (es fs : List Exchange) (worlds later : List World)
        → SameUpToListOrder w v → AllZip SameRequest (requests_of es) (requests_of fs)
        → Run w (requests_of es) (replies_of es) worlds → AllAnswered (replies_of es)
        → Run v (requests_of fs) (replies_of fs) later → AllAnswered (replies_of fs)
        → AlikeTexts es fs }
{}

/// Law: from a good world, a stream is served to its end without a 503 in exactly one way, if its
/// requests make well-formed calls, or are turned away other than by a 503. Each stream has
/// requests and an ending (`stream_some` of `portal_wire`).
pub fn visit_exists()
    ensures there { (w : World) (bytes : List ℕ) (asked : List Request) (end : Last)
        (closing : List ℕ)
        → Good w → Requests bytes asked end closing → AllByRecursion (λ r. HasReply r.wish) asked
        → (es : List Exchange) × (written : List ℕ) × (worlds : List World)
        × ServesAnswered w bytes end es written worlds }
    ensures once { (w : World) (bytes : List ℕ) (end last : Last) (es fs : List Exchange)
        (written other : List ℕ) (worlds later : List World)
        → ServesAnswered w bytes end es written worlds
        → ServesAnswered w bytes last fs other later
        → (end ≡ last) × (es ≡ fs) × (written ≡ other) × (worlds ≡ later) }
{}

/// Law: the headline, for a desk that serves a list of streams in turn over any keeper. A call of
/// `serve` may stop before its stream ends, and the keeper may be closed and reopened between
/// streams. The first world is good, and the last keeper is clean and its disk has returned what
/// was written. Then the requests of all calls, with their replies, are a run.
///
/// Each world in this run is good, so each published result is stable. Each step that publishes
/// leaves the student-optimal result. A student's or lecturer's request changes no view but the
/// caller's and the office's. Compare this with any other run, as of another desk. Suppose a caller
/// gets no 503, starts with the same view and hears the same in both. Then the replies to that
/// caller are equal byte for byte, and so is the last view. The last keeper has the last world.
pub fn headline<K: Keeper>()
    ensures { (k : K) (sessions : List (Session K)) → IsServed K.state k sessions
        → MainPromise K.state k sessions }
{
    run_good();
    published_best();
}
