//! Laws: each stream has exactly one sequence of requests and one ending.

ghost use Rattle.std.specs.Prelude.{◌≡◌, ℕ, List};
ghost use Rattle.portal_rules.specs.Run.{Request};
ghost use Rattle.portal_wire.specs.Conversation.{Last, Requests, connection_limit};

use crate::MOST_REQUESTS;
use portal_frame::laws::opens_some;

/// Law: the code's most requests of a connection are those of the definitions.
pub fn limit_is()
    ensures { MOST_REQUESTS ≡ connection_limit }
{}

/// Law: a stream has at most one list of requests, one ending and one closing text.
pub fn stream_once()
    ensures { (bytes : List ℕ) (asked others : List Request) (end last : Last)
        (closing text : List ℕ)
        → Requests bytes asked end closing → Requests bytes others last text
        → (asked ≡ others) × (end ≡ last) × (closing ≡ text) }
{}

/// Law: every stream has a list of requests, an ending and a closing text.
pub fn stream_some(bytes: &[u8])
    ensures { (asked : List Request) × (end : Last) × (closing : List ℕ)
        × Requests bytes.now asked end closing }
{
    for start in 0..bytes.len() {
        let (_, rest) = bytes.split_at(start);
        opens_some(rest);
    }
    opens_some(&[]);
}
