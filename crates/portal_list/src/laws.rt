//! Law: lists are always clean, and never break.

ghost use Rattle.portal_list.specs.Lists.{AreLists};

use crate::keeper::ListKeeper;
use portal_rules::Keeper;

/// Law: as a `Keeper`, lists are clean and not broken, whatever they hold; no fault of a store is
/// counted, and a stop leaves nothing.
pub fn lists_never_break()
    ensures { AreLists ⟦<ListKeeper as Keeper>⟧.state }
{}
