//! The trait `Keeper` of everything that stores a world.

ghost use Rattle.std.specs.Prelude.{◌≡◌, IfOk, OnOk};
ghost use Rattle.portal_rules.specs.World.{changed};
ghost use Rattle.portal_rules.specs.View as seen;
ghost use Rattle.portal_rules.specs.Good as meant_by;
ghost use Rattle.portal_rules.specs.Good.{Good, CanPublish};
ghost use Rattle.portal_rules.specs.Meaning.{change_model};
ghost use Rattle.portal_rules.specs.Keeping.{KeeperState, KeepsGood, IsAlive, Looks, Changes};

use crate::decision::Change;
use crate::view::View;
use spa_model::Instance;
use std::alloc::Global;

/// The reason why a keeper failed.
#[derive(Clone, Copy, Debug, Drop, PartialEq, Eq)]
pub enum KeepFault {
    /// There was not enough memory. The world of a keeper that is still clean is unchanged.
    Memory,
    /// The store returned an error, or its rows represent no good world.
    Store,
}

/// Stores a world, in lists or in a database.
pub trait Keeper {
    /// What contracts say of a keeper: its world; whether it is clean, so that what they say of
    /// the world holds; and what the disk and a stop of the machine may do to it.
    ghost state: { Self → KeeperState };

    /// Returns what the caller with this code sees.
    fn view(&mut self, alloc: Global, code: &[u8]) -> Result<View, KeepFault>
        ensures looks { Looks result (state self.old) (state self.new) }
        ensures alive { OnOk result (IsAlive (state self.new)) }
        ensures shown { IfOk result (λ view. (state self.new).clean → Good (state self.old).world
            → view ≡ seen.view (state self.old).world code.now) };

    /// Returns the current round's instance, in ranking, once no lecturer is still to rank.
    fn instance(&mut self, alloc: Global) -> Result<Instance, KeepFault>
        requires good { KeepsGood (state self.old) }
        requires ready { (state self.old).clean → CanPublish (state self.old).world }
        ensures looks { Looks result (state self.old) (state self.new) }
        ensures instance { IfOk result (λ instance. (state self.new).clean
            → instance ≡ meant_by.instance (state self.old).world) };

    /// Makes one change. The world has to be good before and after it.
    fn apply(&mut self, alloc: Global, change: &Change) -> Result<(), KeepFault>
        requires good { KeepsGood (state self.old) }
        requires leaves_good { (state self.old).clean
            → Good (changed (state self.old).world (change_model change.now)) }
        ensures changes { Changes result (state self.old) (state self.new)
            (λ w. w ≡ changed (state self.old).world (change_model change.now)) };
}
