//! Gives each free student a turn, until nobody is free: `solve` runs the SPA-student algorithm.

ghost use Rattle.std.specs.Prelude.{◌≡◌, ◌≢◌, ◌<◌, ◌⊎◌, ℕ, IfOk, IfSome, Some, sum};
ghost use Rattle.spa_model.specs.Spa.{IsBest};
ghost use Rattle.spa_student.specs.inner.Cuts.{IsFree, IsPlacedOrExhausted, IsUnderWay};

use crate::cuts::Progress;
use spa_model::{Instance, Matching};
use std::alloc::{AllocError, Global};

impl Progress {
    /// Moves a free student's cursor to the first entry that is not cut. Assigns the student to
    /// that project, if there is one. Returns the student who is then removed, if any.
    fn turn(&mut self, instance: &Instance, s: usize) -> Option<usize>
        requires state { IsUnderWay instance.now self.old }
        requires free { IsFree instance.now self.old s }
        ensures state { IsUnderWay instance.now self.new }
        ensures settled { (x : ℕ) → result ≢ Some x → (x ≡ s)
            ⊎ IsPlacedOrExhausted instance.now self.old x
            → IsPlacedOrExhausted instance.now self.new x }
        ensures free { IfSome result (IsFree instance.now self.new) }
        ensures moves { IfSome result
            (λ w. sum self.old.cursors.items < sum self.new.cursors.items) }
    {
        let list = instance.choices(s);
        let k = self.next(instance, s);
        self.cursors[s] = k;
        if k < list.len() {
            self.put(instance, s, list[k])
        } else {
            None
        }
    }

    /// Gives a free student a turn, then each student whom a turn removes, until nobody is removed.
    fn settle(&mut self, instance: &Instance, s: usize)
        requires state { IsUnderWay instance.now self.old }
        requires free { IsFree instance.now self.old s }
        ensures state { IsUnderWay instance.now self.new }
        ensures settled { (x : ℕ) → (x ≡ s) ⊎ IsPlacedOrExhausted instance.now self.old x
            → IsPlacedOrExhausted instance.now self.new x }
    {
        let mut free = s;
        while let Some(w) = self.turn(instance, free) {
            free = w;
        }
    }

    /// Settles each student who is free, one after the other.
    fn run(&mut self, instance: &Instance)
        requires { IsUnderWay instance.now self.old }
        ensures { IsBest instance.now self.new.projects.items }
    {
        for s in 0..instance.students() {
            if self.projects[s].is_none() {
                self.settle(instance, s);
            }
        }
    }
}

/// Computes the student-optimal stable matching.
pub fn solve(alloc: Global, instance: &Instance) -> Result<Matching, AllocError>
    ensures { IfOk result (λ m. IsBest instance.now m) }
{
    let mut progress = Progress::new(alloc, instance)?;
    progress.run(instance);
    Ok(Matching::of(instance, progress.projects))
}
