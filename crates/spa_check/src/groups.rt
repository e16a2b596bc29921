//! Counts the assigned students of each project and lecturer, and finds their worst rank.

ghost use Rattle.std.specs.Prelude.{◌≡◌, ◌+◌, ◌<◌, ◌^◌, IfOk, length, max};
ghost use Rattle.spa_model.specs.Spa.{IsMatching, IsOn, place, ranking_of};
ghost use Rattle.spa_check.specs.inner.Groups.{AreProjectGroups, AreLecturerGroups};

use spa_model::{Instance, Matching};
use std::alloc::{AllocError, Global};

/// The number of students at a project or of a lecturer, and the worst of their positions on the
/// lecturer's list. Positions count from 1. An empty group has 0.
#[derive(Clone, Copy)]
pub(crate) struct Group {
    pub(crate) count: usize,
    pub(crate) depth: usize,
}

const EMPTY: Group = Group { count: 0, depth: 0 };

/// Returns the group with one more student, whose position is `depth`.
fn group_with(group: Group, depth: usize) -> Group
    requires { group.count + 1 < 2 ^ 64 }
    ensures count { result.count ≡ group.count + 1 }
    ensures depth { result.depth ≡ max group.depth depth }
{
    Group {
        count: group.count + 1,
        depth: group.depth.max(depth),
    }
}

/// Returns the student's rank as a group counts it: the position on the lecturer's list, from 1.
pub(crate) fn depth_of(instance: &Instance, l: usize, s: usize) -> usize
    requires lecturer { l < length instance.now.rankings }
    requires student { s < length instance.now.choices }
    requires ranked { IsOn (ranking_of instance.now l) s }
    ensures { result ≡ place (ranking_of instance.now l) s + 1 }
{
    match instance.rank(l, s) {
        Some(rank) => rank as usize + 1,
        None => 0,
    }
}

/// Returns each project's group: the count of its students, and their worst rank.
pub(crate) fn project_groups(
    alloc: Global,
    instance: &Instance,
    matching: &Matching,
) -> Result<Vec<Group>, AllocError>
    requires { IsMatching instance.now matching.now }
    ensures { IfOk result (λ groups. AreProjectGroups instance.now matching.now groups.items) }
{
    let mut groups = vec![in alloc; EMPTY; instance.projects()]?;
    for s in 0..instance.students() {
        if let Some(p) = instance.project_of(matching, s) {
            let depth = depth_of(instance, instance.lecturer_of(p), s);
            groups[p] = group_with(groups[p], depth);
        }
    }
    Ok(groups)
}

/// Returns each lecturer's group: the count of the lecturer's students, and their worst rank.
pub(crate) fn lecturer_groups(
    alloc: Global,
    instance: &Instance,
    matching: &Matching,
) -> Result<Vec<Group>, AllocError>
    requires { IsMatching instance.now matching.now }
    ensures { IfOk result (λ groups. AreLecturerGroups instance.now matching.now groups.items) }
{
    let mut groups = vec![in alloc; EMPTY; instance.lecturers()]?;
    for s in 0..instance.students() {
        if let Some(p) = instance.project_of(matching, s) {
            let l = instance.lecturer_of(p);
            let depth = depth_of(instance, l, s);
            groups[l] = group_with(groups[l], depth);
        }
    }
    Ok(groups)
}
