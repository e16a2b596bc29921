//! Caches the catalogue and the office's view; updates or drops them after a change.

ghost use Rattle.std.specs.Prelude.{◌≡◌, OnOk, OnErr, IfSome, filter, not};
ghost use Rattle.portal_rules.specs.Words.{equals};
ghost use Rattle.portal_rules.specs.World.{World, Choices, Ranks, Fill, changed};
ghost use Rattle.portal_rules.specs.Meaning.{change_model};
ghost use Rattle.portal_rules.specs.View.{office_sees};
ghost use Rattle.portal_store.specs.inner.ViewCache.{IsCacheOf};

use portal_rules::{Change, Listing, OfficeView, Phase};
use spa_rows::Key;
use std::rc::Rc;

/// A cache of what a keeper showed and would show again of the same world. It saves a keeper in a
/// database from repeating queries whose answers have not changed.
#[derive(Drop)]
pub(crate) struct ViewCache {
    /// The catalogue, if it is cached.
    pub catalogue: Option<Rc<Vec<Listing>>>,
    /// The office's view, if it is cached.
    pub office: Option<OfficeView>,
}

impl ViewCache {
    /// Returns the empty cache, which is valid for every world.
    pub fn nothing() -> ViewCache
        ensures { (w : World) → IsCacheOf result w }
    {
        ViewCache {
            catalogue: None,
            office: None,
        }
    }

    /// Updates the cache after the change. New lecturers or projects and the opening of the second
    /// round invalidate the catalogue. `office_after` updates or invalidates the office's view.
    fn refresh(&mut self, change: &Change)
        ensures { (w : World) → IsCacheOf self.old w
            → IsCacheOf self.new (changed w (change_model change.now)) }
    {
        self.office = office_after(self.office.take(), change);
        match change {
            Change::Lecturers(_) | Change::Projects(_) | Change::SecondRound => {
                self.catalogue = None;
            }
            Change::Choices { .. } => {}
            Change::Ranking { .. } => {}
            Change::Students(_) => {}
            Change::Result(_) => {}
            Change::Fill => {}
            Change::Phase(_) => {}
        }
    }

    /// Updates the cache if the change was made, and leaves it as it is if the change failed.
    /// Allocates no memory.
    pub fn follow<E>(&mut self, change: &Change, made: &Result<(), E>)
        ensures made { OnOk made.now
            ((w : World) → IsCacheOf self.old w
            → IsCacheOf self.new (changed w (change_model change.now))) }
        ensures not_made { OnErr made.now (self.new ≡ self.old) }
    {
        if made.is_ok() {
            self.refresh(change);
        }
    }
}

/// Removes a student or lecturer from the keys that the cached view of the office shows.
fn but_for(mut keys: Vec<Key>, key: &Key) -> Vec<Key>
    ensures { result.items ≡ filter (λ x. not (equals x key.now)) keys.items }
{
    keys.retain(|other| *other != *key);
    keys
}

/// Returns the office's view after a student's new list, or `None` to invalidate it.
fn after_list(view: OfficeView, student: &Key, projects: &[Key]) -> Option<OfficeView>
    ensures { IfSome result
        (λ seen. (w : World) → view ≡ office_sees w
        → seen ≡ office_sees (changed w (Choices student.now projects.now))) }
{
    if view.phase != Phase::Choosing || projects.is_empty() {
        return None;
    }
    Some(OfficeView {
        without_list: but_for(view.without_list, student),
        ..view
    })
}

/// Returns the office's view after a lecturer's new ranking, or `None` to invalidate it.
fn after_ranking(view: OfficeView, lecturer: &Key, students: &[Key]) -> Option<OfficeView>
    ensures { IfSome result
        (λ seen. (w : World) → view ≡ office_sees w
        → seen ≡ office_sees (changed w (Ranks lecturer.now students.now))) }
{
    if view.phase != Phase::Ranking {
        return None;
    }
    Some(OfficeView {
        still_to_rank: but_for(view.still_to_rank, lecturer),
        ..view
    })
}

/// Returns the office's cached view after the missing rankings are filled: nobody is still to rank.
fn after_fill(mut view: OfficeView) -> OfficeView
    ensures { (w : World) → view ≡ office_sees w → result ≡ office_sees (changed w Fill) }
{
    view.still_to_rank.clear();
    view
}

/// Returns the office's view after the change, or `None` to invalidate it.
fn office_after(seen: Option<OfficeView>, change: &Change) -> Option<OfficeView>
    ensures { IfSome result
        (λ after. (w : World) → IfSome seen (λ view. view ≡ office_sees w)
        → after ≡ office_sees (changed w (change_model change.now))) }
{
    match change {
        Change::Choices { student, projects } => after_list(seen?, student, projects),
        Change::Ranking { lecturer, students } => after_ranking(seen?, lecturer, students),
        Change::Fill => Some(after_fill(seen?)),
        Change::Lecturers(_)
        | Change::Projects(_)
        | Change::Students(_)
        | Change::Phase(_)
        | Change::Result(_)
        | Change::SecondRound => None,
    }
}
