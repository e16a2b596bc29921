//! `ListKeeper` implements `Keeper` in memory, with methods for the changes.

ghost use Rattle.std.specs.Prelude.{◌≡◌, true, [], IfOk, IfErr, OnOk, OnErr};
ghost use Rattle.portal_rules.specs.View as seen;
ghost use Rattle.portal_rules.specs.Good.{Good, Sound, CanPublish};
ghost use Rattle.portal_rules.specs.Good as meant_by;
ghost use Rattle.portal_rules.specs.World.{changed, Lecturers, Projects, Students, Placements};
ghost use Rattle.portal_rules.specs.World.{SecondRound};
ghost use Rattle.portal_rules.specs.Meaning.{change_model};
ghost use Rattle.portal_list.specs.Rows.{is_followed};

use crate::changes::{add_rows, lay_by_all, new_lecturers, new_students};
use crate::copies::project_rows_of;
use crate::entries::Entries;
use crate::instance::instance_of;
use crate::roll_checks::formed_code;
use crate::views::{
    catalogue_of, lecturer_view, lecturer_with, office_view, student_view, student_with,
};
use portal_rules::{
    Change, Code, KeepFault, Keeper, LecturerRow, Listing, Phase, ProjectRow, Round, StudentRow,
    View,
};
use spa_model::Instance;
use spa_rows::Key;
use std::alloc::{AllocError, Global};
use std::marker::Model;
use std::rc::Rc;

/// A world in vectors, with rows in key order. As a `Keeper`, it fails only for want of memory, and
/// then changes nothing.
#[derive(Drop)]
pub struct ListKeeper {
    pub(crate) phase: Phase,
    pub(crate) office: Code,
    pub(crate) entries: Entries,
    /// The catalogue of the round, once computed.
    pub(crate) catalogue: Option<Rc<Vec<Listing>>>,
}

impl Model for ListKeeper {
    ghost use Rattle.std.specs.Prelude.{◌≡◌, IfSome};
    ghost use Rattle.portal_rules.specs.World.{World};
    ghost use Rattle.portal_list.specs.inner.Played.{world_with};
    ghost use Rattle.portal_list.specs.inner.Shown.{catalogue_in};

    ghost Value = { World };

    ghost view = { λ k. world_with k.phase k.office k.entries };

    ghost invariant = { λ k. IfSome k.catalogue (λ shared. shared.value.items
        ≡ catalogue_in k.entries) };
}

impl ListKeeper {
    /// Makes the empty world in setup of the first round, with this office code.
    pub fn new(alloc: Global, office: Code) -> ListKeeper
        ensures empty { result ≡ record {
          round = Round.First;
          phase = Phase.Setup;
          office = office;
          lecturers = [];
          projects = [];
          students = [];
        } }
        ensures good { Good result }
        ensures clean { (⟦<ListKeeper as Keeper>⟧.state result).clean }
    {
        formed_code(&office);
        ListKeeper {
            phase: Phase::Setup,
            office,
            entries: Entries {
                round: Round::First,
                lecturers: Vec::new(alloc),
                projects: Vec::new(alloc),
                students: Vec::new(alloc),
            },
            catalogue: None,
        }
    }

    /// Returns the catalogue of the round: the cached one, or else a new one.
    pub(crate) fn catalogue(&self, alloc: Global) -> Result<Rc<Vec<Listing>>, AllocError>
        ensures { IfOk result (λ shared. shared.value.items ≡ seen.catalogue self.now) }
    {
        match &self.catalogue {
            Some(shared) => shared.clone(),
            None => {
                let listings = catalogue_of(alloc, &self.entries)?;
                Ok(Rc::new(alloc, listings)?)
            }
        }
    }

    /// Computes and caches the catalogue, unless it is cached.
    fn keep_catalogue(&mut self, alloc: Global) -> Result<(), AllocError>
        ensures { self.new ≡ self.old }
    {
        if self.catalogue.is_none() {
            self.catalogue = Some(self.catalogue(alloc)?);
        }
        Ok(())
    }

    /// Returns the view of the lecturer or student with this code, or `Nobody`.
    fn shown_to_member(&self, alloc: Global, code: &[u8]) -> Result<View, AllocError>
        ensures { IfOk result (λ view. view
            ≡ seen.sight_of self.now
            (seen.caller_among (seen.lecturer_with self.now code.now)
            (seen.student_with self.now code.now))) }
    {
        if let Some(lecturer) = lecturer_with(&self.entries.lecturers, code) {
            return Ok(View::Lecturer(lecturer_view(alloc, self, lecturer)?));
        }
        match student_with(&self.entries.students, code) {
            Some(student) => Ok(View::Student(student_view(alloc, self, student)?)),
            None => Ok(View::Nobody),
        }
    }

    /// Returns the view of the caller with this code.
    pub(crate) fn shown_to(&self, alloc: Global, code: &[u8]) -> Result<View, AllocError>
        ensures { IfOk result (λ view. view ≡ seen.view self.now code.now) }
    {
        if self.office.as_bytes() == code {
            return Ok(View::Office(office_view(alloc, self)?));
        }
        self.shown_to_member(alloc, code)
    }

    /// Returns the view of the caller with this code, and caches the catalogue.
    fn show(&mut self, alloc: Global, code: &[u8]) -> Result<View, AllocError>
        ensures shown { IfOk result (λ view. view ≡ seen.view self.old code.now) }
        ensures same { self.new ≡ self.old }
    {
        self.keep_catalogue(alloc)?;
        self.shown_to(alloc, code)
    }

    /// Adds lecturers in the first round, and does nothing in the second.
    fn enrol_lecturers(&mut self, alloc: Global, rows: &[LecturerRow]) -> Result<(), AllocError>
        ensures made { OnOk result (self.new ≡ changed self.old (Lecturers rows.now)) }
        ensures same { OnErr result (self.new ≡ self.old) }
    {
        if self.entries.round == Round::Second {
            return Ok(());
        }
        let fresh = new_lecturers(alloc, rows)?;
        add_rows(&mut self.entries.lecturers, fresh)?;
        self.catalogue = None;
        Ok(())
    }

    /// Adds projects in the first round, and does nothing in the second.
    fn enrol_projects(&mut self, alloc: Global, rows: &[ProjectRow]) -> Result<(), AllocError>
        ensures made { OnOk result (self.new ≡ changed self.old (Projects rows.now)) }
        ensures same { OnErr result (self.new ≡ self.old) }
    {
        if self.entries.round == Round::Second {
            return Ok(());
        }
        let fresh = project_rows_of(alloc, rows)?;
        add_rows(&mut self.entries.projects, fresh)?;
        self.catalogue = None;
        Ok(())
    }

    /// Adds students in the first round, and does nothing in the second.
    fn enrol_students(&mut self, alloc: Global, rows: &[StudentRow]) -> Result<(), AllocError>
        ensures made { OnOk result (self.new ≡ changed self.old (Students rows.now)) }
        ensures same { OnErr result (self.new ≡ self.old) }
    {
        if self.entries.round == Round::Second {
            return Ok(());
        }
        let fresh = new_students(alloc, rows)?;
        add_rows(&mut self.entries.students, fresh)
    }

    /// Opens the second round if the first is published, without allocating.
    fn open_second(&mut self, alloc: Global)
        ensures { self.new ≡ changed self.old SecondRound }
    {
        match (self.entries.round, self.phase) {
            (Round::First, Phase::Published) => {
                self.catalogue = None;
                lay_by_all(alloc, &mut self.entries.lecturers);
                lay_by_all(alloc, &mut self.entries.students);
                self.entries.round = Round::Second;
                self.phase = Phase::Choosing;
            }
            _ => {}
        }
    }

    /// Gives each student who takes part the project that the pairs assign, or none, and sets the
    /// phase to published.
    fn publish(&mut self, alloc: Global, pairs: &[(Key, Key)]) -> Result<(), AllocError>
        ensures made { OnOk result (self.new ≡ changed self.old (Placements pairs.now)) }
        ensures same { OnErr result (self.new ≡ self.old) }
    {
        self.entries.place(alloc, pairs)?;
        self.phase = Phase::Published;
        Ok(())
    }

    /// Applies a change of a list or a ranking, or a fill.
    fn follow(&mut self, alloc: Global, change: &Change) -> Result<(), AllocError>
        requires sound { Sound self.old }
        requires followed { is_followed (change_model change.now) ≡ true }
        requires phase { (changed self.old (change_model change.now)).phase ≡ self.old.phase }
        ensures made { OnOk result (self.new ≡ changed self.old (change_model change.now)) }
        ensures same { OnErr result (self.new ≡ self.old) }
    {
        self.entries.follow(alloc, change)?;
        Ok(())
    }

    /// Makes one change. If an allocation fails, nothing changes.
    pub(crate) fn make(&mut self, alloc: Global, change: &Change) -> Result<(), AllocError>
        requires { Sound self.old }
        ensures made { OnOk result (self.new ≡ changed self.old (change_model change.now)) }
        ensures same { OnErr result (self.new ≡ self.old) }
    {
        match change {
            Change::Choices { .. } => self.follow(alloc, change),
            Change::Ranking { .. } => self.follow(alloc, change),
            Change::Fill => self.follow(alloc, change),
            Change::Lecturers(rows) => self.enrol_lecturers(alloc, rows),
            Change::Projects(rows) => self.enrol_projects(alloc, rows),
            Change::Students(rows) => self.enrol_students(alloc, rows),
            Change::Phase(phase) => {
                self.phase = *phase;
                Ok(())
            }
            Change::Result(pairs) => self.publish(alloc, pairs),
            Change::SecondRound => {
                self.open_second(alloc);
                Ok(())
            }
        }
    }
}

impl Keeper for ListKeeper {
    // There is no disk that could fail, and a process that stops leaves nothing.
    ghost state = { λ keeper. record {
      world = keeper;
      clean = Unit {0};
      disk = Unit {0};
      broken = ⊥;
      leaves = λ _. ⊥;
      faults = 0;
    } };

    fn view(&mut self, alloc: Global, code: &[u8]) -> Result<View, KeepFault>
        ensures shown { IfOk result (λ view. view ≡ seen.view self.old code.now) }
        ensures same { self.new ≡ self.old }

        // There is no store, so only an allocation can fail.
        ensures memory { IfErr result (λ fault. fault ≡ KeepFault.Memory) }
    {
        self.show(alloc, code).map_err(|_| KeepFault::Memory)
    }

    fn instance(&mut self, alloc: Global) -> Result<Instance, KeepFault>
        requires good { Good self.old }
        requires ready { CanPublish self.old }
        ensures instance { IfOk result (λ instance. instance ≡ meant_by.instance self.old) }
        ensures same { self.new ≡ self.old }
        ensures memory { IfErr result (λ fault. fault ≡ KeepFault.Memory) }
    {
        instance_of(alloc, &self.entries).map_err(|_| KeepFault::Memory)
    }

    fn apply(&mut self, alloc: Global, change: &Change) -> Result<(), KeepFault>
        requires good { Good self.old }
        ensures made { OnOk result (self.new ≡ changed self.old (change_model change.now)) }
        ensures same { OnErr result (self.new ≡ self.old) }
        ensures memory { IfErr result (λ fault. fault ≡ KeepFault.Memory) }
    {
        self.make(alloc, change).map_err(|_| KeepFault::Memory)
    }
}
