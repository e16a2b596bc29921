//! Limits on the number of people and projects, on capacities and on list length.

ghost use Rattle.std.specs.Prelude.{◌≡◌, ◌↔◌, ◌≤◌, IsTrue};
ghost use Rattle.spa_rows.specs.Limits.{most_lecturers, most_projects, most_students};
ghost use Rattle.spa_rows.specs.Limits.{longest_choice, most_places};

/// The greatest number of lecturers.
pub const MOST_LECTURERS: usize = 300;

/// The greatest number of projects.
pub const MOST_PROJECTS: usize = 1000;

/// The greatest number of students.
pub const MOST_STUDENTS: usize = 2000;

/// The greatest number of projects on a student's list.
pub const LONGEST_CHOICE: usize = 20;

/// The greatest capacity, in students.
pub const MOST_PLACES: u32 = 200;

/// Returns whether the limits allow this capacity for a project or a lecturer.
pub fn is_capacity(students: u32) -> bool
    ensures { IsTrue result ↔ ((1 ≤ students) × (students ≤ most_places)) }
{
    1 <= students && students <= MOST_PLACES
}

/// Law: the limits of the code are those of the definitions.
pub fn limits_are()
    ensures lecturers { MOST_LECTURERS ≡ most_lecturers }
    ensures projects { MOST_PROJECTS ≡ most_projects }
    ensures students { MOST_STUDENTS ≡ most_students }
    ensures choice { LONGEST_CHOICE ≡ longest_choice }
    ensures places { MOST_PLACES ≡ most_places }
{}
