//! The rounds of a year, and the phases of a round.

ghost use Rattle.std.specs.Prelude.{◌≡◌, IfSome, IfNone};
ghost use Rattle.portal_rules.specs.World as world;
ghost use Rattle.portal_rules.specs.World.{phase_word};
ghost use Rattle.portal_rules.specs.declared.phase.Phase as phases;

/// The phases of a round, in order.
#[derive(Clone, Copy, Debug, PartialEq, Eq)]
pub enum Phase {
    /// The rolls are filled.
    Setup,
    /// Students make their lists.
    Choosing,
    /// Lecturers rank their applicants.
    Ranking,
    /// The result is shown.
    Published,
}

/// The rounds of a year, in order.
#[derive(Clone, Copy, Debug, PartialEq, Eq)]
pub enum Round {
    /// Everybody takes part.
    First,
    /// Only students without a project of the first round take part, for the remaining room.
    Second,
}

impl Round {
    /// Returns whether there is a result: in published, and in every phase of the second round.
    pub fn has_result(self, phase: Phase) -> bool
        ensures { result ≡ world.has_result self phase }
    {
        self == Round::Second || phase == Phase::Published
    }
}

impl Phase {
    /// Parses a phase from its word.
    pub fn parse(bytes: &[u8]) -> Option<Phase>
        ensures some { IfSome result (λ phase. phase_word phase ≡ bytes.now) }
        ensures none { IfNone result ((phase : phases.Phase) → phase_word phase ≡ bytes.now → ⊥) }
    {
        if bytes == "setup".as_bytes() {
            Some(Phase::Setup)
        } else if bytes == "choosing".as_bytes() {
            Some(Phase::Choosing)
        } else if bytes == "ranking".as_bytes() {
            Some(Phase::Ranking)
        } else if bytes == "published".as_bytes() {
            Some(Phase::Published)
        } else {
            None
        }
    }

    /// Returns whether the phase is setup, in which no student submits a list.
    pub fn is_setup(self) -> bool
        ensures { result ≡ world.is_setup self }
    {
        self == Phase::Setup
    }

    /// Returns whether the students' lists are closed and lecturers see their applicants.
    pub fn is_from_ranking(self) -> bool
        ensures { result ≡ world.is_from_ranking self }
    {
        self == Phase::Ranking || self == Phase::Published
    }

    /// Returns whether the round's result is published.
    pub fn is_published(self) -> bool
        ensures { result ≡ world.is_published self }
    {
        self == Phase::Published
    }

    /// Returns the phase's word, such as `setup`.
    pub fn word(&self) -> &'static str
        ensures { result.now ≡ phase_word self.now }
    {
        match self {
            Phase::Setup => "setup",
            Phase::Choosing => "choosing",
            Phase::Ranking => "ranking",
            Phase::Published => "published",
        }
    }
}
