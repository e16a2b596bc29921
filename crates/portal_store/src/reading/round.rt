//! Reads the current round, its phase and the office's code.

ghost use Rattle.std.specs.Prelude.{◌≡◌, true, false};
ghost use Rattle.sqlite.specs.Effect.{IsDatabase};
ghost use Rattle.portal_rules.specs.declared.phase.Round.{Round as ThatRound};
ghost use Rattle.portal_rules.specs.declared.phase.Round.TheVariants.{First, Second};
ghost use Rattle.portal_rules.specs.World.{is_setup};
ghost use Rattle.portal_tables.specs.Reads.{GivesOrFails, Blames, Reads};
ghost use Rattle.portal_store.specs.World as meant_by;
ghost use Rattle.portal_store.specs.inner.Reading.{IsNow};
ghost use Rattle.portal_store.specs.Kept.{HasSecond, HasGoodWorldIn};

use portal_rules::{Code, Phase, Round};
use portal_tables::{Office, TableFault, VERSION, office_in, second_in};
use sqlite::{Alter, Connection};
use std::alloc::Global;

/// Reads the current round: the second if the row of `second` has a phase other than 0.
pub(crate) fn round_in<S: Alter>(
    alloc: Global,
    conn: &mut Connection<S>,
) -> Result<Round, TableFault>
    ensures { Reads Second S.Store IsDatabase
        (GivesOrFails (λ db round. meant_by.round_in db.trees ≡ round)
        (λ db fault. (round : ThatRound) → Blames fault (HasSecond round db.trees)))
        result conn.old conn.new }
{
    if second_in(alloc, conn)?.is_setup() {
        Ok(Round::First)
    } else {
        Ok(Round::Second)
    }
}

/// Returns the current round: the second if it has a phase, or else the first with the office's
/// phase.
fn now_of(second: Phase, office: Office) -> (Round, Office)
    ensures first { is_setup second ≡ true → result ≡ (First, office) }
    ensures second { is_setup second ≡ false
        → result ≡ (Second, record { phase = second; code = office.code }) }
{
    match second {
        Phase::Setup => (Round::First, office),
        Phase::Choosing | Phase::Ranking | Phase::Published => (
            Round::Second,
            Office {
                phase: second,
                code: office.code,
            },
        ),
    }
}

/// Reads the current round, its phase and the office's code.
pub(crate) fn current_round<S: Alter>(
    alloc: Global,
    conn: &mut Connection<S>,
) -> Result<(Round, Office), TableFault>
    ensures { Reads Second S.Store IsDatabase
        (GivesOrFails (λ db now. IsNow (meant_by.world_of db.trees) now.0 now.1)
        (λ db fault. (round : ThatRound) → Blames fault (HasGoodWorldIn round db.trees)))
        result conn.old conn.new }
{
    let second = second_in(alloc, conn)?;
    let office = office_in(alloc, conn, VERSION)?;
    Ok(now_of(second, office))
}

/// Reads the phase of the first round.
pub(crate) fn first_phase<S: Alter>(
    alloc: Global,
    conn: &mut Connection<S>,
) -> Result<Phase, TableFault>
    ensures { Reads First S.Store IsDatabase
        (GivesOrFails (λ db phase. meant_by.phase_in First db.trees ≡ phase)
        (λ db fault. (round : ThatRound) → Blames fault (HasGoodWorldIn round db.trees)))
        result conn.old conn.new }
{
    let office = office_in(alloc, conn, VERSION)?;
    Ok(office.phase)
}

/// Reads the office's code.
pub(crate) fn office_code<S: Alter>(
    alloc: Global,
    conn: &mut Connection<S>,
) -> Result<Code, TableFault>
    ensures { Reads First S.Store IsDatabase
        (GivesOrFails (λ db code. code ≡ (meant_by.world_of db.trees).office)
        (λ db fault. (round : ThatRound) → Blames fault (HasGoodWorldIn round db.trees)))
        result conn.old conn.new }
{
    let office = office_in(alloc, conn, VERSION)?;
    Ok(office.code)
}
