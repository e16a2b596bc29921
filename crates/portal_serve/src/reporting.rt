//! Writes the office's report from any keeper: the status, then the result if there is one.

ghost use Rattle.std.specs.Prelude.{◌≡◌, ◌+◌, Err, IfOk, OnOk};
ghost use Rattle.portal_rules.specs.Good.{Good};
ghost use Rattle.portal_rules.specs.Keeping.{IsAlive, AfterCall};
ghost use Rattle.portal_rules.specs.View.{office_sees};
ghost use Rattle.portal_serve.specs.Hall.{office_report};
ghost use Rattle.portal_serve.specs.inner.Told.{IsOfficeReport, IsOther};

use portal_core::{Code, KeepFault, Keeper, OfficeView, View};
use portal_reports::{allocation_text, status_text};
use std::alloc::{AllocError, Global};

/// Writes the report: the status of the round, then an empty line and the result if there is one.
fn text_of(alloc: Global, view: &OfficeView) -> Result<Vec<u8>, AllocError>
    ensures { IfOk result (λ text. text.items ≡ office_report view.now) }
{
    let mut text = status_text(alloc, view)?;
    if !view.round.has_result(view.phase) {
        return Ok(text);
    }
    let allocation = allocation_text(alloc, view)?;
    text.extend_from_slice(b"\n")?;
    text.extend_from_slice(allocation.as_slice())?;
    Ok(text)
}

/// Returns the office's report if the view is the office's.
fn report_for(alloc: Global, view: &View) -> Result<Vec<u8>, KeepFault>
    ensures text { IfOk result (λ text. IsOfficeReport view.now text.items) }
    ensures other { result ≡ Err KeepFault.Store → IsOther view.now }
{
    let View::Office(office) = view else {
        return Err(KeepFault::Store);
    };
    text_of(alloc, office).map_err(|_| KeepFault::Memory)
}

/// Returns the office's report on a keeper's world; `office` has to be the office's code.
///
/// # Errors
///
/// The keeper failed, or memory ran out. A code that is not the office's is a fault of the store.
pub fn report<K: Keeper>(alloc: Global, keeper: &mut K, office: &Code) -> Result<Vec<u8>, KeepFault>
    ensures uses { AfterCall result (K.state keeper.old) (K.state keeper.new) (λ _. ⊥) }
    ensures alive { OnOk result (IsAlive (K.state keeper.new)) }
    ensures same { (K.state keeper.new).clean
        → (K.state keeper.new).world ≡ (K.state keeper.old).world }
    ensures text { IfOk result (λ text. (K.state keeper.new).clean
        → Good (K.state keeper.old).world
        → text.items ≡ office_report (office_sees (K.state keeper.old).world)) }
    ensures store { result ≡ Err KeepFault.Store → (K.state keeper.new).clean
        → Good (K.state keeper.old).world → (K.state keeper.old).world.office ≡ office.now
        → (K.state keeper.new).faults ≡ (K.state keeper.old).faults + 1 }
{
    let view = keeper.view(alloc, office.as_bytes())?;
    report_for(alloc, &view)
}
