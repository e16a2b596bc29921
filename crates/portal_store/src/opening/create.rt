//! Creates a store with new tables, over a connection or in memory.

ghost use Rattle.std.specs.Prelude.{◌≡◌, false, Err, IfOk, IfErr};
ghost use Rattle.sqlite.specs.Steps.{over_memory};
ghost use Rattle.portal_rules.specs.Good.{Good};
ghost use Rattle.portal_rules.specs.Keeping.{IsSettled};
ghost use Rattle.portal_store.specs.Kept.{IsCleanStore, kept_state, kept_world};
ghost use Rattle.portal_store.specs.World.{first_world};
ghost use Rattle.portal_store.specs.Calls.{CreatesStore, RefusesToCreate};

use crate::fault::create_fault_of;
use crate::reading::view_cache::ViewCache;
use crate::store::{CreateFault, NotOpened, Store};
use portal_rules::Code;
use portal_tables::sql::names::{Names, is_empty, is_there};
use portal_tables::{PortalSchema, TableFault, create_portal};
use sqlite::{Alter, Connection, MemStore};
use std::alloc::Global;

impl<S: Alter> Store<S> {
    /// Makes the portal's tables in an empty database in one commit: an empty world in setup, with
    /// this office code. On a clean disk, a crash right after that leaves the new tables; right
    /// after `Store` or `Memory` in an empty database, those or none. A store that is clean is
    /// settled and consistent, too.
    ///
    /// # Errors
    ///
    /// Returns `Exists`, with the connection untouched, if and only if a table or view has one of
    /// the eleven names. No clause says when it returns `Store` or `Memory`; then the tables are as
    /// they were if the disk is clean and the connection open, whatever they are. If the database
    /// has only other tables, no more is promised, and the new store is not clean.
    pub fn create(
        alloc: Global,
        mut conn: Connection<S>,
        office: Code,
    ) -> Result<Store<S>, NotOpened<CreateFault, S>>
        requires idle { conn.in_transaction ≡ false }
        ensures creates { IfOk result (CreatesStore S.Store office conn) }
        ensures refuses { IfErr result (λ e.
            RefusesToCreate S.Store office e.fault conn e.connection) }
    {
        let own = is_empty(conn.schema());
        if is_there(conn.schema(), Names::All) {
            return Err(NotOpened {
                fault: CreateFault::Exists,
                connection: conn,
            });
        }
        let pattern = match PortalSchema::new(alloc) {
            Ok(pattern) => pattern,
            Err(error) => {
                return Err(NotOpened {
                    fault: create_fault_of(TableFault::from(error)),
                    connection: conn,
                });
            }
        };
        if let Err(fault) = create_portal(alloc, &mut conn, office.as_bytes()) {
            return Err(NotOpened {
                fault: create_fault_of(fault),
                connection: conn,
            });
        }
        Ok(Store {
            conn,
            own,
            pattern,
            cache: ViewCache::nothing(),
            entries: None,
            faults: 0,
        })
    }
}

impl Store<MemStore> {
    /// Makes the portal in memory: an empty world in setup, with this office code. Never returns
    /// `Exists`.
    pub fn create_memory(alloc: Global, office: Code) -> Result<Store<MemStore>, CreateFault>
        ensures counted { IfOk result (λ s. s.faults ≡ 0) }
        ensures clean { IfOk result (λ s. IsCleanStore over_memory s) }
        ensures world { IfOk result (λ s. kept_world over_memory s ≡ first_world office) }
        ensures good { IfOk result (λ s. Good (kept_world over_memory s)) }
        ensures settled { IfOk result (λ s. IsSettled (kept_state over_memory s)) }
        ensures empty { result ≡ Err CreateFault.Exists → ⊥ }
    {
        let Ok(conn) = Connection::open_in_memory(alloc) else {
            return Err(CreateFault::Memory);
        };
        match Store::create(alloc, conn, office) {
            Ok(store) => Ok(store),
            Err(
                NotOpened {
                    fault,
                    connection: _,
                },
            ) => Err(fault),
        }
    }
}
