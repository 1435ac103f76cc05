//! A gate's file opened after a crash.
ghost use Rattle.std.specs.Prelude.{◌≡◌, ◌≢◌, ◌⊎◌, true, false, IfErr, IfOk, MatchResult, List, None, Some};
ghost use Rattle.sqlite.specs.Held.{state};
ghost use Rattle.sqlite.specs.State.{HasCleanDisk};
ghost use Rattle.sqlite.specs.Steps.{IsFresh};
ghost use Rattle.sqlite.specs.Tree.{Trees};
ghost use Rattle.sqlite_trees.specs.View.{IsClean};
ghost use Rattle.gate_types.specs.Adopt.{may_adopt, adopted_content};
ghost use Rattle.gate_types.specs.Once.{Content};
ghost use Rattle.gate_types.specs.Settings.{Settings};
ghost use Rattle.gate_rows.specs.Matches.{StandsFor};
ghost use Rattle.gate_file_changes.specs.Adopts.{StandsForLawful};
ghost use Rattle.gate_table_laws.specs.Held.{HoldsFor, HoldsForOne, StandsForOne};
ghost use Rattle.gate_sql.specs.Handed.{names_of};
ghost use Rattle.gate_file_meta.specs.Reading.{IsToldByTrees};

use crate::book::SqlBook;
use gate_types::config::Config;
use gate_types::open_fault::OpenFault;
use sqlite::{Alter, Connection};
use std::alloc::Global;

impl<S: Alter + Drop> SqlBook<S> {
    /// The book over what a crash left: where that stands for one of some contents, the book holds one of them;
    /// other settings are taken as `open` takes them. It hands the store back with a fault: those of `open`, and
    /// `Unavailable` where SQL doesn't open the store.
    pub fn open_store(
        alloc: Global,
        store: S,
        config: &Config,
    ) -> Result<SqlBook<S>, (OpenFault, S)>
        requires { IsClean (S.Store.view store) → IsFresh (S.Store.view store) }
        ensures opens { IfOk result (λ book. HasCleanDisk (state S.Store book.conn) → (x : Content) →
            StandsFor (S.Store.view store).trees config.now x →
            HoldsFor (state S.Store book.conn) (names_of book) config.now x) }
        ensures one { IfOk result (λ book. HasCleanDisk (state S.Store book.conn) → (xs : List Content) →
            StandsForOne (S.Store.view store).trees config.now xs →
            HoldsForOne (state S.Store book.conn) (names_of book) config.now xs) }
        ensures settled { IfOk result (λ book. HasCleanDisk (state S.Store book.conn) → (xs : List Content) →
            StandsForOne (S.Store.view store).trees config.now xs → (db : Trees) →
            S.Store.recovers book.conn.store db → StandsForOne db config.now xs) }
        ensures adopts { IfOk result (λ book. HasCleanDisk (state S.Store book.conn) → (c : Settings) (x : Content) →
            StandsForLawful (S.Store.view store).trees c x → may_adopt c config.now ≡ true →
            HoldsFor (state S.Store book.conn) (names_of book) config.now (adopted_content c config.now x)) }
        ensures adopted { IfOk result (λ book. HasCleanDisk (state S.Store book.conn) → (c : Settings) (x : Content) →
            StandsForLawful (S.Store.view store).trees c x → may_adopt c config.now ≡ true → (db : Trees) →
            S.Store.recovers book.conn.store db → StandsFor db config.now (adopted_content c config.now x)) }
        ensures refuses { (c : Settings) (x : Content) → StandsForLawful (S.Store.view store).trees c x →
            may_adopt c config.now ≡ false → MatchResult result (λ book. HasCleanDisk (state S.Store book.conn) → ⊥)
            (λ e. IsClean (S.Store.view e.1) → (e.0 ≡ OpenFault.OtherSettings) ⊎ (e.0 ≡ OpenFault.Unavailable)) }
        ensures may_fault { (c : Settings) (x : Content) → StandsForLawful (S.Store.view store).trees c x →
            may_adopt c config.now ≡ true →
            IfErr result (λ e. IsClean (S.Store.view e.1) → e.0 ≡ OpenFault.Unavailable) }
        ensures told { IfOk result (λ book. HasCleanDisk (state S.Store book.conn) →
            IsToldByTrees None (S.Store.view store).trees config.now) }
        ensures fault_told { IfErr result (λ e. IsClean (S.Store.view e.1) → e.0 ≢ OpenFault.Unavailable →
            IsToldByTrees (Some e.0) (S.Store.view store).trees config.now) }
        ensures fault { (x : Content) → StandsFor (S.Store.view store).trees config.now x →
            IfErr result (λ e. IsClean (S.Store.view e.1) → e.0 ≡ OpenFault.Unavailable) }
    {
        let conn = match Connection::over(alloc, store) {
            Ok(conn) => conn,
            Err((_, store)) => return Err((OpenFault::Unavailable, store)),
        };
        match SqlBook::open(alloc, conn, config) {
            Ok(book) => Ok(book),
            Err((fault, conn)) => Err((fault, conn.into_store())),
        }
    }
}
