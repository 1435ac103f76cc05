//! A gate's file opened.
ghost use Rattle.std.specs.Prelude.{◌≡◌, ◌⊎◌, true, false};
ghost use Rattle.std.specs.Prelude.{IfErr, IfOk, IsTrue, MatchResult};
ghost use Rattle.sqlite.specs.Held.{state};
ghost use Rattle.sqlite.specs.State.{HasCleanDisk};
ghost use Rattle.sqlite.specs.Tree.{Trees};
ghost use Rattle.gate_types.specs.Adopt.{may_adopt, adopted_content};
ghost use Rattle.gate_types.specs.Once.{Content};
ghost use Rattle.gate_types.specs.Settings.{Settings};
ghost use Rattle.gate_rows.specs.Matches.{StandsFor};
ghost use Rattle.gate_rows.specs.Writes.{LeavesNothing};
ghost use Rattle.gate_schema.specs.Schema.{gate_schema};
ghost use Rattle.gate_sql.specs.Handed.{answered, handed};
ghost use Rattle.gate_table_laws.specs.Held.{HoldsFor};
ghost use Rattle.gate_sql.specs.Handed.{names_of};
ghost use Rattle.gate_sql.specs.Refused.{IsRefused};
ghost use Rattle.gate_file_meta.specs.Opens.{IsJudged, IsMeta, with_meta};
ghost use Rattle.gate_file_changes.specs.Adopts.{StandsForLawful};
ghost use Rattle.gate_file_meta.specs.Reading.{HasNoMeta, HasNoneToAdopt, HoldsMeta, IsJudgedOf, IsUnread, ShowsMeta};

use crate::book::{SqlBook, texts_of};
use gate_file_changes::adopt;
use gate_file_meta::kept_in;
use gate_kept_settings::one_text_a_setting;
use gate_laws::typed::settings_are_in_form;
use gate_types::adopting::may_adopt;
use gate_types::config::Config;
use gate_types::open_fault::OpenFault;
use sqlite::{Alter, Connection};
use std::alloc::Global;

impl<S: Alter> SqlBook<S> {
    /// The book over a gate's file of these settings; where the file keeps others, they are taken in their place, all
    /// or none, if every kept queue is in them, and every kept project with the same queue. It hands the connection
    /// back with a fault: `WrongFile` where `meta` hasn't the rows of a gate's file; `OtherSchema` where they name
    /// another version of the tables; `OtherSettings` where they keep settings that can't be left so; `Unavailable`
    /// where a transaction is under way, or memory, the disk or its size failed.
    pub fn open(
        alloc: Global,
        mut conn: Connection<S>,
        config: &Config,
    ) -> Result<SqlBook<S>, (OpenFault, Connection<S>)>
        ensures opens { IsTrue (state S.Store conn).is_open → (x : Content) →
            StandsFor (state S.Store conn).now.trees config.now x → MatchResult result
            (λ book. HasCleanDisk (state S.Store book.conn) →
            HoldsFor (state S.Store book.conn) (names_of book) config.now x)
            (λ e. HasCleanDisk (state S.Store e.1) → e.0 ≡ OpenFault.Unavailable) }
        ensures settled { IsTrue (state S.Store conn).is_open → (x : Content) →
            StandsFor (state S.Store conn).now.trees config.now x →
            IfOk result (λ book. HasCleanDisk (state S.Store book.conn) → (db : Trees) →
            S.Store.recovers book.conn.store db → StandsFor db config.now x) }
        ensures adopts { IsTrue (state S.Store conn).is_open → (c : Settings) (x : Content) →
            StandsForLawful (state S.Store conn).now.trees c x → may_adopt c config.now ≡ true → MatchResult result
            (λ book. HasCleanDisk (state S.Store book.conn) →
            HoldsFor (state S.Store book.conn) (names_of book) config.now (adopted_content c config.now x))
            (λ e. HasCleanDisk (state S.Store e.1) → e.0 ≡ OpenFault.Unavailable) }
        ensures adopted { IsTrue (state S.Store conn).is_open → (c : Settings) (x : Content) →
            StandsForLawful (state S.Store conn).now.trees c x → may_adopt c config.now ≡ true →
            IfOk result (λ book. HasCleanDisk (state S.Store book.conn) → (db : Trees) →
            S.Store.recovers book.conn.store db → StandsFor db config.now (adopted_content c config.now x)) }
        ensures refuses { IsTrue (state S.Store conn).is_open → (c : Settings) (x : Content) →
            StandsForLawful (state S.Store conn).now.trees c x → may_adopt c config.now ≡ false → MatchResult result
            (λ book. HasCleanDisk (state S.Store book.conn) → ⊥)
            (λ e. HasCleanDisk (state S.Store e.1) →
            (e.0 ≡ OpenFault.OtherSettings) ⊎ (e.0 ≡ OpenFault.Unavailable)) }
        ensures judged { (tables : _) (indexes : _) (views : _) (version kept : _) →
            (state S.Store conn).now.schema ≡ with_meta tables indexes views →
            IsMeta (state S.Store conn).now.trees version kept → HasCleanDisk (handed S.Store result) →
            IsJudged (answered result) version kept config.now }
        ensures told { HasCleanDisk (handed S.Store result) →
            IsJudgedOf (answered result) (ShowsMeta (state S.Store conn).now) config.now }
        ensures held { (tables : _) (indexes : _) (views : _) →
            (state S.Store conn).now.schema ≡ with_meta tables indexes views →
            HasCleanDisk (handed S.Store result) →
            IsJudgedOf (answered result) (HoldsMeta (state S.Store conn).now.trees) config.now }
        ensures unread { HasNoMeta (state S.Store conn).now.schema → HasCleanDisk (handed S.Store result) →
            IsUnread (answered result) }
        ensures none { IfErr result (λ e. HasCleanDisk (state S.Store e.1) →
            IsRefused (state S.Store conn) (state S.Store e.1) e.0) }
        ensures lasts { IfOk result (λ book. HasCleanDisk (state S.Store book.conn) → (db : Trees) →
            S.Store.recovers book.conn.store db → db ≡ (state S.Store book.conn).now.trees) }
        ensures crash { HasNoneToAdopt (state S.Store conn).now config.now → HasCleanDisk (handed S.Store result) →
            LeavesNothing (state S.Store conn) (handed S.Store result) }
        ensures quiet { (x : Content) → (state S.Store conn).now.schema ≡ gate_schema →
            StandsFor (state S.Store conn).now.trees config.now x → HasCleanDisk (handed S.Store result) →
            LeavesNothing (state S.Store conn) (handed S.Store result) }
        ensures refused { (c : Settings) (x : Content) → (state S.Store conn).now.schema ≡ gate_schema →
            StandsForLawful (state S.Store conn).now.trees c x → may_adopt c config.now ≡ false →
            HasCleanDisk (handed S.Store result) →
            LeavesNothing (state S.Store conn) (handed S.Store result) }
        ensures leaves { (c : Settings) (x : Content) → (state S.Store conn).now.schema ≡ gate_schema →
            StandsForLawful (state S.Store conn).now.trees c x → may_adopt c config.now ≡ true →
            HasCleanDisk (handed S.Store result) → (db : Trees) → (handed S.Store result).may_leave db →
            (state S.Store conn).may_leave db ⊎ StandsFor db config.now (adopted_content c config.now x) }
        ensures clean { HasCleanDisk (handed S.Store result) → HasCleanDisk (state S.Store conn) }
        ensures mode { IfOk result (λ book. book.conn.in_transaction ≡ false) }
    {
        config.show_sound();
        one_text_a_setting();
        settings_are_in_form(config);
        let Ok((settings, queues)) = texts_of(alloc, config) else {
            return Err((OpenFault::Unavailable, conn));
        };
        // It tells that the schema is the one that the tables list.
        let _ = conn.schema();
        match kept_in(alloc, &mut conn, settings.as_str(), config) {
            Ok(None) => Ok(SqlBook {
                alloc,
                conn,
                queues,
            }),
            Ok(Some(kept)) => match adopt(alloc, &mut conn, &kept, config, settings.as_str()) {
                Ok(()) => Ok(SqlBook {
                    alloc,
                    conn,
                    queues,
                }),
                Err(fault) => Err((fault, conn)),
            },
            Err(fault) => Err((fault, conn)),
        }
    }
}
