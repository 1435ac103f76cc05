//! Edits of changes and their needs, within a transaction.
ghost use Rattle.std.specs.Prelude.{◌≡◌, ◌<◌, ◌^◌, ◌∷◌, ◌==◌, [], List, map, nat_eq, pos};
ghost use Rattle.sqlite.specs.Held.{state};
ghost use Rattle.sqlite.specs.declared.types.Value.TheVariants.{Int};
ghost use Rattle.gate_schema.specs.Edits as edits;
ghost use Rattle.gate_schema.specs.Rows.{NeedRow};
ghost use Rattle.gate_schema.specs.Shown.{need_shown};
ghost use Rattle.gate_rows.specs.Writes.{FoundAs, Keeps, LeavesNothing, Makes};
ghost use lib.Pointwise.{pointwise};

use crate::statement::run;
use crate::values::{change, number, number_if_any, revision, text, too_large};
use gate_types::numbers::ChangeNo;
use gate_types::records::{Change, Stage};
use sqlite::types::ValueRef;
use sqlite::{Alter, Error, Row, Transaction};

/// The row of a change, in place of the old one. An Err where no column can hold the number of its
/// approval.
fn renew_change<S: Alter>(
    tx: &mut Transaction<'_, S>,
    k: &Change,
    approval: Option<u64>,
) -> Result<(), Error>
    ensures same_reference { tx.new.conn.ghost_name ≡ tx.old.conn.ghost_name }
    ensures changes { Makes (state S.Store tx.old.conn.now) (state S.Store tx.new.conn.now) result
        (λ b. edits.add_change (edits.change_with k.now approval) (edits.drop_change k.now.number b)) }
    ensures kept { Keeps (state S.Store tx.old.conn.now) (state S.Store tx.new.conn.now) }
    ensures crash { LeavesNothing (state S.Store tx.old.conn.now) (state S.Store tx.new.conn.now) }
{
    let Some(approval) = number_if_any(approval) else {
        return Err(too_large());
    };
    run(
        tx,
        "INSERT OR REPLACE INTO change (num, project, revision, state, approval) VALUES (?1, ?2, ?3, ?4, ?5)",
        &[
            change(k.number),
            text(k.project.as_str()),
            revision(k.revision),
            text(k.stage.word()),
            approval,
        ],
    )
}

/// Whether a row shows this need.
fn is_need(row: &Row, needed: ChangeNo) -> bool
    ensures { (n : _) → row.now ≡ Int (pos n) ∷ [] → result ≡ (n == needed) }
{
    match row.get_ref(0) {
        Ok(ValueRef::Int(n)) => n >= 0 && n as u64 == needed.get(),
        _ => false,
    }
}

/// Whether the rows show these needs, in this order.
fn are_needs(rows: &[Row], needs: &[ChangeNo]) -> bool
    ensures { (found : List NeedRow) → rows.now ≡ map need_shown found →
        result ≡ pointwise nat_eq (map (λ (y : NeedRow). y.needed) found) needs.now }
{
    let mut rest = rows;
    let mut left = needs;
    while let Some((row, later)) = rest.split_first() {
        let Some((needed, others)) = left.split_first() else {
            return false;
        };
        if !is_need(row, *needed) {
            return false;
        }
        rest = later;
        left = others;
    }
    left.is_empty()
}

/// Whether the needs that stand of a change are these.
fn have_needs<S: Alter>(
    tx: &mut Transaction<'_, S>,
    n: ChangeNo,
    needs: &[ChangeNo],
) -> Result<bool, Error>
    ensures same_reference { tx.new.conn.ghost_name ≡ tx.old.conn.ghost_name }
    ensures found { FoundAs (state S.Store tx.old.conn.now) (state S.Store tx.new.conn.now) result
        (λ same b. same ≡ pointwise nat_eq (edits.standing_needs n b.needs) needs.now) }
    ensures changes { Makes (state S.Store tx.old.conn.now) (state S.Store tx.new.conn.now) result (λ b. b) }
    ensures kept { Keeps (state S.Store tx.old.conn.now) (state S.Store tx.new.conn.now) }
    ensures crash { LeavesNothing (state S.Store tx.old.conn.now) (state S.Store tx.new.conn.now) }
{
    let rows = tx.query_all(
        "SELECT needed FROM need WHERE change = ?1 ORDER BY rowid",
        &[change(n)],
    )?;
    Ok(are_needs(rows.as_slice(), needs))
}

/// Takes the needs of a change out.
fn drop_needs<S: Alter>(tx: &mut Transaction<'_, S>, n: ChangeNo) -> Result<(), Error>
    ensures same_reference { tx.new.conn.ghost_name ≡ tx.old.conn.ghost_name }
    ensures changes { Makes (state S.Store tx.old.conn.now) (state S.Store tx.new.conn.now) result
        (edits.drop_needs n) }
    ensures kept { Keeps (state S.Store tx.old.conn.now) (state S.Store tx.new.conn.now) }
    ensures crash { LeavesNothing (state S.Store tx.old.conn.now) (state S.Store tx.new.conn.now) }
{
    run(tx, "DELETE FROM need WHERE change = ?1", &[change(n)])
}

/// Adds a need at its index.
fn add_need<S: Alter>(
    tx: &mut Transaction<'_, S>,
    n: ChangeNo,
    index: usize,
    needed: ChangeNo,
) -> Result<(), Error>
    requires { index < 2 ^ 63 }
    ensures same_reference { tx.new.conn.ghost_name ≡ tx.old.conn.ghost_name }
    ensures changes { Makes (state S.Store tx.old.conn.now) (state S.Store tx.new.conn.now) result
        (edits.add_needs ((record { change = n; place = index; needed = needed }) ∷ [])) }
    ensures kept { Keeps (state S.Store tx.old.conn.now) (state S.Store tx.new.conn.now) }
    ensures crash { LeavesNothing (state S.Store tx.old.conn.now) (state S.Store tx.new.conn.now) }
{
    run(
        tx,
        "INSERT INTO need (change, place, needed) VALUES (?1, ?2, ?3)",
        &[change(n), number(index as u64), change(needed)],
    )
}

/// Adds the needs of a change, by their indexes.
fn add_needs<S: Alter>(
    tx: &mut Transaction<'_, S>,
    n: ChangeNo,
    needs: &[ChangeNo],
) -> Result<(), Error>
    ensures same_reference { tx.new.conn.ghost_name ≡ tx.old.conn.ghost_name }
    ensures changes { Makes (state S.Store tx.old.conn.now) (state S.Store tx.new.conn.now) result
        (edits.add_needs (edits.need_rows n 0 needs.now)) }
    ensures kept { Keeps (state S.Store tx.old.conn.now) (state S.Store tx.new.conn.now) }
    ensures crash { LeavesNothing (state S.Store tx.old.conn.now) (state S.Store tx.new.conn.now) }
{
    for (index, needed) in needs.iter().enumerate() {
        add_need(tx, n, index, *needed)?;
    }
    Ok(())
}

/// The needs of a change, in place of the old ones. Nothing is written where these are the same.
fn renew_needs<S: Alter>(
    tx: &mut Transaction<'_, S>,
    n: ChangeNo,
    needs: &[ChangeNo],
) -> Result<(), Error>
    ensures same_reference { tx.new.conn.ghost_name ≡ tx.old.conn.ghost_name }
    ensures changes { Makes (state S.Store tx.old.conn.now) (state S.Store tx.new.conn.now) result
        (edits.put_needs n needs.now) }
    ensures kept { Keeps (state S.Store tx.old.conn.now) (state S.Store tx.new.conn.now) }
    ensures crash { LeavesNothing (state S.Store tx.old.conn.now) (state S.Store tx.new.conn.now) }
{
    if have_needs(tx, n, needs)? {
        return Ok(());
    }
    drop_needs(tx, n)?;
    add_needs(tx, n, needs)
}

/// A change with its needs, in place of what was known of it. An Err where no column can hold the
/// number of its approval.
pub(crate) fn put_change<S: Alter>(
    tx: &mut Transaction<'_, S>,
    k: &Change,
    approval: Option<u64>,
) -> Result<(), Error>
    ensures same_reference { tx.new.conn.ghost_name ≡ tx.old.conn.ghost_name }
    ensures changes { Makes (state S.Store tx.old.conn.now) (state S.Store tx.new.conn.now) result
        (edits.replace_change k.now approval) }
    ensures kept { Keeps (state S.Store tx.old.conn.now) (state S.Store tx.new.conn.now) }
    ensures crash { LeavesNothing (state S.Store tx.old.conn.now) (state S.Store tx.new.conn.now) }
{
    renew_change(tx, k, approval)?;
    renew_needs(tx, k.number, k.needs.as_slice())
}

/// The stage of a change, which is ready no longer.
pub(crate) fn set_stage<S: Alter>(
    tx: &mut Transaction<'_, S>,
    n: ChangeNo,
    stage: Stage,
) -> Result<(), Error>
    ensures same_reference { tx.new.conn.ghost_name ≡ tx.old.conn.ghost_name }
    ensures changes { Makes (state S.Store tx.old.conn.now) (state S.Store tx.new.conn.now) result
        (edits.set_stage n stage) }
    ensures kept { Keeps (state S.Store tx.old.conn.now) (state S.Store tx.new.conn.now) }
    ensures crash { LeavesNothing (state S.Store tx.old.conn.now) (state S.Store tx.new.conn.now) }
{
    run(
        tx,
        "UPDATE change SET state = ?2, approval = NULL WHERE num = ?1",
        &[change(n), text(stage.word())],
    )
}
