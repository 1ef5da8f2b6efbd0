//! Orphan marks of rows.
ghost use Rattle.std.specs.Prelude.{◌≡◌, Bool, map};
ghost use Rattle.std.specs.Fn.{FnReturnsAt};
ghost use Rattle.push_model.specs.declared.parts.Row.{Row};
ghost use Rattle.push_model.specs.Cells.{unmarked_row};
ghost use Rattle.message_rows.specs.RowStock.{marked_where};

use push_model::Row;

/// Each row that passes the test gets the mark.
#[tactic(auto, using(crate::proofs::RowLemmas::marked_more))]
pub(crate) fn mark_where<F: Fn(&Row) -> bool>(rows: &mut [Row], test: F)
    requires { F.IsAlwaysCallable test }
    ensures rows { (p : Row → Bool) → ((r : Row) (b : Bool) → FnReturnsAt F.Fn test r b → b ≡ p r) → rows.new ≡ map (marked_where p) rows.old }
    ensures messages { map (λ r. r.message) rows.new ≡ map (λ r. r.message) rows.old }
{
    for row in rows.iter_mut() {
        let passes = test(row);
        row.orphan = row.orphan | passes;
    }
}

/// No row has a mark.
#[tactic(auto, using(crate::proofs::RowLemmas::unmarked_more))]
pub(crate) fn unmark_rows(rows: &mut [Row])
    ensures { rows.new ≡ map unmarked_row rows.old }
{
    for row in rows.iter_mut() {
        row.orphan = false;
    }
}
