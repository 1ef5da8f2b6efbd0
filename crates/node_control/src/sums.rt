//! Sums of reports. Each number stays at its greatest value.
ghost use Rattle.std.specs.Prelude.{◌≡◌, []};
ghost use Rattle.node_control.specs.Sums.{counts_with};
ghost use Rattle.node_control.specs.Works.{all_counts};

use push_model::Counts;

/// The sum of no reports.
pub fn no_counts() -> Counts
    ensures { result ≡ all_counts [] }
{
    Counts {
        users: 0,
        stored: 0,
        held: 0,
        flights: 0,
        unsent: 0,
        orphans: 0,
        waiting: 0,
    }
}

/// A sum with one report more.
pub fn counts_plus(sum: Counts, more: Counts) -> Counts
    ensures { result ≡ counts_with sum more }
{
    Counts {
        users: sum.users.saturating_add(more.users),
        stored: sum.stored.saturating_add(more.stored),
        held: sum.held.saturating_add(more.held),
        flights: sum.flights.saturating_add(more.flights),
        unsent: sum.unsent.saturating_add(more.unsent),
        orphans: sum.orphans.saturating_add(more.orphans),
        waiting: sum.waiting.saturating_add(more.waiting),
    }
}
