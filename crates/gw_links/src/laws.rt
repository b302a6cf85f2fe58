//! Laws of the order by deadline.
ghost use Rattle.std.specs.Prelude.{List};
ghost use Rattle.std.specs.List.Sorted.{IsPermutation, IsSortedBy, IsStableBy};
ghost use Rattle.gw_links.specs.Waiting.{Waiting, by_deadline, is_due_sooner};

/// By deadline, no request is due sooner than the one before it, those of one deadline are in the order of acceptance,
/// and exactly the requests that wait are there.
pub fn law_deadlines()
    ensures sorted { (lines : List Waiting) → IsSortedBy is_due_sooner (by_deadline lines) }
    ensures accepted { (lines : List Waiting) → IsStableBy is_due_sooner lines (by_deadline lines) }
    ensures same { (lines : List Waiting) → IsPermutation lines (by_deadline lines) }
{}
