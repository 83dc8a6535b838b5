//! What holds of all places.

ghost use Rattle.std.specs.Prelude.{◌≡◌, ◌<◌, ℕ, List, [], ◌∷◌, ◌++◌, length};
ghost use Rattle.std.specs.List.{slice_get};
ghost use Rattle.column_types.specs.declared.cell.Cell.{Cell};
ghost use Rattle.row_groups.specs.Places.{joined, group_at, IsPlace};

/// The row at a place is the row at its position (`rows`). A position has one place (`one`), exactly where there are
/// more rows than it says (`there`), and keeps it when rows are pushed (`stays`).
pub fn places_are_rows()
    ensures rows { (groups : List (List (List Cell))) (position group place : ℕ) → IsPlace groups position group place →
        slice_get (joined groups) position ≡ slice_get (group_at groups group) place }
    ensures one { (groups : List (List (List Cell))) (position group place group' place' : ℕ) → IsPlace groups position group place →
        IsPlace groups position group' place' → (group ≡ group') × (place ≡ place') }
    ensures there { (groups : List (List (List Cell))) (position group place : ℕ) → IsPlace groups position group place →
        position < length (joined groups) }
    ensures stays { (groups : List (List (List Cell))) (rows : List (List Cell)) (position group place : ℕ) → IsPlace groups position group place →
        IsPlace (groups ++ rows ∷ []) position group place }
{}
