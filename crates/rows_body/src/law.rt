//! What holds of all polls.

ghost use Rattle.std.specs.Prelude.{◌≡◌, ◌⊎◌, ℕ, List, [], ◌++◌};
ghost use Rattle.column_types.specs.declared.column.Column.{Column};
ghost use Rattle.read_cursor.specs.Reading.{Reading};
ghost use Rattle.rows_body.specs.Rows.{AreTaken, Breaks, Item, items_of};

/// However a body is polled, what it gave and what is left are together the items of its call, in order; or the last item
/// that it gave is want of memory, in the place of one of them, and nothing is left. So what it gave is a front of them, and
/// all of them where the end was answered, which comes exactly where nothing is left.
pub fn polls_go_in_order()
    ensures { (columns : List Column) (reading : Reading) (items left : List Item) → AreTaken (items_of columns reading) items left →
        (items_of columns reading ≡ items ++ left) ⊎ (Breaks (items_of columns reading) items × (left ≡ [])) }
{}
