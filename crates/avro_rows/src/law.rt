//! What holds of all data.

ghost use Rattle.std.specs.Prelude.{◌≡◌, ◌++◌, ◌<◌, ℕ, List, length};
ghost use Rattle.std.specs.List.{flat_map, AllByRecursion};
ghost use Rattle.column_types.specs.declared.column.Column.{Column};
ghost use Rattle.column_types.specs.declared.cell.Cell.{Cell};
ghost use Rattle.column_types.specs.Row.{Fits};
ghost use Rattle.avro_rows.specs.Datum.{datum_of};

/// No datum of a schema begins another, whatever stands behind either: a datum has one row and one end. So a list of
/// data, one after another, is the data of one list of rows.
pub fn one_reading()
    ensures prefix { (columns : List Column) (row other : List Cell) (rest more : List ℕ) → Fits columns row → Fits columns other →
        datum_of columns row ++ rest ≡ datum_of columns other ++ more → (row ≡ other) × (rest ≡ more) }
    ensures joined { (columns : List Column) (rows others : List (List Cell)) → 0 < length columns → AllByRecursion (Fits columns) rows →
        AllByRecursion (Fits columns) others → flat_map (datum_of columns) rows ≡ flat_map (datum_of columns) others → rows ≡ others }
{}
