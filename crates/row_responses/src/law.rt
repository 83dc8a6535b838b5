//! What holds of all responses.

ghost use Rattle.std.specs.Prelude.{ℕ, List};
ghost use Rattle.column_types.specs.declared.cell.Cell.{Cell};
ghost use Rattle.column_types.specs.declared.column.Column.{Column};
ghost use Rattle.column_types.specs.Fields.{projected};
ghost use Rattle.row_responses.specs.Responses.{Give, responses_of};

/// The rows of the responses are the rows of the call, each once and in order. Each response has 1 to 1,024 rows, and at
/// most 1,048,576 bytes of data or one row alone. The first one alone has the schema.
pub fn rows_stay_rows()
    ensures { (columns : List Column) (fields : List ℕ) (rows : List (List Cell)) → Give (projected fields columns) rows (responses_of columns fields rows) }
{}
