ghost use Rattle.std.specs.Prelude.{◌≡◌};
ghost use Rattle.table_model.specs.Reasons.{code_of, phrase_of, refusal_of};

use outside::Text;

/// Why a request is refused. Each has a status code of gRPC and a text.
#[derive(Drop)]
pub enum Why {
    /// A resource name is outside its form, or none is there.
    BadName,
    /// No table has this name.
    NoTable,
    /// The table has no such write stream.
    NoStream,
    /// There is no such read session or read stream.
    NoRead,
    /// The read session has expired.
    Expired,
    /// The call gave no writer schema so far.
    NoSchema,
    /// The writer schema is no descriptor of a message with fields.
    BadDescriptor,
    /// The descriptor has a field whose name no column has.
    ExtraField { name: Text },
    /// The descriptor's type of this field doesn't fit its column.
    TypeMismatch { name: Text },
    /// The descriptor has no field for this required column.
    MissingRequired { name: Text },
    /// A row can't be read.
    BadRows,
    /// The append has no row.
    NoRows,
    /// An offset was given on the default stream.
    DefaultOffset,
    /// The offset is below 0.
    NegativeOffset,
    /// An offset is wanted.
    NoOffset,
    /// The offset is below the stream's end.
    AlreadyWritten,
    /// The offset is above the stream's end.
    PastEnd,
    /// The write stream is finalised.
    Finalised,
    /// The rows would weigh more than a table holds.
    FullRows,
    /// The table has as many entries as it holds.
    FullEntries,
    /// The table has as many write streams as it holds.
    FullStreams,
    /// The table has as many read sessions as it holds.
    FullSessions,
    /// The read session has as many read streams as it holds.
    FullNodes,
    /// The write stream is of another type.
    WrongKind,
    /// A write stream of this type can't be made.
    BadKind,
    /// No write stream is named.
    NoStreams,
    /// A write stream is named twice.
    Twice,
    /// A write stream belongs to another table.
    OtherTable,
    /// The data format isn't AVRO.
    BadFormat,
    /// The snapshot time is no time.
    BadTime,
    /// The number of streams is below 0.
    NegativeCount,
    /// The row restriction is too long.
    Long,
    /// The row restriction can't be read from this byte on.
    Syntax { at: usize },
    /// The restriction or the selection names a column that isn't there.
    UnknownColumn { name: Text },
    /// The restriction compares this column with a value of another type.
    IllTyped { name: Text },
}

impl Why {
    /// The status code of gRPC that goes with it.
    pub fn code(&self) -> u32
        ensures { result ≡ code_of self.now }
    {
        match self {
            Why::AlreadyWritten => 6,
            Why::PastEnd => 11,
            Why::Finalised | Why::Expired => 9,
            Why::NoTable | Why::NoStream | Why::NoRead => 5,
            Why::FullRows
            | Why::FullEntries
            | Why::FullStreams
            | Why::FullSessions
            | Why::FullNodes => 8,
            _ => 3,
        }
    }

    /// Its text, up to the name or the place that it carries.
    pub fn phrase(&self) -> &'static str
        ensures { result.now ≡ phrase_of self.now }
    {
        match self {
            Why::BadName => "bad resource name",
            Why::NoTable => "no such table",
            Why::NoStream => "no such write stream",
            Why::NoRead => "no such read stream",
            Why::Expired => "read session has expired",
            Why::NoSchema => "no writer schema",
            Why::BadDescriptor => "bad descriptor",
            Why::ExtraField { .. } => "field not in table: ",
            Why::TypeMismatch { .. } => "field type does not fit: ",
            Why::MissingRequired { .. } => "required column missing: ",
            Why::BadRows => "rows refused",
            Why::NoRows => "no rows",
            Why::DefaultOffset => "offset on default stream",
            Why::NegativeOffset => "negative offset",
            Why::NoOffset => "no offset",
            Why::AlreadyWritten => "offset already written",
            Why::PastEnd => "offset past the end",
            Why::Finalised => "stream is finalised",
            Why::FullRows => "table is full",
            Why::FullEntries => "history is full",
            Why::FullStreams => "too many write streams",
            Why::FullSessions => "too many sessions",
            Why::FullNodes => "too many read streams",
            Why::WrongKind => "wrong stream type",
            Why::BadKind => "bad stream type",
            Why::NoStreams => "no streams named",
            Why::Twice => "stream named twice",
            Why::OtherTable => "stream of another table",
            Why::BadFormat => "bad data format",
            Why::BadTime => "bad snapshot time",
            Why::NegativeCount => "negative stream count",
            Why::Long => "restriction too long",
            Why::Syntax { .. } => "restriction syntax at ",
            Why::UnknownColumn { .. } => "unknown column: ",
            Why::IllTyped { .. } => "restriction is ill typed: ",
        }
    }
}

/// A refusal: its status code and its cause.
#[derive(Drop)]
pub struct Refusal {
    pub code: u32,
    pub why: Why,
}

impl Refusal {
    /// The refusal for this cause, with the code that goes with it.
    pub fn of(why: Why) -> Refusal
        ensures { result ≡ refusal_of why }
    {
        Refusal {
            code: why.code(),
            why,
        }
    }
}
