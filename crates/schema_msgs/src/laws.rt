//! Laws of the messages, each the contract of a function that does nothing.

ghost use Rattle.schema_msgs.specs.Levels.{ColumnsAreOutline, FieldsNest, OutlinesAreFields, OutlinesTellFields};
ghost use Rattle.schema_msgs.specs.RoundTrip.{CreateRequestsReadBack, FieldsReadBack, SchemasReadBack, StreamsReadBack};

/// A TableFieldSchema is read by its own fields and by the TableFieldSchemas within it, which are read
/// in the same way, however deep they nest.
pub fn fields_nest()
    ensures { FieldsNest }
{}

/// Fields are told apart by their outline, and each outline is one of fields; columns with none within
/// them are an outline.
pub fn outlines_are_fields()
    ensures told { OutlinesTellFields }
    ensures found { OutlinesAreFields }
    ensures columns { ColumnsAreOutline }
{}

/// What `encode` writes of a TableFieldSchema, in fewer than 2^32 bytes, `decode` reads back as the
/// same field.
pub fn fields_read_back()
    ensures { FieldsReadBack }
{}

/// What `encode` writes of a TableSchema, in fewer than 2^32 bytes, `decode` reads back as the same
/// schema.
pub fn schemas_read_back()
    ensures { SchemasReadBack }
{}

/// What `encode` writes of a WriteStream, in fewer than 2^32 bytes, `decode` reads back as the same
/// write stream.
pub fn streams_read_back()
    ensures { StreamsReadBack }
{}

/// What `encode` writes of a CreateWriteStreamRequest, in fewer than 2^32 bytes, `decode` reads back as
/// the same request.
pub fn create_requests_read_back()
    ensures { CreateRequestsReadBack }
{}
