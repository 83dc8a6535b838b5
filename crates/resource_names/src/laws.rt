//! Laws of the names, each the contract of a function that does nothing.

ghost use Rattle.resource_names.specs.Laws.{ProjectsAreSpelled, TablesAreSpelled, WritesAreSpelled, ReadsAreSpelled, PlacesAreSpelled, DefaultsReadBack, NumbersReadBack, NodesReadBack};

/// A text is the name of a project, with this part, exactly where it is spelled so.
pub fn projects_are_spelled()
    ensures { ProjectsAreSpelled }
{}

/// A text is the name of a table, with these parts, exactly where it is spelled so.
pub fn tables_are_spelled()
    ensures { TablesAreSpelled }
{}

/// A text is the name of a write stream, of this table and id, exactly where it is spelled so.
pub fn writes_are_spelled()
    ensures { WritesAreSpelled }
{}

/// A text is the name of a read stream, with these parts, exactly where it is spelled so; and a read stream can be this
/// node exactly where it is spelled so.
pub fn reads_are_spelled()
    ensures names { ReadsAreSpelled }
    ensures places { PlacesAreSpelled }
{}

/// The texts that are written of a table's streams read back.
pub fn write_names_read_back()
    ensures default { DefaultsReadBack }
    ensures number { NumbersReadBack }
{}

/// The text that is written of a node reads back, and names that node.
pub fn read_names_read_back()
    ensures { NodesReadBack }
{}
