//! Names of the Storage API as clients spell them.

use resource_names::{
    NameFault, ProjectName, ReadName, ReadPlace, StreamId, TableName, WriteName, default_text,
    read_text, session_text, write_text,
};
use std::alloc::Global;
use std::test::Fail;

const TABLE: &str = "projects/p/datasets/d/tables/t";

/// The table that a text names.
fn table(alloc: Global, text: &str) -> Result<TableName, NameFault> {
    TableName::parse(alloc, text)
}

#[test]
fn a_table_has_three_parts(rt: HostRuntime) -> Result<(), Fail> {
    let name = table(rt.alloc(), TABLE)?;
    assert_eq!(rt;
        (name.project.text(), name.dataset.text(), name.table.text()),
        ("p", "d", "t")
    );
    assert_eq!(rt; name.text(rt.alloc())?.text(), TABLE);
    Ok(())
}

#[test]
fn a_project_has_one_part(rt: HostRuntime) -> Result<(), Fail> {
    let name = ProjectName::parse(rt.alloc(), "projects/p")?;
    assert_eq!(rt; name.project.text(), "p");
    Ok(())
}

/// Texts that name no table.
const BAD_TABLES: [&str; 4] = [
    "projects//datasets/d/tables/t",
    "projects/p/datasets/d/tables/t/",
    "projects/p/datasets/d/tables/a b",
    "",
];

#[test]
fn bad_names_of_tables_are_refused(rt: HostRuntime) {
    for text in &BAD_TABLES {
        let refused = table(rt.alloc(), text).err();
        assert_eq!(rt; refused, Some(NameFault::BadName), "{text}");
    }
}

/// The stream that a table's name with this behind it names.
fn stream(alloc: Global, behind: &str) -> Result<StreamId, Fail> {
    let text = format!(in alloc; "{TABLE}{behind}")?;
    Ok(WriteName::parse(alloc, text.as_str())?.stream)
}

/// What stands behind a table's name, and the write stream that it names.
const WRITE_STREAMS: [(&str, StreamId); 8] = [
    ("/_default", StreamId::Default),
    ("/streams/_default", StreamId::Default),
    ("/streams/s1", StreamId::Number(1)),
    ("/streams/s4294967295", StreamId::Number(4_294_967_295)),
    ("/streams/s4294967296", StreamId::Other),
    ("/streams/s01", StreamId::Other),
    ("/streams/s0", StreamId::Other),
    ("/streams/x", StreamId::Other),
];

#[test]
fn write_streams_are_numbered_from_1(rt: HostRuntime) -> Result<(), Fail> {
    for (behind, wanted) in &WRITE_STREAMS {
        assert_eq!(rt; stream(rt.alloc(), behind)?, *wanted, "{behind}");
    }
    Ok(())
}

#[test]
fn write_streams_are_spelled(rt: HostRuntime) -> Result<(), Fail> {
    let name = table(rt.alloc(), TABLE)?;
    assert_eq!(rt;
        write_text(rt.alloc(), &name, 2)?.text(),
        "projects/p/datasets/d/tables/t/streams/s2"
    );
    assert_eq!(rt;
        default_text(rt.alloc(), &name)?.text(),
        "projects/p/datasets/d/tables/t/streams/_default"
    );
    Ok(())
}

/// The node that a read stream's name names.
fn node(alloc: Global, text: &str) -> Result<Option<ReadPlace>, NameFault> {
    Ok(ReadName::parse(alloc, text)?.place())
}

/// The fourth node of the second session of the first table.
const FOURTH_NODE: ReadPlace = ReadPlace {
    table: 0,
    session: 2,
    node: 3,
};

/// Names of read streams, and the nodes that they name.
const READ_STREAMS: [(&str, Option<ReadPlace>); 5] = [
    (
        "projects/p/locations/local/sessions/t0-2/streams/3",
        Some(FOURTH_NODE),
    ),
    (
        "projects/other/locations/local/sessions/t0-2/streams/3",
        Some(FOURTH_NODE),
    ),
    ("projects/p/locations/eu/sessions/t0-2/streams/3", None),
    ("projects/p/locations/local/sessions/t0-02/streams/3", None),
    ("projects/p/locations/local/sessions/t0-2/streams/03", None),
];

#[test]
fn read_streams_are_found_by_their_spelling(rt: HostRuntime) -> Result<(), Fail> {
    for (text, wanted) in &READ_STREAMS {
        assert_eq!(rt; node(rt.alloc(), text)?, *wanted, "{text}");
    }
    Ok(())
}

#[test]
fn read_streams_are_spelled(rt: HostRuntime) -> Result<(), Fail> {
    assert_eq!(rt;
        read_text(rt.alloc(), "p", 0, 2, 3)?.text(),
        "projects/p/locations/local/sessions/t0-2/streams/3"
    );
    assert_eq!(rt;
        session_text(rt.alloc(), "p", 0, 2)?.text(),
        "projects/p/locations/local/sessions/t0-2"
    );
    Ok(())
}
