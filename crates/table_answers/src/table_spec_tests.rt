use std::test::Fail;
use table_spec::{SpecFault, TableSpec};

#[test]
fn a_spec_names_a_table_and_its_columns(rt: HostRuntime) -> Result<(), Fail> {
    let text = "projects/p/datasets/d/tables/t=id:INT64:REQUIRED,tag:STRING";
    let spec = TableSpec::parse(rt.alloc(), text)?;
    assert_eq!(rt; spec.name.text(), "projects/p/datasets/d/tables/t");
    assert_eq!(rt; spec.copy_schema(rt.alloc())?.columns().len(), 2);
    let other = TableSpec::parse(rt.alloc(), "projects/p/datasets/d/tables/t");
    assert_eq!(rt; other.err(), Some(SpecFault::NoSpec));
    Ok(())
}
