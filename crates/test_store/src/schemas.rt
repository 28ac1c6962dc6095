//! Which values fit a schema.
use ecs_schema::{Kind, Schema, ValueFault};
use std::process::Abort;
use std::test::Fail;

fn encode_badly(rt: &impl Abort, schema: &Schema) {
    let mut bytes = [7u8];
    if schema.size() == 1 {
        assert!(rt; schema.encode(&[300], &mut bytes) == Err(ValueFault::Range));
        assert!(rt; schema.encode(&[1, 2], &mut bytes) == Err(ValueFault::Count));
    }
    assert!(rt; bytes == [7u8]);
}

#[test]
fn no_value_of_one_byte(rt: HostRuntime) -> Result<(), Fail> {
    let schema = Schema::new(rt.alloc(), &[("x", Kind::U8)])?;
    assert!(rt; schema.size() == 1);
    encode_badly(&rt, &schema);
    drop(schema);
    Ok(())
}
