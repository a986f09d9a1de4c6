use operation_text::{NamedOp, OpFault, read_op};
use std::test::Fail;

#[test]
fn each_word_reads_its_fields(rt: HostRuntime) -> Result<(), Fail> {
    let alloc = rt.alloc();
    for text in [
        "create a",
        "delete a.b_c-9",
        "write a 0 text:two words",
        "write a 536870912 fill:255:1048576",
        "read a 0 0",
        "level a +3d:1n1d",
        "fail 0/99999999999999999999999",
        "down 1/2",
        "up 1/2",
        "failnode 3",
        "start FlexProtect as j",
        "start SyncCopy as j 10",
        "pause j",
        "resume j",
        "cancel j",
        "work 65536",
        "drain",
        "restart-engine",
    ] {
        let is_read = read_op(alloc, text).is_ok();
        assert!(rt; is_read, "{text}");
    }
    Ok(())
}

#[test]
fn a_text_of_another_form_is_no_operation(rt: HostRuntime) -> Result<(), Fail> {
    let alloc = rt.alloc();
    for text in [
        "",
        "create",
        "create ",
        "create  a",
        "Create a",
        "write a 0 text:",
        "write a 536870913 text:x",
        "write a 0 fill:256:1",
        "write a 0 fill:0:0",
        "write a 0 fill:0:1048577",
        "write a 00 text:x",
        "read a 0 1048577",
        "read a +0 1",
        "level a 9x",
        "fail 01/1",
        "fail 1",
        "fail 1/",
        "failnode -1",
        "start Defrag as j",
        "start Collect as j 0",
        "start Collect as j 11",
        "start Collect as j ",
        "start Collect j",
        "work 0",
        "work 65537",
        "drain ",
        "drain 1",
        "restart",
    ] {
        let is_refused = matches!(read_op(alloc, text), Err(OpFault::NotAnOp));
        assert!(rt; is_refused, "{text}");
    }
    Ok(())
}

#[test]
fn a_start_tells_whether_a_priority_is_given(rt: HostRuntime) -> Result<(), Fail> {
    let alloc = rt.alloc();
    for (text, given) in [
        ("start Collect as j", None),
        ("start Collect as j 4", Some(4)),
    ] {
        let op = read_op(alloc, text).map_err(|_| "an operation")?;
        let NamedOp::Start { priority, .. } = op else {
            return Err("a start".into());
        };
        assert_eq!(rt; priority, given);
    }
    Ok(())
}
