//! Lines that are blank, long, or without a line feed.
use crate::runs::{are_answered, is_answered};
use std::test::Fail;

#[test]
fn blank_lines_have_no_reply(rt: HostRuntime) -> Result<(), Fail> {
    is_answered(&rt, b"", 0, &[])?;
    are_answered(
        &rt,
        &[" ", r#"{"op":"count"}"#],
        &[r#"{"count":0,"line":2}"#],
    )?;
    are_answered(&rt, &["", " \t\r"], &[])
}

#[test]
fn a_line_may_be_a_mebibyte(rt: HostRuntime) -> Result<(), Fail> {
    let mut input = String::new(rt.alloc());
    for spaces in [1_048_562, 1_048_563] {
        input.push_str(r#"{"op":"count"}"#)?;
        for _ in 0..spaces {
            input.push(' ')?;
        }
        input.push('\n')?;
    }
    input.push_str(r#"{"op":"count"}"#)?;
    is_answered(
        &rt,
        input.as_bytes(),
        3,
        &[
            r#"{"count":0,"line":1}"#,
            r#"{"line":2,"refused":"long"}"#,
            r#"{"count":0,"line":3}"#,
        ],
    )
}

#[test]
fn the_last_line_may_lack_its_line_feed(rt: HostRuntime) -> Result<(), Fail> {
    is_answered(
        &rt,
        br#"{"op":"cou"#,
        1,
        &[r#"{"line":1,"refused":"json"}"#],
    )?;
    is_answered(
        &rt,
        b"\xff\n{\"op\":\"count\"}",
        2,
        &[r#"{"line":1,"refused":"json"}"#, r#"{"count":0,"line":2}"#],
    )
}
