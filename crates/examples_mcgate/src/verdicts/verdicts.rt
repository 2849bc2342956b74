//! Verdicts that can't be written.

use examples_tables::full_writer::Full;
use examples_tables::tables::configuration;
use mcgate_check::run_check;
use mcgate_lines::status::WRITER;
use mcgate_lines::verdict::Form;
use std::alloc::Global;
use std::test::Fail;

// The status of a text whose verdict is written where there is so much room.
fn status_in(alloc: Global, text: &str, room: usize) -> u8 {
    let mut out = Full { room };
    run_check(alloc, Form::Lines, text, &mut out)
}

#[test]
fn writers_that_fail(rt: HostRuntime) -> Result<(), Fail> {
    let text = configuration(rt.alloc(), "\"PoolRoute|A\"")?;
    for room in 0..10 {
        assert_eq!(rt; status_in(rt.alloc(), text.as_str(), room), WRITER);
        assert_eq!(rt; status_in(rt.alloc(), "", room), WRITER);
    }
    Ok(())
}
