//! Moments as texts. The milliseconds are those of `date --date TEXT +%s%3N`.

use examples_tables::tellers::{Teller, wrong};
use std::alloc::{AllocError, Global};
use std::test::Fail;
use watch_admin::times::UtcTime;

fn moments() -> &'static str {
    "0 => 1970-01-01T00:00:00.000Z
1 => 1970-01-01T00:00:00.001Z
86399999 => 1970-01-01T23:59:59.999Z
86400000 => 1970-01-02T00:00:00.000Z
68169599000 => 1972-02-28T23:59:59.000Z
68169600000 => 1972-02-29T00:00:00.000Z
68256000000 => 1972-03-01T00:00:00.000Z
94694399999 => 1972-12-31T23:59:59.999Z
94694400000 => 1973-01-01T00:00:00.000Z
951782400000 => 2000-02-29T00:00:00.000Z
951868800000 => 2000-03-01T00:00:00.000Z
1795881600123 => 2026-11-28T16:00:00.123Z
4107542400000 => 2100-03-01T00:00:00.000Z"
}

#[derive(Drop)]
struct OfMoments;

impl Teller for OfMoments {
    fn told(alloc: Global, millis: &str) -> Result<String, AllocError> {
        let moment = UtcTime(millis.parse::<u64>().unwrap_or(0));
        format!(in alloc; "{moment}")
    }
}

#[test]
fn moments_are_told(rt: HostRuntime) -> Result<(), Fail> {
    assert_eq!(rt; wrong::<OfMoments>(rt.alloc(), moments())?.as_str(), "");
    Ok(())
}
