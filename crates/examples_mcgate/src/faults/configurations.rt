//! Names that are told where a configuration has another one.

use fault_configs::fields::{OPERATIONS, ROUTES, fields_of};
use route_json::names::{Holder, is_field, kind_of, op_of};

#[test]
fn names_that_are_told(rt: HostRuntime) {
    for name in ROUTES.as_slice() {
        let Some(kind) = kind_of(name) else {
            assert!(rt; false, "no route {name}");
            return;
        };
        for field in fields_of(Holder::Route(kind)) {
            assert!(rt;
                is_field(Holder::Route(kind), field),
                "no field {field} of {name}"
            );
        }
    }
    for name in OPERATIONS.as_slice() {
        assert!(rt; op_of(name).is_some(), "no operation {name}");
    }
    for holder in [Holder::Config, Holder::Pool] {
        for field in fields_of(holder) {
            assert!(rt; is_field(holder, field), "no field {field}");
        }
    }
}
