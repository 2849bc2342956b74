//! Worked certificates: what is read of their texts, written again.

use examples_tables::tellers::{Teller, wrong};
use gate_certificate::{certificate_text, read_certificate};
use std::alloc::{AllocError, Global};
use std::test::Fail;

// Texts, and what is written of what they mean.
fn texts() -> &'static str {
    r#"{"certificate":1,"classes":[]} => {"certificate":1,"classes":[]}
{"certificate":1,"classes":[{"modulus":2,"runs":[{"first":0,"servers":[0,7]},{"first":1,"servers":[]}]}]} => {"certificate":1,"classes":[{"modulus":2,"runs":[{"first":0,"servers":[0,7]},{"first":1,"servers":[]}]}]}
{"classes":[{"runs":[],"modulus":4294967295}],"certificate":1} => {"certificate":1,"classes":[{"modulus":4294967295,"runs":[]}]}
 {"note":"a field of no meaning", "certificate" : 1 , "classes":[{"of":"a:","modulus":1,"runs":[]}]} => {"certificate":1,"classes":[{"modulus":1,"runs":[]}]}"#
}

struct OfCertificateTexts;

impl Teller for OfCertificateTexts {
    fn told(alloc: Global, example: &str) -> Result<String, AllocError> {
        match read_certificate(alloc, example) {
            Ok(certificate) => certificate_text(alloc, &certificate),
            Err(fault) => fault.to_string(alloc),
        }
    }
}

#[test]
fn certificates_are_read_and_written(rt: HostRuntime) -> Result<(), Fail> {
    assert_eq!(rt;
        wrong::<OfCertificateTexts>(rt.alloc(), texts())?.as_str(),
        ""
    );
    Ok(())
}
