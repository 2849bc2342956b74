//! A certificate, read from a JSON text.

ghost use Rattle.std.specs.Prelude.{codes, map};
ghost use Rattle.serde_json.specs.View.{view, items_view};
ghost use Rattle.gate_certificate.specs.Format.{ReadsCertificate, rows_of_text, rows_in, rows_of, class_in, class_row, each_in, list_at, data_number, run_in, run_row};

use crate::fault::CertificateFault;
use crate::fields::{list_at, number_at, number_in};
use gate_check::places::{Certificate, ClassRows, Run};
use mc_types::ServerId;
use serde_json::Value;
use std::alloc::Global;

/// The version of the format.
const VERSION: u32 = 1;

/// The certificate whose rows a JSON text means, or the first part that isn't as it must be. Fields that the format
/// doesn't know say nothing. Whether it is valid for a tree is `gate_check::check`'s to say.
pub fn read_certificate(alloc: Global, text: &str) -> Result<Certificate, CertificateFault>
    ensures { ReadsCertificate rows_of result (rows_of_text text.now) }
{
    match Value::from_str(alloc, text) {
        Ok(value) => read_whole(alloc, &value),
        Err(error) => {
            if error.is_memory() {
                Err(CertificateFault::NoMemory)
            } else {
                Err(CertificateFault::NotJson(error.line(), error.column()))
            }
        }
    }
}

fn read_whole(alloc: Global, value: &Value) -> Result<Certificate, CertificateFault>
    ensures { ReadsCertificate rows_of result (rows_in (view value.now)) }
{
    match number_at("certificate", value) {
        Some(VERSION) => read_classes_of(alloc, value),
        _ => Err(CertificateFault::BadWhole),
    }
}

fn read_classes_of(alloc: Global, value: &Value) -> Result<Certificate, CertificateFault>
    ensures { ReadsCertificate rows_of result (list_at (codes "classes") class_in (view value.now)) }
{
    match list_at("classes", value) {
        Some(items) => Ok(Certificate {
            classes: read_classes(alloc, items)?,
        }),
        None => Err(CertificateFault::BadWhole),
    }
}

fn read_classes(alloc: Global, items: &[Value]) -> Result<Vec<ClassRows>, CertificateFault>
    ensures { ReadsCertificate (λ v. map class_row v.items) result (each_in class_in (items_view items.now)) }
{
    let mut classes = Vec::new(alloc);
    for index in 0..items.len() {
        classes.push(read_class(alloc, index, &items[index])?)?;
    }
    Ok(classes)
}

fn read_class(alloc: Global, class: usize, value: &Value) -> Result<ClassRows, CertificateFault>
    ensures { ReadsCertificate class_row result (class_in (view value.now)) }
{
    match number_at("modulus", value) {
        Some(modulus) => match list_at("runs", value) {
            Some(items) => Ok(ClassRows {
                modulus,
                runs: read_runs(alloc, class, items)?,
            }),
            None => Err(CertificateFault::BadClass(class)),
        },
        None => Err(CertificateFault::BadClass(class)),
    }
}

fn read_runs(alloc: Global, class: usize, items: &[Value]) -> Result<Vec<Run>, CertificateFault>
    ensures { ReadsCertificate (λ v. map run_row v.items) result (each_in run_in (items_view items.now)) }
{
    let mut runs = Vec::new(alloc);
    for index in 0..items.len() {
        runs.push(read_run(alloc, class, index, &items[index])?)?;
    }
    Ok(runs)
}

fn read_run(alloc: Global, class: usize, run: usize, value: &Value) -> Result<Run, CertificateFault>
    ensures { ReadsCertificate run_row result (run_in (view value.now)) }
{
    match number_at("first", value) {
        Some(first) => match list_at("servers", value) {
            Some(items) => Ok(Run {
                first,
                servers: read_servers(alloc, class, run, items)?,
            }),
            None => Err(CertificateFault::BadRun(class, run)),
        },
        None => Err(CertificateFault::BadRun(class, run)),
    }
}

fn read_servers(
    alloc: Global,
    class: usize,
    run: usize,
    items: &[Value],
) -> Result<Vec<ServerId>, CertificateFault>
    ensures { ReadsCertificate (λ v. v.items) result (each_in data_number (items_view items.now)) }
{
    let mut servers = Vec::new(alloc);
    for item in items {
        match number_in(item) {
            Some(number) => servers.push(ServerId::new(number))?,
            None => return Err(CertificateFault::BadRun(class, run)),
        }
    }
    Ok(servers)
}
