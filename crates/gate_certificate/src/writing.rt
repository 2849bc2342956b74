//! A certificate, as a JSON text.

ghost use Rattle.std.specs.Prelude.{◌≡◌, ◌≤◌, IfOk, Some, map, string_bytes};
ghost use Rattle.serde_json.specs.Data.{depth, items_depth};
ghost use Rattle.serde_json.specs.View.{view, items_view};
ghost use Rattle.gate_certificate.specs.Format.{rows_of_text, rows_in, rows_of, class_in, class_row, each_in, data_number, run_in, run_row};

use gate_check::places::{Certificate, ClassRows, Run};
use mc_types::ServerId;
use serde_json::{Value, json};
use std::alloc::{AllocError, Global};

fn number_value(number: u32) -> Value
    ensures reads { data_number (view result) ≡ Some number }
    ensures depth { depth (view result) ≤ 0 }
{
    Value::from(number)
}

fn servers_value(alloc: Global, servers: &[ServerId]) -> Result<Vec<Value>, AllocError>
    ensures reads { IfOk result (λ v. each_in data_number (items_view v.items) ≡ Some servers.now) }
    ensures depth { IfOk result (λ v. items_depth (items_view v.items) ≤ 0) }
{
    let mut values = Vec::new(alloc);
    for server in servers {
        values.push(number_value(server.number()))?;
    }
    Ok(values)
}

fn run_value(alloc: Global, run: &Run) -> Result<Value, AllocError>
    ensures reads { IfOk result (λ v. run_in (view v) ≡ Some (run_row run.now)) }
    ensures depth { IfOk result (λ v. depth (view v) ≤ 2) }
{
    let first = number_value(run.first);
    let servers = servers_value(alloc, &run.servers)?;
    json!(in alloc; {"first": first, "servers": servers})
}

fn runs_value(alloc: Global, runs: &[Run]) -> Result<Vec<Value>, AllocError>
    ensures reads { IfOk result (λ v. each_in run_in (items_view v.items) ≡ Some (map run_row runs.now)) }
    ensures depth { IfOk result (λ v. items_depth (items_view v.items) ≤ 2) }
{
    let mut values = Vec::new(alloc);
    for run in runs {
        values.push(run_value(alloc, run)?)?;
    }
    Ok(values)
}

fn class_value(alloc: Global, rows: &ClassRows) -> Result<Value, AllocError>
    ensures reads { IfOk result (λ v. class_in (view v) ≡ Some (class_row rows.now)) }
    ensures depth { IfOk result (λ v. depth (view v) ≤ 4) }
{
    let modulus = number_value(rows.modulus);
    let runs = runs_value(alloc, &rows.runs)?;
    json!(in alloc; {"modulus": modulus, "runs": runs})
}

fn classes_value(alloc: Global, classes: &[ClassRows]) -> Result<Vec<Value>, AllocError>
    ensures reads { IfOk result (λ v. each_in class_in (items_view v.items) ≡ Some (map class_row classes.now)) }
    ensures depth { IfOk result (λ v. items_depth (items_view v.items) ≤ 4) }
{
    let mut values = Vec::new(alloc);
    for rows in classes {
        values.push(class_value(alloc, rows)?)?;
    }
    Ok(values)
}

fn whole_value(alloc: Global, certificate: &Certificate) -> Result<Value, AllocError>
    ensures reads { IfOk result (λ v. rows_in (view v) ≡ Some (rows_of certificate.now)) }
    ensures depth { IfOk result (λ v. depth (view v) ≤ 6) }
{
    let version = number_value(1);
    let classes = classes_value(alloc, &certificate.classes)?;
    json!(in alloc; {"certificate": version, "classes": classes})
}

/// The JSON text of a certificate, in which its rows are read back. The only error is that memory was refused.
pub fn certificate_text(alloc: Global, certificate: &Certificate) -> Result<String, AllocError>
    ensures { IfOk result (λ text. rows_of_text (string_bytes text) ≡ Some (rows_of certificate.now)) }
{
    let value = whole_value(alloc, certificate)?;
    value.to_string(alloc)
}
