//! The inputs of a row, as the files of the system are to the program.

use crate::rows::text_in;
use gate_history::HistoryFile;
use mcgate_ends::details::Details;
use mcgate_ends::ends::Stop;
use mcgate_ends::histories::read_file;
use mcgate_ends::input_text::InputFault;
use mcgate_run::Inputs;
use std::alloc::Global;
use std::io::Write;

/// The inputs in the lines of a row.
#[derive(Clone, Copy)]
pub struct RowInputs<'a> {
    pub alloc: Global,
    pub given: &'a str,
}

impl<'a> Inputs for RowInputs<'a> {
    fn text(&self, file: Option<&str>, details: &mut Details) -> Result<String, InputFault> {
        match text_in(self.alloc, self.given, file) {
            Ok(Some(text)) => Ok(text),
            Ok(None) => {
                let name = file.unwrap_or("");
                details.add(format!(in self.alloc; "the row has no file {name}"));
                Err(InputFault::Device)
            }
            Err(_) => Err(InputFault::NoMemory),
        }
    }

    fn history<W: Write>(
        &self,
        path: &str,
        out: &mut W,
        details: &mut Details,
    ) -> Result<Option<HistoryFile>, Stop> {
        let input = self.text(Some(path), details);
        read_file(self.alloc, path, input, out, details)
    }
}
