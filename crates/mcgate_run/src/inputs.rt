//! Where the texts come from that commands read.

use gate_history::HistoryFile;
use mcgate_ends::details::Details;
use mcgate_ends::ends::Stop;
use mcgate_ends::input_text::InputFault;
use std::io::Write;

/// What has the texts that commands read.
pub trait Inputs {
    /// Returns the text of a file, or of standard input where none is named. Where a device fails,
    /// a line of detail says why.
    fn text(&self, file: Option<&str>, details: &mut Details) -> Result<String, InputFault>;

    /// Returns the history in a file that a configuration is to follow. If there is no such file it
    /// is that of no generation; where the file is none, why was printed.
    fn history<W: Write>(
        &self,
        path: &str,
        out: &mut W,
        details: &mut Details,
    ) -> Result<Option<HistoryFile>, Stop>;
}
