//! What is said on standard error of arguments and inputs: which thing is wrong, and why.

use crate::arguments::{ArgumentsFault, Task};
use crate::refusal_details::{Origin, lines_of_refusal};
use core_accepted::{Beginning, Beginnings};
use fault_configs::{address_trouble, lines_of_configuration, lines_of_warnings};
use fault_words::script::BadLine;
use fault_words::{
    WordFault, fault_in_words, key_fault_in_words, lines_of_bad_line, lines_of_script,
};
use mcgate_ends::details::{Details, name_of};
use mcgate_ends::input_text::InputFault;
use mcgate_lines::Form;
use mcgate_replay::Judging;
use script_events::text::front::front_of;
use script_events::text::reader::read_script;
use std::alloc::{AllocError, Global};
use std::io;
use std::io::ErrorKind;

// What is said of words: their fault, and the words that are expected.
fn lines_of_words(alloc: Global, fault: WordFault<'_>) -> Result<Vec<String>, AllocError> {
    let mut lines = Vec::new(alloc);
    lines.push(format!(in alloc; "{fault}")?)?;
    lines.push(format!(in alloc; "usage: {}", fault.usage())?)?;
    Ok(lines)
}

// What is said of a script and its bad line, or of its first line where that is no configuration.
fn lines_of_input(
    alloc: Global,
    name: &str,
    text: &str,
    bad: Option<BadLine<'_>>,
) -> Result<Vec<String>, AllocError> {
    match bad {
        Some(bad) => lines_of_bad_line(alloc, name, text, bad),
        None => lines_of_script(alloc, name, text),
    }
}

// Whether the text is a script of which each line can be read.
fn is_script(alloc: Global, text: &str) -> bool {
    read_script(alloc, text).is_ok()
}

// The flags that say that servers began so.
fn flags_of(begun: Beginnings) -> &'static str {
    match (begun.opened, begun.added) {
        (_, Beginning::Any) => "--opened",
        (Beginning::Any, Beginning::Own) => "--new-servers",
        (Beginning::Own, Beginning::Own) => "--opened and --new-servers",
    }
}

// What is said of the bad line of a script of which each line can be read, and each event can be, where servers began so.
fn excluded_line(alloc: Global, name: &str, begun: Beginnings) -> Result<String, AllocError> {
    let flags = flags_of(begun);
    format!(in alloc; "mcgate: {name}: by {flags} the server of that line can't have held the key")
}

// Says why the gate refuses the tree of a script's first line, where the script comes from this
// file or from standard input, and what to change there.
fn add_refused_script(details: &mut Details, alloc: Global, file: Option<&str>, text: &str) {
    let origin = Origin::FirstLine(file);
    let line = front_of(text).line;
    if let Ok(lines) = lines_of_refusal(alloc, name_of(file), origin, line) {
        details.add_all(Ok(lines));
    }
}

// Says what is wrong with a script, whose trees are judged so.
fn add_script(
    details: &mut Details,
    alloc: Global,
    judging: Judging,
    name: &str,
    text: &str,
    bad: Option<BadLine<'_>>,
) {
    match (judging, bad) {
        (Judging::Begun(begun, _), None) if is_script(alloc, text) => {
            details.add(excluded_line(alloc, name, begun));
        }
        (_, bad) => details.add_all(lines_of_input(alloc, name, text, bad)),
    }
}

/// What is said in words of arguments and inputs. Where memory was refused that is all that is to be said.
pub trait Explaining {
    /// Why nothing can listen on an address.
    fn add_listen(&mut self, alloc: Global, address: &str, error: &io::Error);

    /// Which of the program's words is wrong, its name first.
    fn add_words(&mut self, alloc: Global, fault: ArgumentsFault, words: &[String]);

    /// What is wrong with an input that is to be a configuration.
    fn add_configuration(&mut self, alloc: Global, name: &str, input: &Result<String, InputFault>);

    /// What is wrong with a text that is to be a configuration.
    fn add_text(&mut self, alloc: Global, name: &str, text: &str);

    /// What is to be said of an input that is a configuration.
    fn add_warnings(&mut self, alloc: Global, name: &str, input: &Result<String, InputFault>);

    /// What is wrong with the input of a task, of whose script this is the bad line.
    fn add_task(
        &mut self,
        alloc: Global,
        task: Task,
        name: &str,
        input: &Result<String, InputFault>,
        bad: Option<BadLine<'_>>,
    );

    /// Why the gate refuses the tree of a text, which comes from this file or from standard input, and what to change there.
    fn add_refusal(&mut self, alloc: Global, file: Option<&str>, text: &str);

    /// Why the gate refuses the tree of a task's input. Nothing where the task tells it itself.
    fn add_refused_task(
        &mut self,
        alloc: Global,
        task: Task,
        file: Option<&str>,
        input: &Result<String, InputFault>,
    );

    /// What is wrong with an input of events, of which this is the bad line.
    fn add_events(
        &mut self,
        alloc: Global,
        judging: Judging,
        name: &str,
        input: &Result<String, InputFault>,
        bad: Option<BadLine<'_>>,
    );
}

impl Explaining for Details {
    fn add_listen(&mut self, alloc: Global, address: &str, error: &io::Error) {
        match address_trouble(address) {
            Some(trouble) if error.kind() != ErrorKind::OutOfMemory => self.add(format!(in alloc;
                "mcgate: cannot listen on {address}: {trouble}"
            )),
            _ => self.add_path(alloc, address, error),
        }
    }

    fn add_words(&mut self, alloc: Global, fault: ArgumentsFault, words: &[String]) {
        match fault {
            ArgumentsFault::Refused => {
                if let Ok(Some(fault)) = fault_in_words(alloc, words) {
                    self.add_all(lines_of_words(alloc, fault));
                }
            }
            ArgumentsFault::Key(_) => {
                if let Some(fault) = key_fault_in_words(words) {
                    self.add_all(lines_of_words(alloc, fault));
                }
            }
            ArgumentsFault::NoMemory => {}
        }
    }

    fn add_configuration(&mut self, alloc: Global, name: &str, input: &Result<String, InputFault>) {
        match input {
            Ok(text) => self.add_text(alloc, name, text.as_str()),
            Err(fault) => self.add_input(alloc, name, *fault),
        }
    }

    fn add_text(&mut self, alloc: Global, name: &str, text: &str) {
        self.add_all(lines_of_configuration(alloc, name, text));
    }

    fn add_warnings(&mut self, alloc: Global, name: &str, input: &Result<String, InputFault>) {
        if let Ok(text) = input {
            self.add_all(lines_of_warnings(alloc, name, text.as_str()));
        }
    }

    fn add_task(
        &mut self,
        alloc: Global,
        task: Task,
        name: &str,
        input: &Result<String, InputFault>,
        bad: Option<BadLine<'_>>,
    ) {
        match task {
            Task::Check { form: _ } => self.add_configuration(alloc, name, input),
            Task::Replay { judging } => match input {
                Ok(text) => add_script(self, alloc, judging, name, text.as_str(), bad),
                Err(fault) => self.add_input(alloc, name, *fault),
            },
        }
    }

    fn add_refusal(&mut self, alloc: Global, file: Option<&str>, text: &str) {
        let origin = Origin::Whole(file);
        if let Ok(lines) = lines_of_refusal(alloc, name_of(file), origin, text) {
            self.add_all(Ok(lines));
        }
    }

    fn add_refused_task(
        &mut self,
        alloc: Global,
        task: Task,
        file: Option<&str>,
        input: &Result<String, InputFault>,
    ) {
        let Ok(text) = input else {
            return;
        };
        match task {
            Task::Check {
                form: Form::Explained,
            } => {}
            Task::Check { form: _ } => self.add_refusal(alloc, file, text.as_str()),
            Task::Replay { judging: _ } => add_refused_script(self, alloc, file, text.as_str()),
        }
    }

    fn add_events(
        &mut self,
        alloc: Global,
        judging: Judging,
        name: &str,
        input: &Result<String, InputFault>,
        bad: Option<BadLine<'_>>,
    ) {
        match (input, bad) {
            (Err(fault), _) => self.add_input(alloc, name, *fault),
            (Ok(text), Some(bad)) => {
                self.add_all(lines_of_bad_line(alloc, name, text.as_str(), bad));
            }
            (Ok(_), None) => match judging {
                Judging::Begun(begun, _) => self.add(excluded_line(alloc, name, begun)),
                Judging::Any | Judging::Asked(_) => {}
            },
        }
    }
}
