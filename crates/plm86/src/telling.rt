//! What is told of the faults, warnings and control lines of files.

use crate::build::Source;
use crate::explained::{explain_build, named_texts};
use crate::order::{MessageFormat, Telling};
use crate::stop::Stop;
use layout_link::RomSize;
use listing_map::{
    Explainer, Explanation, FaultAt, NamedText, Place, controls, explain_run, explained_lines,
    fault_line, lints, note_line, number_and_words, object_line,
};
use plm_decl::Names;
use plm_type::Warning;
use std::alloc::{AllocError, Global};
use word86::{Fault, Number, Sink, WriterSink, put_all};

/// What files are read for.
#[derive(Clone, Copy)]
pub(crate) enum ReadFor {
    /// They are modules, which are built to a ROM of this size.
    Build(RomSize),
    /// One is a schedule or a ROM.
    Run,
}

/// Files that are read, and how their faults are told.
#[derive(Clone, Copy)]
pub(crate) struct Teller<'s, 'a> {
    pub alloc: Global,
    pub telling: Telling,
    pub sources: &'s [Source<'a>],
    pub read_for: ReadFor,
}

impl<'s, 'a> Teller<'s, 'a> {
    /// The name of the file of this number.
    pub fn name(&self, module: usize) -> &'a str {
        match self.sources.get(module) {
            Some(source) => source.name,
            None => "",
        }
    }

    fn text(&self, module: usize) -> &'a [u8] {
        match self.sources.get(module) {
            Some(source) => source.text,
            None => b"",
        }
    }

    /// Whether faults and warnings are explained: objects always are.
    fn explains(&self) -> bool {
        match self.telling.format {
            MessageFormat::Json => true,
            MessageFormat::Text => self.telling.explains,
        }
    }

    fn explanation(&self, fault: FaultAt) -> Result<Explanation<'a>, AllocError> {
        match self.read_for {
            ReadFor::Build(size) => explain_build(self.alloc, self.sources, size, fault),
            ReadFor::Run => {
                let text = self.text(fault.module);
                explain_run(self.alloc, text, fault.line, fault.number)
            }
        }
    }

    /// Puts the object of a fault or a warning behind a text.
    fn put_object(
        &self,
        fault: FaultAt,
        explanation: &Explanation<'_>,
        text: &mut Vec<u8>,
    ) -> Result<(), AllocError> {
        let (number, words) = number_and_words(fault.number);
        let place = Place {
            line: Some(fault.line),
            column: column_of(explanation),
        };
        let help = Some(explanation.help.as_slice());
        let name = self.name(fault.module);
        let object = object_line(
            self.alloc,
            name,
            place,
            Some(number.as_bytes()),
            words,
            help,
        )?;
        text.extend_from_slice(&object)
    }

    /// Puts the line of a fault or a warning behind a text.
    fn put_line(&self, fault: FaultAt, text: &mut Vec<u8>) -> Result<(), AllocError> {
        let sink = &mut WriterSink::new(text);
        match fault_line(self.name(fault.module), fault.line, fault.number, sink) {
            Ok(()) => Ok(()),
            Err(_) => Err(AllocError),
        }
    }

    /// Puts behind a text what stands under a fault's or a warning's line.
    fn put_further(
        &self,
        fault: FaultAt,
        explanation: &Explanation<'_>,
        text: &mut Vec<u8>,
    ) -> Result<(), AllocError> {
        let further = explained_lines(self.alloc, fault.line, explanation)?;
        text.extend_from_slice(&further)
    }

    /// Puts a fault or a warning behind a text, with what is said of it: an object, or its line and what stands under it.
    fn put_explained(
        &self,
        fault: FaultAt,
        explanation: &Explanation<'_>,
        text: &mut Vec<u8>,
    ) -> Result<(), AllocError> {
        match self.telling.format {
            MessageFormat::Json => self.put_object(fault, explanation, text),
            MessageFormat::Text => {
                self.put_line(fault, text)?;
                self.put_further(fault, explanation, text)
            }
        }
    }

    /// Puts one fault, alone, behind a text.
    fn put_alone(&self, fault: FaultAt, text: &mut Vec<u8>) -> Result<(), AllocError> {
        if !self.explains() {
            return self.put_line(fault, text);
        }
        let explanation = self.explanation(fault)?;
        self.put_explained(fault, &explanation, text)
    }

    /// Puts the lines of faults or warnings behind a text.
    fn put_lines(&self, faults: &[FaultAt], text: &mut Vec<u8>) -> Result<(), AllocError> {
        for fault in faults {
            self.put_line(*fault, text)?;
        }
        Ok(())
    }

    /// Puts one of several faults or warnings behind a text, with what is said of it.
    fn put_one(
        &self,
        explainer: &Explainer<'_, 'a>,
        fault: FaultAt,
        text: &mut Vec<u8>,
    ) -> Result<(), AllocError> {
        let explanation = explainer.explain(fault)?;
        self.put_explained(fault, &explanation, text)
    }

    /// Puts faults or warnings behind a text, each with what is said of it.
    fn put_each(
        &self,
        explainer: &Explainer<'_, 'a>,
        faults: &[FaultAt],
        text: &mut Vec<u8>,
    ) -> Result<(), AllocError> {
        for fault in faults {
            self.put_one(explainer, *fault, text)?;
        }
        Ok(())
    }

    /// Puts all faults of a phase behind a text; the first alone where that phase has one.
    fn put_phase(
        &self,
        explainer: &Explainer<'_, 'a>,
        first: FaultAt,
        text: &mut Vec<u8>,
    ) -> Result<(), AllocError> {
        let all = explainer.faults();
        if all.is_empty() {
            return self.put_alone(first, text);
        }
        if !self.explains() {
            return self.put_lines(all, text);
        }
        self.put_each(explainer, all, text)
    }

    /// Puts all faults of the phase that a fault is of behind a text.
    fn put_all(&self, first: FaultAt, text: &mut Vec<u8>) -> Result<(), AllocError> {
        let texts = named_texts(self.alloc, self.sources)?;
        let explainer = Explainer::new(self.alloc, &texts, None, first.number)?;
        self.put_phase(&explainer, first, text)
    }

    /// Puts a fault behind a text, or all of its phase where they are wanted.
    fn put_as_wanted(&self, fault: FaultAt, text: &mut Vec<u8>) -> Result<(), AllocError> {
        match self.read_for {
            ReadFor::Build(_) if self.telling.tells_all => self.put_all(fault, text),
            ReadFor::Build(_) | ReadFor::Run => self.put_alone(fault, text),
        }
    }

    /// What is told of a fault, and the notes behind it.
    fn refused(&self, fault: FaultAt) -> Result<Vec<u8>, AllocError> {
        let mut text = Vec::new(self.alloc);
        self.put_as_wanted(fault, &mut text)?;
        self.put_notes(&mut text)?;
        Ok(text)
    }

    /// The stop for a fault.
    pub fn refusal(&self, fault: Fault) -> Result<Stop, Stop> {
        match fault {
            Fault::Memory => Ok(Stop::Memory),
            Fault::At(module, line, number) => {
                let text = self.refused(FaultAt {
                    module: module as usize,
                    line,
                    token: None,
                    number,
                })?;
                Ok(Stop::Refused(text))
            }
        }
    }

    /// What a phase answers, or the stop for its fault.
    pub fn or_refusal<T: Drop>(&self, answer: Result<T, Fault>) -> Result<T, Stop> {
        match answer {
            Ok(value) => Ok(value),
            Err(fault) => Err(self.refusal(fault)?),
        }
    }

    /// Puts warnings behind a text, each with what is said of it.
    fn put_explained_warnings(
        &self,
        faults: &[FaultAt],
        text: &mut Vec<u8>,
    ) -> Result<(), AllocError> {
        let texts = named_texts(self.alloc, self.sources)?;
        let explainer = Explainer::new(self.alloc, &texts, None, Number::W1)?;
        self.put_each(&explainer, faults, text)
    }

    /// Puts the warnings behind a text.
    fn put_warnings(&self, given: &[Warning], text: &mut Vec<u8>) -> Result<(), AllocError> {
        let faults = faults_of(self.alloc, given)?;
        if faults.is_empty() || !self.explains() {
            return self.put_lines(&faults, text);
        }
        self.put_explained_warnings(&faults, text)
    }

    /// Puts a note's object behind a text.
    fn put_note_object(
        &self,
        name: &str,
        place: Place,
        words: &str,
        text: &mut Vec<u8>,
    ) -> Result<(), AllocError> {
        let words = format!(in self.alloc; "note: {words}")?;
        let object = object_line(self.alloc, name, place, None, words.as_str(), None)?;
        text.extend_from_slice(&object)
    }

    /// Puts a note's line behind a text.
    fn put_note_line(
        &self,
        name: &str,
        line: u32,
        words: &[u8],
        text: &mut Vec<u8>,
    ) -> Result<(), AllocError> {
        let note = note_line(self.alloc, name, line, words)?;
        text.extend_from_slice(&note)
    }

    /// Puts a note behind a text: with these words, at a line and a column of a file.
    fn put_note(
        &self,
        name: &str,
        line: u32,
        column: usize,
        words: &[u8],
        text: &mut Vec<u8>,
    ) -> Result<(), AllocError> {
        match self.telling.format {
            MessageFormat::Json => {
                let place = Place {
                    line: Some(line),
                    column: Some(column),
                };
                let words = String::from_utf8_lossy(self.alloc, words)?;
                self.put_note_object(name, place, words.as_str(), text)
            }
            MessageFormat::Text => self.put_note_line(name, line, words, text),
        }
    }

    /// Puts a note behind a text for each control of a module.
    fn put_controls(&self, source: &Source<'_>, text: &mut Vec<u8>) -> Result<(), AllocError> {
        for control in controls(self.alloc, source.text)? {
            let words = control.words(self.alloc)?;
            self.put_note(source.name, control.line, 1, &words, text)?;
        }
        Ok(())
    }

    /// Puts a note behind a text for each control of each module; a schedule and a ROM have none.
    fn put_notes(&self, text: &mut Vec<u8>) -> Result<(), AllocError> {
        match self.read_for {
            ReadFor::Run => Ok(()),
            ReadFor::Build(_) => {
                for source in self.sources {
                    self.put_controls(source, text)?;
                }
                Ok(())
            }
        }
    }

    /// Puts behind a text the notes on what compiles and is mostly a mistake.
    fn put_lints(
        &self,
        sources: &[NamedText<'_>],
        names: &Names,
        text: &mut Vec<u8>,
    ) -> Result<(), AllocError> {
        for lint in lints(self.alloc, sources, names)? {
            self.put_note(lint.file, lint.line, lint.column, &lint.words, text)?;
        }
        Ok(())
    }

    /// The same where they are wanted.
    fn put_wanted_lints(&self, names: &Names, text: &mut Vec<u8>) -> Result<(), AllocError> {
        if !self.telling.lints {
            return Ok(());
        }
        let texts = named_texts(self.alloc, self.sources)?;
        self.put_lints(&texts, names, text)
    }

    /// The warnings and notes of a program, as they are shown.
    fn remarks(&self, given: &[Warning], names: &Names) -> Result<Vec<u8>, AllocError> {
        let mut text = Vec::new(self.alloc);
        self.put_warnings(given, &mut text)?;
        self.put_notes(&mut text)?;
        self.put_wanted_lints(names, &mut text)?;
        Ok(text)
    }

    /// Shows the warnings and notes of a program. Where they cannot be shown, what is written still tells.
    pub fn show_remarks<S: Sink>(
        &self,
        given: &[Warning],
        names: &Names,
        errors: &mut S,
    ) -> Result<(), AllocError> {
        let remarks = self.remarks(given, names)?;
        let _ = put_all(errors, &remarks);
        Ok(())
    }
}

/// The column that is marked, from 1 on, where one is.
fn column_of(explanation: &Explanation<'_>) -> Option<usize> {
    let is_marked = explanation.width > 0;
    is_marked.then_some(explanation.column.saturating_add(1))
}

/// Warnings, as what explains takes them.
fn faults_of(alloc: Global, given: &[Warning]) -> Result<Vec<FaultAt>, AllocError> {
    let mut faults = Vec::new(alloc);
    for warning in given {
        faults.push(FaultAt {
            module: warning.module,
            line: warning.line,
            token: None,
            number: Number::W1,
        })?;
    }
    Ok(faults)
}
