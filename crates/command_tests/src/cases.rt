// The steps of cases, one after another.
use crate::devices::{Ran, Settings};
use crate::steps::{Expected, expect, set};
use std::alloc::{AllocError, Global};

// A run that makes as many calls of the work file isn't looked at.
const MOST_CALLS: u64 = 10_000;

// The case in hand: its name, what a run begins with, and the last run.
#[derive(Drop)]
struct Case {
    name: String,
    settings: Settings,
    ran: Option<Ran>,
}

impl Case {
    fn new(alloc: Global, name: &str) -> Result<Case, AllocError> {
        Ok(Case {
            name: String::from_str(alloc, name)?,
            settings: Settings::new(alloc),
            ran: None,
        })
    }

    // Runs the command of these words, none where there is no text, and keeps the store for the next run.
    fn run(&mut self, alloc: Global, text: &str) -> Result<(), AllocError> {
        let words = words_of(alloc, text)?;
        let ran = Ran::new(alloc, &words, &self.settings)?;
        self.settings.store.bytes = ran.store.bytes().to_vec(alloc)?;
        self.settings.store.fails = Vec::new(alloc);
        self.ran = Some(ran);
        Ok(())
    }

    // Runs the command of these words with one call of the work file failing, the first, then the second, and so on, up to the
    // first run that answers anything else, which is kept.
    fn run_each_work(&mut self, alloc: Global, text: &str) -> Result<(), AllocError> {
        let words = words_of(alloc, text)?;
        for call in 1..MOST_CALLS {
            self.settings.work.fails = [call].to_vec(alloc)?;
            let ran = Ran::new(alloc, &words, &self.settings)?;
            if ran.line.as_str() != "tpz: work file failed" {
                self.ran = Some(ran);
                return Ok(());
            }
        }
        Ok(())
    }

    // Takes a step that sets a device or expects something of the last run, and gives what is wrong.
    fn take(
        &mut self,
        alloc: Global,
        step: &str,
        rest: &str,
    ) -> Result<Option<String>, AllocError> {
        match &mut self.ran {
            Some(ran) => match expect(alloc, step, rest, ran)? {
                Expected::There => Ok(None),
                Expected::Other(what) => Ok(Some(what)),
                Expected::NoStep => set(alloc, step, rest, &mut self.settings, Some(ran)),
            },
            None => set(alloc, step, rest, &mut self.settings, None),
        }
    }

    // Takes a line that doesn't begin a case, and gives what is wrong.
    fn take_line(&mut self, alloc: Global, line: &str) -> Result<Option<String>, AllocError> {
        let (step, rest) = line.split_once(' ').unwrap_or((line, ""));
        match step {
            "" => Ok(None),
            "run" => {
                self.run(alloc, rest)?;
                Ok(None)
            }
            "each_work" => {
                self.run_each_work(alloc, rest)?;
                Ok(None)
            }
            _ => self.take(alloc, step, rest),
        }
    }

    // What is found in a line: nothing where all is as it says.
    fn found(&mut self, alloc: Global, line: &str) -> Result<String, AllocError> {
        match self.take_line(alloc, line)? {
            Some(what) => {
                let name = self.name.as_str();
                format!(in alloc; "{name}: {line}: {what}\n")
            }
            None => Ok(String::new(alloc)),
        }
    }
}

// The words of a text.
fn words_of(alloc: Global, text: &str) -> Result<Vec<String>, AllocError> {
    let mut words = Vec::new(alloc);
    if !text.is_empty() {
        for word in text.split(' ') {
            words.push(String::from_str(alloc, word)?)?;
        }
    }
    Ok(words)
}

/// What a text of cases finds: a line for each step that isn't as it says, or that is no step. It is empty where all is as
/// the text says. The module's page has the steps.
pub fn failures(alloc: Global, text: &str) -> Result<String, AllocError> {
    let mut found = String::new(alloc);
    let mut case = Case::new(alloc, "")?;
    for line in text.split('\n') {
        match line.strip_prefix("case ") {
            Some(name) => case = Case::new(alloc, name)?,
            None => found.push_str(case.found(alloc, line)?.as_str())?,
        }
    }
    Ok(found)
}
