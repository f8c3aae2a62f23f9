//! Which states a stopped run may show.
//!
//! A state is the one after the first k lines of the run, and it is told by what a probe answers: a second run, over what
//! those lines and an `export` leave. Whenever the run stops, an import shows such a state: no earlier one than that of the
//! last line that committed and was answered, and no later one than that of the line under way.

use crate::cases::Run;
use crate::lent_desk::Trouble;
use crate::patch::take_out;
use crate::runs::{lend, text_of};
use std::alloc::{AllocError, Global};
use zr_shelf::DiskFile;

/// The lines of a script.
pub fn lines_of(alloc: Global, script: &[u8]) -> Result<Vec<&[u8]>, AllocError> {
    let mut lines = Vec::new(alloc);
    for line in script.split(|b| *b == b'\n') {
        if !line.is_empty() {
            lines.push(line)?;
        }
    }
    Ok(lines)
}

// A script of the first lines and an `export`.
fn exported(alloc: Global, lines: &[&[u8]], count: usize) -> Result<Vec<u8>, AllocError> {
    let mut script = Vec::new(alloc);
    for line in lines.iter().take(count) {
        script.extend_from_slice(line)?;
        script.push(b'\n')?;
    }
    script.extend_from_slice(b"export\n")?;
    Ok(script)
}

/// What the probe answers for the state after no line, after one, and so on, of a run that begins on these files.
pub fn states_of(
    alloc: Global,
    mut files: Vec<DiskFile>,
    run: &Run,
    probe: &Run,
) -> Result<Vec<Vec<u8>>, AllocError> {
    let lines = lines_of(alloc, run.script.as_slice())?;
    let mut states = Vec::new(alloc);
    for count in 0..=lines.len() {
        let script = exported(alloc, lines.as_slice(), count)?;
        let words = run.words.as_slice();
        let before = lend(alloc, files, words, script, Trouble::None)?;
        let script = probe.script.as_slice().to_vec(alloc)?;
        let words = probe.words.as_slice();
        let after = lend(alloc, before.files, words, script, Trouble::None)?;
        states.push(text_of(alloc, &after)?)?;
        files = after.files;
        take_out(&mut files, after.patches);
        take_out(&mut files, before.patches);
    }
    Ok(states)
}

/// Whether a line that is answered so has committed.
pub fn commits(line: &[u8], reply: &[u8]) -> bool {
    if reply.starts_with(b"refused ") {
        return false;
    }
    reply.starts_with(b"gone ")
        || reply.starts_with(b"cancelled ")
        || line.starts_with(b"create ")
        || line.starts_with(b"import ")
        || line.starts_with(b"add ")
        || line.starts_with(b"checkpoint")
        || (line.starts_with(b"remove ") && !line.starts_with(b"remove -n "))
        || line == b"sync".as_slice()
        || line == b"export".as_slice()
        || line == b"upgrade".as_slice()
}

/// How far a run has come: the replies that were sent, and how many there were at the last that committed.
#[derive(Clone, Copy)]
pub struct Reached {
    pub sent: usize,
    pub kept: usize,
}

impl Reached {
    /// One reply more.
    pub fn answer(&mut self, lines: &[&[u8]], reply: &[u8]) {
        let line = lines.get(self.sent).copied().unwrap_or(b"".as_slice());
        self.sent = self.sent.saturating_add(1);
        if commits(line, reply) {
            self.kept = self.sent;
        }
    }
}

/// The states that a run may show, and which of them were shown.
#[derive(Drop)]
pub struct Shown {
    /// What the probe answers for each.
    states: Vec<Vec<u8>>,
    /// For each, whether it was shown while no reply vouched for it.
    ahead: Vec<bool>,
    lowest: usize,
    highest: usize,
    /// How many answers were of no state that may be shown.
    pub wrong: u64,
}

impl Shown {
    /// Nothing was shown yet.
    pub fn new(alloc: Global, states: Vec<Vec<u8>>) -> Result<Shown, AllocError> {
        let ahead = vec![in alloc; false; states.len()]?;
        Ok(Shown {
            states,
            ahead,
            lowest: usize::MAX,
            highest: 0,
            wrong: 0,
        })
    }

    // The earliest state that may be shown and that the probe answers so.
    fn state_of(&self, text: &[u8], reached: Reached) -> Option<usize> {
        for state in reached.kept..=reached.sent.saturating_add(1) {
            match self.states.get(state) {
                Some(known) if known.as_slice() == text => return Some(state),
                _ => {}
            }
        }
        None
    }

    /// Takes what the probe answered. It answers whether this is a state that may be shown.
    pub fn take(&mut self, text: &[u8], reached: Reached) -> bool {
        let Some(state) = self.state_of(text, reached) else {
            self.wrong = self.wrong.saturating_add(1);
            return false;
        };
        self.lowest = self.lowest.min(state);
        self.highest = self.highest.max(state);
        if state > reached.kept
            && let Some(ahead) = self.ahead.get_mut(state)
        {
            *ahead = true;
        }
        true
    }

    // Prints the states that were shown before a reply vouched for them.
    fn print_ahead(&self, rt: &HostRuntime) -> anyhow::Result<()> {
        print!(rt; "ahead:")?;
        let mut none = true;
        for (state, ahead) in self.ahead.as_slice().iter().enumerate() {
            if *ahead {
                print!(rt; " {state}")?;
                none = false;
            }
        }
        println!(rt; "{}", if none { " none" } else { "" })?;
        Ok(())
    }

    /// Prints the lowest and the highest state that was shown, those that were shown before a reply vouched for them, and
    /// what the probe answers for each state between.
    pub fn print(&self, rt: &HostRuntime) -> anyhow::Result<()> {
        if self.highest < self.lowest {
            println!(rt; "states: none")?;
            return Ok(());
        }
        println!(rt; "states: {}..{}", self.lowest, self.highest)?;
        self.print_ahead(rt)?;
        for (state, text) in self.states.as_slice().iter().enumerate() {
            if self.lowest <= state && state <= self.highest {
                println!(rt; "state {state}: {}", std::str::from_utf8(text.as_slice())?)?;
            }
        }
        Ok(())
    }
}
