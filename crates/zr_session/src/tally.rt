//! What the replies to generated commands come to.
//!
//! The replies themselves are not kept: they are counted by whether they refuse, and those to the `sum` commands are
//! digested as they would have been sent.
ghost use Rattle.std.specs.Prelude.{◌≡◌, ◌∷◌, ◌++◌, [], ◌+◌, ◌<◌, ◌^◌, List, IfOk, OnOk};
ghost use Rattle.zr_session.specs.Tally.{Answer, generated_text};
ghost use Rattle.zr_session.specs.Tallied.{IsTallyOf};

use sha2::{Digest, Sha256};
use std::alloc::{AllocError, Global};
use zr_base::NoMemory;
use zr_script::{Command, Reply, Word, put_line, reply_bytes};

/// What is counted of replies.
#[derive(Drop)]
pub struct Tally {
    /// How many did not refuse.
    pub accepted: u64,
    /// How many did.
    pub refused: u64,
    /// The lines of the replies to `sum` commands, one behind another.
    pub sums: Vec<u8>,
}

impl Tally {
    /// Of no replies.
    pub fn new(alloc: Global) -> Tally
        ensures none { IsTallyOf result [] }
        ensures accepted { result.accepted ≡ 0 }
        ensures refused { result.refused ≡ 0 }
    {
        Tally {
            accepted: 0,
            refused: 0,
            sums: Vec::new(alloc),
        }
    }

    /// Counts the reply to a command.
    pub fn add(&mut self, alloc: Global, command: &Command, reply: &Reply) -> Result<(), NoMemory>
        requires room { self.old.accepted + self.old.refused + 1 < 2 ^ 64 }
        ensures more { OnOk result ((given : List Answer) → IsTallyOf self.old given → IsTallyOf self.new (given ++ record { command = command.now; answer = reply.now } ∷ [])) }
        ensures count { OnOk result (self.new.accepted + self.new.refused ≡ self.old.accepted + self.old.refused + 1) }
    {
        match reply {
            Reply::No(_) => self.refused += 1,
            _ => self.accepted += 1,
        }
        if let Command::Sum { .. } = command {
            let text = reply_bytes(alloc, reply)?;
            self.sums
                .extend_from_slice(text.as_slice())
                .map_err(AllocError::from)?;
        }
        Ok(())
    }

    /// The line that tells of them, for the run of `number` with `count` drawn lines.
    pub fn line(&self, alloc: Global, number: u64, count: u32) -> Result<Vec<u8>, NoMemory>
        ensures { (given : List Answer) → IsTallyOf self.now given → IfOk result (λ text. text.items ≡ generated_text number count given) }
    {
        let sum = Sha256::digest(self.sums.as_slice());
        let mut text = Vec::new(alloc);
        put_line(
            alloc,
            &mut text,
            &[
                Word::Text(b"gen"),
                Word::Number(number),
                Word::Number(u64::from(count)),
                Word::Text(b"ok"),
                Word::Number(self.accepted),
                Word::Text(b"refused"),
                Word::Number(self.refused),
                Word::Text(b"sums"),
                Word::Hex(&sum),
            ],
        )?;
        Ok(text)
    }
}
