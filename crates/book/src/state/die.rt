//! A die with its logs and sign-offs.
ghost use Rattle.std.specs.Prelude.{◌≡◌, ◌<◌, IfOk, OnOk};
ghost use Rattle.std.specs.Arc.{arc_value};
ghost use Rattle.die_entries.specs.Entries.{arc_values};
ghost use Rattle.book.specs.Dies.{IsSameDie, bare_die, is_die, with_log, with_sign};

use diagnosis::ReadLog;
use die_entries::Sign;
use scan_model::{Name, NoMemory};
use std::alloc::Global;
use std::marker::Model;
use std::sync::Arc;

/// A die of a design, with its logs and its sign-offs in the order of their deeds. Contracts also see for how many more there is
/// room.
#[derive(Drop)]
pub struct Die {
    design: Name,
    die: Name,
    logs: Vec<Arc<ReadLog>>,
    signs: Vec<Sign>,
}

impl Model for Die {
    ghost use Rattle.std.specs.Prelude.{◌-◌, vec_len, vec_capacity};
    ghost use Rattle.die_entries.specs.Entries.{arc_values};
    ghost use Rattle.book.specs.Dies.{DieFacts};

    ghost Value = { DieFacts };

    ghost view = { λ k. record {
      design = k.design;
      die = k.die;
      logs = arc_values k.logs.items;
      signs = k.signs.items;
      log_room = vec_capacity k.logs - vec_len k.logs;
      sign_room = vec_capacity k.signs - vec_len k.signs;
    } };
}

impl Die {
    /// A die without logs.
    pub(super) fn bare(alloc: Global, design: &[u8], die: &[u8]) -> Result<Die, NoMemory>
        ensures { IfOk result (λ k. k ≡ bare_die design.now die.now) }
    {
        Ok(Die {
            design: Name::copy_of(alloc, design)?,
            die: Name::copy_of(alloc, die)?,
            logs: Vec::new(alloc),
            signs: Vec::new(alloc),
        })
    }

    /// Whether these are its names.
    pub(super) fn is(&self, design: &[u8], die: &[u8]) -> bool
        ensures { result ≡ is_die design.now die.now self.now }
    {
        self.design.as_slice() == design && self.die.as_slice() == die
    }

    pub fn logs(&self) -> &[Arc<ReadLog>]
        ensures { arc_values result.now ≡ self.now.logs }
    {
        &self.logs
    }

    pub fn signs(&self) -> &[Sign]
        ensures { result.now ≡ self.now.signs }
    {
        &self.signs
    }

    /// Makes room for one more log.
    pub(super) fn reserve_log(&mut self) -> Result<(), NoMemory>
        ensures same { IsSameDie self.old self.new }
        ensures room { OnOk result (0 < self.new.log_room) }
    {
        Ok(self.logs.reserve(1)?)
    }

    /// Makes room for one more sign-off.
    pub(super) fn reserve_sign(&mut self) -> Result<(), NoMemory>
        ensures same { IsSameDie self.old self.new }
        ensures room { OnOk result (0 < self.new.sign_room) }
    {
        Ok(self.signs.reserve(1)?)
    }

    /// Adds a log.
    pub(super) fn add_log(&mut self, log: Arc<ReadLog>)
        requires { 0 < self.old.log_room }
        ensures { self.new ≡ with_log self.old (arc_value log) }
    {
        self.logs.push_reserved(log);
    }

    /// Adds a sign-off.
    pub(super) fn add_sign(&mut self, sign: Sign)
        requires { 0 < self.old.sign_room }
        ensures { self.new ≡ with_sign self.old sign }
    {
        self.signs.push_reserved(sign);
    }
}
