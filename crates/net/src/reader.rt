ghost use Rattle.std.specs.Prelude.{◌≡◌, ◌<◌, length, IfOk, OnOk};
ghost use Rattle.net.specs.Held.{HoldsNoMore, Ready};
ghost use Rattle.net.specs.Reading.{Fills, Reads, Steps, empty, opening, opens, step as step_at};
ghost use Rattle.net.specs.Of.{system};
ghost use Rattle.net.specs.System.{told_by};
ghost use Rattle.net.specs.WellFormed.{Bytes};
ghost use Rattle.net.specs.declared.reader.ReadError.TheVariants.{File, Memory};

use crate::net::Net;
use crate::parts::Parts;
use format::{Code, Command, Order, refused};
use std::alloc::{AllocError, Global};
use term::{Fault, FileFault, Stage};

// The longest file.
pub const LONGEST: usize = 65536;

// Why a net was not read: a fault in its file, or want of memory.
#[derive(Clone, Copy, PartialEq, Eq, Debug)]
pub enum ReadError {
    File(FileFault),
    Memory,
}

impl From<FileFault> for ReadError {
    ghost from_gives = { λ f e. e ≡ File f };

    fn from(f: FileFault) -> ReadError {
        ReadError::File(f)
    }
}

impl From<AllocError> for ReadError {
    ghost from_gives = { λ _ e. e ≡ Memory };

    fn from(_e: AllocError) -> ReadError {
        ReadError::Memory
    }
}

// How far a file has been read: the order of its sections, and what is left.
#[derive(Drop)]
pub struct Reader<'f> {
    order: Order,
    rest: &'f [u8],
    ends: usize,
}

impl<'f> Reader<'f> {
    // The code of the next command, which opens its section and must have room.
    fn code(&mut self, parts: &Parts) -> Result<Code, FileFault>
        ensures value { opens result self.new.order.section ≡ opening self.old.order.section (told_by parts.now) self.old.rest.now self.old.ends }
        ensures rest { self.new.rest.now ≡ self.old.rest.now }
        ensures ends { self.new.ends ≡ self.old.ends }
    {
        let at = self.ends.saturating_sub(self.rest.len());
        let byte = self.rest.first().ok_or(refused(Fault::Ends, self.ends))?;
        let code = Code::try_from(*byte).map_err(|_| refused(Fault::NoCommand, at))?;
        if !self.order.enter(code) {
            return Err(refused(Fault::Order, at));
        }
        if parts.is_full(code) {
            return Err(refused(Fault::Limit, at));
        }
        Ok(code)
    }

    // Reads the next command and carries it out. False at the end. That what is left of the file are bytes stands in
    // clauses, since no fact of a type says it of a field.
    fn step(&mut self, parts: &mut Parts) -> Result<bool, ReadError>
        ensures value { Steps result self.new.order.section (told_by parts.new) self.new.rest.now (step_at self.old.order.section (told_by parts.old) self.old.rest.now self.old.ends) }
        ensures shorter { OnOk result (length self.new.rest.now < length self.old.rest.now) }
        ensures ends { self.new.ends ≡ self.old.ends }
        ensures bytes { OnOk result (Bytes self.old.rest.now → Bytes self.new.rest.now) }
        ensures ready { OnOk result (Bytes self.old.rest.now → Ready self.old.order.section (told_by parts.old).transitions → Ready self.new.order.section (told_by parts.new).transitions) }
        ensures no_more { OnOk result (Bytes self.old.rest.now → Ready self.old.order.section (told_by parts.old).transitions → HoldsNoMore parts.old.transitions → HoldsNoMore parts.new.transitions) }
    {
        let code = self.code(parts)?;
        let (command, rest) = parts.context(self.ends).parse(code, self.rest)?;
        parts.carry_out(command)?;
        self.rest = rest;
        Ok(!matches!(command, Command::End))
    }
}

// Carries out every command of a file, from the empty net on.
fn fill(parts: &mut Parts, file: &[u8]) -> Result<(), ReadError>
    requires { told_by parts.old ≡ empty }
    ensures told { Fills result file.now (told_by parts.new) }
    ensures no_more { OnOk result (HoldsNoMore parts.old.transitions → HoldsNoMore parts.new.transitions) }
{
    if file.len() > LONGEST {
        return Err(ReadError::File(FileFault {
            fault: Fault::TooLong,
            place: LONGEST,
            stage: Stage::File,
        }));
    }
    let mut reader = Reader {
        order: Order::new(),
        rest: file,
        ends: file.len(),
    };
    while reader.step(parts)? {}
    Ok(())
}

// Makes the parts those of the file's net, or of the empty one if there is a fault.
#[tactic(auto, using(crate::proofs::Held::none_no_more))]
fn load(parts: &mut Parts, file: &[u8]) -> Result<(), ReadError>
    ensures told { Reads result file.now (told_by parts.new) }
    ensures no_more { HoldsNoMore parts.new.transitions }
{
    parts.clear();
    let answer = fill(parts, file);
    if answer.is_err() {
        parts.clear();
    }
    answer
}

impl Net {
    // The empty net: sort 0 alone, which has two elements.
    pub fn new(heap: Global) -> Result<Net, AllocError>
        ensures { IfOk result (λ n. system n ≡ empty) }
    {
        Ok(Net {
            parts: Parts::new(heap)?,
        })
    }
}

// Fills the caller's net from a file. A fault leaves the empty net there.
pub fn read(net: &mut Net, file: &[u8]) -> Result<(), ReadError>
    ensures { Reads result file.now (system net.new) }
{
    load(&mut net.parts, file)
}
