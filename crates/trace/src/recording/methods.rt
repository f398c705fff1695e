// Opening a recording, adding commands to it, and ending it.
ghost use Rattle.std.specs.Prelude.{◌≡◌, ◌+◌, ◌≤◌, List, [], ◌++◌, length, take, IfOk, MatchResult, ◌≢◌};
ghost use Rattle.std.specs.Result.{result_err};
ghost use Rattle.trace.specs.Moves.{Move, move_bytes, move_of};
ghost use Rattle.trace.specs.Reading.{SaysOnly, end};
ghost use Rattle.trace.specs.Recorded.{Appended, Closed, CommandAdded, HoldsTrace, Kept, Records, adding_fault, memory_fault, opening_fault, put_at};

use super::{EndedRecording, OpenRecording};
use crate::commands::Command;
use crate::replays::LONGEST;
use term::Fault;

// Memory of another length than the recording's gets a fault.
fn measure(memory: &[u8], room: usize) -> Result<(), Fault>
    ensures { result_err result ≡ memory_fault room memory.now }
{
    if memory.len() == room {
        Ok(())
    } else {
        Err(Fault::Memory)
    }
}

// Writes some bytes into the memory at a place.
fn put(memory: &mut [u8], at: usize, bytes: &[u8])
    requires { at + length bytes.now ≤ length memory.old }
    ensures memory { memory.new ≡ put_at memory.old at bytes.now }
    ensures front { take (at + length bytes.now) memory.new ≡ take at memory.old ++ bytes.now }
{
    let end = at + bytes.len();
    memory[at..end].copy_from_slice(bytes);
}

impl OpenRecording {
    // A new recording in a memory with room for the end at least.
    pub fn open(memory: &[u8]) -> Result<OpenRecording, Fault>
        ensures refused { result_err result ≡ opening_fault memory.now }
        ensures opened { IfOk result (λ o. (o.len ≡ 0) × (o.room ≡ length memory.now) × Records memory.now o []) }
    {
        if memory.is_empty() {
            return Err(Fault::RecordingFull);
        }
        Ok(OpenRecording {
            len: 0,
            room: memory.len(),
        })
    }

    // Appends the bytes of one command, if they and the end fit.
    fn append(&mut self, memory: &mut [u8], bytes: &[u8]) -> Result<(), Fault>
        requires { length bytes.now ≤ 6 }
        ensures refused { result_err result ≡ adding_fault self.old memory.old (length bytes.now) }
        ensures appended { MatchResult result (λ _. Appended self.old self.new memory.old memory.new bytes.now) (λ _. Kept self.old self.new memory.old memory.new) }
    {
        measure(memory, self.room)?;
        let len = self.len + bytes.len();
        if len >= memory.len().min(LONGEST) {
            return Err(Fault::RecordingFull);
        }
        put(memory, self.len, bytes);
        self.len = len;
        Ok(())
    }

    // Adds a command, with operands of any value.
    #[tactic(auto, using(crate::proofs::Filled::added))]
    pub fn add(&mut self, memory: &mut [u8], command: Command) -> Result<(), Fault>
        ensures refused { result_err result ≡ adding_fault self.old memory.old (length (move_bytes (move_of command))) }
        ensures added { MatchResult result (λ _. CommandAdded self.old self.new memory.old memory.new (move_of command)) (λ _. Kept self.old self.new memory.old memory.new) }
    {
        match command {
            Command::Fire { transition, mode } => {
                let [a, b, c, d] = mode;
                self.append(memory, &[0x40, transition, a, b, c, d])
            }
            Command::Back => self.append(memory, &[0x41]),
            Command::Restart => self.append(memory, &[0x42]),
        }
    }

    // Writes the end into the free byte. Memory of another length leaves the recording open, and gives it back.
    pub fn end(self, memory: &mut [u8]) -> Result<EndedRecording, (OpenRecording, Fault)>
        ensures { MatchResult result (λ e. (length memory.old ≡ self.room) × Closed self e memory.old memory.new) (λ p. (length memory.old ≢ self.room) × (p.0 ≡ self) × (p.1 ≡ Fault.Memory) × (memory.new ≡ memory.old)) }
    {
        // no `?`: `self` goes back with the fault
        if let Err(fault) = measure(memory, self.room) {
            return Err((self, fault));
        }
        put(memory, self.len, &[0x4F]);
        Ok(EndedRecording {
            len: self.len + 1,
            room: self.room,
        })
    }
}

impl EndedRecording {
    // How many bytes the recording has, its end included.
    pub fn len(&self) -> usize
        ensures { result ≡ self.now.len }
    {
        self.len
    }

    // The bytes of the recording: a trace that says the commands added, in their order, and nothing else.
    pub fn trace<'m>(&self, memory: &'m [u8]) -> Result<&'m [u8], Fault>
        ensures refused { result_err result ≡ memory_fault self.now.room memory.now }
        ensures bytes { IfOk result (λ b. b.now ≡ take self.now.len memory.now) }
        ensures says { IfOk result (λ b. (ms : List Move) → HoldsTrace memory.now self.now ms → SaysOnly b.now ms end) }
    {
        measure(memory, self.room)?;
        Ok(&memory[..self.len])
    }
}
