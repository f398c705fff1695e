// The parts of a net as it is read, command by command.
ghost use Rattle.std.specs.Prelude.{◌≡◌, ◌-◌, length, IfOk, OnOk, slice_set};
ghost use Rattle.term.specs.Meaning.{of};
ghost use Rattle.format.specs.Commands.{bag_operation, claim, element_weight, operation, place_weight, said_of, tokens, transition};
ghost use Rattle.format.specs.Format.{setting_of};
ghost use Rattle.net.specs.Extents.{NothingLeft};
ghost use Rattle.net.specs.Held.{Fits, HoldsNoMore};
ghost use Rattle.net.specs.Nets.{no_claim};
ghost use Rattle.net.specs.Reading.{add, coded, empty, full, newest, setting, table_added, unweighted};
ghost use Rattle.net.specs.System.{arc_count, told_by};

use super::{Claim, Parts, Transitions};
use crate::net::CELLS;
use domain::Kind;
use format::{Code, Command, Context, variable_sizes};
use std::alloc::{AllocError, Global};
use term::{Arguments, BagOperation, Checker, Operation, Signature, cell};

// At most so many of each stand in a file.
const SORTS: usize = 8;

const OPERATIONS: usize = 32;

const BAG_OPERATIONS: usize = 8;

const PLACES: usize = 16;

const TRANSITIONS: usize = 32;

const ARCS: usize = 128;

const CLAIMS: usize = 16;

impl Claim {
    // One without weights.
    fn new(kind: Kind) -> Claim
        ensures { result ≡ unweighted kind }
    {
        Claim {
            kind,
            codes: [0; CELLS],
        }
    }

    // Gives a cell a code, if there is such a cell.
    fn set(&mut self, cell: usize, code: i32)
        ensures { self.new ≡ coded (λ xs. slice_set xs cell code) self.old }
    {
        if cell < CELLS {
            self.codes[cell] = code;
        }
    }
}

impl Parts {
    // Those of the empty net: sort 0 alone, which has two elements.
    pub(crate) fn new(heap: Global) -> Result<Parts, AllocError>
        ensures told { IfOk result (λ p. told_by p ≡ empty) }
        ensures nothing { IfOk result (λ p. NothingLeft p.transitions.takes.items p.transitions.puts.items p.transitions.bytes.items) }
    {
        Ok(Parts {
            sizes: vec![in heap; 2]?,
            operations: Vec::new(heap),
            bags: Vec::new(heap),
            tables: Vec::new(heap),
            places: Vec::new(heap),
            initial: [0; CELLS],
            transitions: Transitions::new(heap),
            claims: Vec::new(heap),
        })
    }

    // Back to those of the empty net.
    pub(crate) fn clear(&mut self)
        ensures told { told_by self.new ≡ empty }
        ensures nothing { NothingLeft self.new.transitions.takes.items self.new.transitions.puts.items self.new.transitions.bytes.items }
    {
        self.sizes.truncate(1);
        self.operations.clear();
        self.bags.clear();
        self.tables.clear();
        self.places.clear();
        self.initial = [0; CELLS];
        self.transitions.clear();
        self.claims.clear();
    }

    // Whether one more command of this code would pass a limit.
    pub(crate) fn is_full(&self, code: Code) -> bool
        ensures { result ≡ full (told_by self.now) code }
    {
        match code {
            Code::Sort => self.sizes.len() >= SORTS,
            Code::Operation => self.operations.len() >= OPERATIONS,
            Code::BagOperation => self.bags.len() >= BAG_OPERATIONS,
            Code::Place => self.places.len() >= PLACES,
            Code::Transition => self.transitions.len() >= TRANSITIONS,
            Code::InArc | Code::OutArc => self.transitions.arc_count() >= ARCS,
            Code::Claim => self.claims.len() >= CLAIMS,
            Code::Tokens | Code::Guard | Code::PlaceWeight | Code::ElementWeight | Code::End =>
                false,
        }
    }

    pub(crate) fn signature(&self) -> Signature<'_>
        ensures { of result ≡ (told_by self.now).sig }
    {
        Signature {
            sizes: self.sizes.as_slice(),
            operations: self.operations.as_slice(),
            bags: self.bags.as_slice(),
            tables: self.tables.as_slice(),
        }
    }

    // What the operands of the next command are read by, in a file of `ends` bytes.
    pub(crate) fn context(&self, ends: usize) -> Context<'_>
        ensures { setting_of result ≡ setting (told_by self.now) ends }
    {
        Context {
            checker: Checker {
                signature: self.signature(),
                variables: self.transitions.variables(),
                ends,
            },
            places: self.places.as_slice(),
            kind: self.last_kind(),
        }
    }

    // The kind of the newest claim.
    fn last_kind(&self) -> Kind
        ensures { result ≡ (newest (told_by self.now).claims no_claim).kind }
    {
        self.claims.last().map_or(Kind::Equal, |c| c.kind)
    }

    // Adds a table behind the others, and gives where it begins.
    fn add_table(&mut self, table: &[u8]) -> Result<u32, AllocError>
        ensures told { IfOk result (λ from. (from ≡ length (told_by self.old).sig.tables) × (told_by self.new ≡ table_added table.now (told_by self.old))) }
        ensures others { self.new.transitions ≡ self.old.transitions }
    {
        // no file is so long that this fails
        let from = u32::try_from(self.tables.len()).map_err(|_| AllocError)?;
        self.tables.extend_from_slice(table)?;
        Ok(from)
    }

    fn add_operation(
        &mut self,
        arguments: Arguments,
        res: u8,
        table: &[u8],
    ) -> Result<(), AllocError>
        ensures told { OnOk result (told_by self.new ≡ add (told_by self.old) (operation arguments res table.now)) }
        ensures others { self.new.transitions ≡ self.old.transitions }
    {
        let table = self.add_table(table)?;
        self.operations.push(Operation {
            arguments,
            result: res,
            table,
        })?;
        Ok(())
    }

    fn add_bag_operation(&mut self, argument: u8, res: u8, table: &[u8]) -> Result<(), AllocError>
        ensures told { OnOk result (told_by self.new ≡ add (told_by self.old) (bag_operation argument res table.now)) }
        ensures others { self.new.transitions ≡ self.old.transitions }
    {
        let table = self.add_table(table)?;
        self.bags.push(BagOperation {
            argument,
            result: res,
            table,
        })?;
        Ok(())
    }

    fn add_transition(&mut self, sorts: &[u8]) -> Result<(), AllocError>
        ensures told { OnOk result (told_by self.new ≡ add (told_by self.old) (transition sorts.now)) }
        ensures no_more { OnOk result (HoldsNoMore self.old.transitions → HoldsNoMore self.new.transitions) }
    {
        let sizes = variable_sizes(self.sizes.as_slice(), sorts);
        self.transitions.push(sorts, sizes)
    }

    fn add_claim(&mut self, kind: Kind) -> Result<(), AllocError>
        ensures told { OnOk result (told_by self.new ≡ add (told_by self.old) (claim kind)) }
        ensures others { self.new.transitions ≡ self.old.transitions }
    {
        self.claims.push(Claim::new(kind))?;
        Ok(())
    }

    // Gives one cell of the newest claim a code.
    fn set_code(&mut self, place: u8, element: u8, code: i32)
        ensures told { told_by self.new ≡ add (told_by self.old) (element_weight place element code) }
        ensures others { self.new.transitions ≡ self.old.transitions }
    {
        if let Some(claim) = self.claims.last_mut() {
            claim.set(cell(place, element), code);
        }
    }

    // Gives all elements of a place a code in the newest claim.
    fn set_codes(&mut self, place: u8, code: i32)
        ensures told { told_by self.new ≡ add (told_by self.old) (place_weight place code) }
        ensures others { self.new.transitions ≡ self.old.transitions }
    {
        for element in 0..self.elements(place) {
            self.set_code(place, element, code);
        }
    }

    fn set_tokens(&mut self, place: u8, element: u8, count: u16)
        ensures told { told_by self.new ≡ add (told_by self.old) (tokens place element count) }
        ensures others { self.new.transitions ≡ self.old.transitions }
    {
        let at = cell(place, element);
        if at < CELLS {
            self.initial[at] = count;
        }
    }

    // Carries out a command that was read.
    pub(crate) fn carry_out(&mut self, command: Command) -> Result<(), AllocError>
        ensures told { OnOk result (told_by self.new ≡ add (told_by self.old) (said_of command.entry)) }
        ensures no_more { OnOk result (Fits (said_of command.entry) (told_by self.old).transitions → HoldsNoMore self.old.transitions → HoldsNoMore self.new.transitions) }
    {
        match command {
            Command::Sort { size } => self.sizes.push(size)?,
            Command::Operation {
                arguments,
                result,
                table,
            } => { self.add_operation(arguments, result, table)? }
            Command::BagOperation {
                argument,
                result,
                table,
            } => { self.add_bag_operation(argument, result, table)? }
            Command::Place { sort } => self.places.push(sort)?,
            Command::Tokens {
                place,
                element,
                count,
            } => self.set_tokens(place, element, count),
            Command::Transition { sorts } => self.add_transition(sorts)?,
            Command::Guard { term } => self.transitions.set_guard(term)?,
            Command::Arc {
                direction,
                place,
                bag,
            } => self.transitions.add_arc(direction, place, bag)?,
            Command::Claim { kind } => self.add_claim(kind)?,
            Command::PlaceWeight { place, code } => self.set_codes(place, code),
            Command::ElementWeight {
                place,
                element,
                code,
            } => self.set_code(place, element, code),
            Command::End => {}
        }
        Ok(())
    }
}
