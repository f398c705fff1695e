ghost use Rattle.std.specs.Prelude.{◌≡◌};
ghost use Rattle.format.specs.Order.{after, enters, stays};

use crate::command::Code;

// The section that is open. A guard may stand only where the transition is fresh.
#[derive(Clone, Copy, PartialEq, Eq, Debug)]
pub enum Section {
    Sorts,
    Operations,
    Places,
    Transitions { fresh: bool },
    Claims,
    Ended,
}

// Where a file stands in the order of its sections.
#[derive(Drop)]
pub struct Order {
    pub section: Section,
}

impl Order {
    // The start of a file.
    pub fn new() -> Order
        ensures { result.section ≡ Section.Sorts }
    {
        Order {
            section: Section::Sorts,
        }
    }

    // Moves to the section of a command, or answers false and stays. A bool and no error: the reader makes the fault,
    // since it alone knows the byte.
    pub fn enter(&mut self, code: Code) -> bool
        ensures opens { after result self.new.section ≡ enters self.old.section code }
        ensures leaves { self.new.section ≡ stays (enters self.old.section code) self.old.section }
    {
        match (&mut self.section, code) {
            (Section::Sorts, Code::Sort) => true,
            (
                section @ (Section::Sorts | Section::Operations),
                Code::Operation | Code::BagOperation,
            ) => {
                *section = Section::Operations;
                true
            }
            (
                section @ (Section::Sorts | Section::Operations | Section::Places),
                Code::Place | Code::Tokens,
            ) => {
                *section = Section::Places;
                true
            }
            (
                section @ (Section::Sorts
                | Section::Operations
                | Section::Places
                | Section::Transitions { .. }),
                Code::Transition,
            ) => {
                *section = Section::Transitions { fresh: true };
                true
            }
            (Section::Transitions { fresh }, Code::Guard) => {
                let may = *fresh;
                *fresh = false;
                may
            }
            (Section::Transitions { fresh }, Code::InArc | Code::OutArc) => {
                *fresh = false;
                true
            }
            (Section::Ended, _) => false,
            (Section::Claims, Code::PlaceWeight | Code::ElementWeight) => true,
            (section, Code::Claim) => {
                *section = Section::Claims;
                true
            }
            (section, Code::End) => {
                *section = Section::Ended;
                true
            }
            _ => false,
        }
    }
}
