// Operations of more than two arguments, of which no file tells.
use std::test::Fail;
use term::{Arguments, Checker, Evaluator, Fault, FileFault, Operation, Signature, Stage};

// Operation 0 of the element 1 of sort 0 and the element 2 of sort 1, then a byte that is left.
const TERM: &[u8] = &[0x22, 0, 0x21, 0, 1, 0x21, 1, 2, 0xFF];

// The same with one part of the other's sort, and where that sort stands.
const OF_ANOTHER_SORT: &[(&[u8], usize)] = &[
    (&[0x22, 0, 0x21, 1, 1, 0x21, 1, 2], 3),
    (&[0x22, 0, 0x21, 0, 1, 0x21, 0, 1], 6),
];

#[test]
fn of_more_than_two_arguments_two_are_read(rt: HostRuntime) -> Result<(), Fail> {
    let operation = Operation {
        arguments: Arguments::More(0, 1),
        result: 1,
        table: 0,
    };
    let signature = Signature {
        sizes: &[2, 3],
        operations: &[operation],
        bags: &[],
        tables: &[0, 1, 1, 2],
    };
    let left: &[u8] = &[0xFF];
    let evaluator = Evaluator {
        signature,
        mode: &[],
    };
    assert_eq!(rt; evaluator.value(TERM, 2), (2, left));
    let checker = Checker {
        signature,
        variables: &[],
        ends: TERM.len(),
    };
    assert_eq!(rt; checker.term(TERM, 2, 1), Ok(left));
    for (bytes, place) in OF_ANOTHER_SORT {
        let checker = Checker {
            signature,
            variables: &[],
            ends: bytes.len(),
        };
        let fault = FileFault {
            fault: Fault::Sort,
            place: *place,
            stage: Stage::Term,
        };
        assert_eq!(rt; checker.term(bytes, 2, 1), Err(fault));
    }
    Ok(())
}
