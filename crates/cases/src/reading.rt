// Which files read, and the fault of each that does not: its number, its byte and its stage.
use crate::nets::{changed, joined, net_of, repeated};
use net::{Net, ReadError, read};
use std::alloc::Global;
use std::process::Abort;
use std::test::Fail;
use term::Stage;
use term::Stage::{Command, File, Term};

// The fault of a file: its number, its byte and its stage.
type Found = (u8, usize, Stage);

// The fault of a file that does not read.
fn fault_of(heap: Global, file: &[u8]) -> Result<Option<Found>, Fail> {
    match net_of(heap, file) {
        Ok(_) => Ok(None),
        Err(ReadError::File(f)) => Ok(Some((f.fault.number(), f.place, f.stage))),
        Err(ReadError::Memory) => Err(Fail::new("no memory")),
    }
}

// Checks that a file has this fault.
fn check_fault(
    rt: &impl Abort,
    at: &str,
    heap: Global,
    file: &[u8],
    want: Found,
) -> Result<(), Fail> {
    assert_eq!(rt; fault_of(heap, file)?, Some(want), "{at}");
    Ok(())
}

// Checks that a file reads.
fn check_reads(rt: &impl Abort, at: &str, heap: Global, file: &[u8]) -> Result<(), Fail> {
    assert_eq!(rt; fault_of(heap, file)?, None, "{at}");
    Ok(())
}

// The small net with the bytes from one place up to another replaced.
const CHANGES: &[(usize, usize, &str, u8, usize, Stage)] = &[
    (0, 86, "", 2, 0, Command),
    (0, 1, "0E", 3, 0, Command),
    (0, 1, "20", 3, 0, Command),
    (1, 2, "00", 6, 1, Command),
    (1, 2, "41", 6, 1, Command),
    (4, 5, "07", 4, 4, Command),
    (12, 13, "02", 6, 12, Command),
    (25, 26, "08", 4, 25, Command),
    (30, 31, "01", 6, 30, Command),
    (32, 33, "02", 8, 35, Term),
    (33, 86, "", 2, 33, Term),
    (33, 34, "20", 3, 33, Term),
    (34, 35, "24", 8, 34, Term),
    (35, 36, "01", 6, 35, Term),
    (71, 72, "01", 6, 72, Command),
    (85, 86, "", 2, 85, Command),
    (86, 86, "00", 10, 86, File),
    (86, 86, "0F", 10, 86, File),
];

#[test]
fn changes_of_the_small_net(rt: HostRuntime) -> Result<(), Fail> {
    for &(from, to, with, number, place, stage) in CHANGES {
        let file = changed(rt.alloc(), from, to, with)?;
        check_fault(
            &rt,
            format!(in rt.alloc(); "{with} from {from}")?.as_str(),
            rt.alloc(),
            file.as_slice(),
            (number, place, stage),
        )?;
    }
    Ok(())
}

#[test]
fn a_cut_off_file_lacks_its_next_byte(rt: HostRuntime) -> Result<(), Fail> {
    for length in 0..86 {
        let file = changed(rt.alloc(), length, 86, "")?;
        let stage = match length {
            33..=35 | 38..=41 | 44..=46 | 55..=57 | 60..=62 | 65..=68 => Term,
            _ => Command,
        };
        check_fault(
            &rt,
            format!(in rt.alloc(); "{length}")?.as_str(),
            rt.alloc(),
            file.as_slice(),
            (2, length, stage),
        )?;
    }
    Ok(())
}

// Commands that stand wrongly, or with an operand out of range.
const COMMANDS: &[(&str, u8, usize, Stage)] = &[
    ("00", 3, 0, Command),
    ("0D", 3, 0, Command),
    ("10", 3, 0, Command),
    ("FF", 3, 0, Command),
    ("07", 4, 0, Command),
    ("08", 4, 0, Command),
    ("09", 4, 0, Command),
    ("0B", 4, 0, Command),
    ("0C", 4, 0, Command),
    ("020000000000 01", 4, 6, Command),
    ("0400 02", 4, 2, Command),
    ("0400 03", 4, 2, Command),
    ("060000000000 04", 4, 6, Command),
    ("060000000000 05", 4, 6, Command),
    ("0A010000 01", 4, 4, Command),
    ("0A010000 06", 4, 4, Command),
    ("0A010000 07", 4, 4, Command),
    ("0A010000 08", 4, 4, Command),
    ("0A010000 09", 4, 4, Command),
    ("060000000000 07210000 07", 4, 10, Command),
    ("0400 060000000000 080030 07", 4, 11, Command),
    ("0400 060000000000 090030 07", 4, 11, Command),
    ("0100", 6, 1, Command),
    ("0141", 6, 1, Command),
    ("0203", 6, 1, Command),
    ("020101", 6, 2, Command),
    ("020001", 6, 2, Command),
    ("02010001", 6, 3, Command),
    ("02020001", 6, 3, Command),
    ("0200000001", 6, 4, Command),
    ("0201000000 02", 6, 5, Command),
    ("0201000000 0002", 6, 6, Command),
    ("0202000000 00010102", 6, 8, Command),
    ("0201000000 00", 2, 6, Command),
    ("0301", 6, 1, Command),
    ("030001", 6, 2, Command),
    ("030000 FFFFFF", 2, 6, Command),
    ("0401", 6, 1, Command),
    ("0500", 6, 1, Command),
    ("0400 0501", 6, 3, Command),
    ("0400 050002", 6, 4, Command),
    ("0400 050001FF", 2, 6, Command),
    ("0605", 6, 1, Command),
    ("060101", 6, 2, Command),
    ("060001", 6, 2, Command),
    ("06010001", 6, 3, Command),
    ("0602000001", 6, 4, Command),
    ("060300000001", 6, 5, Command),
    ("0604000000", 2, 5, Command),
    ("0140 060401010102", 6, 7, Command),
    ("0140 060301010101", 6, 7, Command),
    ("0140 060301010100", 9, 7, Command),
    ("0140 0603010101", 2, 7, Command),
    ("0140 0110 0102 060401010203", 9, 11, Command),
    ("0140 0111 060301010200", 9, 9, Command),
    // 65,550 modes, the fewest past the limit that sizes up to 64 give
    ("010A 010F 0113 0117 060401020304", 9, 13, Command),
    ("0400 060000000000 0801", 6, 9, Command),
    ("0400 060000000000 09", 2, 9, Command),
    ("0A00", 6, 1, Command),
    ("0A07", 6, 1, Command),
    ("0A010001", 6, 3, Command),
    ("0A0101", 2, 3, Command),
    ("0A040000", 6, 3, Command),
    ("0A040001", 6, 3, Command),
    ("0A060002", 6, 3, Command),
    ("0A010000 0B00", 6, 5, Command),
    ("0A010000 0C00", 6, 5, Command),
    ("0400 0A010000 0C0002", 6, 8, Command),
    ("0400 0A010000 0B00000F4241", 6, 11, Command),
    ("0400 0A010000 0C0001FFF0BDBF", 6, 12, Command),
    ("0400 0A040002 0B0000000002", 6, 11, Command),
    ("0400 0A040002 0B00FFFFFFFF", 6, 11, Command),
    ("0400 0A050000 0C000100000002", 6, 12, Command),
    ("0400 0A060000 0B00FFFFFFFF", 6, 11, Command),
];

#[test]
fn faults_of_commands(rt: HostRuntime) -> Result<(), Fail> {
    for &(file, number, place, stage) in COMMANDS {
        let bytes = joined(rt.alloc(), &[file])?;
        check_fault(
            &rt,
            file,
            rt.alloc(),
            bytes.as_slice(),
            (number, place, stage),
        )?;
    }
    Ok(())
}

// Sort 1 of size 3; operation 0 from sort 1 to itself, operation 1 the truth value true, operation 2 from sorts 1
// and 0 to sort 1; a bag operation from the truth values to sort 1; place 0 of sort 1 and place 1 of sort 0; a
// transition with variables of these two sorts. 46 bytes.
const SORTED: &str = "0103 0201010001010200 020000000001 0202010001000001010202 030001000000010101
    0401 0400 060201000000";

// What follows `SORTED`, and the fault's byte counted from there.
const TERMS: &[(&str, u8, usize, Stage)] = &[
    ("07", 2, 1, Term),
    ("070F", 3, 1, Term),
    ("0730", 3, 1, Term),
    ("0726", 3, 1, Term),
    ("071F", 3, 1, Term),
    ("0720", 2, 2, Term),
    ("072002", 6, 2, Term),
    ("072000", 8, 2, Term),
    ("0721", 2, 2, Term),
    ("072102", 6, 2, Term),
    ("072101", 8, 2, Term),
    ("072100", 2, 3, Term),
    ("07210002", 6, 3, Term),
    ("0722", 2, 2, Term),
    ("072203", 6, 2, Term),
    ("072200", 8, 2, Term),
    ("0723", 2, 2, Term),
    ("072302", 6, 2, Term),
    ("072301", 2, 3, Term),
    ("0723012001", 8, 4, Term),
    ("0723012000", 2, 5, Term),
    ("072301200024", 8, 5, Term),
    ("0724", 2, 2, Term),
    ("07242000", 8, 3, Term),
    ("0725", 2, 2, Term),
    ("07252201", 2, 4, Term),
    ("072522012101", 8, 5, Term),
    ("072201 08", 2, 4, Command),
    ("072201 0F00", 10, 4, File),
    ("0802", 6, 1, Command),
    ("0800", 2, 2, Term),
    ("080008", 3, 2, Term),
    ("080020", 3, 2, Term),
    ("08002F", 3, 2, Term),
    ("080034", 3, 2, Term),
    ("080031", 2, 3, Term),
    ("08003130", 3, 3, Term),
    ("0800312001", 8, 4, Term),
    ("08003123", 8, 3, Term),
    ("08003125", 8, 3, Term),
    ("080031210103", 6, 5, Term),
    ("080032", 2, 3, Term),
    ("08003230", 2, 4, Term),
    ("0800323020", 3, 4, Term),
    ("080033", 2, 3, Term),
    ("08003301", 6, 3, Term),
    ("08013300", 8, 3, Term),
    ("08003300", 2, 4, Term),
    ("080033002000", 8, 5, Term),
    ("080031220220002000", 8, 8, Term),
    ("08003122022001", 8, 6, Term),
];

#[test]
fn faults_in_terms(rt: HostRuntime) -> Result<(), Fail> {
    for &(more, number, place, stage) in TERMS {
        let file = joined(rt.alloc(), &[SORTED, more])?;
        check_fault(
            &rt,
            more,
            rt.alloc(),
            file.as_slice(),
            (number, place.saturating_add(46), stage),
        )?;
    }
    Ok(())
}

// Files that read.
const READ: &[&str] = &[
    "0F",
    "0101 0F",
    "0140 0F",
    "020000000001 0F",
    "0400 05000100FF 0F",
    "060000000000 0F",
    "060000000000 072100000F",
    "0A010000 0F",
    "0110 060401010101 0F",
    "0140 0110 060301010200 0F",
    "0140 060201010000 0F",
    "0A040002 0A04FFFF 0F",
    "0400 0A010000 0B00000F4240 0B00FFF0BDC0 0F",
    "0400 0A020000 0C0000000F4240 0A030000 0C0001FFF0BDC0 0F",
    "0400 0A040003 0B0000000002 0F",
    "0400 0A050000 0B0000000001 0A060000 0C000000000000 0F",
    "0103 0401 060101000000 0723012000210102 0800312000 0F",
    "0400 060000000000 090030 080030 090030 060000000000 07210001 0F",
    "0103 030101000100010001000100 0401 060101000000 090033002000 0F",
    "0400 0400 05010000FF 05000000FF 0F",
    "0400 060400000000 072520002420010800312003 0F",
];

#[test]
fn files_that_read(rt: HostRuntime) -> Result<(), Fail> {
    for &file in READ {
        let bytes = joined(rt.alloc(), &[file])?;
        check_reads(&rt, file, rt.alloc(), bytes.as_slice())?;
    }
    let larger = changed(rt.alloc(), 1, 2, "40")?;
    check_reads(&rt, "a larger sort", rt.alloc(), larger.as_slice())
}

// Terms at the deepest level and one below it: after `SORTED`, a head, `24` or `32` some times, and a tail.
const DEEP: &[(&str, &str, usize, &str, u8, usize)] = &[
    ("07", "24", 16, "2201", 7, 17),
    ("07", "24", 16, "2000", 7, 17),
    ("07", "24", 16, "", 2, 17),
    ("07", "24", 16, "30", 3, 17),
    ("0800", "32", 16, "30", 7, 18),
    ("0800", "32", 15, "312000", 7, 18),
    ("0800", "32", 15, "3124", 7, 18),
];

#[test]
fn sixteen_levels_are_the_deepest(rt: HostRuntime) -> Result<(), Fail> {
    for &(head, unit, times, tail, number, place) in DEEP {
        let mut file = joined(rt.alloc(), &[SORTED])?;
        let more = repeated(rt.alloc(), head, unit, times, tail)?;
        file.extend_from_slice(more.as_slice())?;
        check_fault(
            &rt,
            tail,
            rt.alloc(),
            file.as_slice(),
            (number, place.saturating_add(46), Term),
        )?;
    }
    let term = repeated(rt.alloc(), "060000000000 07", "24", 15, "210000 0F")?;
    check_reads(&rt, "a deep term", rt.alloc(), term.as_slice())?;
    let sum = repeated(
        rt.alloc(),
        "0400 060000000000 0800 323232323232323232323232323232",
        "30",
        16,
        "0F",
    )?;
    check_reads(&rt, "a deep sum", rt.alloc(), sum.as_slice())?;
    let token = repeated(
        rt.alloc(),
        "0400 060000000000 0800 3232323232323232323232323232 31210000",
        "30",
        14,
        "0F",
    )?;
    check_reads(&rt, "a deep token", rt.alloc(), token.as_slice())
}

// A command that may stand so many times behind a head, and no more.
const LIMITS: &[(&str, &str, usize)] = &[
    ("", "0101", 7),
    ("", "020000000001", 32),
    ("", "03000000000000", 8),
    ("", "0400", 16),
    ("", "060000000000", 32),
    ("0400 060000000000", "080030", 128),
    ("0400 060000000000", "090030", 128),
    ("0400 060000000000", "080030090030", 64),
    (
        "0400 060000000000 080030 060000000000 090030",
        "090030080030",
        63,
    ),
    ("", "0A010000", 16),
];

#[test]
fn one_more_passes_a_limit(rt: HostRuntime) -> Result<(), Fail> {
    for &(head, unit, most) in LIMITS {
        let file = repeated(rt.alloc(), head, unit, most, "0F")?;
        check_reads(&rt, unit, rt.alloc(), file.as_slice())?;
        let place = file.len().saturating_sub(1);
        let mut file = repeated(rt.alloc(), head, unit, most.saturating_add(1), "0F")?;
        check_fault(&rt, unit, rt.alloc(), file.as_slice(), (5, place, Command))?;
        // the fault is at the code byte, whatever follows it
        file.truncate(place.saturating_add(1));
        check_fault(&rt, unit, rt.alloc(), file.as_slice(), (5, place, Command))?;
    }
    Ok(())
}

#[test]
fn the_longest_file(rt: HostRuntime) -> Result<(), Fail> {
    let mut file = repeated(
        rt.alloc(),
        "0101 0101 0101 0101 0400",
        "0500000001",
        13105,
        "0F",
    )?;
    assert_eq!(rt; file.len(), 65536);
    check_reads(&rt, "the longest", rt.alloc(), file.as_slice())?;
    file.push(0x0F)?;
    check_fault(
        &rt,
        "one byte more",
        rt.alloc(),
        file.as_slice(),
        (1, 65536, File),
    )?;
    let mut zeros = repeated(rt.alloc(), "", "00", 65537, "")?;
    check_fault(
        &rt,
        "zeros, one more",
        rt.alloc(),
        zeros.as_slice(),
        (1, 65536, File),
    )?;
    zeros.truncate(65536);
    check_fault(&rt, "zeros", rt.alloc(), zeros.as_slice(), (3, 0, Command))
}

#[test]
fn a_fault_leaves_the_empty_net(rt: HostRuntime) -> Result<(), Fail> {
    let small = changed(rt.alloc(), 0, 0, "")?;
    let cut = changed(rt.alloc(), 85, 86, "")?;
    let mut net = Net::new(rt.alloc())?;
    read(&mut net, small.as_slice())?;
    assert_eq!(rt;
        (
            net.transitions(),
            net.claims(),
            net.has_cell(128),
            net.initial()[128],
        ),
        (2, 1, true, 1)
    );
    assert!(rt; read(&mut net, cut.as_slice()).is_err());
    assert_eq!(rt;
        (
            net.transitions(),
            net.claims(),
            net.has_cell(0),
            net.initial()[128],
        ),
        (0, 0, false, 0)
    );
    Ok(())
}
