// Recordings: what they write, where they are full, and what their traces do.
use crate::ends::ended;
use crate::traces::{Left, QUIET, SENDING, check_replay};
use cases::nets::{BLANK, SMALL, joined, net_of, number};
use lent::LentList;
use net::{CELLS, Net};
use std::process::Abort;
use std::test::Fail;
use term::Fault;
use trace::{Command, EndedRecording, OpenRecording, replay_recording};

const FIRE: Command = Command::Fire {
    transition: 0,
    mode: [0; 4],
};

const STOP: Command = Command::Fire {
    transition: 1,
    mode: [0; 4],
};

const OTHER: Command = Command::Fire {
    transition: 0xFF,
    mode: [0x4F, 2, 0x40, 0xFE],
};

// A recording that was just opened.
fn opened(memory: &[u8]) -> Result<OpenRecording, Fail> {
    OpenRecording::open(memory).map_err(|_| Fail::new("not opened"))
}

// The bytes of a recording.
fn traced<'m>(ended: &EndedRecording, memory: &'m [u8]) -> Result<&'m [u8], Fail> {
    ended.trace(memory).map_err(|_| Fail::new("no trace"))
}

// A recording of so many restarts and then of commands, each with the number of its refusal.
fn restarts(
    rt: &impl Abort,
    memory: &mut [u8],
    times: usize,
    commands: &[(Command, u8)],
) -> Result<EndedRecording, Fail> {
    let mut open = opened(memory)?;
    for _ in 0..times {
        assert_eq!(rt; number(open.add(memory, Command::Restart)), 0);
    }
    for (command, want) in commands {
        assert_eq!(rt; number(open.add(memory, *command)), *want);
    }
    open.end(memory).map_err(|_| Fail::new("not ended"))
}

// A recording of some commands, each with the number of its refusal.
fn recorded(
    rt: &impl Abort,
    memory: &mut [u8],
    commands: &[(Command, u8)],
) -> Result<EndedRecording, Fail> {
    restarts(rt, memory, 0, commands)
}

#[test]
fn the_last_byte_is_kept_for_the_end(rt: HostRuntime) -> Result<(), Fail> {
    let mut memory = [0xAA; 7];
    let ended = recorded(
        &rt,
        &mut memory,
        &[(OTHER, 0), (Command::Back, 24), (FIRE, 24)],
    )?;
    assert_eq!(rt; ended.len(), 7);
    assert_eq!(rt; memory, [0x40, 0xFF, 0x4F, 2, 0x40, 0xFE, 0x4F]);
    Ok(())
}

#[test]
fn a_shorter_command_may_still_fit(rt: HostRuntime) -> Result<(), Fail> {
    let mut memory = [0xAA; 6];
    let commands = [
        (FIRE, 24),
        (Command::Back, 0),
        (Command::Back, 0),
        (FIRE, 24),
        (Command::Restart, 0),
        (Command::Back, 0),
        (Command::Restart, 0),
        (Command::Restart, 24),
    ];
    let ended = recorded(&rt, &mut memory, &commands)?;
    assert_eq!(rt; ended.len(), 6);
    assert_eq!(rt; memory, [0x41, 0x41, 0x42, 0x41, 0x42, 0x4F]);
    Ok(())
}

#[test]
fn opening_needs_one_byte(rt: HostRuntime) -> Result<(), Fail> {
    assert_eq!(rt; OpenRecording::open(&[]).err(), Some(Fault::RecordingFull));
    let mut memory = [0xAA; 1];
    let ended = recorded(&rt, &mut memory, &[(Command::Back, 24)])?;
    assert_eq!(rt; ended.len(), 1);
    assert_eq!(rt; memory, [0x4F]);
    Ok(())
}

#[test]
fn the_rest_of_the_memory_is_untouched(rt: HostRuntime) -> Result<(), Fail> {
    let mut memory = [0xAA; 4];
    let ended = recorded(&rt, &mut memory, &[(FIRE, 24), (Command::Restart, 0)])?;
    assert_eq!(rt; ended.len(), 2);
    assert_eq!(rt; memory, [0x42, 0x4F, 0xAA, 0xAA]);
    Ok(())
}

// A recording in one memory that is lent another, of another length: it stays open, in the first and in the other.
fn lent_another(
    rt: &impl Abort,
    memory: &mut [u8],
    other: &mut [u8],
) -> Result<EndedRecording, Fail> {
    let mut open = opened(memory)?;
    assert_eq!(rt; number(open.add(other, FIRE)), 11);
    assert_eq!(rt; number(open.add(memory, Command::Back)), 0);
    assert_eq!(rt; number(open.add(other, Command::Back)), 11);
    let Err((open, fault)) = open.end(other) else {
        return Err(Fail::new("ended in other memory"));
    };
    assert_eq!(rt; fault.number(), 11);
    open.end(memory).map_err(|_| Fail::new("not ended"))
}

#[test]
fn memory_of_another_length_leaves_a_recording_open(rt: HostRuntime) -> Result<(), Fail> {
    let mut memory = [0xAA; 2];
    let mut longer = [0xBB; 3];
    let ended = lent_another(&rt, &mut memory, &mut longer)?;
    assert_eq!(rt; ended.len(), 2);
    assert_eq!(rt; ended.trace(&longer), Err(Fault::Memory));
    assert_eq!(rt; ended.trace(&memory), Ok(&[0x41, 0x4F][..]));
    assert_eq!(rt; longer, [0xBB; 3]);
    Ok(())
}

#[test]
fn a_recording_ends_at_65536_bytes(rt: HostRuntime) -> Result<(), Fail> {
    let file = joined(rt.alloc(), &[SMALL])?;
    let net = net_of(rt.alloc(), file.as_slice())?;
    let mut memory = vec![in rt.alloc(); 0xAA; 70000]?;
    let more = [
        (FIRE, 24),
        (Command::Restart, 0),
        (Command::Restart, 24),
        (Command::Back, 24),
    ];
    let ended = restarts(&rt, memory.as_mut_slice(), 65534, &more)?;
    assert_eq!(rt; ended.len(), 65536);
    assert_eq!(rt;
        (memory.get(65535), memory.get(65536)),
        (Some(&0x4F), Some(&0xAA))
    );
    let bytes = traced(&ended, memory.as_slice())?;
    let want = ((65535, 0, 0), 0, QUIET);
    check_replay(&rt, "the longest", rt.alloc(), &net, bytes, want)
}

// Checks what the replay of a recording leaves; memory of another length is refused before it.
fn check_played(rt: &impl Abort, net: &Net, recording: &EndedRecording, memory: &[u8], want: Left) {
    let mut cells = [7; CELLS];
    let mut firings = [BLANK; 8];
    let mut trail = LentList::new(&mut firings);
    let refused = replay_recording(net, &mut cells, &mut trail, recording, &[]);
    assert_eq!(rt; refused.err(), Some(Fault::Memory));
    assert_eq!(rt; (cells[0], trail.len()), (7, 0));
    let played = replay_recording(net, &mut cells, &mut trail, recording, memory);
    let tokens = [cells[0], cells[1], cells[64], cells[128]];
    assert_eq!(rt;
        played.map(|done| (ended(done), trail.len(), tokens)),
        Ok(want)
    );
}

// Commands to record, and what their replay on the small net leaves.
const ROUND_TRIPS: &[(&[(Command, u8)], Left)] = &[
    (&[], ((0, 0, 0), 0, QUIET)),
    (
        &[(FIRE, 0), (STOP, 0), (Command::Back, 0)],
        ((3, 0, 0), 1, SENDING),
    ),
    (
        &[(FIRE, 0), (Command::Restart, 0), (FIRE, 0)],
        ((3, 0, 0), 1, SENDING),
    ),
    (
        &[(FIRE, 0), (Command::Back, 0), (Command::Back, 0), (FIRE, 0)],
        ((2, 23, 0), 0, QUIET),
    ),
    (
        &[(FIRE, 0), (OTHER, 0), (STOP, 0)],
        ((1, 17, 0), 1, SENDING),
    ),
];

#[test]
fn recordings_replayed(rt: HostRuntime) -> Result<(), Fail> {
    let file = joined(rt.alloc(), &[SMALL])?;
    let net = net_of(rt.alloc(), file.as_slice())?;
    for &(commands, want) in ROUND_TRIPS {
        let mut memory = [0xAA; 32];
        let recording = recorded(&rt, &mut memory, commands)?;
        let bytes = traced(&recording, &memory)?;
        check_replay(&rt, "a recording", rt.alloc(), &net, bytes, want)?;
        check_played(&rt, &net, &recording, &memory, want);
    }
    Ok(())
}
