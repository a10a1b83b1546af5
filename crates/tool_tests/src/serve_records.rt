//! Inputs of the tool serve that are read as commands.
use script::{BadRecord, Code, ScriptFault, error_line};
use serve_script::{Op, ServeCommand, ServeQuery, ServedCommand, served_commands};
use std::alloc::{AllocError, Global};
use std::test::Fail;

/// How many commands an input has, or its first bad record.
fn read(alloc: Global, input: &[u8]) -> Result<usize, ScriptFault> {
    Ok(
        served_commands::<Op, ServeQuery>(alloc, input)?
            .items()
            .len(),
    )
}

/// Inputs that have each verb, operation and query, and how many commands they have.
const LAWFUL: &[(&[u8], usize)] = &[
    (b"", 0),
    (b"\n\n", 0),
    (b"serve,1\n", 1),
    (b"serve,64", 1),
    (b"serve,1\nround\n", 2),
    (
        b"serve,2\nb,0,put,1,10\nb,1,put,2,20\nround\nr,0,sum,0,9\nr,1,get,2\n",
        6,
    ),
    (
        b"serve,1\nb,0,wipe,5,1,put,3,9\nb,0,del,5\nb,0,add,2,3,del,2\n",
        4,
    ),
    // a word may be quoted, and carriage returns and empty lines may stand between records
    (b"\"serve\",3\r\n\nr,2,\"rank\",7\r\nr,0,size\r\nround", 4),
];

#[test]
fn each_verb_operation_and_query_of_serve(rt: HostRuntime) -> Result<(), Fail> {
    for (input, count) in LAWFUL {
        assert_eq!(rt; read(rt.alloc(), input), Ok(*count));
    }
    Ok(())
}

/// Inputs with a bad record, and the number and the code of the first one.
const FAULTS: &[(&[u8], u64, Code)] = &[
    (b"b,0,put,1,1\n", 1, Code::Verb),
    (b"round\n", 1, Code::Verb),
    (b"frob,1\n", 1, Code::Verb),
    (b"serve\n", 1, Code::Fields),
    (b"serve,1,2\n", 1, Code::Fields),
    (b"serve,0\n", 1, Code::Callers),
    (b"serve,65\n", 1, Code::Callers),
    (b"serve,01\n", 1, Code::Callers),
    (b"serve,x\nfrob\n", 1, Code::Callers),
    (b"serve,1\nserve,1\n", 2, Code::Verb),
    (b"serve,1\nround\nserve,1\n", 3, Code::Verb),
    (b"serve,1\nfrob\nserve\n", 2, Code::Verb),
    (b"serve,1\nb,1,frob\n", 2, Code::Caller),
    (b"serve,2\nb,2,put,1,1\n", 2, Code::Caller),
    (b"serve,2\nr,01,size\n", 2, Code::Caller),
    (b"serve,1\nb,0\n", 2, Code::Fields),
    (b"serve,1\nb,0,put,01\n", 2, Code::Fields),
    (b"serve,1\nb,0,put,01,1\n", 2, Code::Number),
    (b"serve,1\nb,0,wipe,1\n", 2, Code::Fields),
    (b"serve,1\nb,0,drop,1,2\n", 2, Code::Op),
    (b"serve,1\nb,0,Put,1,2\n", 2, Code::Op),
    (b"serve,1\nb,0,del,x,frob\n", 2, Code::Number),
    (b"serve,1\nb,0,del,1,frob,x\n", 2, Code::Op),
    (b"serve,1\nb,0,put,1,2,del\n", 2, Code::Fields),
    (b"serve,1\nb,0,del,1,2\n", 2, Code::Op),
    (b"serve,1\nr,0\n", 2, Code::Fields),
    (b"serve,1\nr,0,frob\n", 2, Code::Op),
    (b"serve,1\nr,0,get\n", 2, Code::Fields),
    (b"serve,1\nr,0,get,x,2\n", 2, Code::Fields),
    (b"serve,1\nr,0,sum,1\n", 2, Code::Fields),
    (b"serve,1\nr,0,sum,0,09\n", 2, Code::Number),
    (b"serve,1\nr,0,size,1\n", 2, Code::Fields),
    (b"serve,1\nround,1\n", 2, Code::Fields),
];

#[test]
fn the_first_bad_record_of_serve(rt: HostRuntime) -> Result<(), Fail> {
    for (input, place, code) in FAULTS {
        let bad = BadRecord {
            place: *place,
            code: *code,
        };
        assert_eq!(rt; read(rt.alloc(), input), Err(ScriptFault::Bad(bad)));
    }
    Ok(())
}

/// The lines for three bad records.
fn error_lines(alloc: Global) -> Result<Vec<u8>, Fail> {
    let mut out = Vec::new(alloc);
    for code in [Code::Callers, Code::Caller, Code::Op] {
        error_line(&mut out, &BadRecord { place: 2, code })?;
    }
    Ok(out)
}

#[test]
fn the_words_of_the_codes_of_serve(rt: HostRuntime) -> Result<(), Fail> {
    assert_eq!(rt;
        error_lines(rt.alloc())?.as_slice(),
        b"error,2,callers\nerror,2,caller\nerror,2,op\n".as_slice()
    );
    Ok(())
}

const SPELLED: &[u8] =
    b"serve,2\nb,1,put,1,10,del,2,add,3,30,wipe,4,5\nr,0,sum,6,7\nround\nr,1,size\n";

const OPERATIONS: &[Op] = &[
    Op::Put { key: 1, val: 10 },
    Op::Del { key: 2 },
    Op::Add { key: 3, val: 30 },
    Op::Wipe { lo: 4, hi: 5 },
];

/// Whether the commands are those that `SPELLED` spells.
fn are_spelled(commands: &[ServeCommand]) -> bool {
    match commands {
        [
            ServedCommand::Serve { place: 1, n: 2 },
            ServedCommand::Batch {
                place: 2,
                c: 1,
                ops,
            },
            ServedCommand::Read {
                place: 3,
                c: 0,
                query: ServeQuery::Sum { lo: 6, hi: 7 },
            },
            ServedCommand::Round { place: 4 },
            ServedCommand::Read {
                place: 5,
                c: 1,
                query: ServeQuery::Size,
            },
        ] => ops.items() == OPERATIONS,
        _ => false,
    }
}

#[test]
fn commands_of_serve_are_as_spelled(rt: HostRuntime) -> Result<(), Fail> {
    let commands = served_commands::<Op, ServeQuery>(rt.alloc(), SPELLED)?;
    assert!(rt; are_spelled(commands.items()));
    Ok(())
}

/// An input of one caller and so many rounds without records.
fn rounds(alloc: Global, count: usize) -> Result<Vec<u8>, AllocError> {
    let mut input = Vec::from_slice(alloc, b"serve,1\n")?;
    for _ in 0..count {
        input.extend_from_slice(b"round\n")?;
    }
    Ok(input)
}

#[test]
fn a_hundred_thousand_rounds_are_read(rt: HostRuntime) -> Result<(), Fail> {
    let input = rounds(rt.alloc(), 100_000)?;
    assert_eq!(rt; read(rt.alloc(), input.as_slice()), Ok(100_001));
    Ok(())
}
