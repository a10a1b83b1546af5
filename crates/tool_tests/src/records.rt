//! Small inputs that are read as commands, and lines that are written.
use script::{BadRecord, Code, ScriptFault, error_line, line, number};
use std::alloc::Global;
use std::test::Fail;
use tool_input::{Parsed, Tool, commands};

/// How many commands a tool's input has, or its first bad record.
fn read(alloc: Global, tool: Tool, input: &[u8]) -> Result<usize, ScriptFault> {
    match commands(alloc, tool, input)? {
        Parsed::Map(list) => Ok(list.items().len()),
        Parsed::Seq(list) => Ok(list.items().len()),
        Parsed::Interval(list) => Ok(list.items().len()),
        Parsed::Points(list) => Ok(list.items().len()),
        Parsed::Index(list) => Ok(list.items().len()),
        Parsed::Graph(list) => Ok(list.items().len()),
        Parsed::Serve(list) => Ok(list.items().len()),
        Parsed::Gserve(list) => Ok(list.items().len()),
        Parsed::Check { list, text: _ } => Ok(list.items().len()),
    }
}

/// Inputs that have each verb of each tool, and how many commands they have.
const VERBS: &[(Tool, &[u8], usize)] = &[
    // changes of one register
    (
        Tool::Map,
        b"put,0,5,10\ndel,15,6\nclear,0\nbuild,0,1,10,3,30\nbuild,1\nmput,0,7,70,7,71\nmdel,0,1,2\n",
        7,
    ),
    // questions about an entry or the whole map
    (
        Tool::Map,
        b"get,0,5\nsize,1\nfold,0\nrank,2,4\nselect,2,3\nnext,2,3\nprev,2,1\n",
        7,
    ),
    // questions about a range
    (
        Tool::Map,
        b"sum,0,0,9\nmax,2,2,4\nlist,15,0,9\ncount,2,30,40\n",
        4,
    ),
    // copies, and registers made of two
    (
        Tool::Map,
        b"copy,1,15\nunion,2,0,1,sum\nunion,3,0,1,first\ninter,3,0,1,second\ninter,3,0,1,max\ndiff,4,0,1\ncat,5,4,1\n",
        7,
    ),
    // parts; a quoted verb, a carriage return, an empty line, no line end at the end
    (
        Tool::Map,
        b"below,6,2,4\n\nabove,8,2,4\r\n\"slice\",12,0,4,9\natleast,10,2,40\nfilter,11,2,30,40",
        5,
    ),
    (
        Tool::Seq,
        b"push,0,5\npush,15,5,18446744073709551615\nappend,1,0,15\ntake,2,1,9\nskip,3,1,0\nreverse,4,4\nset,0,0,7\nat,0,9\nfold,0,1,2\nlist,15,0,9\nsize,15\n",
        11,
    ),
    (
        Tool::Interval,
        b"add,2,2\ndel,0,18446744073709551615\nsize\nany,5\nstab,5\nover,4,4\n",
        6,
    ),
    (
        Tool::Points,
        b"add,1,2,3\nadd,1,2,3,4,5,6\ndel,1,2\ndel,1,2,3,4\nsize\nsum,9,1,0,5\nlist,0,9,0,9\n",
        7,
    ),
    // a text may be empty, and a quoted one may have commas and line feeds
    (
        Tool::Index,
        b"doc,0,\ndoc,1,\"To be,\nor not\"\nand,to\nor,To,B4,to\nwithout,to,to\ntop,0,be\n",
        6,
    ),
    (
        Tool::Graph,
        b"add,1,1\nadd,1,2,3,4\ncut,1,2\nkeep\nsize\ndegree,1\nnow,1\nbfs,0,1\n",
        8,
    ),
];

#[test]
fn each_verb_of_each_tool(rt: HostRuntime) -> Result<(), Fail> {
    for (tool, input, count) in VERBS {
        assert_eq!(rt; read(rt.alloc(), *tool, input), Ok(*count));
    }
    Ok(())
}

/// Inputs with a bad record, and the number and the code of the first one.
const FAULTS: &[(Tool, &[u8], u64, Code)] = &[
    (
        Tool::Map,
        b"put,0,5,10\n\nget,16,5\nfrob\n",
        2,
        Code::Register,
    ),
    (Tool::Map, b"Put,0,5,10\n", 1, Code::Verb),
    (Tool::Map, b"put,0,x,1,2\n", 1, Code::Fields),
    (Tool::Map, b"put,16,x,1\n", 1, Code::Register),
    (Tool::Map, b"put,0,,1\n", 1, Code::Number),
    (Tool::Map, b"put,0,05,1\n", 1, Code::Number),
    (
        Tool::Map,
        b"put,0,1,18446744073709551616\n",
        1,
        Code::Number,
    ),
    (Tool::Map, b"build\n", 1, Code::Fields),
    (Tool::Map, b"build,16,1\n", 1, Code::Fields),
    (Tool::Map, b"build,0,1,x,y,4\n", 1, Code::Number),
    (Tool::Map, b"mput,0\n", 1, Code::Fields),
    (Tool::Map, b"mdel,0\n", 1, Code::Fields),
    (Tool::Map, b"mdel,x,y\n", 1, Code::Register),
    (Tool::Map, b"cat,0,1,16\n", 1, Code::Register),
    (Tool::Map, b"union,0,1,16,least\n", 1, Code::Register),
    (Tool::Map, b"union,0,1,2,least\n", 1, Code::How),
    (Tool::Seq, b"push,0,1\nput,0,1,2\n", 2, Code::Verb),
    (Tool::Seq, b"push,0\n", 1, Code::Fields),
    (Tool::Seq, b"push,16,x\n", 1, Code::Register),
    (Tool::Seq, b"push,0,1,x\n", 1, Code::Number),
    (Tool::Seq, b"append,0,1\n", 1, Code::Fields),
    (Tool::Seq, b"append,0,1,16\n", 1, Code::Register),
    (Tool::Seq, b"take,0,16,x\n", 1, Code::Register),
    (Tool::Seq, b"skip,0,1,x\n", 1, Code::Number),
    (Tool::Seq, b"reverse,0\n", 1, Code::Fields),
    (Tool::Seq, b"set,0,00,1\n", 1, Code::Number),
    (Tool::Seq, b"at,0,1,2\n", 1, Code::Fields),
    (Tool::Seq, b"size,0\nsize,x\n", 2, Code::Register),
    (Tool::Interval, b"add,1,2\nput,1,2\n", 2, Code::Verb),
    (Tool::Interval, b"size,1\n", 1, Code::Fields),
    (Tool::Interval, b"add,4,2,1\n", 1, Code::Fields),
    (Tool::Interval, b"add,4,x\n", 1, Code::Number),
    (Tool::Interval, b"add,4,2\n", 1, Code::Interval),
    (Tool::Interval, b"del,4,2\n", 1, Code::Interval),
    (Tool::Interval, b"size\nover,5,4\n", 2, Code::Interval),
    (Tool::Points, b"get,1\n", 1, Code::Verb),
    (Tool::Points, b"add\n", 1, Code::Fields),
    (Tool::Points, b"add,1,2\n", 1, Code::Fields),
    (Tool::Points, b"add,1,2,3,4,x\n", 1, Code::Fields),
    (Tool::Points, b"add,1,2,3,4,5,x\n", 1, Code::Number),
    (Tool::Points, b"del,1\n", 1, Code::Fields),
    (Tool::Points, b"sum,0,9,0,09\n", 1, Code::Number),
    (Tool::Index, b"doc,1\n", 1, Code::Fields),
    (Tool::Index, b"doc,x,text\n", 1, Code::Number),
    (Tool::Index, b"and\n", 1, Code::Fields),
    (Tool::Index, b"and,to,a-b\n", 1, Code::Term),
    (Tool::Index, b"or,to\nor,to,\n", 2, Code::Term),
    (Tool::Index, b"without,to\n", 1, Code::Fields),
    (Tool::Index, b"without,to,\xC3\xA9\n", 1, Code::Term),
    (Tool::Index, b"top,x,-\n", 1, Code::Number),
    (Tool::Graph, b"keep\nadd,1\n", 2, Code::Fields),
    (Tool::Graph, b"keep,1\n", 1, Code::Fields),
    (Tool::Graph, b"cut\n", 1, Code::Fields),
    (Tool::Graph, b"cut,1,2,3\n", 1, Code::Fields),
    (Tool::Graph, b"degree,x\n", 1, Code::Number),
    (Tool::Graph, b"bfs,1\n", 1, Code::Fields),
    (Tool::Graph, b"comp,1\n", 1, Code::Fields),
    (Tool::Gserve, b"serve,1\nb,0,put,1,2\n", 2, Code::Op),
    (Tool::Gserve, b"serve,1\nr,0,bfs,x\n", 2, Code::Number),
];

#[test]
fn the_first_bad_record(rt: HostRuntime) -> Result<(), Fail> {
    for (tool, input, place, code) in FAULTS {
        let bad = BadRecord {
            place: *place,
            code: *code,
        };
        assert_eq!(rt; read(rt.alloc(), *tool, input), Err(ScriptFault::Bad(bad)));
    }
    Ok(())
}

#[test]
fn numbers_and_lines(rt: HostRuntime) -> Result<(), Fail> {
    assert_eq!(rt; number(b"18446744073709551615"), Some(u64::MAX));
    assert_eq!(rt; number(b"18446744073709551616"), None);
    assert_eq!(rt; number(b"05"), None);
    let mut out = Vec::new(rt.alloc());
    line(&mut out, "aug", &[0, u64::MAX])?;
    line(&mut out, "none", &[])?;
    let bad = BadRecord {
        place: 7,
        code: Code::Number,
    };
    error_line(&mut out, &bad)?;
    assert_eq!(rt;
        out.as_slice(),
        b"aug,0,18446744073709551615\nnone\nerror,7,number\n".as_slice()
    );
    Ok(())
}
