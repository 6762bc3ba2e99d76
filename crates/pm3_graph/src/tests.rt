//! Calls that succeed with ample memory, and answers taken from the description of the operations.
use super::*;
use pm3_types::{Catalog, Tail, TypeMap};
use std::alloc::Global;
use std::test::Fail;

/// Nine types: 0 has a word, a reference and a tail of references, 1 has two words, and the others a reference and bytes.
fn catalog(alloc: Global) -> Result<Catalog, Fail> {
    let mut catalog = Catalog::new(alloc);
    catalog.add(TypeMap::new(2, 2, Tail::Refs).ok_or(
        "a word, a reference, a tail of references",
    )?)?;
    catalog.add(TypeMap::new(2, 0, Tail::Empty).ok_or("two words")?)?;
    for _ in 2..9u16 {
        catalog.add(TypeMap::new(1, 1, Tail::Bytes).ok_or("a reference and bytes")?)?;
    }
    Ok(catalog)
}

/// Each operation in turn on one graph, and its answer.
const TABLE: [(Op, Result<u64, PlainFault>); 38] = [
    (Op::Root { slot: 0 }, Ok(0)),
    (
        Op::New {
            name: 1,
            ty: 8,
            tail: 0,
        },
        Ok(0),
    ),
    (Op::SetRoot { slot: 0, to: 1 }, Ok(0)),
    (Op::Root { slot: 0 }, Ok(1)),
    (
        Op::New {
            name: 1,
            ty: 8,
            tail: 0,
        },
        Err(PlainFault::Taken { name: 1 }),
    ),
    (
        Op::New {
            name: 0,
            ty: 8,
            tail: 0,
        },
        Err(PlainFault::Taken { name: 0 }),
    ),
    (
        Op::New {
            name: 1,
            ty: 9,
            tail: 0,
        },
        Err(PlainFault::Taken { name: 1 }),
    ),
    (
        Op::New {
            name: 2,
            ty: 9,
            tail: 0,
        },
        Err(PlainFault::NoPlace),
    ),
    (Op::Word { name: 1, field: 0 }, Err(PlainFault::NoPlace)),
    (
        Op::Word { name: 2, field: 0 },
        Err(PlainFault::NoRecord { name: 2 }),
    ),
    (
        Op::Word { name: 0, field: 99 },
        Err(PlainFault::NoRecord { name: 0 }),
    ),
    (Op::Reference { name: 1, field: 0 }, Ok(0)),
    (Op::Byte { name: 1, at: 0 }, Err(PlainFault::NoPlace)),
    (Op::TailRef { name: 1, at: 0 }, Err(PlainFault::NoPlace)),
    (
        Op::New {
            name: 2,
            ty: 0,
            tail: 2,
        },
        Ok(0),
    ),
    (
        Op::SetWord {
            name: 2,
            field: 0,
            value: u64::MAX,
        },
        Ok(0),
    ),
    (Op::Word { name: 2, field: 0 }, Ok(u64::MAX)),
    (
        Op::SetWord {
            name: 2,
            field: 1,
            value: 5,
        },
        Err(PlainFault::NoPlace),
    ),
    (Op::Word { name: 2, field: 1 }, Err(PlainFault::NoPlace)),
    (
        Op::SetReference {
            name: 2,
            field: 1,
            to: 77,
        },
        Ok(0),
    ),
    (Op::Reference { name: 2, field: 1 }, Ok(77)),
    (
        Op::SetReference {
            name: 2,
            field: 0,
            to: 1,
        },
        Err(PlainFault::NoPlace),
    ),
    (
        Op::Reference { name: 2, field: 2 },
        Err(PlainFault::NoPlace),
    ),
    (
        Op::SetTailRef {
            name: 2,
            at: 1,
            to: 2,
        },
        Ok(0),
    ),
    (Op::TailRef { name: 2, at: 1 }, Ok(2)),
    (Op::TailRef { name: 2, at: 0 }, Ok(0)),
    (Op::TailRef { name: 2, at: 2 }, Err(PlainFault::NoPlace)),
    (
        Op::SetTailRef {
            name: 3,
            at: 0,
            to: 1,
        },
        Err(PlainFault::NoRecord { name: 3 }),
    ),
    (Op::Byte { name: 2, at: 0 }, Err(PlainFault::NoPlace)),
    (
        Op::New {
            name: (1 << 62) - 1,
            ty: 8,
            tail: 3,
        },
        Ok(0),
    ),
    (
        Op::SetByte {
            name: (1 << 62) - 1,
            at: 2,
            value: 255,
        },
        Ok(0),
    ),
    (
        Op::Byte {
            name: (1 << 62) - 1,
            at: 2,
        },
        Ok(255),
    ),
    (
        Op::Byte {
            name: (1 << 62) - 1,
            at: 1,
        },
        Ok(0),
    ),
    (
        Op::SetByte {
            name: (1 << 62) - 1,
            at: 3,
            value: 1,
        },
        Err(PlainFault::NoPlace),
    ),
    (
        Op::SetByte {
            name: 4,
            at: 0,
            value: 1,
        },
        Err(PlainFault::NoRecord { name: 4 }),
    ),
    (Op::SetRoot { slot: 15, to: 99 }, Ok(0)),
    (Op::Root { slot: 15 }, Ok(99)),
    (Op::Root { slot: 0 }, Ok(1)),
];

#[test]
fn operations_answer_and_refuse_as_described(rt: HostRuntime) -> Result<(), Fail> {
    let catalog = catalog(rt.alloc())?;
    let mut plain = Plain::new(rt.alloc());
    for (op, want) in TABLE {
        assert!(rt; op.is_allowed(&catalog), "{op:?}");
        assert_eq!(rt; plain.apply(&catalog, op), want, "{op:?}");
    }
    Ok(())
}

#[test]
fn a_caller_asks_within_the_bounds(rt: HostRuntime) -> Result<(), Fail> {
    let catalog = catalog(rt.alloc())?;
    let name = 1 << 62;
    for op in [
        Op::Word { name, field: 0 },
        Op::SetReference {
            name: 1,
            field: 0,
            to: name,
        },
        Op::New {
            name: 1,
            ty: 1,
            tail: 1,
        },
        Op::SetByte {
            name: 1,
            at: 0,
            value: 256,
        },
        Op::Root { slot: 16 },
    ] {
        assert!(rt; !op.is_allowed(&catalog), "{op:?}");
    }
    frame();
    frame_of_runs();
    kept_by_steps();
    written_places();
    Ok(())
}
