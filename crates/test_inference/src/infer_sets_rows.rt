use infer_sets::{
    AbsSet, AbsVal, BuiltinKind, ClassRef, Recv, SetId, SetLayer, SetTable, join_is_least,
    within_is_an_order,
};
use lint_values::{FileId, Memory, NodeId, NodeRef};
use std::alloc::Global;
use std::test::Fail;

fn node(n: u32) -> NodeRef {
    NodeRef {
        file: FileId(0),
        node: NodeId(n),
    }
}

// Values in ascending order.
const VALUES: [AbsVal; 6] = [
    AbsVal::Inst(ClassRef::Builtin(BuiltinKind::Int)),
    AbsVal::Inst(ClassRef::Builtin(BuiltinKind::Str)),
    AbsVal::Class(ClassRef::Builtin(BuiltinKind::Int)),
    AbsVal::Func(NodeRef {
        file: FileId(0),
        node: NodeId(7),
    }),
    AbsVal::Func(NodeRef {
        file: FileId(1),
        node: NodeId(2),
    }),
    AbsVal::Module(FileId(0)),
];

// The set of the values whose bits are set, and Uninferable for 99.
fn set_of(alloc: Global, bits: u32) -> Result<AbsSet, Memory> {
    if bits == 99 {
        return Ok(AbsSet::uninferable());
    }
    let mut set = AbsSet::empty(alloc);
    for (i, value) in VALUES.iter().enumerate() {
        if (bits >> (i as u32 % 8)) & 1 == 1 {
            set = set.join(alloc, &AbsSet::one(alloc, *value)?, 6)?;
        }
    }
    Ok(set)
}

fn bits_of(set: &AbsSet) -> u32 {
    let mut bits = 0u32;
    match set.values() {
        None => return 99,
        Some(values) => {
            for (i, value) in VALUES.iter().enumerate() {
                if values.contains(value) {
                    bits |= 1 << (i as u32 % 8);
                }
            }
        }
    }
    bits
}

fn joined(alloc: Global, first: u32, second: u32, limit: u32) -> Result<u32, Memory> {
    let join = set_of(alloc, first)?.join(alloc, &set_of(alloc, second)?, limit)?;
    Ok(bits_of(&join))
}

#[test]
fn joins_of_worked_sets(rt: HostRuntime) -> Result<(), Fail> {
    let alloc = rt.alloc();
    let rows = [
        (0, 0, 0, 0),
        (1, 0, 1, 1),
        (0, 1, 1, 1),
        (1, 0, 0, 99),
        (1, 1, 1, 1),
        (1, 2, 2, 3),
        (1, 2, 1, 99),
        (3, 6, 3, 7),
        (3, 6, 2, 99),
        (32, 8, 2, 40),
        (63, 21, 6, 63),
        (63, 21, 5, 99),
        (99, 0, 6, 99),
        (0, 99, 6, 99),
        (99, 99, 6, 99),
    ];
    for (first, second, limit, wanted) in rows {
        assert_eq!(rt;
            joined(alloc, first, second, limit)?,
            wanted,
            "{first} and {second} under {limit}"
        );
    }
    Ok(())
}

fn lies_within(alloc: Global, first: u32, second: u32) -> Result<bool, Memory> {
    Ok(set_of(alloc, first)?.is_within(&set_of(alloc, second)?))
}

#[test]
fn sets_within_one_another(rt: HostRuntime) -> Result<(), Fail> {
    let alloc = rt.alloc();
    let rows = [
        (0, 0, true),
        (0, 9, true),
        (9, 0, false),
        (9, 11, true),
        (9, 3, false),
        (63, 63, true),
        (63, 99, true),
        (99, 63, false),
        (99, 99, true),
    ];
    for (first, second, wanted) in rows {
        assert_eq!(rt;
            lies_within(alloc, first, second)?,
            wanted,
            "{first} in {second}"
        );
    }
    Ok(())
}

#[test]
fn values_ascend_and_are_found(rt: HostRuntime) -> Result<(), Fail> {
    let alloc = rt.alloc();
    let set = set_of(alloc, 44)?;
    assert_eq!(rt;
        set.values().unwrap_or(&[]),
        [VALUES[2], VALUES[3], VALUES[5]].as_slice()
    );
    assert!(rt; set.has(&VALUES[3]));
    assert!(rt; !set.has(&VALUES[4]));
    assert!(rt; AbsSet::uninferable().has(&VALUES[4]));
    assert!(rt; AbsSet::uninferable().values().is_none());
    let bound = AbsVal::Bound(node(3), Recv::Inst(ClassRef::Seen(node(1))));
    assert!(rt; AbsVal::Func(node(9)) < bound);
    assert!(rt; bound < AbsVal::Bound(node(3), Recv::Class(ClassRef::Seen(node(0)))));
    assert!(rt; BuiltinKind::Object < BuiltinKind::UserWarning);
    within_is_an_order();
    join_is_least();
    Ok(())
}

// What may be lent to a thread and handed to one.
fn crosses_threads<T: Send + Sync>(_value: &T) {}

#[test]
fn sets_cross_threads(rt: HostRuntime) -> Result<(), Fail> {
    crosses_threads(&AbsSet::one(rt.alloc(), VALUES[0])?);
    crosses_threads(&VALUES[1]);
    Ok(())
}

fn class_set(alloc: Global, n: u32) -> Result<AbsSet, Memory> {
    AbsSet::one(alloc, AbsVal::Class(ClassRef::Seen(node(n))))
}

// The number of Uninferable, and that of the join of two sets under a limit.
fn numbers_of_join(
    alloc: Global,
    layer: &mut SetLayer,
    first: AbsSet,
    second: AbsSet,
    limit: u32,
) -> Result<(SetId, SetId), Memory> {
    let set = first.join(alloc, &second, limit)?;
    let unknown = layer.number(AbsSet::uninferable())?;
    Ok((unknown, layer.number(set)?))
}

#[test]
fn a_join_has_the_number_of_its_set(rt: HostRuntime) -> Result<(), Fail> {
    let alloc = rt.alloc();
    let mut base = SetTable::new(alloc);
    let first = base.number(class_set(alloc, 0)?)?;
    let mut layer = SetLayer::over(alloc, &base);
    assert_eq!(rt; layer.number(class_set(alloc, 0)?)?, first);
    let (unknown, under_one) = numbers_of_join(
        alloc,
        &mut layer,
        class_set(alloc, 0)?,
        class_set(alloc, 1)?,
        1,
    )?;
    assert_eq!(rt; under_one, unknown);
    let (unknown, under_two) = numbers_of_join(
        alloc,
        &mut layer,
        class_set(alloc, 0)?,
        class_set(alloc, 1)?,
        2,
    )?;
    assert!(rt; under_two != unknown);
    Ok(())
}

// The number of the join of two classes' sets, under a limit, beside that of Uninferable; and whether it is remembered for
// the two, for the two the other way round, and under another limit.
fn class_join(alloc: Global, limit: u32) -> Result<[bool; 4], Memory> {
    let base = SetTable::new(alloc);
    let mut layer = SetLayer::over(alloc, &base);
    let unknown = layer.number(AbsSet::uninferable())?;
    let first = layer.number(class_set(alloc, 0)?)?;
    let second = layer.number(class_set(alloc, 1)?)?;
    let join = layer.join(first, second, limit)?;
    Ok([
        join == unknown,
        layer.joined(first, second, limit) == Some(join),
        layer.joined(second, first, limit).is_none(),
        layer.joined(first, second, limit ^ 8).is_none(),
    ])
}

#[test]
fn joins_are_remembered_as_they_were_called(rt: HostRuntime) -> Result<(), Fail> {
    let alloc = rt.alloc();
    assert_eq!(rt; class_join(alloc, 1)?, [true; 4]);
    assert_eq!(rt; class_join(alloc, 2)?, [false, true, true, true]);
    Ok(())
}
