//! Texts with two faults: which one is told.
use super::expect_refusals;
use std::test::Fail;

// Faults in two items: the first item from the left, whatever its fault.
const TWO_ITEMS: &[&str] = &[
    "BadType Die:1 ^foo:1 Core:0|Core:1 ^foo:1 Die:1()|Die:1 ^foo:1 numa:1(indexes=x)|^[foo] [numa()] PU:1",
    "BadType ^[foo] [numa(indexes=x)] PU:1|^[foo] PU:0",
    "BadArity Die:1 ^Core:0 foo:1|Core:1 ^Core:0 Die:1()|Die:1 ^Core:0 numa:1(indexes=x)|^PU:0 [foo]",
    "BadAttr Core:1 ^Die:1() foo:1|Core:1 ^Die:1() Core:0|Core:1 ^Die:1() numa:1(indexes=x)",
    "BadAttr ^[numa()] [foo] PU:1|^[numa()] [numa(indexes=x)] PU:1",
    "BadIndexes Die:1 ^numa:1(indexes=x) foo:1|Die:1 ^numa:1(indexes=x) Core:0",
    "BadIndexes Core:1 ^numa:1(indexes=x) Die:1()|^[numa(indexes=x)] [foo] PU:1",
    "BadIndexes ^[numa(indexes=x)] [numa()] PU:1",
];

// Two faults in one item: the name, then the arity, then attributes, then indexes.
const ONE_ITEM: &[&str] = &[
    "BadType ^foo:0 PU:1|^foo:1() PU:1|^machine:1(indexes=x) PU:1|^[foo()] PU:1|^[foo(indexes=x)] PU:1",
    "BadType ^[numa(indexes=x)",
    "BadArity ^Core:0() PU:1|^PU:0(indexes=x)",
    "BadAttr ^PU:1(indexes=x|^PU:1(indexes=x)y|^[numa(indexes=x] PU:1|^[numa(indexes=x)y] PU:1",
];

// Two wrong attributes in one list: the leftmost.
const ONE_LIST: &[&str] = &[
    "BadAttr ^PU:1(foo indexes=x)|^PU:1(size=1 indexes=x)|^PU:1( indexes=x)|^PU:1(indexes=0 indexes=x)",
    "BadAttr ^[numa(memory=x indexes=x)] PU:1|^numa:1(memory= indexes=) PU:1",
    "BadIndexes ^PU:1(indexes=x foo)|^PU:1(indexes=x size=1)|^PU:1(indexes=x )|^PU:1(indexes=x indexes=0)",
    "BadIndexes ^[numa(indexes=x memory=x)] PU:1|^numa:1(indexes= memory=) PU:1",
];

// A fault in an item comes before each rule on the whole text, wherever the item stands.
const ITEM_FIRST: &[&str] = &[
    "BadType ^[foo]|Core:1 Core:1 ^foo:1|[numa] [numa] ^[foo] PU:1|PU:1 Core:1 ^[foo]",
    "BadType 1 1 1 1 1 1 1 1 1 1 1 1 1 1 1 1 ^foo:1|Core:4097 ^foo:1",
    "BadAttr ^[numa()]|Core:1 Core:1 ^PU:1()|PU:1 ^Core:1()|1 1 1 1 1 1 1 1 1 1 1 1 1 1 1 1 ^1()",
    "BadAttr Core:4097 ^PU:1()",
    "BadIndexes ^[numa(indexes=x)]|Core:1 Core:1 ^1(indexes=x)|PU:1 ^[numa(indexes=x)]",
    "BadIndexes 1 1 1 1 1 1 1 1 1 1 1 1 1 1 1 1 ^1(indexes=x)|Core:4097 ^1(indexes=x)",
    "BadArity Core:1 Core:1 ^PU:0|^PU:0 Core:1|1 1 1 1 1 1 1 1 1 1 1 1 1 1 1 1 ^0|Core:4097 ^PU:0",
];

// Two broken rules on the whole text, in their order.
const WHOLE: &[&str] = &[
    "Empty [numa] [numa]",
    "RepeatedType Core:1 ^Core:1|Core:1 PU:1 ^Core:1|PU:1 [numa] ^[numa]|PU:1 ^PU:1 [numa]",
    "RepeatedType 1 1 1 1 1 1 1 1 1 1 1 1 1 1 1 1 PU:1 ^PU:1",
    "RepeatedType 1 1 1 1 1 1 1 1 1 1 1 1 1 1 1 1 [numa]^[numa] 1|PU:5000 ^PU:5000|[numa] ^[numa] PU:5000",
    "LastNotPu 1 1 1 1 1 1 1 1 1 1 1 1 1 1 1 1 ^Die:1|1 1 1 1 1 1 1 1 1 1 1 1 1 1 1 1 1 ^[numa]|^Core:5000",
    "LastNotPu PU:5000 ^[numa]",
    "TooManyLevels 9 9 9 9 9 9 9 9 9 9 9 9 9 9 9 9 9",
];

#[test]
fn tells_the_first_item(rt: HostRuntime) -> Result<(), Fail> {
    expect_refusals(&rt, rt.alloc(), TWO_ITEMS)
}

#[test]
fn tells_the_first_fault_of_an_item(rt: HostRuntime) -> Result<(), Fail> {
    expect_refusals(&rt, rt.alloc(), ONE_ITEM)
}

#[test]
fn tells_the_leftmost_attribute(rt: HostRuntime) -> Result<(), Fail> {
    expect_refusals(&rt, rt.alloc(), ONE_LIST)
}

#[test]
fn tells_items_before_the_whole(rt: HostRuntime) -> Result<(), Fail> {
    expect_refusals(&rt, rt.alloc(), ITEM_FIRST)
}

#[test]
fn tells_the_first_rule_on_the_whole(rt: HostRuntime) -> Result<(), Fail> {
    expect_refusals(&rt, rt.alloc(), WHOLE)
}
