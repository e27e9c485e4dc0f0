ghost use Rattle.std.specs.Prelude.{◌≡◌};

use bits_core::{Memory, Width};
use opgraph::{BlockId, Code, OpGraph, OpId, ValueId};
use std::alloc::Global;
use std::process::Abort;
use std::test::Fail;

const WIDTH: Width = Width { bytes: 4 };

const fn value(op: OpId) -> ValueId
    ensures { result.0 ≡ op.0 }
{
    ValueId(op.0)
}

// ---- the calls of the graph, where what they ask is tested first

fn push(rt: &impl Abort, graph: &mut OpGraph, op: OpId, input: OpId) -> Result<(), Memory> {
    assert!(rt; graph.contains_op(op));
    assert!(rt; graph.contains_value(value(input)));
    graph.push_input(op, value(input))
}

fn constant(rt: &impl Abort, graph: &mut OpGraph, block: BlockId) -> Result<OpId, Memory> {
    assert!(rt; graph.contains_block(block));
    graph.add_op(block, Code::Const(5), &[], Some(WIDTH))
}

fn multi(rt: &impl Abort, graph: &mut OpGraph, block: BlockId) -> Result<OpId, Memory> {
    assert!(rt; graph.contains_block(block));
    graph.add_multi(block, 0, WIDTH)
}

// A sum of a value and itself.
fn double(
    rt: &impl Abort,
    graph: &mut OpGraph,
    block: BlockId,
    input: OpId,
) -> Result<OpId, Memory> {
    assert!(rt; graph.contains_block(block));
    assert!(rt; graph.contains_value(value(input)));
    let inputs = [value(input), value(input)];
    graph.add_op(block, Code::Add, &inputs, Some(WIDTH))
}

fn double_before(
    rt: &impl Abort,
    graph: &mut OpGraph,
    at: OpId,
    input: OpId,
) -> Result<OpId, Memory> {
    assert!(rt; graph.contains_op(at));
    assert!(rt; graph.contains_value(value(input)));
    let inputs = [value(input), value(input)];
    graph.add_op_before(at, Code::Add, &inputs, Some(WIDTH))
}

fn set_input(rt: &impl Abort, graph: &mut OpGraph, op: OpId, slot: u32, input: OpId) {
    assert!(rt; graph.contains_op(op));
    assert!(rt; slot < graph.input_count(op));
    assert!(rt; graph.contains_value(value(input)));
    graph.set_input(op, slot, value(input));
}

fn replace_uses(rt: &impl Abort, graph: &mut OpGraph, old: OpId, new: OpId) {
    assert!(rt; graph.contains_value(value(old)));
    assert!(rt; graph.contains_value(value(new)));
    assert!(rt; old.0 != new.0);
    graph.replace_uses(value(old), value(new));
}

// The op is replaced by another one, and goes.
fn give_up(rt: &impl Abort, graph: &mut OpGraph, op: OpId, new: OpId) {
    assert!(rt; graph.contains_value(value(op)));
    assert!(rt; graph.contains_value(value(new)));
    assert!(rt; op.0 != new.0);
    graph.replace_uses(value(op), value(new));
    assert!(rt; graph.contains_op(op));
    graph.remove(op);
}

// The op of two inputs becomes a copy of a value.
fn copy_instead(rt: &impl Abort, graph: &mut OpGraph, op: OpId, input: OpId) {
    assert!(rt; graph.contains_op(op));
    assert!(rt; graph.input_count(op) == 2);
    assert!(rt; graph.contains_value(value(input)));
    graph.retarget(op, Code::Copy, &[value(input)]);
}

// ---- what the graph holds

// These are the slots that read the op's value, in any order.
fn are_uses(rt: &impl Abort, graph: &OpGraph, op: OpId, slots: &[(OpId, u32)]) {
    assert!(rt; graph.contains_value(value(op)));
    let mut count = 0_usize;
    for there in graph.uses(value(op)) {
        let known = slots
            .iter()
            .any(|slot| there.op.0 == slot.0.0 && there.slot == slot.1);
        assert!(rt; known);
        count = count.saturating_add(1);
    }
    assert_eq!(rt; count, slots.len());
}

fn are_ops(rt: &impl Abort, graph: &OpGraph, block: BlockId, ops: &[OpId]) {
    assert!(rt; graph.contains_block(block));
    let mut place = 0_usize;
    for there in graph.block_ops(block) {
        let op = ops.get(place);
        assert!(rt; op.is_some_and(|op| op.0 == there.0));
        place = place.saturating_add(1);
    }
    assert_eq!(rt; place, ops.len());
}

// The value is of this width, and the op's second input is this one.
fn is_double(rt: &impl Abort, graph: &OpGraph, op: OpId, input: OpId) {
    assert!(rt; graph.contains_value(value(op)));
    assert!(rt; graph.def(value(op)).0 == op.0);
    assert!(rt; graph.contains_op(op));
    assert!(rt; matches!(graph.code(op), Code::Add));
    assert!(rt; graph.width(op) == Some(WIDTH));
    assert!(rt; graph.input_count(op) == 2);
    assert!(rt; graph.input(op, 1).0 == input.0);
}

// ---- a constant a, a MULTIEQUAL m of a and of itself, and a sum of m and m

struct Worked {
    graph: OpGraph,
    block: BlockId,
    a: OpId,
    m: OpId,
    sum: OpId,
}

fn small_graph(rt: &impl Abort, alloc: Global) -> Result<Worked, Memory> {
    let mut graph = OpGraph::new(alloc);
    let block = graph.add_block()?;
    let a = constant(rt, &mut graph, block)?;
    let m = multi(rt, &mut graph, block)?;
    push(rt, &mut graph, m, a)?;
    push(rt, &mut graph, m, m)?;
    let sum = double(rt, &mut graph, block, m)?;
    Ok(Worked {
        graph,
        block,
        a,
        m,
        sum,
    })
}

#[test]
fn a_value_replaces_another_one(rt: HostRuntime) -> Result<(), Fail> {
    let Worked {
        mut graph,
        block,
        a,
        m,
        sum,
    } = small_graph(&rt, rt.alloc())?;
    are_ops(&rt, &graph, block, &[m, a, sum]);
    are_uses(&rt, &graph, a, &[(m, 0)]);
    are_uses(&rt, &graph, m, &[(m, 1), (sum, 0), (sum, 1)]);
    replace_uses(&rt, &mut graph, m, a);
    are_uses(&rt, &graph, m, &[]);
    are_uses(&rt, &graph, a, &[(m, 0), (m, 1), (sum, 0), (sum, 1)]);
    give_up(&rt, &mut graph, m, a);
    are_uses(&rt, &graph, a, &[(sum, 0), (sum, 1)]);
    are_ops(&rt, &graph, block, &[a, sum]);
    Ok(())
}

#[test]
fn one_slot_reads_another_value(rt: HostRuntime) -> Result<(), Fail> {
    let Worked {
        mut graph,
        block: _,
        a,
        m,
        sum,
    } = small_graph(&rt, rt.alloc())?;
    is_double(&rt, &graph, sum, m);
    set_input(&rt, &mut graph, sum, 1, a);
    are_uses(&rt, &graph, m, &[(m, 1), (sum, 0)]);
    are_uses(&rt, &graph, a, &[(m, 0), (sum, 1)]);
    copy_instead(&rt, &mut graph, sum, a);
    are_uses(&rt, &graph, m, &[(m, 1)]);
    are_uses(&rt, &graph, a, &[(m, 0), (sum, 0)]);
    Ok(())
}

// With spares from `reserve` or from a removal an op takes no memory, and it can stand just before another one.
#[test]
fn spares_become_ops(rt: HostRuntime) -> Result<(), Fail> {
    let mut graph = OpGraph::new(rt.alloc());
    let block = graph.add_block()?;
    let a = constant(&rt, &mut graph, block)?;
    graph.reserve(1, 2)?;
    let last = double(&rt, &mut graph, block, a)?;
    are_ops(&rt, &graph, block, &[a, last]);
    let sum = double_before(&rt, &mut graph, last, a)?;
    are_ops(&rt, &graph, block, &[a, sum, last]);
    are_uses(&rt, &graph, a, &[(last, 0), (last, 1), (sum, 0), (sum, 1)]);
    give_up(&rt, &mut graph, sum, a);
    let other = double_before(&rt, &mut graph, last, a)?;
    are_ops(&rt, &graph, block, &[a, other, last]);
    Ok(())
}

// Where an allocation is refused, as by `rt try --test --fail-alloc N` for each N, the graph is as before.
#[test]
fn growth_without_memory_changes_nothing(rt: HostRuntime) -> Result<(), Fail> {
    let mut graph = OpGraph::new(rt.alloc());
    let Ok(block) = graph.add_block() else {
        return Ok(());
    };
    let Ok(a) = constant(&rt, &mut graph, block) else {
        are_ops(&rt, &graph, block, &[]);
        return Ok(());
    };
    if graph.reserve(2, 40).is_ok() {
        assert!(rt; double_before(&rt, &mut graph, a, a).is_ok());
    } else {
        are_ops(&rt, &graph, block, &[a]);
        are_uses(&rt, &graph, a, &[]);
    }
    Ok(())
}
