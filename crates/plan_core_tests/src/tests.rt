use plan_core::{DeserStrategy, TypePlans};
use shape_core::{OutOfMemory, ScalarType, ShapeId, Shapes};
use shape_text::{ReadShapesError, read_shapes};
use std::alloc::Global;
use std::process::Abort;

/// A shape of each form, and a struct of each kind.
const SHAPES: &[u8] = b"shape Maybe option u64
shape Bytes list u8
shape Numbers list u64
shape Alias transparent u64
shape Answer result u64 u8
shape Four array 4 u64
shape Pair tuple
item u64
item u64
shape Point struct
field x u64
field y u64
shape Marker unit
";

/// Shapes by their names, with their strategies.
static STRATEGIES: [(&str, DeserStrategy); 10] = [
    ("u64", DeserStrategy::Scalar(ScalarType::U64)),
    ("Maybe", DeserStrategy::Option),
    ("Bytes", DeserStrategy::List { is_byte_vec: true }),
    ("Numbers", DeserStrategy::List { is_byte_vec: false }),
    ("Alias", DeserStrategy::TransparentConvert),
    ("Answer", DeserStrategy::Result),
    ("Four", DeserStrategy::Array { len: 4 }),
    ("Pair", DeserStrategy::Tuple { field_count: 2 }),
    ("Point", DeserStrategy::Struct),
    ("Marker", DeserStrategy::Struct),
];

/// The shape of this number has this strategy.
fn is_read_by(
    rt: &impl Abort,
    plans: &TypePlans<'_, 'static>,
    id: ShapeId,
    want: &DeserStrategy,
) -> bool {
    assert!(rt; plans.shapes().has(id));
    plans.strategy(id) == *want
}

/// The shape of this name has this strategy.
fn has(rt: &impl Abort, plans: &TypePlans<'_, 'static>, name: &str, want: &DeserStrategy) -> bool {
    match plans.shapes().find(name) {
        Some(id) => is_read_by(rt, plans, id, want),
        None => false,
    }
}

fn check_strategies(
    rt: &impl Abort,
    alloc: Global,
    shapes: &Shapes<'static>,
) -> Result<(), OutOfMemory> {
    let plans = TypePlans::new(alloc, shapes)?;
    for (name, want) in STRATEGIES.iter() {
        let has = has(rt, &plans, name, want);
        assert!(rt; has, "{name}");
    }
    Ok(())
}

#[test]
fn each_shape_has_its_strategy(rt: HostRuntime) -> Result<(), ReadShapesError> {
    let shapes = read_shapes(rt.alloc(), SHAPES)?;
    let checked = check_strategies(&rt, rt.alloc(), &shapes);
    drop(shapes);
    Ok(checked?)
}

/// The plans are those of a registry with a shape of this name and number.
fn knows(
    alloc: Global,
    shapes: &Shapes<'static>,
    name: &str,
    id: u32,
) -> Result<bool, OutOfMemory> {
    let plans = TypePlans::new(alloc, shapes)?;
    Ok(plans.shapes().find(name) == Some(ShapeId(id)))
}

#[test]
fn plans_know_their_shapes(rt: HostRuntime) -> Result<(), ReadShapesError> {
    let shapes = read_shapes(rt.alloc(), b"shape Shape struct\nfield x u64\n")?;
    let knows = knows(rt.alloc(), &shapes, "Shape", 17);
    drop(shapes);
    let knows = knows?;
    assert!(rt; knows);
    Ok(())
}
