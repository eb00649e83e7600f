//! Shapes, and values that are told in a short form.
use shape_core::{Items, OutOfMemory, Shapes, Value};
use shape_text::read_shapes;
use std::alloc::Global;

const SHAPES: &[u8] = b"shape Option option u64
shape List list u64
shape Array array 2 u64
shape Pair tuple
item u64
item bool
shape Point struct
field x u64
field y Option
";

/// The shapes of the text.
pub(super) fn shapes<'v>(alloc: Global) -> Result<Shapes<'v>, OutOfMemory> {
    match read_shapes(alloc, SHAPES) {
        Ok(shapes) => Ok(shapes),
        Err(_) => Err(OutOfMemory),
    }
}

/// A value without parts.
#[derive(Clone, Copy)]
pub(super) enum Leaf {
    Unit,
    Bool(bool),
    Unsigned(u128),
    Signed(i128),
    None,
}

/// A value.
#[derive(Clone, Copy)]
pub(super) enum Made {
    Leaf(Leaf),
    List(&'static [Leaf]),
    Struct(&'static [Leaf]),
    Map,
}

fn of_leaf(leaf: Leaf) -> Value<'static> {
    match leaf {
        Leaf::Unit => Value::Unit,
        Leaf::Bool(told) => Value::Bool(told),
        Leaf::Unsigned(number) => Value::Unsigned(number),
        Leaf::Signed(number) => Value::Signed(number),
        Leaf::None => Value::None,
    }
}

fn push_all(values: &mut Items<Value<'static>>, leaves: &[Leaf]) -> Result<(), OutOfMemory> {
    'leaves: for inner in leaves {
        values.push(of_leaf(*inner))?;
    }
    Ok(())
}

fn items(alloc: Global, leaves: &[Leaf]) -> Result<Items<Value<'static>>, OutOfMemory> {
    let mut values = Items::new(alloc);
    match push_all(&mut values, leaves) {
        Ok(()) => Ok(values),
        Err(refused) => {
            drop(values);
            Err(refused)
        }
    }
}

pub(super) fn value(alloc: Global, made: Made) -> Result<Value<'static>, OutOfMemory> {
    match made {
        Made::Leaf(inner) => Ok(of_leaf(inner)),
        Made::List(leaves) => Ok(Value::List(items(alloc, leaves)?)),
        Made::Struct(leaves) => Ok(Value::Struct(items(alloc, leaves)?)),
        Made::Map => Ok(Value::Map(Items::new(alloc))),
    }
}
