//! Values by rows.
use shape_core::{Boxed, Items, OutOfMemory, Text, Value};
use std::alloc::Global;

/// A value without parts.
#[derive(Clone, Copy)]
pub enum Plain {
    Unit,
    Bool(bool),
    Char(char),
    Unsigned(u128),
    Signed(i128),
    Text(&'static str),
    None,
}

/// What a row says of a value.
#[derive(Clone, Copy)]
pub enum Made {
    Plain(Plain),
    Some(Plain),
    Ok(Plain),
    Err(Plain),
    List(&'static [Plain]),
    Struct(&'static [Plain]),
}

/// The value.
pub fn plain_value(value: Plain) -> Value<'static> {
    match value {
        Plain::Unit => Value::Unit,
        Plain::Bool(b) => Value::Bool(b),
        Plain::Char(c) => Value::Char(c),
        Plain::Unsigned(n) => Value::Unsigned(n),
        Plain::Signed(n) => Value::Signed(n),
        Plain::Text(text) => Value::Text(Text::Borrowed(text)),
        Plain::None => Value::None,
    }
}

fn boxed(alloc: Global, value: Plain) -> Result<Boxed<Value<'static>>, OutOfMemory> {
    Boxed::new(alloc, plain_value(value))
}

fn items(alloc: Global, values: &[Plain]) -> Result<Items<Value<'static>>, OutOfMemory> {
    let mut items = Items::new(alloc);
    for value in values {
        items.push(plain_value(*value))?;
    }
    Ok(items)
}

/// The value that this form makes of what it holds, that of `Some` by default.
fn held(form: Made, inner: Boxed<Value<'static>>) -> Value<'static> {
    match form {
        Made::Ok(_) => Value::Ok(inner),
        Made::Err(_) => Value::Err(inner),
        _ => Value::Some(inner),
    }
}

fn holder(alloc: Global, form: Made, inner: Plain) -> Result<Value<'static>, OutOfMemory> {
    match boxed(alloc, inner) {
        Ok(inner) => Ok(held(form, inner)),
        Err(refused) => Err(refused),
    }
}

/// The value that a row says.
pub fn value_of(alloc: Global, value: Made) -> Result<Value<'static>, OutOfMemory> {
    match value {
        Made::Plain(value) => Ok(plain_value(value)),
        Made::Some(inner) | Made::Ok(inner) | Made::Err(inner) => holder(alloc, value, inner),
        Made::List(values) => Ok(Value::List(items(alloc, values)?)),
        Made::Struct(values) => Ok(Value::Struct(items(alloc, values)?)),
    }
}
