use crate::tests::building::assert_row;
use shape_core::{Boxed, Bytes, Items, Name, OutOfMemory, Pair, ShapeId, ShapeName, Text, Value};
use std::alloc::Global;

const A: Text<'static> = Text::Borrowed("a");

/// A name equals its copy.
fn copies_name(alloc: Global, name: &Name) -> Result<bool, OutOfMemory> {
    let copy = name.try_clone(alloc)?;
    let is_equal = copy == *name;
    drop(copy);
    Ok(is_equal)
}

/// Bytes equal their copy.
fn copies_bytes(alloc: Global, bytes: &Bytes<'_>) -> Result<bool, OutOfMemory> {
    let copy = bytes.try_clone(alloc)?;
    let is_equal = copy == *bytes;
    drop(copy);
    Ok(is_equal)
}

/// A text equals its copy, which is borrowed where the text is, and one that is owned.
fn copies_text(alloc: Global, text: &Text<'_>) -> Result<bool, OutOfMemory> {
    let copy = text.try_clone(alloc)?;
    let is_equal = copy == *text && copy.is_borrowed() == text.is_borrowed();
    drop(copy);
    Ok(is_equal)
}

fn owns_text(alloc: Global, text: &Text<'_>) -> Result<bool, OutOfMemory> {
    let owned: Text<'static> = text.to_owned(alloc)?;
    let is_equal = owned == *text && !owned.is_borrowed();
    drop(owned);
    Ok(is_equal)
}

fn key(alloc: Global) -> Result<bool, OutOfMemory> {
    let name = Name::copy(alloc, "key")?;
    let is_copied = copies_name(alloc, &name);
    drop(name);
    is_copied
}

fn seven(alloc: Global) -> Result<bool, OutOfMemory> {
    let bytes = Bytes::Owned(Items::from_slice(alloc, &[7])?);
    let is_seven = bytes == Bytes::Borrowed(&[7]);
    let is_copied = copies_bytes(alloc, &bytes);
    drop(bytes);
    Ok(is_seven && is_copied?)
}

/// A name, bytes or a text equals its copy, or the text an owned one.
fn copies(alloc: Global, at: usize) -> Result<bool, OutOfMemory> {
    match at {
        0 => key(alloc),
        1 => seven(alloc),
        2 => copies_text(alloc, &A),
        _ => owns_text(alloc, &A),
    }
}

#[test]
fn texts(rt: HostRuntime) -> Result<(), OutOfMemory> {
    for at in 0..4 {
        let copied = copies(rt.alloc(), at)?;
        assert_row(&rt, at, copied);
    }
    Ok(())
}

fn push_entry(
    pairs: &mut Items<Pair<'static>>,
    value: Boxed<Value<'static>>,
) -> Result<(), OutOfMemory> {
    pairs.push(Pair {
        key: Value::Text(Text::Borrowed("key")),
        value: Value::Some(value),
    })
}

/// A map, whose entry holds a text and an option.
fn map(alloc: Global) -> Result<Value<'static>, OutOfMemory> {
    let value = Boxed::new(alloc, Value::Signed(-1))?;
    let mut pairs = Items::new(alloc);
    push_entry(&mut pairs, value)?;
    Ok(Value::Map(pairs))
}

/// A list of one map.
fn nested(alloc: Global) -> Result<Value<'static>, OutOfMemory> {
    let map = map(alloc)?;
    let mut items = Items::new(alloc);
    items.push(map)?;
    Ok(Value::List(items))
}

fn copies_value(alloc: Global, value: &Value<'static>) -> Result<bool, OutOfMemory> {
    let copy = value.try_clone(alloc)?;
    let is_equal = copy == *value;
    drop(copy);
    Ok(is_equal)
}

fn owns_value(alloc: Global, value: &Value<'static>) -> Result<bool, OutOfMemory> {
    let copy = value.to_static(alloc)?;
    let is_equal = copy == *value;
    drop(copy);
    Ok(is_equal)
}

fn copies_nested(alloc: Global) -> Result<bool, OutOfMemory> {
    let value = nested(alloc)?;
    let is_copied = copies_value(alloc, &value);
    let is_owned = owns_value(alloc, &value);
    drop(value);
    Ok(is_copied? && is_owned?)
}

#[test]
fn copies_of_values(rt: HostRuntime) -> Result<(), OutOfMemory> {
    let copied = copies_nested(rt.alloc())?;
    assert_row(&rt, 0, copied);
    Ok(())
}

/// The numbers 1 to 3.
fn three(alloc: Global) -> Result<Items<i32>, OutOfMemory> {
    let mut items = Items::from_slice(alloc, &[1, 2])?;
    items.push(3)?;
    Ok(items)
}

/// There are three items, the last of which is 3.
fn ends_with_three(items: &Items<i32>) -> bool {
    items.len() == 3 && items.get(2) == Some(&3) && items.get(3).is_none()
}

/// These are the items 1 and 2.
fn are_two(items: &Items<i32>) -> bool {
    !items.is_empty() && items.as_slice() == [1, 2].as_slice()
}

fn pops_three(items: &mut Items<i32>) -> bool {
    ends_with_three(items) && items.pop() == Some(3)
}

fn keeps_items(alloc: Global) -> Result<bool, OutOfMemory> {
    let mut items = three(alloc)?;
    let is_popped = pops_three(&mut items);
    let items = Items::from_vec(items.into_vec());
    let are_left = are_two(&items);
    drop(items);
    Ok(is_popped && are_left)
}

fn is_boxed(alloc: Global) -> Result<bool, OutOfMemory> {
    let boxed = Boxed::new(alloc, 5)?;
    Ok(boxed.into_inner() == 5)
}

#[test]
fn items_and_boxes(rt: HostRuntime) -> Result<(), OutOfMemory> {
    let kept = keeps_items(rt.alloc())?;
    assert_row(&rt, 0, kept);
    let boxed = is_boxed(rt.alloc())?;
    assert_row(&rt, 1, boxed);
    Ok(())
}

fn shown(alloc: Global, name: &ShapeName) -> Result<String, OutOfMemory> {
    Ok(format!(in alloc; "{name}")?)
}

fn named(alloc: Global) -> Result<ShapeName, OutOfMemory> {
    let name = Name::from_string(String::from_str(alloc, "Point")?);
    let id = ShapeId(17);
    Ok(ShapeName { id, name })
}

fn shows(alloc: Global, name: &ShapeName, want: &str) -> Result<bool, OutOfMemory> {
    let text = shown(alloc, name)?;
    let is_shown = text.as_str() == want;
    drop(text);
    Ok(is_shown)
}

/// A shape name prints as the name.
fn shows_name(alloc: Global) -> Result<bool, OutOfMemory> {
    let name = named(alloc)?;
    let is_shown = shows(alloc, &name, "Point");
    drop(name);
    is_shown
}

#[test]
fn a_shape_name_shows_its_name(rt: HostRuntime) -> Result<(), OutOfMemory> {
    let is_shown = shows_name(rt.alloc())?;
    assert_row(&rt, 0, is_shown);
    Ok(())
}
