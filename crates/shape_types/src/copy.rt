//! Copies of values.
ghost use Rattle.std.specs.Prelude.{◌≡◌, map, IfOk};
ghost use Rattle.shape_types.specs.Trees.{tree_of, entry_of, owned_tree_of, owned_entry_of};

use crate::boxed::Boxed;
use crate::items::Items;
use crate::memory::OutOfMemory;
use crate::value::{Pair, Value};
use std::alloc::Global;

impl<'de> Value<'de> {
    /// An equal value, whose texts are borrowed where those of this one are.
    #[cycle(copy)]
    pub fn try_clone(&self, alloc: Global) -> Result<Value<'de>, OutOfMemory>
        ensures { IfOk result (λ v. tree_of v ≡ tree_of self.now) }
    {
        match self {
            Value::Unit => Ok(Value::Unit),
            Value::Bool(b) => Ok(Value::Bool(*b)),
            Value::Char(c) => Ok(Value::Char(*c)),
            Value::Unsigned(n) => Ok(Value::Unsigned(*n)),
            Value::Signed(n) => Ok(Value::Signed(*n)),
            Value::Text(text) => match text.try_clone(alloc) {
                Ok(made) => Ok(Value::Text(made)),
                Err(refused) => Err(refused),
            },
            Value::None => Ok(Value::None),
            Value::Some(inner) => match copy_boxed(inner, alloc) {
                Ok(made) => Ok(Value::Some(made)),
                Err(refused) => Err(refused),
            },
            Value::Ok(inner) => match copy_boxed(inner, alloc) {
                Ok(made) => Ok(Value::Ok(made)),
                Err(refused) => Err(refused),
            },
            Value::Err(inner) => match copy_boxed(inner, alloc) {
                Ok(made) => Ok(Value::Err(made)),
                Err(refused) => Err(refused),
            },
            Value::List(items) => match copy_items(items, alloc) {
                Ok(made) => Ok(Value::List(made)),
                Err(refused) => Err(refused),
            },
            Value::Map(pairs) => match copy_pairs(pairs, alloc) {
                Ok(made) => Ok(Value::Map(made)),
                Err(refused) => Err(refused),
            },
            Value::Struct(fields) => match copy_items(fields, alloc) {
                Ok(made) => Ok(Value::Struct(made)),
                Err(refused) => Err(refused),
            },
            Value::Enum { variant, fields } => match copy_items(fields, alloc) {
                Ok(made) => Ok(Value::Enum {
                    variant: *variant,
                    fields: made,
                }),
                Err(refused) => Err(refused),
            },
        }
    }

    /// An equal value whose texts are all owned, so that it outlives the input.
    pub fn to_static(&self, alloc: Global) -> Result<Value<'static>, OutOfMemory>
        ensures { IfOk result (λ v. tree_of v ≡ owned_tree_of self.now) }
    {
        self.to_owned(alloc)
    }

    /// As [`Value::to_static`], for whichever lifetime is wanted.
    #[cycle(own)]
    pub fn to_owned<'a>(&self, alloc: Global) -> Result<Value<'a>, OutOfMemory>
        ensures { IfOk result (λ v. tree_of v ≡ owned_tree_of self.now) }
    {
        match self {
            Value::Unit => Ok(Value::Unit),
            Value::Bool(b) => Ok(Value::Bool(*b)),
            Value::Char(c) => Ok(Value::Char(*c)),
            Value::Unsigned(n) => Ok(Value::Unsigned(*n)),
            Value::Signed(n) => Ok(Value::Signed(*n)),
            Value::Text(text) => match text.to_owned(alloc) {
                Ok(made) => Ok(Value::Text(made)),
                Err(refused) => Err(refused),
            },
            Value::None => Ok(Value::None),
            Value::Some(inner) => match own_boxed(inner, alloc) {
                Ok(made) => Ok(Value::Some(made)),
                Err(refused) => Err(refused),
            },
            Value::Ok(inner) => match own_boxed(inner, alloc) {
                Ok(made) => Ok(Value::Ok(made)),
                Err(refused) => Err(refused),
            },
            Value::Err(inner) => match own_boxed(inner, alloc) {
                Ok(made) => Ok(Value::Err(made)),
                Err(refused) => Err(refused),
            },
            Value::List(items) => match own_items(items, alloc) {
                Ok(made) => Ok(Value::List(made)),
                Err(refused) => Err(refused),
            },
            Value::Map(pairs) => match own_pairs(pairs, alloc) {
                Ok(made) => Ok(Value::Map(made)),
                Err(refused) => Err(refused),
            },
            Value::Struct(fields) => match own_items(fields, alloc) {
                Ok(made) => Ok(Value::Struct(made)),
                Err(refused) => Err(refused),
            },
            Value::Enum { variant, fields } => match own_items(fields, alloc) {
                Ok(made) => Ok(Value::Enum {
                    variant: *variant,
                    fields: made,
                }),
                Err(refused) => Err(refused),
            },
        }
    }
}

#[cycle(copy)]
fn copy_boxed<'de>(
    inner: &Boxed<Value<'de>>,
    alloc: Global,
) -> Result<Boxed<Value<'de>>, OutOfMemory>
    ensures { IfOk result (λ v. tree_of v ≡ tree_of inner.now) }
{
    let value = inner.get().try_clone(alloc)?;
    Boxed::new(alloc, value)
}

#[cycle(copy)]
fn copy_items<'de>(
    items: &Items<Value<'de>>,
    alloc: Global,
) -> Result<Items<Value<'de>>, OutOfMemory>
    ensures { IfOk result (λ vs. map tree_of vs ≡ map tree_of items.now) }
{
    let mut copies = Items::new(alloc);
    for item in items.as_slice() {
        copies.push(item.try_clone(alloc)?)?;
    }
    Ok(copies)
}

#[cycle(copy)]
fn copy_pair<'de>(pair: &Pair<'de>, alloc: Global) -> Result<Pair<'de>, OutOfMemory>
    ensures { IfOk result (λ p. entry_of p ≡ entry_of pair.now) }
{
    let key = pair.key.try_clone(alloc)?;
    match pair.value.try_clone(alloc) {
        Ok(value) => Ok(Pair { key, value }),
        Err(refused) => {
            drop(key);
            Err(refused)
        }
    }
}

#[cycle(copy)]
fn copy_pairs<'de>(pairs: &Items<Pair<'de>>, alloc: Global) -> Result<Items<Pair<'de>>, OutOfMemory>
    ensures { IfOk result (λ ps. map entry_of ps ≡ map entry_of pairs.now) }
{
    let mut copies = Items::new(alloc);
    for pair in pairs.as_slice() {
        copies.push(copy_pair(pair, alloc)?)?;
    }
    Ok(copies)
}

#[cycle(own)]
fn own_boxed<'a>(inner: &Boxed<Value<'_>>, alloc: Global) -> Result<Boxed<Value<'a>>, OutOfMemory>
    ensures { IfOk result (λ v. tree_of v ≡ owned_tree_of inner.now) }
{
    let value = inner.get().to_owned(alloc)?;
    Boxed::new(alloc, value)
}

#[cycle(own)]
fn own_items<'a>(items: &Items<Value<'_>>, alloc: Global) -> Result<Items<Value<'a>>, OutOfMemory>
    ensures { IfOk result (λ vs. map tree_of vs ≡ map owned_tree_of items.now) }
{
    let mut copies = Items::new(alloc);
    for item in items.as_slice() {
        copies.push(item.to_owned(alloc)?)?;
    }
    Ok(copies)
}

#[cycle(own)]
fn own_pair<'a>(pair: &Pair<'_>, alloc: Global) -> Result<Pair<'a>, OutOfMemory>
    ensures { IfOk result (λ p. entry_of p ≡ owned_entry_of pair.now) }
{
    let key = pair.key.to_owned(alloc)?;
    match pair.value.to_owned(alloc) {
        Ok(value) => Ok(Pair { key, value }),
        Err(refused) => {
            drop(key);
            Err(refused)
        }
    }
}

#[cycle(own)]
fn own_pairs<'a>(pairs: &Items<Pair<'_>>, alloc: Global) -> Result<Items<Pair<'a>>, OutOfMemory>
    ensures { IfOk result (λ ps. map entry_of ps ≡ map owned_entry_of pairs.now) }
{
    let mut copies = Items::new(alloc);
    for pair in pairs.as_slice() {
        copies.push(own_pair(pair, alloc)?)?;
    }
    Ok(copies)
}
