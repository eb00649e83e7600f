//! What a scalar of an event gives to a scalar shape.
ghost use Rattle.std.specs.Prelude.{◌≡◌, ◌<◌, length, IsSome, IfSome, Some, Ok};
ghost use Rattle.semantics.specs.Labels.{name_at, label_at};
ghost use Rattle.semantics.specs.Typed.{scalar_at};
ghost use Rattle.semantics_lines.specs.Scalars.{scalar_default};
ghost use Rattle.semantics.specs.Setters.{set_bool, set_char, set_scalar};
ghost use Rattle.shape_types.specs.Shapes.{registry};
ghost use Rattle.shape_types.specs.Scalars.{scalar_type_of};
ghost use Rattle.event_core.specs.Events.{scalar_of};
ghost use Rattle.event_core.specs.Kinds.{scalar_name as event_name};
ghost use Rattle.read_parts.specs.Answers.{Gives};
ghost use Rattle.read_parts.specs.Targets.{target_type, target_shape, target_event};

use crate::number::{set_i64, set_signed, set_u64, set_unsigned};
use crate::target::{Target, out_of_memory};
use crate::text::set_text;
use event_core::{DeserializeErrorKind, ScalarValue};
use shape_core::{ScalarType, ShapeId, Shapes, Value};
use std::alloc::Global;

/// The value that a scalar gives to a shape of scalars.
///
/// Null and Unit give the default of every scalar type. A truth value, a character and a number are set into types of
/// their own kind, where a number has to be in range; a number of 64 bits is set into `String` as its decimal. A text is
/// set into `String`, into `Str` where it is borrowed, and into every type but `unit` that has a value which it writes.
/// A borrowed text stays borrowed where `borrow` says so, and is copied otherwise.
///
/// It is refused as [`DeserializeErrorKind::NumberOutOfRange`] with the number and the type, as
/// [`DeserializeErrorKind::CannotBorrow`], or as [`DeserializeErrorKind::Reflect`]: the text is none of the type's
/// values, or the type takes no such event. It may be refused for want of memory.
pub fn scalar_value<'de>(
    alloc: Global,
    shapes: &Shapes,
    shape: ShapeId,
    scalar: ScalarValue<'de>,
    borrow: bool,
) -> Result<Value<'de>, DeserializeErrorKind<'de>>
    requires known { shape.0 < length (registry shapes.now) }
    requires scalar { IsSome (scalar_at (registry shapes.now) shape.0) }
    ensures { IfSome (scalar_at (registry shapes.now) shape.0) (λ t. Gives (event_name scalar.entry) (set_scalar borrow (label_at (registry shapes.now) shape.0) t (scalar_of scalar.entry)) result) }
{
    typed_value(alloc, shapes, shape, type_of(shapes, shape), scalar, borrow)
}

/// The same for a shape whose scalar type is known. Refusals name the shape, if there is one of this number.
pub fn typed_value<'de>(
    alloc: Global,
    shapes: &Shapes,
    shape: ShapeId,
    target: ScalarType,
    scalar: ScalarValue<'de>,
    borrow: bool,
) -> Result<Value<'de>, DeserializeErrorKind<'de>>
    ensures { Gives (event_name scalar.entry) (set_scalar borrow (label_at (registry shapes.now) shape.0) (scalar_type_of target) (scalar_of scalar.entry)) result }
{
    let target = Target {
        alloc,
        shape,
        name: name_of(shapes, shape),
        scalar: target,
        event: scalar.kind_name(),
    };
    set(target, scalar, borrow)
}

/// The name of the shape, or the empty text where there is no such shape.
fn name_of<'s>(shapes: &'s Shapes, shape: ShapeId) -> &'s str
    ensures { result.now ≡ name_at (registry shapes.now) shape.0 }
{
    match shapes.get(shape) {
        Some(shape) => shape.name.as_str(),
        None => "",
    }
}

/// The scalar type of the shape.
fn type_of(shapes: &Shapes, shape: ShapeId) -> ScalarType
    requires { IsSome (scalar_at (registry shapes.now) shape.0) }
    ensures { scalar_at (registry shapes.now) shape.0 ≡ Some (scalar_type_of result) }
{
    match shapes.scalar_at(shape) {
        Some(scalar) => scalar,
        None => unreachable!(),
    }
}

fn set<'de>(
    target: Target<'_>,
    scalar: ScalarValue<'de>,
    borrow: bool,
) -> Result<Value<'de>, DeserializeErrorKind<'de>>
    ensures { Gives (target_event target.entry) (set_scalar borrow (target_shape target.entry) (target_type target.entry) (scalar_of scalar.entry)) result }
{
    match scalar {
        ScalarValue::Unit | ScalarValue::Null => default_value(target),
        ScalarValue::Bool(told) => set_bool(target, told),
        ScalarValue::Char(letter) => set_char(target, letter),
        ScalarValue::I64(number) => set_i64(target, number),
        ScalarValue::U64(number) => set_u64(target, number),
        ScalarValue::I128(number) => set_signed(target, number),
        ScalarValue::U128(number) => set_unsigned(target, number),
        ScalarValue::Str(text) => set_text(target, text, borrow),
        ScalarValue::Bytes(_) => Err(target.wrong_kind()),
    }
}

/// What a scalar type has where nothing is told.
fn default_value<'de>(target: Target<'_>) -> Result<Value<'de>, DeserializeErrorKind<'de>>
    ensures { Gives (target_event target.entry) (Ok (scalar_default (target_type target.entry))) result }
{
    match target.scalar.default_value(target.alloc) {
        Ok(value) => Ok(value),
        Err(_) => Err(out_of_memory()),
    }
}

fn set_bool<'de>(target: Target<'_>, told: bool) -> Result<Value<'de>, DeserializeErrorKind<'de>>
    ensures { Gives (target_event target.entry) (set_bool (target_shape target.entry) (target_type target.entry) told) result }
{
    match target.scalar {
        ScalarType::Bool => Ok(Value::Bool(told)),
        _ => Err(target.wrong_kind()),
    }
}

fn set_char<'de>(target: Target<'_>, letter: char) -> Result<Value<'de>, DeserializeErrorKind<'de>>
    ensures { Gives (target_event target.entry) (set_char (target_shape target.entry) (target_type target.entry) letter) result }
{
    match target.scalar {
        ScalarType::Char => Ok(Value::Char(letter)),
        _ => Err(target.wrong_kind()),
    }
}
