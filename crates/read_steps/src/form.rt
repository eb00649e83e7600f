//! In which form a value of a shape begins.
ghost use Rattle.std.specs.Prelude.{◌≡◌, ℕ, suc, None};
ghost use Rattle.semantics.specs.Reading.{from_events};
ghost use Rattle.semantics_lines.specs.Shapes.{definition_at};
ghost use Rattle.semantics_lines.specs.Events.{Event, Span};
ghost use Rattle.shape_types.specs.Shapes.{registry};
ghost use Rattle.laws_machine.specs.Begins.{begin};
ghost use Rattle.laws_machine.specs.Frames.{Frames};
ghost use Rattle.read_steps.specs.Forms.{begin_form};
ghost use Rattle.read_steps.specs.Leaving.{inner_in};
ghost use Rattle.read_steps.specs.Tasks.{terms_of};

use crate::task::{ItemsOf, Sides, Task};
use shape_core::{Def, ScalarType, ShapeId, StructKind};

/// In which form a value begins that no part of it stands for.
#[derive(Clone, Copy)]
pub enum Form {
    /// A scalar.
    Scalar(ScalarType),
    /// An option that holds nothing.
    Nothing,
    /// A result.
    Result(Sides),
    /// A list or an array.
    Items(ItemsOf),
    /// A tuple.
    Tuple,
    /// A struct with named fields, or with none.
    Object,
    /// One that isn't read yet.
    Unread,
}

/// The form of the shape of this number.
#[tactic(auto, using(crate::proofs::Begins::nothing_begins, crate::proofs::Begins::transparent_never, crate::proofs::Begins::tuple_is, crate::proofs::Begins::struct_is))]
pub fn form_of(task: &Task<'_, '_>, shape: ShapeId) -> Form
    ensures { (n : ℕ) (fs : Frames) (before : Span) (e : Event) → inner_in (definition_at (registry task.now.shapes.now) shape.0) e ≡ None → begin (terms_of task.now) (suc n) shape.0 from_events fs before e ≡ begin_form result (terms_of task.now) shape n fs e }
{
    match task.shapes.definition_at(shape) {
        Some(Def::Scalar(scalar)) => Form::Scalar(*scalar),
        Some(Def::Option(_)) => Form::Nothing,
        Some(Def::Result { ok, err }) => Form::Result(Sides { ok: *ok, err: *err }),
        Some(Def::List(item)) => Form::Items(ItemsOf {
            item: *item,
            len: None,
        }),
        Some(Def::Array { item, len }) => Form::Items(ItemsOf {
            item: *item,
            len: Some(*len),
        }),
        Some(Def::Struct(def)) => match def.kind {
            StructKind::Tuple | StructKind::TupleStruct => Form::Tuple,
            StructKind::Unit | StructKind::Struct => Form::Object,
        },
        _ => Form::Unread,
    }
}
