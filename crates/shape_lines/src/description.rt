ghost use Rattle.std.specs.Prelude.{◌≡◌, map, IfErr, OnOk, IsTrue};
ghost use Rattle.std.specs.List.{list_all};
ghost use Rattle.semantics_lines.specs.ShapeText.{AreLines, all_names, is_known, shapes_of};
ghost use Rattle.shape_types.specs.Shapes.{drafts_of};
ghost use Rattle.shape_lines.specs.ShapeLines.{shape_line};
ghost use Rattle.shape_lines.specs.ShapeReading.{named_drafts};
ghost use Rattle.shape_lines.specs.ShapeScopes.{IsReferenceFault};

use crate::shape_definitions::define_shapes;
use crate::shape_fault::ReadShapesError;
use crate::shape_line::ShapeLine;
use crate::shape_names::{Scope, all_maps, all_names, check_references};
use shape_types::DraftsBuilder;
use std::alloc::Global;

/// Defines the shapes of these lines, where each shape is there to which a line refers.
pub fn describe(
    alloc: Global,
    lines: &[ShapeLine<'_>],
    builder: &mut DraftsBuilder,
) -> Result<(), ReadShapesError>
    requires good { AreLines (map shape_line lines.now) }
    requires named { drafts_of builder.old ≡ named_drafts (map shape_line lines.now) }
    ensures known { OnOk result (IsTrue (list_all (is_known (all_names (map shape_line lines.now))) (map shape_line lines.now))) }
    ensures shapes { OnOk result (drafts_of builder.new ≡ shapes_of (map shape_line lines.now)) }
    ensures refused { IfErr result (λ error. IsReferenceFault (all_names (map shape_line lines.now)) (map shape_line lines.now) error) }
{
    let names = all_names(alloc, lines)?;
    check_references(&names, lines)?;
    let maps = all_maps(alloc, lines)?;
    let scope = Scope {
        names: &names,
        maps: maps.as_slice(),
    };
    define_shapes(alloc, scope, lines, builder)?;
    Ok(())
}
