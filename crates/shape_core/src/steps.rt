//! Steps from a shape to a part that stands where the shape itself does.
ghost use Rattle.std.specs.Prelude.{◌≡◌, ◌<◌, [], length, map, option_map, IfOk};
ghost use Rattle.std.specs.List.{cons_option};
ghost use Rattle.semantics.specs.Registry.{step_shapes, steps_from, lies_on_cycle, NoFaultBelow};
ghost use Rattle.shape_core.specs.Walks.{IsWalk, AreWalks, joined, joined_all};
ghost use Rattle.shape_types.specs.Shapes.{definition_of, drafts_of};

use shape_types::{Def, Draft, Items, OutOfMemory, ShapeId};
use std::alloc::Global;

/// Where some number of steps lead from a shape.
#[derive(Clone, Copy)]
pub struct Walk {
    /// The shape where they end, or a number that isn't there.
    pub end: usize,
    /// The least shape that one of them leads to, or a number that isn't there.
    pub least: usize,
}

/// Where the step leads from a shape that is made so. There is one at most.
fn step_of(def: &Def) -> Option<ShapeId>
    ensures { cons_option (option_map (λ id. id.0) result) [] ≡ step_shapes (definition_of def.now) }
{
    match def {
        Def::Option(inner) | Def::Transparent(inner) => Some(*inner),
        _ => None,
    }
}

fn step_from(drafts: &[Draft], from: usize) -> Option<ShapeId>
    ensures { cons_option (option_map (λ id. id.0) result) [] ≡ steps_from (drafts_of drafts.now) from }
{
    match drafts.get(from) {
        Some(draft) => match &draft.def {
            Some(def) => step_of(def),
            None => None,
        },
        None => None,
    }
}

/// The walk of one step.
fn one_step(drafts: &[Draft], from: usize) -> Walk
    ensures { IsWalk (drafts_of drafts.now) 1 from result }
{
    let end = match step_from(drafts, from) {
        Some(next) => next.0 as usize,
        None => drafts.len(),
    };
    Walk { end, least: end }
}

/// The walks of no steps.
fn no_steps(alloc: Global, drafts: &[Draft]) -> Result<Items<Walk>, OutOfMemory>
    ensures { IfOk result (λ walks. AreWalks (drafts_of drafts.now) 0 walks) }
{
    let mut walks = Items::new(alloc);
    let least = drafts.len();
    'shapes: for end in 0..drafts.len() {
        walks.push(Walk { end, least })?;
    }
    Ok(walks)
}

/// The walks of one step from each shape.
fn one_steps(alloc: Global, drafts: &[Draft]) -> Result<Items<Walk>, OutOfMemory>
    ensures { IfOk result (λ walks. AreWalks (drafts_of drafts.now) 1 walks) }
{
    let mut walks = Items::new(alloc);
    'shapes: for from in 0..drafts.len() {
        walks.push(one_step(drafts, from))?;
    }
    Ok(walks)
}

/// A walk with the one that begins where it ends.
fn joined(walk: Walk, behind: &[Walk]) -> Walk
    ensures { result ≡ joined walk behind.now }
{
    match behind.get(walk.end) {
        Some(next) => Walk {
            end: next.end,
            least: walk.least.min(next.least),
        },
        None => walk,
    }
}

/// Each walk with the one that begins where it ends.
fn joined_all(alloc: Global, walks: &[Walk], behind: &[Walk]) -> Result<Items<Walk>, OutOfMemory>
    ensures { IfOk result (λ joined. joined ≡ joined_all behind.now walks.now) }
{
    let mut all = Items::new(alloc);
    'walks: for walk in walks {
        all.push(joined(*walk, behind))?;
    }
    Ok(all)
}

/// The walks of so many steps: those of half as many, joined with themselves, and one step more where they are odd.
fn walks_of(
    alloc: Global,
    drafts: &[Draft],
    ones: &[Walk],
    steps: usize,
) -> Result<Items<Walk>, OutOfMemory>
    requires { AreWalks (drafts_of drafts.now) 1 ones.now }
    ensures { IfOk result (λ walks. AreWalks (drafts_of drafts.now) steps walks) }
{
    if steps == 0 {
        return no_steps(alloc, drafts);
    }
    let half = walks_of(alloc, drafts, ones, steps / 2)?;
    let even = joined_all(alloc, half.as_slice(), half.as_slice())?;
    drop(half);
    if steps % 2 == 0 {
        Ok(even)
    } else {
        joined_all(alloc, even.as_slice(), ones)
    }
}

/// For each shape, the walk of as many steps as there are shapes.
pub fn long_walks(alloc: Global, drafts: &[Draft]) -> Result<Items<Walk>, OutOfMemory>
    ensures { IfOk result (λ walks. AreWalks (drafts_of drafts.now) (length drafts.now) walks) }
{
    let ones = one_steps(alloc, drafts)?;
    walks_of(alloc, drafts, ones.as_slice(), drafts.len())
}

/// The shape is reached from itself by steps alone. No shape before it is: so it is the least that it comes to.
pub fn lies_on_cycle(_drafts: &[Draft], walks: &Items<Walk>, at: usize) -> bool
    requires walks { AreWalks (drafts_of _drafts.now) (length _drafts.now) walks.now }
    requires before { NoFaultBelow (drafts_of _drafts.now) at }
    requires there { at < length _drafts.now }
    ensures { result ≡ lies_on_cycle (drafts_of _drafts.now) at }
{
    match walks.get(at) {
        Some(walk) => walk.least == at,
        None => false,
    }
}
