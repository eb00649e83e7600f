use crate::definition::Def;
use crate::name::Name;

/// A shape that is being built: it has a name, and its definition may be missing.
///
/// `'v` is how long texts of declared defaults are borrowed.
#[derive(Debug, Drop)]
pub struct Draft<'v> {
    /// Its name.
    pub name: Name,
    /// What it is made of, where that was told.
    pub def: Option<Def<'v>>,
    /// The number of the proxy that stands for it.
    pub proxy: Option<u32>,
}
