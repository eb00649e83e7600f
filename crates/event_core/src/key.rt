//! What stands before the value of an entry.
ghost use Rattle.std.specs.Prelude.{◌≡◌, [], IfOk, None, Some, map, option_copied, option_and_then};
ghost use Rattle.std.specs.Option.{option_map};
ghost use Rattle.shape_types.specs.Texts.{phrase_of};
ghost use Rattle.event_core.specs.Metadata.{metadata_of, docs_told, tag_told};
ghost use Rattle.event_core.specs.Keys.{key_name, key_metadata, key_location, parts_of, full_parts, documented_parts, empty_tag};
ghost use Rattle.event_core.specs.declared.key.FieldKey.TheVariants.{Name, Full};

use crate::metadata::{Docs, ValueMeta, clone_text};
use shape_types::{Boxed, OutOfMemory, Text};
use std::alloc::Global;

/// Where the value of a field stands.
#[derive(Debug, Clone, Copy, PartialEq, Eq, Default)]
pub enum FieldLocationHint {
    /// Behind its key.
    #[default]
    KeyValue,
}

/// The key of an entry.
#[derive(Debug, PartialEq, Eq, Drop)]
pub enum FieldKey<'de> {
    /// A name alone.
    Name(Text<'de>),
    /// A name, if any, and metadata.
    Full(Boxed<FullFieldKey<'de>>),
}

/// A key with metadata.
#[derive(Debug, PartialEq, Eq, Drop)]
pub struct FullFieldKey<'de> {
    /// The name. A key without one has a tag, or stands before a unit.
    pub name: Option<Text<'de>>,
    /// Where the value stands.
    pub location: FieldLocationHint,
    /// What is told of the value.
    pub meta: ValueMeta<'de>,
}

impl<'de> FieldKey<'de> {
    /// A key that is a name alone.
    pub fn new(name: Text<'de>, _location: FieldLocationHint) -> FieldKey<'de>
        ensures { result ≡ Name name.entry }
    {
        FieldKey::Name(name)
    }

    /// A name with lines of documentation. Without a line it is a name alone.
    ///
    /// Like each of the following, it is refused for want of memory alone.
    pub fn with_doc(
        alloc: Global,
        name: Text<'de>,
        location: FieldLocationHint,
        doc: Docs<'de>,
    ) -> Result<FieldKey<'de>, OutOfMemory>
        ensures parts { IfOk result (λ key. parts_of key ≡ documented_parts (phrase_of name.entry) location (map phrase_of doc.entry)) }
        ensures plain { IfOk result (λ key. doc.entry ≡ [] → key ≡ Name name.entry) }
    {
        if doc.is_empty() {
            return Ok(FieldKey::new(name, location));
        }
        full(
            alloc,
            Some(name),
            location,
            ValueMeta::builder().doc(doc).build(),
        )
    }

    /// A tag without a name.
    pub fn tagged(
        alloc: Global,
        tag: Text<'de>,
        location: FieldLocationHint,
    ) -> Result<FieldKey<'de>, OutOfMemory>
        ensures { IfOk result (λ key. parts_of key ≡ full_parts None location (Some (phrase_of tag.entry)) []) }
    {
        full(alloc, None, location, ValueMeta::builder().tag(tag).build())
    }

    /// A tag without a name, with lines of documentation.
    pub fn tagged_with_doc(
        alloc: Global,
        tag: Text<'de>,
        location: FieldLocationHint,
        doc: Docs<'de>,
    ) -> Result<FieldKey<'de>, OutOfMemory>
        ensures { IfOk result (λ key. parts_of key ≡ full_parts None location (Some (phrase_of tag.entry)) (map phrase_of doc.entry)) }
    {
        full(
            alloc,
            None,
            location,
            ValueMeta::builder().tag(tag).doc(doc).build(),
        )
    }

    /// A name with a tag.
    pub fn tagged_with_name(
        alloc: Global,
        tag: Text<'de>,
        name: Text<'de>,
        location: FieldLocationHint,
    ) -> Result<FieldKey<'de>, OutOfMemory>
        ensures { IfOk result (λ key. parts_of key ≡ full_parts (Some (phrase_of name.entry)) location (Some (phrase_of tag.entry)) []) }
    {
        full(
            alloc,
            Some(name),
            location,
            ValueMeta::builder().tag(tag).build(),
        )
    }

    /// A name with a tag and lines of documentation.
    pub fn tagged_with_name_and_doc(
        alloc: Global,
        tag: Text<'de>,
        name: Text<'de>,
        location: FieldLocationHint,
        doc: Docs<'de>,
    ) -> Result<FieldKey<'de>, OutOfMemory>
        ensures { IfOk result (λ key. parts_of key ≡ full_parts (Some (phrase_of name.entry)) location (Some (phrase_of tag.entry)) (map phrase_of doc.entry)) }
    {
        full(
            alloc,
            Some(name),
            location,
            ValueMeta::builder().tag(tag).doc(doc).build(),
        )
    }

    /// The key of a unit: the empty tag, without a name.
    pub fn unit(alloc: Global, location: FieldLocationHint) -> Result<FieldKey<'de>, OutOfMemory>
        ensures { IfOk result (λ key. parts_of key ≡ full_parts None location (Some empty_tag) []) }
    {
        FieldKey::tagged(alloc, Text::Borrowed(""), location)
    }

    /// The key of a unit with lines of documentation.
    pub fn unit_with_doc(
        alloc: Global,
        location: FieldLocationHint,
        doc: Docs<'de>,
    ) -> Result<FieldKey<'de>, OutOfMemory>
        ensures { IfOk result (λ key. parts_of key ≡ full_parts None location (Some empty_tag) (map phrase_of doc.entry)) }
    {
        FieldKey::tagged_with_doc(alloc, Text::Borrowed(""), location, doc)
    }

    /// The name, where there is one.
    pub fn name(&self) -> Option<&Text<'de>>
        ensures { option_map phrase_of (option_copied result) ≡ key_name self.now }
    {
        match self {
            FieldKey::Name(name) => Some(name),
            FieldKey::Full(full) => full.get().name.as_ref(),
        }
    }

    /// The lines of documentation, of which there is one at least.
    pub fn doc(&self) -> Option<&[Text<'de>]>
        ensures { option_map (map phrase_of) (option_copied result) ≡ option_and_then docs_told (key_metadata self.now) }
    {
        match self {
            FieldKey::Name(_) => None,
            FieldKey::Full(full) => full.get().meta.doc(),
        }
    }

    /// The tag.
    pub fn tag(&self) -> Option<&Text<'de>>
        ensures { option_map phrase_of (option_copied result) ≡ option_and_then tag_told (key_metadata self.now) }
    {
        match self {
            FieldKey::Name(_) => None,
            FieldKey::Full(full) => full.get().meta.tag(),
        }
    }

    /// Where the value stands.
    pub fn location(&self) -> FieldLocationHint
        ensures { result ≡ key_location self.now }
    {
        match self {
            FieldKey::Name(_) => FieldLocationHint::KeyValue,
            FieldKey::Full(full) => full.get().location,
        }
    }

    /// The metadata. There are none exactly where the key is a name alone.
    pub fn meta(&self) -> Option<&ValueMeta<'de>>
        ensures { option_map metadata_of (option_copied result) ≡ key_metadata self.now }
    {
        match self {
            FieldKey::Name(_) => None,
            FieldKey::Full(full) => Some(&full.get().meta),
        }
    }

    /// The same key again. It is refused for want of memory alone.
    pub fn try_clone(&self, alloc: Global) -> Result<FieldKey<'de>, OutOfMemory>
        ensures { IfOk result (λ copy. copy ≡ self.now) }
    {
        match self {
            FieldKey::Name(name) => match name.try_clone(alloc) {
                Ok(name) => Ok(FieldKey::Name(name)),
                Err(refused) => Err(refused),
            },
            FieldKey::Full(full) => match full.get().try_clone(alloc) {
                Ok(full) => boxed(alloc, full),
                Err(refused) => Err(refused),
            },
        }
    }
}

impl<'de> FullFieldKey<'de> {
    /// The same key again. It is refused for want of memory alone.
    pub fn try_clone(&self, alloc: Global) -> Result<FullFieldKey<'de>, OutOfMemory>
        ensures { IfOk result (λ copy. copy ≡ self.now) }
    {
        let name = match clone_text(alloc, &self.name) {
            Ok(name) => name,
            Err(refused) => return Err(refused),
        };
        match self.meta.try_clone(alloc) {
            Ok(meta) => Ok(FullFieldKey {
                name,
                location: self.location,
                meta,
            }),
            Err(refused) => {
                drop(name);
                Err(refused)
            }
        }
    }
}

/// A key with metadata, in memory of its own.
fn full<'de>(
    alloc: Global,
    name: Option<Text<'de>>,
    location: FieldLocationHint,
    meta: ValueMeta<'de>,
) -> Result<FieldKey<'de>, OutOfMemory>
    ensures { IfOk result (λ key. key ≡ Full (record { name = name.entry; location = location; meta = meta.entry })) }
{
    let full = FullFieldKey {
        name,
        location,
        meta,
    };
    boxed(alloc, full)
}

fn boxed<'de>(alloc: Global, full: FullFieldKey<'de>) -> Result<FieldKey<'de>, OutOfMemory>
    ensures { IfOk result (λ key. key ≡ Full full.entry) }
{
    match Boxed::new(alloc, full) {
        Ok(full) => Ok(FieldKey::Full(full)),
        Err(refused) => Err(refused),
    }
}
