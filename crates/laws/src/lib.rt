//! What holds of the definitions: each law is the contract of a function that does nothing.
//!
//! The statements stand in `specs/Laws.antt`, over the definitions of `semantics` and `semantics_lines`. Those of lines
//! alone stand in `laws_lines`.
#![tactic(auto)]

ghost use Rattle.laws.specs.Laws.{
  CallsWrite,
  CanonicalForms,
  DefaultIsTyped,
  FormIsValid,
  FormsAreTapes,
  OneOutput,
  OneRun,
  OneShapeText,
  OneShapeTextFault,
  OneValue,
  ReadsTyped,
  RecodesToForm,
  ValidIsReadable,
};
ghost use Rattle.laws.specs.Example.{Example};
ghost use Rattle.laws.specs.FormsExample.{FormsExample};

/// At most one whole run begins a list of events.
pub fn one_run()
    ensures { OneRun }
{}

/// What the definitions say of a struct of two numbers.
pub fn example()
    ensures { Example }
{}

/// What the definitions say of a small value of each form.
pub fn forms_example()
    ensures { FormsExample }
{}

/// Events are read as at most one value.
pub fn one_value()
    ensures { OneValue }
{}

/// What is read at a shape of a checked registry is a value of that shape.
pub fn reads_typed()
    ensures { ReadsTyped }
{}

/// The default of a shape of a checked registry is a value of that shape.
pub fn default_is_typed()
    ensures { DefaultIsTyped }
{}

/// The calls of a value are all of its written form, under any settings of the serializer: they come to their end
/// exactly where there is a form, and their tape is its tape.
pub fn calls_write()
    ensures { CallsWrite }
{}

/// What a value is written as, the entries of its objects in any order, is read as the value.
pub fn canonical_forms()
    ensures { CanonicalForms }
{}

/// Whatever the order of its entries, a value is read as what is written in one way.
pub fn one_output()
    ensures { OneOutput }
{}

/// What a value of a checked registry is written as, in any order of entries, has a tape that can be read line by line.
pub fn forms_are_tapes()
    ensures { FormsAreTapes }
{}

/// The tape of a value that can be read back, in any order of entries, is read, and what is read has the value's form.
pub fn valid_is_readable()
    ensures { ValidIsReadable }
{}

/// Whatever a valid tape is recoded to is the tape of its value's own form.
pub fn recodes_to_form()
    ensures { RecodesToForm }
{}

/// The tape of a value's own form is valid, so that it is recoded to itself.
pub fn form_is_valid()
    ensures { FormIsValid }
{}

/// A shape text has one meaning.
pub fn one_shape_text()
    ensures { OneShapeText }
{}

/// A shape text has at most one first fault.
pub fn one_shape_text_fault()
    ensures { OneShapeTextFault }
{}
