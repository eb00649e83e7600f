//! The frames that are open of a value. Steps change the innermost one where it stands.
ghost use Rattle.std.specs.Prelude.{◌≡◌, [], OnOk};
ghost use Rattle.laws_reading.specs.Values.{Terms};
ghost use Rattle.read_steps.specs.Views.{open_of, outer_of, place_of, with_frame};

use crate::frames::Frame;
use shape_core::OutOfMemory;
use std::alloc::Global;

/// What is open of a value: the innermost frame, and those around it.
#[derive(Drop)]
pub struct Stack<'de> {
    /// The innermost frame.
    pub top: Frame<'de>,
    /// The frames around it, the outermost first.
    pub below: Vec<Frame<'de>>,
}

/// Where something is wrong: inside the innermost frame, or around it.
#[derive(Clone, Copy)]
pub struct Place<'a, 'de> {
    /// What is open.
    pub stack: &'a Stack<'de>,
    /// Whether it is inside the innermost frame.
    pub inside: bool,
}

impl<'de> Stack<'de> {
    /// Nothing is open. This takes no memory.
    pub fn new(alloc: Global) -> Stack<'de>
        ensures { (t : Terms) → open_of t result ≡ [] }
    {
        Stack {
            top: Frame::Bottom,
            below: Vec::new(alloc),
        }
    }

    /// Opens a frame inside those that are open.
    pub fn open(&mut self, frame: Frame<'de>) -> Result<(), OutOfMemory>
        ensures { (t : Terms) → OnOk result (open_of t self.new ≡ with_frame t frame.entry (open_of t self.old)) }
    {
        let outer = std::mem::replace(&mut self.top, frame);
        self.below.push(outer)?;
        Ok(())
    }

    /// Takes the innermost frame off.
    pub fn close(&mut self) -> Frame<'de>
        ensures closed { result ≡ self.old.top }
        ensures outer { (t : Terms) → open_of t self.new ≡ outer_of t self.old }
    {
        let outer = match self.below.pop() {
            Some(frame) => frame,
            None => Frame::Bottom,
        };
        std::mem::replace(&mut self.top, outer)
    }

    /// Puts a frame in the place of the innermost one.
    pub fn replace(&mut self, frame: Frame<'de>)
        ensures { (t : Terms) → open_of t self.new ≡ with_frame t frame.entry (outer_of t self.old) }
    {
        drop(std::mem::replace(&mut self.top, frame));
    }

    /// Inside the innermost frame.
    pub fn inside(&self) -> Place<'_, 'de>
        ensures { (t : Terms) → place_of t result ≡ open_of t self.now }
    {
        Place {
            stack: self,
            inside: true,
        }
    }

    /// Around the innermost frame.
    pub fn outside(&self) -> Place<'_, 'de>
        ensures { (t : Terms) → place_of t result ≡ outer_of t self.now }
    {
        Place {
            stack: self,
            inside: false,
        }
    }
}
