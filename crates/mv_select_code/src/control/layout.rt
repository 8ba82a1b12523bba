//! Where the globals and the arrays stand that code names.

ghost use Rattle.std.specs.Prelude.{◌≡◌, All};
ghost use Rattle.mv_select_code.specs.Trees.Rooms.{place_in};
ghost use Rattle.mv_select_code.specs.Statements.StatementCode.{home_within};
ghost use Rattle.mv_select_code.specs.Control.FlowCode.{home_of, size_of, is_tested};
ghost use Rattle.mv_select_code.specs.Control.Layouts.{size_in, space_in, array_at_in, array_size_in, IsInFrame};

use crate::statements::elements::{Elements, Home};
use crate::trees::place_of;
use crate::trees::places::{Keeping, Pin, Places};
use mv_ir::body::Room;
use mv_ir::stm::Array;
use mv_num::list::List;

/// Where an array of the frame begins, in bytes above sp, and how many words it has.
#[derive(Clone, Copy, PartialEq, Eq, Debug, Drop)]
pub struct Space {
    pub at: u32,
    pub size: u32,
}

/// Where things stand that the code of a function names, and the label of its end.
#[derive(Debug, Drop)]
pub struct Layout {
    pub rooms: List<Room>,
    /// The registers of the temporaries.
    pub keeping: Keeping,
    /// The numbers that stand in registers.
    pub pins: List<Pin>,
    /// By the arrays' numbers.
    pub arrays: List<Space>,
    pub end: u32,
}

impl Layout {
    /// Where the globals, the temporaries and some numbers stand.
    pub(crate) fn places(&self) -> Places<'_>
        ensures rooms { result.rooms.now ≡ self.now.rooms }
        ensures keeping { result.keeping ≡ self.now.keeping }
        ensures pins { result.pins.now ≡ self.now.pins }
    {
        Places {
            rooms: self.rooms.as_slice(),
            keeping: self.keeping,
            pins: self.pins.as_slice(),
        }
    }

    /// The elements of an array.
    pub(crate) fn elements(&self, array: Array) -> Elements
        requires { All IsInFrame self.now.arrays }
        ensures home { result.home ≡ home_of (place_in self.now.rooms) (array_at_in self.now.arrays) array }
        ensures size { result.size ≡ size_of (size_in self.now.rooms) (array_size_in self.now.arrays) array }
        ensures tested { result.tested ≡ is_tested (size_in self.now.rooms) (array_size_in self.now.arrays) array }
        ensures within { home_within result.home result.size 2032 }
    {
        let rooms = self.rooms.as_slice();
        let arrays = self.arrays.as_slice();
        Elements {
            home: home_of(rooms, arrays, array),
            size: size_of(rooms, arrays, array),
            tested: is_tested(rooms, arrays, array),
        }
    }
}

// How many words a global has, and 0 where it has no room.
fn words_of(rooms: &[Room], global: u32) -> u32
    ensures { result ≡ size_in rooms.now global }
{
    for room in rooms {
        if room.global == global {
            return room.size;
        }
    }
    0
}

/// The space of an array of the frame, by its number. Past the last one it has no words, and is at sp.
pub(crate) fn space_of(arrays: &[Space], array: u32) -> Space
    requires { All IsInFrame arrays.now }
    ensures value { result ≡ space_in arrays.now array }
    ensures within { IsInFrame result }
{
    match arrays.get(array as usize) {
        Some(space) => *space,
        None => Space { at: 0, size: 0 },
    }
}

// Where an array's first element stands: for a global an address, 0 without room, and else the bytes above sp.
fn home_of(rooms: &[Room], arrays: &[Space], array: Array) -> Home
    requires { All IsInFrame arrays.now }
    ensures value { result ≡ home_of (place_in rooms.now) (array_at_in arrays.now) array }
    ensures within { home_within result (size_of (size_in rooms.now) (array_size_in arrays.now) array) 2032 }
{
    match array {
        Array::Global(global) | Array::SureGlobal(global, _) => Home::Data(place_of(rooms, global)),
        Array::Local(local) | Array::SureLocal(local, _) => Home::Frame(space_of(arrays, local).at),
    }
}

// How many elements an array has, and 0 where it has no room.
fn size_of(rooms: &[Room], arrays: &[Space], array: Array) -> u32
    requires { All IsInFrame arrays.now }
    ensures { result ≡ size_of (size_in rooms.now) (array_size_in arrays.now) array }
{
    match array {
        Array::Global(global) | Array::SureGlobal(global, _) => words_of(rooms, global),
        Array::Local(local) | Array::SureLocal(local, _) => space_of(arrays, local).size,
    }
}

// Whether an index is tested: not one that is promised to be below a number up to that of the elements.
fn is_tested(rooms: &[Room], arrays: &[Space], array: Array) -> bool
    requires { All IsInFrame arrays.now }
    ensures { result ≡ is_tested (size_in rooms.now) (array_size_in arrays.now) array }
{
    match array {
        Array::Global(_) | Array::Local(_) => true,
        Array::SureGlobal(global, n) => n > words_of(rooms, global),
        Array::SureLocal(local, n) => n > space_of(arrays, local).size,
    }
}
