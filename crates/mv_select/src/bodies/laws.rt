ghost use Rattle.mv_select.specs.Bodies.Lines.{FirstsAreNoLabels, LinesAreNamed, NoLinkIsSlot};
ghost use Rattle.mv_select.specs.Bodies.SelectedBodies.{BodiesAreFunctions, BodiesAreSmall, CodeIsTheSame, RoomsStand};

/// A well-formed body whose trees have at most four nodes one below the other, whose frame has at most 2,032 bytes and whose orders
/// are a byte and a word has at most 507 temporaries, and its code is small, as `push_statements` of `mv_select_code::control` asks. The call
/// does nothing: its contract is the law.
pub fn bodies_are_small()
    ensures { BodiesAreSmall }
{}

/// The code of a well-formed body names no global without a room. So where each room is what the program's layout says, the code
/// that is written from the rooms is the code that is written from the layout. The call does nothing: its contract is the law.
pub fn code_is_the_same()
    ensures { CodeIsTheSame }
{}

/// A well-formed body within the limits is one that the laws on the code of functions speak of, where its rooms are the layout's,
/// its constants are words, it asks for known functions that it may, names functions that there are, and its trees read no global
/// that is read as bound. The call does nothing: its contract is the law.
pub fn bodies_are_functions()
    ensures { BodiesAreFunctions }
{}

/// Rooms that each stand where the layout has their globals are the layout's, as the other laws ask. The call does nothing: its
/// contract is the law.
pub fn rooms_stand()
    ensures { RoomsStand }
{}

/// What the code of a function names. The call does nothing: its contract is the law.
///
/// `names`: it jumps to labels of its own and the stubs of the traps 1 to 4, calls the stub of orders and polls and no other label, and names no function
/// that its statements don't name; those that stand in slots are attributed. `first`: wherever it stands, each label is behind its first word, so that no
/// jump but a call leads there. `links`: and no address that one of its lines puts into a register is the first word of a slot.
pub fn lines_are_named()
    ensures names { LinesAreNamed }
    ensures first { FirstsAreNoLabels }
    ensures links { NoLinkIsSlot }
{}
