//! Text between two bindings: what the memory of the machine holds while a plan's pairs are stored into text one by one.
//!
//! - `text_between_law`: the pairs between two texts are stored into a memory whose text is the old one, by the machine's
//!   own stores. After any of them, in their order, a fetch at each word gives the old word alone, or the new one before
//!   the old one where its pair is stored; behind the last one text is the new text, and FENCE.I forgets all older words
//!   and gives back the reserve. Loads from outside text stay as they were. A test of four lists tells text between two
//!   others. Every store and every FENCE.I keeps that each word of text has a list of older words, and that so much is
//!   spare as these leave.
//! - `texts_of_images_law`: the texts of an image under any two bindings are such texts; their pairs stand where a
//!   function shows that is bound differently, and fit into the plan area with their count; a word at which no binding
//!   shows has one choice, whatever is stored so far; a store behind which text is between two of them finds room.

ghost use Rattle.mv_refine_machine.specs.Stores.Laws.{PairsAreInRange, TextIsBetween, BetweenIsTested, RoomsAreWhole, TextsOfImages, RoomIsLeft, StoresFindRoom};

/// What the text is while the pairs between two texts are stored. The calls do nothing: their contracts are the laws.
///
/// `range`: the addresses of the pairs lie in text, and their words are words. `between`: after some of the pairs a fetch at each
/// word gives the old word alone, or the new one before the old one where its pair is stored; behind the last pair and FENCE.I
/// text is the new one alone. `tested`: a test tells text between two others. `whole`: what each memory keeps of its text.
pub fn text_between_law()
    ensures range { PairsAreInRange }
    ensures between { TextIsBetween }
    ensures tested { BetweenIsTested }
    ensures whole { RoomsAreWhole }
{}

/// The texts of an image under any two bindings are such texts; their pairs stand where a function shows that is bound
/// differently, and fit into the plan area; a word at which no binding shows has one choice, whatever is stored so far. Where
/// text is between two of them, all of the reserve is spare that the older words don't take, so each store finds room.
pub fn texts_of_images_law()
    ensures texts { TextsOfImages }
    ensures left { RoomIsLeft }
    ensures room { StoresFindRoom }
{}
