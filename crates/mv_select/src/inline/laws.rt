ghost use Rattle.mv_select.specs.Inline.Laws.{InlineIsDone, InlineAnswers, InlineWordsAnswer, InlineFits, InlineIsTheSame};
ghost use Rattle.mv_select.specs.Inline.Shapes.{InlineExactly};

/// What the two instructions of an inline body do where they stand at a call, over any memory `M` and any machine that runs it. The
/// call does nothing: its contract is the law.
///
/// `done`: they do what the body means in two steps, change no register but a0 and t0, and load no word but that of a global that
/// the body reads and that isn't read as a bound value. `answers`: so they answer as a slot does. `words`: and so do two words that
/// are theirs. `fits`: they have encodings. `same`: where the rooms of a well-formed body are the layout's, they are those that the
/// layout gives. `exactly`: a body has them exactly where it has one of the five shapes.
pub fn inline_law<M>()
    ensures done { InlineIsDone M }
    ensures answers { InlineAnswers M }
    ensures words { InlineWordsAnswer M }
    ensures fits { InlineFits }
    ensures same { InlineIsTheSame }
    ensures exactly { InlineExactly }
{}
